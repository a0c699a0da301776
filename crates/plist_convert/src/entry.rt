//! The complete program.
ghost use Rattle.std.specs.Prelude.{◌≡◌, map};
ghost use Rattle.plist_convert.specs.Asked.{asked_by};
ghost use Rattle.plist_convert.specs.FileDisk.{disk_failures};
ghost use Rattle.plist_convert.specs.Program.{DeviceFailed, IsAskedRun, IsHostRun, IsRun};
ghost use Rattle.plist_convert.specs.Runs.{are_named};
ghost use Rattle.plist_convert.specs.State.{input_of, run_state};

use crate::answers::Task;
use crate::arguments::read_words;
use crate::created_file::Target;
use crate::executing::{answer_files, compare_files, convert_file, explain_what, print_file};
use crate::file_disk::FileDisk;
use crate::filtering::filter;
use crate::host_disk::HostDisk;
use crate::opens::Steady;
use crate::printing::print_message;
use crate::random_keys::random_state;
use crate::request::Request;
use plist_devices::{Sink, Source, Stream};
use plist_value::FixedHasher;
use std::alloc::Global;
use std::hash::BuildHasher;
use std::io::{Read, Write};
use std::random::RandomSource;
use std::rt::Files;

/// Runs the complete program on the files of the host. Parses the arguments, of which the first is
/// the program's name, executes the command, and returns the exit status:
/// - 0: done;
/// - 1: the values differ, or the checked file is not canonical;
/// - 2: a file is refused;
/// - 3: usage error;
/// - 4: a file cannot be read or written, or a line cannot be printed;
/// - 5: out of memory.
///
/// `input` and `output` are standard input and standard output. Without a command all of the input
/// is read, with a command nothing. All results, refusals and messages of `clap` are printed to
/// `output`.
pub fn run<R: Files, I: Read, O: Write>(
    rt: &R,
    alloc: Global,
    words: &[&str],
    input: &mut I,
    output: &mut O,
) -> u8
    ensures { IsHostRun (map (λ word. word.now) words.now) (I.remaining input.old)
        (I.remaining input.new) (O.contents output.old) (O.contents output.new) result }
{
    let mut disk = HostDisk::new(rt, FixedHasher::new());
    run_on_host(alloc, &mut disk, words, input, output)
}

/// Runs the complete program with random keys for the hashes of scalars, so that nobody can choose
/// scalars that collide; otherwise like [`run`], with equal results. The keys are those of one
/// [`RandomState`](std::hash::RandomState): random bytes from the system, or from `/dev/urandom`.
/// Without either the fixed hasher is used. `main` calls this function.
pub fn run_to_end<R: Files + RandomSource, I: Read, O: Write>(
    rt: &R,
    alloc: Global,
    words: &[&str],
    input: &mut I,
    output: &mut O,
) -> u8
    ensures { IsHostRun (map (λ word. word.now) words.now) (I.remaining input.old)
        (I.remaining input.new) (O.contents output.old) (O.contents output.new) result }
{
    match random_state(rt) {
        Ok(hasher) => run_on_host(alloc, &mut HostDisk::new(rt, hasher), words, input, output),
        Err(_) => run(rt, alloc, words, input, output),
    }
}

// Runs the program on the files and streams of the host.
fn run_on_host<H: BuildHasher + Copy, R: Files, I: Read, O: Write>(
    alloc: Global,
    disk: &mut HostDisk<R, H>,
    words: &[&str],
    input: &mut I,
    output: &mut O,
) -> u8
    requires { disk_failures disk.old ≡ 0 }
    ensures { IsHostRun (map (λ word. word.now) words.now) (I.remaining input.old)
        (I.remaining input.new) (O.contents output.old) (O.contents output.new) result }
{
    let mut source = Stream::new(input);
    let mut sink = Stream::new(output);
    run_on(alloc, disk, words, &mut source, &mut sink)
}

/// Runs the complete program on any files and streams, like [`run`] on the files of the host.
/// Scalars are hashed with the hasher of the disk.
pub fn run_on<O: Steady, H: BuildHasher + Copy, S: Source, W: Sink>(
    alloc: Global,
    disk: &mut FileDisk<O, H>,
    words: &[&str],
    input: &mut S,
    output: &mut W,
) -> u8
    ensures run { IsRun (map (λ word. word.now) words.now)
        (input_of (S.remaining input.old) (S.failures input.old))
        (input_of (S.remaining input.new) (S.failures input.new))
        (run_state O.files W.taken W.failures disk.old output.old)
        (run_state O.files W.taken W.failures disk.new output.new) result }
    ensures same { W.device output.new ≡ W.device output.old }
    ensures device { S.device input.new ≡ S.device input.old }
    // The exit status is 4 only if a device failed.
    ensures blamed { result ≡ 4 → DeviceFailed
        (input_of (S.remaining input.old) (S.failures input.old))
        (input_of (S.remaining input.new) (S.failures input.new))
        (run_state O.files W.taken W.failures disk.old output.old)
        (run_state O.files W.taken W.failures disk.new output.new) }
{
    match read_words(alloc, words) {
        Ok(request) => execute(alloc, disk, request, input, output),
        Err(error) => print_message(alloc, &error, output),
    }
}

// Executes the command.
fn execute<O: Steady, H: BuildHasher + Copy, S: Source, W: Sink>(
    alloc: Global,
    disk: &mut FileDisk<O, H>,
    request: Request,
    input: &mut S,
    output: &mut W,
) -> u8
    ensures run { IsAskedRun (asked_by request.entry)
        (input_of (S.remaining input.old) (S.failures input.old))
        (input_of (S.remaining input.new) (S.failures input.new))
        (run_state O.files W.taken W.failures disk.old output.old)
        (run_state O.files W.taken W.failures disk.new output.new) result }
    ensures same { W.device output.new ≡ W.device output.old }
    ensures device { S.device input.new ≡ S.device input.old }
{
    match request {
        Request::Filter => filter(alloc, disk.hasher, input, output),
        Request::Convert { form, from, to } => {
            convert_file(alloc, disk, from, Target { path: to, form }, output)
        }
        Request::Same { first, second } => compare_files(alloc, disk, first, second, output),
        Request::Lint { paths } => answer_files(alloc, disk, Task::Lint, paths.as_slice(), output),
        Request::Check { named, paths } => {
            let paths = paths.as_slice();
            let named = are_named(named, paths);
            answer_files(alloc, disk, Task::Check { named }, paths, output)
        }
        Request::Print { path } => print_file(alloc, disk, path, output),
        Request::Explain { what } => explain_what(alloc, what, output),
    }
}

// Returns whether each line of `check` has its path.
fn are_named(named: bool, paths: &[&str]) -> bool
    ensures { result ≡ are_named named (map (λ path. path.now) paths.now) }
{
    named || paths.len() > 1
}
