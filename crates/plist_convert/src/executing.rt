//! Executes each command on the files of its arguments.
ghost use Rattle.std.specs.Prelude.{◌≡◌, ℕ, Option, map, option_map};
ghost use Rattle.plist_forms.specs.Load.{octets_or as found_or};
ghost use Rattle.plist_convert.specs.Answer.{AnswersTask};
ghost use Rattle.plist_convert.specs.Files.{Files};
ghost use Rattle.plist_convert.specs.Runs.{IsConvertRun, IsExplainRun, IsFileRun, IsPrintRun};
ghost use Rattle.plist_convert.specs.Runs.{IsRunOfEach, IsSameRun, path_of_fault};
ghost use Rattle.plist_convert.specs.State.{run_state, state};

use crate::answers::{Task, explain_answer, same_answer, task_answer};
use crate::created_file::Target;
use crate::file_disk::FileDisk;
use crate::filtering::STANDARD;
use crate::opens::Steady;
use crate::printing::{have_failed, print_answer, print_refusal};
use plist_devices::Sink;
use plist_forms::{Fault, Status, print};
use std::alloc::Global;
use std::hash::BuildHasher;

// Executes the task for each path. Only one file is in memory at a time.
pub(crate) fn answer_files<O: Steady, H: BuildHasher + Copy, W: Sink>(
    alloc: Global,
    disk: &mut FileDisk<O, H>,
    task: Task,
    paths: &[&str],
    output: &mut W,
) -> u8
    ensures run { IsRunOfEach (AnswersTask task) (map (λ path. path.now) paths.now) 0
        (run_state O.files W.taken W.failures disk.old output.old)
        (run_state O.files W.taken W.failures disk.new output.new) result }
    ensures same { W.device output.new ≡ W.device output.old }
{
    let mut status = 0u8;
    for path in paths {
        let failures = output.failures();
        status = status.max(answer_file(alloc, disk, task, path, output));
        if have_failed(failures, output.failures()) {
            return Status::DeviceFailed.code();
        }
    }
    status
}

// Executes the task for one path.
fn answer_file<O: Steady, H: BuildHasher + Copy, W: Sink>(
    alloc: Global,
    disk: &mut FileDisk<O, H>,
    task: Task,
    path: &str,
    output: &mut W,
) -> u8
    ensures run { IsFileRun (AnswersTask task path.now) path.now
        (run_state O.files W.taken W.failures disk.old output.old)
        (run_state O.files W.taken W.failures disk.new output.new) result }
    ensures same { W.device output.new ≡ W.device output.old }
{
    match disk.load(alloc, path) {
        Ok(octets) => print_answer(
            output,
            task_answer(alloc, disk.hasher, task, path, octets.as_slice()),
        ),
        Err(fault) => print_refusal(alloc, path, &fault, output),
    }
}

// Executes `same A B`. Loads both files before it reads them. Identical files are in memory only
// once.
pub(crate) fn compare_files<O: Steady, H: BuildHasher + Copy, W: Sink>(
    alloc: Global,
    disk: &mut FileDisk<O, H>,
    first: &str,
    second: &str,
    output: &mut W,
) -> u8
    ensures run { IsSameRun first.now second.now
        (run_state O.files W.taken W.failures disk.old output.old)
        (run_state O.files W.taken W.failures disk.new output.new) result }
    ensures same { W.device output.new ≡ W.device output.old }
{
    let loaded = match disk.load(alloc, first) {
        Ok(octets) => octets,
        Err(fault) => return print_refusal(alloc, first, &fault, output),
    };
    let a = loaded.as_slice();
    match disk.load_unless(alloc, second, a) {
        Ok(found) => {
            let b = octets_or(a, &found);
            print_answer(output, same_answer(alloc, disk.hasher, first, second, a, b))
        }
        Err(fault) => print_refusal(alloc, second, &fault, output),
    }
}

// Returns the bytes that were found, or the known ones if there are no others.
fn octets_or<'a>(known: &'a [u8], found: &'a Option<Vec<u8>>) -> &'a [u8]
    ensures { result.now ≡ found_or known.now found.now }
{
    match found {
        Some(octets) => octets.as_slice(),
        None => known,
    }
}

// Executes `convert FORM IN OUT`. OUT is created or emptied when its first byte is written, so it
// is unchanged if IN is refused.
pub(crate) fn convert_file<O: Steady, H: BuildHasher + Copy, W: Sink>(
    alloc: Global,
    disk: &mut FileDisk<O, H>,
    from: &str,
    to: Target,
    output: &mut W,
) -> u8
    ensures run { IsConvertRun to.entry.form from.now to.entry.path.now
        (run_state O.files W.taken W.failures disk.old output.old)
        (run_state O.files W.taken W.failures disk.new output.new) result }
    ensures same { W.device output.new ≡ W.device output.old }
{
    let octets = match disk.load(alloc, from) {
        Ok(octets) => octets,
        Err(fault) => return print_refusal(alloc, from, &fault, output),
    };
    match disk.store(alloc, to.path, octets, to.form) {
        Ok(_) => Status::Done.code(),
        Err(fault) => print_refusal(alloc, path_of(&fault, from, to.path), &fault, output),
    }
}

// Executes `print IN`. Prints object by object, and only if IN is accepted.
pub(crate) fn print_file<O: Steady, H: BuildHasher + Copy, W: Sink>(
    alloc: Global,
    disk: &mut FileDisk<O, H>,
    path: &str,
    output: &mut W,
) -> u8
    ensures run { IsPrintRun path.now
        (run_state O.files W.taken W.failures disk.old output.old)
        (run_state O.files W.taken W.failures disk.new output.new) result }
    ensures same { W.device output.new ≡ W.device output.old }
{
    let octets = match disk.load(alloc, path) {
        Ok(octets) => octets,
        Err(fault) => return print_refusal(alloc, path, &fault, output),
    };
    match print(alloc, octets.as_slice(), output) {
        Ok(_) => Status::Done.code(),
        Err(fault) => print_refusal(alloc, path_of(&fault, path, STANDARD), &fault, output),
    }
}

// Executes `explain WHAT`.
pub(crate) fn explain_what<W: Sink>(alloc: Global, what: Option<&str>, output: &mut W) -> u8
    ensures run { (disk : ℕ) (files : Option Files) → IsExplainRun
        (option_map (λ word. word.now) what.entry)
        (state files disk (W.taken output.old) (W.failures output.old))
        (state files disk (W.taken output.new) (W.failures output.new)) result }
    ensures same { W.device output.new ≡ W.device output.old }
{
    print_answer(output, explain_answer(alloc, what))
}

// Returns the path that the line of a refusal names.
fn path_of<'a>(fault: &Fault, from: &'a str, to: &'a str) -> &'a str
    ensures { result.now ≡ path_of_fault from.now to.now fault.now }
{
    match fault {
        Fault::WriteFailed { .. } => to,
        _ => from,
    }
}
