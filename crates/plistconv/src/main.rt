//! The program `plistconv`: `plist_convert::run_to_end` over the arguments, standard input and
//! standard output.
#![tactic(auto)]

ghost use Rattle.std.specs.Prelude.{◌≡◌, ◌≢◌, ◌⊎◌, ℕ, IfErr, IfOk, IfSome, List, map, string_bytes};
ghost use Rattle.std.specs.IoError.{error_kind};
ghost use Rattle.plist_convert.specs.Ending.{Prints, no_memory};
ghost use Rattle.plist_convert.specs.Explaining.{IsExplanation};
ghost use Rattle.plist_convert.specs.Program.{IsHostRun};

use plist_convert::{Status, Stream, put_all, run_to_end};
use std::alloc::{AllocError, Global};
use std::io::{ErrorKind, Read, Write};
use std::process::ExitCode;
use std::random::RandomSource;
use std::rt::{Env, Files};
use std::{env, io};

// How a line for an argument that is not UTF-8 begins.
const USAGE_ERROR: &str = "error: ";

// The line for an argument that is not UTF-8, if there is no memory to name it.
const UNNAMED: &str = "error: an argument is not UTF-8\n";

// Only this function and the next have the runtime. The others have what they are generic in.
fn main(rt: HostRuntime) -> ExitCode {
    let arguments = arguments(&rt);
    let (input, output) = (&mut rt.stdin(), &mut rt.stdout());
    ExitCode::from(status(&rt, rt.alloc(), arguments, input, output))
}

fn arguments(rt: &HostRuntime) -> io::Result<Vec<String>> {
    Ok(env::args(rt)?.collect(rt.alloc())?)
}

// Runs the program on these arguments and returns its exit status. Prints a line if they could not
// be read, or if out of memory before it begins.
fn status<R: Env + Files + RandomSource, I: Read, O: Write>(
    host: &R,
    alloc: Global,
    arguments: io::Result<Vec<String>>,
    input: &mut I,
    output: &mut O,
) -> u8
    ensures run { IfOk arguments (λ owned.
        IsHostRun (map (λ word. string_bytes word) owned.items)
        (I.remaining input.old) (I.remaining input.new)
        (O.contents output.old) (O.contents output.new) result
        ⊎ ((I.remaining input.new ≡ I.remaining input.old)
        × ((failures : ℕ) × Prints (O.contents output.old) (O.contents output.new) 0 failures
        no_memory result))) }
    ensures words { IfErr arguments (λ error. error_kind error ≢ ErrorKind.OutOfMemory
        → (text : List ℕ) × IsExplanation 3 text × ((failures : ℕ)
        × Prints (O.contents output.old) (O.contents output.new) 0 failures
        (record { text = text; status = 3 }) result)) }
    ensures memory { IfErr arguments (λ error. error_kind error ≡ ErrorKind.OutOfMemory
        → ((failures : ℕ) × Prints (O.contents output.old) (O.contents output.new) 0 failures
        no_memory result)) }
    ensures unread { IfErr arguments (λ _. I.remaining input.new ≡ I.remaining input.old) }
{
    match arguments {
        Ok(arguments) => match borrowed(alloc, arguments.as_slice()) {
            Ok(words) => run_to_end(host, alloc, words.as_slice(), input, output),
            Err(_) => refuse_memory(output),
        },
        Err(error) if error.kind() != ErrorKind::OutOfMemory => refuse_words(alloc, host, output),
        Err(_) => refuse_memory(output),
    }
}

// Prints the line for out of memory and returns the exit status, or 4 if it cannot be printed.
fn refuse_memory<O: Write>(output: &mut O) -> u8
    ensures { (failures : ℕ) × Prints (O.contents output.old) (O.contents output.new) 0 failures
        no_memory result }
{
    refuse(output, "refused 60 OutOfMemory\n", Status::NoMemory.code())
}

// Prints a line for arguments that are not all UTF-8 and returns the exit status, or 4 if the line
// cannot be printed. The line names the first of them, if there is memory for that.
fn refuse_words<E: Env, O: Write>(alloc: Global, env: &E, output: &mut O) -> u8
    ensures { (text : List ℕ) × IsExplanation 3 text × ((failures : ℕ)
        × Prints (O.contents output.old) (O.contents output.new) 0 failures
        (record { text = text; status = 3 }) result) }
{
    match bad_word(alloc, env) {
        Ok(Some(line)) => refuse(output, line.as_str(), Status::BadWords.code()),
        _ => refuse(output, UNNAMED, Status::BadWords.code()),
    }
}

// Returns the line for the first argument that is not UTF-8, if it has at most 4,096 bytes. The
// program's name is argument 0.
fn bad_word<E: Env>(alloc: Global, env: &E) -> Result<Option<String>, AllocError>
    ensures { IfOk result (λ found. IfSome found (λ line. IsExplanation 3 (string_bytes line))) }
{
    let mut buffer = [0u8; 4096];
    for number in 0..usize::MAX {
        match env.arg(number, &mut buffer) {
            Ok(length) => {
                let word = &buffer[..length];
                if str::from_utf8(word).is_err() {
                    return Ok(Some(word_line(alloc, number, word)?));
                }
            }
            Err(_) => return Ok(None),
        }
    }
    Ok(None)
}

// Returns the line for an argument that is not UTF-8. In it bytes that are not printable ASCII are
// escaped, as in `caf\xe9.plist`.
fn word_line(alloc: Global, number: usize, word: &[u8]) -> Result<String, AllocError>
    ensures { IfOk result (λ line. IsExplanation 3 (string_bytes line)) }
{
    let fault = format!(in alloc; "argument {number} is not UTF-8: {}\n", word.escape_ascii())?;
    let mut line = String::new(alloc);
    line.push_str(USAGE_ERROR)?;
    line.push_str(fault.as_str())?;
    Ok(line)
}

fn borrowed<'a>(alloc: Global, texts: &'a [String]) -> Result<Vec<&'a str>, AllocError>
    ensures { IfOk result (λ words. map (λ word. word.now) words.items
        ≡ map (λ text. string_bytes text) texts.now) }
{
    texts.iter().map(|text| text.as_str()).collect(alloc)
}

// Prints the line and returns the exit status, or 4 if the line cannot be printed.
fn refuse<O: Write>(output: &mut O, line: &str, status: u8) -> u8
    ensures { (failures : ℕ) × Prints (O.contents output.old) (O.contents output.new) 0 failures
        (record { text = line.now; status = status }) result }
{
    match put_all(line.as_bytes(), &mut Stream::new(output)) {
        Ok(()) => status,
        Err(_) => Status::DeviceFailed.code(),
    }
}
