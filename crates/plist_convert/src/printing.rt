//! Printing, and the exit status that results.
ghost use Rattle.std.specs.Prelude.{◌≡◌, ◌↔◌, ◌⊎◌, IfOk, IsOkAnd, MatchResult, IsTrue, false};
ghost use Rattle.std.specs.Prelude.{string_bytes};
ghost use Rattle.clap.specs.Words.{kind_of};
ghost use Rattle.plist_forms.specs.Status.{status_code};
ghost use Rattle.plist_convert.specs.Answer.{refusal, said_of};
ghost use Rattle.plist_convert.specs.Ending.{Ends, HaveFailed, Prints};
ghost use Rattle.plist_convert.specs.Ending.{no_memory as no_memory_said};
ghost use Rattle.plist_convert.specs.Explaining.{Explains, IsExplanation, status_of_kind};

use crate::answers::{Answer, refused};
use clap::error::{Error, ErrorKind};
use plist_devices::{Sink, put_all};
use plist_forms::{Fault, Status};
use std::alloc::{AllocError, Global};

// Prints the text and returns the status, or 4 if the text cannot be printed.
pub(crate) fn print_text<W: Sink>(output: &mut W, text: &str, status: Status) -> u8
    ensures ends { Prints (W.taken output.old) (W.taken output.new)
        (W.failures output.old) (W.failures output.new)
        (record { text = text.now; status = status_code status }) result }
    ensures same { W.device output.new ≡ W.device output.old }
{
    match put_all(text.as_bytes(), output) {
        Ok(()) => status.code(),
        Err(_) => Status::DeviceFailed.code(),
    }
}

// Prints a result and returns its exit status.
pub(crate) fn print_answer<W: Sink>(output: &mut W, answer: Result<Answer, AllocError>) -> u8
    ensures ends { MatchResult answer
        (λ answer. Prints (W.taken output.old) (W.taken output.new)
        (W.failures output.old) (W.failures output.new) (said_of answer) result)
        (λ _. Prints (W.taken output.old) (W.taken output.new)
        (W.failures output.old) (W.failures output.new) no_memory_said result) }
    ensures same { W.device output.new ≡ W.device output.old }
{
    match answer {
        Ok(answer) => print_text(output, answer.text.as_str(), answer.status),
        Err(_) => print_no_memory(output),
    }
}

// Prints the line of a refusal and returns its exit status.
pub(crate) fn print_refusal<W: Sink>(alloc: Global, path: &str, fault: &Fault, output: &mut W) -> u8
    ensures ends { Ends (W.taken output.old) (W.taken output.new)
        (W.failures output.old) (W.failures output.new) (refusal path.now fault.now) result }
    ensures same { W.device output.new ≡ W.device output.old }
{
    match refused(alloc, path, fault) {
        Ok(answer) => print_text(output, answer.text.as_str(), answer.status),
        Err(_) => print_no_memory(output),
    }
}

// Prints the message of `clap` and returns the exit status.
pub(crate) fn print_message<W: Sink>(alloc: Global, error: &Error, output: &mut W) -> u8
    ensures ends { Explains (kind_of error.now) (W.taken output.old) (W.taken output.new)
        (W.failures output.old) (W.failures output.new) result }
    ensures same { W.device output.new ≡ W.device output.old }
{
    let status = status_of(error);
    print_if_message(format!(in alloc; "{error}"), status, output)
}

// Prints the message, or the line for out of memory if there is none.
fn print_if_message<W: Sink>(
    message: Result<String, AllocError>,
    status: Status,
    output: &mut W,
) -> u8
    ensures told { IfOk message (λ text. IsExplanation (status_code status) (string_bytes text)
        → Prints (W.taken output.old) (W.taken output.new)
        (W.failures output.old) (W.failures output.new)
        (record { text = string_bytes text; status = status_code status }) result) }
    ensures ends { IsOkAnd message (λ text. IsExplanation (status_code status) (string_bytes text)
        × Prints (W.taken output.old) (W.taken output.new)
        (W.failures output.old) (W.failures output.new)
        (record { text = string_bytes text; status = status_code status }) result)
        ⊎ Prints (W.taken output.old) (W.taken output.new)
        (W.failures output.old) (W.failures output.new) no_memory_said result }
    ensures same { W.device output.new ≡ W.device output.old }
{
    match message {
        Ok(text) if is_message(text.as_str(), status) => print_text(output, text.as_str(), status),
        _ => print_no_memory(output),
    }
}

// Returns whether the text can be a message of `clap` with this status. A usage error begins with
// `error: `. There is no message if out of memory.
fn is_message(text: &str, status: Status) -> bool
    ensures { IsTrue result ↔ IsExplanation (status_code status) text.now }
{
    match status {
        Status::NoMemory => false,
        Status::BadWords => text.as_bytes().starts_with(b"error: "),
        _ => !text.is_empty(),
    }
}

fn status_of(error: &Error) -> Status
    ensures { status_code result ≡ status_of_kind (kind_of error.now) }
{
    match error.kind() {
        ErrorKind::OutOfMemory => Status::NoMemory,
        ErrorKind::DisplayHelp | ErrorKind::DisplayVersion => Status::Done,
        _ => Status::BadWords,
    }
}

fn print_no_memory<W: Sink>(output: &mut W) -> u8
    ensures ends { Prints (W.taken output.old) (W.taken output.new)
        (W.failures output.old) (W.failures output.new) no_memory_said result }
    ensures same { W.device output.new ≡ W.device output.old }
{
    print_text(output, "refused 60 OutOfMemory\n", Status::NoMemory)
}

// Returns whether printing failed between these two counts of failures. Once a count is `u64::MAX`
// everything that is printed fails.
pub(crate) fn have_failed(before: u64, after: u64) -> bool
    ensures failed { IsTrue result → HaveFailed before after }
    ensures printed { result ≡ false → HaveFailed before after → ⊥ }
{
    before < after || after == u64::MAX
}
