//! The result of each command for bytes that were loaded.
ghost use Rattle.std.specs.Prelude.{IfOk, option_map, string_bytes};
ghost use Rattle.plist_forms.specs.Status.{status_code};
ghost use Rattle.plist_convert.specs.Answer.{AnswersTask, IsCheckAnswer, IsCheckAnswerOf};
ghost use Rattle.plist_convert.specs.Answer.{IsLintAnswer, IsSameAnswer, Says};
ghost use Rattle.plist_convert.specs.Answer.{explained_said, refusal, said, said_of};
ghost use Rattle.plist_convert.specs.Answer.{word_said};

use crate::verdicts::{verdict_line_of, verdict_status};
use plist_canon::check_with_hasher;
use plist_explain::{explanation, list};
use plist_forms::{Fault, PairFault, Status, judge_any, line, same_files_with_hasher};
use std::alloc::{AllocError, Global};
use std::hash::BuildHasher;

/// The printed text, with its line end, and the exit status.
#[derive(Debug, Drop)]
pub struct Answer {
    pub text: String,
    pub status: Status,
}

// A command that prints a line for each file.
#[derive(Clone, Copy)]
pub(crate) enum Task {
    // `check`, whose line of a verdict has the path or not.
    Check { named: bool },
    // `lint`.
    Lint,
}

/// Returns the result of `check` for the bytes of the file at the path. It is `canonical` and 0 if
/// and only if they are the canonical file of a value within the limits. Otherwise it is a line
/// like `broken C7 at object 0` and 1 with a rule that is broken, or the line of a refusal if the
/// bytes do not have the layout.
///
/// Scalars are hashed with the hasher of this builder. If somebody else chooses the bytes, pass a
/// [`RandomState`](std::hash::RandomState): scalars chosen to collide under
/// [`FixedHasher`](plist_value::FixedHasher) then cost no more than others.
///
/// # Errors
///
/// [`AllocError`] if out of memory for the line.
pub fn check_answer<H: BuildHasher + Copy>(
    alloc: Global,
    hasher: H,
    path: &str,
    octets: &[u8],
) -> Result<Answer, AllocError>
    ensures { IfOk result (λ answer. IsCheckAnswer path.now octets.now (said_of answer)) }
{
    check_answer_of(alloc, hasher, false, path, octets)
}

/// Like [`check_answer`], but if the file is to be `named`, the line of a verdict has its path, as
/// `PATH: canonical` has.
///
/// # Errors
///
/// [`AllocError`] if out of memory for the line.
pub fn check_answer_of<H: BuildHasher + Copy>(
    alloc: Global,
    hasher: H,
    named: bool,
    path: &str,
    octets: &[u8],
) -> Result<Answer, AllocError>
    ensures { IfOk result (λ answer.
        IsCheckAnswerOf named path.now octets.now (said_of answer)) }
{
    match check_with_hasher(alloc, hasher, octets) {
        Ok(verdict) => {
            let line = verdict_line_of(alloc, named, path, verdict)?;
            with_line_end(line, verdict_status(verdict))
        }
        Err(fault) => refused(alloc, path, &Fault::from(fault)),
    }
}

/// Returns the result of `lint` for the bytes of the file at the path: `PATH: OK` and 0 if they are
/// accepted, otherwise the line of a fault in them.
///
/// # Errors
///
/// [`AllocError`] if out of memory for the line.
pub fn lint_answer(alloc: Global, path: &str, octets: &[u8]) -> Result<Answer, AllocError>
    ensures { IfOk result (λ answer. IsLintAnswer path.now octets.now (said_of answer)) }
{
    match judge_any(alloc, octets) {
        Ok(()) => with_line_end(format!(in alloc; "{path}: OK")?, Status::Done),
        Err(fault) => refused(alloc, path, &fault),
    }
}

// Returns the result of the task for the bytes of the file at the path.
pub(crate) fn task_answer<H: BuildHasher + Copy>(
    alloc: Global,
    hasher: H,
    task: Task,
    path: &str,
    octets: &[u8],
) -> Result<Answer, AllocError>
    ensures { IfOk result (λ answer. AnswersTask task path.now octets.now (said_of answer)) }
{
    match task {
        Task::Check { named } => check_answer_of(alloc, hasher, named, path, octets),
        Task::Lint => lint_answer(alloc, path, octets),
    }
}

/// Returns the result of `same` for the bytes of two files. It is `equal` and 0 if and only if they
/// encode equal values, and `different` and 1 if they encode different values. Otherwise it is the
/// line of a refusal with the path of the refused file, of the second only if the first is
/// accepted. Scalars are hashed like in [`check_answer`].
///
/// # Errors
///
/// [`AllocError`] if out of memory for the line.
pub fn same_answer<H: BuildHasher + Copy>(
    alloc: Global,
    hasher: H,
    first: &str,
    second: &str,
    a: &[u8],
    b: &[u8],
) -> Result<Answer, AllocError>
    ensures { IfOk result (λ answer.
        IsSameAnswer first.now second.now a.now b.now (said_of answer)) }
{
    match same_files_with_hasher(alloc, hasher, a, b) {
        Ok(true) => with_line_end(String::from_str(alloc, "equal")?, Status::Done),
        Ok(false) => with_line_end(String::from_str(alloc, "different")?, Status::Differs),
        Err(PairFault::First(fault)) => refused(alloc, first, &fault),
        Err(PairFault::Second(fault)) => refused(alloc, second, &fault),
    }
}

/// Returns the result of `explain`: the explanation of the refusal or rule that the word names, or
/// an error if it names none. Without a word, returns a line for each.
///
/// # Errors
///
/// [`AllocError`] if out of memory.
pub fn explain_answer(alloc: Global, what: Option<&str>) -> Result<Answer, AllocError>
    ensures { IfOk result (λ answer. Says (said_of answer)
        (explained_said (option_map (λ word. word.now) what.entry))) }
{
    match what {
        Some(word) => explained(alloc, word),
        None => Ok(Answer {
            text: list(alloc)?,
            status: Status::Done,
        }),
    }
}

fn explained(alloc: Global, word: &str) -> Result<Answer, AllocError>
    ensures { IfOk result (λ answer. Says (said_of answer) (word_said word.now)) }
{
    if let Some(text) = explanation(alloc, word)? {
        return Ok(Answer {
            text,
            status: Status::Done,
        });
    }
    let line = format!(in alloc;
        "error: '{word}' is no refusal and no rule: plistconv explain lists them"
    )?;
    with_line_end(line, Status::BadWords)
}

/// Returns the line of a refusal, with its exit status.
///
/// # Errors
///
/// [`AllocError`] if out of memory for the line.
pub fn refused(alloc: Global, path: &str, fault: &Fault) -> Result<Answer, AllocError>
    ensures { IfOk result (λ answer. Says (said_of answer) (refusal path.now fault.now)) }
{
    let line = line(alloc, path, fault)?;
    with_line_end(line, fault.end_status())
}

// Appends a line end.
fn with_line_end(line: String, status: Status) -> Result<Answer, AllocError>
    ensures { IfOk result (λ answer.
        Says (said_of answer) (said (string_bytes line) (status_code status))) }
{
    let mut text = line;
    text.push('\n')?;
    Ok(Answer { text, status })
}
