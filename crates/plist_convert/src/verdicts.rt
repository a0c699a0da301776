//! How the verdict of a check is printed.
ghost use Rattle.std.specs.Prelude.{◌≡◌, IfOk, string_bytes};
ghost use Rattle.plist_forms.specs.Status.{status_code};
ghost use Rattle.plist_convert.specs.Verdicts.{verdict_line_of as verdict_line_for};
ghost use Rattle.plist_convert.specs.Verdicts.{verdict_status_for};

use plist_canon::Verdict;
use plist_forms::Status;
use std::alloc::{AllocError, Global};

// Returns the line of a verdict, without a line end, such as `canonical` or `broken C7 at object
// 0`, after the path and `: ` if the file is to be named.
pub(crate) fn verdict_line_of(
    alloc: Global,
    named: bool,
    path: &str,
    verdict: Verdict,
) -> Result<String, AllocError>
    ensures { IfOk result (λ text.
        string_bytes text ≡ verdict_line_for named path.now verdict) }
{
    let line = match verdict {
        Verdict::Canonical => format!(in alloc; "canonical")?,
        Verdict::Broken { rule, object } => format!(in alloc; "broken C{rule} at object {object}")?,
    };
    if named {
        format!(in alloc; "{path}: {line}")
    } else {
        Ok(line)
    }
}

// Returns the exit status: 0 for a canonical file, 1 for any other.
pub(crate) fn verdict_status(verdict: Verdict) -> Status
    ensures { status_code result ≡ verdict_status_for verdict }
{
    match verdict {
        Verdict::Canonical => Status::Done,
        Verdict::Broken { .. } => Status::Differs,
    }
}
