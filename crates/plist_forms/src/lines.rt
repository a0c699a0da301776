//! Printing a refusal.
ghost use Rattle.std.specs.Prelude.{◌≡◌, IfOk, string_bytes};
ghost use Rattle.plist_forms.specs.Line.{line_of};

use crate::Fault;
use std::alloc::{AllocError, Global};

/// Returns the line of a refusal, without a line end: `PATH: refused 11 NotAscii at object 0`.
///
/// A fault of an object ends in `at object N`, a failed write and out of memory in
/// `after N octets`.
pub fn line(alloc: Global, path: &str, fault: &Fault) -> Result<String, AllocError>
    ensures { IfOk result (λ text. string_bytes text ≡ line_of path.now fault.now) }
{
    format!(in alloc; "{path}: refused {fault}")
}
