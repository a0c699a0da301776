//! Checking whether an input is accepted.
ghost use Rattle.std.specs.Prelude.{◌≡◌, ◌≢◌, IfErr, OnOk};
ghost use Rattle.plist_value.specs.Plist.{Plist};
ghost use Rattle.plistconv_c.specs.Answers.{IsLinted, IsRefusalReported};
ghost use Rattle.plistconv_c.specs.Inputs.{IsInputAccepted, IsInputRefused};

use crate::Refused;
use crate::inputs::admit;
use plist_forms::{Fault, judge_any};
use std::alloc::Global;

/// Checks whether the input encodes a value within the limits. Writes nothing and builds no value.
///
/// # Errors
///
/// Returns the number of the refusal.
#[unsafe(no_mangle)]
pub extern "C" fn plistconv_lint(alloc: Global, octets: &[u8], refusal: &mut Refused) -> u8
    ensures linted { result ≡ 0 → IsLinted octets.now refusal.new }
    ensures refused { result ≢ 0 → IsRefusalReported octets.now refusal.new result }
{
    *refusal = Refused::none();
    match judged(alloc, octets) {
        Ok(()) => 0,
        Err(fault) => refusal.set(&fault, 1),
    }
}

// Validates an input. Refuses more than `MAX_INPUT` bytes.
fn judged(alloc: Global, octets: &[u8]) -> Result<(), Fault>
    ensures accepted { OnOk result ((v : Plist) × IsInputAccepted octets.now v) }
    ensures refused { IfErr result (IsInputRefused octets.now) }
{
    admit(octets)?;
    judge_any(alloc, octets)
}
