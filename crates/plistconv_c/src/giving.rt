//! Writing to a buffer of the caller.
ghost use Rattle.std.specs.Prelude.{◌≡◌, IfErr, IfOk};
ghost use Rattle.plistconv_c.specs.Answers.{IsDescribed, gathered_fault};
ghost use Rattle.plistconv_c.specs.Given.{IsGiven};
ghost use Rattle.plistconv_c.specs.Refusals.{no_refusal};

use crate::Refused;
use plist_forms::Fault;

// Gives the output of a call to the caller, or describes why there is none. Returns the number of
// the refusal, or 0.
pub(crate) fn give_output(
    output: Result<Vec<u8>, Fault>,
    into: &mut [u8],
    length: &mut usize,
    refusal: &mut Refused,
) -> u8
    ensures given { IfOk output (λ octets. IsGiven octets.items into.old into.new length.new) }
    ensures none { IfOk output (λ _. (result ≡ 0) × (refusal.new ≡ no_refusal)) }
    ensures refused { IfErr output (λ fault.
        IsDescribed fault into.old into.new length.new refusal.new result) }
{
    *length = 0;
    *refusal = Refused::none();
    match output {
        Ok(octets) => give(&octets, into, length),
        Err(fault) => refusal.set(&fault, 1),
    }
}

// Copies `octets` to the start of the buffer if they fit, and sets `length` to their number.
// Returns 0, the result of a call that is not refused.
pub(crate) fn give(octets: &[u8], into: &mut [u8], length: &mut usize) -> u8
    ensures given { IsGiven octets.now into.old into.new length.new }
    ensures zero { result ≡ 0 }
{
    *length = octets.len();
    if octets.len() <= into.len() {
        into[..octets.len()].copy_from_slice(octets);
    }
    0
}

// Converts the fault of a call that writes to a `GrowingSink`. Such a write fails only if out of
// memory, and the caller has then received nothing.
pub(crate) fn unsent(fault: Fault) -> Fault
    ensures { result ≡ gathered_fault fault }
{
    match fault {
        Fault::WriteFailed { .. } | Fault::OutOfMemory { .. } => Fault::OutOfMemory { sent: 0 },
        _ => fault,
    }
}
