//! Printing a value.
ghost use Rattle.std.specs.Prelude.{◌≡◌, ◌≢◌, ◌≤◌, length, IfOk, IfErr, OnOk};
ghost use Rattle.plist_forms.specs.Printed.{IsPrintOf};
ghost use Rattle.plist_forms.specs.declared.loading.TheConstants.{MAX_INPUT};
ghost use Rattle.plistconv_c.specs.Answers.{IsMade, IsUnmade};
ghost use Rattle.plistconv_c.specs.Inputs.{IsInputRefused};

use crate::Refused;
use crate::giving::{give_output, unsent};
use crate::inputs::admit;
use plist_devices::GrowingSink;
use plist_forms::{Fault, print};
use std::alloc::Global;

/// Writes the printed text of the value of `octets` to the start of the buffer. Two values print
/// the same if and only if they are equal. If the text does not fit, the buffer is unchanged and
/// `length` is the size needed.
///
/// # Errors
///
/// Returns the number of the refusal; the buffer is unchanged, and `length` is 0.
#[unsafe(no_mangle)]
pub extern "C" fn plistconv_print(
    alloc: Global,
    octets: &[u8],
    into: &mut [u8],
    length: &mut usize,
    refusal: &mut Refused,
) -> u8
    ensures given { result ≡ 0
        → IsMade IsPrintOf octets.now into.old into.new length.new refusal.new }
    ensures refused { result ≢ 0
        → IsUnmade (IsInputRefused octets.now) into.old into.new length.new refusal.new result }
{
    give_output(printed_text(alloc, octets), into, length, refusal)
}

// Returns the printed text of the value of `octets`. Refuses more than `MAX_INPUT` bytes.
fn printed_text(alloc: Global, octets: &[u8]) -> Result<Vec<u8>, Fault>
    ensures within { OnOk result (length octets.now ≤ MAX_INPUT) }
    ensures text { IfOk result (λ text. IsPrintOf octets.now text.items) }
    ensures refused { IfErr result (IsInputRefused octets.now) }
{
    admit(octets)?;
    let mut text = GrowingSink::new(alloc);
    match print(alloc, octets, &mut text) {
        Ok(_) => Ok(text.into_octets()),
        Err(fault) => Err(unsent(fault)),
    }
}
