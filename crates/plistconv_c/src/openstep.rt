//! Writing a value as OpenStep text.
ghost use Rattle.std.specs.Prelude.{◌≡◌, ◌≢◌, ◌≤◌, length, IfOk, IfErr, OnOk};
ghost use Rattle.plist_forms.specs.Output.{IsOutput};
ghost use Rattle.plist_forms.specs.declared.forms.Form.TheVariants.{OpenStep};
ghost use Rattle.plist_forms.specs.declared.loading.TheConstants.{MAX_INPUT};
ghost use Rattle.plistconv_c.specs.Answers.{IsMade, IsUnmade};
ghost use Rattle.plistconv_c.specs.Texts.{IsTextFault};

use crate::Refused;
use crate::giving::{give_output, unsent};
use crate::inputs::admit;
use plist_devices::GrowingSink;
use plist_forms::{Fault, write_openstep};
use std::alloc::Global;

/// Writes the OpenStep text of the value of `octets` to the start of the buffer. If it does not
/// fit, the buffer is unchanged and `length` is the size needed.
///
/// # Errors
///
/// Returns the number of the refusal, 40 if the value has no OpenStep text; the buffer is
/// unchanged, and `length` is 0.
#[unsafe(no_mangle)]
pub extern "C" fn plistconv_text(
    alloc: Global,
    octets: &[u8],
    into: &mut [u8],
    length: &mut usize,
    refusal: &mut Refused,
) -> u8
    ensures given { result ≡ 0
        → IsMade (IsOutput OpenStep) octets.now into.old into.new length.new refusal.new }
    ensures refused { result ≢ 0
        → IsUnmade (IsTextFault octets.now) into.old into.new length.new refusal.new result }
{
    give_output(written_text(alloc, octets), into, length, refusal)
}

// Returns the OpenStep text of the value of `octets`. Refuses more than `MAX_INPUT` bytes.
fn written_text(alloc: Global, octets: &[u8]) -> Result<Vec<u8>, Fault>
    ensures within { OnOk result (length octets.now ≤ MAX_INPUT) }
    ensures text { IfOk result (λ text. IsOutput OpenStep octets.now text.items) }
    ensures refused { IfErr result (IsTextFault octets.now) }
{
    admit(octets)?;
    let mut text = GrowingSink::new(alloc);
    match write_openstep(alloc, octets, &mut text) {
        Ok(_) => Ok(text.into_octets()),
        Err(fault) => Err(unsent(fault)),
    }
}
