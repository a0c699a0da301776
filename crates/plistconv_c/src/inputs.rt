//! The limit on the size of an input.
ghost use Rattle.std.specs.Prelude.{◌≤◌, length, IfErr, OnOk};
ghost use Rattle.plist_forms.specs.declared.loading.TheConstants.{MAX_INPUT};
ghost use Rattle.plistconv_c.specs.Inputs.{IsPairRefused, IsTooLarge};

use plist_forms::{Fault, MAX_INPUT, PairFault, judge_any};
use std::alloc::Global;

// Refuses an input of more than `MAX_INPUT` bytes.
pub(crate) fn admit(octets: &[u8]) -> Result<(), Fault>
    ensures within { OnOk result (length octets.now ≤ MAX_INPUT) }
    ensures refused { IfErr result (IsTooLarge octets.now) }
{
    if octets.len() as u64 > MAX_INPUT {
        return Err(Fault::InputTooLarge);
    }
    Ok(())
}

// Refuses two inputs if one has more than `MAX_INPUT` bytes. The second is refused only if the
// first is accepted.
pub(crate) fn admit_pair(alloc: Global, first: &[u8], second: &[u8]) -> Result<(), PairFault>
    ensures first { OnOk result (length first.now ≤ MAX_INPUT) }
    ensures second { OnOk result (length second.now ≤ MAX_INPUT) }
    ensures refused { IfErr result (IsPairRefused first.now second.now) }
{
    if let Err(fault) = admit(first) {
        return Err(PairFault::First(fault));
    }
    if let Err(large) = admit(second) {
        return match judge_any(alloc, first) {
            Ok(()) => Err(PairFault::Second(large)),
            Err(fault) => Err(PairFault::First(fault)),
        };
    }
    Ok(())
}
