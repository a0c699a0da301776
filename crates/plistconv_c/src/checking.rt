//! Checking whether a binary file is canonical.
ghost use Rattle.std.specs.Prelude.{◌≡◌, ◌≢◌, ◌↔◌, ◌≤◌, length, IfOk, IfErr, OnOk};
ghost use Rattle.plist_object.specs.Layout.{IsLaid};
ghost use Rattle.plist_canon.specs.Checking.{IsVerdict};
ghost use Rattle.plist_canon.specs.Locality.{IsCanonical};
ghost use Rattle.plist_forms.specs.declared.loading.TheConstants.{MAX_INPUT};
ghost use Rattle.plistconv_c.specs.Answers.{IsChecked, IsUnchecked, finding_of};
ghost use Rattle.plistconv_c.specs.Inputs.{IsCheckRefused};

use crate::Refused;
use crate::inputs::admit;
use crate::keyed_hasher::keyed_hasher;
use plist_canon::{Verdict, check, check_with_hasher};
use plist_forms::Fault;
use std::alloc::Global;

/// The result of a check.
#[repr(C)]
#[derive(Clone, Copy, Drop)]
pub struct Finding {
    /// The object that breaks the rule; 0 if none does.
    pub object: u64,
    /// 1 if the input is the canonical file of a value within the limits, else 0.
    pub canonical: u8,
    /// A broken rule, from 0 to 7; 0 if none is broken.
    pub rule: u8,
}

/// Checks whether a binary file is canonical, and finds a broken rule if it is not. Builds no
/// value. Scalars are hashed with `key`, or with a fixed seed if it is all zeros; scalars can be
/// chosen that collide under the fixed seed.
///
/// # Errors
///
/// Fails with 1 to 3 if the input does not have the layout of a binary file, with 52 if it has more
/// than [`MAX_INPUT`](plist_forms::MAX_INPUT) bytes, and with 60 if out of memory. All fields of
/// the finding are then 0.
#[unsafe(no_mangle)]
pub extern "C" fn plistconv_check(
    alloc: Global,
    octets: &[u8],
    key: &[u8; 16],
    finding: &mut Finding,
    refusal: &mut Refused,
) -> u8
    ensures checked { result ≡ 0 → IsChecked octets.now finding.new refusal.new }
    ensures refused { result ≢ 0 → IsUnchecked octets.now finding.new refusal.new result }
{
    *finding = Finding {
        object: 0,
        canonical: 0,
        rule: 0,
    };
    *refusal = Refused::none();
    match checked(alloc, octets, key) {
        Ok(verdict) => {
            *finding = found(verdict);
            0
        }
        Err(fault) => refusal.set(&fault, 1),
    }
}

// Checks whether a file is canonical. Refuses more than `MAX_INPUT` bytes, and hashes scalars with
// the key, if there is one.
fn checked(alloc: Global, octets: &[u8], key: &[u8; 16]) -> Result<Verdict, Fault>
    ensures fault { IfErr result (IsCheckRefused octets.now) }
    ensures within { OnOk result (length octets.now ≤ MAX_INPUT) }
    ensures laid { IfOk result (λ _. IsLaid octets.now) }
    ensures verdict { IfOk result (IsVerdict octets.now) }
    ensures canonical { IfOk result
        (λ verdict. (verdict ≡ Verdict.Canonical) ↔ IsCanonical octets.now) }
{
    admit(octets)?;
    match keyed_hasher(key) {
        Some(hasher) => Ok(check_with_hasher(alloc, hasher, octets)?),
        None => Ok(check(alloc, octets)?),
    }
}

fn found(verdict: Verdict) -> Finding
    ensures { result ≡ finding_of verdict }
{
    match verdict {
        Verdict::Canonical => Finding {
            object: 0,
            canonical: 1,
            rule: 0,
        },
        Verdict::Broken { rule, object } => Finding {
            object,
            canonical: 0,
            rule,
        },
    }
}
