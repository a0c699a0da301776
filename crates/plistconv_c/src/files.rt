//! Making a canonical file, and comparing two inputs.
ghost use Rattle.std.specs.Prelude.{◌≡◌, ◌≢◌, ◌≤◌, length, IfOk, IfErr, OnOk};
ghost use Rattle.plist_forms.specs.Accepted.{IsCanonicalOf};
ghost use Rattle.plist_forms.specs.Pair.{IsPair};
ghost use Rattle.plist_forms.specs.declared.loading.TheConstants.{MAX_INPUT};
ghost use Rattle.plistconv_c.specs.Answers.{IsCompared, IsMade, IsRefusedPair, IsUnmade};
ghost use Rattle.plistconv_c.specs.Inputs.{IsInputRefused, IsPairRefused};

use crate::Refused;
use crate::giving::give_output;
use crate::inputs::{admit, admit_pair};
use crate::keyed_hasher::keyed_hasher;
use plist_forms::{
    Fault, PairFault, canonicalise, canonicalise_with_hasher, same_files, same_files_with_hasher,
};
use std::alloc::Global;

/// Writes the canonical file of the value of `octets` to the start of the buffer. If it does not
/// fit, the buffer is unchanged and `length` is the size needed. Scalars are hashed with `key`, or
/// with a fixed seed if it is all zeros; scalars can be chosen that collide under the fixed seed.
///
/// # Errors
///
/// Returns the number of the refusal; the buffer is unchanged, and `length` is 0.
#[unsafe(no_mangle)]
pub extern "C" fn plistconv_canonical(
    alloc: Global,
    octets: &[u8],
    key: &[u8; 16],
    into: &mut [u8],
    length: &mut usize,
    refusal: &mut Refused,
) -> u8
    ensures given { result ≡ 0
        → IsMade IsCanonicalOf octets.now into.old into.new length.new refusal.new }
    ensures refused { result ≢ 0
        → IsUnmade (IsInputRefused octets.now) into.old into.new length.new refusal.new result }
{
    give_output(canonical_file(alloc, octets, key), into, length, refusal)
}

// Returns the canonical file of the value of `octets`. Refuses more than `MAX_INPUT` bytes.
fn canonical_file(alloc: Global, octets: &[u8], key: &[u8; 16]) -> Result<Vec<u8>, Fault>
    ensures within { OnOk result (length octets.now ≤ MAX_INPUT) }
    ensures canonical { IfOk result (λ file. IsCanonicalOf octets.now file.items) }
    ensures refused { IfErr result (IsInputRefused octets.now) }
{
    admit(octets)?;
    match keyed_hasher(key) {
        Some(hasher) => canonicalise_with_hasher(alloc, hasher, octets),
        None => canonicalise(alloc, octets),
    }
}

/// Compares the values of two inputs and sets `equal` to 1 or 0. Scalars are hashed as in
/// [`plistconv_canonical`].
///
/// # Errors
///
/// Returns the number of the refusal, which is that of the second input only if the first is
/// accepted; `equal` is 0.
#[unsafe(no_mangle)]
pub extern "C" fn plistconv_same(
    alloc: Global,
    first: &[u8],
    second: &[u8],
    key: &[u8; 16],
    equal: &mut u8,
    refusal: &mut Refused,
) -> u8
    ensures compared { result ≡ 0 → IsCompared first.now second.now equal.new refusal.new }
    ensures refused { result ≢ 0
        → IsRefusedPair first.now second.now equal.new refusal.new result }
{
    *equal = 0;
    *refusal = Refused::none();
    match is_same(alloc, first, second, key) {
        Ok(same) => {
            *equal = same as u8;
            0
        }
        Err(PairFault::First(fault)) => refusal.set(&fault, 1),
        Err(PairFault::Second(fault)) => refusal.set(&fault, 2),
    }
}

// Compares the values of two inputs. Refuses an input of more than `MAX_INPUT` bytes.
fn is_same(alloc: Global, first: &[u8], second: &[u8], key: &[u8; 16]) -> Result<bool, PairFault>
    ensures first { OnOk result (length first.now ≤ MAX_INPUT) }
    ensures second { OnOk result (length second.now ≤ MAX_INPUT) }
    ensures same { IfOk result (λ equal. IsPair first.now second.now equal) }
    ensures refused { IfErr result (IsPairRefused first.now second.now) }
{
    admit_pair(alloc, first, second)?;
    match keyed_hasher(key) {
        Some(hasher) => same_files_with_hasher(alloc, hasher, first, second),
        None => same_files(alloc, first, second),
    }
}
