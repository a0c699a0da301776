//! From bytes to values and to canonical files.
ghost use Rattle.std.specs.Prelude.{◌≡◌, IfOk, IfErr, OnOk};
ghost use Rattle.plist_value.specs.Plist.{Plist};
ghost use Rattle.plist_value.specs.Limits.{Fits};
ghost use Rattle.plist_value.specs.View.{view};
ghost use Rattle.plist_forms.specs.Accepted.{IsAccepted, IsCanonicalOf, begins_as_binary as begins};
ghost use Rattle.plist_forms.specs.Pair.{IsPair, IsRefusedPair};
ghost use Rattle.plist_forms.specs.Refusals.{IsRefused};

use crate::judged::Binary;
use crate::{Fault, PairFault};
use plist_value::{FixedHasher, Value};
use plist_write::canonical_of;
use std::alloc::Global;
use std::hash::BuildHasher;

/// Returns the value that the bytes encode, which is within the limits. Bytes that begin with
/// `bplist` are read as a binary file, all others as a text.
///
/// # Errors
///
/// Fails like [`plist_binary::read`] or [`ostep_text::read_text`]; out of memory is
/// `OutOfMemory { sent: 0 }`.
pub fn read_any(alloc: Global, octets: &[u8]) -> Result<Value, Fault>
    ensures read { IfOk result (λ value. IsAccepted octets.now (view value)) }
    ensures fits { IfOk result (λ value. Fits (view value)) }
    ensures refused { IfErr result (IsRefused octets.now) }
{
    let binary = Binary::of(alloc, octets)?;
    Ok(plist_binary::read(alloc, binary.octets())?)
}

/// Validates that the bytes encode a value, without building it.
///
/// # Errors
///
/// Fails like [`read_any`].
pub fn judge_any(alloc: Global, octets: &[u8]) -> Result<(), Fault>
    ensures ok { OnOk result ((v : Plist) × IsAccepted octets.now v) }
    ensures refused { IfErr result (IsRefused octets.now) }
{
    let binary = Binary::of(alloc, octets)?;
    binary.judged(alloc)?;
    Ok(())
}

/// Returns whether the bytes are read as a binary file, that is, whether they begin with `bplist`.
pub fn begins_as_binary(octets: &[u8]) -> bool
    ensures { result ≡ begins octets.now }
{
    octets.starts_with(b"bplist")
}

/// Returns the canonical file of the value that the bytes encode. Builds no value: the file is made
/// from the binary file, or from the one that a text is read into.
///
/// # Errors
///
/// Fails like [`read_any`].
pub fn canonicalise(alloc: Global, octets: &[u8]) -> Result<Vec<u8>, Fault>
    ensures canonical { IfOk result (λ file. IsCanonicalOf octets.now file.items) }
    ensures refused { IfErr result (IsRefused octets.now) }
{
    canonicalise_with_hasher(alloc, FixedHasher::new(), octets)
}

/// Like [`canonicalise`], but hashes scalars with `hasher`. If files come from an untrusted source,
/// pass a [`RandomState`](std::hash::RandomState), so that scalars chosen to collide under
/// [`FixedHasher`] cost no more than others.
///
/// # Errors
///
/// Fails like [`canonicalise`].
pub fn canonicalise_with_hasher<S: BuildHasher + Copy>(
    alloc: Global,
    hasher: S,
    octets: &[u8],
) -> Result<Vec<u8>, Fault>
    ensures canonical { IfOk result (λ file. IsCanonicalOf octets.now file.items) }
    ensures refused { IfErr result (IsRefused octets.now) }
{
    let binary = Binary::of(alloc, octets)?;
    let judged = binary.judged(alloc)?;
    Ok(canonical_of(alloc, hasher, judged)?)
}

/// Returns whether two inputs encode equal values, that is, whether their canonical files are
/// equal. Reads `a` before `b`. If the inputs are equal byte for byte, makes no canonical file.
///
/// # Errors
///
/// Fails with `First` if `a` is refused, and with `Second` if only `b` is.
pub fn same_files(alloc: Global, a: &[u8], b: &[u8]) -> Result<bool, PairFault>
    ensures same { IfOk result (λ equal. IsPair a.now b.now equal) }
    ensures refused { IfErr result (IsRefusedPair a.now b.now) }
{
    same_files_with_hasher(alloc, FixedHasher::new(), a, b)
}

/// Like [`same_files`], but hashes scalars with `hasher`, as explained at
/// [`canonicalise_with_hasher`].
///
/// # Errors
///
/// Fails like [`same_files`].
pub fn same_files_with_hasher<S: BuildHasher + Copy>(
    alloc: Global,
    hasher: S,
    a: &[u8],
    b: &[u8],
) -> Result<bool, PairFault>
    ensures same { IfOk result (λ equal. IsPair a.now b.now equal) }
    ensures refused { IfErr result (IsRefusedPair a.now b.now) }
{
    if a == b {
        return same_as_itself(alloc, a);
    }
    let first = match canonicalise_with_hasher(alloc, hasher, a) {
        Ok(file) => file,
        Err(fault) => return Err(PairFault::First(fault)),
    };
    let second = match canonicalise_with_hasher(alloc, hasher, b) {
        Ok(file) => file,
        Err(fault) => return Err(PairFault::Second(fault)),
    };
    Ok(first == second)
}

// Compares an input with itself: equal if it is accepted.
fn same_as_itself(alloc: Global, octets: &[u8]) -> Result<bool, PairFault>
    ensures same { IfOk result (λ equal. IsPair octets.now octets.now equal) }
    ensures refused { IfErr result (IsRefusedPair octets.now octets.now) }
{
    match judge_any(alloc, octets) {
        Ok(()) => Ok(true),
        Err(fault) => Err(PairFault::First(fault)),
    }
}
