//! Loading all bytes of a source.
ghost use Rattle.std.specs.Prelude.{◌≡◌, ◌≢◌, ◌≤◌, length, vec_len, IfOk, IfErr, IfSome, OnOk};
ghost use Rattle.std.specs.Io.KnownBytes.{IsAtEnd};
ghost use Rattle.plist_forms.specs.Load.{IsLoadFault, Loads, octets_or};

use crate::Fault;
use crate::taken::Taken;
use plist_devices::Source;
use std::alloc::Global;

/// The maximum number of bytes of one input: 2^32 - 1.
pub const MAX_INPUT: u64 = 4_294_967_295;

// The number of bytes that one take asks for.
const TAKE_SIZE: usize = 4096;

/// Takes bytes until the source has no more and returns all of them.
///
/// # Errors
///
/// Fails with [`Fault::ReadFailed`] as soon as a take fails, with [`Fault::InputTooLarge`] above
/// [`MAX_INPUT`] bytes, and with [`Fault::OutOfMemory`] if out of memory. The bytes taken from the
/// source are then lost.
pub fn load<S: Source>(alloc: Global, from: &mut S) -> Result<Vec<u8>, Fault>
    ensures whole { IfOk result (λ octets.
        IfSome (S.remaining from.old) (λ all. octets.items ≡ all)) }
    ensures within { IfOk result (λ octets. vec_len octets ≤ MAX_INPUT) }
    ensures end { OnOk result (IsAtEnd (S.remaining from.new)) }
    ensures loads { Loads (S.remaining from.old) (S.remaining from.new)
        (S.failures from.old) (S.failures from.new) result }
    ensures faults { IfErr result IsLoadFault }
    ensures device { S.device from.new ≡ S.device from.old }
{
    match load_unless(alloc, from, &[])? {
        Some(octets) => Ok(octets),
        None => Ok(Vec::new(alloc)),
    }
}

/// Like [`load`], but returns `None` if the bytes equal `known`, for which it allocates nothing.
///
/// # Errors
///
/// Fails like [`load`].
pub fn load_unless<S: Source>(
    alloc: Global,
    from: &mut S,
    known: &[u8],
) -> Result<Option<Vec<u8>>, Fault>
    ensures whole { IfOk result (λ found.
        IfSome (S.remaining from.old) (λ all. octets_or known.now found ≡ all)) }
    ensures other { IfOk result (λ found. IfSome found (λ octets. octets.items ≢ known.now)) }
    ensures within { IfOk result (λ found. length (octets_or known.now found) ≤ MAX_INPUT) }
    ensures end { OnOk result (IsAtEnd (S.remaining from.new)) }
    ensures loads { Loads (S.remaining from.old) (S.remaining from.new)
        (S.failures from.old) (S.failures from.new) result }
    ensures faults { IfErr result IsLoadFault }
    ensures device { S.device from.new ≡ S.device from.old }
{
    let mut taken = Taken::Known(0);
    let mut buffer = [0u8; TAKE_SIZE];
    'takes: loop {
        let given = from.take(&mut buffer[..])?;
        if given == 0 {
            return Ok(taken.unless_known(alloc, known)?);
        }
        if (taken.len() + given) as u64 > MAX_INPUT {
            return Err(Fault::InputTooLarge);
        }
        taken = taken.then(alloc, known, &buffer[..given])?;
    }
}
