//! Converting a property list from a source to a sink.
ghost use Rattle.std.specs.Prelude.{◌≡◌, ℕ, List, IfErr};
ghost use Rattle.plist_forms.specs.Judged.{IsReadFrom};
ghost use Rattle.plist_forms.specs.Load.{Loads};
ghost use Rattle.plist_forms.specs.Sent.{IsBeforePut};
ghost use Rattle.plist_forms.specs.Transfer.{IsTransfer, Writes};

use crate::faults::Fault;
use crate::forms::Form;
use crate::judged::Binary;
use crate::loading::load;
use crate::openstep::write_text;
use plist_devices::{Sink, Source};
use plist_value::FixedHasher;
use plist_write::write_canonical_of;
use std::alloc::Global;
use std::convert::AsSlice;
use std::hash::BuildHasher;

/// Loads a property list in either form from `from`, sends its value to `to` as a canonical file or
/// as an OpenStep text, and returns the number of bytes sent.
///
/// Before the first put the whole source is loaded and read, and it is certain that the value can
/// be written. A text is freed before that: its output is sent from the binary file that it was
/// read into. A binary file stays in memory, because its output is sent from there. The output is
/// never in memory as a whole.
///
/// # Errors
///
/// In this order: `ReadFailed` (50) if the source fails, or `InputTooLarge` (52) above
/// [`MAX_INPUT`](crate::MAX_INPUT) bytes; the errors of [`read_any`](crate::read_any);
/// `NotInOpenStep` (40) if the value has no text; `WriteFailed` (51) if the sink fails. Out of
/// memory (60) may come before any of them.
///
/// After 51 and 60 exactly the first `sent` bytes of the output were sent; after any other error
/// the sink is untouched. The bytes taken from the source are lost.
pub fn convert<S: Source, W: Sink>(
    alloc: Global,
    from: &mut S,
    to: &mut W,
    form: Form,
) -> Result<u64, Fault>
    ensures transfer { IsTransfer form (S.remaining from.old) (S.remaining from.new)
        (W.taken to.old) (W.taken to.new) (W.failures to.old) (W.failures to.new) result }
    ensures untouched { IfErr result (λ fault. IsBeforePut fault → to.new ≡ to.old) }
    ensures same { W.device to.new ≡ W.device to.old }
    ensures loads { Loads (S.remaining from.old) (S.remaining from.new)
        (S.failures from.old) (S.failures from.new) result }
    ensures device { S.device from.new ≡ S.device from.old }
{
    convert_with_hasher(alloc, FixedHasher::new(), from, to, form)
}

/// Like [`convert`], but hashes scalars with `hasher`. If the input comes from an untrusted source,
/// pass a [`RandomState`](std::hash::RandomState), so that scalars chosen to collide under
/// [`FixedHasher`] cost no more than others.
///
/// # Errors
///
/// Fails like [`convert`].
pub fn convert_with_hasher<H: BuildHasher + Copy, S: Source, W: Sink>(
    alloc: Global,
    hasher: H,
    from: &mut S,
    to: &mut W,
    form: Form,
) -> Result<u64, Fault>
    ensures transfer { IsTransfer form (S.remaining from.old) (S.remaining from.new)
        (W.taken to.old) (W.taken to.new) (W.failures to.old) (W.failures to.new) result }
    ensures untouched { IfErr result (λ fault. IsBeforePut fault → to.new ≡ to.old) }
    ensures same { W.device to.new ≡ W.device to.old }
    ensures loads { Loads (S.remaining from.old) (S.remaining from.new)
        (S.failures from.old) (S.failures from.new) result }
    ensures device { S.device from.new ≡ S.device from.old }
{
    let octets = load(alloc, from)?;
    convert_octets(alloc, hasher, octets, to, form)
}

/// Sends the value that the bytes encode to `to`, in the given form, and returns the number of
/// bytes sent.
///
/// Like [`convert`] for bytes that were loaded already, which are freed: those of a text before the
/// first put, those of a binary file after its output is sent. Scalars are hashed with `hasher`, as
/// explained at [`convert_with_hasher`].
///
/// # Errors
///
/// In this order: the errors of [`read_any`](crate::read_any); `NotInOpenStep` (40) if the value
/// has no text; `WriteFailed` (51) if the sink fails. Out of memory (60) may come before any of
/// them. After 51 and 60 exactly the first `sent` bytes of the output were sent; after any other
/// error the sink is untouched.
pub fn convert_octets<H: BuildHasher + Copy, W: Sink>(
    alloc: Global,
    hasher: H,
    octets: Vec<u8>,
    to: &mut W,
    form: Form,
) -> Result<u64, Fault>
    ensures writes { Writes form octets.items (W.taken to.old) (W.taken to.new)
        (W.failures to.old) (W.failures to.new) result }
    ensures untouched { IfErr result (λ fault. IsBeforePut fault → to.new ≡ to.old) }
    ensures same { W.device to.new ≡ W.device to.old }
{
    let binary = Binary::of(alloc, octets)?;
    match form {
        Form::Binary1 => write_binary1(alloc, hasher, &binary, to),
        Form::OpenStep => write_text(alloc, &binary, to),
    }
}

// Sends the canonical file of the value that the binary file of an input encodes.
fn write_binary1<H: BuildHasher + Copy, I: AsSlice<u8> + Drop, W: Sink>(
    alloc: Global,
    hasher: H,
    binary: &Binary<I>,
    to: &mut W,
) -> Result<u64, Fault>
    requires { (input : List ℕ) × IsReadFrom I.items input binary.now }
    ensures writes { (input : List ℕ) → IsReadFrom I.items input binary.now
        → Writes Form.Binary1 input (W.taken to.old) (W.taken to.new)
        (W.failures to.old) (W.failures to.new) result }
    ensures untouched { IfErr result (λ fault. IsBeforePut fault → to.new ≡ to.old) }
    ensures same { W.device to.new ≡ W.device to.old }
{
    let judged = binary.judged(alloc)?;
    Ok(write_canonical_of(alloc, hasher, judged, to)?)
}
