//! Writing the OpenStep text of an input.
ghost use Rattle.std.specs.Prelude.{◌≡◌, ℕ, List, true, IfErr, IfOk};
ghost use Rattle.plist_keys.specs.KeyOrder.{IsReady};
ghost use Rattle.plist_object.specs.Views.{octets_of};
ghost use Rattle.plist_forms.specs.Judged.{Encodes, IsReadFrom};
ghost use Rattle.plist_forms.specs.Output.{IsOutputFault};
ghost use Rattle.plist_forms.specs.Sent.{IsBeforePut};
ghost use Rattle.plist_forms.specs.Transfer.{Writes};

use crate::faults::Fault;
use crate::forms::Form;
use crate::judged::Binary;
use ostep_write::write_text_of;
use plist_devices::Sink;
use plist_keys::JudgedFile;
use std::alloc::Global;
use std::convert::AsSlice;

/// Sends the OpenStep text of the value that the bytes encode, in either form, and returns its
/// length in bytes.
///
/// Before the first put all bytes are read, and it is certain that the value has a text. The text
/// is sent piece by piece and is never in memory as a whole. A binary file is written from its
/// bytes, a text from the binary file that it is read into.
///
/// # Errors
///
/// In this order: the errors of [`judge_any`](crate::judge_any); `NotInOpenStep` (40) if the value
/// has no text; `WriteFailed` (51) if the sink fails. Out of memory (60) may come before any of
/// them. After 51 and 60 exactly the first `sent` bytes of the text were sent; after any other
/// error the sink is untouched.
pub fn write_openstep<W: Sink>(alloc: Global, octets: &[u8], to: &mut W) -> Result<u64, Fault>
    ensures writes { Writes Form.OpenStep octets.now (W.taken to.old) (W.taken to.new)
        (W.failures to.old) (W.failures to.new) result }
    ensures untouched { IfErr result (λ fault. IsBeforePut fault → to.new ≡ to.old) }
    ensures same { W.device to.new ≡ W.device to.old }
{
    let binary = Binary::of(alloc, octets)?;
    write_text(alloc, &binary, to)
}

// Sends the OpenStep text of the value that the binary file of an input encodes.
pub(crate) fn write_text<I: AsSlice<u8> + Drop, W: Sink>(
    alloc: Global,
    binary: &Binary<I>,
    to: &mut W,
) -> Result<u64, Fault>
    requires { (input : List ℕ) × IsReadFrom I.items input binary.now }
    ensures writes { (input : List ℕ) → IsReadFrom I.items input binary.now
        → Writes Form.OpenStep input (W.taken to.old) (W.taken to.new)
        (W.failures to.old) (W.failures to.new) result }
    ensures untouched { IfErr result (λ fault. IsBeforePut fault → to.new ≡ to.old) }
    ensures same { W.device to.new ≡ W.device to.old }
{
    let judged = writable_file(alloc, binary)?;
    Ok(write_text_of(alloc, judged, to)?)
}

// Validates the file, and that its value has a text.
fn writable_file<I: AsSlice<u8> + Drop>(
    alloc: Global,
    binary: &Binary<I>,
) -> Result<JudgedFile<'_>, Fault>
    requires { (input : List ℕ) × IsReadFrom I.items input binary.now }
    ensures encodes { (input : List ℕ) → IsReadFrom I.items input binary.entry.now
        → IfOk result (λ judged. Encodes input (octets_of judged.file) true) }
    ensures ready { IfOk result (λ judged. IsReady (octets_of judged.file) judged.order) }
    ensures refused { (input : List ℕ) → IsReadFrom I.items input binary.entry.now
        → IfErr result (IsOutputFault Form.OpenStep input) }
{
    let judged = binary.judged(alloc)?;
    if judged.writable {
        Ok(judged)
    } else {
        Err(Fault::NotInOpenStep)
    }
}
