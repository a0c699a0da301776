//! Printing the value of an input.
ghost use Rattle.std.specs.Prelude.{◌≡◌, IfErr};
ghost use Rattle.plist_forms.specs.Printed.{Prints};
ghost use Rattle.plist_forms.specs.Sent.{IsBeforePut};

use crate::Fault;
use crate::judged::Binary;
use plist_devices::Sink;
use plist_print::print_of;
use std::alloc::Global;

/// Sends the printed text of the value that the bytes encode, in either form, and returns its
/// length in bytes. Two values print the same if and only if they are equal
/// (`plist_print::laws::print_tells_values_apart`).
///
/// All bytes are read before the first put. The printed text is sent piece by piece and is never in
/// memory as a whole. A binary file is printed from its bytes, a text from the binary file that it
/// is read into.
///
/// # Errors
///
/// In this order: the errors of [`judge_any`](crate::judge_any); `WriteFailed` (51) if the sink
/// fails. Out of memory (60) may come before either. After 51 and 60 exactly the first `sent` bytes
/// of the printed text were sent; after any other error the sink is untouched.
pub fn print<W: Sink>(alloc: Global, octets: &[u8], to: &mut W) -> Result<u64, Fault>
    ensures prints { Prints octets.now (W.taken to.old) (W.taken to.new)
        (W.failures to.old) (W.failures to.new) result }
    ensures untouched { IfErr result (λ fault. IsBeforePut fault → to.new ≡ to.old) }
    ensures same { W.device to.new ≡ W.device to.old }
{
    let binary = Binary::of(alloc, octets)?;
    let judged = binary.judged(alloc)?;
    Ok(print_of(alloc, judged, to)?)
}
