//! Prints the value of a binary file to a sink.
ghost use Rattle.std.specs.Prelude.{◌≡◌};
ghost use Rattle.plist_value.specs.Plist.{Plist};
ghost use Rattle.plist_keys.specs.KeyOrder.{IsReady};
ghost use Rattle.plist_object.specs.Spelled.{IsBinary};
ghost use Rattle.plist_object.specs.Views.{octets_of};
ghost use Rattle.plist_write.specs.Sending.{IsWritten};
ghost use Rattle.plist_print.specs.Printed.{printed};
ghost use Rattle.plist_print.specs.Printing.{printed_parts};

use crate::layout::{begin_line, begin_pair};
use crate::lines::print_scalar;
use plist_devices::Sink;
use plist_keys::JudgedFile;
use plist_value::{ScalarRef, TextRef};
use plist_write::{BufferedSink, Mark, Notation, WriteFault, write_in_notation};
use std::alloc::Global;

/// Writes the printed text of the file's value, object by object, and returns its length in bytes.
/// Neither the value nor the text is in memory: only the key order of each dictionary that is being
/// printed, and one piece of less than 8 KiB.
///
/// # Errors
///
/// [`WriteFault::WriteFailed`] (51) if the sink fails. [`WriteFault::OutOfMemory`] (60) if out of
/// memory for a key order or for a piece, or if the output would exceed `u64::MAX` bytes. In both
/// cases exactly the first `sent` bytes of the text were written.
pub fn print_of<W: Sink>(alloc: Global, judged: JudgedFile, out: &mut W) -> Result<u64, WriteFault>
    requires binary { (v : Plist) × IsBinary (octets_of judged.file) v }
    requires ready { IsReady (octets_of judged.file) judged.order }
    ensures written { (v : Plist) → IsBinary (octets_of judged.entry.file) v
        → IsWritten (printed v) (W.taken out.old) (W.taken out.new)
        (W.failures out.old) (W.failures out.new) result }
    ensures same { W.device out.new ≡ W.device out.old }
{
    write_in_notation::<W, Printed>(alloc, judged, out)
}

// The notation of printed texts.
struct Printed;

impl<W: Sink> Notation<W> for Printed {
    ghost use Rattle.std.proofs.Common.{rules};

    ghost parts = { printed_parts };

    ghost begun = { Prim.search rules };

    fn write_scalar(
        scalar: &ScalarRef,
        level: u64,
        out: &mut BufferedSink<W>,
    ) -> Result<(), WriteFault> {
        print_scalar(scalar, level, out)
    }

    fn begin_line(level: u64, out: &mut BufferedSink<W>) -> Result<(), WriteFault> {
        begin_line(level, out)
    }

    fn begin_pair(key: &TextRef, level: u64, out: &mut BufferedSink<W>) -> Result<(), WriteFault> {
        begin_pair(key, level, out)
    }

    fn write_mark(mark: Mark, out: &mut BufferedSink<W>) -> Result<(), WriteFault> {
        match mark {
            Mark::EmptyList => out.put(b"[]\n"),
            Mark::ListStart => out.put(b"[\n"),
            Mark::ListEnd => out.put(b"]\n"),
            Mark::EmptyTable => out.put(b"{}\n"),
            Mark::TableStart => out.put(b"{\n"),
            Mark::TableEnd => out.put(b"}\n"),
            Mark::ItemEnd | Mark::PairEnd | Mark::TextEnd => Ok(()),
        }
    }
}
