//! Writes the OpenStep text of a binary file's value to a sink.
ghost use Rattle.std.specs.Prelude.{◌≡◌, ◌++◌, codes, true};
ghost use Rattle.plist_value.specs.Plist.{Plist};
ghost use Rattle.plist_keys.specs.KeyOrder.{IsReady};
ghost use Rattle.plist_object.specs.Spelled.{IsBinary};
ghost use Rattle.plist_object.specs.Views.{octets_of};
ghost use Rattle.plist_write.specs.Sending.{IsWritten};
ghost use Rattle.plist_value.specs.Writable.{is_writable};
ghost use Rattle.ostep_text.specs.Written.{written};
ghost use Rattle.ostep_write.specs.Writing.{written_parts};

use crate::data::write_data;
use crate::strings::write_string;
use plist_devices::Sink;
use plist_keys::JudgedFile;
use plist_value::{ScalarRef, TextRef};
use plist_write::{BufferedSink, Mark, Notation, WriteFault, write_in_notation};
use std::alloc::Global;

/// Writes the OpenStep text of the file's value, object by object, and returns its length in bytes.
/// Neither the value nor the text is in memory: only the key order of each dictionary that is being
/// written, and one piece of less than 8 KiB.
///
/// # Errors
///
/// [`WriteFault::WriteFailed`] (51) if the sink fails. [`WriteFault::OutOfMemory`] (60) if out of
/// memory for a key order or for a piece, or if the output would exceed `u64::MAX` bytes. In both
/// cases exactly the first `sent` bytes of the text were written.
pub fn write_text_of<W: Sink>(
    alloc: Global,
    judged: JudgedFile,
    out: &mut W,
) -> Result<u64, WriteFault>
    requires binary { (v : Plist) × IsBinary (octets_of judged.file) v }
    requires writable { (v : Plist) → IsBinary (octets_of judged.file) v → is_writable v ≡ true }
    requires ready { IsReady (octets_of judged.file) judged.order }
    ensures written { (v : Plist) → IsBinary (octets_of judged.entry.file) v
        → IsWritten (written v ++ codes "\n") (W.taken out.old) (W.taken out.new)
        (W.failures out.old) (W.failures out.new) result }
    ensures same { W.device out.new ≡ W.device out.old }
{
    write_in_notation::<W, OpenStep>(alloc, judged, out)
}

// The notation of OpenStep texts.
struct OpenStep;

impl<W: Sink> Notation<W> for OpenStep {
    ghost use Rattle.std.proofs.Common.{rules};

    ghost parts = { written_parts };

    ghost begun = { Prim.search rules };

    // Writes a string or data. Other scalars have no text: a value with one is not writable.
    fn write_scalar(
        scalar: &ScalarRef,
        _level: u64,
        out: &mut BufferedSink<W>,
    ) -> Result<(), WriteFault> {
        match scalar {
            ScalarRef::Text(text) => write_string(text, out),
            ScalarRef::Bytes(octets) => write_data(octets, out),
            _ => Ok(()),
        }
    }

    fn begin_line(_level: u64, _out: &mut BufferedSink<W>) -> Result<(), WriteFault> {
        Ok(())
    }

    fn begin_pair(key: &TextRef, _level: u64, out: &mut BufferedSink<W>) -> Result<(), WriteFault> {
        write_string(key, out)?;
        out.put(b" = ")
    }

    fn write_mark(mark: Mark, out: &mut BufferedSink<W>) -> Result<(), WriteFault> {
        match mark {
            Mark::EmptyList => out.put(b"(\n)"),
            Mark::ListStart => out.put(b"(\n"),
            Mark::ListEnd => out.put(b")"),
            Mark::ItemEnd => out.put(b",\n"),
            Mark::EmptyTable => out.put(b"{\n}"),
            Mark::TableStart => out.put(b"{\n"),
            Mark::TableEnd => out.put(b"}"),
            Mark::PairEnd => out.put(b";\n"),
            Mark::TextEnd => out.put(b"\n"),
        }
    }
}
