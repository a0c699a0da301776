//! Prints scalars to a sink.
ghost use Rattle.std.specs.Prelude.{◌≡◌, ◌++◌, codes, true, OnOk};
ghost use Rattle.plist_value.specs.Scalars.{content_of};
ghost use Rattle.plist_value.specs.Texts.{units_of};
ghost use Rattle.plist_write.specs.BufferedSink.{Emits, sink_state};
ghost use Rattle.plist_print.specs.Units.{printed_text};
ghost use Rattle.plist_print.specs.Printed.{printed_line, printed_scalar};
ghost use Rattle.plist_print.specs.Shown.{is_short};

use crate::data::{LINE, print_data};
use crate::dates::put_date;
use crate::numbers::{DOUBLE, SINGLE};
use crate::reals::{put_octets, put_real};
use crate::strings::put_some;
use itoa::Buffer;
use plist_devices::Sink;
use plist_value::{ScalarRef, TextRef};
use plist_write::{BufferedSink, WriteFault};
use std::alloc::AllocError;

// Writes a scalar up to the end of its last line. `level` is the level of the line that it begins
// on. A piece of a printed text has less than 8 KiB.
//
// # Errors
//
// [`WriteFault::WriteFailed`] (51) if the sink fails, and [`WriteFault::OutOfMemory`] (60) if out
// of memory for a piece, or if the output would exceed `u64::MAX` bytes.
pub(crate) fn print_scalar<W: Sink>(
    scalar: &ScalarRef,
    level: u64,
    out: &mut BufferedSink<W>,
) -> Result<(), WriteFault>
    ensures emits { Emits (printed_line level (content_of scalar.now))
        (sink_state W.Sink out.old) (sink_state W.Sink out.new) result }
{
    match scalar {
        ScalarRef::Text(text) => print_text(text, b"\n", out),
        ScalarRef::Bytes(octets) if octets.len() > LINE => print_data(octets, level, out),
        _ => print_short(scalar, out),
    }
}

// Writes a scalar on one line, if it is no string.
fn print_short<W: Sink>(scalar: &ScalarRef, out: &mut BufferedSink<W>) -> Result<(), WriteFault>
    requires short { is_short (content_of scalar.now) ≡ true }
    ensures emits { Emits (printed_scalar (content_of scalar.now) ++ codes "\n")
        (sink_state W.Sink out.old) (sink_state W.Sink out.new) result }
{
    let put = put_short(out.waiting, scalar);
    out.grown(put)?;
    out.put(b"\n")
}

// Appends a scalar that is no string.
fn put_short(out: &mut Vec<u8>, scalar: &ScalarRef) -> Result<(), AllocError>
    requires { is_short (content_of scalar.now) ≡ true }
    ensures { OnOk result (out.new.items
        ≡ out.old.items ++ printed_scalar (content_of scalar.now)) }
{
    match scalar {
        ScalarRef::Whole(whole) => {
            let mut buffer = Buffer::new();
            out.extend_from_slice(buffer.format(whole.get()).as_bytes())
        }
        ScalarRef::Flag(true) => out.extend_from_slice(b"true"),
        ScalarRef::Flag(false) => out.extend_from_slice(b"false"),
        ScalarRef::Real4(octets) => {
            put_real(out, SINGLE, octets)?;
            Ok(out.push(b'f')?)
        }
        ScalarRef::Real8(octets) => put_real(out, DOUBLE, octets),
        ScalarRef::Moment(octets) => {
            out.extend_from_slice(b"date ")?;
            put_date(out, octets)
        }
        ScalarRef::Bytes(octets) => put_octets(out, b"", octets),
        ScalarRef::Text(_) => unreachable!(),
    }
}

// Writes the string in quotes, followed by these bytes.
//
// # Errors
//
// Fails like [`print_scalar`].
pub(crate) fn print_text<W: Sink>(
    text: &TextRef,
    after: &[u8],
    out: &mut BufferedSink<W>,
) -> Result<(), WriteFault>
    ensures emits { Emits (printed_text (units_of text.now) ++ after.now)
        (sink_state W.Sink out.old) (sink_state W.Sink out.new) result }
{
    out.put(b"\"")?;
    let mut index = 0;
    while index < text.len() {
        let put = put_some(out.waiting, text, index);
        let next = out.grown(put)?;
        out.flush_if_full()?;
        index = next;
    }
    out.put(b"\"")?;
    out.put(after)
}
