//! Prints data to a sink.
ghost use Rattle.std.specs.Prelude.{◌≡◌, ◌<◌, ◌++◌, codes, flat_map, length, OnOk};
ghost use Rattle.plist_value.specs.Plist.{bytes};
ghost use Rattle.plist_value.specs.Digits.{two_digits};
ghost use Rattle.plist_write.specs.BufferedSink.{Emits, sink_state};
ghost use Rattle.plist_print.specs.Printed.{indent, octet_lines, printed_line};

use crate::layout::{begin_line, put_indent};
use plist_devices::Sink;
use plist_value::put_digits;
use plist_write::{BufferedSink, WriteFault};
use std::alloc::AllocError;

// The number of bytes of data on a full line.
pub(crate) const LINE: usize = 32;

// Writes data that takes several lines. `level` is the level of the line that it begins on.
pub(crate) fn print_data<W: Sink>(
    octets: &[u8],
    level: u64,
    out: &mut BufferedSink<W>,
) -> Result<(), WriteFault>
    requires { 32 < length octets.now }
    ensures emits { Emits (printed_line level (bytes octets.now))
        (sink_state W.Sink out.old) (sink_state W.Sink out.new) result }
{
    out.put(b"<\n")?;
    print_lines(octets, level.min(32) + 1, out)?;
    begin_line(level, out)?;
    out.put(b">\n")
}

// Writes the lines between the brackets of data.
fn print_lines<W: Sink>(
    octets: &[u8],
    level: u64,
    out: &mut BufferedSink<W>,
) -> Result<(), WriteFault>
    ensures emits { Emits (octet_lines (indent level) octets.now)
        (sink_state W.Sink out.old) (sink_state W.Sink out.new) result }
{
    let mut left = octets;
    while !left.is_empty() {
        let (line, behind) = left.split_at(LINE.min(left.len()));
        let put = put_line(out.waiting, level, line);
        out.grown(put)?;
        out.flush_if_full()?;
        left = behind;
    }
    Ok(())
}

fn put_line(out: &mut Vec<u8>, level: u64, octets: &[u8]) -> Result<(), AllocError>
    ensures { OnOk result (out.new.items
        ≡ out.old.items ++ (indent level ++ (flat_map two_digits octets.now ++ codes "\n"))) }
{
    put_indent(out, level)?;
    put_digits(out, octets)?;
    Ok(out.push(b'\n')?)
}
