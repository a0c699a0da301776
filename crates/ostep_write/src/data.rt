//! Writes data.
ghost use Rattle.std.specs.Prelude.{flat_map};
ghost use Rattle.plist_value.specs.Digits.{two_digits};
ghost use Rattle.plist_write.specs.BufferedSink.{Emits, sink_state};
ghost use Rattle.ostep_text.specs.Written.{written_data};

use plist_devices::Sink;
use plist_value::put_digits;
use plist_write::{BufferedSink, WriteFault};

// The maximum number of bytes whose digits are appended at once.
const RUN: usize = 2048;

// Writes data as digits in angle brackets.
//
// # Errors
//
// Fails like [`BufferedSink::put`].
pub(crate) fn write_data<W: Sink>(
    octets: &[u8],
    out: &mut BufferedSink<W>,
) -> Result<(), WriteFault>
    ensures emits { Emits (written_data octets.now)
        (sink_state W.Sink out.old) (sink_state W.Sink out.new) result }
{
    out.put(b"<")?;
    write_digits(octets, out)?;
    out.put(b">")
}

// Writes two digits for each byte.
fn write_digits<W: Sink>(octets: &[u8], out: &mut BufferedSink<W>) -> Result<(), WriteFault>
    ensures emits { Emits (flat_map two_digits octets.now)
        (sink_state W.Sink out.old) (sink_state W.Sink out.new) result }
{
    let mut left = octets;
    while !left.is_empty() {
        let (front, behind) = left.split_at(left.len().min(RUN));
        let put = put_digits(out.waiting, front);
        out.grown(put)?;
        out.flush_if_full()?;
        left = behind;
    }
    Ok(())
}
