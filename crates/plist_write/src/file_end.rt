//! The end of a binary file: its offset table and its trailer.
ghost use Rattle.std.specs.Prelude.{◌≡◌, ◌+◌, ◌<◌, ◌≤◌, ◌^◌, [], length, All, OnOk};
ghost use Rattle.plist_object.specs.Sizes.{IsWidth};
ghost use Rattle.plist_object.specs.Spelling.{references};
ghost use Rattle.plist_write.specs.Canonical.{trailer_octets};
ghost use Rattle.plist_write.specs.BufferedSink.{CanTake, Emits, KeepsShort, end_of, sink_state};

use crate::new_objects::put_trailer;
use crate::{BufferedSink, WriteFault};
use plist_devices::Sink;
use plist_object::{put_number, width_of};

// The size of a trailer.
const TRAILER: u64 = 32;

// Sends the offset table and the trailer of a file whose objects begin at these offsets, and
// flushes the buffer. All bytes before them were already written.
//
// # Errors
//
// Fails like [`send_object`](crate::sending::send_object).
pub(crate) fn send_end<W: Sink>(
    offsets: &[u64],
    out: &mut BufferedSink<W>,
) -> Result<(), WriteFault>
    requires before { All (λ offset. offset
        ≤ out.old.sent + length out.old.waiting.now.items) offsets.now }
    requires room { CanTake
        (end_of offsets.now (out.old.sent + length out.old.waiting.now.items))
        (sink_state W.Sink out.old) }
    ensures emits { Emits (end_of offsets.now (out.old.sent + length out.old.waiting.now.items))
        (sink_state W.Sink out.old) (sink_state W.Sink out.new) result }
    ensures none { OnOk result (out.new.waiting.now.items ≡ []) }
    ensures pieces { KeepsShort [] 0 (sink_state W.Sink out.old)
        (sink_state W.Sink out.new) result }
{
    let offset = out.sent + out.waiting.len() as u64;
    send_offsets(width_of(offset), offsets, out)?;
    send_trailer(offsets.len() as u64, offset, out)
}

fn send_offsets<W: Sink>(
    width: u8,
    offsets: &[u64],
    out: &mut BufferedSink<W>,
) -> Result<(), WriteFault>
    requires width { IsWidth width }
    requires fit { All (λ offset. offset < 256 ^ width) offsets.now }
    requires room { CanTake (references width offsets.now) (sink_state W.Sink out.old) }
    ensures emits { Emits (references width offsets.now)
        (sink_state W.Sink out.old) (sink_state W.Sink out.new) result }
    ensures pieces { KeepsShort [] 0 (sink_state W.Sink out.old)
        (sink_state W.Sink out.new) result }
{
    for offset in offsets {
        out.make_room(u64::from(width))?;
        let put = put_number(out.waiting, width, *offset);
        out.grown(put)?;
    }
    Ok(())
}

fn send_trailer<W: Sink>(
    count: u64,
    offset: u64,
    out: &mut BufferedSink<W>,
) -> Result<(), WriteFault>
    requires { CanTake (trailer_octets count offset) (sink_state W.Sink out.old) }
    ensures emits { Emits (trailer_octets count offset)
        (sink_state W.Sink out.old) (sink_state W.Sink out.new) result }
    ensures none { OnOk result (out.new.waiting.now.items ≡ []) }
    ensures pieces { KeepsShort [] 0 (sink_state W.Sink out.old)
        (sink_state W.Sink out.new) result }
{
    out.make_room(TRAILER)?;
    let put = put_trailer(out.waiting, count, offset);
    out.grown(put)?;
    out.flush_unchecked()
}
