//! The canonical file, sent in pieces.
ghost use Rattle.std.specs.Prelude.{◌≡◌, ◌+◌, ◌<◌, ◌≤◌, ◌-◌, ◌^◌, ◌∷◌, [], ℕ, length, IfOk};
ghost use Rattle.std.specs.List.{concat};
ghost use Rattle.plist_value.specs.Plist.{Plist, bytes};
ghost use Rattle.plist_keys.specs.KeyOrder.{IsReady};
ghost use Rattle.plist_object.specs.Layout.{header};
ghost use Rattle.plist_object.specs.Sizes.{IsWidth};
ghost use Rattle.plist_object.specs.Spelled.{IsBinary};
ghost use Rattle.plist_object.specs.Spelling.{scalar_spelling};
ghost use Rattle.plist_object.specs.Views.{octets_of};
ghost use Rattle.plist_object.specs.Files.{starts};
ghost use Rattle.plist_write.specs.Canonical.{canon, file_of, objects_of};
ghost use Rattle.plist_write.specs.Pieces.{CanSpellAll, CanSpellObject, octets_in_object};
ghost use Rattle.plist_write.specs.Sending.{Allows, ArePieces, IsWritten};
ghost use Rattle.plist_write.specs.Tree.{preorder};
ghost use Rattle.plist_write.specs.Renumbering.{AreSound, CanSend, helds_of, octets_planned};
ghost use Rattle.plist_write.specs.Renumbering.{planned};
ghost use Rattle.plist_write.specs.BufferedSink.{CanTake, Emits, KeepsShort, LeavesRoom};
ghost use Rattle.plist_write.specs.BufferedSink.{Stays, sink_state};

use crate::buffered_sink::PIECE;
use crate::file_end::send_end;
use crate::new_objects::{NewObject, object_length, put_object};
use crate::objects::Input;
use crate::plan::CanonicalObjects;
use crate::renumbering::renumbered_object;
use crate::walk::objects_of;
use crate::{BufferedSink, WriteFault};
use plist_devices::Sink;
use plist_keys::JudgedFile;
use plist_object::{HEADER, put_data_head, width_of};
use plist_value::ScalarRef;
use std::alloc::Global;
use std::hash::BuildHasher;

// The most bytes of a data object that precede its content.
const MOST_HEAD: u64 = 10;

/// Sends the canonical file of the value that the file encodes, object after object, and returns
/// its size. Neither the value nor its canonical file is built in memory. No piece is longer than
/// 4,096 bytes, or than the longest object if that is longer.
///
/// A dictionary with the same keys as the one before reuses its order. Scalars are hashed by
/// `hasher`. If others choose the files, pass a [`RandomState`](std::hash::RandomState): scalars
/// that were chosen to collide under a [`FixedHasher`](plist_value::FixedHasher) then cost no more
/// than others.
///
/// # Errors
///
/// [`WriteFault::WriteFailed`] (51) if the sink fails, and [`WriteFault::OutOfMemory`] (60) if
/// there is no memory for the plan of the objects or for one of them. Exactly the first `sent`
/// bytes of the file were written then.
pub fn write_canonical_of<S: BuildHasher + Copy, W: Sink>(
    alloc: Global,
    hasher: S,
    judged: JudgedFile,
    out: &mut W,
) -> Result<u64, WriteFault>
    requires binary { (v : Plist) × IsBinary (octets_of judged.file) v }
    requires ready { IsReady (octets_of judged.file) judged.order }
    ensures written { (v : Plist) → IsBinary (octets_of judged.entry.file) v
        → IsWritten (canon v) (W.taken out.old) (W.taken out.new)
        (W.failures out.old) (W.failures out.new) result }
    ensures same { W.device out.new ≡ W.device out.old }
    ensures pieces { (v : Plist) → IsBinary (octets_of judged.entry.file) v
        → ArePieces (objects_of (preorder v)) (W.longest out.old) (W.longest out.new) }
{
    let JudgedFile { file, order, .. } = judged;
    let input = Input { alloc, file };
    let objects = objects_of(&input, hasher, order)?;
    send_file(&input, objects, out)
}

fn send_file<W: Sink>(
    input: &Input,
    objects: CanonicalObjects,
    sink: &mut W,
) -> Result<u64, WriteFault>
    requires can { CanSend (octets_of input.now.file) objects }
    ensures written { IsWritten (file_of (planned (octets_of input.now.file) objects))
        (W.taken sink.old) (W.taken sink.new)
        (W.failures sink.old) (W.failures sink.new) result }
    ensures same { W.device sink.new ≡ W.device sink.old }
    ensures pieces { ArePieces (planned (octets_of input.now.file) objects)
        (W.longest sink.old) (W.longest sink.new) }
{
    let mut waiting = Vec::from_slice(input.alloc, &HEADER)?;
    let mut out = BufferedSink {
        sink,
        waiting: &mut waiting,
        sent: 0,
    };
    send_planned(input, objects, &mut out)
}

// Sends the file of the planned objects, whose header is already in the buffer.
fn send_planned<W: Sink>(
    input: &Input,
    objects: CanonicalObjects,
    out: &mut BufferedSink<W>,
) -> Result<u64, WriteFault>
    requires can { CanSend (octets_of input.now.file) objects }
    requires begun { out.old.waiting.now.items ≡ header }
    requires first { out.old.sent ≡ 0 }
    ensures written { IsWritten (file_of (planned (octets_of input.now.file) objects))
        (W.taken out.old.sink.now) (W.taken out.new.sink.now)
        (W.failures out.old.sink.now) (W.failures out.new.sink.now) result }
    ensures stays { Stays (sink_state W.Sink out.old) (sink_state W.Sink out.new) }
    ensures pieces { ArePieces (planned (octets_of input.now.file) objects)
        (W.longest out.old.sink.now) (W.longest out.new.sink.now) }
{
    let width = width_of(objects.originals.len() as u64);
    let offsets = send_objects(input, width, &objects, out)?;
    drop(objects);
    send_end(&offsets, out)?;
    Ok(out.sent)
}

// Sends the objects, and returns their offsets in the file.
fn send_objects<W: Sink>(
    input: &Input,
    width: u8,
    objects: &CanonicalObjects,
    out: &mut BufferedSink<W>,
) -> Result<Vec<u64>, WriteFault>
    requires width { IsWidth width }
    requires sound { AreSound (octets_of input.now.file)
        objects.now.originals.items objects.now.references.items }
    requires spellable { CanSpellAll width (helds_of (octets_of input.now.file)
        objects.now.originals.items objects.now.references.items) }
    requires waits { 0 < length out.old.waiting.now.items }
    requires room { out.old.sent + (length out.old.waiting.now.items
        + length (concat (octets_planned width (octets_of input.now.file) objects.now)))
        < 2 ^ 64 - 8 }
    ensures emits { Emits (concat (octets_planned width (octets_of input.now.file) objects.now))
        (sink_state W.Sink out.old) (sink_state W.Sink out.new) result }
    ensures offsets { IfOk result (λ offsets. offsets.items
        ≡ starts 8 (octets_planned width (octets_of input.now.file) objects.now)) }
    ensures pieces { KeepsShort (octets_planned width (octets_of input.now.file) objects.now) 0
        (sink_state W.Sink out.old) (sink_state W.Sink out.new) result }
{
    let mut offsets = out.grown(Vec::with_capacity(input.alloc, objects.originals.len()))?;
    let mut numbers = objects.references.as_slice();
    let mut offset = 8;
    for original in &objects.originals {
        let (object, behind) = renumbered_object(&input.file, u64::from(*original), numbers);
        let size = object_length(width, &object);
        offsets.push_reserved(offset);
        send_object(width, &object, size, out)?;
        offset += size;
        numbers = behind;
    }
    Ok(offsets)
}

// Writes an object of `size` bytes. Long data goes to the sink without a copy.
//
// # Errors
//
// [`WriteFault::WriteFailed`] (51) if the sink fails, and [`WriteFault::OutOfMemory`] (60) if
// there is no memory for the object.
pub(crate) fn send_object<W: Sink>(
    width: u8,
    object: &NewObject,
    size: u64,
    out: &mut BufferedSink<W>,
) -> Result<(), WriteFault>
    requires width { IsWidth width }
    requires spellable { CanSpellObject width object.now }
    requires some { 0 < size }
    requires size { size ≡ length (octets_in_object width object.now) }
    requires room { CanTake (octets_in_object width object.now) (sink_state W.Sink out.old) }
    ensures emits { Emits (octets_in_object width object.now)
        (sink_state W.Sink out.old) (sink_state W.Sink out.new) result }
    ensures pieces { KeepsShort (octets_in_object width object.now ∷ []) 0
        (sink_state W.Sink out.old) (sink_state W.Sink out.new) result }
{
    match object {
        NewObject::Scalar(ScalarRef::Bytes(octets)) if octets.len() as u64 > PIECE => {
            out.make_room(MOST_HEAD)?;
            send_data(octets, out)
        }
        _ => {
            out.make_room(size)?;
            let put = put_object(out.waiting, width, object);
            out.grown(put)
        }
    }
}

// Sends data of at least 15 bytes without a copy.
fn send_data<W: Sink>(octets: &[u8], out: &mut BufferedSink<W>) -> Result<(), WriteFault>
    requires long { 15 ≤ length octets.now }
    requires room { CanTake (scalar_spelling (bytes octets.now)) (sink_state W.Sink out.old) }
    ensures emits { Emits (scalar_spelling (bytes octets.now))
        (sink_state W.Sink out.old) (sink_state W.Sink out.new) result }
    ensures pieces { (most : ℕ) → Allows most (octets.now ∷ [])
        → length out.old.waiting.now.items + MOST_HEAD ≤ most → W.longest out.old.sink.now ≤ most
        → LeavesRoom most 0 (sink_state W.Sink out.new) result }
{
    let put = put_data_head(out.waiting, octets.len() as u64);
    out.grown(put)?;
    out.send_long(octets)
}
