//! Writes the text of a binary file's value to a sink, in any notation.
ghost use Rattle.std.specs.Prelude.{◌≡◌, ◌<◌, ◌+◌, ◌-◌, ℕ, List, [], OnOk};
ghost use Rattle.plist_value.specs.Plist.{Plist, Items, Pairs, list, table};
ghost use Rattle.plist_value.specs.Plist.{IsPlist, AreItems, ArePairs};
ghost use Rattle.plist_value.specs.declared.TheConstants.{MAX_DEPTH};
ghost use Rattle.plist_keys.specs.KeyOrder.{IsReady};
ghost use Rattle.plist_object.specs.Spelled.{IsBinary, Spells, SpellItems, SpellPairs};
ghost use Rattle.plist_object.specs.Spelled.{SpellsWithin};
ghost use Rattle.plist_object.specs.Views.{numbers_of, octets_of};
ghost use Rattle.plist_write.specs.BufferedSink.{Emits, sink_state};
ghost use Rattle.plist_write.specs.Sending.{IsWritten};
ghost use Rattle.plist_write.specs.Spelling.{PairsWithin, SpellTable, SpellWithin, TableWithin};
ghost use Rattle.plist_write.specs.Spelling.{sorted_references};
ghost use Rattle.plist_write.specs.Notation.{items_in, last_line, pairs_in};
ghost use Rattle.plist_write.specs.Notation.{text_in, document_in};

use crate::notation::{Mark, Notation};
use crate::objects::{Input, TableRefs, object_of};
use crate::order::push_sorted;
use crate::{BufferedSink, WriteFault};
use plist_devices::Sink;
use plist_keys::{JudgedFile, KeyOrder, text_of};
use plist_object::{Object, Refs};
use std::alloc::Global;

/// Writes the text of the file's value, object by object, and returns its length in bytes. Neither
/// the value nor the text is in memory: only the key order of each dictionary that is being
/// written, and one piece.
///
/// # Errors
///
/// [`WriteFault::WriteFailed`] (51) if the sink fails. [`WriteFault::OutOfMemory`] (60) if out of
/// memory for a key order or for a piece, or if the output would exceed `u64::MAX` bytes. In both
/// cases exactly the first `sent` bytes of the text were written.
pub fn write_in_notation<W: Sink, N: Notation<W>>(
    alloc: Global,
    judged: JudgedFile,
    out: &mut W,
) -> Result<u64, WriteFault>
    requires binary { (v : Plist) × IsBinary (octets_of judged.file) v }
    requires ready { IsReady (octets_of judged.file) judged.order }
    ensures written { (v : Plist) → IsBinary (octets_of judged.entry.file) v
        → IsWritten (document_in N.parts v) (W.taken out.old) (W.taken out.new)
        (W.failures out.old) (W.failures out.new) result }
    ensures same { W.device out.new ≡ W.device out.old }
{
    let mut waiting = Vec::new(alloc);
    let mut output = BufferedSink {
        sink: out,
        waiting: &mut waiting,
        sent: 0,
    };
    write_whole::<W, N>(alloc, judged, &mut output)?;
    Ok(output.sent)
}

// Writes the whole text, and then flushes the buffer.
fn write_whole<W: Sink, N: Notation<W>>(
    alloc: Global,
    judged: JudgedFile,
    out: &mut BufferedSink<W>,
) -> Result<(), WriteFault>
    requires binary { (v : Plist) × IsBinary (octets_of judged.file) v }
    requires ready { IsReady (octets_of judged.file) judged.order }
    ensures emits { (v : Plist) → IsBinary (octets_of judged.entry.file) v
        → Emits (document_in N.parts v) (sink_state W.Sink out.old)
        (sink_state W.Sink out.new) result }
    ensures none { OnOk result (out.new.waiting.now.items ≡ []) }
{
    let JudgedFile {
        file,
        mut order,
        ..
    } = judged;
    let input = Input { alloc, file };
    input.write_value::<W, N>(&mut order, file.top(), 0, out)?;
    N::write_mark(Mark::TextEnd, out)?;
    out.flush()
}

// Writes the closing bracket of an array or a dictionary, and what precedes it on its line.
fn end_lines<W: Sink, N: Notation<W>>(
    level: u64,
    close: Mark,
    out: &mut BufferedSink<W>,
) -> Result<(), WriteFault>
    ensures emits { Emits (last_line N.parts level close)
        (sink_state W.Sink out.old) (sink_state W.Sink out.new) result }
{
    N::begin_line(level, out)?;
    N::write_mark(close, out)
}

impl<'a> Input<'a> {
    // Writes the value of the object. What precedes it on its line is written already, and `level`
    // is the level of that line.
    #[cycle(write)]
    fn write_value<W: Sink, N: Notation<W>>(
        &self,
        order: &mut KeyOrder<'a>,
        object: u64,
        level: u64,
        out: &mut BufferedSink<W>,
    ) -> Result<(), WriteFault>
        requires spells { SpellsWithin (octets_of self.now.file) object (MAX_DEPTH - level) }
        requires ready { IsReady (octets_of self.now.file) order.old }
        ensures emits { (v : Plist) → IsPlist v → Spells (octets_of self.now.file) object v
            → Emits (text_in N.parts level v)
            (sink_state W.Sink out.old) (sink_state W.Sink out.new) result }
        ensures ready { OnOk result (IsReady (octets_of self.now.file) order.new) }
    {
        match object_of(&self.file, object) {
            Object::Scalar(scalar) => N::write_scalar(&scalar, level, out),
            Object::List(items) => self.write_list::<W, N>(order, &items, level, out),
            Object::Table(keys, values) => {
                self.write_table::<W, N>(order, &TableRefs { keys, values }, level, out)
            }
        }
    }

    // Writes the array of the items that the references point to.
    #[cycle(write)]
    fn write_list<W: Sink, N: Notation<W>>(
        &self,
        order: &mut KeyOrder<'a>,
        items: &Refs,
        level: u64,
        out: &mut BufferedSink<W>,
    ) -> Result<(), WriteFault>
        requires below { level < MAX_DEPTH }
        requires spell { SpellWithin (octets_of self.now.file) (numbers_of items.now)
            (MAX_DEPTH - (level + 1)) }
        requires ready { IsReady (octets_of self.now.file) order.old }
        ensures emits { (vs : Items) → AreItems vs
            → SpellItems (octets_of self.now.file) (numbers_of items.now) vs
            → Emits (text_in N.parts level (list vs))
            (sink_state W.Sink out.old) (sink_state W.Sink out.new) result }
        ensures ready { OnOk result (IsReady (octets_of self.now.file) order.new) }
    {
        if items.is_empty() {
            return N::write_mark(Mark::EmptyList, out);
        }
        N::write_mark(Mark::ListStart, out)?;
        self.write_items::<W, N>(order, items, level + 1, out)?;
        end_lines::<W, N>(level, Mark::ListEnd, out)
    }

    // Writes the items that the references point to, with what precedes and follows each.
    #[cycle(write)]
    fn write_items<W: Sink, N: Notation<W>>(
        &self,
        order: &mut KeyOrder<'a>,
        items: &Refs,
        level: u64,
        out: &mut BufferedSink<W>,
    ) -> Result<(), WriteFault>
        requires spell { SpellWithin (octets_of self.now.file) (numbers_of items.now)
            (MAX_DEPTH - level) }
        requires ready { IsReady (octets_of self.now.file) order.old }
        ensures emits { (vs : Items) → AreItems vs
            → SpellItems (octets_of self.now.file) (numbers_of items.now) vs
            → Emits (items_in N.parts level vs)
            (sink_state W.Sink out.old) (sink_state W.Sink out.new) result }
        ensures ready { OnOk result (IsReady (octets_of self.now.file) order.new) }
    {
        for i in 0..items.len() {
            N::begin_line(level, out)?;
            self.write_value::<W, N>(order, items.get(i), level, out)?;
            N::write_mark(Mark::ItemEnd, out)?;
        }
        Ok(())
    }

    // Writes the dictionary of the keys and values that the references point to.
    #[cycle(write)]
    fn write_table<W: Sink, N: Notation<W>>(
        &self,
        order: &mut KeyOrder<'a>,
        refs: &TableRefs<'a>,
        level: u64,
        out: &mut BufferedSink<W>,
    ) -> Result<(), WriteFault>
        requires below { level < MAX_DEPTH }
        requires spell { TableWithin (octets_of self.now.file) (numbers_of refs.now.keys)
            (numbers_of refs.now.values) (MAX_DEPTH - (level + 1)) }
        requires ready { IsReady (octets_of self.now.file) order.old }
        ensures emits { (rows : List (ℕ × ℕ)) (ps : Pairs)
            → SpellTable (octets_of self.now.file)
            (numbers_of refs.now.keys) (numbers_of refs.now.values) rows ps
            → Emits (text_in N.parts level (table ps))
            (sink_state W.Sink out.old) (sink_state W.Sink out.new) result }
        ensures ready { OnOk result (IsReady (octets_of self.now.file) order.new) }
    {
        if refs.keys.is_empty() {
            return N::write_mark(Mark::EmptyTable, out);
        }
        let mut references = Vec::new(self.alloc);
        out.grown(push_sorted(self, order, refs, &mut references))?;
        N::write_mark(Mark::TableStart, out)?;
        self.write_pairs::<W, N>(order, &references, level + 1, out)?;
        end_lines::<W, N>(level, Mark::TableEnd, out)
    }

    // Writes the pairs, with what follows each. The references point to the keys, and then to the
    // values.
    #[cycle(write)]
    fn write_pairs<W: Sink, N: Notation<W>>(
        &self,
        order: &mut KeyOrder<'a>,
        references: &[u32],
        level: u64,
        out: &mut BufferedSink<W>,
    ) -> Result<(), WriteFault>
        requires spell { PairsWithin (octets_of self.now.file) references.now (MAX_DEPTH - level) }
        requires ready { IsReady (octets_of self.now.file) order.old }
        ensures emits { (rows : List (ℕ × ℕ)) (ps : Pairs) → references.now ≡ sorted_references rows
            → ArePairs ps → SpellPairs (octets_of self.now.file) rows ps
            → Emits (pairs_in N.parts level ps)
            (sink_state W.Sink out.old) (sink_state W.Sink out.new) result }
        ensures ready { OnOk result (IsReady (octets_of self.now.file) order.new) }
    {
        let count = references.len() / 2;
        for i in 0..count {
            let key = u64::from(references[i]);
            let object = u64::from(references[count + i]);
            N::begin_pair(&text_of(&self.file, key), level, out)?;
            self.write_value::<W, N>(order, object, level, out)?;
            N::write_mark(Mark::PairEnd, out)?;
        }
        Ok(())
    }
}
