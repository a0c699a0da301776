//! What is written for the parts of a value in a notation.
ghost use Rattle.std.specs.Prelude.{◌<◌, length};
ghost use Rattle.plist_value.specs.Scalars.{content_of};
ghost use Rattle.plist_value.specs.Texts.{units_of};
ghost use Rattle.plist_write.specs.BufferedSink.{Emits, sink_state};
ghost use Rattle.plist_write.specs.Notation.{Parts};
ghost use Rattle.plist_write.specs.declared.notation.Mark.TheVariants.{TableStart};

use crate::{BufferedSink, WriteFault};
use plist_devices::Sink;
use plist_value::{ScalarRef, TextRef};

/// A part of the text that depends on no value and no level.
#[derive(Clone, Copy)]
pub enum Mark {
    EmptyList,
    ListStart,
    ListEnd,
    ItemEnd,
    EmptyTable,
    TableStart,
    TableEnd,
    PairEnd,
    TextEnd,
}

/// A notation of property lists. `level` counts the containers around the line that is written.
pub trait Notation<W: Sink> {
    // What is written for each part.
    ghost parts: { Parts };

    /// Writes a scalar that begins on a line of this level.
    fn write_scalar(
        scalar: &ScalarRef,
        level: u64,
        out: &mut BufferedSink<W>,
    ) -> Result<(), WriteFault>
        ensures emits { Emits (parts.scalar_text level (content_of scalar.now))
            (sink_state W.Sink out.old) (sink_state W.Sink out.new) result };

    /// Writes what precedes an item or a closing bracket.
    fn begin_line(level: u64, out: &mut BufferedSink<W>) -> Result<(), WriteFault>
        ensures emits { Emits (parts.line_start level)
            (sink_state W.Sink out.old) (sink_state W.Sink out.new) result };

    /// Writes what precedes a value of a dictionary: its key, and what separates them.
    fn begin_pair(key: &TextRef, level: u64, out: &mut BufferedSink<W>) -> Result<(), WriteFault>
        ensures emits { Emits (parts.pair_start level (units_of key.now))
            (sink_state W.Sink out.old) (sink_state W.Sink out.new) result };

    /// Writes a mark.
    fn write_mark(mark: Mark, out: &mut BufferedSink<W>) -> Result<(), WriteFault>
        ensures emits { Emits (parts.mark_text mark)
            (sink_state W.Sink out.old) (sink_state W.Sink out.new) result };

    // A dictionary that is not empty begins with some bytes.
    ghost begun: { 0 < length (parts.mark_text TableStart) };
}
