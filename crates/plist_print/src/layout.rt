//! Prints what precedes a value on its line.
ghost use Rattle.std.specs.Prelude.{◌≡◌, ◌++◌, OnOk};
ghost use Rattle.plist_value.specs.Texts.{units_of};
ghost use Rattle.plist_write.specs.BufferedSink.{Emits, sink_state};
ghost use Rattle.plist_print.specs.Printed.{indent};
ghost use Rattle.plist_print.specs.Printing.{pair_head};

use crate::lines::print_text;
use plist_devices::Sink;
use plist_value::TextRef;
use plist_write::{BufferedSink, WriteFault};
use std::alloc::AllocError;

// Writes what precedes a value of a dictionary.
pub(crate) fn begin_pair<W: Sink>(
    key: &TextRef,
    level: u64,
    out: &mut BufferedSink<W>,
) -> Result<(), WriteFault>
    ensures emits { Emits (pair_head level (units_of key.now))
        (sink_state W.Sink out.old) (sink_state W.Sink out.new) result }
{
    begin_line(level, out)?;
    print_text(key, b" => ", out)
}

// Writes the spaces at the start of a line.
pub(crate) fn begin_line<W: Sink>(level: u64, out: &mut BufferedSink<W>) -> Result<(), WriteFault>
    ensures emits { Emits (indent level)
        (sink_state W.Sink out.old) (sink_state W.Sink out.new) result }
{
    if level == 0 {
        return Ok(());
    }
    let put = put_indent(out.waiting, level);
    out.grown(put)?;
    out.flush_if_full()
}

// Appends the spaces at the start of a line of this level.
pub(crate) fn put_indent(out: &mut Vec<u8>, level: u64) -> Result<(), AllocError>
    ensures { OnOk result (out.new.items ≡ out.old.items ++ indent level) }
{
    out.resize(out.len() + 2 * level.min(32) as usize, b' ')
}
