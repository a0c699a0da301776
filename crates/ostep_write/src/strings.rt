//! Writes strings.
ghost use Rattle.std.specs.Prelude.{◌≡◌, ◌<◌, ◌≤◌, ◌++◌, [], ◌∷◌, length, take, drop};
ghost use Rattle.std.specs.Prelude.{flat_map, IfOk};
ghost use Rattle.plist_value.specs.Texts.{units_of};
ghost use Rattle.plist_write.specs.BufferedSink.{Emits, PutsPiece, sink_state};
ghost use Rattle.plist_value.specs.Escapes.{quoted_unit};
ghost use Rattle.ostep_text.specs.Written.{written_text};

use ostep_text::is_unquoted;
use plist_devices::Sink;
use plist_value::{TextRef, literal_run, put_quoted_unit};
use plist_write::{BufferedSink, WriteFault};
use std::alloc::AllocError;

// Writes a string, in quotes if it needs them.
//
// # Errors
//
// Fails like [`BufferedSink::put`].
pub(crate) fn write_string<W: Sink>(
    text: &TextRef,
    out: &mut BufferedSink<W>,
) -> Result<(), WriteFault>
    ensures emits { Emits (written_text (units_of text.now))
        (sink_state W.Sink out.old) (sink_state W.Sink out.new) result }
{
    if is_unquoted(text) {
        return write_units(text, out);
    }
    out.put(b"\"")?;
    write_units(text, out)?;
    out.put(b"\"")
}

// Writes the units as they are between quotes.
fn write_units<W: Sink>(text: &TextRef, out: &mut BufferedSink<W>) -> Result<(), WriteFault>
    ensures emits { Emits (flat_map quoted_unit (units_of text.now))
        (sink_state W.Sink out.old) (sink_state W.Sink out.new) result }
{
    let mut index = 0;
    while index < text.len() {
        let put = put_some(out.waiting, text, index);
        let next = out.grown(put)?;
        out.flush_if_full()?;
        index = next;
    }
    Ok(())
}

// Appends some of the units from position `index` on to `out`, and returns the position after them.
// These are units that need no escape if the string is stored as ASCII, and otherwise one unit.
fn put_some(out: &mut Vec<u8>, text: &TextRef, index: usize) -> Result<usize, AllocError>
    requires { index < length (units_of text.now) }
    ensures octets { IfOk result (λ next. PutsPiece out.old.items out.new.items
        (flat_map quoted_unit (drop index (units_of text.now)))
        (flat_map quoted_unit (drop next (units_of text.now)))) }
    ensures further { IfOk result (λ next. index < next) }
    ensures within { IfOk result (λ next. next ≤ length (units_of text.now)) }
{
    if let Some(octets) = text.octets() {
        let run = literal_run(&octets[index..]);
        if !run.is_empty() {
            out.extend_from_slice(run)?;
            return Ok(index + run.len());
        }
    }
    prove!(index < text.len());
    put_quoted_unit(out, text.unit(index))?;
    Ok(index + 1)
}
