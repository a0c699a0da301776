//! Prints strings.
ghost use Rattle.std.specs.Prelude.{◌≡◌, ◌+◌, ◌<◌, ◌≤◌, ◌++◌, true, false, IfOk, OnOk, length};
ghost use Rattle.std.specs.Prelude.{drop, slice_index, take};
ghost use Rattle.std.specs.Char.{encode_utf8};
ghost use Rattle.plist_value.specs.Texts.{units_of};
ghost use Rattle.plist_write.specs.BufferedSink.{PutsPiece};
ghost use Rattle.plist_print.specs.Units.{printed_unit, printed_units};
ghost use Rattle.plist_print.specs.Shown.{is_verbatim};

use crate::invisible::{is_visible, visible_pair};
use plist_value::{TextRef, literal_run, put_quoted_unit};
use std::alloc::AllocError;

// The maximum number of bytes that are encoded before they are appended.
const RUN: usize = 192;

// Appends some of the units from position `index` on to `out`, and returns the position after
// them. This is a sequence of characters that need no escape, or one unit, or the two units of a
// surrogate pair.
pub(crate) fn put_some(out: &mut Vec<u8>, text: &TextRef, index: usize) -> Result<usize, AllocError>
    requires { index < length (units_of text.now) }
    ensures octets { IfOk result (λ next. PutsPiece out.old.items out.new.items
        (printed_units (drop index (units_of text.now)))
        (printed_units (drop next (units_of text.now)))) }
    ensures further { IfOk result (λ next. index < next) }
    ensures within { IfOk result (λ next. next ≤ length (units_of text.now)) }
{
    if let Some(octets) = text.octets() {
        let run = literal_run(&octets[index..]);
        if !run.is_empty() {
            out.extend_from_slice(run)?;
            return Ok(index + run.len());
        }
    }
    if is_verbatim(text.unit(index)) {
        put_run(out, text, index)
    } else {
        put_unit(out, text, index)
    }
}

// Appends the unit at position `index`, which needs no escape, and units after it up to the first
// that does. Returns the position after them.
fn put_run(out: &mut Vec<u8>, text: &TextRef, index: usize) -> Result<usize, AllocError>
    requires within { index < length (units_of text.now) }
    requires verbatim { is_verbatim (slice_index (units_of text.now) index) ≡ true }
    ensures octets { IfOk result (λ next. PutsPiece out.old.items out.new.items
        (printed_units (drop index (units_of text.now)))
        (printed_units (drop next (units_of text.now)))) }
    ensures further { IfOk result (λ next. index < next) }
    ensures within { IfOk result (λ next. next ≤ length (units_of text.now)) }
{
    let length = text.len();
    let mut run = [0; RUN];
    let mut filled = encode_unit(&mut run, 0, text.unit(index));
    let mut next = index + 1;
    while filled <= RUN - 3 && next < length {
        let unit = text.unit(next);
        if !is_verbatim(unit) {
            break;
        }
        filled = encode_unit(&mut run, filled, unit);
        next += 1;
    }
    out.extend_from_slice(&run[..filled])?;
    Ok(next)
}

// Writes the unit in UTF-8 at position `at`, and returns the position after it.
fn encode_unit(into: &mut [u8], at: usize, unit: u16) -> usize
    requires { at + 3 ≤ length into.old }
    ensures octets { take result into.new ≡ take at into.old ++ encode_utf8 unit }
    ensures within { result ≤ at + 3 }
{
    let last = 0x80 + (unit % 0x40) as u8;
    if unit < 0x80 {
        into[at] = unit as u8;
        return at + 1;
    }
    if unit < 0x800 {
        into[at] = 0xc0 + (unit / 0x40) as u8;
        into[at + 1] = last;
        return at + 2;
    }
    into[at] = 0xe0 + (unit / 0x1000) as u8;
    into[at + 1] = 0x80 + (unit / 0x40 % 0x40) as u8;
    into[at + 2] = last;
    at + 3
}

// Appends the unit at position `index`, which is not printed as it is, together with the next if
// both are a visible surrogate pair. Returns the position after them.
fn put_unit(out: &mut Vec<u8>, text: &TextRef, index: usize) -> Result<usize, AllocError>
    requires within { index < length (units_of text.now) }
    requires escaped { is_verbatim (slice_index (units_of text.now) index) ≡ false }
    ensures octets { IfOk result (λ next. PutsPiece out.old.items out.new.items
        (printed_units (drop index (units_of text.now)))
        (printed_units (drop next (units_of text.now)))) }
    ensures further { IfOk result (λ next. index < next) }
    ensures within { IfOk result (λ next. next ≤ length (units_of text.now)) }
{
    let length = text.len();
    let unit = text.unit(index);
    if index + 1 < length {
        let next = text.unit(index + 1);
        if let Some(character) = visible_pair(unit, next) {
            put_character(out, character)?;
            return Ok(index + 2);
        }
    }
    put_escape(out, unit)?;
    Ok(index + 1)
}

// Appends a unit that is not printed as it is, and that is not part of a visible pair.
fn put_escape(out: &mut Vec<u8>, unit: u16) -> Result<(), AllocError>
    requires { is_verbatim unit ≡ false }
    ensures { OnOk result (out.new.items ≡ out.old.items ++ printed_unit unit) }
{
    put_quoted_unit(out, unit)
}

// Returns whether the unit alone is printed as it is, in UTF-8: it is visible, and no quote and no
// backslash.
#[inline(always)]
fn is_verbatim(unit: u16) -> bool
    ensures { result ≡ is_verbatim unit }
{
    unit != 0x22 && unit != 0x5c && is_visible(u32::from(unit))
}

// Appends a character in UTF-8.
fn put_character(out: &mut Vec<u8>, character: char) -> Result<(), AllocError>
    ensures { OnOk result (out.new.items ≡ out.old.items ++ encode_utf8 character) }
{
    let mut buffer = [0; 4];
    out.extend_from_slice(character.encode_utf8(&mut buffer).as_bytes())
}
