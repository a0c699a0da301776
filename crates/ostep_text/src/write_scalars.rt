//! Writing strings and data.
ghost use Rattle.std.specs.Prelude.{◌≡◌, ◌++◌, nat_eq, codes, flat_map, OnOk};
ghost use Rattle.std.specs.List.{starts_with};
ghost use Rattle.std.specs.Char.{is_ascii_alphanumeric};
ghost use Rattle.plist_value.specs.Texts.{units_of};
ghost use Rattle.plist_value.specs.Escapes.{quoted_unit};
ghost use Rattle.ostep_text.specs.Written.{are_alphanumeric, is_unquoted};
ghost use Rattle.ostep_text.specs.Written.{written_data, written_text};

use plist_value::{TextRef, put_digits, put_quoted_unit};
use std::alloc::AllocError;

static BINARY: [u16; 6] = [0x62, 0x70, 0x6c, 0x69, 0x73, 0x74];

// Appends the bytes as data to `out`.
pub(crate) fn put_data(out: &mut Vec<u8>, octets: &[u8]) -> Result<(), AllocError>
    ensures { OnOk result (out.new.items ≡ out.old.items ++ written_data octets.now) }
{
    out.reserve(octets.len().saturating_mul(2).saturating_add(2))?;
    out.push(b'<')?;
    put_digits(out, octets)?;
    out.push(b'>')?;
    Ok(())
}

// Appends the string to `out`, in quotes if it needs them.
pub(crate) fn put_text(out: &mut Vec<u8>, units: &[u16]) -> Result<(), AllocError>
    ensures { OnOk result (out.new.items ≡ out.old.items ++ written_text units.now) }
{
    let text = TextRef::of_units(units);
    if is_unquoted(&text) {
        return put_units(out, &text);
    }
    out.push(b'"')?;
    put_units(out, &text)?;
    out.push(b'"')?;
    Ok(())
}

/// Returns whether the string is written without quotes: it has only ASCII letters and digits, at
/// least one, and does not begin with `bplist`.
pub fn is_unquoted(text: &TextRef) -> bool
    ensures { result ≡ is_unquoted (units_of text.now) }
{
    !text.is_empty() && are_alphanumeric(text) && !begins_as_binary(text)
}

fn are_alphanumeric(text: &TextRef) -> bool
    ensures { result ≡ are_alphanumeric (units_of text.now) }
{
    let text = *text;
    for i in 0..text.len() {
        if !is_alphanumeric(text.unit(i)) {
            return false;
        }
    }
    true
}

// Returns whether the unit is an ASCII letter or digit.
fn is_alphanumeric(unit: u16) -> bool
    ensures { result ≡ is_ascii_alphanumeric unit }
{
    matches!(unit, 0x30..=0x39 | 0x41..=0x5a | 0x61..=0x7a)
}

// Returns whether the string begins with `bplist`, as a binary file does.
fn begins_as_binary(text: &TextRef) -> bool
    ensures { result ≡ starts_with nat_eq (units_of text.now) (codes "bplist") }
{
    let text = *text;
    for i in 0..6 {
        if i >= text.len() {
            return false;
        }
        if text.unit(i) != BINARY[i] {
            return false;
        }
    }
    true
}

// Appends the units as they are between quotes.
fn put_units(out: &mut Vec<u8>, text: &TextRef) -> Result<(), AllocError>
    ensures { OnOk result
        (out.new.items ≡ out.old.items ++ flat_map quoted_unit (units_of text.now)) }
{
    let text = *text;
    for i in 0..text.len() {
        put_quoted_unit(out, text.unit(i))?;
    }
    Ok(())
}
