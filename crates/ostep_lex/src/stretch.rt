//! Stretches: characters of one class at the start of a text, found in its bytes. They are ASCII in
//! UTF-8, and below the surrogates in UTF-16.
ghost use Rattle.std.specs.Prelude.{◌≡◌, ◌++◌, ◌&&◌, nat_lt, true, chars};
ghost use Rattle.std.specs.Prelude.{OnOk, IsUtf8};
ghost use Rattle.ostep_lex.specs.Stretch.{belongs, is_stretch, BeginsWithStretch};
ghost use Rattle.ostep_lex.specs.Stretch.{BeginsWithUnits};
ghost use Rattle.ostep_lex.specs.Remaining.{units_in};

use crate::character::{is_line_end, is_run, is_white};
use crate::remaining::{ByteOrder, front_unit};
use std::alloc::AllocError;

/// A class of characters.
#[derive(Clone, Copy)]
pub enum Class {
    /// The characters of an unquoted string.
    Run,
    /// Whitespace characters.
    White,
    /// The characters that need no escape in a string with this quote.
    Raw(char),
    /// All characters but line ends.
    Line,
    /// All characters but the star.
    Starless,
}

// Returns whether the character is of the class.
#[inline(always)]
fn is_of(class: Class, c: char) -> bool
    ensures { result ≡ belongs class c }
{
    match class {
        Class::Run => is_run(c),
        Class::White => is_white(c),
        Class::Raw(mark) => c != '\\' && c != mark,
        Class::Line => !is_line_end(c),
        Class::Starless => c != '*',
    }
}

// Returns whether the byte is an ASCII character of the class.
#[inline(always)]
fn is_in(class: Class, octet: u8) -> bool
    ensures { result ≡ (nat_lt octet 128 && belongs class octet) }
{
    is_of(class, char::from(octet)) && octet < 0x80
}

// Returns whether the unit is a character of the class below the surrogates.
#[inline(always)]
fn is_unit_in(class: Class, unit: u16) -> bool
    ensures { result ≡ (nat_lt unit 0xD800 && belongs class unit) }
{
    match char::from_u32(u32::from(unit)) {
        Some(c) => unit < 0xd800 && is_of(class, c),
        None => false,
    }
}

// Returns the bytes after the longest stretch at their start.
#[inline(always)]
fn after_stretch(octets: &[u8], class: Class) -> &[u8]
    ensures { BeginsWithStretch class octets.now result.now }
{
    let mut count = 0;
    while count < octets.len() && is_in(class, octets[count]) {
        count += 1;
    }
    &octets[count..]
}

/// Returns the longest stretch at the start of the text, and the text after it.
#[inline(always)]
pub fn stretch(text: &str, class: Class) -> (&[u8], &str)
    ensures stretch { is_stretch 128 class result.0.now ≡ true }
    ensures chars { chars text.now ≡ result.0.now ++ chars result.1.now }
    ensures split { text.now ≡ result.0.now ++ result.1.now }
    ensures utf8 { IsUtf8 result.1.now }
{
    let after = after_stretch(text.as_bytes(), class);
    let (front, rest) = text.split_at(text.len() - after.len());
    (front.as_bytes(), rest)
}

/// Appends the bytes as units.
pub fn push_octets(units: &mut Vec<u16>, octets: &[u8]) -> Result<(), AllocError>
    ensures { OnOk result (units.new.items ≡ units.old.items ++ octets.now) }
{
    units.reserve(octets.len())?;
    let mut rest = octets;
    while let [octet, after @ ..] = rest {
        units.push_reserved(u16::from(*octet));
        rest = after;
    }
    Ok(())
}

/// Returns the bytes after the longest stretch at the start of UTF-16 bytes.
#[inline(never)]
pub fn after_units(class: Class, order: ByteOrder, octets: &[u8]) -> &[u8]
    ensures { BeginsWithUnits class order octets.now result.now }
{
    let mut rest = octets;
    while let Some((unit, after)) = front_unit(order, rest) {
        if !is_unit_in(class, unit) {
            break;
        }
        rest = after;
    }
    rest
}

/// Appends the units of the bytes, of two bytes each.
pub fn push_units(units: &mut Vec<u16>, order: ByteOrder, octets: &[u8]) -> Result<(), AllocError>
    ensures { OnOk result
        (units.new.items ≡ units.old.items ++ units_in order octets.now) }
{
    units.reserve(octets.len() / 2)?;
    let mut rest = octets;
    while let Some((unit, after)) = front_unit(order, rest) {
        units.push_reserved(unit);
        rest = after;
    }
    Ok(())
}
