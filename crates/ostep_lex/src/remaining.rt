//! The remaining bytes of an input, and the characters at their start.
ghost use Rattle.std.specs.Prelude.{◌≡◌, ◌+◌, ◌++◌, [], ◌∷◌, ◌<◌, ◌≤◌, length, chars};
ghost use Rattle.std.specs.Prelude.{MatchOption, IfSome, IfOk};
ghost use Rattle.std.specs.Char.{IsScalar};
ghost use Rattle.ostep_lex.specs.Encoding.{BeginsWith, BeginsWithNone};
ghost use Rattle.ostep_lex.specs.Encoding.{spelling, utf8};
ghost use Rattle.ostep_lex.specs.Remaining.{unit_octets, encoding_by, FrontsOf};
ghost use Rattle.ostep_lex.specs.Remaining.{characters_in, encoding_in, octets_in, IsWhole, Leads};
ghost use Rattle.ostep_lex.specs.Stretch.{LeadsStretch, PassesLead, AppendsStretch};

use crate::stretch::{Class, after_units, push_octets, push_units, stretch};
use std::alloc::AllocError;

/// The byte order of UTF-16.
#[derive(Clone, Copy)]
pub enum ByteOrder {
    Big,
    Little,
}

/// The remaining bytes.
#[derive(Clone, Copy)]
pub enum Remaining<'a> {
    Utf8(&'a str),
    Utf16(ByteOrder, &'a [u8]),
}

// Returns the unit of two bytes.
fn unit(order: ByteOrder, first: u8, second: u8) -> u16
    ensures { unit_octets order result ≡ first ∷ second ∷ [] }
{
    match order {
        ByteOrder::Big => u16::from_be_bytes([first, second]),
        ByteOrder::Little => u16::from_le_bytes([first, second]),
    }
}

/// Returns the first unit of the bytes, and the bytes after it.
pub fn front_unit(order: ByteOrder, octets: &[u8]) -> Option<(u16, &[u8])>
    ensures { MatchOption result (length octets.now < 2)
        (λ found. octets.now ≡ unit_octets order found.0 ++ found.1.now) }
{
    match octets {
        [first, second, after @ ..] => Some((unit(order, *first, *second), after)),
        _ => None,
    }
}

// Returns the first character of UTF-16 bytes, and the bytes after it.
fn front_character(order: ByteOrder, octets: &[u8]) -> Option<(char, &[u8])>
    ensures { MatchOption result (BeginsWithNone (encoding_by order) octets.now)
        (λ found. BeginsWith (encoding_by order) octets.now found.0 found.1.now) }
{
    let (high, after) = front_unit(order, octets)?;
    if !(0xd800..0xdc00).contains(&high) {
        return Some((char::from_u32(u32::from(high))?, after));
    }
    let (low, after) = front_unit(order, after)?;
    if !(0xdc00..0xe000).contains(&low) {
        return None;
    }
    let code = 0x1_0000 + (u32::from(high) - 0xd800) * 0x400 + (u32::from(low) - 0xdc00);
    Some((char::from_u32(code)?, after))
}

/// Returns the bytes from the first position on at which no UTF-16 character begins.
pub fn after_characters(order: ByteOrder, octets: &[u8]) -> &[u8]
    ensures fronts { FrontsOf (encoding_by order) octets.now result.now }
    ensures none { BeginsWithNone (encoding_by order) result.now }
{
    let mut rest = octets;
    while let Some((_, after)) = front_character(order, rest) {
        rest = after;
    }
    rest
}

// Returns the first character of a text, and the text after it.
fn front_of_str(text: &str) -> Option<(char, &str)>
    ensures { MatchOption result (chars text.now ≡ []) (λ found.
        (text.now ≡ spelling utf8 found.0 ++ found.1.now)
        × (chars text.now ≡ found.0 ∷ chars found.1.now)) }
{
    let mut characters = text.chars();
    let first = characters.next()?;
    Some((first, characters.as_str()))
}

impl<'a> Remaining<'a> {
    /// Returns the number of remaining bytes.
    pub fn len(self) -> usize
        ensures { result ≡ length (octets_in self.entry) }
    {
        match self {
            Remaining::Utf8(text) => text.len(),
            Remaining::Utf16(_, octets) => octets.len(),
        }
    }

    /// Returns the first character, and the remaining bytes after it.
    #[inline(always)]
    pub fn first(self) -> Option<(char, Remaining<'a>)>
        requires { IsWhole self }
        ensures { MatchOption result (characters_in self.entry ≡ [])
            (λ found. Leads self.entry found.0 found.1) }
    {
        match self {
            Remaining::Utf8(text) => {
                let (first, after) = front_of_str(text)?;
                Some((first, Remaining::Utf8(after)))
            }
            Remaining::Utf16(order, octets) => {
                let (first, after) = front_character(order, octets)?;
                Some((first, Remaining::Utf16(order, after)))
            }
        }
    }

    /// Returns the remaining bytes after the longest stretch of the class.
    #[inline(always)]
    pub fn after_stretch(self, class: Class) -> Remaining<'a>
        requires { IsWhole self }
        ensures { PassesLead class self.entry result }
    {
        match self {
            Remaining::Utf8(text) => Remaining::Utf8(stretch(text, class).1),
            Remaining::Utf16(order, octets) => {
                Remaining::Utf16(order, after_units(class, order, octets))
            }
        }
    }

    /// Returns the bytes of the longest stretch of the class, one for each character, and the
    /// remaining bytes after it. Returns `None` for UTF-16.
    #[inline(always)]
    pub fn plain_stretch(self, class: Class) -> Option<(&'a [u8], Remaining<'a>)>
        requires { IsWhole self }
        ensures { IfSome result (λ found. LeadsStretch class self.entry found.0.now found.1) }
    {
        match self {
            Remaining::Utf8(text) => {
                let (front, after) = stretch(text, class);
                Some((front, Remaining::Utf8(after)))
            }
            Remaining::Utf16(..) => None,
        }
    }

    /// Appends the characters of the longest stretch of the class, and returns the remaining bytes
    /// after it.
    #[inline(always)]
    pub fn push_stretch(
        self,
        class: Class,
        units: &mut Vec<u16>,
    ) -> Result<Remaining<'a>, AllocError>
        requires { IsWhole self }
        ensures { IfOk result (AppendsStretch class units.old.items units.new.items self.entry) }
    {
        match self {
            Remaining::Utf8(text) => {
                let (front, after) = stretch(text, class);
                push_octets(units, front)?;
                Ok(Remaining::Utf8(after))
            }
            Remaining::Utf16(order, octets) => {
                let after = after_units(class, order, octets);
                push_units(units, order, &octets[..octets.len() - after.len()])?;
                Ok(Remaining::Utf16(order, after))
            }
        }
    }
}
