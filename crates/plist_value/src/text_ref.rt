//! Borrowed strings.
ghost use Rattle.std.specs.Prelude.{◌≡◌, ◌≢◌, ◌<◌, ◌≤◌, ◌*◌, ◌/◌, ◌%◌, ◌↔◌, IsSome, IfSome, All};
ghost use Rattle.std.specs.Prelude.{IsTrue, true};
ghost use Rattle.std.specs.Prelude.{nat_eq, nat_lt, length, slice_index, take};
ghost use Rattle.std.specs.List.{list_all};
ghost use Rattle.std.specs.Ordering.{nat_cmp, on, as_partial_cmp};
ghost use Rattle.std.specs.Cmp.{partial_order_from_own_ties};
ghost use Rattle.std.specs.Cmp.Lexicographic.{pointwise, slice_cmp, bytes_decides};
ghost use Rattle.std.specs.Cmp.Rules.{comparing};
ghost use Rattle.std.specs.Hash.{on_Alike, same_Alike};
ghost use Rattle.plist_value.specs.Hashes.{fed_text};
ghost use Rattle.std.proofs.Common.{rules};
ghost use Rattle.plist_value.specs.Texts.{units_of, wide_units};
ghost use Rattle.plist_value.specs.Texts.{is_ascii_kept, is_units_kept, is_wide_kept};

use crate::ascii::Ascii;
use crate::stored::{Stored, alike};
use crate::text_hash::feed_text;
use crate::words::feed_octets;
use std::cmp::Ordering;
use std::hash::{Hash, Hasher};

/// A string, borrowed from UTF-16 units or from the bytes of a file. Strings are equal, ordered and
/// hashed by their units, however they are stored. This allocates and copies nothing: a comparison
/// reads both up to the first difference, and a hash reads all units once.
#[derive(Clone, Copy, Debug)]
pub struct TextRef<'a> {
    kept: Kept<'a>,
}

// How the units are stored: as they are, as bytes below 128, or as two bytes each, big-endian.
#[derive(Clone, Copy, Debug)]
enum Kept<'a> {
    Units(&'a [u16]),
    Ascii(Ascii<'a>),
    Wide(&'a [u8]),
}

impl<'a> TextRef<'a> {
    ghost use Rattle.plist_value.specs.Plist.{AreUnits};

    /// Returns the string of these units.
    pub fn of_units(units: &'a [u16]) -> TextRef<'a>
        ensures text { units_of result ≡ units.entry.now }
        ensures valid { AreUnits (units_of result) }
        ensures kept { is_units_kept result ≡ true }
    {
        TextRef {
            kept: Kept::Units(units),
        }
    }

    /// Returns the string whose units are these bytes, or `None` if and only if a byte is above 7f.
    /// Reads them once.
    pub fn of_ascii(octets: &'a [u8]) -> Option<TextRef<'a>>
        ensures ascii { IsSome result ↔ All (λ octet. octet < 128) octets.entry.now }
        ensures text { IfSome result (λ t. units_of t ≡ octets.entry.now) }
        ensures valid { IfSome result (λ t. AreUnits (units_of t)) }
        ensures kept { IfSome result (λ t. is_ascii_kept t ≡ true) }
    {
        let ascii = Ascii::of(octets)?;
        Some(TextRef {
            kept: Kept::Ascii(ascii),
        })
    }

    /// Returns the string of these units of two bytes each, big-endian, or `None` if and only if
    /// the number of bytes is odd.
    pub fn of_wide(octets: &'a [u8]) -> Option<TextRef<'a>>
        ensures even { IsSome result ↔ (length octets.entry.now % 2 ≡ 0) }
        ensures text { IfSome result (λ t. units_of t ≡ wide_units octets.entry.now) }
        ensures valid { IfSome result (λ t. AreUnits (units_of t)) }
        ensures kept { IfSome result (λ t. is_wide_kept t ≡ true) }
    {
        if octets.len() % 2 == 0 {
            Some(TextRef {
                kept: Kept::Wide(octets),
            })
        } else {
            None
        }
    }

    /// Returns the number of units.
    pub fn len(&self) -> usize
        ensures { result ≡ length (units_of self.now) }
    {
        match self.kept {
            Kept::Units(units) => units.len(),
            Kept::Ascii(ascii) => ascii.text.len(),
            Kept::Wide(octets) => octets.len() / 2,
        }
    }

    /// Returns whether there are no units.
    pub fn is_empty(&self) -> bool
        ensures { result ≡ nat_eq (length (units_of self.now)) 0 }
    {
        self.len() == 0
    }

    /// Returns the unit at position `i`, which is below `len`.
    pub fn unit(&self, i: usize) -> u16
        requires { i < length (units_of self.now) }
        ensures { result ≡ slice_index (units_of self.now) i }
    {
        match self.kept {
            Kept::Units(units) => units.unit(i),
            Kept::Ascii(ascii) => ascii.unit(i),
            Kept::Wide(octets) => octets.unit(i),
        }
    }

    /// Returns whether all units are below 128. Reads no unit if they are stored as ASCII bytes.
    pub fn is_ascii(&self) -> bool
        ensures { result ≡ list_all (λ unit. nat_lt unit 128) (units_of self.now) }
    {
        match self.kept {
            Kept::Units(units) => are_ascii(units),
            Kept::Ascii(_) => true,
            Kept::Wide(_) => is_each_ascii(self),
        }
    }

    /// Returns the bytes, one for each unit, if the string was created by `of_ascii`.
    pub fn octets(&self) -> Option<&'a [u8]>
        ensures text { IfSome result (λ octets. units_of self.now ≡ octets.now) }
        ensures kept { IsSome result ↔ (is_ascii_kept self.now ≡ true) }
    {
        match self.kept {
            Kept::Ascii(ascii) => Some(ascii.text.as_bytes()),
            _ => None,
        }
    }

    /// Returns the number of leading units that both share, up to `most`, which is at most either
    /// length. Compares many units at once, however the strings are stored.
    pub fn alike(&self, other: &TextRef, most: usize) -> usize
        requires { (most ≤ length (units_of self.now)) × (most ≤ length (units_of other.now)) }
        ensures within { result ≤ most }
        ensures same { take result (units_of other.now) ≡ take result (units_of self.now) }
        ensures differ { result < most
            → slice_index (units_of self.now) result ≢ slice_index (units_of other.now) result }
    {
        if is_prefix_alike(self, other, most) {
            return most;
        }
        match self.kept {
            Kept::Units(units) => alike_to(&units, other, most),
            Kept::Ascii(ascii) => alike_to(&ascii, other, most),
            Kept::Wide(octets) => alike_to(&octets, other, most),
        }
    }

    /// Returns the units, if the string was created by `of_units`.
    pub fn units(&self) -> Option<&'a [u16]>
        ensures text { IfSome result (λ units. units_of self.now ≡ units.now) }
        ensures kept { IsSome result ↔ (is_units_kept self.now ≡ true) }
    {
        match self.kept {
            Kept::Units(units) => Some(units),
            _ => None,
        }
    }

    /// Returns the bytes, two for each unit, big-endian, if the string was created by `of_wide`.
    pub fn wide_octets(&self) -> Option<&'a [u8]>
        ensures text { IfSome result (λ octets. units_of self.now ≡ wide_units octets.now) }
        ensures kept { IsSome result ↔ (is_wide_kept self.now ≡ true) }
    {
        match self.kept {
            Kept::Wide(octets) => Some(octets),
            _ => None,
        }
    }
}

fn are_ascii(units: &[u16]) -> bool
    ensures { result ≡ list_all (λ unit. nat_lt unit 128) units.now }
{
    for unit in units {
        if *unit >= 128 {
            return false;
        }
    }
    true
}

// Works for each way of storing the string; `are_ascii` is faster for a slice of units.
fn is_each_ascii(text: &TextRef) -> bool
    ensures { result ≡ list_all (λ unit. nat_lt unit 128) (units_of text.now) }
{
    let text = *text;
    for i in 0..text.len() {
        if text.unit(i) >= 128 {
            return false;
        }
    }
    true
}

impl<'a> PartialEq for TextRef<'a> {
    ghost eq = { on units_of (pointwise nat_eq) };

    ghost laws = { Prim.search (comparing, rules) };

    fn eq(&self, other: &Self) -> bool {
        self.len() == other.len() && self.alike(other, self.len()) == self.len()
    }
}

impl<'a> Eq for TextRef<'a> {
    ghost laws = { Prim.search (comparing, rules) };
}

// Compares unit by unit; a proper prefix is less.
impl<'a> Ord for TextRef<'a> {
    ghost cmp = { on units_of (slice_cmp nat_cmp) };

    ghost total = { Prim.search (comparing, rules) };

    ghost matches_partial_cmp = { Prim.search (comparing, rules) };

    ghost matches_eq = { Prim.search (comparing, rules) };

    fn cmp(&self, other: &Self) -> Ordering {
        match (self.kept, other.kept) {
            (Kept::Units(units), Kept::Units(others)) => units.cmp(others),
            (Kept::Ascii(ascii), Kept::Ascii(other)) => ascii.text.cmp(other.text),
            (Kept::Wide(octets), Kept::Wide(others)) => compare_pairs(octets, others),
            _ => compare_units(self, other),
        }
    }
}

impl<'a> PartialOrd for TextRef<'a> {
    ghost partial_cmp = { as_partial_cmp (on units_of (slice_cmp nat_cmp)) };

    ghost laws = { partial_order_from_own_ties (Prim.search (comparing, rules))
        (Prim.search (comparing, rules)) };

    fn partial_cmp(&self, other: &Self) -> Option<Ordering> {
        Some(self.cmp(other))
    }
}

// Hashes the units alone, without a copy: eight in each write if all are below 256, and otherwise
// four.
impl<'a> Hash for TextRef<'a> {
    ghost hash_input = { λ text. fed_text (units_of text) };

    ghost respects_eq = { (on_Alike units_of (same_Alike fed_text bytes_decides)).fed };

    fn hash<H: Hasher>(&self, state: &mut H) {
        if let Kept::Ascii(ascii) = self.kept {
            feed_octets(ascii.text.as_bytes(), state);
        } else {
            feed_text(self, state);
        }
    }
}

// Compares the bytes, which gives the order of the units: each unit has its high byte first.
fn compare_pairs(octets: &[u8], others: &[u8]) -> Ordering
    ensures { result ≡ slice_cmp nat_cmp (wide_units octets.now) (wide_units others.now) }
{
    let pairs = first_pairs(octets, octets.len() / 2);
    pairs.cmp(&first_pairs(others, others.len() / 2))
}

// Returns the bytes of the first `count` units.
fn first_pairs(octets: &[u8], count: usize) -> &[u8]
    requires { count ≤ length octets.now / 2 }
    ensures { result.now ≡ take (count * 2) octets.now }
{
    &octets[..count * 2]
}

// Works for each way of storing the strings; slices of the same kind are compared faster.
fn compare_units(text: &TextRef, other: &TextRef) -> Ordering
    ensures { result ≡ slice_cmp nat_cmp (units_of text.now) (units_of other.now) }
{
    let most = text.len().min(other.len());
    let i = text.alike(other, most);
    if i == most {
        return text.len().cmp(&other.len());
    }
    let (unit, other_unit) = (text.unit(i), other.unit(i));
    unit.cmp(&other_unit)
}

// Returns whether both share this number of leading units. `false` is only a hint: strings that are
// stored in different ways are not compared.
fn is_prefix_alike(text: &TextRef, other: &TextRef, count: usize) -> bool
    requires { (count ≤ length (units_of text.now)) × (count ≤ length (units_of other.now)) }
    ensures { IsTrue result → take count (units_of other.now) ≡ take count (units_of text.now) }
{
    match (text.kept, other.kept) {
        (Kept::Units(units), Kept::Units(others)) => units[..count] == others[..count],
        (Kept::Ascii(ascii), Kept::Ascii(other)) => {
            ascii.text.as_bytes()[..count] == other.text.as_bytes()[..count]
        }
        (Kept::Wide(octets), Kept::Wide(others)) => {
            first_pairs(octets, count) == first_pairs(others, count)
        }
        _ => false,
    }
}

// Returns the number of leading units that both share, up to `most`.
fn alike_to<A: Stored>(units: &A, other: &TextRef, most: usize) -> usize
    requires { (most ≤ length (A.units units.now)) × (most ≤ length (units_of other.now)) }
    ensures within { result ≤ most }
    ensures same { take result (units_of other.now) ≡ take result (A.units units.now) }
    ensures differ { result < most
        → slice_index (A.units units.now) result ≢ slice_index (units_of other.now) result }
{
    match other.kept {
        Kept::Units(others) => alike(units, &others, most),
        Kept::Ascii(ascii) => alike(units, &ascii, most),
        Kept::Wide(octets) => alike(units, &octets, most),
    }
}
