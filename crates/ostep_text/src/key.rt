//! Keys of dictionaries.
ghost use Rattle.std.specs.Prelude.{◌≡◌, ◌*◌, ◌-◌, ◌^◌, ◌<◌, ◌≤◌, ℕ, List, length, drop};
ghost use Rattle.std.specs.Prelude.{nat_eq, nat_lt, IfOk};
ghost use Rattle.std.specs.List.{list_all};
ghost use Rattle.std.specs.Cmp.{partial_order_from_own_ties};
ghost use Rattle.std.specs.Cmp.Lexicographic.{pointwise};
ghost use Rattle.std.specs.Cmp.Rules.{comparing};
ghost use Rattle.std.specs.Ordering.{as_partial_cmp};
ghost use Rattle.std.proofs.Common.{rules};
ghost use Rattle.plist_value.specs.Plist.{AreUnits};
ghost use Rattle.plist_value.specs.Texts.{units_of};
ghost use Rattle.ostep_text.specs.Key.{units_in, is_short_key, packed, number_of, key_cmp};
ghost use Rattle.ostep_text.specs.KeyOrder.{key_total, key_partial, key_ties};

use crate::payloads::text_payload;
use plist_value::{TextRef, Utf16};
use std::alloc::{AllocError, Global};
use std::cmp::Ordering;
use std::marker::Model;

// The largest number of units in a short key, whatever they are.
const MOST_WIDE: usize = 7;

// The largest number of units in a short key, each of them below 256.
const MOST_NARROW: usize = 15;

// More than the number of any key with more than `MOST_WIDE` units.
const WIDE: u128 = 0x2000_0000_0000_0000_0000_0000_0000_0000;

// A key, with its last units as a number, by which keys are compared first. Contracts see it as the
// list of its units.
#[derive(Drop)]
pub(crate) struct Key<'a> {
    pub(crate) number: u128,
    text: KeyText<'a>,
}

// A string, borrowed from the input or owned.
#[derive(Drop)]
enum KeyText<'a> {
    Borrowed(TextRef<'a>),
    Owned(Utf16),
}

impl<'a> Model for Key<'a> {
    ghost Value = { List ℕ };

    ghost view = { λ key. units_in key.text };

    ghost invariant = { λ key.
        AreUnits (units_in key.text) × (key.number ≡ number_of (units_in key.text)) };
}

impl<'a> Key<'a> {
    pub(crate) fn borrowed(text: TextRef<'a>) -> Key<'a>
        requires { AreUnits (units_of text) }
        ensures { result ≡ units_of text.entry }
    {
        Key {
            number: number_of(&text),
            text: KeyText::Borrowed(text),
        }
    }

    pub(crate) fn owned(text: Utf16) -> Key<'a>
        ensures { result ≡ text }
    {
        Key {
            number: number_of(&TextRef::of_units(text.units())),
            text: KeyText::Owned(text),
        }
    }

    pub(crate) fn text(&self) -> TextRef<'_>
        ensures text { units_of result ≡ self.now }
        ensures valid { AreUnits self.now }
    {
        match &self.text {
            KeyText::Borrowed(text) => *text,
            KeyText::Owned(text) => TextRef::of_units(text.units()),
        }
    }

    // Returns a copy, which takes no more memory than its units need.
    pub(crate) fn copy(&self, alloc: Global) -> Result<Key<'a>, AllocError>
        ensures { IfOk result (λ copy. copy ≡ self.now) }
    {
        let text = match &self.text {
            KeyText::Borrowed(text) => KeyText::Borrowed(*text),
            KeyText::Owned(text) => KeyText::Owned(text.copy(alloc)?),
        };
        Ok(Key {
            number: self.number,
            text,
        })
    }

    // Returns the payload of the key: two bytes for each unit.
    pub(crate) fn payload(&self) -> u128
        ensures payload { result ≡ 2 * length self.now }
        ensures valid { AreUnits self.now }
    {
        text_payload(self.text())
    }

    // Returns whether no other short key has the same number.
    pub(crate) fn is_short(&self) -> bool
        ensures { result ≡ is_short_key self.now }
    {
        let text = self.text();
        text.len() <= MOST_WIDE || text.len() <= MOST_NARROW && is_narrow(&text)
    }
}

impl<'a> PartialEq for Key<'a> {
    ghost eq = { pointwise nat_eq };

    ghost laws = { Prim.search (comparing, rules) };

    fn eq(&self, other: &Key<'a>) -> bool {
        self.number == other.number && self.text() == other.text()
    }
}

impl<'a> Eq for Key<'a> {
    ghost laws = { Prim.search (comparing, rules) };
}

impl<'a> Ord for Key<'a> {
    ghost cmp = { key_cmp };

    ghost total = { key_total };

    ghost matches_partial_cmp = { Prim.search (comparing, rules) };

    ghost matches_eq = { key_ties };

    fn cmp(&self, other: &Key<'a>) -> Ordering {
        match self.number.cmp(&other.number) {
            Ordering::Equal => self.text().cmp(&other.text()),
            order => order,
        }
    }
}

impl<'a> PartialOrd for Key<'a> {
    ghost partial_cmp = { as_partial_cmp key_cmp };

    ghost laws = { partial_order_from_own_ties key_partial key_ties };

    fn partial_cmp(&self, other: &Key<'a>) -> Option<Ordering> {
        Some(self.cmp(other))
    }
}

// Returns whether each unit is below 256.
fn is_narrow(text: &TextRef) -> bool
    ensures { result ≡ list_all (λ unit. nat_lt unit 256) (units_of text.now) }
{
    if text.is_ascii() {
        return true;
    }
    for i in 0..text.len() {
        if text.unit(i) >= 256 {
            return false;
        }
    }
    true
}

// Returns a number that no two short keys share.
fn number_of(text: &TextRef) -> u128
    requires { AreUnits (units_of text.now) }
    ensures { result ≡ number_of (units_of text.now) }
{
    if text.len() <= MOST_WIDE {
        WIDE + wide_number(text)
    } else {
        narrow_number(text)
    }
}

// Returns the units, which are few, as the digits of one number.
#[tactic(auto, using(crate::proofs::KeySteps::few_units))]
fn wide_number(text: &TextRef) -> u128
    requires few { length (units_of text.now) ≤ MOST_WIDE }
    requires valid { AreUnits (units_of text.now) }
    ensures number { result ≡ packed 65536 (units_of text.now) }
    ensures below { result < 2 ^ 113 }
{
    let mut number: u128 = 1;
    let mut left = text.len();
    while left > 0 {
        left -= 1;
        number = 65536 * number + u128::from(text.unit(left));
    }
    number
}

// Returns the low bytes of the last units as the digits of one number.
#[tactic(auto, using(crate::proofs::KeySteps::narrow_fits))]
fn narrow_number(text: &TextRef) -> u128
    requires { AreUnits (units_of text.now) }
    ensures { result ≡ packed 256 (drop (length (units_of text.now) - 15) (units_of text.now)) }
{
    let first = text.len().saturating_sub(MOST_NARROW);
    let mut number: u128 = 1;
    let mut left = text.len();
    while left > first {
        left -= 1;
        number = 256 * number + u128::from(text.unit(left) % 256);
    }
    number
}
