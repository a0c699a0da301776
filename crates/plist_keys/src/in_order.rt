//! Whether the keys of dictionaries ascend in the order of the file.
ghost use Rattle.std.specs.Prelude.{◌≡◌, ◌↔◌, false, IfOk, IsTrue, IfSome, IfNone};
ghost use Rattle.plist_value.specs.Plist.{text};
ghost use Rattle.plist_value.specs.Texts.{units_of};
ghost use Rattle.plist_object.specs.Objects.{holds_scalar};
ghost use Rattle.plist_object.specs.Places.{Holds, HoldsText};
ghost use Rattle.plist_object.specs.Views.{numbers_of, octets_of};
ghost use Rattle.plist_keys.specs.Order.{NameTexts};
ghost use Rattle.plist_keys.specs.Ascending.{AreAscending, AreInOrder, AscendInTurn};
ghost use Rattle.plist_keys.specs.KeyOrder.{IsReady};
ghost use Rattle.plist_keys.specs.Overlap.{KeysOverlap};
ghost use Rattle.plist_keys.specs.Ranks.{AreRanks};

use crate::keys::Keys;
use crate::order::KeyOrder;
use crate::ranks::Ranks;
use plist_object::{BinFile, Refs};
use plist_value::TextRef;
use std::alloc::{AllocError, Global};

impl<'a> KeyOrder<'a> {
    /// Prepares for [`ascend`](KeyOrder::ascend): ranks the keys of all dictionaries once the
    /// strings of the keys prepared are longer in total than the file. Returns `false` only if keys
    /// overlap, so that comparing them could take long.
    ///
    /// # Errors
    ///
    /// [`AllocError`] if out of memory. The order can still be used.
    pub fn prepare(
        &mut self,
        alloc: Global,
        file: &BinFile<'a>,
        keys: &Refs,
    ) -> Result<bool, AllocError>
        requires { IsReady (octets_of file.now) self.old }
        ensures ready { IsReady (octets_of file.now) self.new }
        ensures overlap { IfOk result (λ apart. apart ≡ false → KeysOverlap (octets_of file.now)) }
    {
        let Some(left) = self.left else {
            return Ok(true);
        };
        if let Some(last) = self.ascending
            && last.is_same(keys)
        {
            return Ok(true);
        }
        if let Some(rest) = left_after(file, keys, left) {
            self.left = Some(rest);
            return Ok(true);
        }
        let mut named = Keys::of_tables(alloc, file)?;
        self.ranks = named.ranks(alloc, file)?;
        self.left = None;
        Ok(!named.overlap())
    }

    /// Returns whether the keys of a dictionary are strings, each of them below the next by UTF-16
    /// units.
    pub fn ascend(&mut self, file: &BinFile<'a>, keys: &Refs<'a>) -> bool
        requires { IsReady (octets_of file.now) self.old }
        ensures ascend { IsTrue result ↔ AreAscending (octets_of file.now) (numbers_of keys.now) }
        ensures ready { IsReady (octets_of file.now) self.new }
    {
        if let Some(last) = self.ascending
            && last.is_same(keys)
        {
            return true;
        }
        let ascend = keys_ascend(file, &self.ranks, keys);
        if ascend {
            self.ascending = Some(*keys);
        }
        ascend
    }

    /// Returns whether the keys of a dictionary are strings.
    pub fn name_texts(&self, file: &BinFile, keys: &Refs) -> bool
        requires { IsReady (octets_of file.now) self.now }
        ensures { IsTrue result ↔ NameTexts (octets_of file.now) (numbers_of keys.now) }
    {
        for k in 0..keys.len() {
            if !names_text(file, &self.ranks, keys.get(k)) {
                return false;
            }
        }
        true
    }
}

// Subtracts the lengths of the keys, in units. `None` if they are longer, or if a key is no string.
fn left_after(file: &BinFile, keys: &Refs, left: u64) -> Option<u64> {
    let mut left = left;
    for k in 0..keys.len() {
        left = left.checked_sub(length_of(file, keys.get(k))?)?;
    }
    Some(left)
}

// Returns the length of a key in units. The marker of a short string contains it, so such a key is
// not decoded.
fn length_of(file: &BinFile, key: u64) -> Option<u64> {
    if key >= file.count() {
        return None;
    }
    let count = file.marker(key) % 16;
    if count < 15 {
        return Some(u64::from(count));
    }
    let text = file.text(key)?;
    Some(text.len() as u64)
}

fn keys_ascend(file: &BinFile, ranks: &Ranks, keys: &Refs) -> bool
    requires { AreRanks (octets_of file.now) ranks.now }
    ensures { IsTrue result ↔ AreAscending (octets_of file.now) (numbers_of keys.now) }
{
    if keys.len() == 1 {
        return names_text(file, ranks, keys.get(0));
    }
    neighbours_ascend(file, ranks, keys)
}

// Returns whether each key is a string below the next, if there is one.
fn neighbours_ascend(file: &BinFile, ranks: &Ranks, keys: &Refs) -> bool
    requires { AreRanks (octets_of file.now) ranks.now }
    ensures { IsTrue result ↔ AscendInTurn (octets_of file.now) (numbers_of keys.now) }
{
    for k in 1..keys.len() {
        if !are_in_order(file, ranks, keys.get(k - 1), keys.get(k)) {
            return false;
        }
    }
    true
}

fn names_text(file: &BinFile, ranks: &Ranks, key: u64) -> bool
    requires { AreRanks (octets_of file.now) ranks.now }
    ensures { IsTrue result ↔ HoldsText (octets_of file.now) key }
{
    ranks.get(key).is_some() || string_of(file, key).is_some()
}

// Returns whether both objects are strings, the first below the second.
fn are_in_order(file: &BinFile, ranks: &Ranks, first: u64, second: u64) -> bool
    requires { AreRanks (octets_of file.now) ranks.now }
    ensures { IsTrue result ↔ AreInOrder (octets_of file.now) first second }
{
    match (ranks.get(first), ranks.get(second)) {
        (Some(lower), Some(higher)) => lower < higher,
        _ => strings_are_in_order(file, first, second),
    }
}

fn strings_are_in_order(file: &BinFile, first: u64, second: u64) -> bool
    ensures { IsTrue result ↔ AreInOrder (octets_of file.now) first second }
{
    match (string_of(file, first), string_of(file, second)) {
        (Some(first), Some(second)) => first < second,
        _ => false,
    }
}

// Returns the string that object `n` contains, if there is such an object.
fn string_of<'a>(file: &BinFile<'a>, n: u64) -> Option<TextRef<'a>>
    ensures some { IfSome result
        (λ t. Holds (octets_of file.now) n (holds_scalar (text (units_of t)))) }
    ensures none { IfNone result (¬ HoldsText (octets_of file.now) n) }
{
    if n < file.count() { file.text(n) } else { None }
}
