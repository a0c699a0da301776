//! What a string feeds a hasher, however it is stored.
ghost use Rattle.std.specs.Prelude.{◌≡◌, ◌<◌, ◌≤◌, ◌+◌};
ghost use Rattle.std.specs.Prelude.{true, length, slice_index, drop, fold};
ghost use Rattle.plist_value.specs.Hashes.{fed_narrow, fed_text, fed_units, fed_wide};
ghost use Rattle.plist_value.specs.Hashes.{pair_from, seven_and, word_from};
ghost use Rattle.plist_value.specs.Narrow.{are_narrow};
ghost use Rattle.plist_value.specs.Texts.{units_of};

use crate::text_ref::TextRef;
use crate::words::{feed, word};
use std::hash::Hasher;

/// Feeds the units alone: eight in each write if all are below 256, and otherwise four.
/// [`feed_octets`](crate::words::feed_octets) is faster for ASCII bytes.
pub fn feed_text<H: Hasher>(text: &TextRef, state: &mut H)
    ensures { state.new ≡ fold H.write state.old (fed_text (units_of text.now)) }
{
    if is_narrow(text) {
        feed_narrow(text, state);
    } else {
        feed_wide(text, state);
    }
}

impl<'a> TextRef<'a> {
    // Returns the unit `k` positions after `i`, or 0 after the end.
    fn octet(&self, i: usize, k: usize) -> u8
        requires narrow { are_narrow (units_of self.now) ≡ true }
        requires within { i ≤ length (units_of self.now) }
        ensures { result ≡ slice_index (drop i (units_of self.now)) k }
    {
        if k < self.len() - i {
            self.unit(i + k) as u8
        } else {
            0
        }
    }

    // Returns the seven units from position `i` on, zeros after the end, and then `last`.
    fn seven_and(&self, i: usize, last: u8) -> [u8; 8]
        requires narrow { are_narrow (units_of self.now) ≡ true }
        requires within { i ≤ length (units_of self.now) }
        ensures { result ≡ seven_and (drop i (units_of self.now)) last }
    {
        [
            self.octet(i, 0),
            self.octet(i, 1),
            self.octet(i, 2),
            self.octet(i, 3),
            self.octet(i, 4),
            self.octet(i, 5),
            self.octet(i, 6),
            last,
        ]
    }

    // Returns the four units from position `i` on as a number, the first in the lowest bits.
    fn word_at(&self, i: usize) -> u64
        requires { i + 4 ≤ length (units_of self.now) }
        ensures { result ≡ word_from i (units_of self.now) }
    {
        prove!(self.len() - i >= 4);
        u64::from(self.pair_at(i)) + 4_294_967_296 * u64::from(self.pair_at(i + 2))
    }

    fn pair_at(&self, i: usize) -> u32
        requires { i + 2 ≤ length (units_of self.now) }
        ensures { result ≡ pair_from i (units_of self.now) }
    {
        prove!(self.len() - i >= 2);
        u32::from(self.unit(i)) + 65_536 * u32::from(self.unit(i + 1))
    }
}

// Returns whether all units are below 256.
fn is_narrow(text: &TextRef) -> bool
    ensures { result ≡ are_narrow (units_of text.now) }
{
    let text = *text;
    for i in 0..text.len() {
        if text.unit(i) >= 256 {
            return false;
        }
    }
    true
}

// Works for each way of storing the string; `feed_octets` is faster for ASCII bytes.
fn feed_narrow<H: Hasher>(text: &TextRef, state: &mut H)
    requires { are_narrow (units_of text.now) ≡ true }
    ensures { state.new ≡ fold H.write state.old (fed_narrow (units_of text.now)) }
{
    let words = text.len() / 8;
    for i in 0..words {
        state.write(&text.seven_and(8 * i, text.octet(8 * i, 7)));
    }
    let i = 8 * words;
    state.write(&text.seven_and(i, 128 + (text.len() - i) as u8));
}

fn feed_wide<H: Hasher>(text: &TextRef, state: &mut H)
    ensures { state.new ≡ fold H.write state.old (fed_wide (units_of text.now)) }
{
    state.write_usize(text.len());
    match text.units() {
        Some(units) => feed(units, state),
        None => feed_each(text, state),
    }
    state.write_u8(255);
}

// Works for each way of storing the string; `feed` is faster for a slice of units.
fn feed_each<H: Hasher>(text: &TextRef, state: &mut H)
    ensures { state.new ≡ fold H.write state.old (fed_units (units_of text.now)) }
{
    let words = text.len() / 4;
    for i in 0..words {
        state.write_u64(text.word_at(4 * i));
    }
    let i = 4 * words;
    match text.len() - i {
        0 => {}
        1 => state.write_u64(word(text.unit(i), 0, 0, 0)),
        2 => state.write_u64(word(text.unit(i), text.unit(i + 1), 0, 0)),
        _ => state.write_u64(word(text.unit(i), text.unit(i + 1), text.unit(i + 2), 0)),
    }
}
