//! The ways in which the units of a string are stored, and how many units two strings share.
ghost use Rattle.std.specs.Prelude.{◌≡◌, ◌≢◌, ◌≤◌, ◌<◌, ℕ, List, IsTrue, length, slice_index, take};
ghost use Rattle.plist_value.specs.Texts.{wide_units};

use crate::ascii::Ascii;

// Strings are compared in blocks of this many units.
const BLOCK: usize = 32;

// The units of a string, stored in one way.
pub(crate) trait Stored {
    ghost units: { Self → List ℕ };

    // Returns the unit at position `i`.
    fn unit(&self, i: usize) -> u16
        requires { i < length (units self.now) }
        ensures { result ≡ slice_index (units self.now) i };
}

// As they are.
impl Stored for &[u16] {
    ghost units = { λ text. text.now };

    fn unit(&self, i: usize) -> u16 {
        self[i]
    }
}

// As bytes below 128.
impl Stored for Ascii<'_> {
    ghost units = { λ ascii. ascii.text.now };

    fn unit(&self, i: usize) -> u16 {
        u16::from(self.text.as_bytes()[i])
    }
}

// As two bytes each, big-endian.
impl Stored for &[u8] {
    ghost units = { λ octets. wide_units octets.now };

    fn unit(&self, i: usize) -> u16 {
        prove!(i < self.len() / 2);
        u16::from_be_bytes([self[2 * i], self[2 * i + 1]])
    }
}

// Returns the number of leading units that both share, up to `most`.
pub(crate) fn alike<A: Stored, B: Stored>(text: &A, other: &B, most: usize) -> usize
    requires { (most ≤ length (A.units text.now)) × (most ≤ length (B.units other.now)) }
    ensures within { result ≤ most }
    ensures same { take result (B.units other.now) ≡ take result (A.units text.now) }
    ensures differ { result < most
        → slice_index (A.units text.now) result ≢ slice_index (B.units other.now) result }
{
    for i in alike_blocks(text, other, most)..most {
        if text.unit(i) != other.unit(i) {
            return i;
        }
    }
    most
}

// Returns the number of units in the leading blocks that both share, up to `most`.
fn alike_blocks<A: Stored, B: Stored>(text: &A, other: &B, most: usize) -> usize
    requires { (most ≤ length (A.units text.now)) × (most ≤ length (B.units other.now)) }
    ensures within { result ≤ most }
    ensures same { take result (B.units other.now) ≡ take result (A.units text.now) }
{
    let mut start = 0;
    while most - start >= BLOCK {
        let end = start + BLOCK;
        if !are_alike(text, other, start, end) {
            return start;
        }
        start = end;
    }
    start
}

// Returns whether both share the units from `start` up to `end`. The loop does not stop at a
// difference, so that the compiler compares many units at once.
fn are_alike<A: Stored, B: Stored>(text: &A, other: &B, start: usize, end: usize) -> bool
    requires within { (end ≤ length (A.units text.now)) × (end ≤ length (B.units other.now)) }
    requires order { start ≤ end }
    requires before { take start (B.units other.now) ≡ take start (A.units text.now) }
    ensures { IsTrue result → take end (B.units other.now) ≡ take end (A.units text.now) }
{
    let mut alike = true;
    for i in start..end {
        if text.unit(i) != other.unit(i) {
            alike = false;
        }
    }
    alike
}
