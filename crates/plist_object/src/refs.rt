//! The references of a container.
ghost use Rattle.std.specs.Prelude.{◌≡◌, ◌+◌, ◌*◌, ◌<◌, ◌≤◌, ◌==◌, ◌↔◌};
ghost use Rattle.std.specs.Prelude.{IsTrue, [], length, slice_index, drop};
ghost use Rattle.byteorder.specs.Endian.{big_number};

use byteorder::{BigEndian, ByteOrder};

/// The references of an array or a dictionary, borrowed from a file: object numbers, in order.
#[derive(Clone, Copy, Debug)]
pub struct Refs<'a> {
    octets: &'a [u8],
    width: usize,
    count: u64,
    ghost width_least: { 1 ≤ width },
    ghost width_most: { width ≤ 8 },
    ghost whole: { length octets.now ≡ count * width },
}

impl<'a> Refs<'a> {
    ghost use Rattle.plist_object.specs.Objects.{numbers};
    ghost use Rattle.plist_object.specs.Views.{numbers_of};

    // Wraps `count` numbers of `width` bytes each.
    pub(crate) fn of(octets: &'a [u8], width: u8, count: u64) -> Refs<'a>
        requires width_least { 1 ≤ width }
        requires width_most { width ≤ 8 }
        requires whole { length octets.now ≡ count * width }
        ensures { numbers_of result ≡ numbers width count octets.entry.now }
    {
        Refs {
            octets,
            width: usize::from(width),
            count,
        }
    }

    /// Returns no references.
    pub fn none() -> Refs<'a>
        ensures { numbers_of result ≡ [] }
    {
        Refs::of(&[], 1, 0)
    }

    /// Returns the number of references.
    pub fn len(&self) -> u64
        ensures { result ≡ length (numbers_of self.now) }
    {
        self.count
    }

    /// Returns whether there are no references.
    pub fn is_empty(&self) -> bool
        ensures { result ≡ (length (numbers_of self.now) == 0) }
    {
        self.len() == 0
    }

    /// Returns whether both contain the same numbers in the same order.
    pub fn is_same(&self, other: &Refs) -> bool
        ensures { IsTrue result ↔ (numbers_of self.now ≡ numbers_of other.now) }
    {
        if self.len() != other.len() {
            return false;
        }
        if self.width == other.width && self.octets == other.octets {
            return true;
        }
        for i in 0..self.len() {
            if self.get(i) != other.get(i) {
                return false;
            }
        }
        true
    }

    /// Returns reference `i`, which is below `len`.
    pub fn get(&self, i: u64) -> u64
        requires { i < length (numbers_of self.now) }
        ensures { result ≡ slice_index (numbers_of self.now) i }
    {
        number_at(self.octets, self.width, i as usize)
    }
}

// Returns number `i` of the numbers of `width` bytes each.
#[inline(always)]
pub(crate) fn number_at(octets: &[u8], width: usize, i: usize) -> u64
    requires width_least { 1 ≤ width }
    requires width_most { width ≤ 8 }
    requires within { i * width + width ≤ length octets.now }
    ensures { result ≡ big_number width (drop (i * width) octets.now) }
{
    number_in(&octets[i * width..], width)
}

// Returns the number in the first `width` bytes.
#[inline(always)]
pub(crate) fn number_in(octets: &[u8], width: usize) -> u64
    requires width_least { 1 ≤ width }
    requires width_most { width ≤ 8 }
    requires within { width ≤ length octets.now }
    ensures { result ≡ big_number width octets.now }
{
    if width == 4 {
        u64::from(BigEndian::read_u32(octets))
    } else {
        uncommon_number_in(octets, width)
    }
}

// Like `number_in`, for the other widths. It is a separate function because inlining the choice
// among all widths in each caller costs more than the read itself.
#[inline(never)]
fn uncommon_number_in(octets: &[u8], width: usize) -> u64
    requires width_least { 1 ≤ width }
    requires width_most { width ≤ 8 }
    requires within { width ≤ length octets.now }
    ensures { result ≡ big_number width octets.now }
{
    match width {
        1 => u64::from(octets[0]),
        2 => u64::from(BigEndian::read_u16(octets)),
        8 => BigEndian::read_u64(octets),
        _ => BigEndian::read_uint(octets, width),
    }
}
