//! The trailer of a file.
ghost use Rattle.std.specs.Prelude.{◌≡◌, ◌+◌, ◌*◌, ◌<◌, ◌≤◌, ◌^◌, ◌↔◌, IsTrue, length};
ghost use Rattle.std.specs.Option.{SomeIff};
ghost use Rattle.plist_object.specs.Layout.{IsTrailer, trailer_of};
ghost use Rattle.plist_object.specs.Trailers.{trailer_in};

use byteorder::{BigEndian, ByteOrder};

#[derive(Clone, Copy, Debug)]
pub(crate) struct Trailer {
    pub(crate) offset_width: u8,
    pub(crate) reference_width: u8,
    pub(crate) count: u64,
    pub(crate) top: u64,
    pub(crate) table: u64,
}

impl Trailer {
    pub(crate) fn read(octets: &[u8]) -> Trailer
        requires { 42 ≤ length octets.now }
        ensures { trailer_in result ≡ trailer_of octets.now }
    {
        let size = octets.len();
        Trailer {
            offset_width: octets[size - 26],
            reference_width: octets[size - 25],
            count: BigEndian::read_u64(&octets[size - 24..]),
            top: BigEndian::read_u64(&octets[size - 16..]),
            table: BigEndian::read_u64(&octets[size - 8..]),
        }
    }

    // Returns the size of a file with this trailer, or `None` if it is not below 2^64.
    fn size(&self) -> Option<u64>
        ensures { SomeIff result
            (self.now.table + self.now.count * self.now.offset_width + 32 < 2 ^ 64)
            (self.now.table + self.now.count * self.now.offset_width + 32) }
    {
        let entries = self.count.checked_mul(u64::from(self.offset_width))?;
        self.table.checked_add(entries)?.checked_add(32)
    }

    // Returns whether the numbers are consistent with one another and with a file of `size` bytes.
    pub(crate) fn fits(&self, size: usize) -> bool
        ensures { IsTrue result ↔ IsTrailer size (trailer_in self.now) }
    {
        let is_width = |width: u8| 1 <= width && width <= 8;
        is_width(self.offset_width)
            && is_width(self.reference_width)
            && 1 <= self.count
            && self.top < self.count
            && 9 <= self.table
            && self.size() == Some(size as u64)
    }
}
