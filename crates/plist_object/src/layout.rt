//! The layout of a binary file: header, objects, offset table and trailer.
ghost use Rattle.std.specs.Prelude.{◌≡◌, ◌<◌, ◌≤◌, MatchResult, length};
ghost use Rattle.plist_object.specs.Layout.{IsLaid, IsLayoutFault, slack_of, trailer_of};

use crate::markers::HEADER;
use crate::refs::number_at;
use crate::trailer::Trailer;
use plist_value::{Place, Refusal, Report};
use std::fmt;
use thiserror::Error;

/// Why bytes do not have the layout of a binary property list (CFBinaryPList.c; the bounds and the
/// order of the tests are our profile).
#[derive(Clone, Copy, Debug, PartialEq, Eq, Error)]
pub enum LayoutFault {
    /// 1: there are fewer than 42 bytes.
    TooShort,
    /// 2: the first 8 bytes are not `bplist00`.
    BadHeader,
    /// 3: a width is not 1 to 8, there is no object, the top object is not one of them, or the
    /// offset table does not fill the bytes between the objects and the trailer.
    BadTrailer,
}

impl LayoutFault {
    ghost use Rattle.plist_object.specs.Codes.{layout_code, layout_report};

    /// Returns the error number: 1, 2 or 3.
    pub fn code(&self) -> u8
        ensures { result ≡ layout_code self.now }
    {
        self.report().0.number()
    }

    fn report(&self) -> Report
        ensures { result ≡ layout_report self.now }
    {
        match self {
            LayoutFault::TooShort => Report(Refusal::TooShort, Place::Nowhere),
            LayoutFault::BadHeader => Report(Refusal::BadHeader, Place::Nowhere),
            LayoutFault::BadTrailer => Report(Refusal::BadTrailer, Place::Nowhere),
        }
    }
}

// Prints the number and the name of the error, as in `1 TooShort`.
impl fmt::Display for LayoutFault {
    ghost use Rattle.std.specs.Prelude.{Some};
    ghost use Rattle.plist_object.specs.Codes.{layout_text};

    ghost output = { λ fault. Some (layout_text fault) };

    fn fmt<W: fmt::Write>(&self, f: &mut fmt::Formatter<W>) -> fmt::Result {
        let report = self.report();
        write!(f, "{report}")
    }
}

/// A binary property list: borrowed bytes that have the layout.
#[derive(Clone, Copy, Debug)]
pub struct BinFile<'a> {
    pub(crate) octets: &'a [u8],
    pub(crate) trailer: Trailer,
    ghost laid: { IsLaid octets.now },
    ghost offset_width_read: { trailer.offset_width ≡ (trailer_of octets.now).offset_width },
    ghost reference_width_read: { trailer.reference_width
        ≡ (trailer_of octets.now).reference_width },
    ghost count_read: { trailer.count ≡ (trailer_of octets.now).count },
    ghost top_read: { trailer.top ≡ (trailer_of octets.now).top },
    ghost table_read: { trailer.table ≡ (trailer_of octets.now).table },
}

impl<'a> BinFile<'a> {
    ghost use Rattle.plist_object.specs.Places.{marker_at, place_of};
    ghost use Rattle.plist_object.specs.Views.{octets_of};

    /// Reads the layout of a file, without decoding any object. Fails if the bytes do not have it.
    pub fn of(octets: &'a [u8]) -> Result<BinFile<'a>, LayoutFault>
        ensures laid { MatchResult result (λ file. octets_of file ≡ octets.entry.now)
            (λ fault. IsLayoutFault fault octets.entry.now) }
        ensures ok { MatchResult result (λ _. IsLaid octets.entry.now)
            (λ _. ¬ IsLaid octets.entry.now) }
    {
        if octets.len() < 42 {
            return Err(LayoutFault::TooShort);
        }
        if !octets.starts_with(&HEADER) {
            return Err(LayoutFault::BadHeader);
        }
        let trailer = Trailer::read(octets);
        if !trailer.fits(octets.len()) {
            return Err(LayoutFault::BadTrailer);
        }
        Ok(BinFile { octets, trailer })
    }

    /// Returns the number of objects, which is at least 1.
    pub fn count(&self) -> u64
        ensures { result ≡ (trailer_of (octets_of self.now)).count }
    {
        self.trailer.count
    }

    /// Returns the number of the top object, which is below `count`.
    pub fn top(&self) -> u64
        ensures value { result ≡ (trailer_of (octets_of self.now)).top }
        ensures below { result < (trailer_of (octets_of self.now)).count }
    {
        self.trailer.top
    }

    /// Returns the number of bytes of an entry of the offset table, from 1 to 8.
    pub fn offset_width(&self) -> u8
        ensures value { result ≡ (trailer_of (octets_of self.now)).offset_width }
        ensures least { 1 ≤ result }
        ensures most { result ≤ 8 }
    {
        self.trailer.offset_width
    }

    /// Returns the number of bytes of a reference, from 1 to 8.
    pub fn reference_width(&self) -> u8
        ensures value { result ≡ (trailer_of (octets_of self.now)).reference_width }
        ensures least { 1 ≤ result }
        ensures most { result ≤ 8 }
    {
        self.trailer.reference_width
    }

    /// Returns the offset in the file of the offset table.
    pub fn table(&self) -> u64
        ensures value { result ≡ (trailer_of (octets_of self.now)).table }
        ensures within { result ≤ length (octets_of self.now) }
    {
        self.trailer.table
    }

    /// Returns the first 6 bytes of the trailer, which have no meaning.
    pub fn slack(&self) -> [u8; 6]
        ensures { result ≡ slack_of (octets_of self.now) }
    {
        let start = self.octets.len() - 32;
        let mut slack = [0; 6];
        slack.copy_from_slice(&self.octets[start..start + 6]);
        slack
    }

    /// Returns entry `n` of the offset table, which is the offset in the file of object `n`. `n` is
    /// below `count`.
    pub fn place(&self, n: u64) -> u64
        requires { n < (trailer_of (octets_of self.now)).count }
        ensures { result ≡ place_of (octets_of self.now) n }
    {
        let table = &self.octets[self.trailer.table as usize..];
        number_at(table, usize::from(self.trailer.offset_width), n as usize)
    }

    /// Returns the byte at the offset of object `n`, or 0 if the offset is not before the offset
    /// table. If the object can be decoded, the byte is its marker. `n` is below `count`.
    pub fn marker(&self, n: u64) -> u8
        requires { n < (trailer_of (octets_of self.now)).count }
        ensures { result ≡ marker_at (octets_of self.now) n }
    {
        let place = self.place(n);
        if place < self.trailer.table {
            self.octets[place as usize]
        } else {
            0
        }
    }
}
