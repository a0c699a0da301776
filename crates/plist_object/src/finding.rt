//! Finds the objects of a file, and decodes them.
ghost use Rattle.std.specs.Prelude.{◌≡◌, ◌<◌, ◌↔◌, ℕ, List};
ghost use Rattle.std.specs.Prelude.{IsTrue, IsOk, IfOk, IfSome, IfNone, MatchResult};
ghost use Rattle.plist_value.specs.Plist.{AreUnits, text};
ghost use Rattle.plist_value.specs.Texts.{units_of};
ghost use Rattle.plist_object.specs.Layout.{trailer_of};
ghost use Rattle.plist_object.specs.Objects.{IsContent, holds_scalar};
ghost use Rattle.plist_object.specs.Places.{Holds, ascii_length_at, octets_at, octets_from};
ghost use Rattle.plist_object.specs.Places.{object_at, span_of, what_holds};
ghost use Rattle.plist_object.specs.Shortest.{IsShortest, IsSpelledScalar};
ghost use Rattle.plist_object.specs.Views.{Gives, held_of, octets_of};

use crate::layout::BinFile;
use crate::object::{Object, ObjectFault};
use crate::reading;
use crate::shortest::{begins_canonically, spelled_size};
use plist_value::{ScalarRef, TextRef};

/// The content of an object, and where its bytes are.
#[derive(Clone, Copy, Debug)]
pub struct Spanned<'a> {
    /// The content.
    pub object: Object<'a>,
    /// The offset in the file of the object's first byte.
    pub start: u64,
    /// The offset in the file of the first byte after the object.
    pub end: u64,
}

impl<'a> BinFile<'a> {
    /// Decodes object `n`, which is below `count`.
    #[tactic(auto, unfolding(crate::specs::Places::what_holds, crate::specs::Places::object_at))]
    pub fn object(&self, n: u64) -> Result<Object<'a>, ObjectFault>
        requires { n < (trailer_of (octets_of self.now)).count }
        ensures read { Gives held_of result (what_holds (octets_of self.now) n) }
        ensures valid { IfOk result (λ object. IsContent (held_of object)) }
    {
        let octets = self.octets_at(n)?;
        let (object, _) = reading::object(octets, self.trailer.reference_width)?;
        Ok(object)
    }

    /// Returns the string that object `n` contains, or `None` if it contains something else or
    /// cannot be decoded. `n` is below `count`.
    #[tactic(auto, unfolding(crate::specs::Places::what_holds, crate::specs::Places::object_at))]
    pub fn text(&self, n: u64) -> Option<TextRef<'a>>
        requires { n < (trailer_of (octets_of self.now)).count }
        ensures some { IfSome result
            (λ t. Holds (octets_of self.now) n (holds_scalar (text (units_of t)))) }
        ensures valid { IfSome result (λ t. AreUnits (units_of t)) }
        ensures none { IfNone result
            (¬ ((units : List ℕ) × Holds (octets_of self.now) n (holds_scalar (text units)))) }
    {
        match self.object(n) {
            Ok(Object::Scalar(ScalarRef::Text(text))) => Some(text),
            _ => None,
        }
    }

    /// Returns the number of bytes of the string of object `n` if it is marked as an ASCII string
    /// and is not cut, and else 0. Some of the bytes may not be ASCII. `n` is below `count`.
    pub fn ascii_length(&self, n: u64) -> u64
        requires { n < (trailer_of (octets_of self.now)).count }
        ensures { result ≡ ascii_length_at (octets_of self.now) n }
    {
        match self.octets_at(n) {
            Ok(octets) => reading::ascii_length(octets),
            Err(_) => 0,
        }
    }

    /// Decodes object `n`, which is below `count`, and returns its content with the offsets of its
    /// bytes.
    pub fn spanned(&self, n: u64) -> Result<Spanned<'a>, ObjectFault>
        requires { n < (trailer_of (octets_of self.now)).count }
        ensures read { Gives (λ s. held_of s.object) result (what_holds (octets_of self.now) n) }
        ensures span { Gives (λ s. (s.start, s.end)) result (span_of (octets_of self.now) n) }
        ensures valid { IfOk result (λ s. IsContent (held_of s.object)) }
    {
        let start = self.place(n);
        let octets = self.octets_from(start)?;
        let (object, behind) = reading::object(octets, self.trailer.reference_width)?;
        Ok(Spanned {
            object,
            start,
            end: self.trailer.table.saturating_sub(behind.len() as u64),
        })
    }

    /// Returns the offset of object `n`, and the offset of the first byte after it. Fails if the
    /// object cannot be decoded. `n` is below `count`.
    pub fn span(&self, n: u64) -> Result<(u64, u64), ObjectFault>
        requires { n < (trailer_of (octets_of self.now)).count }
        ensures { result ≡ span_of (octets_of self.now) n }
    {
        let spanned = self.spanned(n)?;
        Ok((spanned.start, spanned.end))
    }

    /// Returns whether the bytes of object `n` are the canonical encoding of its content, for the
    /// file's width of a reference. Fails if the object cannot be decoded. `n` is below `count`.
    #[tactic(auto, unfolding(crate::specs::Places::object_at))]
    pub fn is_shortest(&self, n: u64) -> Result<bool, ObjectFault>
        requires { n < (trailer_of (octets_of self.now)).count }
        ensures shortest { IfOk result
            (λ shortest. IsTrue shortest ↔ IsShortest (octets_of self.now) n) }
        ensures reads { MatchResult result (λ _. IsOk (object_at (octets_of self.now) n))
            (λ fault. object_at (octets_of self.now) n ≡ Err fault) }
    {
        let octets = self.octets_at(n)?;
        let (object, _) = reading::object(octets, self.trailer.reference_width)?;
        Ok(begins_canonically(octets, &object))
    }

    /// Returns the bytes of object `n`, which is below `count` and can be decoded, if its first
    /// bytes show that it is a scalar in its canonical encoding.
    ///
    /// The scalars that can be recognised are booleans, reals, dates, integers of at most 8 bytes,
    /// ASCII strings and data below 256 bytes, and UTF-16 strings below 256 units that are not all
    /// ASCII. `None` is only a hint: the object may still have its canonical encoding. The content
    /// of an ASCII string or of data is not read, and a UTF-16 string only up to its first unit
    /// that is not ASCII.
    #[tactic(auto, unfolding(crate::specs::Places::object_at))]
    pub fn spelled(&self, n: u64) -> Option<&'a [u8]>
        requires listed { n < (trailer_of (octets_of self.now)).count }
        requires reads { IsOk (object_at (octets_of self.now) n) }
        ensures { IfSome result
            (λ octets. IsSpelledScalar (octets_of self.now) n octets.now) }
    {
        let Ok(octets) = self.octets_at(n) else {
            return None;
        };
        let size = spelled_size(octets)?;
        Some(&octets[..size])
    }

    #[tactic(auto, unfolding(crate::specs::Places::octets_at))]
    fn octets_at(&self, n: u64) -> Result<&'a [u8], ObjectFault>
        requires { n < (trailer_of (octets_of self.now)).count }
        ensures { Gives (λ octets. octets.now) result (octets_at (octets_of self.now) n) }
    {
        self.octets_from(self.place(n))
    }

    // Returns the bytes from `place` up to the offset table.
    #[inline(always)]
    fn octets_from(&self, place: u64) -> Result<&'a [u8], ObjectFault>
        ensures { Gives (λ octets. octets.now) result (octets_from (octets_of self.now) place) }
    {
        let table = self.trailer.table;
        if place < 8 || table <= place {
            return Err(ObjectFault::BadOffset);
        }
        let objects = &self.octets[..table as usize];
        Ok(&objects[place as usize..])
    }
}
