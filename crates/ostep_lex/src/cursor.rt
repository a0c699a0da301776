//! A position in an input.
ghost use Rattle.std.specs.Prelude.{◌≡◌, false, [], ◌∷◌, ◌≤◌, length};
ghost use Rattle.std.specs.Prelude.{MatchOption, IfSome, IfOk, IfErr};
ghost use Rattle.ostep_lex.specs.Remaining.{IsWhole, octets_in};

use crate::fault::LexFault;
use crate::remaining::{ByteOrder, Remaining, after_characters};
use crate::stretch::Class;
use simdutf8::compat::from_utf8;
use std::alloc::AllocError;

/// A position in an input, with the characters after it. Passed by value.
#[derive(Clone, Copy)]
pub struct Cursor<'a> {
    remaining: Remaining<'a>,
    end: usize,
    ghost whole: { IsWhole remaining },
    ghost within: { length (octets_in remaining) ≤ end },
}

impl<'a> Cursor<'a> {
    ghost use Rattle.ostep_lex.specs.Cursor.{ahead, offset_at, SameInput, begins_with};
    ghost use Rattle.ostep_lex.specs.Cursor.{PassesStretch, SkipsStretch, StretchAppends};
    ghost use Rattle.ostep_lex.specs.Cursor.{Holds, IsBadUtf8, IsBadUtf16};
    ghost use Rattle.ostep_lex.specs.Encoding.{utf8, StopsAfter};
    ghost use Rattle.ostep_lex.specs.Remaining.{encoding_by};

    /// Returns the offset in the input, byte order mark included.
    #[tactic(auto, unfolding(crate::specs::Cursor::ahead, crate::specs::Cursor::offsets_in))]
    pub fn offset(self) -> usize
        ensures { result ≡ offset_at self.entry }
    {
        self.end - self.remaining.len()
    }

    // Returns whether the input is UTF-8.
    pub(crate) fn is_utf8(self) -> bool {
        matches!(self.remaining, Remaining::Utf8(_))
    }

    // Returns the first character at the cursor, and the cursor after it.
    #[inline(always)]
    #[tactic(auto, unfolding(crate::specs::Cursor::ahead, crate::specs::Cursor::offsets_in))]
    pub(crate) fn first(self) -> Option<(char, Cursor<'a>)>
        ensures { MatchOption result (ahead self.entry ≡ []) (λ found.
            (ahead self.entry ≡ found.0 ∷ ahead found.1) × SameInput self.entry found.1) }
    {
        let (first, remaining) = self.remaining.first()?;
        Some((
            first,
            Cursor {
                remaining,
                end: self.end,
            },
        ))
    }

    // Returns the cursor after the longest stretch of the class.
    #[inline(always)]
    #[tactic(auto, unfolding(crate::specs::Cursor::ahead, crate::specs::Cursor::offsets_in))]
    pub(crate) fn after_stretch(self, class: Class) -> Cursor<'a>
        ensures { SkipsStretch class self.entry result }
    {
        Cursor {
            remaining: self.remaining.after_stretch(class),
            end: self.end,
        }
    }

    // Returns the bytes of the longest stretch of the class, one for each character, and the
    // cursor after it. Returns `None` for UTF-16.
    #[inline(always)]
    #[tactic(auto, unfolding(crate::specs::Cursor::ahead, crate::specs::Cursor::offsets_in))]
    pub(crate) fn plain_stretch(self, class: Class) -> Option<(&'a [u8], Cursor<'a>)>
        ensures { IfSome result (λ found. PassesStretch class self.entry found.0.now found.1) }
    {
        let (octets, remaining) = self.remaining.plain_stretch(class)?;
        Some((
            octets,
            Cursor {
                remaining,
                end: self.end,
            },
        ))
    }

    // Appends the characters of the longest stretch of the class and returns the cursor after it.
    #[inline(always)]
    #[tactic(auto, unfolding(crate::specs::Cursor::ahead, crate::specs::Cursor::offsets_in))]
    pub(crate) fn push_stretch(
        self,
        class: Class,
        units: &mut Vec<u16>,
    ) -> Result<Cursor<'a>, AllocError>
        ensures { IfOk result (StretchAppends class units.old.items units.new.items self.entry) }
    {
        let remaining = self.remaining.push_stretch(class, units)?;
        Ok(Cursor {
            remaining,
            end: self.end,
        })
    }

    // Returns the cursor after the character, if it is the first.
    #[inline(always)]
    pub(crate) fn after(self, wanted: char) -> Option<Cursor<'a>>
        ensures { MatchOption result (begins_with wanted (ahead self.entry) ≡ false) (λ after.
            (ahead self.entry ≡ wanted ∷ ahead after) × SameInput self.entry after) }
    {
        match self.first() {
            Some((c, after)) if c == wanted => Some(after),
            _ => None,
        }
    }

    // Returns the cursor at the start of UTF-8 bytes at the end of an input of `end` bytes.
    #[tactic(auto, unfolding(crate::specs::Cursor::ahead, crate::specs::Cursor::offsets_in))]
    pub(crate) fn of_utf8(octets: &'a [u8], end: usize) -> Result<Cursor<'a>, LexFault>
        requires { length octets.now ≤ end }
        ensures ok { IfOk result (Holds utf8 octets.now end) }
        ensures err { IfErr result (IsBadUtf8 (StopsAfter utf8 octets.now end)) }
    {
        match from_utf8(octets) {
            Ok(text) => Ok(Cursor {
                remaining: Remaining::Utf8(text),
                end,
            }),
            Err(error) => Err(LexFault::BadUtf8 {
                octet: end - octets.len() + error.valid_up_to(),
            }),
        }
    }

    // Returns the cursor at the start of UTF-16 bytes at the end of an input of `end` bytes.
    #[tactic(auto, unfolding(crate::specs::Cursor::ahead, crate::specs::Cursor::offsets_in))]
    pub(crate) fn of_utf16(
        order: ByteOrder,
        octets: &'a [u8],
        end: usize,
    ) -> Result<Cursor<'a>, LexFault>
        requires { length octets.now ≤ end }
        ensures ok { IfOk result (Holds (encoding_by order) octets.now end) }
        ensures err { IfErr result (IsBadUtf16 (StopsAfter (encoding_by order) octets.now end)) }
    {
        let rest = after_characters(order, octets);
        if !rest.is_empty() {
            return Err(LexFault::BadUtf16 {
                octet: end - rest.len(),
            });
        }
        Ok(Cursor {
            remaining: Remaining::Utf16(order, octets),
            end,
        })
    }
}
