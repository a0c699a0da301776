//! The tokens of a text in order, and their faults.
ghost use Rattle.std.specs.Prelude.{◌≡◌, ◌<◌, ◌∷◌, ◌++◌, [], ℕ, List, length};
ghost use Rattle.std.specs.Prelude.{MatchOption, IfSome, IfNone, IfOk, IfErr};
ghost use Rattle.std.specs.Result.{OnOk};
ghost use Rattle.ostep_lex.specs.Lexeme.{Located, located, lexeme_of};
ghost use Rattle.ostep_lex.specs.Lexing.{HasTokens};
ghost use Rattle.ostep_lex.specs.Cursor.{ahead};
ghost use Rattle.ostep_text.specs.Begun.{begins_value};
ghost use Rattle.ostep_text.specs.Stands.{Stands};
ghost use Rattle.ostep_text.specs.Reading.{Front, AreBefore, HasRead, StandsIfLexed};
ghost use Rattle.ostep_text.specs.Due.{IsOpen};
ghost use Rattle.ostep_text.specs.First.{first_placed, IsValid};

use crate::TextFault;
use crate::first::First;
use ostep_lex::{Cursor, Token, TokenKind, next_mark, next_plain, next_token};
use std::alloc::Global;

// The tokens from `cursor` on of an input of `end` bytes.
#[derive(Drop)]
pub(crate) struct Tokens<'a> {
    pub(crate) alloc: Global,
    pub(crate) cursor: Cursor<'a>,
    pub(crate) end: usize,
}

impl<'a> Tokens<'a> {
    // Returns the next token, or `None` at the end of the text.
    pub(crate) fn next(&mut self) -> Result<Option<Token>, TextFault>
        ensures read { (octets : List ℕ) (tokens : List Located) → HasRead octets tokens self.old
            → IfOk result (λ found. MatchOption found (HasTokens octets tokens)
            (λ token. HasRead octets (tokens ++ located token ∷ []) self.new)) }
        ensures stays { IfOk result (λ found. IfNone found (self.new ≡ self.old)) }
        ensures shorter { IfOk result (λ found. IfSome found (λ _.
            length (ahead self.new.cursor) < length (ahead self.old.cursor))) }
        ensures stands { (octets : List ℕ) (tokens : List Located)
            → HasRead octets tokens self.old → IfErr result (Stands octets) }
    {
        match next_token(self.alloc, self.cursor)? {
            Some((token, after)) => {
                self.cursor = after;
                Ok(Some(token))
            }
            None => Ok(None),
        }
    }

    // Returns the next token, or fails at the end of the text.
    pub(crate) fn expect(&mut self) -> Result<Token, TextFault>
        ensures read { (octets : List ℕ) (tokens : List Located) → HasRead octets tokens self.old
            → IfOk result (λ token. HasRead octets (tokens ++ located token ∷ []) self.new) }
        ensures shorter { OnOk result
            (length (ahead self.new.cursor) < length (ahead self.old.cursor)) }
        ensures stands { (octets : List ℕ) (tokens : List Located) (whole : Front)
            → AreBefore tokens whole → HasRead octets tokens self.old → IsOpen whole
            → IfErr result (Stands octets) }
    {
        let end = self.end;
        match self.next()? {
            Some(token) => Ok(token),
            None => Err(TextFault::Expected { octet: end }),
        }
    }

    // Like [`next`](Tokens::next), but borrows a plain string from the input.
    #[inline(always)]
    pub(crate) fn next_first(&mut self) -> Result<Option<First<'a>>, TextFault>
        ensures read { (octets : List ℕ) (tokens : List Located) → HasRead octets tokens self.old
            → IfOk result (λ found. MatchOption found (HasTokens octets tokens)
            (λ first. HasRead octets (tokens ++ first_placed first ∷ []) self.new)) }
        ensures valid { IfOk result (λ found. IfSome found IsValid) }
        ensures shorter { IfOk result (λ found. IfSome found (λ _.
            length (ahead self.new.cursor) < length (ahead self.old.cursor))) }
        ensures stands { (octets : List ℕ) (tokens : List Located)
            → HasRead octets tokens self.old → IfErr result (Stands octets) }
    {
        if let Some((token, after)) = next_plain(self.cursor) {
            self.cursor = after;
            return Ok(Some(First::Plain(token)));
        }
        match self.next()? {
            Some(token) => Ok(Some(First::Other(token))),
            None => Ok(None),
        }
    }

    // Like [`next_first`](Tokens::next_first), but fails at the end of the text.
    #[inline(always)]
    pub(crate) fn expect_first(&mut self) -> Result<First<'a>, TextFault>
        ensures read { (octets : List ℕ) (tokens : List Located) → HasRead octets tokens self.old
            → IfOk result (λ first.
            HasRead octets (tokens ++ first_placed first ∷ []) self.new) }
        ensures valid { IfOk result IsValid }
        ensures shorter { OnOk result
            (length (ahead self.new.cursor) < length (ahead self.old.cursor)) }
        ensures stands { (octets : List ℕ) (tokens : List Located) (whole : Front)
            → AreBefore tokens whole → HasRead octets tokens self.old → IsOpen whole
            → IfErr result (Stands octets) }
    {
        let end = self.end;
        match self.next_first()? {
            Some(first) => Ok(first),
            None => Err(TextFault::Expected { octet: end }),
        }
    }

    // Like [`expect`](Tokens::expect), but cheaper if the next token is `mark`.
    #[inline(always)]
    pub(crate) fn expect_mark(&mut self, mark: char) -> Result<Token, TextFault>
        ensures read { (octets : List ℕ) (tokens : List Located) → HasRead octets tokens self.old
            → IfOk result (λ token. HasRead octets (tokens ++ located token ∷ []) self.new) }
        ensures shorter { OnOk result
            (length (ahead self.new.cursor) < length (ahead self.old.cursor)) }
        ensures stands { (octets : List ℕ) (tokens : List Located) (whole : Front)
            → AreBefore tokens whole → HasRead octets tokens self.old → IsOpen whole
            → IfErr result (Stands octets) }
    {
        match next_mark(self.cursor, mark) {
            Some((token, after)) => {
                self.cursor = after;
                Ok(token)
            }
            None => self.expect(),
        }
    }

    // Returns `fault`, or the first fault of the remaining tokens if there is one, which takes
    // precedence.
    pub(crate) fn refuse(&self, fault: TextFault) -> TextFault
        ensures { (octets : List ℕ) (tokens : List Located) → HasRead octets tokens self.now
            → StandsIfLexed octets fault → Stands octets result }
    {
        let mut cursor = self.cursor;
        loop {
            match next_token(self.alloc, cursor) {
                Ok(Some((_, after))) => cursor = after,
                Ok(None) => return fault,
                Err(earlier) => return TextFault::from(earlier),
            }
        }
    }
}

// Returns whether a value begins with the token.
pub(crate) fn begins_value(kind: &TokenKind) -> bool
    ensures { result ≡ begins_value (lexeme_of kind.now ∷ []) }
{
    match kind {
        TokenKind::Text(_) | TokenKind::Octets(_) => true,
        TokenKind::ParenOpen | TokenKind::BraceOpen => true,
        _ => false,
    }
}
