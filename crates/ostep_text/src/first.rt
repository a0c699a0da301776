//! The first token of a value or of a row.
ghost use Rattle.std.specs.Prelude.{◌≡◌, false, MatchOption};
ghost use Rattle.ostep_lex.specs.Lexeme.{text as string};
ghost use Rattle.ostep_text.specs.First.{first_placed, ends_list, ends_table, is_string, IsValid};

use crate::key::Key;
use ostep_lex::{PlainToken, Token, TokenKind};

// Either a string borrowed from the input, or any token.
#[derive(Drop)]
pub(crate) enum First<'a> {
    Plain(PlainToken<'a>),
    Other(Token),
}

impl<'a> First<'a> {
    // Returns the offset of the token.
    #[inline(always)]
    pub(crate) fn start(&self) -> usize
        ensures { result ≡ (first_placed self.now).start }
    {
        match self {
            First::Plain(token) => token.start,
            First::Other(token) => token.start,
        }
    }

    // Returns whether the token is the parenthesis that ends an array.
    #[inline(always)]
    pub(crate) fn ends_list(&self) -> bool
        ensures { result ≡ ends_list (first_placed self.now).lexeme }
    {
        match self {
            First::Plain(_) => false,
            First::Other(token) => matches!(token.kind, TokenKind::ParenClose),
        }
    }

    // Returns whether the token is the brace that ends a dictionary.
    #[inline(always)]
    pub(crate) fn ends_table(&self) -> bool
        ensures { result ≡ ends_table (first_placed self.now).lexeme }
    {
        match self {
            First::Plain(_) => false,
            First::Other(token) => matches!(token.kind, TokenKind::BraceClose),
        }
    }

    // Returns the string as a key, or `None` if the token is not a string.
    #[inline(always)]
    pub(crate) fn key(self) -> Option<Key<'a>>
        requires { IsValid self }
        ensures { MatchOption result (is_string (first_placed self.entry).lexeme ≡ false)
            (λ key. (first_placed self.entry).lexeme ≡ string key) }
    {
        match self {
            First::Plain(token) => Some(Key::borrowed(token.text)),
            First::Other(token) => match token.kind {
                TokenKind::Text(text) => Some(Key::owned(text)),
                _ => None,
            },
        }
    }
}
