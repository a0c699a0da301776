//! Tokens and their spans.
use plist_value::{TextRef, Utf16};

/// A token with its span: from offset `start` up to offset `end` of the input, byte order mark
/// included.
#[derive(Debug, Drop)]
pub struct Token {
    pub kind: TokenKind,
    /// The offset of the token's first byte.
    pub start: usize,
    /// The offset after the token's last byte.
    pub end: usize,
}

/// One of `{` `}` `(` `)` `,` `;` `=`, a string, or data.
#[derive(Debug, Drop)]
pub enum TokenKind {
    BraceOpen,
    BraceClose,
    ParenOpen,
    ParenClose,
    Comma,
    Semicolon,
    Equals,
    /// An unquoted or a quoted string, as UTF-16 units.
    Text(Utf16),
    /// The bytes of a data token.
    Octets(Vec<u8>),
}

/// A string of ASCII characters without escapes, borrowed from the input, with its span.
#[derive(Clone, Copy, Debug)]
pub struct PlainToken<'a> {
    /// The string, without its quotes.
    pub text: TextRef<'a>,
    /// The offset of the token's first byte.
    pub start: usize,
    /// The offset after the token's last byte.
    pub end: usize,
}
