//! The tokens of property lists in text form.
//!
//! The form is that of Apple's guide "Old-Style ASCII Property Lists", in our profile: the text is
//! UTF-8, or UTF-16 of either byte order after a byte order mark. There may be whitespace and
//! comments between tokens.
#![tactic(auto)]

mod character;
pub mod cursor;
mod digits;
pub mod fault;
mod gap;
pub mod laws;
pub mod lexer;
mod octets;
mod opening;
pub mod plain;
mod quoted;
mod remaining;
mod stretch;
pub mod token;

pub use cursor::Cursor;
pub use fault::LexFault;
pub use lexer::{next_mark, next_token, tokens};
pub use opening::open;
pub use plain::next_plain;
pub use token::{PlainToken, Token, TokenKind};
