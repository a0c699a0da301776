//! Reads and writes property lists as OpenStep texts.
//!
//! The format is that of Apple's guide "Old-Style ASCII Property Lists", with two choices of this
//! project. At the top level the braces of a dictionary may be missing, and a text without tokens
//! is the empty dictionary.
//!
//! The definitions are in `specs/`: what a text of a value is, which refusal is true and where, and
//! the text that is written for a value. `laws` proves what holds of them alone.
#![tactic(auto)]

mod building;
mod entries;
pub mod fault;
mod first;
mod key;
mod key_set;
pub mod laws;
mod payloads;
pub mod read;
mod reader;
mod tokens;
mod whole;
pub mod write_fault;
mod write_scalars;
mod writing;

pub use fault::TextFault;
pub use read::{draft_text, read_text};
pub use write_fault::TextWriteFault;
pub use write_scalars::is_unquoted;
pub use writing::write_text;
