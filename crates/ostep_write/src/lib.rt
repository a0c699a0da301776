//! OpenStep texts of the values of binary files, which are not built.
#![tactic(auto)]

mod data;
mod strings;
pub mod writing;

pub use writing::write_text_of;
