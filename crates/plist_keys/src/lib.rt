//! The order of the keys of dictionaries in binary property lists.
#![tactic(auto)]

mod in_order;
mod judged_file;
mod key_texts;
mod keys;
pub mod order;
mod prefixes;
mod ranks;
mod reached;
mod sorted_keys;

pub use judged_file::JudgedFile;
pub use key_texts::text_of;
pub use order::KeyOrder;
