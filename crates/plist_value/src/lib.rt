//! The values that property lists encode, and their size limits.
#![tactic(auto)]

mod ascii;
pub mod budget;
pub mod copies;
pub mod equal;
pub mod escapes;
pub mod hashers;
pub mod hexadecimal;
pub mod laws;
pub mod limits;
pub mod refusals;
pub mod scalar_ref;
mod stored;
mod text_hash;
pub mod text_ref;
pub mod utf16;
pub mod value;
pub mod whole;
mod words;

pub use budget::Budget;
pub use copies::copy;
pub use equal::same;
pub use escapes::{literal_run, put_quoted_unit};
pub use hashers::FixedHasher;
pub use hexadecimal::{digits_of, put_digits};
pub use limits::fits;
pub use refusals::{Place, Refusal, Report};
pub use scalar_ref::ScalarRef;
pub use text_ref::TextRef;
pub use utf16::Utf16;
pub use value::Value;
pub use whole::Whole;

/// The greatest number of nodes of a value that is read or written: each scalar, each container and
/// each key is one node.
pub const MAX_NODES: u64 = 16_777_216;

/// The greatest depth: a scalar or an empty container has depth 1, any other container one more
/// than the deepest value in it.
pub const MAX_DEPTH: u64 = 512;

/// The greatest payload, in bytes: two for each UTF-16 unit of a string and one for each byte of
/// data, over the whole tree, keys included.
pub const MAX_PAYLOAD: u64 = 1_073_741_824;
