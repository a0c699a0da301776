//! Binary property lists borrowed from a byte slice: the layout of a file, its objects, and their
//! canonical encoding.
#![tactic(auto)]

mod counted;
mod finding;
pub mod laws;
pub mod layout;
pub mod lengths;
pub mod markers;
pub mod object;
pub mod puts;
mod reading;
pub mod refs;
mod reserved;
pub mod shortest;
mod trailer;
mod units;

pub use finding::Spanned;
pub use layout::{BinFile, LayoutFault};
pub use lengths::{list_length, scalar_length, table_length, to_u32, width_of};
pub use markers::HEADER;
pub use object::{Object, ObjectFault};
pub use puts::{
    put_data_head, put_list, put_number, put_scalar, put_short_list, put_short_table, put_table,
    put_trailer,
};
pub use refs::Refs;
pub use shortest::begins_canonically;
