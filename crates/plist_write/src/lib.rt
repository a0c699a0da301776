//! Writes the canonical binary file of a property list, into memory or piece by piece to a sink,
//! and its text in any notation. The input is any binary file that encodes the list; the list is
//! not built.
#![tactic(auto)]

mod bits;
pub mod buffered_sink;
pub mod faults;
mod file_end;
mod in_memory;
pub mod laws;
mod new_objects;
pub mod notation;
pub mod notation_writer;
mod object_numbers;
mod objects;
mod order;
mod plan;
mod renumbering;
pub mod repeat_filter;
pub mod scalar_numbers;
pub mod sending;
mod walk;

pub use buffered_sink::BufferedSink;
pub use faults::WriteFault;
pub use in_memory::canonical_of;
pub use notation::{Mark, Notation};
pub use notation_writer::write_in_notation;
pub use repeat_filter::{RepeatFilter, RepeatFilterBuilder};
pub use scalar_numbers::ScalarNumbers;
pub use sending::write_canonical_of;
