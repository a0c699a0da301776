//! Property lists in either form, as bytes: loading them from a source, reading, comparing,
//! converting and printing them, and every refusal with its number and its printed line.
#![tactic(auto)]

pub mod canonicals;
mod converting;
pub mod faults;
pub mod forms;
mod judged;
pub mod laws;
pub mod lines;
pub mod loading;
pub mod openstep;
pub mod pairs;
pub mod printing;
pub mod statuses;
mod taken;

pub use canonicals::{
    begins_as_binary, canonicalise, canonicalise_with_hasher, judge_any, read_any, same_files,
    same_files_with_hasher,
};
pub use converting::{convert, convert_octets, convert_with_hasher};
pub use faults::Fault;
pub use forms::Form;
pub use lines::line;
pub use loading::{MAX_INPUT, load, load_unless};
pub use openstep::write_openstep;
pub use pairs::PairFault;
pub use printing::print;
pub use statuses::Status;
