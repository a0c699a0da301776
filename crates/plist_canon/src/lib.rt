//! Checks whether a binary file is the one canonical file of a property list, and makes that file
//! from a value.
#![tactic(auto)]

pub mod checking;
pub mod laws;
mod object_rules;
mod objects;
mod offsets;
mod preorder;
mod references;
mod repeats;
mod rule;
mod visited;
mod weights;
mod writing;

pub use checking::{CheckFault, Verdict, check, check_with_hasher};
pub use plist_devices::{DeviceFault, ListSink, Sink};
pub use plist_write::WriteFault;
pub use writing::{canonical, canonical_with_hasher, write_canonical, write_canonical_with_hasher};
