//! A binary file that grows object by object: each object is appended once, after the objects that
//! it refers to.
#![tactic(auto)]

pub mod draft;
mod ends;
pub mod laws;
mod recent;
pub mod values;

pub use draft::Draft;
pub use values::put_value;
