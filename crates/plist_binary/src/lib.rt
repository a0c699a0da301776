//! Validates and reads binary property lists.
#![tactic(auto)]

mod building;
mod copies;
pub mod fault;
mod judging;
mod progress;
mod reader;
mod states;
mod visiting;
mod walker;
mod walking;

pub use fault::BinaryFault;
pub use judging::{judge, judge_file};
pub use reader::read;
