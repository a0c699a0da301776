//! The meaning of each refusal and of each rule of canonical files: the texts that `plistconv
//! explain` prints.
#![tactic(auto)]

pub mod explaining;
pub mod laws;
mod naming;
mod refusals;
mod rules;
pub mod topics;

pub use explaining::{explanation, list};
