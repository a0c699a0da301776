//! Prints property lists for people to read. Two values have equal printed texts if and only if
//! they are equal. Contains the laws of printed texts, and prints scalars and the values of binary
//! files to a sink, piece by piece.
#![tactic(auto)]

mod data;
mod dates;
mod decimals;
mod invisible;
pub mod laws;
mod layout;
mod lines;
mod numbers;
pub mod printing;
mod reals;
mod strings;

pub use printing::print_of;
