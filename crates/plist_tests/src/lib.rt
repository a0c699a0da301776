//! The tests of the formats that no row of `rows` can express: generated files, failing devices,
//! each prefix of small files and texts, deep texts and refused memory. They are in one crate,
//! because a crate with tests loads the proofs of everything below it.
#![tactic(auto)]

/// The number of the refusal that a call returns, 0 if it returns none.
macro_rules! code_of {
    ($result:expr) => {
        $result.err().map_or(0, |fault| fault.code())
    };
}

#[cfg(test)]
mod canonical_files;
#[cfg(test)]
mod depth;
#[cfg(test)]
mod drafts;
#[cfg(test)]
mod files;
#[cfg(test)]
mod growths;
#[cfg(test)]
mod judge_tests;
#[cfg(test)]
mod limit_tests;
#[cfg(test)]
mod object_tests;
#[cfg(test)]
mod openstep_tests;
#[cfg(test)]
mod order_tests;
#[cfg(test)]
mod prefixes;
#[cfg(test)]
mod sink_tests;
#[cfg(test)]
mod tokens;
#[cfg(test)]
mod transfer_tests;
#[cfg(test)]
mod value_tests;

#[cfg(test)]
use test_files::{devices, worked_files};
