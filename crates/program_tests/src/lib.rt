//! The tests of the program that no row of `rows` can express: over the files of the host and over
//! a disk in memory.
#![tactic(auto)]

#[cfg(test)]
mod device_tests;
#[cfg(test)]
mod explain_tests;
#[cfg(test)]
mod faulty_tests;
#[cfg(test)]
mod growths;
#[cfg(test)]
mod hasher_tests;
#[cfg(test)]
mod help_tests;
#[cfg(test)]
mod host_tests;
#[cfg(test)]
mod memory_tests;
#[cfg(test)]
mod readme;
#[cfg(test)]
mod several_tests;
#[cfg(test)]
mod strict;
#[cfg(test)]
mod surface;
#[cfg(test)]
mod words;

#[cfg(test)]
use test_files::{devices, worked_files};
