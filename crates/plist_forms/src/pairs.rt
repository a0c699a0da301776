//! The refusal of one of two inputs.
ghost use Rattle.std.specs.Prelude.{◌≡◌};
ghost use Rattle.plist_forms.specs.Pair.{pair_code, pair_text};

use crate::Fault;
use std::fmt;
use thiserror::Error;

/// Which of two inputs was refused, and why.
#[derive(Clone, Copy, Debug, PartialEq, Eq, Error)]
pub enum PairFault {
    /// The first input.
    First(Fault),
    /// The second input; the first is accepted.
    Second(Fault),
}

impl PairFault {
    /// Returns the number of the refusal.
    pub fn code(&self) -> u8
        ensures { result ≡ pair_code self.now }
    {
        match self {
            PairFault::First(fault) | PairFault::Second(fault) => fault.code(),
        }
    }
}

// Prints which input is refused, and the number, the name and the place of its refusal: `the
// second: 14 DuplicateKey at object 0`.
impl fmt::Display for PairFault {
    ghost use Rattle.std.specs.Prelude.{Some};

    ghost output = { λ fault. Some (pair_text fault) };

    fn fmt<W: fmt::Write>(&self, f: &mut fmt::Formatter<W>) -> fmt::Result {
        match self {
            PairFault::First(fault) => write!(f, "the first: {fault}"),
            PairFault::Second(fault) => write!(f, "the second: {fault}"),
        }
    }
}
