//! The error type of the writer.
ghost use Rattle.std.specs.Prelude.{◌≡◌, Some};
ghost use Rattle.ostep_text.specs.WriteFault.{code_of, report_of, text_of_fault};
ghost use Rattle.ostep_text.specs.declared.write_fault.TextWriteFault.TheVariants.{OutOfMemory};

use plist_value::{Place, Refusal, Report};
use std::alloc::{AllocError, AllocFailed};
use std::fmt;
use thiserror::Error;

/// Why a property list was not written as a text.
#[derive(Clone, Copy, Debug, PartialEq, Eq, Error)]
pub enum TextWriteFault {
    /// The value contains an integer, boolean, real or date, which OpenStep texts cannot express.
    NotInOpenStep,
    /// Out of memory. May come in place of the other.
    OutOfMemory,
}

impl TextWriteFault {
    /// Returns the number of the refusal: 40 or 60.
    pub fn code(&self) -> u8
        ensures { result ≡ code_of self.now }
    {
        self.report().0.number()
    }

    fn report(&self) -> Report
        ensures { result ≡ report_of self.now }
    {
        match self {
            TextWriteFault::NotInOpenStep => Report(Refusal::NotInOpenStep, Place::Nowhere),
            TextWriteFault::OutOfMemory => Report(Refusal::OutOfMemory, Place::Nowhere),
        }
    }
}

// Prints the number and the name of the refusal, such as `40 NotInOpenStep`.
impl fmt::Display for TextWriteFault {
    ghost output = { λ fault. Some (text_of_fault fault) };

    fn fmt<W: fmt::Write>(&self, f: &mut fmt::Formatter<W>) -> fmt::Result {
        let report = self.report();
        write!(f, "{report}")
    }
}

impl From<AllocError> for TextWriteFault {
    ghost from_gives = { λ _ fault. fault ≡ OutOfMemory };

    fn from(_error: AllocError) -> TextWriteFault {
        TextWriteFault::OutOfMemory
    }
}

impl<T: Drop> From<AllocFailed<T>> for TextWriteFault {
    ghost from_gives = { λ _ fault. fault ≡ OutOfMemory };

    fn from(_error: AllocFailed<T>) -> TextWriteFault {
        TextWriteFault::OutOfMemory
    }
}
