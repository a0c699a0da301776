//! Errors of writing a file.
ghost use Rattle.std.specs.Prelude.{◌≡◌};
ghost use Rattle.plist_write.specs.Sending.{write_code, write_report};
ghost use Rattle.plist_write.specs.declared.faults.WriteFault.TheVariants.{OutOfMemory};

use plist_value::{Place, Refusal, Report};
use std::alloc::AllocError;
use std::fmt;
use thiserror::Error;

/// Why a file was not written completely. Exactly its first `sent` bytes were written.
#[derive(Clone, Copy, Debug, PartialEq, Eq, Error)]
pub enum WriteFault {
    /// 51: the sink failed.
    WriteFailed { sent: u64 },
    /// 60: out of memory.
    OutOfMemory { sent: u64 },
}

impl WriteFault {
    /// Returns the error number: 51 or 60.
    pub fn code(&self) -> u8
        ensures { result ≡ write_code self.now }
    {
        self.report().0.number()
    }

    fn report(&self) -> Report
        ensures { result ≡ write_report self.now }
    {
        match *self {
            WriteFault::WriteFailed { sent } => Report(Refusal::WriteFailed, Place::After(sent)),
            WriteFault::OutOfMemory { sent } => Report(Refusal::OutOfMemory, Place::After(sent)),
        }
    }
}

// Prints the number and the name of the error, and how much was written, as in
// `51 WriteFailed after 10 octets`.
impl fmt::Display for WriteFault {
    ghost use Rattle.std.specs.Prelude.{Some};
    ghost use Rattle.plist_write.specs.Sending.{write_text};

    ghost output = { λ fault. Some (write_text fault) };

    fn fmt<W: fmt::Write>(&self, f: &mut fmt::Formatter<W>) -> fmt::Result {
        let report = self.report();
        write!(f, "{report}")
    }
}

// Out of memory before the first byte was written.
impl From<AllocError> for WriteFault {
    ghost from_gives = { λ _ fault. fault ≡ OutOfMemory 0 };

    fn from(_error: AllocError) -> WriteFault {
        WriteFault::OutOfMemory { sent: 0 }
    }
}
