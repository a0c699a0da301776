//! Every refusal of this crate, with its number, its printed form and its exit status.
ghost use Rattle.std.specs.Prelude.{◌≡◌};
ghost use Rattle.plist_forms.specs.Fault.{check_fault_for, code_of, fault_for};
ghost use Rattle.plist_forms.specs.Fault.{fault_text, report_of, status_for};
ghost use Rattle.plist_forms.specs.Fault.{text_fault_for, write_fault_for};
ghost use Rattle.plist_forms.specs.Status.{status_code};
ghost use Rattle.plist_forms.specs.declared.faults.Fault.TheVariants.{OutOfMemory, ReadFailed};

use crate::Status;
use ostep_text::TextFault;
use plist_binary::BinaryFault;
use plist_canon::CheckFault;
use plist_devices::DeviceFault;
use plist_value::{Place, Refusal, Report};
use plist_write::WriteFault;
use std::alloc::AllocError;
use std::fmt;
use thiserror::Error;

/// The error type of this crate.
#[derive(Clone, Copy, Debug, PartialEq, Eq, Error)]
pub enum Fault {
    /// 1 to 18: the bytes are not a binary file of any value.
    Binary(BinaryFault),
    /// 14, 16 to 18, 20, 21 and 23 to 32: the bytes are not a text of any value.
    Text(TextFault),
    /// 40: the value has no OpenStep text.
    NotInOpenStep,
    /// 50: the source failed.
    ReadFailed,
    /// 51: the sink failed after it had taken `sent` bytes.
    WriteFailed { sent: u64 },
    /// 52: the source gave more than [`MAX_INPUT`](crate::MAX_INPUT) bytes.
    InputTooLarge,
    /// 60: out of memory, after `sent` bytes were sent.
    OutOfMemory { sent: u64 },
}

impl Fault {
    /// Returns the number of the refusal.
    pub fn code(&self) -> u8
        ensures { result ≡ code_of self.now }
    {
        self.report().0.number()
    }

    /// Returns the refusal and the place that it names.
    pub fn report(&self) -> Report
        ensures { result ≡ report_of self.now }
    {
        match self {
            Fault::Binary(fault) => fault.report(),
            Fault::Text(fault) => fault.report(),
            Fault::NotInOpenStep => Report(Refusal::NotInOpenStep, Place::Nowhere),
            Fault::ReadFailed => Report(Refusal::ReadFailed, Place::Nowhere),
            Fault::WriteFailed { sent } => Report(Refusal::WriteFailed, Place::After(*sent)),
            Fault::InputTooLarge => Report(Refusal::InputTooLarge, Place::Nowhere),
            Fault::OutOfMemory { sent } => Report(Refusal::OutOfMemory, Place::After(*sent)),
        }
    }

    /// Returns the exit status of the program: 4 if a device failed (50, 51), 5 if out of memory
    /// (60), and 2 for all others.
    pub fn status(&self) -> u8
        ensures { result ≡ status_for (code_of self.now) }
    {
        self.end_status().code()
    }

    /// Returns the exit status of the program, by name.
    pub fn end_status(&self) -> Status
        ensures { status_code result ≡ status_for (code_of self.now) }
    {
        match self.code() {
            50 | 51 => Status::DeviceFailed,
            60 => Status::NoMemory,
            _ => Status::Refused,
        }
    }
}

// Prints the number, the name and the place of the refusal: `14 DuplicateKey at object 0`.
impl fmt::Display for Fault {
    ghost use Rattle.std.specs.Prelude.{Some};

    ghost output = { λ fault. Some (fault_text fault) };

    fn fmt<W: fmt::Write>(&self, f: &mut fmt::Formatter<W>) -> fmt::Result {
        let report = self.report();
        write!(f, "{report}")
    }
}

impl From<BinaryFault> for Fault {
    ghost from_gives = { λ fault refusal. refusal ≡ fault_for fault };

    fn from(fault: BinaryFault) -> Fault {
        match fault {
            BinaryFault::OutOfMemory => Fault::OutOfMemory { sent: 0 },
            _ => Fault::Binary(fault),
        }
    }
}

impl From<TextFault> for Fault {
    ghost from_gives = { λ fault refusal. refusal ≡ text_fault_for fault };

    fn from(fault: TextFault) -> Fault {
        match fault {
            TextFault::OutOfMemory => Fault::OutOfMemory { sent: 0 },
            _ => Fault::Text(fault),
        }
    }
}

impl From<CheckFault> for Fault {
    ghost from_gives = { λ fault refusal. refusal ≡ check_fault_for fault };

    fn from(fault: CheckFault) -> Fault {
        match fault {
            CheckFault::TooShort => Fault::Binary(BinaryFault::TooShort),
            CheckFault::BadHeader => Fault::Binary(BinaryFault::BadHeader),
            CheckFault::BadTrailer => Fault::Binary(BinaryFault::BadTrailer),
            CheckFault::OutOfMemory => Fault::OutOfMemory { sent: 0 },
        }
    }
}

impl From<WriteFault> for Fault {
    ghost from_gives = { λ fault refusal. refusal ≡ write_fault_for fault };

    fn from(fault: WriteFault) -> Fault {
        match fault {
            WriteFault::WriteFailed { sent } => Fault::WriteFailed { sent },
            WriteFault::OutOfMemory { sent } => Fault::OutOfMemory { sent },
        }
    }
}

impl From<DeviceFault> for Fault {
    ghost from_gives = { λ _ fault. fault ≡ ReadFailed };

    fn from(_fault: DeviceFault) -> Fault {
        Fault::ReadFailed
    }
}

impl From<AllocError> for Fault {
    ghost from_gives = { λ _ fault. fault ≡ OutOfMemory 0 };

    fn from(_error: AllocError) -> Fault {
        Fault::OutOfMemory { sent: 0 }
    }
}
