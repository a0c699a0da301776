//! The error type of the validator and the reader.
ghost use Rattle.std.specs.Prelude.{◌≡◌};
ghost use Rattle.plist_binary.specs.declared.fault.BinaryFault.TheVariants.{OutOfMemory};

use plist_object::{LayoutFault, ObjectFault};
use plist_value::{Place, Refusal, Report};
use std::alloc::{AllocError, AllocFailed};
use std::fmt;
use thiserror::Error;

/// Why bytes are not a binary property list (format: CFBinaryPList.c; which faults there are, and
/// their order, is this project's profile).
#[derive(Clone, Copy, Debug, PartialEq, Eq, Error)]
pub enum BinaryFault {
    /// 1: fewer than 42 bytes.
    TooShort,
    /// 2: the first eight bytes are not `bplist00`.
    BadHeader,
    /// 3: the trailer does not fit the file.
    BadTrailer,
    /// 4: the offset of the object is in the header, or not before the offset table.
    BadOffset {
        /// The object.
        object: u64,
    },
    /// 5: a reference is not below the number of objects.
    BadReference {
        /// The object that contains the reference.
        object: u64,
    },
    /// 6: the object's count or content reaches into the offset table.
    CutObject {
        /// The object.
        object: u64,
    },
    /// 7: the marker of the object, or of its count, is not one of the format.
    BadMarker {
        /// The object.
        object: u64,
    },
    /// 8: the object is a null, which is not accepted.
    NullObject {
        /// The object.
        object: u64,
    },
    /// 9: the object is a UID, which is not accepted.
    UidObject {
        /// The object.
        object: u64,
    },
    /// 10: the object is a set, which is not accepted.
    SetObject {
        /// The object.
        object: u64,
    },
    /// 11: the object is an ASCII string with a byte above 7f.
    NotAscii {
        /// The object.
        object: u64,
    },
    /// 12: the object is an integer of sixteen bytes, the first eight of which are not all zero.
    WideInteger {
        /// The object.
        object: u64,
    },
    /// 13: a key is not a string.
    KeyNotText {
        /// The dictionary.
        object: u64,
    },
    /// 14: two keys of a dictionary are equal.
    DuplicateKey {
        /// The dictionary.
        object: u64,
    },
    /// 15: a reference leads back to a container on the path to it.
    Cycle {
        /// The object that contains the reference.
        object: u64,
    },
    /// 16: the value is deeper than `MAX_DEPTH`.
    TooDeep {
        /// The object referred to.
        object: u64,
    },
    /// 17: the value has more than `MAX_NODES` nodes.
    TooManyNodes {
        /// The object referred to.
        object: u64,
    },
    /// 18: the value has more payload than `MAX_PAYLOAD`.
    TooMuchPayload {
        /// The object referred to.
        object: u64,
    },
    /// 60: out of memory. May come in place of any other fault.
    OutOfMemory,
}

impl BinaryFault {
    ghost use Rattle.plist_binary.specs.Codes.{fault_code, fault_report, of_object};

    /// Returns the number of the refusal: 1 to 18, or 60.
    pub fn code(&self) -> u8
        ensures { result ≡ fault_code self.now }
    {
        self.report().0.number()
    }

    /// Returns the fault of an object that cannot be decoded.
    pub fn of_object(object: u64, fault: ObjectFault) -> BinaryFault
        ensures { result ≡ of_object object fault }
    {
        match fault {
            ObjectFault::BadOffset => Self::BadOffset { object },
            ObjectFault::CutObject => Self::CutObject { object },
            ObjectFault::BadMarker => Self::BadMarker { object },
            ObjectFault::NullObject => Self::NullObject { object },
            ObjectFault::UidObject => Self::UidObject { object },
            ObjectFault::SetObject => Self::SetObject { object },
            ObjectFault::NotAscii => Self::NotAscii { object },
            ObjectFault::WideInteger => Self::WideInteger { object },
        }
    }

    /// Returns the refusal and the object that it names.
    pub fn report(&self) -> Report
        ensures { result ≡ fault_report self.now }
    {
        match *self {
            Self::TooShort => Report(Refusal::TooShort, Place::Nowhere),
            Self::BadHeader => Report(Refusal::BadHeader, Place::Nowhere),
            Self::BadTrailer => Report(Refusal::BadTrailer, Place::Nowhere),
            Self::BadOffset { object } => Report(Refusal::BadOffset, Place::Object(object)),
            Self::BadReference { object } => Report(Refusal::BadReference, Place::Object(object)),
            Self::CutObject { object } => Report(Refusal::CutObject, Place::Object(object)),
            Self::BadMarker { object } => Report(Refusal::BadMarker, Place::Object(object)),
            Self::NullObject { object } => Report(Refusal::NullObject, Place::Object(object)),
            Self::UidObject { object } => Report(Refusal::UidObject, Place::Object(object)),
            Self::SetObject { object } => Report(Refusal::SetObject, Place::Object(object)),
            Self::NotAscii { object } => Report(Refusal::NotAscii, Place::Object(object)),
            Self::WideInteger { object } => Report(Refusal::WideInteger, Place::Object(object)),
            Self::KeyNotText { object } => Report(Refusal::KeyNotText, Place::Object(object)),
            Self::DuplicateKey { object } => Report(Refusal::DuplicateKey, Place::Object(object)),
            Self::Cycle { object } => Report(Refusal::Cycle, Place::Object(object)),
            Self::TooDeep { object } => Report(Refusal::TooDeep, Place::Object(object)),
            Self::TooManyNodes { object } => Report(Refusal::TooManyNodes, Place::Object(object)),
            Self::TooMuchPayload { object } => Report(
                Refusal::TooMuchPayload,
                Place::Object(object),
            ),
            Self::OutOfMemory => Report(Refusal::OutOfMemory, Place::Nowhere),
        }
    }
}

// Prints the number, the name and the object of the refusal, such as
// `14 DuplicateKey at object 0`.
impl fmt::Display for BinaryFault {
    ghost use Rattle.std.specs.Prelude.{Some};
    ghost use Rattle.plist_binary.specs.Codes.{binary_fault_text};

    ghost output = { λ fault. Some (binary_fault_text fault) };

    fn fmt<W: fmt::Write>(&self, f: &mut fmt::Formatter<W>) -> fmt::Result {
        let report = self.report();
        write!(f, "{report}")
    }
}

impl From<LayoutFault> for BinaryFault {
    ghost use Rattle.plist_binary.specs.Codes.{of_layout};

    ghost from_gives = { λ fault e. e ≡ of_layout fault };

    fn from(fault: LayoutFault) -> Self {
        match fault {
            LayoutFault::TooShort => BinaryFault::TooShort,
            LayoutFault::BadHeader => BinaryFault::BadHeader,
            LayoutFault::BadTrailer => BinaryFault::BadTrailer,
        }
    }
}

impl From<AllocError> for BinaryFault {
    ghost from_gives = { λ _ e. e ≡ OutOfMemory };

    fn from(_: AllocError) -> Self {
        BinaryFault::OutOfMemory
    }
}

impl<T: Drop> From<AllocFailed<T>> for BinaryFault {
    ghost from_gives = { λ _ e. e ≡ OutOfMemory };

    fn from(_: AllocFailed<T>) -> Self {
        BinaryFault::OutOfMemory
    }
}
