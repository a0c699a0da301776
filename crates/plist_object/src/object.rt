//! The content of an object, and the errors of decoding it.
ghost use Rattle.std.specs.Prelude.{◌≡◌};

use crate::Refs;
use plist_value::{Place, Refusal, Report, ScalarRef};
use std::fmt;
use thiserror::Error;

/// The content of an object.
#[derive(Clone, Copy, Debug)]
pub enum Object<'a> {
    /// A scalar.
    Scalar(ScalarRef<'a>),
    /// An array: the references to its items.
    List(Refs<'a>),
    /// A dictionary: the references to its keys, and equally many to its values. Key `k` goes with
    /// value `k`.
    Table(Refs<'a>, Refs<'a>),
}

/// Why an object cannot be decoded (CFBinaryPList.c). Of several faults the first in this order is
/// returned: the offset, the marker, the count after it, the length, the content (our profile).
#[derive(Clone, Copy, Debug, PartialEq, Eq, Error)]
pub enum ObjectFault {
    /// 4: its offset is in the header, or not before the offset table.
    BadOffset,
    /// 6: its count or its content reaches into the offset table.
    CutObject,
    /// 7: its marker, or the marker of its count, is not one of the format.
    BadMarker,
    /// 8: it is a null, which no property list contains here.
    NullObject,
    /// 9: it is a UID, which no property list contains here.
    UidObject,
    /// 10: it is a set, which no property list contains here.
    SetObject,
    /// 11: it is an ASCII string with a byte above 7f.
    NotAscii,
    /// 12: it is an integer of 16 bytes whose first 8 are not all zero.
    WideInteger,
}

impl ObjectFault {
    ghost use Rattle.plist_object.specs.Codes.{object_code, object_report};

    /// Returns the error number: 4 or 6 to 12.
    pub fn code(&self) -> u8
        ensures { result ≡ object_code self.now }
    {
        self.report().0.number()
    }

    // The number of the object is not known here, so no position is reported.
    fn report(&self) -> Report
        ensures { result ≡ object_report self.now }
    {
        match self {
            ObjectFault::BadOffset => Report(Refusal::BadOffset, Place::Nowhere),
            ObjectFault::CutObject => Report(Refusal::CutObject, Place::Nowhere),
            ObjectFault::BadMarker => Report(Refusal::BadMarker, Place::Nowhere),
            ObjectFault::NullObject => Report(Refusal::NullObject, Place::Nowhere),
            ObjectFault::UidObject => Report(Refusal::UidObject, Place::Nowhere),
            ObjectFault::SetObject => Report(Refusal::SetObject, Place::Nowhere),
            ObjectFault::NotAscii => Report(Refusal::NotAscii, Place::Nowhere),
            ObjectFault::WideInteger => Report(Refusal::WideInteger, Place::Nowhere),
        }
    }
}

// Prints the number and the name of the error, as in `11 NotAscii`.
impl fmt::Display for ObjectFault {
    ghost use Rattle.std.specs.Prelude.{Some};
    ghost use Rattle.plist_object.specs.Codes.{object_text};

    ghost output = { λ fault. Some (object_text fault) };

    fn fmt<W: fmt::Write>(&self, f: &mut fmt::Formatter<W>) -> fmt::Result {
        let report = self.report();
        write!(f, "{report}")
    }
}
