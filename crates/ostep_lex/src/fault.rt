//! Why a text has no tokens.
ghost use Rattle.std.specs.Prelude.{◌≡◌, Some};
ghost use Rattle.ostep_lex.specs.Fault.{code_of, report_of, text_of_fault};
ghost use Rattle.ostep_lex.specs.declared.fault.LexFault.TheVariants.{OutOfMemory};

use plist_value::{Place, Refusal, Report};
use std::alloc::{AllocError, AllocFailed};
use std::fmt;
use thiserror::Error;

/// Why a text has no tokens. Offsets are those in the input, byte order mark included.
#[derive(Clone, Copy, Debug, PartialEq, Eq, Error)]
pub enum LexFault {
    /// No UTF-8 character begins at this byte, after complete characters. Comes before all other
    /// faults of a text that has no UTF-16 byte order mark.
    BadUtf8 { octet: usize },
    /// The text begins like an XML property list, whose `<` is this byte. Comes next.
    XmlForm { octet: usize },
    /// The character at this byte begins no token, whitespace or comment.
    UnexpectedCharacter { octet: usize },
    /// The string whose quote is this byte has no end.
    UnclosedString { octet: usize },
    /// The comment whose `/*` is at this byte has no end.
    UnclosedComment { octet: usize },
    /// No hexadecimal digit follows the `\U` whose backslash is this byte.
    BadEscape { octet: usize },
    /// The octal escape whose backslash is this byte has a value above octal 177.
    OctalRange { octet: usize },
    /// No second digit follows the hexadecimal digit at this byte of a data token.
    OddData { octet: usize },
    /// At this byte of a data token there is neither a pair of digits nor `>`, or the text ends.
    BadData { octet: usize },
    /// No UTF-16 character begins at this byte, after complete characters. Comes before all other
    /// faults of a text with a UTF-16 byte order mark.
    BadUtf16 { octet: usize },
    /// Out of memory. May come before any other fault.
    OutOfMemory,
}

impl LexFault {
    /// Returns the number of the refusal: 20, 21, 23 to 29, 32 or 60.
    pub fn code(&self) -> u8
        ensures { result ≡ code_of self.now }
    {
        self.report().0.number()
    }

    // Returns what is printed.
    fn report(&self) -> Report
        ensures { result ≡ report_of self.now }
    {
        match *self {
            LexFault::BadUtf8 { octet } => Report(Refusal::BadUtf8, Place::Octet(octet)),
            LexFault::XmlForm { octet } => Report(Refusal::XmlForm, Place::Octet(octet)),
            LexFault::UnexpectedCharacter { octet } => {
                Report(Refusal::UnexpectedCharacter, Place::Octet(octet))
            }
            LexFault::UnclosedString { octet } => {
                Report(Refusal::UnclosedString, Place::Octet(octet))
            }
            LexFault::UnclosedComment { octet } => {
                Report(Refusal::UnclosedComment, Place::Octet(octet))
            }
            LexFault::BadEscape { octet } => Report(Refusal::BadEscape, Place::Octet(octet)),
            LexFault::OctalRange { octet } => Report(Refusal::OctalRange, Place::Octet(octet)),
            LexFault::OddData { octet } => Report(Refusal::OddData, Place::Octet(octet)),
            LexFault::BadData { octet } => Report(Refusal::BadData, Place::Octet(octet)),
            LexFault::BadUtf16 { octet } => Report(Refusal::BadUtf16, Place::Octet(octet)),
            LexFault::OutOfMemory => Report(Refusal::OutOfMemory, Place::Nowhere),
        }
    }
}

// Prints the number, the name and the position of the refusal, such as `24 UnclosedString at octet
// 2`.
impl fmt::Display for LexFault {
    ghost output = { λ fault. Some (text_of_fault fault) };

    fn fmt<W: fmt::Write>(&self, f: &mut fmt::Formatter<W>) -> fmt::Result {
        let report = self.report();
        write!(f, "{report}")
    }
}

impl From<AllocError> for LexFault {
    ghost from_gives = { λ _ fault. fault ≡ OutOfMemory };

    fn from(_error: AllocError) -> LexFault {
        LexFault::OutOfMemory
    }
}

impl<T: Drop> From<AllocFailed<T>> for LexFault {
    ghost from_gives = { λ _ fault. fault ≡ OutOfMemory };

    fn from(_error: AllocFailed<T>) -> LexFault {
        LexFault::OutOfMemory
    }
}
