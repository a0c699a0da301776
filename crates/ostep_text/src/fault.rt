//! The error type of the reader.
ghost use Rattle.std.specs.Prelude.{◌≡◌, Some};
ghost use Rattle.ostep_text.specs.Fault.{code_of, of_tokens, report_of, text_of_fault};
ghost use Rattle.ostep_text.specs.declared.fault.TextFault.TheVariants.{OutOfMemory};

use ostep_lex::LexFault;
use plist_value::{Place, Refusal, Report};
use std::alloc::{AllocError, AllocFailed};
use std::fmt;
use thiserror::Error;

/// Why bytes are not a text of any value. Offsets count bytes from the start of the input, its BOM
/// included. Faults of tokens (`BadUtf8` to `BadUtf16`) come before all others but `OutOfMemory`.
#[derive(Clone, Copy, Debug, PartialEq, Eq, Error)]
pub enum TextFault {
    /// No UTF-8 character begins at this byte; only whole characters come before it. Comes before
    /// all other faults of a text without a UTF-16 BOM.
    BadUtf8 { octet: usize },
    /// The text begins like an XML property list; its `<` is at this byte. Comes next.
    XmlForm { octet: usize },
    /// The character at this byte begins no token, whitespace or comment.
    UnexpectedCharacter { octet: usize },
    /// The string whose quote is at this byte has no end.
    UnclosedString { octet: usize },
    /// The comment whose `/*` is at this byte has no end.
    UnclosedComment { octet: usize },
    /// No hexadecimal digit follows the `\U` whose backslash is at this byte.
    BadEscape { octet: usize },
    /// The octal escape whose backslash is at this byte has a value above octal 177.
    OctalRange { octet: usize },
    /// No second digit follows the hexadecimal digit at this byte of a data token.
    OddData { octet: usize },
    /// This byte of a data token begins neither a pair of digits nor `>`, or is the end of the
    /// text.
    BadData { octet: usize },
    /// No UTF-16 character begins at this byte; only whole characters come between the BOM and it.
    /// Comes before all other faults of a text with a UTF-16 BOM.
    BadUtf16 { octet: usize },
    /// The key that begins at this byte already occurs in its dictionary.
    DuplicateKey { octet: usize },
    /// The value or key that begins at this byte is nested in `MAX_DEPTH` arrays and dictionaries.
    TooDeep { octet: usize },
    /// The value or key that begins at this byte exceeds `MAX_NODES`.
    TooManyNodes { octet: usize },
    /// With the string or data that begins at this byte the payload exceeds `MAX_PAYLOAD`.
    TooMuchPayload { octet: usize },
    /// The token at this byte, or the end, cannot continue the text. The tokens before it are not a
    /// complete text, or there are none.
    Expected { octet: usize },
    /// The tokens before this byte, at least one, are a complete text, which the token there cannot
    /// continue.
    Junk { octet: usize },
    /// Out of memory. May come before any other fault.
    OutOfMemory,
}

impl TextFault {
    /// Returns the number of the refusal: 14, 16 to 18, 20, 21, 23 to 32 or 60.
    pub fn code(&self) -> u8
        ensures { result ≡ code_of self.now }
    {
        self.report().0.number()
    }

    /// Returns the refusal and the byte that it names.
    pub fn report(&self) -> Report
        ensures { result ≡ report_of self.now }
    {
        match *self {
            TextFault::BadUtf8 { octet } => Report(Refusal::BadUtf8, Place::Octet(octet)),
            TextFault::XmlForm { octet } => Report(Refusal::XmlForm, Place::Octet(octet)),
            TextFault::UnexpectedCharacter { octet } => {
                Report(Refusal::UnexpectedCharacter, Place::Octet(octet))
            }
            TextFault::UnclosedString { octet } => {
                Report(Refusal::UnclosedString, Place::Octet(octet))
            }
            TextFault::UnclosedComment { octet } => {
                Report(Refusal::UnclosedComment, Place::Octet(octet))
            }
            TextFault::BadEscape { octet } => Report(Refusal::BadEscape, Place::Octet(octet)),
            TextFault::OctalRange { octet } => Report(Refusal::OctalRange, Place::Octet(octet)),
            TextFault::OddData { octet } => Report(Refusal::OddData, Place::Octet(octet)),
            TextFault::BadData { octet } => Report(Refusal::BadData, Place::Octet(octet)),
            TextFault::BadUtf16 { octet } => Report(Refusal::BadUtf16, Place::Octet(octet)),
            TextFault::DuplicateKey { octet } => Report(Refusal::DuplicateKey, Place::Octet(octet)),
            TextFault::TooDeep { octet } => Report(Refusal::TooDeep, Place::Octet(octet)),
            TextFault::TooManyNodes { octet } => Report(Refusal::TooManyNodes, Place::Octet(octet)),
            TextFault::TooMuchPayload { octet } => {
                Report(Refusal::TooMuchPayload, Place::Octet(octet))
            }
            TextFault::Expected { octet } => Report(Refusal::Expected, Place::Octet(octet)),
            TextFault::Junk { octet } => Report(Refusal::Junk, Place::Octet(octet)),
            TextFault::OutOfMemory => Report(Refusal::OutOfMemory, Place::Nowhere),
        }
    }
}

// Prints the number, the name and the place of the refusal, such as `30 Expected at octet 4`.
impl fmt::Display for TextFault {
    ghost output = { λ fault. Some (text_of_fault fault) };

    fn fmt<W: fmt::Write>(&self, f: &mut fmt::Formatter<W>) -> fmt::Result {
        let report = self.report();
        write!(f, "{report}")
    }
}

// Keeps the name of a fault of the tokens.
impl From<LexFault> for TextFault {
    ghost from_gives = { λ fault e. e ≡ of_tokens fault };

    fn from(fault: LexFault) -> Self {
        match fault {
            LexFault::BadUtf8 { octet } => TextFault::BadUtf8 { octet },
            LexFault::XmlForm { octet } => TextFault::XmlForm { octet },
            LexFault::UnexpectedCharacter { octet } => TextFault::UnexpectedCharacter { octet },
            LexFault::UnclosedString { octet } => TextFault::UnclosedString { octet },
            LexFault::UnclosedComment { octet } => TextFault::UnclosedComment { octet },
            LexFault::BadEscape { octet } => TextFault::BadEscape { octet },
            LexFault::OctalRange { octet } => TextFault::OctalRange { octet },
            LexFault::OddData { octet } => TextFault::OddData { octet },
            LexFault::BadData { octet } => TextFault::BadData { octet },
            LexFault::BadUtf16 { octet } => TextFault::BadUtf16 { octet },
            LexFault::OutOfMemory => TextFault::OutOfMemory,
        }
    }
}

impl From<AllocError> for TextFault {
    ghost from_gives = { λ _ fault. fault ≡ OutOfMemory };

    fn from(_error: AllocError) -> Self {
        TextFault::OutOfMemory
    }
}

impl<T: Drop> From<AllocFailed<T>> for TextFault {
    ghost from_gives = { λ _ fault. fault ≡ OutOfMemory };

    fn from(_error: AllocFailed<T>) -> Self {
        TextFault::OutOfMemory
    }
}
