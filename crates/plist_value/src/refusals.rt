//! All refusals: their numbers and names, each written once, and how a refusal is printed.
ghost use Rattle.std.specs.Prelude.{◌≡◌, ◌≢◌, None, Some, IfSome};
ghost use Rattle.plist_value.specs.Refusals.{TellsApart, is_possible, name_of, number_of, report_text};

use std::fmt;

/// Why a call refuses its input. This is the one table of numbers and names. The fault types say
/// which faults a call returns, and which position each has.
#[derive(Clone, Copy)]
pub enum Refusal {
    /// A binary file has fewer than 42 bytes.
    TooShort = 1,
    /// A binary file does not begin with `bplist00`.
    BadHeader = 2,
    /// The trailer of a binary file does not fit the file.
    BadTrailer = 3,
    /// The offset of an object is in the header, or not before the offset table.
    BadOffset = 4,
    /// A reference is not below the number of objects.
    BadReference = 5,
    /// An object extends into the offset table.
    CutObject = 6,
    /// The format has no such marker.
    BadMarker = 7,
    /// An object is a null.
    NullObject = 8,
    /// An object is a UID.
    UidObject = 9,
    /// An object is a set.
    SetObject = 10,
    /// An ASCII string has a byte above 7f.
    NotAscii = 11,
    /// An integer of sixteen bytes does not fit into eight.
    WideInteger = 12,
    /// A key is no string.
    KeyNotText = 13,
    /// Two keys of a dictionary are equal.
    DuplicateKey = 14,
    /// A reference leads back to a container on the path to it.
    Cycle = 15,
    /// The value is deeper than [`MAX_DEPTH`](crate::MAX_DEPTH).
    TooDeep = 16,
    /// The value has more than [`MAX_NODES`](crate::MAX_NODES) nodes.
    TooManyNodes = 17,
    /// The value has more payload than [`MAX_PAYLOAD`](crate::MAX_PAYLOAD).
    TooMuchPayload = 18,
    /// A text is not UTF-8.
    BadUtf8 = 20,
    /// A text begins like an XML property list.
    XmlForm = 21,
    /// No token begins with a character.
    UnexpectedCharacter = 23,
    /// A quoted string has no end.
    UnclosedString = 24,
    /// A comment has no end.
    UnclosedComment = 25,
    /// No hexadecimal digit follows `\U`.
    BadEscape = 26,
    /// An octal escape is above octal 177.
    OctalRange = 27,
    /// A hexadecimal digit of data has no second digit after it.
    OddData = 28,
    /// Data contains another character, or has no end.
    BadData = 29,
    /// Another token was expected, or the text ends too early.
    Expected = 30,
    /// A token follows a complete text.
    Junk = 31,
    /// A text with a byte order mark of UTF-16 is not UTF-16.
    BadUtf16 = 32,
    /// OpenStep text cannot encode the value.
    NotInOpenStep = 40,
    /// A source failed.
    ReadFailed = 50,
    /// A sink failed.
    WriteFailed = 51,
    /// The input is longer than the limit.
    InputTooLarge = 52,
    /// Out of memory.
    OutOfMemory = 60,
}

impl Refusal {
    /// Returns the number, from 1 to 60.
    pub fn number(self) -> u8
        ensures { result ≡ number_of self }
    {
        self as u8
    }

    /// Returns the refusal with the number, if there is one.
    pub fn of_number(number: u8) -> Option<Refusal>
        ensures found { IfSome result (λ refusal. number_of refusal ≡ number) }
        ensures none { result ≡ None → (refusal : Refusal) → number_of refusal ≢ number }
    {
        Some(match number {
            1 => Refusal::TooShort,
            2 => Refusal::BadHeader,
            3 => Refusal::BadTrailer,
            4 => Refusal::BadOffset,
            5 => Refusal::BadReference,
            6 => Refusal::CutObject,
            7 => Refusal::BadMarker,
            8 => Refusal::NullObject,
            9 => Refusal::UidObject,
            10 => Refusal::SetObject,
            11 => Refusal::NotAscii,
            12 => Refusal::WideInteger,
            13 => Refusal::KeyNotText,
            14 => Refusal::DuplicateKey,
            15 => Refusal::Cycle,
            16 => Refusal::TooDeep,
            17 => Refusal::TooManyNodes,
            18 => Refusal::TooMuchPayload,
            20 => Refusal::BadUtf8,
            21 => Refusal::XmlForm,
            23 => Refusal::UnexpectedCharacter,
            24 => Refusal::UnclosedString,
            25 => Refusal::UnclosedComment,
            26 => Refusal::BadEscape,
            27 => Refusal::OctalRange,
            28 => Refusal::OddData,
            29 => Refusal::BadData,
            30 => Refusal::Expected,
            31 => Refusal::Junk,
            32 => Refusal::BadUtf16,
            40 => Refusal::NotInOpenStep,
            50 => Refusal::ReadFailed,
            51 => Refusal::WriteFailed,
            52 => Refusal::InputTooLarge,
            60 => Refusal::OutOfMemory,
            _ => return None,
        })
    }

    /// Returns the name, as it is printed.
    pub fn name(self) -> &'static str
        ensures { result.now ≡ name_of self }
    {
        match self {
            Refusal::TooShort => "TooShort",
            Refusal::BadHeader => "BadHeader",
            Refusal::BadTrailer => "BadTrailer",
            Refusal::BadOffset => "BadOffset",
            Refusal::BadReference => "BadReference",
            Refusal::CutObject => "CutObject",
            Refusal::BadMarker => "BadMarker",
            Refusal::NullObject => "NullObject",
            Refusal::UidObject => "UidObject",
            Refusal::SetObject => "SetObject",
            Refusal::NotAscii => "NotAscii",
            Refusal::WideInteger => "WideInteger",
            Refusal::KeyNotText => "KeyNotText",
            Refusal::DuplicateKey => "DuplicateKey",
            Refusal::Cycle => "Cycle",
            Refusal::TooDeep => "TooDeep",
            Refusal::TooManyNodes => "TooManyNodes",
            Refusal::TooMuchPayload => "TooMuchPayload",
            Refusal::BadUtf8 => "BadUtf8",
            Refusal::XmlForm => "XmlForm",
            Refusal::UnexpectedCharacter => "UnexpectedCharacter",
            Refusal::UnclosedString => "UnclosedString",
            Refusal::UnclosedComment => "UnclosedComment",
            Refusal::BadEscape => "BadEscape",
            Refusal::OctalRange => "OctalRange",
            Refusal::OddData => "OddData",
            Refusal::BadData => "BadData",
            Refusal::Expected => "Expected",
            Refusal::Junk => "Junk",
            Refusal::BadUtf16 => "BadUtf16",
            Refusal::NotInOpenStep => "NotInOpenStep",
            Refusal::ReadFailed => "ReadFailed",
            Refusal::WriteFailed => "WriteFailed",
            Refusal::InputTooLarge => "InputTooLarge",
            Refusal::OutOfMemory => "OutOfMemory",
        }
    }
}

/// The position of a fault.
#[derive(Clone, Copy)]
pub enum Place {
    /// No position.
    Nowhere,
    /// An object of a binary file, by its number.
    Object(u64),
    /// A byte of the input, by its offset.
    Octet(usize),
    /// The number of bytes written before.
    After(u64),
}

/// A refusal with its position. It is printed like `14 DuplicateKey at object 0`, `24
/// UnclosedString at octet 2`, `51 WriteFailed after 10 octets` or `1 TooShort`.
#[derive(Clone, Copy)]
pub struct Report(pub Refusal, pub Place);

impl Report {
    /// Returns whether the refusal occurs with such a position.
    pub fn is_possible(&self) -> bool
        ensures { result ≡ is_possible self.now }
    {
        let number = self.0.number();
        match self.1 {
            Place::Nowhere => matches!(number, 1..=3 | 40 | 50 | 52 | 60),
            Place::Object(_) => matches!(number, 4..=18),
            Place::Octet(_) => matches!(number, 14 | 16..=32),
            Place::After(_) => matches!(number, 51 | 60),
        }
    }
}

impl fmt::Display for Report {
    ghost output = { λ report. Some (report_text report) };

    fn fmt<W: fmt::Write>(&self, f: &mut fmt::Formatter<W>) -> fmt::Result {
        let number = self.0.number();
        let name = self.0.name();
        match self.1 {
            Place::Nowhere => write!(f, "{number} {name}"),
            Place::Object(object) => write!(f, "{number} {name} at object {object}"),
            Place::Octet(octet) => write!(f, "{number} {name} at octet {octet}"),
            Place::After(sent) => write!(f, "{number} {name} after {sent} octets"),
        }
    }
}

/// No two refusals have the same number or the same name.
pub fn refusals_differ()
    ensures numbers { TellsApart number_of }
    ensures names { TellsApart name_of }
{}
