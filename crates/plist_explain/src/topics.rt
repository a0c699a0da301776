//! What can be explained, and the words that name it.
ghost use Rattle.std.specs.Prelude.{◌≡◌, Some};
ghost use Rattle.std.specs.Str.{bytes_eq, str_eq_ignore_ascii_case};
ghost use Rattle.std.specs.Fmt.{decimal};
ghost use Rattle.plist_explain.specs.Topics.{is_named, label, without_colon};

use itoa::Buffer;
use plist_value::Refusal;
use std::fmt;

/// A refusal, or a rule of canonical files by its number. Printed like `14 DuplicateKey` or `C5`.
#[derive(Clone, Copy)]
pub enum Subject {
    Refusal(Refusal),
    Rule(u8),
}

/// A subject, its meaning in less than a line, and its explanation: the meaning in full, an
/// example, and what to do.
pub type Topic = (Subject, &'static str, &'static str);

impl Subject {
    /// Returns whether the word names the subject. `14` and `DuplicateKey` name a refusal, `C5` and
    /// `C5:` a rule; letters may be in any case.
    pub fn is_named(self, word: &str) -> bool
        ensures { result ≡ is_named self word.now }
    {
        match self {
            Subject::Refusal(refusal) => {
                is_name(word, refusal.name()) || is_number(word.as_bytes(), refusal.number())
            }
            Subject::Rule(rule) => match without_colon(word.as_bytes()) {
                [b'C' | b'c', digits @ ..] => is_number(digits, rule),
                _ => false,
            },
        }
    }
}

impl fmt::Display for Subject {
    ghost output = { λ subject. Some (label subject) };

    fn fmt<W: fmt::Write>(&self, f: &mut fmt::Formatter<W>) -> fmt::Result {
        match *self {
            Subject::Refusal(refusal) => write!(f, "{} {}", refusal.number(), refusal.name()),
            Subject::Rule(rule) => write!(f, "C{rule}"),
        }
    }
}

// Returns the word without the colon at its end, if it has one, as in the lines of the list.
fn without_colon(word: &[u8]) -> &[u8]
    ensures { result.now ≡ without_colon word.now }
{
    match word {
        [front @ .., b':'] => front,
        _ => word,
    }
}

// Returns whether the word is the name, in any case.
fn is_name(word: &str, name: &str) -> bool
    ensures { result ≡ str_eq_ignore_ascii_case word.now name.now }
{
    word.eq_ignore_ascii_case(name)
}

// Returns whether the bytes are the decimal digits of the number.
fn is_number(digits: &[u8], number: u8) -> bool
    ensures { result ≡ bytes_eq digits.now (decimal number) }
{
    let mut buffer = Buffer::new();
    digits == buffer.format(number).as_bytes()
}
