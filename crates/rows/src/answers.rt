//! Answering rows.
ghost use Rattle.std.specs.Prelude.{◌<◌};
ghost use Rattle.plist_object.specs.Layout.{trailer_of};
ghost use Rattle.plist_object.specs.Views.{octets_of};

use crate::octets::shown;
use crate::row::{Question, Row};
use crate::several::answer_several;
use crate::values::answer_value;
use ostep_lex::{Token, TokenKind, open, tokens};
use plist_devices::ListSink;
use plist_explain::explanation;
use plist_forms::{judge_any, print, read_any};
use plist_object::{BinFile, Object, Refs};
use plist_value::Utf16;
use std::alloc::{AllocError, Global};
use std::fmt::Write;

// The maximum number of bytes of a printed text.
const ROOM: usize = 65_536;

// Returns the line that answers the row.
pub(crate) fn answer(alloc: Global, row: &Row) -> Result<String, AllocError> {
    let octets = row.octets();
    match row.question {
        Question::Value => answer_value(alloc, row.name, octets),
        Question::Print => answer_print(alloc, row.name, octets),
        Question::Layout => answer_layout(alloc, row.name, octets),
        Question::Tokens => answer_tokens(alloc, row.name, octets),
        Question::Fronts => answer_fronts(alloc, row.name, octets),
        Question::Lint => answer_several(alloc, "lint", row),
        Question::Check => answer_several(alloc, "check", row),
        Question::Topic => answer_topic(alloc, row.name, octets),
    }
}

// What is explained: the beginning of the explanation.
fn answer_topic(alloc: Global, name: &str, octets: &[u8]) -> Result<String, AllocError> {
    let Ok(text) = str::from_utf8(octets) else {
        return format!(in alloc; "{name}: not UTF-8");
    };
    let Some(text) = explanation(alloc, text)? else {
        return format!(in alloc; "{name}: nothing");
    };
    match text.split_once(':') {
        Some((label, _)) => format!(in alloc; "{name}: {label}"),
        None => format!(in alloc; "{name}: {text}"),
    }
}

fn answer_print(alloc: Global, name: &str, octets: &[u8]) -> Result<String, AllocError> {
    let mut sink = ListSink::new(alloc, ROOM, ROOM)?;
    match print(alloc, octets, &mut sink) {
        Ok(_) => format!(in alloc; "{name}: {}", shown(sink.taken())),
        Err(fault) => format!(in alloc; "{name}: refused {fault} ({})", fault.code()),
    }
}

// The trailer, followed by each object: where it begins and ends, whether it has its shortest
// encoding, and its references.
fn answer_layout(alloc: Global, name: &str, octets: &[u8]) -> Result<String, AllocError> {
    let file = match BinFile::of(octets) {
        Ok(file) => file,
        Err(fault) => return format!(in alloc; "{name}: refused {fault} ({})", fault.code()),
    };
    let widths = [file.offset_width(), file.reference_width()];
    let mut line = format!(in alloc;
        "{name}: {} objects, top {}, table {}, widths {widths:?}, slack {}",
        file.count(),
        file.top(),
        file.table(),
        shown(&file.slack()),
    )?;
    for number in 0..file.count() {
        put_object(&mut line, &file, number)?;
    }
    Ok(line)
}

fn put_object(line: &mut String, file: &BinFile, number: u64) -> Result<(), AllocError>
    requires { number < (trailer_of (octets_of file.now)).count }
{
    match file.span(number) {
        Ok((start, end)) => write!(line, "; {start}..{end}")?,
        Err(fault) => write!(line, "; {} refused {fault}", file.place(number))?,
    }
    match file.is_shortest(number) {
        Ok(true) => write!(line, " shortest")?,
        Ok(false) => write!(line, " longer")?,
        Err(fault) => write!(line, " ({})", fault.code())?,
    }
    match file.object(number) {
        Ok(Object::Scalar(_)) => write!(line, " scalar"),
        Ok(Object::List(items)) => {
            write!(line, " list")?;
            put_references(line, items)
        }
        Ok(Object::Table(keys, values)) => {
            write!(line, " table")?;
            put_references(line, keys)?;
            write!(line, " to")?;
            put_references(line, values)
        }
        Err(fault) => write!(line, " {fault}"),
    }
}

fn put_references(line: &mut String, references: Refs) -> Result<(), AllocError> {
    if references.is_empty() {
        write!(line, " none")?;
    }
    for i in 0..references.len() {
        write!(line, " {}", references.get(i))?;
    }
    Ok(())
}

// Returns a line with the offset of the text after a byte order mark, and for each token its first
// offset, the offset after it, and its content.
fn answer_tokens(alloc: Global, name: &str, octets: &[u8]) -> Result<String, AllocError> {
    let found = match tokens(alloc, octets) {
        Ok(found) => found,
        Err(fault) => return format!(in alloc; "{name}: refused {fault} ({})", fault.code()),
    };
    let start = open(octets).map_or(0, |cursor| cursor.offset());
    let mut line = format!(in alloc; "{name}: from {start}")?;
    for token in &found {
        put_token(&mut line, token)?;
    }
    Ok(line)
}

fn put_token(line: &mut String, token: &Token) -> Result<(), AllocError> {
    write!(line, "; {}..{} ", token.start, token.end)?;
    match &token.kind {
        TokenKind::BraceOpen => write!(line, "{{"),
        TokenKind::BraceClose => write!(line, "}}"),
        TokenKind::ParenOpen => write!(line, "("),
        TokenKind::ParenClose => write!(line, ")"),
        TokenKind::Comma => write!(line, ","),
        TokenKind::Semicolon => write!(line, ";"),
        TokenKind::Equals => write!(line, "="),
        TokenKind::Text(text) => put_units(line, text),
        TokenKind::Octets(octets) => write!(line, "<{}>", shown(octets.as_slice())),
    }
}

// Writes the units of a string: printable ASCII unchanged, every other unit as four digits.
fn put_units(line: &mut String, text: &Utf16) -> Result<(), AllocError> {
    write!(line, "\"")?;
    for unit in text.units() {
        match u8::try_from(*unit) {
            Ok(octet) if octet.is_ascii_graphic() => write!(line, "{}", char::from(octet))?,
            _ => write!(line, "\\U{unit:04x}")?,
        }
    }
    write!(line, "\"")
}

// How each prefix is refused, from the empty one to the whole: each answer with the length from
// which on it holds.
fn answer_fronts(alloc: Global, name: &str, octets: &[u8]) -> Result<String, AllocError> {
    let mut line = format!(in alloc; "{name}:")?;
    let mut last = None;
    for length in 0..=octets.len() {
        let answer = judge_any(alloc, &octets[..length]).err();
        if read_any(alloc, &octets[..length]).err() != answer {
            write!(line, " {length} is judged and read otherwise;")?;
        }
        if last != Some(answer) {
            match answer {
                Some(fault) => write!(line, " {length} refused {fault};")?,
                None => write!(line, " {length} accepted;")?,
            }
            last = Some(answer);
        }
    }
    Ok(line)
}
