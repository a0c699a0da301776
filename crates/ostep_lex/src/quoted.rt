//! Unquoted and quoted strings, with their escapes.
ghost use Rattle.std.specs.Prelude.{◌≡◌, ◌==◌, ◌++◌, ◌∷◌, true, false, List, ℕ, OnOk, IfOk};
ghost use Rattle.std.specs.Prelude.{IfErr, codes};
ghost use Rattle.std.specs.Char.Escape.{encode_utf16};
ghost use Rattle.ostep_lex.specs.Digits.{begins_digit};
ghost use Rattle.ostep_lex.specs.Quoted.{escaped};
ghost use Rattle.ostep_lex.specs.Character.{is_quote};
ghost use Rattle.ostep_lex.specs.Stands.{EscapeFault, QuotedFault};
ghost use Rattle.ostep_lex.specs.Cursor.{ahead, offsets_in, SameInput, UnlessMemory};
ghost use Rattle.ostep_lex.specs.Cursor.{PieceAppends};
ghost use Rattle.ostep_lex.specs.Cursor.{PassesQuoted, PassesRun};

use crate::character::is_run;
use crate::cursor::Cursor;
use crate::digits::{begins_digit, number};
use crate::fault::LexFault;
use crate::stretch::Class;
use std::alloc::{AllocError, Global};

/// Returns the units of the unquoted string at the cursor, as long as possible, and the cursor
/// after it.
pub fn run(alloc: Global, cursor: Cursor<'_>) -> Result<(Vec<u16>, Cursor<'_>), AllocError>
    ensures { IfOk result (λ found. PassesRun cursor.entry found.1 found.0.items) }
{
    let mut units = Vec::new(alloc);
    let mut rest = cursor.push_stretch(Class::Run, &mut units)?;
    while let Some((c, after)) = rest.first() {
        if !is_run(c) {
            break;
        }
        units.push(c as u16)?;
        rest = after;
    }
    Ok((units, rest))
}

// The capacity that is reserved when a string has to grow by a character.
const LEAST_ROOM: usize = 32;

// Appends the units of the character.
#[tactic(auto, using(crate::proofs::StretchLemmas::one_unit))]
fn push_character(units: &mut Vec<u16>, c: char) -> Result<(), AllocError>
    ensures { OnOk result (units.new.items ≡ units.old.items ++ encode_utf16 c) }
{
    if units.len() == units.capacity() {
        units.reserve(LEAST_ROOM)?;
    }
    if u32::from(c) < 0xd800 {
        units.push_reserved(c as u16);
        return Ok(());
    }
    let mut buffer = [0; 2];
    units.extend_from_slice(c.encode_utf16(&mut buffer))
}

// Returns the character that an escape of this letter encodes. Any other character encodes itself.
fn escaped_character(c: char) -> char
    ensures { result ≡ escaped c }
{
    match c {
        'a' => '\u{7}',
        'b' => '\u{8}',
        'f' => '\u{c}',
        'n' => '\n',
        'r' => '\r',
        't' => '\t',
        'v' => '\u{b}',
        _ => c,
    }
}

// Appends the unit of an octal escape. `backslash` is the cursor at its backslash, and `digits`
// the cursor at its digits.
fn push_octal<'a>(
    units: &mut Vec<u16>,
    backslash: Cursor<'a>,
    digits: Cursor<'a>,
) -> Result<Cursor<'a>, LexFault>
    requires backslash { ahead backslash ≡ codes "\\" ++ ahead digits }
    requires digits { begins_digit 8 (ahead digits) ≡ true }
    requires input { SameInput backslash digits }
    ensures ok { (mark : ℕ)
        → IfOk result (PieceAppends mark units.old.items units.new.items backslash.entry) }
    ensures err { (start : ℕ) → IfErr result (UnlessMemory
        (EscapeFault (offsets_in backslash.entry) start (ahead backslash.entry))) }
{
    let (value, end) = number(digits, 8, 3);
    if value > 0o177 {
        return Err(LexFault::OctalRange {
            octet: backslash.offset(),
        });
    }
    units.push(value as u16)?;
    Ok(end)
}

// Appends the unit of an escape in hexadecimal digits. `backslash` is the cursor at its backslash,
// and `digits` the cursor after its `U`.
fn push_unit<'a>(
    units: &mut Vec<u16>,
    backslash: Cursor<'a>,
    digits: Cursor<'a>,
) -> Result<Cursor<'a>, LexFault>
    requires backslash { ahead backslash ≡ codes "\\U" ++ ahead digits }
    requires input { SameInput backslash digits }
    ensures ok { (mark : ℕ)
        → IfOk result (PieceAppends mark units.old.items units.new.items backslash.entry) }
    ensures err { (start : ℕ) → IfErr result (UnlessMemory
        (EscapeFault (offsets_in backslash.entry) start (ahead backslash.entry))) }
{
    if !begins_digit(digits, 16) {
        return Err(LexFault::BadEscape {
            octet: backslash.offset(),
        });
    }
    let (value, end) = number(digits, 16, 4);
    units.push(value as u16)?;
    Ok(end)
}

// Appends the units of the escape at the cursor, which is after the backslash. The quote of the
// string is at offset `start`.
fn push_escape<'a>(
    units: &mut Vec<u16>,
    start: usize,
    backslash: Cursor<'a>,
    cursor: Cursor<'a>,
) -> Result<Cursor<'a>, LexFault>
    requires backslash { ahead backslash ≡ codes "\\" ++ ahead cursor }
    requires input { SameInput backslash cursor }
    ensures ok { (mark : ℕ)
        → IfOk result (PieceAppends mark units.old.items units.new.items backslash.entry) }
    ensures err { IfErr result (UnlessMemory
        (EscapeFault (offsets_in backslash.entry) start (ahead backslash.entry))) }
{
    let Some((c, after)) = cursor.first() else {
        return Err(LexFault::UnclosedString { octet: start });
    };
    if c.is_digit(8) {
        return push_octal(units, backslash, cursor);
    }
    if c == 'U' {
        return push_unit(units, backslash, after);
    }
    push_character(units, escaped_character(c))?;
    Ok(after)
}

// Appends the units of the piece at the cursor. The first character is `c`, and `after` is the
// cursor after it.
fn push_piece<'a>(
    units: &mut Vec<u16>,
    start: usize,
    cursor: Cursor<'a>,
    c: char,
    after: Cursor<'a>,
) -> Result<Cursor<'a>, LexFault>
    requires first { ahead cursor ≡ c ∷ ahead after }
    requires input { SameInput cursor after }
    ensures ok { (mark : ℕ) → (c == mark) ≡ false
        → IfOk result (PieceAppends mark units.old.items units.new.items cursor.entry) }
    ensures err { IfErr result (UnlessMemory
        (EscapeFault (offsets_in cursor.entry) start (ahead cursor.entry))) }
{
    if c == '\\' {
        return push_escape(units, start, cursor, after);
    }
    push_character(units, c)?;
    Ok(after)
}

/// Returns the units of the string after its opening quote, which is at offset `start`, and the
/// cursor after the closing quote.
pub fn quoted(
    alloc: Global,
    mark: char,
    start: usize,
    cursor: Cursor<'_>,
) -> Result<(Vec<u16>, Cursor<'_>), LexFault>
    ensures ok { IfOk result (λ found. PassesQuoted mark cursor.entry found.1 found.0.items) }
    ensures err { IfErr result (UnlessMemory
        (QuotedFault (offsets_in cursor.entry) start mark (ahead cursor.entry))) }
{
    let mut units = Vec::new(alloc);
    let mut rest = cursor.push_stretch(Class::Raw(mark), &mut units)?;
    while let Some((c, after)) = rest.first() {
        if c == mark {
            return Ok((units, after));
        }
        let end = push_piece(&mut units, start, rest, c, after)?;
        rest = end.push_stretch(Class::Raw(mark), &mut units)?;
    }
    Err(LexFault::UnclosedString { octet: start })
}
