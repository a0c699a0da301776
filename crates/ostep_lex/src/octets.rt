//! Data tokens.
ghost use Rattle.std.specs.Prelude.{◌≡◌, ◌≢◌, ◌∷◌, false, MatchOption, IfOk, IfErr};
ghost use Rattle.ostep_lex.specs.Digits.{begins_digit};
ghost use Rattle.ostep_lex.specs.Stands.{OctetsFault};
ghost use Rattle.ostep_lex.specs.Cursor.{ahead, offsets_in, SameInput, UnlessMemory};
ghost use Rattle.ostep_lex.specs.Cursor.{PassesDigit, OctetsAppends, PassesOctets};

use crate::character::is_white;
use crate::cursor::Cursor;
use crate::fault::LexFault;
use std::alloc::Global;

// Returns the value of the hexadecimal digit at the cursor, and the cursor after it.
fn digit(cursor: Cursor<'_>) -> Option<(u32, Cursor<'_>)>
    ensures { MatchOption result (begins_digit 16 (ahead cursor.entry) ≡ false)
        (λ found. PassesDigit found.0 cursor.entry found.1) }
{
    let (c, after) = cursor.first()?;
    Some((c.to_digit(16)?, after))
}

// Skips whitespace, or appends the byte of two hexadecimal digits. The first character is `c`, and
// `after` is the cursor after it.
fn push_octet<'a>(
    octets: &mut Vec<u8>,
    cursor: Cursor<'a>,
    c: char,
    after: Cursor<'a>,
) -> Result<Cursor<'a>, LexFault>
    requires first { ahead cursor ≡ c ∷ ahead after }
    requires open { c ≢ 62 }
    requires input { SameInput cursor after }
    ensures ok { IfOk result (OctetsAppends octets.old.items octets.new.items cursor.entry) }
    ensures err { IfErr result (UnlessMemory
        (OctetsFault (offsets_in cursor.entry) (ahead cursor.entry))) }
{
    if is_white(c) {
        return Ok(after);
    }
    let Some((high, second)) = digit(cursor) else {
        return Err(LexFault::BadData {
            octet: cursor.offset(),
        });
    };
    let Some((low, end)) = digit(second) else {
        return Err(LexFault::OddData {
            octet: cursor.offset(),
        });
    };
    octets.push((high * 16 + low) as u8)?;
    Ok(end)
}

/// Returns the bytes of a data token, after its `<`, and the cursor after its `>`.
pub fn octets(alloc: Global, cursor: Cursor<'_>) -> Result<(Vec<u8>, Cursor<'_>), LexFault>
    ensures ok { IfOk result (λ found. PassesOctets cursor.entry found.1 found.0.items) }
    ensures err { IfErr result (UnlessMemory
        (OctetsFault (offsets_in cursor.entry) (ahead cursor.entry))) }
{
    let mut octets = Vec::new(alloc);
    let mut rest = cursor;
    while let Some((c, after)) = rest.first() {
        if c == '>' {
            return Ok((octets, after));
        }
        rest = push_octet(&mut octets, rest, c, after)?;
    }
    Err(LexFault::BadData {
        octet: rest.offset(),
    })
}
