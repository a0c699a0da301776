//! Strings of ASCII characters without escapes, borrowed from the input.
ghost use Rattle.std.specs.Prelude.{◌<◌, ◌∷◌, ◌++◌, [], ℕ, List, IfSome, length};
ghost use Rattle.plist_value.specs.Plist.{AreUnits};
ghost use Rattle.plist_value.specs.Texts.{units_of};
ghost use Rattle.ostep_lex.specs.Lexeme.{Located, placed_plain, text as string};
ghost use Rattle.ostep_lex.specs.Cursor.{ahead, IsAfter};
ghost use Rattle.ostep_lex.specs.Cursor.{PassesQuoted, PassesRun, PassesToken};

use crate::character::{is_quote, is_run};
use crate::cursor::Cursor;
use crate::gap::gap;
use crate::stretch::Class;
use crate::token::PlainToken;
use plist_value::TextRef;

// Returns the bytes of the unquoted string at the cursor, and the cursor after it.
#[inline(always)]
fn plain_run(cursor: Cursor<'_>) -> Option<(&[u8], Cursor<'_>)>
    ensures { IfSome result (λ found. PassesRun cursor.entry found.1 found.0.now) }
{
    let (octets, after) = cursor.plain_stretch(Class::Run)?;
    match after.first() {
        Some((c, _)) if is_run(c) => None,
        _ => Some((octets, after)),
    }
}

// Returns the bytes of the string after its quote, if it has no escapes, and the cursor after the
// closing quote.
#[inline(always)]
fn plain_quoted(mark: char, cursor: Cursor<'_>) -> Option<(&[u8], Cursor<'_>)>
    ensures { IfSome result (λ found. PassesQuoted mark cursor.entry found.1 found.0.now) }
{
    let (octets, after) = cursor.plain_stretch(Class::Raw(mark))?;
    let end = after.after(mark)?;
    Some((octets, end))
}

// Returns the bytes of the string at the cursor, and the cursor after it.
#[inline(always)]
fn plain_here(cursor: Cursor<'_>) -> Option<(&[u8], Cursor<'_>)>
    ensures { IfSome result (λ found. PassesToken (string found.0.now) cursor.entry found.1) }
{
    let (c, after) = cursor.first()?;
    if is_quote(c) {
        plain_quoted(c, after)
    } else if is_run(c) && c != '/' {
        plain_run(cursor)
    } else {
        None
    }
}

/// Returns the next token and the cursor after it, if it is a string of ASCII characters without
/// escapes, in UTF-8. The string is not copied, so this is faster than `next_token`. `None` is only
/// a hint; `next_token` then reads the token, which may be a string that begins with `/`.
#[inline(always)]
pub fn next_plain(cursor: Cursor<'_>) -> Option<(PlainToken<'_>, Cursor<'_>)>
    // If the cursor is after tokens of an input, this is one more.
    ensures some { (octets : List ℕ) (tokens : List Located)
        → IsAfter octets tokens cursor.entry
        → IfSome result (λ token.
        IsAfter octets (tokens ++ placed_plain token.0 ∷ []) token.1) }
    ensures valid { IfSome result (λ token. AreUnits (units_of token.0.text)) }
    // It has at least one character.
    ensures shorter { IfSome result (λ token.
        length (ahead token.1) < length (ahead cursor.entry)) }
{
    if !cursor.is_utf8() {
        return None;
    }
    let Ok(start) = gap(cursor) else {
        return None;
    };
    let (octets, end) = plain_here(start)?;
    let text = TextRef::of_ascii(octets)?;
    let token = PlainToken {
        text,
        start: start.offset(),
        end: end.offset(),
    };
    Some((token, end))
}
