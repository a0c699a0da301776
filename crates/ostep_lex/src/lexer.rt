//! Reads tokens, one at a time or all of a text.
ghost use Rattle.std.specs.Prelude.{◌≡◌, ℕ, ◌<◌, List, [], ◌∷◌, ◌++◌, false, length};
ghost use Rattle.std.specs.Prelude.{option_map, map, Some, MatchOption, IfSome, IfNone};
ghost use Rattle.std.specs.Prelude.{IfOk, IfErr};
ghost use Rattle.ostep_lex.specs.Gap.{begins_gap};
ghost use Rattle.ostep_lex.specs.Lexeme.{lexeme_of, mark_token, Located, located};
ghost use Rattle.ostep_lex.specs.Lexing.{HasTokens, HasNoTokens};
ghost use Rattle.ostep_lex.specs.Spans.{HasSpans};
ghost use Rattle.ostep_lex.specs.Stands.{FaultAt, LacksMark, StandsInTokens};
ghost use Rattle.ostep_lex.specs.Cursor.{ahead, offsets_in, PassesToken, IsAfter, UnlessMemory};

use crate::character::{is_quote, is_run, is_white};
use crate::cursor::Cursor;
use crate::fault::LexFault;
use crate::gap::gap;
use crate::octets::octets;
use crate::opening::open;
use crate::quoted::{quoted, run};
use crate::token::{Token, TokenKind};
use plist_value::Utf16;
use std::alloc::Global;

// Returns the punctuation token of a character.
fn mark_token(c: char) -> Option<TokenKind>
    ensures { option_map lexeme_of result ≡ mark_token c }
{
    match c {
        '{' => Some(TokenKind::BraceOpen),
        '}' => Some(TokenKind::BraceClose),
        '(' => Some(TokenKind::ParenOpen),
        ')' => Some(TokenKind::ParenClose),
        ',' => Some(TokenKind::Comma),
        ';' => Some(TokenKind::Semicolon),
        '=' => Some(TokenKind::Equals),
        _ => None,
    }
}

// Returns the token at the cursor and the cursor after it, or `None` at the end. There is no gap
// at the cursor.
fn token_here(
    alloc: Global,
    cursor: Cursor<'_>,
) -> Result<Option<(TokenKind, Cursor<'_>)>, LexFault>
    requires { begins_gap (ahead cursor) ≡ false }
    ensures ok { IfOk result (λ found. MatchOption found (ahead cursor.entry ≡ [])
        (λ token. PassesToken (lexeme_of token.0) cursor.entry token.1)) }
    ensures err { IfErr result (UnlessMemory
        (FaultAt (offsets_in cursor.entry) (ahead cursor.entry))) }
{
    let Some((c, after)) = cursor.first() else {
        return Ok(None);
    };
    if let Some(kind) = mark_token(c) {
        return Ok(Some((kind, after)));
    }
    if is_run(c) {
        let (units, end) = run(alloc, cursor)?;
        return Ok(Some((TokenKind::Text(Utf16::from_units(units)), end)));
    }
    if is_quote(c) {
        let (units, end) = quoted(alloc, c, cursor.offset(), after)?;
        return Ok(Some((TokenKind::Text(Utf16::from_units(units)), end)));
    }
    if c == '<' {
        let (octets, end) = octets(alloc, after)?;
        return Ok(Some((TokenKind::Octets(octets), end)));
    }
    Err(LexFault::UnexpectedCharacter {
        octet: cursor.offset(),
    })
}

/// Returns the next token, after whitespace and comments, and the cursor after it. Returns `None`
/// at the end of the input.
#[inline(never)]
pub fn next_token(
    alloc: Global,
    cursor: Cursor<'_>,
) -> Result<Option<(Token, Cursor<'_>)>, LexFault>
    // If the cursor is after tokens of an input, these are all of its tokens, or there is one more.
    ensures ok { (octets : List ℕ) (tokens : List Located) → IsAfter octets tokens cursor.entry
        → IfOk result (λ found. MatchOption found (HasTokens octets tokens)
        (λ token. IsAfter octets (tokens ++ located token.0 ∷ []) token.1)) }
    // Each token has at least one character.
    ensures shorter { IfOk result (λ found.
        IfSome found (λ token. length (ahead token.1) < length (ahead cursor.entry))) }
    // The fault is true of that input, which has no tokens.
    ensures stands { (octets : List ℕ) (tokens : List Located)
        → IsAfter octets tokens cursor.entry → IfErr result (StandsInTokens octets) }
    ensures refused { (octets : List ℕ) (tokens : List Located)
        → IsAfter octets tokens cursor.entry
        → IfErr result (UnlessMemory (λ fault. HasNoTokens octets)) }
{
    let start = gap(cursor)?;
    match token_here(alloc, start)? {
        Some((kind, end)) => Ok(Some((
            Token {
                kind,
                start: start.offset(),
                end: end.offset(),
            },
            end,
        ))),
        None => Ok(None),
    }
}

/// Returns the token of this punctuation mark and the cursor after it, if it is the next token and
/// only whitespace precedes it. Is faster than `next_token`.
#[inline(always)]
pub fn next_mark(cursor: Cursor<'_>, mark: char) -> Option<(Token, Cursor<'_>)>
    // If the cursor is after tokens of an input, this is one more.
    ensures some { (octets : List ℕ) (tokens : List Located)
        → IsAfter octets tokens cursor.entry
        → IfSome result (λ token. IsAfter octets (tokens ++ located token.0 ∷ []) token.1) }
    // It is that mark, and has at least one character.
    ensures kind { IfSome result (λ token.
        mark_token mark ≡ Some (lexeme_of token.0.kind)) }
    ensures shorter { IfSome result (λ token.
        length (ahead token.1) < length (ahead cursor.entry)) }
    // No such mark follows whitespace.
    ensures none { IfNone result (LacksMark mark (ahead cursor.entry)) }
{
    let mut rest = cursor;
    while let Some((c, after)) = rest.first() {
        if c == mark {
            let kind = mark_token(mark)?;
            let token = Token {
                kind,
                start: rest.offset(),
                end: after.offset(),
            };
            return Some((token, after));
        }
        if !is_white(c) {
            break;
        }
        rest = after;
    }
    None
}

/// Returns the tokens of a text, in order. Offsets are those in the input, byte order mark
/// included.
///
/// # Errors
///
/// `BadUtf8` or `BadUtf16` if the bytes are not a text. Otherwise `XmlForm` if it begins like an
/// XML property list, and otherwise the first fault from the left. `OutOfMemory` at any time.
pub fn tokens(alloc: Global, octets: &[u8]) -> Result<Vec<Token>, LexFault>
    // The bytes are those of a text with these tokens, at these offsets.
    ensures ok { IfOk result (λ tokens. HasTokens octets.now (map located tokens.items)) }
    // They follow one another, with gaps before, between and after them; each span encodes its
    // token.
    ensures spans { IfOk result (λ tokens. HasSpans octets.now (map located tokens.items)) }
    // The fault is true of the bytes.
    ensures stands { IfErr result (StandsInTokens octets.now) }
    ensures refused { IfErr result (UnlessMemory (λ fault. HasNoTokens octets.now)) }
{
    let mut found = Vec::new(alloc);
    let mut rest = open(octets)?;
    while let Some((token, after)) = next_token(alloc, rest)? {
        found.push(token)?;
        rest = after;
    }
    Ok(found)
}
