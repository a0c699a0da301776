//! Whitespace and comments between tokens.
ghost use Rattle.std.specs.Prelude.{◌≡◌, false, ◌++◌, codes, MatchOption, IfOk, IfErr};
ghost use Rattle.ostep_lex.specs.Gap.{LineComment, BlockComment, NeverCloses};
ghost use Rattle.ostep_lex.specs.Gap.{closes_comment, begins_gap};
ghost use Rattle.ostep_lex.specs.Stands.{FaultAt, FaultAfterGap};
ghost use Rattle.ostep_lex.specs.Cursor.{ahead, offsets_in, SameInput, PassesPiece, PassesGap};

use crate::character::{is_line_end, is_white};
use crate::cursor::Cursor;
use crate::fault::LexFault;
use crate::stretch::Class;

// Takes the cursor after `//`. Returns the cursor at the line end, or at the end of the text.
fn line_comment(cursor: Cursor<'_>) -> Cursor<'_>
    ensures comment { LineComment (ahead cursor.entry) (ahead result) }
    ensures input { SameInput cursor.entry result }
{
    let mut rest = cursor.after_stretch(Class::Line);
    while let Some((c, after)) = rest.first() {
        if is_line_end(c) {
            break;
        }
        rest = after.after_stretch(Class::Line);
    }
    rest
}

// Returns the cursor after `*/`, if it is at the cursor.
fn comment_end(cursor: Cursor<'_>) -> Option<Cursor<'_>>
    ensures { MatchOption result (closes_comment (ahead cursor.entry) ≡ false) (λ end.
        (ahead cursor.entry ≡ codes "*/" ++ ahead end) × SameInput cursor.entry end) }
{
    cursor.after('*')?.after('/')
}

// Takes the cursor after `/*`. Returns the cursor after the first `*/`, or `None` if there is no
// `*/`.
fn block_comment(cursor: Cursor<'_>) -> Option<Cursor<'_>>
    ensures { MatchOption result (NeverCloses (ahead cursor.entry)) (λ end.
        BlockComment (ahead cursor.entry) (ahead end) × SameInput cursor.entry end) }
{
    let mut rest = cursor.after_stretch(Class::Starless);
    while let Some((_, after)) = rest.first() {
        if let Some(end) = comment_end(rest) {
            return Some(end);
        }
        rest = after.after_stretch(Class::Starless);
    }
    None
}

// Returns the cursor after the comment at the cursor, or `None` if there is no comment. `slash` is
// the cursor after the first slash.
fn comment<'a>(cursor: Cursor<'a>, slash: Cursor<'a>) -> Result<Option<Cursor<'a>>, LexFault>
    requires slash { ahead cursor ≡ codes "/" ++ ahead slash }
    requires input { SameInput cursor slash }
    ensures ok { IfOk result (λ found.
        MatchOption found (begins_gap (ahead cursor.entry) ≡ false) (PassesPiece cursor.entry)) }
    ensures err { IfErr result (FaultAt (offsets_in cursor.entry) (ahead cursor.entry)) }
{
    if let Some(text) = slash.after('/') {
        return Ok(Some(line_comment(text)));
    }
    let Some(text) = slash.after('*') else {
        return Ok(None);
    };
    match block_comment(text) {
        Some(end) => Ok(Some(end)),
        None => Err(LexFault::UnclosedComment {
            octet: cursor.offset(),
        }),
    }
}

// Returns the cursor after the whitespace character or the comment at the cursor, or `None` if
// there is neither.
#[inline(always)]
fn gap_piece(cursor: Cursor<'_>) -> Result<Option<Cursor<'_>>, LexFault>
    ensures ok { IfOk result (λ found.
        MatchOption found (begins_gap (ahead cursor.entry) ≡ false) (PassesPiece cursor.entry)) }
    ensures err { IfErr result (FaultAt (offsets_in cursor.entry) (ahead cursor.entry)) }
{
    let Some((c, after)) = cursor.first() else {
        return Ok(None);
    };
    if c == '/' {
        comment(cursor, after)
    } else if is_white(c) {
        Ok(Some(after))
    } else {
        Ok(None)
    }
}

/// Returns the cursor after all whitespace and comments.
#[inline(always)]
pub fn gap(cursor: Cursor<'_>) -> Result<Cursor<'_>, LexFault>
    ensures ok { IfOk result (PassesGap cursor.entry) }
    ensures err { IfErr result (FaultAfterGap (offsets_in cursor.entry) (ahead cursor.entry)) }
{
    let mut rest = cursor.after_stretch(Class::White);
    while let Some(after) = gap_piece(rest)? {
        rest = after.after_stretch(Class::White);
    }
    Ok(rest)
}
