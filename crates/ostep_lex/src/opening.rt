//! Opens an input: determines its encoding, and refuses XML property lists.
ghost use Rattle.std.specs.Prelude.{◌≡◌, ℕ, [], false, nat_eq, IfOk, IfErr};
ghost use Rattle.std.specs.List.{starts_with};
ghost use Rattle.ostep_lex.specs.Lexing.{HasNoTokens};
ghost use Rattle.ostep_lex.specs.Stands.{HasXml, StandsInTokens, White, begins_white, begins_xml};
ghost use Rattle.ostep_lex.specs.Cursor.{ahead, SameInput, Opens, IsAfter};

use crate::character::is_white;
use crate::cursor::Cursor;
use crate::fault::LexFault;
use crate::remaining::ByteOrder;

const BIG_MARK: [u8; 2] = [0xfe, 0xff];

const LITTLE_MARK: [u8; 2] = [0xff, 0xfe];

const UTF8_MARK: [u8; 3] = [0xef, 0xbb, 0xbf];

// Returns the cursor at the start of the text. Its byte order mark determines the encoding.
fn text_of(octets: &[u8]) -> Result<Cursor<'_>, LexFault>
    ensures ok { IfOk result (Opens octets.now) }
    ensures err { IfErr result (StandsInTokens octets.now) }
    ensures memory { IfErr result (λ fault. ¬ (fault ≡ LexFault.OutOfMemory)) }
{
    let end = octets.len();
    if octets.starts_with(&BIG_MARK) {
        Cursor::of_utf16(ByteOrder::Big, &octets[2..], end)
    } else if octets.starts_with(&LITTLE_MARK) {
        Cursor::of_utf16(ByteOrder::Little, &octets[2..], end)
    } else if octets.starts_with(&UTF8_MARK) {
        Cursor::of_utf8(&octets[3..], end)
    } else {
        Cursor::of_utf8(octets, end)
    }
}

// Returns the cursor after all whitespace.
fn after_white(cursor: Cursor<'_>) -> Cursor<'_>
    ensures white { White (ahead cursor.entry) (ahead result) }
    ensures all { begins_white (ahead result) ≡ false }
    ensures input { SameInput cursor.entry result }
{
    let mut rest = cursor;
    while let Some((c, after)) = rest.first() {
        if !is_white(c) {
            break;
        }
        rest = after;
    }
    rest
}

// Returns whether the ASCII word is at the cursor.
fn begins_with(cursor: Cursor<'_>, word: &[u8]) -> bool
    ensures { result ≡ starts_with nat_eq (ahead cursor.entry) word.now }
{
    let mut rest = cursor;
    for octet in word {
        let Some(after) = rest.after(char::from(*octet)) else {
            return false;
        };
        rest = after;
    }
    true
}

// Returns whether an XML property list begins at the cursor.
fn begins_xml(cursor: Cursor<'_>) -> bool
    ensures { result ≡ begins_xml (ahead cursor.entry) }
{
    begins_with(cursor, b"<?xml")
        || begins_with(cursor, b"<!DOCTYPE")
        || begins_with(cursor, b"<plist")
}

/// Returns the cursor at the start of the text: UTF-8, or UTF-16 after its byte order mark.
/// Allocates nothing.
///
/// # Errors
///
/// `BadUtf8` or `BadUtf16` if the bytes are not a text. Otherwise `XmlForm` if the text begins,
/// after whitespace, with `<?xml`, `<!DOCTYPE` or `<plist`.
pub fn open(octets: &[u8]) -> Result<Cursor<'_>, LexFault>
    ensures ok { IfOk result (IsAfter octets.now []) }
    ensures other { IfOk result (λ _. (at : ℕ) → ¬ HasXml octets.now at) }
    ensures stands { IfErr result (StandsInTokens octets.now) }
    // There are no tokens. This is true of every refusal, since none is out of memory.
    ensures refused { IfErr result (λ fault. HasNoTokens octets.now) }
{
    let cursor = text_of(octets)?;
    let text = after_white(cursor);
    if begins_xml(text) {
        return Err(LexFault::XmlForm {
            octet: text.offset(),
        });
    }
    Ok(cursor)
}
