//! Escapes in quoted strings.
ghost use Rattle.std.specs.Prelude.{◌≡◌, ◌++◌, OnOk};
ghost use Rattle.plist_value.specs.Escapes.{is_literal, literal_run, quoted_unit};

use crate::digits_of;
use std::alloc::AllocError;

// The maximum number of bytes in a run.
const RUN: usize = 4096;

/// Returns the bytes before the first that needs an escape between quotes, at most 4,096.
pub fn literal_run(octets: &[u8]) -> &[u8]
    ensures { result.now ≡ literal_run octets.entry.now }
{
    let first = &octets[..RUN.min(octets.len())];
    let mut length = 0;
    while length < first.len() && is_literal(first[length]) {
        length += 1;
    }
    &first[..length]
}

// Returns whether the byte needs no escape between quotes.
fn is_literal(octet: u8) -> bool
    ensures { result ≡ is_literal octet }
{
    matches!(octet, 0x20..=0x7e) && octet != b'"' && octet != b'\\'
}

/// Appends a UTF-16 unit of a string to `out`, as it is between quotes: unchanged if it is
/// printable ASCII that needs no escape, and otherwise an escape.
///
/// # Errors
///
/// [`AllocError`] if out of memory.
pub fn put_quoted_unit(out: &mut Vec<u8>, unit: u16) -> Result<(), AllocError>
    ensures { OnOk result (out.new.items ≡ out.old.items ++ quoted_unit unit) }
{
    match unit {
        0x22 => out.extend_from_slice(b"\\\""),
        0x5c => out.extend_from_slice(b"\\\\"),
        0x0a => out.extend_from_slice(b"\\n"),
        0x09 => out.extend_from_slice(b"\\t"),
        0x0d => out.extend_from_slice(b"\\r"),
        0x20..=0x7e => Ok(out.push(unit as u8)?),
        _ => {
            out.extend_from_slice(b"\\U")?;
            out.extend_from_slice(&digits_of((unit / 256) as u8))?;
            out.extend_from_slice(&digits_of((unit % 256) as u8))
        }
    }
}
