//! Reading whole texts.
ghost use Rattle.std.specs.Prelude.{◌≢◌, IfOk, IfErr};
ghost use Rattle.plist_value.specs.Plist.{Plist};
ghost use Rattle.plist_value.specs.View.{view};
ghost use Rattle.plist_object.specs.Spelled.{IsBinary};
ghost use Rattle.ostep_text.specs.Text.{IsText, IsNoText};
ghost use Rattle.ostep_text.specs.Stands.{Stands};

use crate::TextFault;
use crate::reader::Reader;
use crate::tokens::Tokens;
use ostep_lex::open;
use plist_binary::BinaryFault;
use plist_draft::Draft;
use plist_value::{Budget, Value};
use std::alloc::Global;

/// Reads a text into a binary file of its value. A text is UTF-8, or UTF-16 of either byte order
/// after its BOM. At the top level the braces of a dictionary may be missing, and a text without
/// tokens is the empty dictionary.
///
/// # Errors
///
/// Faults of [`tokens`](ostep_lex::tokens) come first, wherever they are. Otherwise fails with the
/// leftmost of these: a token that cannot occur there, or an early end (`Expected`, `Junk`); a
/// duplicate key (`DuplicateKey`); a node beyond the limits. For one node `TooManyNodes` comes
/// before `TooDeep`, and that before `TooMuchPayload`. Any step may fail with `OutOfMemory`.
pub fn draft_text(alloc: Global, octets: &[u8]) -> Result<Vec<u8>, TextFault>
    // The bytes are a text of the file's value, which is within the limits.
    ensures drafted { IfOk result (λ file.
        (v : Plist) × (IsText octets.now v × IsBinary file.items v)) }
    // The fault is true at its place.
    ensures stands { IfErr result (Stands octets.now) }
    // The bytes are not a text of any value.
    ensures refused { IfErr result (λ fault.
        fault ≢ TextFault.OutOfMemory → IsNoText octets.now) }
{
    crate::laws::faulty_is_no_text();
    let tokens = Tokens {
        alloc,
        cursor: open(octets)?,
        end: octets.len(),
    };
    let draft = Draft::new(alloc)?;
    let mut reader = Reader {
        alloc,
        tokens,
        left: Budget::whole(),
        draft,
    };
    let top = reader.whole()?;
    Ok(reader.draft.finish(top)?)
}

/// Reads a text, and builds its value from the binary file.
///
/// # Errors
///
/// Fails like [`draft_text`].
pub fn read_text(alloc: Global, octets: &[u8]) -> Result<Value, TextFault>
    // The bytes are a text of the value, which is within the limits.
    ensures read { IfOk result (λ value. IsText octets.now (view value)) }
    // The fault is true at its place.
    ensures stands { IfErr result (Stands octets.now) }
    // The bytes are not a text of any value.
    ensures refused { IfErr result (λ fault.
        fault ≢ TextFault.OutOfMemory → IsNoText octets.now) }
{
    plist_object::laws::one_value_at_top();
    let file = draft_text(alloc, octets)?;
    match plist_binary::read(alloc, &file) {
        Ok(value) => Ok(value),
        Err(fault) => match fault {
            BinaryFault::OutOfMemory => Err(TextFault::OutOfMemory),
            _ => unreachable!(),
        },
    }
}
