//! The strings of keys.
ghost use Rattle.std.specs.Prelude.{IfOk, IfSome};
ghost use Rattle.plist_value.specs.Plist.{text};
ghost use Rattle.plist_value.specs.Texts.{units_of};
ghost use Rattle.plist_object.specs.Objects.{holds_scalar};
ghost use Rattle.plist_object.specs.Places.{Holds, HoldsText};
ghost use Rattle.plist_object.specs.Views.{numbers_of, octets_of};
ghost use Rattle.plist_keys.specs.Order.{NameTexts};
ghost use Rattle.plist_keys.specs.KeyOrder.{AreTexts};

use plist_object::{BinFile, Refs};
use plist_value::TextRef;
use std::alloc::{AllocError, Global};

/// Returns the string that an object contains.
pub fn text_of<'a>(file: &BinFile<'a>, n: u64) -> TextRef<'a>
    requires { HoldsText (octets_of file.now) n }
    ensures { Holds (octets_of file.now) n (holds_scalar (text (units_of result))) }
{
    file.text(n).unwrap()
}

// Returns the strings of the keys.
pub(crate) fn texts_of<'a>(
    alloc: Global,
    file: &BinFile<'a>,
    keys: &Refs,
) -> Result<Vec<TextRef<'a>>, AllocError>
    requires { NameTexts (octets_of file.now) (numbers_of keys.now) }
    ensures { IfOk result (λ texts. AreTexts (octets_of file.now) (numbers_of keys.now)
        texts.items) }
{
    let mut texts = Vec::with_capacity(alloc, keys.len() as usize)?;
    for index in 0..keys.len() {
        texts.push(text_of(file, keys.get(index)))?;
    }
    Ok(texts)
}

// Returns the strings of the keys and what is left of this number of units, or `None` if they have
// more. The strings after that are not decoded, so that a long string that is a key many times
// costs little.
pub(crate) fn texts_within<'a>(
    alloc: Global,
    file: &BinFile<'a>,
    keys: &Refs,
    left: u64,
) -> Result<Option<(Vec<TextRef<'a>>, u64)>, AllocError>
    requires { NameTexts (octets_of file.now) (numbers_of keys.now) }
    ensures { IfOk result (λ found. IfSome found (λ within. AreTexts (octets_of file.now)
        (numbers_of keys.now) within.0.items)) }
{
    let mut rest = left;
    let mut texts = Vec::with_capacity(alloc, keys.len() as usize)?;
    for index in 0..keys.len() {
        let text = text_of(file, keys.get(index));
        rest = match rest.checked_sub(text.len() as u64) {
            Some(rest) => rest,
            None => return Ok(None),
        };
        texts.push(text)?;
    }
    Ok(Some((texts, rest)))
}
