//! Appends values to a draft.
ghost use Rattle.std.specs.Prelude.{◌≡◌, IfOk, OnOk, length};
ghost use Rattle.std.specs.List.{zip};
ghost use Rattle.plist_value.specs.Plist.{AreItems, ArePairs, IsPlist, list, table};
ghost use Rattle.plist_value.specs.View.{view, view_items, view_pairs};
ghost use Rattle.plist_draft.specs.Encoded.{Keeps, SpellsIn, SpellItemsIn, SpellPairsIn};
ghost use Rattle.plist_draft.specs.View.{objects};

use crate::Draft;
use plist_value::{ScalarRef, TextRef, Utf16, Value};
use std::alloc::{AllocError, Global};
use std::collections::BTreeMap;

/// Appends the value and returns the number of its object. Arrays and dictionaries follow their
/// contents. Each value gets its own object, even if values are equal.
///
/// # Errors
///
/// [`AllocError`] if out of memory, or if the draft refuses one of the objects. Objects appended
/// before the failure stay in the draft.
#[cycle(values)]
pub fn put_value(alloc: Global, draft: &mut Draft, value: &Value) -> Result<u32, AllocError>
    ensures spells { IfOk result
        (λ number. SpellsIn (objects draft.new) number (view value.now)) }
    ensures valid { OnOk result (IsPlist (view value.now)) }
    ensures kept { Keeps (objects draft.old) (objects draft.new) }
{
    match value {
        Value::List(items) => {
            let items = put_items(alloc, draft, items)?;
            draft.put_list(&items)
        }
        Value::Table(pairs) => {
            let (keys, values) = put_pairs(alloc, draft, pairs)?;
            draft.put_table(&keys, &values)
        }
        _ => draft.put_scalar(&ScalarRef::of(value).unwrap()),
    }
}

// Appends the items and returns their numbers.
#[cycle(values)]
fn put_items(alloc: Global, draft: &mut Draft, items: &Vec<Value>) -> Result<Vec<u32>, AllocError>
    ensures spells { IfOk result (λ numbers.
        SpellItemsIn (objects draft.new) numbers.items (view_items items.now.items)) }
    ensures valid { OnOk result (AreItems (view_items items.now.items)) }
    ensures kept { Keeps (objects draft.old) (objects draft.new) }
{
    let mut numbers = Vec::with_capacity(alloc, items.len())?;
    for item in items {
        numbers.push(put_value(alloc, draft, item)?)?;
    }
    Ok(numbers)
}

// Appends the entries and returns the numbers of the keys and of the values.
#[cycle(values)]
fn put_pairs(
    alloc: Global,
    draft: &mut Draft,
    pairs: &BTreeMap<Utf16, Value>,
) -> Result<(Vec<u32>, Vec<u32>), AllocError>
    ensures spells { IfOk result (λ numbers. SpellPairsIn (objects draft.new)
        (zip numbers.0.items numbers.1.items) (view_pairs pairs.now.entries)) }
    ensures valid { OnOk result (ArePairs (view_pairs pairs.now.entries)) }
    ensures same { IfOk result (λ numbers. length numbers.0.items ≡ length numbers.1.items) }
    ensures kept { Keeps (objects draft.old) (objects draft.new) }
{
    let mut keys = Vec::with_capacity(alloc, pairs.len())?;
    let mut values = Vec::with_capacity(alloc, pairs.len())?;
    for (key, value) in pairs {
        let text = TextRef::of_units(key.units());
        keys.push(draft.put_scalar(&ScalarRef::Text(text))?)?;
        values.push(put_value(alloc, draft, value)?)?;
    }
    Ok((keys, values))
}
