//! Copies of values.
ghost use Rattle.std.specs.Prelude.{◌≡◌, IfOk};
ghost use Rattle.plist_value.specs.View.{view, view_items, view_pairs};

use crate::{Utf16, Value};
use std::alloc::{AllocError, Global};
use std::collections::BTreeMap;

/// Returns an equal value in its own memory. Copies each node once, looks up each key of a
/// dictionary among those before it, and recurses as deep as the value.
///
/// # Errors
///
/// [`AllocError`] if out of memory; what was copied is freed.
#[cycle(copy)]
pub fn copy(alloc: Global, value: &Value) -> Result<Value, AllocError>
    ensures { IfOk result (λ copy. view copy ≡ view value.now) }
{
    match value {
        Value::Text(text) => Ok(Value::Text(text.copy(alloc)?)),
        Value::Whole(whole) => Ok(Value::Whole(*whole)),
        Value::Flag(flag) => Ok(Value::Flag(*flag)),
        Value::Real4(octets) => Ok(Value::Real4(*octets)),
        Value::Real8(octets) => Ok(Value::Real8(*octets)),
        Value::Moment(octets) => Ok(Value::Moment(*octets)),
        Value::Bytes(octets) => Ok(Value::Bytes(Vec::from_slice(alloc, octets.as_slice())?)),
        Value::List(items) => Ok(Value::List(copy_items(alloc, items)?)),
        Value::Table(pairs) => Ok(Value::Table(copy_pairs(alloc, pairs)?)),
    }
}

#[cycle(copy)]
fn copy_items(alloc: Global, items: &Vec<Value>) -> Result<Vec<Value>, AllocError>
    ensures { IfOk result (λ copies. view_items copies.items ≡ view_items items.now.items) }
{
    let mut copies = Vec::with_capacity(alloc, items.len())?;
    for item in items {
        copies.push(copy(alloc, item)?)?;
    }
    Ok(copies)
}

#[cycle(copy)]
fn copy_pairs(
    alloc: Global,
    pairs: &BTreeMap<Utf16, Value>,
) -> Result<BTreeMap<Utf16, Value>, AllocError>
    ensures { IfOk result (λ copies. view_pairs copies.entries ≡ view_pairs pairs.now.entries) }
{
    let mut copies = BTreeMap::new(alloc);
    for (key, value) in pairs.iter() {
        let key = key.copy(alloc)?;
        drop(copies.insert(key, copy(alloc, value)?)?);
    }
    Ok(copies)
}
