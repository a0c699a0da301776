//! Equality of values.
ghost use Rattle.std.specs.Prelude.{◌≡◌, ◌↔◌, IsTrue};
ghost use Rattle.std.specs.Bool.{OnTrue, OnFalse};
ghost use Rattle.plist_value.specs.Plist.{IsContainer};
ghost use Rattle.plist_value.specs.View.{view, view_items, view_pairs};

use crate::{ScalarRef, Utf16, Value};
use std::collections::BTreeMap;

/// Returns whether the two values are equal: the same kind and the same content, and for
/// dictionaries the same keys with equal values. Traverses both at most once, stops at the first
/// difference, recurses as deep as the values, and allocates nothing.
#[cycle(same)]
pub fn same(value: &Value, other: &Value) -> bool
    ensures { IsTrue result ↔ view value.now ≡ view other.now }
{
    match value {
        Value::List(items) => matches!(other, Value::List(others) if same_items(items, others)),
        Value::Table(pairs) => matches!(other, Value::Table(others) if same_pairs(pairs, others)),
        _ => same_scalars(value, other),
    }
}

// Returns whether both are scalars and equal.
fn same_scalars(value: &Value, other: &Value) -> bool
    ensures equal { OnTrue result (view value.now ≡ view other.now) }
    ensures different { OnFalse result
        (view value.now ≡ view other.now → IsContainer (view value.now)) }
{
    match (ScalarRef::of(value), ScalarRef::of(other)) {
        (Some(scalar), Some(other)) => scalar == other,
        _ => false,
    }
}

#[cycle(same)]
fn same_items(items: &Vec<Value>, others: &Vec<Value>) -> bool
    ensures { IsTrue result ↔ view_items items.now.items ≡ view_items others.now.items }
{
    if items.len() != others.len() {
        return false;
    }
    for (i, item) in items.iter().enumerate() {
        if !same(item, &others[i]) {
            return false;
        }
    }
    true
}

#[cycle(same)]
fn same_pairs(pairs: &BTreeMap<Utf16, Value>, others: &BTreeMap<Utf16, Value>) -> bool
    ensures { IsTrue result ↔ view_pairs pairs.now.entries ≡ view_pairs others.now.entries }
{
    let mut rest = others.iter();
    for (key, value) in pairs {
        let Some((other_key, other)) = rest.next() else {
            return false;
        };
        if key != other_key || !same(value, other) {
            return false;
        }
    }
    rest.next().is_none()
}
