//! Whether a value is within the limits.
ghost use Rattle.std.specs.Prelude.{◌≤◌, ◌↔◌, IsTrue, IfSome, IfNone};
ghost use Rattle.std.specs.Bool.{OnTrue};
ghost use Rattle.plist_value.specs.Plist.{IsPlist, AreItems, ArePairs};
ghost use Rattle.plist_value.specs.Limits.{Fits, nodes, depth, payload, nodes_of_items};
ghost use Rattle.plist_value.specs.Limits.{depth_of_items, payload_of_items, nodes_of_pairs};
ghost use Rattle.plist_value.specs.Limits.{depth_of_pairs, payload_of_pairs};
ghost use Rattle.plist_value.specs.View.{view, view_items, view_pairs};
ghost use Rattle.plist_value.specs.Budget.{Spends, IsOver};

use crate::budget::Budget;
use crate::{MAX_DEPTH, ScalarRef, TextRef, Utf16, Value};
use std::collections::BTreeMap;

/// Returns whether the value is within the limits: at most `MAX_NODES` nodes, `MAX_DEPTH` deep, and
/// at most `MAX_PAYLOAD` bytes of payload. Visits each node at most once and reads no string or
/// data, stops at the first limit exceeded, recurses at most `MAX_DEPTH` deep, and allocates
/// nothing.
pub fn fits(value: &Value) -> bool
    ensures limits { IsTrue result ↔ Fits (view value.now) }
    ensures valid { OnTrue result (IsPlist (view value.now)) }
{
    charge(value, MAX_DEPTH, Budget::whole()).is_some()
}

// Returns the budget left after the value; `levels` is the depth allowed.
#[cycle(fits)]
fn charge(value: &Value, levels: u64, left: Budget) -> Option<Budget>
    ensures left { IfSome result (Spends left (nodes (view value.now)) (payload (view value.now))) }
    ensures deep { IfSome result (λ _. depth (view value.now) ≤ levels) }
    ensures valid { IfSome result (λ _. IsPlist (view value.now)) }
    ensures over { let v = view value.now in
        IfNone result (depth v ≤ levels → IsOver left (nodes v) (payload v)) }
{
    let below = levels.checked_sub(1)?;
    match value {
        Value::List(items) => charge_items(items, below, left.spend(0)?),
        Value::Table(pairs) => charge_pairs(pairs, below, left.spend(0)?),
        _ => left.spend(ScalarRef::of(value)?.payload()),
    }
}

#[cycle(fits)]
fn charge_items(items: &Vec<Value>, levels: u64, left: Budget) -> Option<Budget>
    ensures left { let vs = view_items items.now.items in
        IfSome result (Spends left (nodes_of_items vs) (payload_of_items vs)) }
    ensures deep { IfSome result (λ _. depth_of_items (view_items items.now.items) ≤ levels) }
    ensures valid { IfSome result (λ _. AreItems (view_items items.now.items)) }
    ensures over { let vs = view_items items.now.items in
        IfNone result
        (depth_of_items vs ≤ levels → IsOver left (nodes_of_items vs) (payload_of_items vs)) }
{
    let mut left = left;
    for item in items {
        left = charge(item, levels, left)?;
    }
    Some(left)
}

#[cycle(fits)]
fn charge_pairs(pairs: &BTreeMap<Utf16, Value>, levels: u64, left: Budget) -> Option<Budget>
    ensures left { let ps = view_pairs pairs.now.entries in
        IfSome result (Spends left (nodes_of_pairs ps) (payload_of_pairs ps)) }
    ensures deep { IfSome result (λ _. depth_of_pairs (view_pairs pairs.now.entries) ≤ levels) }
    ensures valid { IfSome result (λ _. ArePairs (view_pairs pairs.now.entries)) }
    ensures over { let ps = view_pairs pairs.now.entries in
        IfNone result
        (depth_of_pairs ps ≤ levels → IsOver left (nodes_of_pairs ps) (payload_of_pairs ps)) }
{
    let mut left = left;
    for (key, value) in pairs {
        levels.checked_sub(1)?;
        let text = TextRef::of_units(key.units());
        left = left.spend(ScalarRef::Text(text).payload())?;
        left = charge(value, levels, left)?;
    }
    Some(left)
}
