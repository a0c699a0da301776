//! The rules about references.
ghost use Rattle.std.specs.Prelude.{◌<◌, ◌↔◌, IsTrue, EachIndex, IfOk, IfErr, OnOk, slice_index};
ghost use Rattle.plist_keys.specs.KeyOrder.{IsReady};
ghost use Rattle.plist_object.specs.Objects.{holds_list, holds_table};
ghost use Rattle.plist_object.specs.Places.{Holds};
ghost use Rattle.plist_object.specs.Views.{held_of, numbers_of, octets_of};
ghost use Rattle.plist_canon.specs.Rules.{HasAscendingKeys};
ghost use Rattle.plist_canon.specs.Checking.{IsFlaw, RefersWell};
ghost use Rattle.plist_canon.specs.First.{IsFlawAt};

use crate::object_rules::Flaw;
use crate::objects::Input;
use crate::offsets::check_offsets;
use crate::rule::Rule;
use plist_keys::KeyOrder;
use plist_object::{BinFile, Object, Refs};

// Validates rule 0 for the references of object `i`, and returns whether rule 5 holds.
#[inline(always)]
pub(crate) fn check_references<'a>(
    input: &Input<'a>,
    order: &mut KeyOrder<'a>,
    i: u64,
    object: &Object<'a>,
) -> Result<bool, Flaw>
    requires ready { IsReady (octets_of input.now.file) order.old }
    requires holds { Holds (octets_of input.now.file) i (held_of object.now) }
    ensures refers { OnOk result (RefersWell (octets_of input.now.file) (held_of object.now)) }
    ensures ascend { IfOk result
        (λ ascend. IsTrue ascend ↔ HasAscendingKeys (octets_of input.now.file) i) }
    ensures ready { OnOk result (IsReady (octets_of input.now.file) order.new) }
    ensures err { IfErr result (IsFlaw (octets_of input.now.file)) }
    ensures first { IfErr result (IsFlawAt (octets_of input.now.file) i) }
{
    match object {
        Object::Scalar(_) => Ok(true),
        Object::List(items) => {
            check_items(&input.file, i, items)?;
            Ok(true)
        }
        Object::Table(keys, values) => {
            let ascend = check_pairs(input, order, i, keys, values)?;
            Ok(ascend)
        }
    }
}

fn check_items(file: &BinFile, i: u64, items: &Refs) -> Result<(), Flaw>
    requires holds { Holds (octets_of file.now) i (holds_list (numbers_of items.now)) }
    ensures refers { OnOk result
        (RefersWell (octets_of file.now) (holds_list (numbers_of items.now))) }
    ensures err { IfErr result (IsFlaw (octets_of file.now)) }
    ensures first { IfErr result (IsFlawAt (octets_of file.now) i) }
{
    if !are_below(items, file.count()) {
        return Err(Flaw::at(Rule::Readable, i));
    }
    Ok(())
}

// If objects overlap, comparing the keys could take long, so the first object out of place is
// reported.
fn check_pairs<'a>(
    input: &Input<'a>,
    order: &mut KeyOrder<'a>,
    i: u64,
    keys: &Refs<'a>,
    values: &Refs,
) -> Result<bool, Flaw>
    requires ready { IsReady (octets_of input.now.file) order.old }
    requires holds { Holds (octets_of input.now.file) i
        (holds_table (numbers_of keys.now) (numbers_of values.now)) }
    ensures refers { OnOk result (RefersWell (octets_of input.now.file)
        (holds_table (numbers_of keys.now) (numbers_of values.now))) }
    ensures ascend { IfOk result
        (λ ascend. IsTrue ascend ↔ HasAscendingKeys (octets_of input.now.file) i) }
    ensures ready { OnOk result (IsReady (octets_of input.now.file) order.new) }
    ensures err { IfErr result (IsFlaw (octets_of input.now.file)) }
    ensures first { IfErr result (IsFlawAt (octets_of input.now.file) i) }
{
    let file = &input.file;
    if !are_below(values, file.count()) {
        return Err(Flaw::at(Rule::Readable, i));
    }
    if !order.prepare(input.alloc, file, keys)? {
        check_offsets(file)?;
    }
    if order.ascend(file, keys) {
        return Ok(true);
    }
    if !order.name_texts(file, keys) {
        return Err(Flaw::at(Rule::Readable, i));
    }
    Ok(false)
}

fn are_below(refs: &Refs, count: u64) -> bool
    ensures { IsTrue result ↔ EachIndex (numbers_of refs.now)
        (λ k. slice_index (numbers_of refs.now) k < count) }
{
    for k in 0..refs.len() {
        if refs.get(k) >= count {
            return false;
        }
    }
    true
}
