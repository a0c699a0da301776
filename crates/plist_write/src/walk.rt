//! The walk that numbers the objects: from the top of a file over the sorted tree of its value.
ghost use Rattle.std.specs.Prelude.{◌≡◌, ◌≤◌, length, drop, IfOk, OnOk};
ghost use Rattle.plist_value.specs.Plist.{Plist};
ghost use Rattle.plist_object.specs.Spelled.{IsBinary, SpellsWithin};
ghost use Rattle.plist_object.specs.Views.{octets_of};
ghost use Rattle.plist_write.specs.Spelling.{SpellWithin};
ghost use Rattle.plist_keys.specs.KeyOrder.{IsReady};
ghost use Rattle.plist_write.specs.Plan.{AreObjectsOf, AreWalked, IsWalked, Knows};
ghost use Rattle.plist_write.specs.ObjectNumbers.{kept};

use crate::object_numbers::UNIQUE;
use crate::objects::{Input, TableRefs, object_of};
use crate::order::{push_all, push_sorted};
use crate::plan::{CanonicalObjects, Plan};
use plist_keys::KeyOrder;
use plist_object::Object;
use plist_value::MAX_DEPTH;
use std::alloc::AllocError;
use std::hash::BuildHasher;

// Returns the objects of the canonical file of the value that the file encodes.
pub(crate) fn objects_of<'a, S: BuildHasher + Copy>(
    input: &Input<'a>,
    hasher: S,
    order: KeyOrder<'a>,
) -> Result<CanonicalObjects, AllocError>
    requires binary { (v : Plist) × IsBinary (octets_of input.now.file) v }
    requires ready { IsReady (octets_of input.now.file) order }
    ensures { IfOk result (λ objects. (v : Plist) → IsBinary (octets_of input.now.file) v
        → AreObjectsOf (octets_of input.now.file) v objects) }
{
    let mut plan = Plan::new(input, hasher)?;
    let mut order = order;
    walk(input, &mut plan, &mut order, input.file.top(), MAX_DEPTH)?;
    Ok(plan.into_objects())
}

// Returns the number of the value that the object encodes. Adds the objects of the value, unless it
// is a scalar that already has a number.
#[cycle(walk)]
#[inline(always)]
fn walk<'a, S: BuildHasher + Copy>(
    input: &Input<'a>,
    plan: &mut Plan<'a, S>,
    order: &mut KeyOrder<'a>,
    object: u64,
    levels: u64,
) -> Result<u32, AllocError>
    requires spells { SpellsWithin (octets_of input.now.file) object levels }
    requires knows { Knows (octets_of input.now.file) plan.old order.old }
    ensures walked { IfOk result (IsWalked (octets_of input.now.file) object plan.old plan.new) }
    ensures knows { OnOk result (Knows (octets_of input.now.file) plan.new order.new) }
{
    if let Some(number) = plan.memo.number_of(object) {
        return Ok(number);
    }
    if plan.memo.is_unique(object) {
        return plan.unique_scalar(object);
    }
    walk_object(input, plan, order, object, levels)
}

// Like `walk`, for an object that was not visited as a scalar.
#[cycle(walk)]
fn walk_object<'a, S: BuildHasher + Copy>(
    input: &Input<'a>,
    plan: &mut Plan<'a, S>,
    order: &mut KeyOrder<'a>,
    object: u64,
    levels: u64,
) -> Result<u32, AllocError>
    requires spells { SpellsWithin (octets_of input.now.file) object levels }
    requires knows { Knows (octets_of input.now.file) plan.old order.old }
    requires unseen { UNIQUE ≤ kept plan.old.memo object }
    ensures walked { IfOk result (IsWalked (octets_of input.now.file) object plan.old plan.new) }
    ensures knows { OnOk result (Knows (octets_of input.now.file) plan.new order.new) }
{
    match object_of(&input.file, object) {
        Object::Scalar(scalar) => plan.scalar(input, object, scalar),
        Object::List(items) => {
            let first = plan.references.len();
            let number = plan.add(object)?;
            push_all(&items, &mut plan.references)?;
            walk_children(input, plan, order, first, levels - 1)?;
            Ok(number)
        }
        Object::Table(keys, values) => {
            let first = plan.references.len();
            let number = plan.add(object)?;
            let table = TableRefs { keys, values };
            push_sorted(input, order, &table, &mut plan.references)?;
            walk_children(input, plan, order, first, levels - 1)?;
            Ok(number)
        }
    }
}

// Walks the objects that the references from index `first` on are to, and replaces each reference
// by the number that it becomes.
#[cycle(walk)]
fn walk_children<'a, S: BuildHasher + Copy>(
    input: &Input<'a>,
    plan: &mut Plan<'a, S>,
    order: &mut KeyOrder<'a>,
    first: usize,
    levels: u64,
) -> Result<(), AllocError>
    requires first { first ≤ length plan.old.references.items }
    requires spell { SpellWithin (octets_of input.now.file)
        (drop first plan.old.references.items) levels }
    requires knows { Knows (octets_of input.now.file) plan.old order.old }
    ensures walked { OnOk result (AreWalked (octets_of input.now.file) first plan.old plan.new) }
    ensures knows { OnOk result (Knows (octets_of input.now.file) plan.new order.new) }
{
    for i in first..plan.references.len() {
        let object = plan.references[i];
        let number = walk(input, plan, order, u64::from(object), levels)?;
        plan.references[i] = number;
    }
    Ok(())
}
