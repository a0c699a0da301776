//! Appends the references of containers.
ghost use Rattle.std.specs.Prelude.{◌≡◌, ◌++◌, ◌<◌, ℕ, List, All, OnOk, length, map};
ghost use Rattle.std.specs.Prelude.{slice_index};
ghost use Rattle.plist_value.specs.Plist.{Pairs};
ghost use Rattle.plist_object.specs.Views.{numbers_of, octets_of};
ghost use Rattle.plist_keys.specs.KeyOrder.{IsReady};
ghost use Rattle.plist_write.specs.Spelling.{IsTableOf, SpellTable, sorted_references};

use crate::objects::{Input, TableRefs};
use plist_keys::KeyOrder;
use plist_object::{Refs, to_u32};
use std::alloc::AllocError;

// Appends the references to a dictionary's keys, in ascending order of the keys, and then the
// references to its values in the same order.
pub(crate) fn push_sorted<'a>(
    input: &Input<'a>,
    order: &mut KeyOrder<'a>,
    table: &TableRefs<'a>,
    references: &mut Vec<u32>,
) -> Result<(), AllocError>
    requires table { IsTableOf (octets_of input.now.file)
        (numbers_of table.now.keys) (numbers_of table.now.values) }
    requires ready { IsReady (octets_of input.now.file) order.old }
    ensures pushed { OnOk result ((rows : List (ℕ × ℕ)) (ps : Pairs)
        → SpellTable (octets_of input.now.file)
        (numbers_of table.now.keys) (numbers_of table.now.values) rows ps
        → references.new.items ≡ references.old.items ++ sorted_references rows) }
    ensures ready { IsReady (octets_of input.now.file) order.new }
{
    references.reserve(table.keys.len().saturating_mul(2) as usize)?;
    order.sort(input.alloc, &input.file, &table.keys)?;
    push_at(&table.keys, order.indices(), &mut *references)?;
    push_at(&table.values, order.indices(), references)?;
    Ok(())
}

// Appends the references of an array.
pub(crate) fn push_all(items: &Refs, references: &mut Vec<u32>) -> Result<(), AllocError>
    ensures { OnOk result (references.new.items ≡ references.old.items ++ numbers_of items.now) }
{
    for i in 0..items.len() {
        references.push(to_u32(items.get(i))?)?;
    }
    Ok(())
}

// Appends the references at these positions.
fn push_at(refs: &Refs, indices: &[u32], references: &mut Vec<u32>) -> Result<(), AllocError>
    requires { All (λ index. index < length (numbers_of refs.now)) indices.now }
    ensures { OnOk result (references.new.items
        ≡ references.old.items ++ map (slice_index (numbers_of refs.now)) indices.now) }
{
    for index in indices {
        references.push(to_u32(refs.get(u64::from(*index)))?)?;
    }
    Ok(())
}
