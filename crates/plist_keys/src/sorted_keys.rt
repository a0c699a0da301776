//! Keys whose order is known.
ghost use Rattle.std.specs.Prelude.{ℕ, List};
ghost use Rattle.plist_keys.specs.KeyOrder.{IsSortedIn};

use plist_object::Refs;
use std::alloc::Global;

// The keys of a dictionary and their order.
#[derive(Drop)]
pub(crate) struct SortedKeys<'a> {
    pub(crate) keys: Refs<'a>,
    // Their positions, counted from 0, in ascending order of their strings.
    pub(crate) indices: Vec<u32>,
    // Whether no two of them are equal.
    pub(crate) distinct: bool,
}

impl<'a> SortedKeys<'a> {
    // Returns no keys.
    pub(crate) fn none(alloc: Global) -> SortedKeys<'a>
        ensures { (f : List ℕ) → IsSortedIn f result }
    {
        SortedKeys {
            keys: Refs::none(),
            indices: Vec::new(alloc),
            distinct: true,
        }
    }
}
