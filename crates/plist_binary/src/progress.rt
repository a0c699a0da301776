//! The progress of a walk.
ghost use Rattle.std.specs.Prelude.{◌≡◌, ℕ, true, List, [], IfSome};
ghost use Rattle.plist_binary.specs.Budgets.{limits};
ghost use Rattle.plist_binary.specs.Passing.{Passes};
ghost use Rattle.plist_binary.specs.Progress.{IsProgress};

use crate::states::{ObjectState, state_at};
use plist_keys::KeyOrder;
use plist_object::BinFile;
use plist_value::Budget;
use std::alloc::Global;

// What is known of objects and of keys, and what is left of the budget.
#[derive(Drop)]
pub(crate) struct Progress<'a> {
    pub(crate) states: Vec<ObjectState>,
    pub(crate) order: KeyOrder<'a>,
    pub(crate) left: Budget,
    // Whether all scalars so far are strings or data.
    pub(crate) writable: bool,
}

impl<'a> Progress<'a> {
    // Creates the state before the walk: nothing is known, and all of the limits is left.
    pub(crate) fn none(alloc: Global, file: &BinFile<'a>) -> Progress<'a>
        ensures left { result.left ≡ limits }
        ensures writable { result.writable ≡ true }
        ensures progress { (f : List ℕ) → IsProgress f [] result }
    {
        Progress {
            states: Vec::new(alloc),
            order: KeyOrder::new(alloc, file),
            left: Budget::whole(),
            writable: true,
        }
    }

    // Returns the depth of an object visited before and the budget left after it, or `None` if it
    // is not known or does not fit.
    pub(crate) fn recall(&self, object: u64, levels: u64) -> Option<(u64, Budget)>
        ensures { IfSome result (λ known. (f path : List ℕ) → IsProgress f path self.now
            → Passes f object levels self.now.left known.0 known.1
            self.now.writable self.now.writable) }
    {
        let size = state_at(&self.states, object).size()?;
        let deep = u64::from(size.depth);
        if levels < deep {
            return None;
        }
        Some((deep, size.take(self.left)?))
    }
}
