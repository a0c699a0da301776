//! Sets of keys.
ghost use Rattle.std.specs.Prelude.{◌≡◌, ◌||◌, true, false, ℕ, List, nat_eq, IfOk};
ghost use Rattle.std.specs.Result.{OnOk};
ghost use Rattle.std.specs.Cmp.Lexicographic.{pointwise};
ghost use Rattle.ostep_text.specs.Key.{is_short_key};
ghost use Rattle.ostep_text.specs.KeySet.{in_set};

use crate::key::Key;
use std::alloc::{AllocError, Global};
use std::collections::BTreeSet;

// The number of short keys that are compared one by one.
const FEW: usize = 12;

// A set of keys. Short keys are kept as numbers, which need no allocation of their own.
#[derive(Drop)]
pub(crate) struct KeySet<'a> {
    pub(crate) few: Vec<u128>,
    pub(crate) short: BTreeSet<u128>,
    pub(crate) long: BTreeSet<Key<'a>>,
}

impl<'a> KeySet<'a> {
    // Returns a set without keys.
    pub(crate) fn new(alloc: Global) -> Self
        ensures { (key : List ℕ) → in_set result key ≡ false }
    {
        KeySet {
            few: Vec::new(alloc),
            short: BTreeSet::new(alloc),
            long: BTreeSet::new(alloc),
        }
    }

    // Adds the key and returns whether it was in the set before. A key in memory of its own is
    // copied, into no more than its units need.
    #[tactic(auto, using(crate::proofs::KeySteps::one_more))]
    pub(crate) fn insert(&mut self, alloc: Global, key: &Key<'a>) -> Result<bool, AllocError>
        ensures known { IfOk result (λ known. known ≡ in_set self.old key.now) }
        ensures more { OnOk result ((other : List ℕ)
            → in_set self.new other ≡ (pointwise nat_eq other key.now || in_set self.old other)) }
    {
        if key.is_short() {
            return self.insert_short(key);
        }
        let copy = key.copy(alloc)?;
        let added = self.long.insert(copy)?;
        Ok(!added)
    }

    // Adds a short key and returns whether it was in the set before.
    #[tactic(auto, using(crate::proofs::KeySteps::one_more))]
    fn insert_short(&mut self, key: &Key<'a>) -> Result<bool, AllocError>
        requires { is_short_key key.now ≡ true }
        ensures known { IfOk result (λ known. known ≡ in_set self.old key.now) }
        ensures more { OnOk result ((other : List ℕ)
            → in_set self.new other ≡ (pointwise nat_eq other key.now || in_set self.old other)) }
    {
        let number = key.number;
        if self.few.contains(&number) {
            return Ok(true);
        }
        if self.few.len() == FEW {
            let added = self.short.insert(number)?;
            return Ok(!added);
        }
        // The set is empty as long as there are few keys.
        let known = self.short.contains(&number);
        self.few.push(number)?;
        Ok(known)
    }
}
