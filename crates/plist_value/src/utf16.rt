//! Owned strings.
ghost use Rattle.std.specs.Prelude.{◌≡◌, ℕ, List, nat_eq, IfOk};
ghost use Rattle.std.specs.Ordering.{nat_cmp, as_partial_cmp};
ghost use Rattle.std.specs.Cmp.{partial_order_from_own_ties};
ghost use Rattle.std.specs.Cmp.Lexicographic.{pointwise, slice_cmp, bytes_decides};
ghost use Rattle.std.specs.Cmp.Rules.{comparing};
ghost use Rattle.std.specs.Hash.{same_Alike};
ghost use Rattle.plist_value.specs.Hashes.{fed_text};
ghost use Rattle.std.proofs.Common.{rules};

use crate::TextRef;
use std::alloc::{AllocError, Global};
use std::cmp::Ordering;
use std::hash::{Hash, Hasher};
use std::marker::Model;

/// A string: any sequence of UTF-16 units, including lone surrogates. Contracts see it as the list
/// of its units.
#[derive(Debug, Drop)]
pub struct Utf16 {
    units: Vec<u16>,
}

impl Model for Utf16 {
    ghost Value = { List ℕ };

    ghost view = { λ text. text.units.items };
}

impl Utf16 {
    /// Returns the string of these units.
    pub fn from_units(units: Vec<u16>) -> Self
        ensures { result ≡ units.items }
    {
        Utf16 { units }
    }

    /// Returns the units, in order.
    pub fn units(&self) -> &[u16]
        ensures { result.now ≡ self.now }
    {
        self.units.as_slice()
    }

    /// Returns a copy in its own memory: one allocation of two bytes for each unit.
    ///
    /// # Errors
    ///
    /// [`AllocError`] if out of memory.
    pub fn copy(&self, alloc: Global) -> Result<Utf16, AllocError>
        ensures { IfOk result (λ copy. copy ≡ self.now) }
    {
        Ok(Utf16::from_units(Vec::from_slice(alloc, self.units())?))
    }
}

impl PartialEq for Utf16 {
    ghost eq = { pointwise nat_eq };

    ghost laws = { Prim.search (comparing, rules) };

    fn eq(&self, other: &Utf16) -> bool {
        self.units() == other.units()
    }
}

impl Eq for Utf16 {
    ghost laws = { Prim.search (comparing, rules) };
}

// Compares unit by unit; a proper prefix is less.
impl Ord for Utf16 {
    ghost cmp = { slice_cmp nat_cmp };

    ghost total = { Prim.search (comparing, rules) };

    ghost matches_partial_cmp = { Prim.search (comparing, rules) };

    ghost matches_eq = { Prim.search (comparing, rules) };

    fn cmp(&self, other: &Utf16) -> Ordering {
        self.units().cmp(other.units())
    }
}

impl PartialOrd for Utf16 {
    ghost partial_cmp = { as_partial_cmp (slice_cmp nat_cmp) };

    ghost laws = { partial_order_from_own_ties (Prim.search (comparing, rules))
        (Prim.search (comparing, rules)) };

    fn partial_cmp(&self, other: &Utf16) -> Option<Ordering> {
        Some(self.cmp(other))
    }
}

// Hashes the units alone, like a `TextRef` of them.
impl Hash for Utf16 {
    ghost hash_input = { fed_text };

    ghost respects_eq = { (same_Alike fed_text bytes_decides).fed };

    fn hash<H: Hasher>(&self, state: &mut H) {
        TextRef::of_units(self.units()).hash(state);
    }
}
