//! What a map relies on: equality, order and hash depend on the content alone, however it is
//! stored. Each law is the contract of a function that does nothing.
ghost use Rattle.std.specs.Ordering.{nat_cmp};
ghost use Rattle.std.specs.Cmp.Lexicographic.{slice_cmp};
ghost use Rattle.plist_value.specs.Laws.{IsEqualityOf, IsOrderOf, IsHashOf};
ghost use Rattle.plist_value.specs.Scalars.{content_of};
ghost use Rattle.plist_value.specs.Texts.{units_of};
ghost use Rattle.plist_value.specs.Wholes.{integer_of};

use crate::{ScalarRef, TextRef, Utf16, Whole};
use std::hash::Hash;

/// Borrowed scalars are equal if and only if their contents are, and then they hash alike.
pub fn scalars_by_content()
    ensures equality { IsEqualityOf content_of ⟦<ScalarRef<'static> as PartialEq>⟧.eq }
    ensures hash { IsHashOf content_of ⟦<ScalarRef<'static> as Hash>⟧.hash_input }
{}

/// Borrowed strings are equal if and only if their units are. They are ordered and hashed by their
/// units.
pub fn texts_by_units()
    ensures equality { IsEqualityOf units_of ⟦<TextRef<'static> as PartialEq>⟧.eq }
    ensures order { IsOrderOf units_of (slice_cmp nat_cmp) ⟦<TextRef<'static> as Ord>⟧.cmp }
    ensures hash { IsHashOf units_of ⟦<TextRef<'static> as Hash>⟧.hash_input }
{}

/// Owned strings are equal if and only if their units are. They are ordered and hashed by their
/// units.
pub fn owned_texts_by_units()
    ensures equality { IsEqualityOf (λ units. units) ⟦<Utf16 as PartialEq>⟧.eq }
    ensures order { IsOrderOf (λ units. units) (slice_cmp nat_cmp) ⟦<Utf16 as Ord>⟧.cmp }
    ensures hash { IsHashOf (λ units. units) ⟦<Utf16 as Hash>⟧.hash_input }
{}

/// Integers are equal if and only if the numbers are, and then they hash alike.
pub fn wholes_by_number()
    ensures equality { IsEqualityOf integer_of ⟦<Whole as PartialEq>⟧.eq }
    ensures hash { IsHashOf integer_of ⟦<Whole as Hash>⟧.hash_input }
{}
