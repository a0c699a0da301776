//! A binary file that grows.
ghost use Rattle.std.specs.Prelude.{◌≡◌, ◌+◌, ◌<◌, ◌≤◌, ◌^◌, ◌++◌, ◌∷◌, []};
ghost use Rattle.std.specs.Prelude.{ℕ, List, length, vec_len, vec_capacity};
ghost use Rattle.std.specs.Prelude.{IfOk, IsOk, OnOk, OnErr, ◌↔◌, ◌⊎◌};
ghost use Rattle.std.specs.List.{zip};
ghost use Rattle.std.specs.List.Sorted.{IsPermutation};
ghost use Rattle.plist_value.specs.Plist.{Plist, Items, Pairs, IsPlist, IsScalar};
ghost use Rattle.plist_value.specs.Plist.{scalar as one_scalar, list, table};
ghost use Rattle.plist_value.specs.Limits.{Fits};
ghost use Rattle.plist_value.specs.Scalars.{content_of};
ghost use Rattle.plist_object.specs.Objects.{holds_scalar, holds_list, holds_table};
ghost use Rattle.plist_object.specs.Sizes.{IsSmall};
ghost use Rattle.plist_object.specs.Spelling.{scalar_spelling};
ghost use Rattle.plist_object.specs.Spelled.{IsBinary};
ghost use Rattle.plist_draft.specs.Stored.{AreKept, IsDraft, draft_file};
ghost use Rattle.plist_draft.specs.OneProof.{IsDraft-prop};
ghost use Rattle.plist_draft.specs.Encoded.{SpellsIn, SpellItemsIn, SpellPairsIn, Keeps, Shows};

use crate::ends::{are_octets, put_offsets};
use crate::recent::{Recent, hash_of};
use plist_object::{HEADER, put_scalar, put_short_list, put_short_table, put_trailer, to_u32};
use plist_value::ScalarRef;
use std::alloc::{AllocError, Global};

/// The header of a binary file followed by objects, each reference in four bytes. Objects are
/// numbered from 0 in the order in which they are appended, so an object follows the objects that
/// it refers to.
#[derive(Drop)]
pub struct Draft {
    octets: Vec<u8>,
    offsets: Vec<u32>,
    recent: Recent,
    ghost laid: { IsDraft octets.items offsets.items } by { IsDraft-prop _ _ },
}

impl Draft {
    ghost use Rattle.plist_draft.specs.View.{objects};

    /// Creates a draft without objects.
    ///
    /// # Errors
    ///
    /// [`AllocError`] if out of memory.
    pub fn new(alloc: Global) -> Result<Draft, AllocError>
        ensures { IfOk result (λ draft. objects draft ≡ []) }
    {
        let octets = Vec::from_slice(alloc, &HEADER)?;
        Ok(Draft {
            octets,
            offsets: Vec::new(alloc),
            recent: Recent::new(alloc),
        })
    }

    /// Appends a scalar and returns its number.
    ///
    /// # Errors
    ///
    /// [`AllocError`] if out of memory. Also if there are 2^32 objects, or if the objects have 2^32
    /// bytes, or the scalar 2^32 units or bytes. The draft is then unchanged.
    pub fn put_scalar(&mut self, scalar: &ScalarRef) -> Result<u32, AllocError>
        requires { IsScalar (content_of scalar.now) }
        ensures number { IfOk result (λ number. number ≡ length (objects self.old)) }
        ensures put { OnOk result
            (objects self.new ≡ objects self.old ++ (holds_scalar (content_of scalar.now) ∷ [])) }
        ensures spells { IfOk result (λ number.
            SpellsIn (objects self.new) number (one_scalar (content_of scalar.now))) }
        ensures kept { Keeps (objects self.old) (objects self.new) }
        ensures refused { OnErr result (objects self.new ≡ objects self.old) }
    {
        let (number, offset) = self.begin()?;
        spell(&mut self.octets, scalar)?;
        self.offsets.push_reserved(offset);
        Ok(number)
    }

    /// Appends a scalar like [`Draft::put_scalar`], or returns the number of an equal scalar
    /// appended before. Most scalars that are appended often have one object.
    ///
    /// # Errors
    ///
    /// Fails like [`Draft::put_scalar`], or if out of memory for the table of scalars. The draft is
    /// then unchanged.
    pub fn share_scalar(&mut self, scalar: &ScalarRef) -> Result<u32, AllocError>
        requires { IsScalar (content_of scalar.now) }
        ensures put { OnOk result ((objects self.new ≡ objects self.old) ⊎ (objects self.new
            ≡ objects self.old ++ (holds_scalar (content_of scalar.now) ∷ []))) }
        ensures spells { IfOk result (λ number.
            SpellsIn (objects self.new) number (one_scalar (content_of scalar.now))) }
        ensures kept { Keeps (objects self.old) (objects self.new) }
        ensures refused { OnErr result (objects self.new ≡ objects self.old) }
    {
        self.recent.prepare(self.offsets.len())?;
        let (number, offset) = self.begin()?;
        spell(&mut self.octets, scalar)?;
        let (before, spelled) = self.octets.split_at(offset as usize);
        let hash = hash_of(spelled);
        if let Some(known) = self.recent.find(hash, spelled, before, &self.offsets) {
            self.octets.truncate(offset as usize);
            return Ok(known);
        }
        self.recent.keep(hash, number);
        self.offsets.push_reserved(offset);
        Ok(number)
    }

    /// Appends an array of the objects with these numbers and returns its number.
    ///
    /// # Errors
    ///
    /// [`AllocError`] if out of memory. Also if there are 2^32 objects, or if the objects have 2^32
    /// bytes, or the array 2^32 items. The draft is then unchanged.
    pub fn put_list(&mut self, items: &[u32]) -> Result<u32, AllocError>
        ensures number { IfOk result (λ number. number ≡ length (objects self.old)) }
        ensures put { OnOk result
            (objects self.new ≡ objects self.old ++ (holds_list items.now ∷ [])) }
        ensures spells { IfOk result (λ number. (vs : Items)
            → SpellItemsIn (objects self.old) items.now vs
            → SpellsIn (objects self.new) number (list vs)) }
        ensures kept { Keeps (objects self.old) (objects self.new) }
        ensures refused { OnErr result (objects self.new ≡ objects self.old) }
    {
        are_kept(items)?;
        let (number, offset) = self.begin()?;
        put_short_list(&mut self.octets, 4, items)?;
        self.offsets.push_reserved(offset);
        Ok(number)
    }

    /// Appends a dictionary and returns its number. Its keys and values are the objects with these
    /// numbers: key k belongs to value k.
    ///
    /// # Errors
    ///
    /// [`AllocError`] if out of memory. Also if there are 2^32 objects, or if the objects have 2^32
    /// bytes, or the dictionary 2^32 keys. The draft is then unchanged.
    pub fn put_table(&mut self, keys: &[u32], values: &[u32]) -> Result<u32, AllocError>
        requires { length keys.now ≡ length values.now }
        ensures number { IfOk result (λ number. number ≡ length (objects self.old)) }
        ensures put { OnOk result
            (objects self.new ≡ objects self.old ++ (holds_table keys.now values.now ∷ [])) }
        ensures spells { IfOk result (λ number. (rows : List (ℕ × ℕ)) (ps : Pairs)
            → IsPermutation (zip keys.now values.now) rows
            → SpellPairsIn (objects self.old) rows ps
            → SpellsIn (objects self.new) number (table ps)) }
        ensures kept { Keeps (objects self.old) (objects self.new) }
        ensures refused { OnErr result (objects self.new ≡ objects self.old) }
    {
        are_kept(keys)?;
        are_kept(values)?;
        let (number, offset) = self.begin()?;
        put_short_table(&mut self.octets, 4, keys, values)?;
        self.offsets.push_reserved(offset);
        Ok(number)
    }

    /// Returns the binary file of the objects, with object `top` at its top.
    ///
    /// # Errors
    ///
    /// [`AllocError`] if out of memory.
    pub fn finish(self, top: u32) -> Result<Vec<u8>, AllocError>
        ensures file { IfOk result (λ octets. octets.items ≡ draft_file top (objects self)) }
        ensures spells { IfOk result (λ octets. (v : Plist) → IsPlist v → Fits v
            → SpellsIn (objects self) top v → IsBinary octets.items v) }
        ensures shows { IfOk result (λ octets. top < length (objects self)
            → Shows octets.items top (objects self)) }
    {
        let Draft {
            mut octets,
            offsets,
            ..
        } = self;
        let count = offsets.len() as u64;
        let offset = octets.len() as u64;
        octets.reserve_exact(4 * offsets.len() + 32)?;
        put_offsets(&mut octets, &offsets)?;
        put_trailer(&mut octets, 4, 4, count, u64::from(top), offset)?;
        are_octets(&octets);
        Ok(octets)
    }

    // Returns the number and the offset of the next object, and reserves capacity for the offset.
    fn begin(&mut self) -> Result<(u32, u32), AllocError>
        ensures octets { self.new.octets.items ≡ self.old.octets.items }
        ensures offsets { self.new.offsets.items ≡ self.old.offsets.items }
        ensures next { IfOk result (λ next. next.0 ≡ length self.old.offsets.items) }
        ensures offset { IfOk result (λ next. next.1 ≡ length self.old.octets.items) }
        ensures room { OnOk result (vec_len self.new.offsets < vec_capacity self.new.offsets) }
    {
        let number = to_u32(self.offsets.len() as u64)?;
        let offset = to_u32(self.octets.len() as u64)?;
        self.offsets.reserve(1)?;
        Ok((number, offset))
    }
}

// Fails unless there are fewer than 2^32 references. Each of them has four bytes by its type.
fn are_kept(refs: &[u32]) -> Result<(), AllocError>
    ensures { IsOk result ↔ AreKept refs.now }
{
    to_u32(refs.len() as u64)?;
    Ok(())
}

// Appends the encoding of a scalar, if it is small.
fn spell(octets: &mut Vec<u8>, scalar: &ScalarRef) -> Result<(), AllocError>
    ensures small { OnOk result (IsSmall (content_of scalar.now)) }
    ensures ok { OnOk result
        (octets.new.items ≡ octets.old.items ++ scalar_spelling (content_of scalar.now)) }
    ensures err { OnErr result (octets.new.items ≡ octets.old.items) }
{
    is_small(scalar)?;
    put_scalar(octets, scalar)
}

// Fails unless a string has fewer than 2^32 units, and data fewer than 2^32 bytes.
fn is_small(scalar: &ScalarRef) -> Result<(), AllocError>
    ensures { IsOk result ↔ IsSmall (content_of scalar.now) }
{
    match scalar {
        ScalarRef::Text(text) => to_u32(text.len() as u64).map(|_| ()),
        ScalarRef::Bytes(octets) => to_u32(octets.len() as u64).map(|_| ()),
        _ => Ok(()),
    }
}
