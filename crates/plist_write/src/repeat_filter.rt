//! Finds the objects of a file that may contain the same scalar as another object.
//!
//! Most scalars of a file are unlike all others, and a lookup in a map costs a cache miss for each.
//! So a hash maps each scalar to one of many bits, and only scalars that share a bit are compared.
//! First the bits of all objects are collected. A loop that does nothing else then counts them, in
//! which the cache misses overlap.
ghost use Rattle.std.specs.Prelude.{◌≡◌, ◌<◌, ◌↔◌, ℕ, List, suc, [], IsTrue};
ghost use Rattle.std.specs.Prelude.{IfOk, IfSome, OnErr, OnOk, length};
ghost use Rattle.plist_object.specs.Layout.{trailer_of};
ghost use Rattle.plist_object.specs.Places.{Holds};
ghost use Rattle.plist_object.specs.Views.{held_of, octets_of};
ghost use Rattle.plist_write.specs.RepeatFilter.{AddsNone, AreAdded};
ghost use Rattle.plist_write.specs.RepeatFilter.{AreSeenAgain, HasAdded};
ghost use Rattle.plist_write.specs.RepeatFilter.{IsUnlike, MayRepeat};

use crate::bits::{Bits, bit_of, mask_for};
use plist_object::{BinFile, Object};
use plist_value::ScalarRef;
use std::alloc::{AllocError, Global};
use std::hash::BuildHasher;

// The least number of bits per object; at most twice as many are used. Of the scalars without an
// equal one, about one in eight shares its bit.
const BITS: u64 = 8;

// Marks an object that is a container. No scalar has this bit.
const NO_BIT: u32 = 0;

// What the hasher is given to make a seed. The seed is unknown to those who do not know the hasher.
const SEED: u64 = 0;

/// The bits of the objects that were added so far, from which a [`RepeatFilter`] is built.
#[derive(Drop)]
pub struct RepeatFilterBuilder {
    // The bit of each object's scalar, or `NO_BIT` for a container.
    pub(crate) bits: Vec<u32>,
    // The greatest bit, and a seed. Whoever knows the seed can choose scalars that share a bit.
    pub(crate) mask: u32,
    pub(crate) seed: u64,
}

impl RepeatFilterBuilder {
    /// Creates a builder without objects. About `objects` objects will be added. The bits depend on
    /// `hasher`.
    pub fn new<S: BuildHasher>(alloc: Global, hasher: &S, objects: u64) -> RepeatFilterBuilder
        ensures { result.bits.items ≡ [] }
    {
        RepeatFilterBuilder {
            bits: Vec::new(alloc),
            mask: mask_for(objects.saturating_mul(BITS)),
            seed: hasher.hash_one(SEED),
        }
    }

    /// Adds the next object of the file.
    ///
    /// # Errors
    ///
    /// Fails if out of memory. The object is not added then, and can be added again.
    #[inline(always)]
    pub fn add(&mut self, object: &Object) -> Result<(), AllocError>
        ensures added { OnOk result ((f : List ℕ) (i : ℕ) → Holds f i (held_of object.now)
            → AreAdded f i self.old → AreAdded f (suc i) self.new) }
        ensures refused { OnErr result (AddsNone self.old self.new) }
    {
        let bit = match object {
            Object::Scalar(scalar) => bit_of(self.mask, self.seed, scalar),
            _ => NO_BIT,
        };
        self.bits.push(bit)?;
        Ok(())
    }

    /// Builds the filter of the added objects.
    ///
    /// # Errors
    ///
    /// Fails if out of memory.
    pub fn build(self, alloc: Global) -> Result<RepeatFilter, AllocError>
        ensures { IfOk result (λ filter. (f : List ℕ) (i : ℕ) → AreAdded f i self
            → HasAdded f i filter) }
    {
        let again = seen_again(alloc, self.mask, &self.bits)?;
        Ok(RepeatFilter {
            bits: self.bits,
            again,
        })
    }
}

// Returns the bits that occur more than once. All of them are at most `mask`.
fn seen_again(alloc: Global, mask: u32, bits: &[u32]) -> Result<Bits, AllocError>
    ensures { IfOk result (AreSeenAgain (length bits.now) bits.now) }
{
    let mut once = Bits::new(alloc, mask)?;
    let mut again = Bits::new(alloc, mask)?;
    for bit in bits {
        if once.has(*bit) {
            again.set(*bit);
        }
        once.set(*bit);
    }
    Ok(again)
}

/// Tells which of the added objects may contain the same scalar as another, like a Bloom filter.
#[derive(Drop)]
pub struct RepeatFilter {
    // The bit of each object's scalar, or `NO_BIT` for a container.
    pub(crate) bits: Vec<u32>,
    // The bits that several objects have.
    pub(crate) again: Bits,
}

impl RepeatFilter {
    /// Returns the number of added objects.
    pub fn len(&self) -> usize
        ensures { result ≡ length self.now.bits.items }
    {
        self.bits.len()
    }

    /// Returns whether the object contains a scalar that another added object may also contain.
    pub fn may_repeat(&self, object: usize) -> bool
        requires { object < length self.now.bits.items }
        ensures { IsTrue result ↔ MayRepeat self.now object }
    {
        let bit = self.bits[object];
        bit != NO_BIT && self.again.has(bit)
    }

    // Returns whether the object is known to contain a scalar that no other added object contains.
    // `false` is only a hint: the scalar may still be unique.
    pub(crate) fn is_unlike(&self, object: usize) -> bool
        requires { object < length self.now.bits.items }
        ensures { IsTrue result ↔ IsUnlike self.now object }
    {
        let bit = self.bits[object];
        bit != NO_BIT && !self.again.has(bit)
    }
}

// Returns the filter of all objects of the file. Returns `None` if making it could read more bytes
// than the file has, which happens if scalars overlap, or if an object cannot be decoded.
pub(crate) fn filter_of<S: BuildHasher>(
    alloc: Global,
    hasher: &S,
    file: &BinFile,
) -> Result<Option<RepeatFilter>, AllocError>
    ensures { IfOk result (λ filter. IfSome filter
        (HasAdded (octets_of file.now) (trailer_of (octets_of file.now)).count)) }
{
    let mut builder = RepeatFilterBuilder::new(alloc, hasher, file.count());
    let mut left = file.table();
    for i in 0..file.count() {
        let Ok(object) = file.object(i) else {
            return Ok(None);
        };
        let length = length_of(&object);
        if length > left {
            return Ok(None);
        }
        left -= length;
        builder.add(&object)?;
    }
    let filter = builder.build(alloc)?;
    Ok(Some(filter))
}

// Returns the most units or bytes that are read to hash the object, except for scalars of fixed
// size.
fn length_of(object: &Object) -> u64 {
    match object {
        Object::Scalar(ScalarRef::Text(text)) => text.len() as u64,
        Object::Scalar(ScalarRef::Bytes(octets)) => octets.len() as u64,
        _ => 0,
    }
}
