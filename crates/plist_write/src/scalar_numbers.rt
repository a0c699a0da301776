//! A map from scalars to object numbers.
ghost use Rattle.std.specs.Prelude.{◌≡◌, IfOk, OnErr};
ghost use Rattle.plist_value.specs.Scalars.{content_of};
ghost use Rattle.plist_write.specs.ScalarNumbers.{AreNew, AreNumbered, EntersScalar, IsUnlisted};
ghost use Rattle.plist_write.specs.ScalarNumbers.{KeepsScalars, is_long, number_listed};

use indexmap::IndexMap;
use plist_value::ScalarRef;
use std::alloc::{AllocError, Global};
use std::hash::BuildHasher;

// The map grows by itself up to this number of scalars. Then, and at 8 and at 64 times as many,
// space is reserved for those that are likely to come.
const MANY: usize = 8_192;

// Data of at least this many bytes is long.
const LONG: usize = 65_536;

// The most long data in the list. It is small because later long data is compared with each entry.
const MOST_LISTED: usize = 8;

#[derive(Clone, Copy)]
struct Listed<'a> {
    scalar: ScalarRef<'a>,
    number: u32,
}

/// Scalars that already have an object number, with their numbers.
///
/// The first pieces of long data are in a list and are found by comparison, which ends at the first
/// difference, while a hash would read all of their bytes. All other scalars are in a hash map.
#[derive(Drop)]
pub struct ScalarNumbers<'a, S: BuildHasher> {
    listed: Vec<Listed<'a>>,
    hashed: IndexMap<ScalarRef<'a>, u32, S>,
    most: usize,
}

impl<'a, S: BuildHasher> ScalarNumbers<'a, S> {
    /// Returns an empty map. It will have at most `most` scalars, which are hashed by `hasher`.
    pub fn new(alloc: Global, hasher: S, most: usize) -> ScalarNumbers<'a, S>
        ensures { AreNew result }
    {
        ScalarNumbers {
            listed: Vec::new(alloc),
            hashed: IndexMap::with_hasher(alloc, hasher),
            most,
        }
    }

    // Returns the number of scalars in the hash map.
    pub(crate) fn len(&self) -> usize {
        self.hashed.len()
    }

    /// Returns the number of the scalar. If it has none, gives it the number `next` and returns
    /// `None`.
    ///
    /// # Errors
    ///
    /// Fails if out of memory. All numbers are then as they were.
    pub fn enter(&mut self, scalar: ScalarRef<'a>, next: u32) -> Result<Option<u32>, AllocError>
        ensures entered { IfOk result (λ had. AreNumbered self.old
            → EntersScalar scalar.entry next self.old self.new had) }
        ensures refused { OnErr result (KeepsScalars self.old self.new) }
    {
        if !is_long_data(scalar) {
            return self.enter_hashed(scalar, next);
        }
        if let Some(number) = self.number_of_listed(scalar) {
            return Ok(Some(number));
        }
        if self.listed.len() >= MOST_LISTED {
            return self.enter_hashed(scalar, next);
        }
        self.listed.push(Listed {
            scalar,
            number: next,
        })?;
        Ok(None)
    }

    // Looks up the scalar in the list only.
    fn number_of_listed(&self, scalar: ScalarRef) -> Option<u32>
        ensures { result ≡ number_listed self.now.listed.items (content_of scalar.entry) }
    {
        for one in &self.listed {
            if one.scalar == scalar {
                return Some(one.number);
            }
        }
        None
    }

    // Like `enter`, for a scalar that is not in the list and will not be added to it.
    fn enter_hashed(&mut self, scalar: ScalarRef<'a>, next: u32) -> Result<Option<u32>, AllocError>
        ensures entered { IfOk result (λ had. IsUnlisted self.old scalar.entry
            → EntersScalar scalar.entry next self.old self.new had) }
        ensures refused { OnErr result (KeepsScalars self.old self.new) }
    {
        let known = self.hashed.len();
        if is_due(known) {
            self.hashed.reserve(likely(known, next, self.most))?;
        }
        let (index, had) = self.hashed.insert_full(scalar, next)?;
        // A scalar that has a number keeps it.
        if let Some(number) = had {
            self.hashed[index] = number;
        }
        Ok(had)
    }
}

// Estimates how many scalars are still to come: there are `known` among the first `so_far` objects,
// and there will be at most `most` objects. Returns at most seven times as many as are known, since
// a map that is too large makes lookups slower, and one that is too small still grows.
fn likely(known: usize, so_far: u32, most: usize) -> usize {
    let all = most.saturating_mul(known) / (so_far as usize).max(known).max(1);
    all.min(known.saturating_mul(7))
}

// Returns whether to reserve space for more scalars, now that this number is known.
fn is_due(known: usize) -> bool {
    known == MANY || known == 8 * MANY || known == 64 * MANY
}

// Returns whether the scalar is data that takes long to hash.
pub(crate) fn is_long_data(scalar: ScalarRef) -> bool
    ensures { result ≡ is_long (content_of scalar.entry) }
{
    match scalar {
        ScalarRef::Bytes(octets) => octets.len() >= LONG,
        _ => false,
    }
}
