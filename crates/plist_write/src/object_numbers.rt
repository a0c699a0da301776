//! The object numbers of the objects that were visited as scalars.
ghost use Rattle.std.specs.Prelude.{◌≡◌, ◌≤◌, ◌<◌, ℕ, length, true};
ghost use Rattle.std.specs.Prelude.{IfOk, IfSome, IfNone, OnOk};
ghost use Rattle.plist_object.specs.Layout.{trailer_of};
ghost use Rattle.plist_object.specs.Views.{octets_of};
ghost use Rattle.plist_write.specs.ObjectNumbers.{IsNumber, IsNumberAt, KeepsNumber, MarksUnique};
ghost use Rattle.plist_write.specs.ObjectNumbers.{FindsUnique, kept};

use crate::repeat_filter::{RepeatFilter, filter_of};
use plist_object::BinFile;
use plist_value::ScalarRef;
use std::alloc::{AllocError, Global};
use std::collections::BTreeMap;
use std::hash::BuildHasher;

// Marks an object that has no number.
const NO_NUMBER: u32 = u32::MAX;

// Marks an object that has no number, and whose scalar no other object contains. All smaller
// values are numbers.
pub(crate) const UNIQUE: u32 = NO_NUMBER - 1;

// With fewer scalars than this in the map, looking for unique objects does not pay.
const MANY: usize = 4_096;

// Strings and data of at least this many units or bytes are long.
const LONG: usize = 32;

// The number of each object of the file that was visited as a scalar.
#[derive(Drop)]
pub(crate) struct ObjectNumbers {
    pub(crate) numbers: Vec<u32>,
    // Whether unique objects were already looked for.
    pub(crate) is_searched: bool,
    // For the offset of each long scalar that was visited, an object that begins there.
    pub(crate) offsets: BTreeMap<u64, u64>,
}

impl ObjectNumbers {
    // Returns the numbers of `count` objects, none of which was visited.
    pub(crate) fn new(alloc: Global, count: u64) -> Result<ObjectNumbers, AllocError>
        ensures listed { IfOk result (λ memo. length memo.numbers.items ≡ count) }
        ensures none { IfOk result (λ memo. (i : ℕ) → kept memo i ≡ NO_NUMBER) }
    {
        let mut numbers = Vec::new(alloc);
        numbers.resize(count as usize, NO_NUMBER)?;
        Ok(ObjectNumbers {
            numbers,
            is_searched: false,
            offsets: BTreeMap::new(alloc),
        })
    }

    // Returns the number of the object, if it was visited.
    #[inline(always)]
    pub(crate) fn number_of(&self, object: u64) -> Option<u32>
        ensures is { IfSome result (λ number. kept self.now object ≡ number) }
        ensures some { IfSome result IsNumber }
        ensures none { IfNone result (UNIQUE ≤ kept self.now object) }
    {
        match self.numbers.get(object as usize) {
            Some(number) if *number < UNIQUE => Some(*number),
            _ => None,
        }
    }

    // Returns whether the object is known to contain a scalar that no other object contains, and
    // was not visited.
    #[inline(always)]
    pub(crate) fn is_unique(&self, object: u64) -> bool
        ensures { result ≡ true → kept self.now object ≡ UNIQUE }
    {
        self.numbers.get(object as usize) == Some(&UNIQUE)
    }

    #[inline(always)]
    pub(crate) fn keep(&mut self, object: u64, number: u32)
        ensures { KeepsNumber object number self.old self.new }
    {
        let index = object as usize;
        if index < self.numbers.len() {
            self.numbers[index] = number;
        }
    }

    // Like [`keep`](ObjectNumbers::keep), but later objects at the same offset are found if the
    // scalar of the object is long.
    pub(crate) fn keep_scalar(
        &mut self,
        file: &BinFile,
        object: u64,
        scalar: &ScalarRef,
        number: u32,
    ) -> Result<(), AllocError>
        requires { object < (trailer_of (octets_of file.now)).count }
        ensures { OnOk result (KeepsNumber object number self.old self.new) }
    {
        self.keep(object, number);
        if is_long(scalar) {
            self.offsets.insert(file.place(object), object)?;
        }
        Ok(())
    }

    // Returns the number of an object that was visited and begins at the same offset, if the
    // scalar is long. Many objects may be the same bytes, which are then hashed only once.
    pub(crate) fn number_at(&self, file: &BinFile, object: u64, scalar: &ScalarRef) -> Option<u32>
        requires { object < (trailer_of (octets_of file.now)).count }
        ensures { IfSome result (IsNumberAt (octets_of file.now) object self.now) }
    {
        if !is_long(scalar) {
            return None;
        }
        let offset = file.place(object);
        let first = *self.offsets.get(&offset)?;
        // (Tested, so that nothing has to be known about the map.)
        if first >= file.count() || file.place(first) != offset {
            return None;
        }
        let number = self.number_of(first)?;
        Some(number)
    }

    // Looks for unique objects, unless that was already done or there are too few scalars in the
    // map for it to pay.
    #[inline(always)]
    pub(crate) fn find_unique<S: BuildHasher>(
        &mut self,
        alloc: Global,
        hasher: &S,
        file: &BinFile,
        scalars: usize,
    ) -> Result<(), AllocError>
        ensures { OnOk result (FindsUnique (octets_of file.now) self.old self.new) }
    {
        if self.is_searched || scalars < MANY {
            return Ok(());
        }
        self.search(alloc, hasher, file)
    }

    #[inline(never)]
    fn search<S: BuildHasher>(
        &mut self,
        alloc: Global,
        hasher: &S,
        file: &BinFile,
    ) -> Result<(), AllocError>
        ensures { OnOk result (FindsUnique (octets_of file.now) self.old self.new) }
    {
        self.is_searched = true;
        if let Some(filter) = filter_of(alloc, hasher, file)? {
            mark_unique(&mut self.numbers, &filter);
        }
        Ok(())
    }
}

// Marks the objects that have no number and contain a scalar that no other object contains.
fn mark_unique(numbers: &mut Vec<u32>, filter: &RepeatFilter)
    ensures { MarksUnique filter.now numbers.old.items numbers.new.items }
{
    for i in 0..numbers.len().min(filter.len()) {
        if numbers[i] == NO_NUMBER && filter.is_unlike(i) {
            numbers[i] = UNIQUE;
        }
    }
}

// Returns whether hashing the scalar takes longer than looking up its offset.
fn is_long(scalar: &ScalarRef) -> bool {
    match scalar {
        ScalarRef::Text(text) => text.len() >= LONG,
        ScalarRef::Bytes(octets) => octets.len() >= LONG,
        _ => false,
    }
}
