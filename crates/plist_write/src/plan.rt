//! Maps each object of the canonical file to the input object that it is written from.
ghost use Rattle.std.specs.Prelude.{◌≡◌, ◌↔◌, ◌<◌, ℕ, List, [], length, IsOk, IfOk, OnOk};
ghost use Rattle.plist_value.specs.Scalars.{content_of};
ghost use Rattle.plist_object.specs.Layout.{trailer_of};
ghost use Rattle.plist_object.specs.Views.{octets_of};
ghost use Rattle.plist_write.specs.ObjectNumbers.{IsNumber, kept};
ghost use Rattle.plist_write.specs.Plan.{AddsObject, IsEmptyPlan, IsUnseen};
ghost use Rattle.plist_write.specs.Plan.{KnowsScalars, MeetsScalar, NumbersScalar};

use crate::object_numbers::{ObjectNumbers, UNIQUE};
use crate::objects::Input;
use crate::scalar_numbers::ScalarNumbers;
use plist_object::to_u32;
use plist_value::{MAX_NODES, ScalarRef};
use std::alloc::AllocError;
use std::hash::BuildHasher;

// The objects of a canonical file: for each number the input object that it is written from, and
// the references of all containers, one container after another.
#[derive(Drop)]
pub(crate) struct CanonicalObjects {
    pub(crate) originals: Vec<u32>,
    pub(crate) references: Vec<u32>,
}

// The objects so far, and a memo with the number of each input object that was visited as a
// scalar. A map contains these scalars, except those that are known to occur in one object only.
#[derive(Drop)]
pub(crate) struct Plan<'a, S: BuildHasher> {
    hasher: S,
    scalars: ScalarNumbers<'a, S>,
    pub(crate) memo: ObjectNumbers,
    originals: Vec<u32>,
    pub(crate) references: Vec<u32>,
}

impl<'a, S: BuildHasher + Copy> Plan<'a, S> {
    // Returns the empty plan. Capacity is reserved for what most files need, but for no more than
    // a value within the limits has. Reserved memory that is never used costs nothing.
    pub(crate) fn new(input: &Input, hasher: S) -> Result<Plan<'a, S>, AllocError>
        ensures empty { IfOk result IsEmptyPlan }
        ensures knows { IfOk result (KnowsScalars (octets_of input.now.file)) }
    {
        let (alloc, file) = (input.alloc, &input.file);
        let objects = file.count().min(MAX_NODES);
        let references = objects.saturating_mul(4).min(MAX_NODES);
        let memo = ObjectNumbers::new(alloc, file.count())?;
        let originals = Vec::with_capacity(alloc, objects as usize)?;
        let references = Vec::with_capacity(alloc, references as usize)?;
        Ok(Plan {
            hasher,
            scalars: ScalarNumbers::new(alloc, hasher, objects as usize),
            memo,
            originals,
            references,
        })
    }

    // Returns the number of the scalar of an object that was not visited before: the number of an
    // equal scalar, or a new one.
    pub(crate) fn scalar(
        &mut self,
        input: &Input,
        object: u64,
        scalar: ScalarRef<'a>,
    ) -> Result<u32, AllocError>
        requires { object < (trailer_of (octets_of input.now.file)).count }
        ensures numbers { IfOk result (NumbersScalar (octets_of input.now.file) object
            (content_of scalar.entry) self.old self.new) }
        ensures knows { OnOk result
            (IsUnseen (octets_of input.now.file) object (content_of scalar.entry) self.old
            → KnowsScalars (octets_of input.now.file) self.new) }
    {
        let file = &input.file;
        if let Some(number) = self.memo.number_at(file, object, &scalar) {
            self.memo.keep(object, number);
            return Ok(number);
        }
        self.memo
            .find_unique(input.alloc, &self.hasher, file, self.scalars.len())?;
        let next = self.next_number()?;
        if let Some(number) = meet(&self.memo, &mut self.scalars, object, scalar, next)? {
            self.memo.keep_scalar(file, object, &scalar, number)?;
            return Ok(number);
        }
        let original = to_u32(object)?;
        self.originals.push(original)?;
        self.memo.keep_scalar(file, object, &scalar, next)?;
        Ok(next)
    }

    // Returns a new number for the scalar of an object, which no other object contains. The scalar
    // is not read.
    #[inline(always)]
    pub(crate) fn unique_scalar(&mut self, object: u64) -> Result<u32, AllocError>
        requires { kept self.old.memo object ≡ UNIQUE }
        ensures numbers { IfOk result (λ number. (f : List ℕ) (r : ScalarRef)
            → NumbersScalar f object (content_of r) self.old self.new number) }
        ensures knows { OnOk result ((f : List ℕ) (r : ScalarRef)
            → IsUnseen f object (content_of r) self.old → KnowsScalars f self.new) }
    {
        let number = self.add(object)?;
        self.memo.keep(object, number);
        Ok(number)
    }

    // Adds an object, whose references are still to be appended. Returns its number.
    #[inline(always)]
    pub(crate) fn add(&mut self, object: u64) -> Result<u32, AllocError>
        ensures adds { IfOk result (AddsObject object [] self.old self.new) }
        ensures some { IfOk result IsNumber }
    {
        let number = self.next_number()?;
        let original = to_u32(object)?;
        self.originals.push(original)?;
        Ok(number)
    }

    // Keeps only the objects, and frees the map and the memo.
    pub(crate) fn into_objects(self) -> CanonicalObjects
        ensures originals { result.originals ≡ self.entry.originals }
        ensures references { result.references ≡ self.entry.references }
    {
        CanonicalObjects {
            originals: self.originals,
            references: self.references,
        }
    }

    // Fails at `UNIQUE` and above, which the memo does not use as numbers.
    fn next_number(&self) -> Result<u32, AllocError>
        ensures fits { IsOk result ↔ (length self.now.originals.items < UNIQUE) }
        ensures is { IfOk result (λ number. number ≡ length self.now.originals.items) }
        ensures some { IfOk result IsNumber }
    {
        let number = to_u32(self.originals.len() as u64)?;
        if number >= UNIQUE {
            return Err(AllocError);
        }
        Ok(number)
    }
}

// Returns the number of an equal scalar that was visited before. If there is none, gives the scalar
// the number `next` in the map, unless no other object contains an equal one.
fn meet<'a, S: BuildHasher + Copy>(
    memo: &ObjectNumbers,
    scalars: &mut ScalarNumbers<'a, S>,
    object: u64,
    scalar: ScalarRef<'a>,
    next: u32,
) -> Result<Option<u32>, AllocError>
    ensures { IfOk result
        (MeetsScalar memo.now object scalar.entry next scalars.old scalars.new) }
{
    if memo.is_unique(object) {
        return Ok(None);
    }
    scalars.enter(scalar, next)
}
