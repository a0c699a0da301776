//! Visiting the objects of a file in the order of their numbers.
ghost use Rattle.std.specs.Prelude.{◌≡◌, ◌+◌, ℕ, List, Ok, IfOk, OnOk, length};
ghost use Rattle.plist_object.specs.Places.{Holds, span_of};
ghost use Rattle.plist_object.specs.Views.{held_of, octets_of};
ghost use Rattle.plist_canon.specs.Visited.{AreVisited};

use crate::preorder::Walk;
use plist_object::{BinFile, Spanned};
use plist_write::RepeatFilterBuilder;
use std::alloc::{AllocError, Global};
use std::hash::BuildHasher;

// What is kept of the objects visited so far, which are the first of the file.
#[derive(Drop)]
pub(crate) struct Visited<'a> {
    // The end of the last object visited, or of the header.
    pub(crate) end: u64,
    pub(crate) builder: RepeatFilterBuilder,
    pub(crate) walk: Walk<'a>,
}

impl<'a> Visited<'a> {
    // Returns the state in which no object has been visited.
    pub(crate) fn new<S: BuildHasher>(
        alloc: Global,
        hasher: &S,
        file: &BinFile,
    ) -> Result<Visited<'a>, AllocError>
        ensures { IfOk result (AreVisited (octets_of file.now) 0) }
    {
        Ok(Visited {
            end: 8,
            builder: RepeatFilterBuilder::new(alloc, hasher, file.count()),
            walk: Walk::new(alloc, file.count())?,
        })
    }

    // Visits the next object, which was decoded as `read`.
    #[inline(always)]
    pub(crate) fn visit(&mut self, read: &Spanned<'a>) -> Result<(), AllocError>
        ensures { OnOk result ((f : List ℕ) (i : ℕ) → Holds f i (held_of read.now.object)
            → span_of f i ≡ Ok (read.now.start, read.now.end)
            → AreVisited f i self.old → AreVisited f (i + 1) self.new) }
    {
        self.end = read.end;
        self.builder.add(&read.object)?;
        self.walk.visit(&read.object)?;
        Ok(())
    }
}
