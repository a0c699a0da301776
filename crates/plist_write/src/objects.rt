//! The objects of a file that encodes a value, whose content is known to be valid.
ghost use Rattle.plist_object.specs.Objects.{IsContent};
ghost use Rattle.plist_object.specs.Places.{Holds};
ghost use Rattle.plist_object.specs.Views.{held_of, octets_of};
ghost use Rattle.plist_write.specs.Spelling.{IsRead};

use plist_object::{BinFile, Object, Refs};
use std::alloc::Global;

// A file that encodes a value, and the allocator for what is made of it.
#[derive(Clone, Copy)]
pub(crate) struct Input<'a> {
    pub(crate) alloc: Global,
    pub(crate) file: BinFile<'a>,
}

// The references of a dictionary to its keys and, in the same order, to their values.
#[derive(Clone, Copy)]
pub(crate) struct TableRefs<'a> {
    pub(crate) keys: Refs<'a>,
    pub(crate) values: Refs<'a>,
}

// Decodes an object that is known to be valid.
pub(crate) fn object_of<'a>(file: &BinFile<'a>, n: u64) -> Object<'a>
    requires { IsRead (octets_of file.now) n }
    ensures holds { Holds (octets_of file.now) n (held_of result) }
    ensures valid { IsContent (held_of result) }
{
    file.object(n).unwrap()
}
