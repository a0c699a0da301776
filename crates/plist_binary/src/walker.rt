//! The data of a walk over the objects of a file: the file, and the nodes that are visited. The
//! walk itself is in walking.rt, and what it does at a node in visiting.rt.
ghost use Rattle.plist_value.specs.Plist.{AreOctets};
ghost use Rattle.plist_object.specs.Layout.{IsLaid};
ghost use Rattle.plist_object.specs.Views.{octets_of};

use plist_object::BinFile;
use std::alloc::Global;

// A depth-first walk over the objects of a file.
#[derive(Clone, Copy)]
pub(crate) struct Walker<'a> {
    pub(crate) alloc: Global,
    pub(crate) file: BinFile<'a>,
    ghost octets: { AreOctets (octets_of file) },
    ghost laid: { IsLaid (octets_of file) },
}

// The containers on the path from the top to an object, the last first.
#[derive(Clone, Copy)]
pub(crate) enum Path<'a> {
    // No container.
    Above,
    // A container, and the path to it.
    In(u64, &'a Path<'a>),
}

// A node of the value: the object at the end of a path, and the depth allowed for its value.
#[derive(Clone, Copy)]
pub(crate) struct Node<'a> {
    pub(crate) path: &'a Path<'a>,
    pub(crate) object: u64,
    pub(crate) levels: u64,
}
