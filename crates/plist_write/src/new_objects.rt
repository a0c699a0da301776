//! The objects and the trailer of the canonical file: their sizes, and appending them.
ghost use Rattle.std.specs.Prelude.{◌≡◌, ◌++◌, length, OnOk};
ghost use Rattle.plist_object.specs.Sizes.{IsWidth};
ghost use Rattle.plist_write.specs.Canonical.{trailer_octets};
ghost use Rattle.plist_write.specs.Pieces.{CanSpellObject, octets_in_object};

use plist_object::{
    list_length, put_scalar, put_short_list, put_short_table, scalar_length, table_length, width_of,
};
use plist_value::ScalarRef;
use std::alloc::AllocError;

// An object of the canonical file: the bytes of a scalar in its canonical encoding, a scalar, the
// numbers of an array's items, or the numbers of a dictionary's keys and values.
#[derive(Clone, Copy)]
pub(crate) enum NewObject<'a, 'b> {
    Spelled(&'a [u8]),
    Scalar(ScalarRef<'a>),
    List(&'b [u32]),
    Table(&'b [u32], &'b [u32]),
}

// Returns the number of bytes of the object, with references of `width` bytes.
#[inline(always)]
pub(crate) fn object_length(width: u8, object: &NewObject) -> u64
    requires width { IsWidth width }
    requires spellable { CanSpellObject width object.now }
    ensures { result ≡ length (octets_in_object width object.now) }
{
    match object {
        NewObject::Spelled(octets) => octets.len() as u64,
        NewObject::Scalar(scalar) => scalar_length(scalar),
        NewObject::List(items) => list_length(items.len() as u64, width),
        NewObject::Table(keys, _) => table_length(keys.len() as u64, width),
    }
}

// Appends the object to `out`.
pub(crate) fn put_object(out: &mut Vec<u8>, width: u8, object: &NewObject) -> Result<(), AllocError>
    requires width { IsWidth width }
    requires spellable { CanSpellObject width object.now }
    ensures { OnOk result
        (out.new.items ≡ out.old.items ++ octets_in_object width object.now) }
{
    match object {
        NewObject::Spelled(octets) => out.extend_from_slice(octets),
        NewObject::Scalar(scalar) => put_scalar(out, scalar),
        NewObject::List(items) => put_short_list(out, width, items),
        NewObject::Table(keys, values) => put_short_table(out, width, keys, values),
    }
}

// Appends the trailer of a file of `count` objects whose offset table is at `offset`.
pub(crate) fn put_trailer(out: &mut Vec<u8>, count: u64, offset: u64) -> Result<(), AllocError>
    ensures { OnOk result (out.new.items ≡ out.old.items ++ trailer_octets count offset) }
{
    plist_object::put_trailer(out, width_of(offset), width_of(count), count, 0, offset)
}
