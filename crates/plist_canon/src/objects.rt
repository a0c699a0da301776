//! A file that is checked, and the contents of its objects.
ghost use Rattle.std.specs.Prelude.{◌≡◌, ◌<◌, IfSome, IfNone, take};
ghost use Rattle.plist_value.specs.Plist.{Scalar};
ghost use Rattle.plist_value.specs.Scalars.{content_of};
ghost use Rattle.plist_object.specs.Layout.{trailer_of};
ghost use Rattle.plist_object.specs.Views.{octets_of};
ghost use Rattle.plist_write.specs.RepeatFilter.{HoldsIt};

use plist_object::{BinFile, Object};
use plist_value::ScalarRef;
use std::alloc::Global;

// A file that is checked, the bytes before its offset table, and the allocator for what is kept.
#[derive(Clone, Copy)]
pub(crate) struct Input<'a> {
    pub(crate) alloc: Global,
    pub(crate) file: BinFile<'a>,
    pub(crate) objects: &'a [u8],
    ghost cut: { objects.now ≡ take (trailer_of (octets_of file)).table (octets_of file) },
}

// Returns the scalar that object `n` contains, if it is a scalar.
pub(crate) fn scalar_of<'a>(file: &BinFile<'a>, n: u64) -> Option<ScalarRef<'a>>
    requires { n < (trailer_of (octets_of file.now)).count }
    ensures some { IfSome result (λ s. HoldsIt (octets_of file.now) n (content_of s)) }
    ensures none { IfNone result ((s : Scalar) → ¬ HoldsIt (octets_of file.now) n s) }
{
    match file.object(n) {
        Ok(Object::Scalar(scalar)) => Some(scalar),
        _ => None,
    }
}
