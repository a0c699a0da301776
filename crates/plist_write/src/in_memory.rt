//! The canonical file, in memory.
ghost use Rattle.std.specs.Prelude.{◌≡◌, IfOk};
ghost use Rattle.plist_value.specs.Plist.{Plist};
ghost use Rattle.plist_keys.specs.KeyOrder.{IsReady};
ghost use Rattle.plist_object.specs.Spelled.{IsBinary};
ghost use Rattle.plist_object.specs.Views.{octets_of};
ghost use Rattle.plist_write.specs.Canonical.{canon};

use crate::sending::write_canonical_of;
use plist_devices::GrowingSink;
use plist_keys::JudgedFile;
use std::alloc::{AllocError, Global};
use std::hash::BuildHasher;

/// Returns the canonical file of the value that the file encodes.
///
/// Visits the objects that the value uses, without building the value, and then the objects of the
/// canonical file. Each value has exactly one canonical file, which is a binary file of it. The
/// layout is that of CFBinaryPList.c; the choice among the files of one value is our profile.
///
/// A dictionary with the same keys as the one before reuses its order. For `hasher` see
/// [`write_canonical_of`].
///
/// # Errors
///
/// Fails if there is no memory for the file, or for the plan of its objects.
pub fn canonical_of<S: BuildHasher + Copy>(
    alloc: Global,
    hasher: S,
    judged: JudgedFile,
) -> Result<Vec<u8>, AllocError>
    requires binary { (v : Plist) × IsBinary (octets_of judged.file) v }
    requires ready { IsReady (octets_of judged.file) judged.order }
    ensures { IfOk result (λ octets. (v : Plist) → IsBinary (octets_of judged.entry.file) v
        → octets.items ≡ canon v) }
{
    let mut sink = GrowingSink::new(alloc);
    match write_canonical_of(alloc, hasher, judged, &mut sink) {
        Ok(_) => Ok(sink.into_octets()),
        Err(_) => Err(AllocError),
    }
}
