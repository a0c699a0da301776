//! Makes the canonical file of a value, by way of a binary file that the value is put into.
ghost use Rattle.std.specs.Prelude.{◌≡◌, IfOk};
ghost use Rattle.plist_value.specs.Limits.{Fits};
ghost use Rattle.plist_value.specs.View.{view};
ghost use Rattle.plist_object.specs.Spelled.{IsBinary};
ghost use Rattle.plist_write.specs.Canonical.{canon, objects_of};
ghost use Rattle.plist_write.specs.Sending.{ArePieces, IsWritten};
ghost use Rattle.plist_write.specs.Tree.{preorder};

use crate::WriteFault;
use plist_devices::Sink;
use plist_draft::{Draft, put_value};
use plist_keys::JudgedFile;
use plist_object::BinFile;
use plist_value::{FixedHasher, Value};
use plist_write::{canonical_of, write_canonical_of};
use std::alloc::{AllocError, Global};
use std::hash::BuildHasher;

/// Returns the canonical file of a value within the limits. Each value has exactly one: a binary
/// file (the layout of CFBinaryPList.c), chosen among the files of that value by this project's
/// profile.
///
/// Copies the value into another binary file, from which
/// [`canonical_of`](plist_write::canonical_of) makes the canonical one.
///
/// # Errors
///
/// Fails if there is no memory for either file, or for the plan of the objects.
pub fn canonical(alloc: Global, value: &Value) -> Result<Vec<u8>, AllocError>
    requires { Fits (view value.now) }
    ensures { IfOk result (λ octets. octets.items ≡ canon (view value.now)) }
{
    canonical_with_hasher(alloc, FixedHasher::new(), value)
}

/// Like [`canonical`], but hashes scalars with `hasher`, as explained at
/// [`write_canonical_with_hasher`].
///
/// # Errors
///
/// Fails like [`canonical`].
pub fn canonical_with_hasher<S: BuildHasher + Copy>(
    alloc: Global,
    hasher: S,
    value: &Value,
) -> Result<Vec<u8>, AllocError>
    requires { Fits (view value.now) }
    ensures { IfOk result (λ octets. octets.items ≡ canon (view value.now)) }
{
    let octets = binary_of(alloc, value)?;
    let Ok(file) = BinFile::of(&octets) else {
        unreachable!();
    };
    canonical_of(alloc, hasher, JudgedFile::of_draft(alloc, file, false))
}

/// Sends the canonical file of a value within the limits, object by object, and returns its length
/// in bytes. The value is copied into a binary file, but its canonical file is never in memory as a
/// whole: no piece is longer than the longest object or 4,096 bytes.
///
/// # Errors
///
/// Fails with [`WriteFault::WriteFailed`] (51) if the sink fails, and with
/// [`WriteFault::OutOfMemory`] (60) if there is no memory for the copy, for the plan of the objects
/// or for an object. In both cases exactly the first `sent` bytes of the file were sent.
pub fn write_canonical<W: Sink>(
    alloc: Global,
    value: &Value,
    out: &mut W,
) -> Result<u64, WriteFault>
    requires { Fits (view value.now) }
    ensures written { IsWritten (canon (view value.now)) (W.taken out.old) (W.taken out.new)
        (W.failures out.old) (W.failures out.new) result }
    ensures same { W.device out.new ≡ W.device out.old }
    ensures pieces { ArePieces (objects_of (preorder (view value.now)))
        (W.longest out.old) (W.longest out.new) }
{
    write_canonical_with_hasher(alloc, FixedHasher::new(), value, out)
}

/// Like [`write_canonical`], but hashes scalars with `hasher`. If values come from an untrusted
/// source, pass a [`RandomState`](std::hash::RandomState), so that scalars chosen to collide under
/// [`FixedHasher`] cost no more than others.
///
/// # Errors
///
/// Fails like [`write_canonical`].
pub fn write_canonical_with_hasher<S: BuildHasher + Copy, W: Sink>(
    alloc: Global,
    hasher: S,
    value: &Value,
    out: &mut W,
) -> Result<u64, WriteFault>
    requires { Fits (view value.now) }
    ensures written { IsWritten (canon (view value.now)) (W.taken out.old) (W.taken out.new)
        (W.failures out.old) (W.failures out.new) result }
    ensures same { W.device out.new ≡ W.device out.old }
    ensures pieces { ArePieces (objects_of (preorder (view value.now)))
        (W.longest out.old) (W.longest out.new) }
{
    let octets = binary_of(alloc, value)?;
    let Ok(file) = BinFile::of(&octets) else {
        unreachable!();
    };
    write_canonical_of(alloc, hasher, JudgedFile::of_draft(alloc, file, false), out)
}

// Returns a binary file of the value, with an object for each use of a scalar.
fn binary_of(alloc: Global, value: &Value) -> Result<Vec<u8>, AllocError>
    requires { Fits (view value.now) }
    ensures { IfOk result (λ octets. IsBinary octets.items (view value.now)) }
{
    let mut draft = Draft::new(alloc)?;
    let top = put_value(alloc, &mut draft, value)?;
    draft.finish(top)
}
