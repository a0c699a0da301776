//! The reader of binary property lists, which validates a file and then builds its value.
ghost use Rattle.std.specs.Prelude.{◌≡◌, ◌≢◌, IfOk, IfErr};
ghost use Rattle.plist_value.specs.Plist.{Plist};
ghost use Rattle.plist_value.specs.View.{view};
ghost use Rattle.plist_object.specs.Spelled.{IsBinary};
ghost use Rattle.plist_binary.specs.Faults.{Stands};

use crate::BinaryFault;
use crate::building::Builder;
use crate::judging::judge_file;
use plist_value::{MAX_DEPTH, Value};
use std::alloc::Global;

/// Returns the value of the top object. Validates the bytes first, so that memory is allocated for
/// a value only if there is one.
///
/// # Errors
///
/// Fails with the first fault: that of the layout, or that of the first bad reference in preorder
/// from the top. All keys of a dictionary come first, then duplicate keys, then its values. For one
/// reference the faults come in this order:
///
/// - it refers to no object, or to a container on the path to it;
/// - it is a node too many, or too deep;
/// - the object cannot be decoded;
/// - it is a key but not a string;
/// - it has too much payload.
///
/// Out of memory may come before any of them.
pub fn read(alloc: Global, octets: &[u8]) -> Result<Value, BinaryFault>
    ensures read { IfOk result (λ value. IsBinary octets.now (view value)) }
    ensures refused { IfErr result (λ fault. fault ≢ BinaryFault.OutOfMemory → (v : Plist) →
        IsBinary octets.now v → ⊥) }
    ensures stands { IfErr result (Stands octets.now) }
{
    let judged = judge_file(alloc, octets)?;
    let file = judged.file;
    Ok(Builder { alloc, file }.value(file.top(), MAX_DEPTH)?)
}
