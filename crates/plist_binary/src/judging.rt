//! The validator of binary property lists: it finds every refusal of the reader and builds no
//! value.
ghost use Rattle.std.specs.Prelude.{◌≡◌, ◌≢◌, IfOk, IfErr, OnOk};
ghost use Rattle.plist_value.specs.Plist.{Plist};
ghost use Rattle.plist_value.specs.Writable.{is_writable};
ghost use Rattle.plist_keys.specs.KeyOrder.{IsReady};
ghost use Rattle.plist_object.specs.Spelled.{IsBinary};
ghost use Rattle.plist_object.specs.Views.{octets_of};
ghost use Rattle.plist_binary.specs.Faults.{Stands};

use crate::BinaryFault;
use crate::walker::Walker;
use plist_keys::JudgedFile;
use plist_object::BinFile;
use std::alloc::Global;

/// Validates a binary property list: returns the fault that `read` would return, without building
/// the value. Each object is validated once, even if several references point to it, and once more
/// if it is also a key. So time and memory grow with the file, not with the value. Only if objects
/// overlap are keys read again for each dictionary, to sort them.
///
/// # Errors
///
/// The first fault in this order: the layout; then, for each reference in preorder from the top,
/// - a reference to no object;
/// - a reference to a container on the path to it;
/// - a node too many;
/// - a node too deep;
/// - the object's own fault;
/// - a key that is no string;
/// - too much payload.
///
/// In a dictionary all keys come first, then duplicate keys, then the values. `OutOfMemory` may
/// come before any of them.
pub fn judge(alloc: Global, octets: &[u8]) -> Result<(), BinaryFault>
    ensures ok { OnOk result ((v : Plist) × IsBinary octets.now v) }
    ensures refused { IfErr result (λ fault. fault ≢ BinaryFault.OutOfMemory → (v : Plist) →
        IsBinary octets.now v → ⊥) }
    ensures stands { IfErr result (Stands octets.now) }
{
    match judge_file(alloc, octets) {
        Ok(_) => Ok(()),
        Err(fault) => Err(fault),
    }
}

/// Validates like [`judge`] and returns the file with what was found: its layout need not be read
/// again, nor the keys be sorted again that were sorted last.
///
/// # Errors
///
/// Fails like [`judge`].
pub fn judge_file(alloc: Global, octets: &[u8]) -> Result<JudgedFile<'_>, BinaryFault>
    ensures file { IfOk result (λ judged. octets_of judged.file ≡ octets.entry.now) }
    ensures ok { OnOk result ((v : Plist) × IsBinary octets.entry.now v) }
    ensures ready { IfOk result (λ judged. IsReady octets.entry.now judged.order) }
    ensures writable { IfOk result (λ judged. (v : Plist) → IsBinary octets.entry.now v
        → is_writable v ≡ judged.writable) }
    ensures refused { IfErr result (λ fault. fault ≢ BinaryFault.OutOfMemory → (v : Plist) →
        IsBinary octets.entry.now v → ⊥) }
    ensures stands { IfErr result (Stands octets.entry.now) }
{
    let file = BinFile::of(octets)?;
    let walker = Walker { alloc, file };
    let known = walker.top()?;
    Ok(JudgedFile {
        file,
        order: known.order.renewed(&file),
        writable: known.writable,
    })
}
