//! What follows the objects of a file, and the range of its bytes.
ghost use Rattle.std.specs.Prelude.{◌≡◌, ◌++◌, OnOk};
ghost use Rattle.plist_value.specs.Plist.{AllUnder, AreOctets};
ghost use Rattle.plist_object.specs.Spelling.{references};

use plist_object::put_number;
use std::alloc::AllocError;

// Appends the offsets of the objects to `out`, in four bytes each.
pub(crate) fn put_offsets(out: &mut Vec<u8>, offsets: &[u32]) -> Result<(), AllocError>
    ensures put { OnOk result (out.new.items ≡ out.old.items ++ references 4 offsets.now) }
    ensures fit { AllUnder 4294967296 offsets.now }
{
    for offset in offsets {
        put_number(out, 4, u64::from(*offset))?;
    }
    Ok(())
}

// Does nothing at run time. It tells the proofs that bytes are below 256, which their type
// implies.
pub(crate) fn are_octets(octets: &[u8])
    ensures { AreOctets octets.now }
{}
