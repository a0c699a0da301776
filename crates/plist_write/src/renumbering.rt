//! Builds the objects of the canonical file from those of the input and the numbers of their
//! children.
ghost use Rattle.std.specs.Prelude.{◌≡◌, ◌≤◌, ℕ, length, drop};
ghost use Rattle.plist_object.specs.Shortest.{spelling_of};
ghost use Rattle.plist_object.specs.Views.{octets_of};
ghost use Rattle.plist_write.specs.Spelling.{IsRead};
ghost use Rattle.plist_write.specs.Pieces.{CanSpell, CanSpellObject, octets_in_object};
ghost use Rattle.plist_write.specs.Renumbering.{held_in, reference_count, renumbered};

use crate::new_objects::NewObject;
use crate::objects::object_of;
use plist_object::{BinFile, Object};

// Returns the canonical object of an object of the input, with the first of the numbers as its
// references, and the numbers that remain. A scalar whose bytes are recognised as canonical is not
// decoded.
pub(crate) fn renumbered_object<'a, 'b>(
    file: &BinFile<'a>,
    object: u64,
    numbers: &'b [u32],
) -> (NewObject<'a, 'b>, &'b [u32])
    requires read { IsRead (octets_of file.now) object }
    requires numbers { reference_count (held_in (octets_of file.now) object)
        ≤ length numbers.now }
    ensures spelled { (width : ℕ) → octets_in_object width result.0
        ≡ spelling_of width (renumbered (held_in (octets_of file.now) object) numbers.entry.now) }
    ensures spellable { (width : ℕ)
        → CanSpell width (renumbered (held_in (octets_of file.now) object) numbers.entry.now)
        → CanSpellObject width result.0 }
    ensures behind { result.1.now
        ≡ drop (reference_count (held_in (octets_of file.now) object)) numbers.entry.now }
{
    if let Some(octets) = file.spelled(object) {
        return (NewObject::Spelled(octets), numbers);
    }
    match object_of(file, object) {
        Object::Scalar(scalar) => (NewObject::Scalar(scalar), numbers),
        Object::List(items) => {
            let count = items.len() as usize;
            (NewObject::List(&numbers[..count]), &numbers[count..])
        }
        Object::Table(keys, _) => {
            let count = keys.len() as usize;
            let (of_keys, others) = (&numbers[..count], &numbers[count..]);
            (
                NewObject::Table(of_keys, &others[..count]),
                &others[count..],
            )
        }
    }
}
