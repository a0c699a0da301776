//! Finds scalars that were appended before.
ghost use Rattle.std.specs.Prelude.{IfSome};
ghost use Rattle.std.specs.Bool.{OnTrue};
ghost use Rattle.plist_draft.specs.Stored.{StandsAgain};

use plist_value::FixedHasher;
use std::alloc::{AllocError, Global};
use std::hash::{BuildHasher, Hasher};

// The number of slots of the first table.
const LEAST: usize = 64;

// The number of slots of the largest table: 512 KiB, which fits a processor's cache.
const MOST: usize = 65_536;

// The entry of an empty slot: no object has this number.
const NOTHING: Entry = Entry {
    number: u32::MAX,
    hash: 0,
};

// The number of a scalar, with its hash.
#[derive(Clone, Copy)]
struct Entry {
    number: u32,
    hash: u32,
}

// A table of the scalar appended last in each slot; the hash determines the slot. A scalar
// appended long ago may not be found, but no input makes a lookup slow.
#[derive(Drop)]
pub(crate) struct Recent {
    slots: Vec<Entry>,
}

impl Recent {
    // Creates an empty table, without slots.
    pub(crate) fn new(alloc: Global) -> Recent {
        Recent {
            slots: Vec::new(alloc),
        }
    }

    // Clears and enlarges the table if there are at least as many objects as slots, up to `MOST`.
    pub(crate) fn prepare(&mut self, objects: usize) -> Result<(), AllocError> {
        let slots = self.slots.len();
        if objects < slots || slots >= MOST {
            return Ok(());
        }
        self.slots.clear();
        self.slots.resize((8 * slots).clamp(LEAST, MOST), NOTHING)
    }

    fn slot_of(&self, hash: u32) -> usize {
        hash as usize & self.slots.len().wrapping_sub(1)
    }

    // Returns the number of an object that begins with this encoding, or `None` if the table has
    // none.
    pub(crate) fn find(
        &self,
        hash: u32,
        spelled: &[u8],
        octets: &[u8],
        offsets: &[u32],
    ) -> Option<u32>
        ensures { IfSome result (λ number.
            StandsAgain octets.now offsets.now number spelled.now) }
    {
        let entry = self.slots.get(self.slot_of(hash))?;
        if entry.hash == hash && stands_again(octets, offsets, entry.number, spelled) {
            Some(entry.number)
        } else {
            None
        }
    }

    // Replaces the entry in the slot of this hash.
    pub(crate) fn keep(&mut self, hash: u32, number: u32) {
        let slot = self.slot_of(hash);
        if slot < self.slots.len() {
            self.slots[slot] = Entry { number, hash };
        }
    }
}

// Returns the hash of a scalar from its encoding.
pub(crate) fn hash_of(octets: &[u8]) -> u32 {
    let mut hasher = FixedHasher::new().build_hasher();
    hasher.write(octets);
    (hasher.finish() >> 32) as u32
}

// Returns whether the object with this number begins with this encoding.
fn stands_again(octets: &[u8], offsets: &[u32], number: u32, spelled: &[u8]) -> bool
    ensures { OnTrue result (StandsAgain octets.now offsets.now number spelled.now) }
{
    let Some(offset) = offsets.get(number as usize) else {
        return false;
    };
    let start = *offset as usize;
    if start > octets.len() {
        return false;
    }
    let (_, behind) = octets.split_at(start);
    behind.starts_with(spelled)
}
