//! Ranks: the sort positions of objects that contain strings.
ghost use Rattle.std.specs.Prelude.{◌≡◌, ℕ, List, All, IfOk};
ghost use Rattle.std.specs.List.Sorted.{IsSorted};
ghost use Rattle.plist_object.specs.Views.{octets_of};
ghost use Rattle.plist_keys.specs.Ranks.{HoldsKey, AreRanks, in_order, rank_of, text_of_rank};

use crate::keys::Key;
use plist_object::BinFile;
use plist_value::TextRef;
use std::alloc::{AllocError, Global};

// The ranks of some objects that contain strings. Equal strings have the same rank, and a lower
// string has a lower rank. This is a cache: which objects have a rank is not specified.
#[derive(Drop)]
pub(crate) struct Ranks<'a> {
    // One more than the rank of each object, or 0 if it has none: 4 bytes for an object.
    of_objects: Vec<u32>,
    texts: Vec<TextRef<'a>>,
}

impl<'a> Ranks<'a> {
    // Creates ranks that no object has.
    pub(crate) fn none(alloc: Global) -> Ranks<'a>
        ensures { (f : List ℕ) → AreRanks f result }
    {
        Ranks {
            of_objects: Vec::new(alloc),
            texts: Vec::new(alloc),
        }
    }

    // Returns the rank of the object, if it has one.
    pub(crate) fn get(&self, object: u64) -> Option<u64>
        ensures { result ≡ rank_of self.now object }
    {
        if object < self.of_objects.len() as u64 {
            u64::from(self.of_objects[object as usize]).checked_sub(1)
        } else {
            None
        }
    }

    // Returns the string with this rank, if there is one.
    pub(crate) fn text(&self, rank: u64) -> Option<TextRef<'a>>
        ensures { result ≡ text_of_rank self.now rank }
    {
        self.texts.get(rank as usize).copied()
    }
}

// From this number of keys on none has a rank, because ranks have 32 bits.
const TOO_MANY_KEYS: usize = u32::MAX as usize;

// Returns the ranks of keys that are sorted by their strings.
pub(crate) fn ranks_in_order<'a>(
    alloc: Global,
    file: &BinFile<'a>,
    keys: &[Key<'a>],
) -> Result<Ranks<'a>, AllocError>
    requires held { All (HoldsKey (octets_of file.now)) keys.now }
    requires sorted { IsSorted in_order keys.now }
    ensures { IfOk result (λ ranks. AreRanks (octets_of file.now) ranks) }
{
    if keys.is_empty() || keys.len() >= TOO_MANY_KEYS {
        return Ok(Ranks::none(alloc));
    }
    let mut of_objects = Vec::new(alloc);
    of_objects.resize(file.count() as usize, 0)?;
    let mut texts = Vec::new(alloc);
    let mut rank: u64 = 0;
    let mut before = keys[0].text;
    texts.push(before)?;
    for key in keys {
        if before < key.text {
            rank += 1;
            texts.push(key.text)?;
        }
        of_objects[key.object as usize] = (rank + 1) as u32;
        before = key.text;
    }
    Ok(Ranks { of_objects, texts })
}
