//! The strings that are keys of a file's dictionaries.
ghost use Rattle.std.specs.Prelude.{◌≡◌, ◌+◌, ◌<◌, ℕ, List, Ok, Some, IfNone, IfOk, OnOk, IfSome};
ghost use Rattle.std.specs.Prelude.{suc};
ghost use Rattle.std.specs.Option.{is_none};
ghost use Rattle.plist_value.specs.Texts.{units_of};
ghost use Rattle.plist_object.specs.Layout.{trailer_of};
ghost use Rattle.plist_object.specs.Views.{octets_of};
ghost use Rattle.plist_object.specs.Objects.{holds_table};
ghost use Rattle.plist_object.specs.Places.{what_holds};
ghost use Rattle.plist_object.specs.Views.{numbers_of};
ghost use Rattle.plist_keys.specs.Overlap.{AreCounted, IsKey};
ghost use Rattle.plist_keys.specs.Ranks.{AreKeys, AreRanks, HoldsUnits};

use crate::ranks::{Ranks, ranks_in_order};
use crate::reached::reached_keys;
use plist_object::markers::TABLE;
use plist_object::{BinFile, Object, Refs};
use plist_value::TextRef;
use std::alloc::{AllocError, Global};

// A string and the object that contains it.
#[derive(Clone, Copy, PartialEq, Eq, PartialOrd, Ord)]
pub(crate) struct Key<'a> {
    pub(crate) text: TextRef<'a>,
    pub(crate) object: u64,
}

// The strings that are keys of a file's dictionaries, each object once.
#[derive(Drop)]
pub(crate) struct Keys<'a> {
    entries: Vec<Key<'a>>,
    seen: Vec<bool>,
    // The number of bytes that may still be read; `None` once it is exceeded.
    room: Option<u64>,
    // The number of keys that dictionaries may still have.
    named: u64,
}

impl<'a> Keys<'a> {
    // Collects the keys of all dictionaries. Stops early at the first dictionary that cannot be
    // read, at the first key that is no string, or if dictionaries or strings overlap.
    pub(crate) fn of_tables(alloc: Global, file: &BinFile<'a>) -> Result<Keys<'a>, AllocError>
        ensures keys { IfOk result (AreKeys (octets_of file.now)) }
        ensures counted { IfOk result (λ keys. (i : ℕ) × AreCounted (octets_of file.now) i keys) }
    {
        let mut keys = Keys::none(alloc, file)?;
        for i in 0..file.count() {
            if !keys.add_table(file, i)? {
                return Ok(keys);
            }
        }
        Ok(keys)
    }

    // Collects the keys of the dictionaries that the top object reaches.
    pub(crate) fn of_reached(alloc: Global, file: &BinFile<'a>) -> Result<Keys<'a>, AllocError>
        ensures { IfOk result (λ keys. AreKeys (octets_of file.now) keys) }
    {
        reached_keys(alloc, file)
    }

    // Creates an empty collection.
    pub(crate) fn none(alloc: Global, file: &BinFile<'a>) -> Result<Keys<'a>, AllocError>
        ensures keys { IfOk result (AreKeys (octets_of file.now)) }
        ensures counted { IfOk result (AreCounted (octets_of file.now) 0) }
    {
        let mut seen = Vec::new(alloc);
        seen.resize(file.count() as usize, false)?;
        Ok(Keys {
            entries: Vec::new(alloc),
            seen,
            room: Some(file.table()),
            named: file.table(),
        })
    }

    // Adds the keys that are strings, and passes over the others.
    pub(crate) fn look_at_all(&mut self, file: &BinFile<'a>, keys: &Refs) -> Result<(), AllocError>
        requires { AreKeys (octets_of file.now) self.old }
        ensures { OnOk result (AreKeys (octets_of file.now) self.new) }
    {
        self.room = less(self.room, keys.len());
        for k in 0..keys.len() {
            if self.overlap() {
                return Ok(());
            }
            self.add(file, keys.get(k))?;
        }
        Ok(())
    }

    // Adds the keys of the object, if it is a dictionary. Returns `false` if it cannot be read, if
    // a key is no string, or if objects overlap.
    fn add_table(&mut self, file: &BinFile<'a>, i: u64) -> Result<bool, AllocError>
        requires listed { i < (trailer_of (octets_of file.now)).count }
        requires keys { AreKeys (octets_of file.now) self.old }
        requires counted { AreCounted (octets_of file.now) i self.old }
        ensures keys { OnOk result (AreKeys (octets_of file.now) self.new) }
        ensures counted { OnOk result (AreCounted (octets_of file.now) (suc i) self.new) }
    {
        if file.marker(i) / 16 != TABLE {
            return Ok(true);
        }
        match file.object(i) {
            Ok(Object::Table(keys, _)) => self.add_all(file, &keys),
            _ => Ok(false),
        }
    }

    // Adds these keys. Returns `false` if one is no string, or if objects overlap.
    fn add_all(&mut self, file: &BinFile<'a>, keys: &Refs) -> Result<bool, AllocError>
        requires { AreKeys (octets_of file.now) self.old }
        ensures keys { OnOk result (AreKeys (octets_of file.now) self.new) }
        ensures counted { OnOk result ((i : ℕ) (values : List ℕ)
            → what_holds (octets_of file.now) i ≡ Ok (holds_table (numbers_of keys.now) values)
            → AreCounted (octets_of file.now) i self.old
            → AreCounted (octets_of file.now) (suc i) self.new) }
    {
        let Some(named) = self.named.checked_sub(keys.len()) else {
            self.room = None;
            return Ok(false);
        };
        self.named = named;
        for k in 0..keys.len() {
            if !self.add(file, keys.get(k))? {
                return Ok(false);
            }
        }
        Ok(true)
    }

    // Adds the string that the object contains, if it was not seen before. Returns `false` if it
    // contains none or if objects overlap.
    fn add(&mut self, file: &BinFile<'a>, object: u64) -> Result<bool, AllocError>
        requires { AreKeys (octets_of file.now) self.old }
        ensures keys { OnOk result (AreKeys (octets_of file.now) self.new) }
        ensures counted { OnOk result ((i : ℕ) → IsKey (octets_of file.now) object
            → AreCounted (octets_of file.now) i self.old
            → AreCounted (octets_of file.now) i self.new) }
    {
        if object >= file.count() {
            return Ok(false);
        }
        if self.seen[object as usize] {
            return Ok(true);
        }
        self.seen[object as usize] = true;
        let Some(text) = file.text(object) else {
            self.room = less(self.room, file.ascii_length(object));
            return Ok(false);
        };
        self.room = less(self.room, text.len() as u64);
        self.entries.push(Key { text, object })?;
        Ok(!self.overlap())
    }

    // Returns whether more was read, or dictionaries had more keys, than fit before the offset
    // table. Only strings and dictionaries that overlap can cause this.
    pub(crate) fn overlap(&self) -> bool
        ensures { result ≡ is_none self.now.room }
    {
        self.room.is_none()
    }

    // Sorts the strings and returns their ranks.
    pub(crate) fn ranks(
        &mut self,
        alloc: Global,
        file: &BinFile<'a>,
    ) -> Result<Ranks<'a>, AllocError>
        requires { AreKeys (octets_of file.now) self.old }
        ensures ranks { IfOk result (λ ranks. AreRanks (octets_of file.now) ranks) }
        ensures room { self.new.room ≡ self.old.room }
    {
        self.entries.sort_unstable();
        ranks_in_order(alloc, file, &self.entries)
    }
}

// Subtracts the bytes read; `None` if they are more than were left.
fn less(room: Option<u64>, read: u64) -> Option<u64>
    ensures some { IfSome result (λ rest. room ≡ Some (rest + read)) }
    ensures none { IfNone result (IfSome room (λ left. left < read)) }
{
    room?.checked_sub(read)
}
