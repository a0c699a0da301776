//! The keys of the dictionaries that the top object of a file reaches.
ghost use Rattle.std.specs.Prelude.{◌≡◌, ◌<◌, IfOk, OnOk};
ghost use Rattle.plist_object.specs.Layout.{trailer_of};
ghost use Rattle.plist_object.specs.Views.{octets_of};
ghost use Rattle.plist_keys.specs.Ranks.{AreKeys, AreMarked};

use crate::keys::Keys;
use plist_object::markers::{LIST, TABLE};
use plist_object::{BinFile, Object, Refs};
use std::alloc::{AllocError, Global};

// The arrays and dictionaries seen so far, each once, and a mark for each object of the file.
#[derive(Drop)]
pub(crate) struct Reached {
    pub(crate) marks: Vec<bool>,
    containers: Vec<u64>,
    // The number of references that may still be read; `None` once it is exceeded.
    left: Option<u64>,
}

// Returns the strings that are keys of dictionaries the top object reaches. Stops early if more
// units or references are read than the file has bytes, which takes objects that overlap.
pub(crate) fn reached_keys<'a>(alloc: Global, file: &BinFile<'a>) -> Result<Keys<'a>, AllocError>
    ensures { IfOk result (λ keys. AreKeys (octets_of file.now) keys) }
{
    let mut keys = Keys::none(alloc, file)?;
    let mut reached = Reached::none(alloc, file)?;
    reached.reach(file, file.top())?;
    for i in 0..file.count() {
        let Some(container) = reached.containers.get(i as usize).copied() else {
            return Ok(keys);
        };
        if keys.overlap() || reached.left.is_none() {
            return Ok(keys);
        }
        visit(file, &mut keys, &mut reached, container)?;
    }
    Ok(keys)
}

// Adds the keys of the object, if it is a dictionary, and enters the containers in it.
fn visit<'a>(
    file: &BinFile<'a>,
    keys: &mut Keys<'a>,
    reached: &mut Reached,
    object: u64,
) -> Result<(), AllocError>
    requires keys { AreKeys (octets_of file.now) keys.old }
    requires marks { AreMarked (octets_of file.now) reached.old }
    ensures keys { OnOk result (AreKeys (octets_of file.now) keys.new) }
    ensures marks { OnOk result (AreMarked (octets_of file.now) reached.new) }
{
    if object >= file.count() {
        return Ok(());
    }
    match file.object(object) {
        Ok(Object::List(items)) => reached.reach_all(file, &items),
        Ok(Object::Table(names, values)) => {
            keys.look_at_all(file, &names)?;
            reached.reach_all(file, &values)
        }
        _ => Ok(()),
    }
}

impl Reached {
    fn none(alloc: Global, file: &BinFile) -> Result<Reached, AllocError>
        ensures { IfOk result (AreMarked (octets_of file.now)) }
    {
        let mut marks = Vec::new(alloc);
        marks.resize(file.count() as usize, false)?;
        Ok(Reached {
            marks,
            containers: Vec::new(alloc),
            left: Some(file.table()),
        })
    }

    fn reach_all(&mut self, file: &BinFile, refs: &Refs) -> Result<(), AllocError>
        requires { AreMarked (octets_of file.now) self.old }
        ensures { OnOk result (AreMarked (octets_of file.now) self.new) }
    {
        self.left = match self.left {
            Some(left) => left.checked_sub(refs.len()),
            None => None,
        };
        if self.left.is_none() {
            return Ok(());
        }
        for i in 0..refs.len() {
            self.reach(file, refs.get(i))?;
        }
        Ok(())
    }

    // Marks and enters the object, if it is a container that was not seen before.
    fn reach(&mut self, file: &BinFile, object: u64) -> Result<(), AllocError>
        requires { AreMarked (octets_of file.now) self.old }
        ensures { OnOk result (AreMarked (octets_of file.now) self.new) }
    {
        if object >= file.count() || self.marks[object as usize] {
            return Ok(());
        }
        let kind = file.marker(object) / 16;
        if kind == LIST || kind == TABLE {
            self.marks[object as usize] = true;
            self.containers.push(object)?;
        }
        Ok(())
    }
}
