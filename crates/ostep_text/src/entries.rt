//! The rows of a dictionary, as numbers of objects.
ghost use Rattle.std.specs.Prelude.{◌≡◌, ◌∷◌, ◌++◌, []};
ghost use Rattle.std.specs.Result.{OnOk};

use std::alloc::{AllocError, Global};

// The capacity that is reserved at first, so that small dictionaries allocate once.
const LEAST_ROOM: usize = 8;

// The keys and the values of the rows, in the order of the text: key k belongs to value k.
#[derive(Drop)]
pub(crate) struct Entries {
    pub(crate) keys: Vec<u32>,
    pub(crate) values: Vec<u32>,
}

impl Entries {
    pub(crate) fn new(alloc: Global) -> Entries
        ensures keys { result.keys.items ≡ [] }
        ensures values { result.values.items ≡ [] }
    {
        Entries {
            keys: Vec::new(alloc),
            values: Vec::new(alloc),
        }
    }

    // Appends a row, which is a key and its value.
    pub(crate) fn push(&mut self, row: (u32, u32)) -> Result<(), AllocError>
        ensures keys { OnOk result (self.new.keys.items ≡ self.old.keys.items ++ row.0 ∷ []) }
        ensures values { OnOk result
            (self.new.values.items ≡ self.old.values.items ++ row.1 ∷ []) }
    {
        if self.keys.len() == self.keys.capacity() {
            self.keys.reserve(LEAST_ROOM)?;
        }
        if self.values.len() == self.values.capacity() {
            self.values.reserve(LEAST_ROOM)?;
        }
        self.keys.push_reserved(row.0);
        self.values.push_reserved(row.1);
        Ok(())
    }
}
