//! A valid file, and what is known of it.
ghost use Rattle.std.specs.Prelude.{◌≡◌, ℕ, List};
ghost use Rattle.plist_keys.specs.KeyOrder.{IsReady};

use crate::order::KeyOrder;
use plist_object::BinFile;
use std::alloc::Global;

/// A file that encodes a value within the limits, and what is known of it.
#[derive(Drop)]
pub struct JudgedFile<'a> {
    /// The file.
    pub file: BinFile<'a>,
    /// The order of its keys. The keys that it sorted last need not be sorted again.
    pub order: KeyOrder<'a>,
    /// Whether all scalars of the value are known to be strings or data.
    pub writable: bool,
}

impl<'a> JudgedFile<'a> {
    /// Returns a file that is valid by the way it was made. No keys are sorted yet.
    pub fn of_draft(alloc: Global, file: BinFile<'a>, writable: bool) -> JudgedFile<'a>
        ensures file { result.file ≡ file.entry }
        ensures ready { (f : List ℕ) → IsReady f result.order }
        ensures writable { result.writable ≡ writable }
    {
        JudgedFile {
            file,
            order: KeyOrder::new(alloc, &file),
            writable,
        }
    }
}
