//! Each call that takes a hash builder hashes by it.
use crate::words::with_memory;
use crate::worked_files::{TABLE, TABLE_TEXT, UNSORTED};
use plist_canon::{canonical_with_hasher, check_with_hasher, write_canonical_with_hasher};
use plist_convert::answers::{Answer, check_answer, check_answer_of, same_answer};
use plist_convert::opens::Steady;
use plist_convert::{FileDisk, Form, HostDisk, ListSource, read_any, run_on};
use plist_devices::ListSink;
use plist_forms::{
    canonicalise_with_hasher, convert_octets, convert_with_hasher, same_files_with_hasher,
};
use plist_value::FixedHasher;
use std::alloc::{AllocError, Global};
use std::cell::Cell;
use std::fs;
use std::hash::{BuildHasher, FoldHasher};
use std::test::Fail;
use test_files::memory_files::MemoryFiles;

// Builds copies of a hasher, and counts them.
#[derive(Clone, Copy)]
struct Counting<'a> {
    hasher: FoldHasher,
    built: &'a Cell<u64>,
}

impl BuildHasher for Counting<'_> {
    type Hasher = FoldHasher;

    ghost build_hasher = { λ builder. builder.hasher };

    fn build_hasher(&self) -> FoldHasher {
        self.built.set(self.built.get().saturating_add(1));
        self.hasher
    }
}

// Makes the call, and returns whether it builds a hasher by this builder.
macro_rules! builds {
    ($by:expr, $call:expr) => {{
        $by.built.set(0);
        drop($call?);
        $by.built.get() > 0
    }};
}

// Makes the calls that convert, on a dictionary of two strings.
fn convert_by(alloc: Global, by: Counting) -> Result<[bool; 5], Fail> {
    let value = read_any(alloc, TABLE)?;
    let octets = Vec::from_slice(alloc, TABLE)?;
    let mut from = ListSource::new(TABLE_TEXT, 3, None);
    let mut to = ListSink::new(alloc, 200, 7)?;
    let form = Form::Binary1;
    Ok([
        builds!(by, canonical_with_hasher(alloc, by, &value)),
        builds!(by, canonicalise_with_hasher(alloc, by, TABLE)),
        builds!(by, write_canonical_with_hasher(alloc, by, &value, &mut to)),
        builds!(by, convert_with_hasher(alloc, by, &mut from, &mut to, form)),
        builds!(by, convert_octets(alloc, by, octets, &mut to, form)),
    ])
}

// Returns the exit status of the answer, or an error if out of memory.
fn status_of(answer: Result<Answer, AllocError>) -> Result<u8, AllocError> {
    with_memory(answer?.status.code())
}

// Makes the calls that answer.
fn answer_by(alloc: Global, by: Counting) -> Result<[bool; 5], Fail> {
    Ok([
        builds!(by, check_with_hasher(alloc, by, TABLE)),
        builds!(by, same_files_with_hasher(alloc, by, TABLE, UNSORTED)),
        builds!(by, status_of(check_answer(alloc, by, "a", TABLE))),
        builds!(by, status_of(check_answer_of(alloc, by, true, "a", TABLE))),
        builds!(
            by,
            status_of(same_answer(alloc, by, "a", "b", TABLE, UNSORTED))
        ),
    ])
}

// Runs the program, and stores files in memory and at the host.
fn run_by(rt: &HostRuntime, by: Counting) -> Result<[bool; 5], Fail> {
    let alloc = rt.alloc();
    let mut disk = FileDisk::over(MemoryFiles::new(alloc), by);
    let answers = [
        builds!(by, run_row(alloc, by, &["plistconv"])),
        builds!(by, run_row(alloc, by, &["plistconv", "check", "a"])),
        builds!(by, run_row(alloc, by, &["plistconv", "same", "a", "b"])),
        builds!(by, store(alloc, &mut disk)),
        builds!(by, store(alloc, &mut HostDisk::new(rt, by))),
    ];
    fs::remove_file(rt, "hashed")?;
    Ok(answers)
}

fn store<O: Steady, H: BuildHasher + Copy>(
    alloc: Global,
    disk: &mut FileDisk<O, H>,
) -> Result<u64, Fail> {
    let octets = Vec::from_slice(alloc, TABLE)?;
    Ok(disk.store(alloc, "hashed", octets, Form::Binary1)?)
}

// Runs the program over a disk with this hasher.
fn run_row<H: BuildHasher + Copy>(
    alloc: Global,
    hasher: H,
    words: &[&str],
) -> Result<u8, AllocError> {
    let mut files = MemoryFiles::new(alloc);
    files.put(alloc, "a", Vec::from_slice(alloc, TABLE)?)?;
    files.put(alloc, "b", Vec::from_slice(alloc, UNSORTED)?)?;
    let mut disk = FileDisk::over(files, hasher);
    let mut input = ListSource::new(TABLE_TEXT, 3, None);
    let mut output = ListSink::new(alloc, 6000, 7)?;
    with_memory(run_on(alloc, &mut disk, words, &mut input, &mut output))
}

#[test]
fn each_call_hashes_by_its_builder(rt: HostRuntime) -> Result<(), Fail> {
    let built = Cell::new(0);
    let by = Counting {
        hasher: FixedHasher::new().build_hasher(),
        built: &built,
    };
    assert_eq!(rt; convert_by(rt.alloc(), by)?, [true; 5]);
    assert_eq!(rt; answer_by(rt.alloc(), by)?, [true; 5]);
    assert_eq!(rt; run_by(&rt, by)?, [true; 5]);
    Ok(())
}
