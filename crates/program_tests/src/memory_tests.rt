//! The whole program over files, an input and an output in memory.
use crate::device_tests::file_of_data;
use crate::words::{printed_of, words_of};
use crate::worked_files::{TABLE, TABLE_TEXT, TWICE, UNSORTED};
use plist_convert::{Fault, FileDisk, Form, run_on};
use plist_devices::{ListSink, ListSource};
use plist_value::FixedHasher;
use std::alloc::{AllocError, Global};
use std::hash::{BuildHasher, RandomState};
use std::test::Fail;
use test_files::memory_files::MemoryFiles;

// Runs a row, and returns the exit status and the output.
fn ran<H: BuildHasher + Copy>(
    alloc: Global,
    disk: &mut FileDisk<MemoryFiles, H>,
    row: &str,
) -> Result<(u8, ListSink), AllocError> {
    let words = words_of(alloc, row)?;
    let mut input = ListSource::new(b"", 3, None);
    let mut output = ListSink::new(alloc, 6000, 7)?;
    let status = run_on(alloc, disk, words.as_slice(), &mut input, &mut output);
    Ok((status, output))
}

// Runs, one after another, over one disk.
const RUNS: [&str; 8] = [
    "check in|1 broken C5 at object 0\n",
    "convert binary1 in out|0 ",
    "check out|0 canonical\n",
    "same in out|0 equal\n",
    "lint in|0 in: OK\n",
    "convert binary1 in in|0 ",
    "check in|0 canonical\n",
    "convert binary1 missing old|4 missing: refused 50 ReadFailed\n",
];

// Returns whether all runs have their results over a disk with the files `in` and `old`, and leave
// the right files.
fn all_are_answered<H: BuildHasher + Copy>(
    alloc: Global,
    disk: &mut FileDisk<MemoryFiles, H>,
) -> Result<bool, Fail> {
    for row in &RUNS {
        let (status, output) = ran(alloc, disk, row)?;
        if printed_of(row, status) != Some(output.taken()) {
            return Ok(false);
        }
    }
    let out = disk.load(alloc, "out")?;
    let old = disk.load(alloc, "old")?;
    Ok(out.as_slice() == TABLE && old.as_slice() == b"old".as_slice() && disk.failures() == 1)
}

fn disk_with_limit<H: BuildHasher + Copy>(
    alloc: Global,
    limit: usize,
    hasher: H,
) -> Result<FileDisk<MemoryFiles, H>, AllocError> {
    let mut files = MemoryFiles::with_limit(alloc, limit);
    files.put(alloc, "in", Vec::from_slice(alloc, UNSORTED)?)?;
    files.put(alloc, "old", Vec::from_slice(alloc, b"old")?)?;
    Ok(FileDisk::over(files, hasher))
}

#[test]
fn runs_over_files_in_memory(rt: HostRuntime) -> Result<(), Fail> {
    let alloc = rt.alloc();
    let random = RandomState::new(&rt)?;
    for limit in [TABLE.len(), usize::MAX] {
        let mut disk = disk_with_limit(alloc, limit, FixedHasher::new())?;
        assert!(rt; all_are_answered(alloc, &mut disk)?);
        let mut disk = disk_with_limit(alloc, limit, random)?;
        assert!(rt; all_are_answered(alloc, &mut disk)?);
    }
    Ok(())
}

#[test]
fn stores_files_in_memory(rt: HostRuntime) -> Result<(), Fail> {
    let alloc = rt.alloc();
    let mut disk = disk_with_limit(alloc, usize::MAX, FixedHasher::new())?;
    let missing = disk.load(alloc, "out").err();
    assert_eq!(rt; missing, Some(Fault::ReadFailed));
    assert_eq!(rt; disk.failures(), 1);
    // A refused text changes no file.
    let twice = Vec::from_slice(alloc, TWICE)?;
    let refused = disk.store(alloc, "old", twice, Form::Binary1);
    assert!(rt; refused.is_err());
    let old = disk.load(alloc, "old")?;
    assert_eq!(rt; old.as_slice(), b"old".as_slice());
    for path in ["old", "out"] {
        let text = Vec::from_slice(alloc, TABLE_TEXT)?;
        let size = disk.store(alloc, path, text, Form::Binary1)?;
        assert_eq!(rt; size, TABLE.len() as u64);
        let stored = disk.load(alloc, path)?;
        assert_eq!(rt; stored.as_slice(), TABLE);
    }
    let other = disk.load(alloc, "in")?;
    assert_eq!(rt; other.as_slice(), UNSORTED);
    assert_eq!(rt; disk.failures(), 1);
    Ok(())
}

#[test]
fn a_full_disk_takes_a_front(rt: HostRuntime) -> Result<(), Fail> {
    let alloc = rt.alloc();
    let mut disk = disk_with_limit(alloc, 10, FixedHasher::new())?;
    let row = "convert binary1 in out|4 out: refused 51 WriteFailed after 10 octets\n";
    let (status, output) = ran(alloc, &mut disk, row)?;
    assert_eq!(rt; printed_of(row, status), Some(output.taken()));
    assert_eq!(rt; disk.failures(), 1);
    let out = disk.load(alloc, "out")?;
    assert_eq!(rt; out.as_slice(), &TABLE[..10]);
    Ok(())
}

#[test]
fn filters_in_memory(rt: HostRuntime) -> Result<(), Fail> {
    let alloc = rt.alloc();
    let mut disk = disk_with_limit(alloc, 100, FixedHasher::new())?;
    // Data of more than 4,096 bytes is written without a copy.
    let long = file_of_data(alloc, b"\x4f\x12\0\0\x13\x88")?;
    let own = file_of_data(alloc, b"\x4f\x11\x13\x88")?;
    let rows: [(&[u8], Option<u64>, &[u8], u8); 4] = [
        (UNSORTED, None, TABLE, 0),
        (UNSORTED, Some(2), b"-: refused 50 ReadFailed\n", 4),
        (long.as_slice(), None, own.as_slice(), 0),
        (own.as_slice(), None, own.as_slice(), 0),
    ];
    for (octets, failing, printed, want) in rows {
        let mut input = ListSource::new(octets, 3, failing);
        let mut output = ListSink::new(alloc, 6000, 7)?;
        let status = run_on(alloc, &mut disk, &["plistconv"], &mut input, &mut output);
        assert!(rt; output.taken() == printed);
        assert_eq!(rt; status, want);
    }
    Ok(())
}
