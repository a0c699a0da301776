//! `lint` and `check` of one path and of several.
use crate::words::{printed_of, words_of};
use crate::worked_files::{TABLE, TABLE_TEXT, TWICE, UNSORTED, VALUES_FIRST};
use plist_convert::{FileDisk, run_on};
use plist_devices::{ListSink, ListSource};
use plist_value::FixedHasher;
use std::alloc::{AllocError, Global};
use std::test::Fail;
use test_files::memory_files::MemoryFiles;

// The files of the rows.
const FILES: [(&str, &[u8]); 6] = [
    ("a.bin", TABLE),
    ("a.txt", TABLE_TEXT),
    ("twice.txt", TWICE),
    ("unsorted.bin", UNSORTED),
    ("values.bin", VALUES_FIRST),
    ("-x", TABLE),
];

// Each path has its line, in the order given, and the status is the greatest.
const ROWS: [&str; 23] = [
    "lint a.bin|0 a.bin: OK\n",
    "lint a.bin a.txt|0 a.bin: OK\na.txt: OK\n",
    "lint a.txt a.bin|0 a.txt: OK\na.bin: OK\n",
    "lint a.bin a.bin|0 a.bin: OK\na.bin: OK\n",
    "lint a.txt twice.txt a.bin|2 a.txt: OK\n\
      twice.txt: refused 14 DuplicateKey at octet 3\na.bin: OK\n",
    "lint missing twice.txt|4 missing: refused 50 ReadFailed\n\
      twice.txt: refused 14 DuplicateKey at octet 3\n",
    "lint a.bin -- -x|0 a.bin: OK\n-x: OK\n",
    "lint -- -x a.bin --|4 -x: OK\na.bin: OK\n--: refused 50 ReadFailed\n",
    "check a.bin|0 canonical\n",
    "check unsorted.bin|1 broken C5 at object 0\n",
    "check a.txt|2 a.txt: refused 1 TooShort\n",
    "check -- -x|0 canonical\n",
    "check a.bin a.bin|0 a.bin: canonical\na.bin: canonical\n",
    "check values.bin a.bin|1 values.bin: broken C7 at object 0\na.bin: canonical\n",
    "check unsorted.bin a.txt a.bin|2 unsorted.bin: broken C5 at object 0\n\
      a.txt: refused 1 TooShort\na.bin: canonical\n",
    "check missing a.txt|4 missing: refused 50 ReadFailed\na.txt: refused 1 TooShort\n",
    "check -- -x a.bin|0 -x: canonical\na.bin: canonical\n",
    "check --with-filename a.bin|0 a.bin: canonical\n",
    "check --with-filename unsorted.bin|1 unsorted.bin: broken C5 at object 0\n",
    "check a.txt --with-filename|2 a.txt: refused 1 TooShort\n",
    "check a.bin --with-filename values.bin|1 a.bin: canonical\n\
      values.bin: broken C7 at object 0\n",
    "check --with-filename -- -x|0 -x: canonical\n",
    "check -- --with-filename|4 --with-filename: refused 50 ReadFailed\n",
];

fn disk_of_files(alloc: Global) -> Result<FileDisk<MemoryFiles, FixedHasher>, AllocError> {
    let mut files = MemoryFiles::new(alloc);
    for (path, octets) in FILES {
        files.put(alloc, path, Vec::from_slice(alloc, octets)?)?;
    }
    Ok(FileDisk::over(files, FixedHasher::new()))
}

// Runs a row whose output has this capacity, and returns the exit status and the output.
fn ran(
    alloc: Global,
    disk: &mut FileDisk<MemoryFiles, FixedHasher>,
    row: &str,
    room: usize,
) -> Result<(u8, ListSink), AllocError> {
    let words = words_of(alloc, row)?;
    let mut input = ListSource::new(b"", 3, None);
    let mut output = ListSink::new(alloc, room, 7)?;
    let status = run_on(alloc, disk, words.as_slice(), &mut input, &mut output);
    Ok((status, output))
}

#[test]
fn each_path_has_its_line(rt: HostRuntime) -> Result<(), Fail> {
    let alloc = rt.alloc();
    for row in ROWS {
        let (status, output) = ran(alloc, &mut disk_of_files(alloc)?, row, 6000)?;
        let printed = printed_of(row, status);
        assert!(rt; printed == Some(output.taken()), "{row}: {status}");
    }
    Ok(())
}

// A path and a dash without `--` before it are usage errors.
#[test]
fn a_path_is_required(rt: HostRuntime) -> Result<(), Fail> {
    let alloc = rt.alloc();
    for row in [
        "lint",
        "check",
        "lint --",
        "check --",
        "lint a.bin -x",
        "check -x",
        "check --with-filename",
        "check --with-filename=a.bin",
        "check --with-filename --with-filename a.bin",
        "lint --with-filename a.bin",
    ] {
        let (status, output) = ran(alloc, &mut disk_of_files(alloc)?, row, 6000)?;
        let is_error = output.taken().starts_with(b"error: ");
        assert!(rt; status == 3 && is_error, "{row}: {status}");
    }
    Ok(())
}

// A line that is cut off ends the run: the file that is missing is not looked for.
#[test]
fn a_line_that_is_cut_off_ends_the_run(rt: HostRuntime) -> Result<(), Fail> {
    for row in [
        "lint a.bin a.txt missing|4 a.bin: OK\na.txt",
        "check a.txt a.bin missing|4 a.txt: refused 1 TooShort\na.bi",
    ] {
        let printed = printed_of(row, 4).ok_or("no status")?;
        let mut disk = disk_of_files(rt.alloc())?;
        let (status, output) = ran(rt.alloc(), &mut disk, row, printed.len())?;
        assert_eq!(rt; (status, output.taken(), disk.failures()), (4, printed, 0));
    }
    Ok(())
}
