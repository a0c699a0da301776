//! The commands of the program, over the files of the host.
use crate::devices::{BrokenReader, Narrow};
use crate::words::{printed_of, words_of};
use crate::worked_files::{
    REAL4, REAL8, TABLE, TABLE_TEXT, TRUE, TWICE, UNSORTED, VALUES_FIRST, WRITTEN_TEXT,
};
use plist_convert::run;
use std::alloc::AllocError;
use std::fs;
use std::test::Fail;

// Runs the program without input and returns its exit status.
pub(crate) fn status_of(rt: &HostRuntime, words: &[&str], output: &mut Vec<u8>) -> u8 {
    let mut input: &[u8] = b"";
    run(rt, rt.alloc(), words, &mut input, output)
}

// A file of one object, the integer 5 in eight bytes: `13` and the integer.
const LONG: &[u8] =
    b"bplist00\x13\0\0\0\0\0\0\0\x05\x08\0\0\0\0\0\0\x01\x01\0\0\0\0\0\0\0\x01\0\0\0\0\0\0\0\0\
      \0\0\0\0\0\0\0\x11";

// The canonical file of that integer, in one byte: `10` and the integer.
const SHORT: &[u8] =
    b"bplist00\x10\x05\x08\0\0\0\0\0\0\x01\x01\0\0\0\0\0\0\0\x01\0\0\0\0\0\0\0\0\0\0\0\0\0\0\0\
      \x0a";

// The files of the rows.
const FILES: [(&str, &[u8]); 12] = [
    ("row2.txt", TABLE_TEXT),
    ("row2.bin", TABLE),
    ("unsorted.bin", UNSORTED),
    ("twice.txt", TWICE),
    ("real4.bin", REAL4),
    ("real8.bin", REAL8),
    ("true.bin", TRUE),
    ("values.bin", VALUES_FIRST),
    ("short.bin", b"bplist00"),
    ("long.bin", LONG),
    ("old", b"old"),
    ("empty", b""),
];

// Runs, one after another. If the input is refused, OUT is unchanged, even if it is the input.
const ROWS: [&str; 43] = [
    "convert binary1 row2.txt converted|0 ",
    "same row2.txt row2.bin|0 equal\n",
    "same real4.bin real8.bin|1 different\n",
    "lint row2.txt|0 row2.txt: OK\n",
    "lint twice.txt|2 twice.txt: refused 14 DuplicateKey at octet 3\n",
    "same row2.bin twice.txt|2 twice.txt: refused 14 DuplicateKey at octet 3\n",
    "same twice.txt missing|4 missing: refused 50 ReadFailed\n",
    "convert openstep row2.bin text|0 ",
    "convert openstep true.bin new|2 true.bin: refused 40 NotInOpenStep\n",
    "check row2.bin|0 canonical\n",
    "check unsorted.bin|1 broken C5 at object 0\n",
    "check values.bin|1 broken C7 at object 0\n",
    "check missing|4 missing: refused 50 ReadFailed\n",
    "check row2.txt|2 row2.txt: refused 1 TooShort\n",
    "lint missing|4 missing: refused 50 ReadFailed\n",
    "lint .|4 .: refused 50 ReadFailed\n",
    "convert binary1 row2.txt .|4 .: refused 51 WriteFailed after 0 octets\n",
    "convert binary1 row2.txt no/new|4 no/new: refused 51 WriteFailed after 0 octets\n",
    "convert binary1 row2.txt /dev/full|4 /dev/full: refused 51 WriteFailed after 0 octets\n",
    "convert binary1 twice.txt new|2 twice.txt: refused 14 DuplicateKey at octet 3\n",
    "convert binary1 short.bin old|2 short.bin: refused 1 TooShort\n",
    "convert binary1 twice.txt old|2 twice.txt: refused 14 DuplicateKey at octet 3\n",
    "convert binary1 missing new|4 missing: refused 50 ReadFailed\n",
    "convert binary1 - new|4 -: refused 50 ReadFailed\n",
    "convert binary1 . new|4 .: refused 50 ReadFailed\n",
    "convert binary1 unsorted.bin unsorted.bin|0 ",
    "check unsorted.bin|0 canonical\n",
    "print row2.txt|0 {\n  \"a\" => \"b\"\n  \"b\" => \"a\"\n}\n",
    "print real4.bin|0 1.0f\n",
    "print twice.txt|2 twice.txt: refused 14 DuplicateKey at octet 3\n",
    "print missing|4 missing: refused 50 ReadFailed\n",
    "convert binary1 twice.txt twice.txt|2 twice.txt: refused 14 DuplicateKey at octet 3\n",
    "convert openstep true.bin true.bin|2 true.bin: refused 40 NotInOpenStep\n",
    "lint empty|0 empty: OK\n",
    "same row2.txt empty|1 different\n",
    "same empty empty|0 equal\n",
    "check empty|2 empty: refused 1 TooShort\n",
    "convert binary1 empty table|0 ",
    "same empty table|0 equal\n",
    "convert binary1 long.bin made.bin|0 ",
    "check long.bin|1 broken C4 at object 0\n",
    "check made.bin|0 canonical\n",
    "same long.bin made.bin|0 equal\n",
];

// Runs a row, and returns what it expects to be printed, if the status is as expected, and what is
// printed.
fn answer<'a>(rt: &HostRuntime, row: &'a str) -> Result<(Option<&'a [u8]>, Vec<u8>), AllocError> {
    let words = words_of(rt.alloc(), row)?;
    let mut output = Vec::new(rt.alloc());
    let status = status_of(rt, words.as_slice(), &mut output);
    Ok((printed_of(row, status), output))
}

pub(crate) fn put_files(rt: &HostRuntime) -> Result<(), Fail> {
    for (path, octets) in FILES {
        fs::write(rt, path, octets)?;
    }
    Ok(())
}

pub(crate) fn remove_files(rt: &HostRuntime) -> Result<(), Fail> {
    for (path, _) in FILES {
        fs::remove_file(rt, path)?;
    }
    Ok(())
}

// Returns whether the file at `path` has these bytes.
pub(crate) fn holds(rt: &HostRuntime, path: &str, octets: &[u8]) -> Result<bool, Fail> {
    let found = fs::read(rt, path)?;
    Ok(found.as_slice() == octets)
}

#[test]
fn answers_the_worked_rows(rt: HostRuntime) -> Result<(), Fail> {
    put_files(&rt)?;
    for row in ROWS {
        let (printed, output) = answer(&rt, row)?;
        assert!(rt; printed == Some(output.as_slice()), "{row}");
    }
    let files: [(&str, &[u8]); 7] = [
        ("converted", TABLE),
        ("text", WRITTEN_TEXT),
        ("old", b"old"),
        ("twice.txt", TWICE),
        ("true.bin", TRUE),
        ("made.bin", SHORT),
        ("long.bin", LONG),
    ];
    for (path, octets) in files {
        assert!(rt; holds(&rt, path, octets)?, "{path}");
    }
    assert!(rt; !fs::exists(&rt, "new")?);
    remove_files(&rt)?;
    for path in ["converted", "table", "text", "made.bin"] {
        fs::remove_file(&rt, path)?;
    }
    Ok(())
}

// Runs, and how their output begins.
const OTHER_WORDS: [&str; 20] = [
    "-h|0 Converts Apple property lists",
    "lint -h|0 Checks whether a file is a",
    "help|0 Converts Apple property lists",
    "help lint|0 Checks whether a file is a",
    "--version|0 plistconv 0.3.0\n",
    "lint -V|3 error: ",
    "explain|0 1 TooShort: ",
    "explain 14|0 14 DuplicateKey: a dictionary has the same key twice\n\n",
    "explain 014|3 error: '014' is no refusal and no rule",
    "explain +14|3 error: '+14' is no refusal and no rule",
    "explain 22|3 error: '22' is no refusal and no rule: plistconv explain lists them\n",
    "explain 14 DuplicateKey at object 0|0 14 DuplicateKey: ",
    "turn row2.txt|3 error: ",
    "same row2.txt|3 error: ",
    "lint|3 error: ",
    "check|3 error: ",
    "print|3 error: ",
    "convert binary1 a|3 error: ",
    "convert binary2 a b|3 error: ",
    "--|3 error: ",
];

#[test]
fn answers_other_words(rt: HostRuntime) -> Result<(), Fail> {
    for row in OTHER_WORDS {
        let (front, output) = answer(&rt, row)?;
        assert!(rt;
            matches!(front, Some(front) if output.starts_with(front)),
            "{row}"
        );
    }
    Ok(())
}

#[test]
fn filters_standard_input(rt: HostRuntime) -> Result<(), Fail> {
    for words in [["plistconv"].as_slice(), &[]] {
        for mut input in [UNSORTED, TABLE_TEXT] {
            let mut output = Vec::new(rt.alloc());
            let status = run(&rt, rt.alloc(), words, &mut input, &mut output);
            assert_eq!(rt; (status, output.as_slice()), (0, TABLE));
        }
    }
    let mut output = Vec::new(rt.alloc());
    let status = run(&rt, rt.alloc(), &[], &mut BrokenReader::new(), &mut output);
    let printed = b"-: refused 50 ReadFailed\n".as_slice();
    assert_eq!(rt; (status, output.as_slice()), (4, printed));
    // The status tells that the file is incomplete, even if the line cannot be printed.
    let mut input = TABLE;
    let mut narrow = Narrow { room: 10 };
    let status = run(&rt, rt.alloc(), &[], &mut input, &mut narrow);
    assert_eq!(rt; (status, narrow.room), (4, 0));
    Ok(())
}
