//! `explain` of the lines that the program prints.
use crate::words::with_memory;
use crate::worked_files::{TABLE_TEXT, UNSORTED};
use plist_convert::{FileDisk, run_on};
use plist_devices::{ListSink, ListSource};
use plist_value::FixedHasher;
use std::alloc::{AllocError, Global};
use std::test::Fail;
use test_files::memory_files::MemoryFiles;

// Files with the names of options, and of what lines say.
const FILES: [(&str, &[u8]); 4] = [
    ("-h", TABLE_TEXT),
    ("-x", UNSORTED),
    ("refused 14", UNSORTED),
    ("broken C5: broken C7", TABLE_TEXT),
];

// Runs the program on these files and this input, and returns the exit status and the output.
fn ran(alloc: Global, words: &[&str], octets: &[u8]) -> Result<(u8, ListSink), AllocError> {
    let mut files = MemoryFiles::new(alloc);
    for (path, octets) in FILES {
        files.put(alloc, path, Vec::from_slice(alloc, octets)?)?;
    }
    let mut disk = FileDisk::over(files, FixedHasher::new());
    let mut input = ListSource::new(octets, 3, None);
    let mut output = ListSink::new(alloc, 60_000, 4096)?;
    let status = with_memory(run_on(alloc, &mut disk, words, &mut input, &mut output))?;
    Ok((status, output))
}

// Commands, the line that each prints, and how its explanation begins.
const PRINTED: [(&[&str], &str, &[u8]); 6] = [
    (&[], "-: refused 1 TooShort\n", b"1 TooShort: "),
    (
        &["check", "--", "-h"],
        "-h: refused 1 TooShort\n",
        b"1 TooShort: ",
    ),
    (
        &["check", "--with-filename", "--", "-x"],
        "-x: broken C5 at object 0\n",
        b"C5: ",
    ),
    (
        &["check", "--with-filename", "refused 14"],
        "refused 14: broken C5 at object 0\n",
        b"C5: ",
    ),
    (&["check", "refused 14"], "broken C5 at object 0\n", b"C5: "),
    (
        &["check", "broken C5: broken C7"],
        "broken C5: broken C7: refused 1 TooShort\n",
        b"1 TooShort: ",
    ),
];

#[test]
fn what_is_printed_is_explained(rt: HostRuntime) -> Result<(), Fail> {
    let alloc = rt.alloc();
    for (command, line, front) in PRINTED {
        let mut words = vec![in alloc; "plistconv"]?;
        words.extend_from_slice(command)?;
        let (_, output) = ran(alloc, words.as_slice(), b"bplist")?;
        assert!(rt; output.taken() == line.as_bytes(), "{line}");
        let (status, output) = ran(alloc, &["plistconv", "explain", line], b"")?;
        assert!(rt;
            status == 0 && output.taken().starts_with(front),
            "{line}: {status}"
        );
    }
    Ok(())
}

// Words that are no lines: those with a dash are options.
#[test]
fn other_words_are_options_or_name_nothing(rt: HostRuntime) -> Result<(), Fail> {
    let alloc = rt.alloc();
    for (word, status, front) in [
        ("-h", 0, b"Explains a refusal".as_slice()),
        ("--help", 0, b"Explains a refusal"),
        ("-14", 3, b"error: "),
        ("-:", 3, b"error: "),
        ("-: OK", 3, b"error: '-: OK' is no refusal and no rule"),
        ("14 ", 0, b"14 DuplicateKey: "),
        ("\t14\r\n", 0, b"14 DuplicateKey: "),
        ("refused  14", 0, b"14 DuplicateKey: "),
        ("", 3, b"error: '' is no refusal and no rule"),
    ] {
        let (ended, output) = ran(alloc, &["plistconv", "explain", word], b"")?;
        let is_expected = ended == status && output.taken().starts_with(front);
        assert!(rt; is_expected, "{word}: {ended}");
    }
    Ok(())
}
