//! The program over files and streams that fail once, give little, or can be opened only once; how
//! often it opens and synchronises files; and what it leaves of standard input.
use crate::device_tests::file_of_data;
use crate::host_tests::{holds, put_files, remove_files};
use crate::strict::{Strict, StrictHost, Transfers};
use crate::words::{printed_of, with_memory, words_of};
use crate::worked_files::{TABLE, UNSORTED, WRITTEN_TEXT};
use plist_convert::{run, run_to_end};
use std::alloc::AllocError;
use std::cell::Cell;
use std::io::{ErrorKind, Read, Write};
use std::random::RandomSource;
use std::rt::Files;
use std::test::Fail;

// Runs the program by the call that ends with it, or by the other. Returns its exit status.
fn ran<R: Files + RandomSource, I: Read, O: Write>(
    host: &R,
    rt: &HostRuntime,
    words: &[&str],
    input: &mut I,
    output: &mut O,
    to_end: bool,
) -> u8 {
    if to_end {
        run_to_end(host, rt.alloc(), words, input, output)
    } else {
        run(host, rt.alloc(), words, input, output)
    }
}

// Returns whether the row has its result over the host, by both calls, leaves standard input, and
// leaves these bytes at the path `old`.
fn is_answered<R: Files + RandomSource>(
    rt: &HostRuntime,
    host: &R,
    row: &str,
    left: &[u8],
) -> Result<bool, Fail> {
    for to_end in [false, true] {
        put_files(rt)?;
        let words = words_of(rt.alloc(), row)?;
        let mut input: &[u8] = b"more\n";
        let mut output = Vec::new(rt.alloc());
        let status = ran(host, rt, words.as_slice(), &mut input, &mut output, to_end);
        let is_right = printed_of(row, status) == Some(output.as_slice());
        if !is_right || input != b"more\n".as_slice() || !holds(rt, "old", left)? {
            return Ok(false);
        }
    }
    Ok(true)
}

// Runs of each command, by what is at `old` then. Where two paths are given, they are different.
const COMMANDS: [(&[u8], &[&str]); 3] = [
    (
        TABLE,
        &[
            "convert binary1 row2.txt old|0 ",
            "convert binary1 unsorted.bin old|0 ",
        ],
    ),
    (
        WRITTEN_TEXT,
        &[
            "convert openstep row2.bin old|0 ",
            "convert openstep row2.txt old|0 ",
        ],
    ),
    (
        b"old",
        &[
            "convert binary1 twice.txt old|2 twice.txt: refused 14 DuplicateKey at octet 3\n",
            "convert openstep true.bin old|2 true.bin: refused 40 NotInOpenStep\n",
            "convert binary1 missing old|4 missing: refused 50 ReadFailed\n",
            "same row2.txt row2.bin|0 equal\n",
            "same real4.bin real8.bin|1 different\n",
            "lint row2.txt|0 row2.txt: OK\n",
            "lint row2.txt row2.bin|0 row2.txt: OK\nrow2.bin: OK\n",
            "check row2.bin|0 canonical\n",
            "check unsorted.bin row2.bin|1 unsorted.bin: broken C5 at object 0\n\
                row2.bin: canonical\n",
            "print real4.bin|0 1.0f\n",
            "explain 014|3 error: '014' is no refusal and no rule: plistconv explain lists them\n",
            "same row2.txt missing|4 missing: refused 50 ReadFailed\n",
            "--version|0 plistconv 0.3.0\n",
        ],
    ),
];

// Runs over files that are given by absolute paths, by what is at `old` then.
const ABSOLUTE: [(&[u8], &str); 6] = [
    (
        TABLE,
        "convert binary1 /proc/self/cwd/row2.txt /proc/self/cwd/old|0 ",
    ),
    (
        b"old",
        "convert binary1 /proc/self/cwd/twice.txt /proc/self/cwd/old|2 /proc/self/cwd/twice.txt: \
            refused 14 DuplicateKey at octet 3\n",
    ),
    (
        b"old",
        "same /proc/self/cwd/real4.bin /proc/self/cwd/real8.bin|1 different\n",
    ),
    (
        b"old",
        "lint /proc/self/cwd/row2.txt|0 /proc/self/cwd/row2.txt: OK\n",
    ),
    (b"old", "check /proc/self/cwd/row2.bin|0 canonical\n"),
    (b"old", "print /proc/self/cwd/real4.bin|0 1.0f\n"),
];

// Returns how many files a row opens to be read, and how many it creates.
fn files_of(words: &[&str], row: &str) -> (usize, usize) {
    match words {
        [_, "convert", _, _, _] => (1, usize::from(row.ends_with("|0 "))),
        [_, "same" | "lint" | "check" | "print", paths @ ..] => (paths.len(), 0),
        _ => (0, 0),
    }
}

// How often a host was asked to open, create and synchronise a file.
#[derive(Drop)]
struct Asked {
    opened: Cell<usize>,
    created: Cell<usize>,
    synchronised: Cell<usize>,
}

// Returns a host that counts what it is asked for.
fn counting<'a>(rt: &'a HostRuntime, asked: &'a Asked, removes: bool) -> StrictHost<'a> {
    let transfers = Transfers {
        synchronised: Some(&asked.synchronised),
        ..Transfers::GOOD
    };
    StrictHost {
        read: transfers,
        written: transfers,
        removes,
        opened: Some(&asked.opened),
        created: Some(&asked.created),
        ..StrictHost::over(rt)
    }
}

// Returns whether the row has its result over the host, leaves these bytes at the path `old`, opens
// and creates each of its files once, and synchronises none.
fn is_asked_once(rt: &HostRuntime, row: &str, left: &[u8], removes: bool) -> Result<bool, Fail> {
    let asked = Asked {
        opened: Cell::new(0),
        created: Cell::new(0),
        synchronised: Cell::new(0),
    };
    let host = counting(rt, &asked, removes);
    let is_right = is_answered(rt, &host, row, left)?;
    let words = words_of(rt.alloc(), row)?;
    let (reads, creates) = files_of(words.as_slice(), row);
    // Each row is run by both calls.
    let is_opened = asked.opened.get() == reads.saturating_mul(2);
    let is_created = asked.created.get() == creates.saturating_mul(2);
    Ok(is_right && is_opened && is_created && asked.synchronised.get() == 0)
}

// Each path is opened once. The second time it would be missing.
#[test]
fn each_path_is_opened_once(rt: HostRuntime) -> Result<(), Fail> {
    for (left, rows) in COMMANDS {
        for row in rows.iter() {
            assert!(rt; is_answered(&rt, &rt, row, left)?, "{row}, not strict");
            assert!(rt; is_asked_once(&rt, row, left, false)?, "{row}");
            assert!(rt; is_asked_once(&rt, row, left, true)?, "{row}, removed");
        }
    }
    for (left, row) in ABSOLUTE {
        assert!(rt; is_asked_once(&rt, row, left, false)?, "{row}");
        assert!(rt; is_asked_once(&rt, row, left, true)?, "{row}, removed");
    }
    let twice = "lint row2.bin row2.bin|4 row2.bin: OK\nrow2.bin: refused 50 ReadFailed\n";
    assert!(rt; is_asked_once(&rt, twice, b"old", true)?);
    put_files(&rt)?;
    remove_files(&rt)
}

// Errors of a host. No cause makes a device out of memory, and none is tried again.
const KINDS: [ErrorKind; 3] = [
    ErrorKind::OutOfMemory,
    ErrorKind::Interrupted,
    ErrorKind::Other,
];

const READS: [&str; 5] = [
    "lint row2.bin|4 row2.bin: refused 50 ReadFailed\n",
    "check row2.bin|4 row2.bin: refused 50 ReadFailed\n",
    "same row2.bin row2.txt|4 row2.bin: refused 50 ReadFailed\n",
    "print row2.bin|4 row2.bin: refused 50 ReadFailed\n",
    "convert binary1 row2.bin old|4 row2.bin: refused 50 ReadFailed\n",
];

#[test]
fn a_read_that_fails_once_is_50(rt: HostRuntime) -> Result<(), Fail> {
    for kind in KINDS {
        let unopened = StrictHost {
            unopened: Some(kind),
            ..StrictHost::over(&rt)
        };
        for row in READS {
            assert!(rt; is_answered(&rt, &unopened, row, b"old")?, "{row}");
            for number in [1, 2] {
                let broken = StrictHost {
                    read: Transfers::failing(number, kind),
                    ..StrictHost::over(&rt)
                };
                let is_50 = is_answered(&rt, &broken, row, b"old")?;
                assert!(rt; is_50, "{row}, read {number}");
            }
        }
    }
    remove_files(&rt)
}

// Conversions of which each write moves up to 10 bytes, and the output of each.
const CONVERSIONS: [(&str, &[u8]); 2] = [
    ("convert binary1 row2.txt old", TABLE),
    ("convert openstep row2.bin old", WRITTEN_TEXT),
];

// Returns whether the run over the host is 51 after `sent` bytes, and leaves these in the file.
fn is_cut(
    rt: &HostRuntime,
    host: &StrictHost,
    words: &str,
    file: &[u8],
    sent: usize,
) -> Result<bool, Fail> {
    let row = format!(in rt.alloc();
        "{words}|4 old: refused 51 WriteFailed after {sent} octets\n"
    )?;
    let left = if sent == 0 && host.uncreated.is_some() {
        b"old".as_slice()
    } else {
        file.get(..sent).unwrap_or(file)
    };
    is_answered(rt, host, row.as_str(), left)
}

#[test]
fn a_write_that_fails_once_is_51(rt: HostRuntime) -> Result<(), Fail> {
    for kind in KINDS {
        let uncreated = StrictHost {
            uncreated: Some(kind),
            ..StrictHost::over(&rt)
        };
        for (words, file) in CONVERSIONS {
            assert!(rt; is_cut(&rt, &uncreated, words, file, 0)?, "{words}");
            for number in [1, 2] {
                let broken = StrictHost {
                    written: Transfers {
                        most: 10,
                        ..Transfers::failing(number, kind)
                    },
                    ..StrictHost::over(&rt)
                };
                let is_51 = is_cut(&rt, &broken, words, file, 10 * (number - 1))?;
                assert!(rt; is_51, "{words}, write {number}");
            }
        }
    }
    remove_files(&rt)
}

// Converts this standard input to standard output, of which transfers fail. Returns the exit status
// and the output, for which memory is reserved, or an error if out of memory: the output is empty
// if the write that failed was that of the line of 60.
fn filtered(
    rt: &HostRuntime,
    octets: &[u8],
    read: Transfers,
    written: Transfers,
    to_end: bool,
) -> Result<(u8, Vec<u8>), AllocError> {
    let mut input = Strict::with(octets, read);
    let mut output = Strict::with(Vec::with_capacity(rt.alloc(), 6_000)?, written);
    let host = StrictHost::over(rt);
    let status = ran(&host, rt, &["plistconv"], &mut input, &mut output, to_end);
    if output.device.is_empty() {
        return Err(AllocError);
    }
    Ok((with_memory(status)?, output.device))
}

#[test]
fn streams_that_fail_once(rt: HostRuntime) -> Result<(), Fail> {
    for kind in KINDS {
        for to_end in [false, true] {
            let failing = Transfers::failing(1, kind);
            let (status, output) = filtered(&rt, UNSORTED, failing, Transfers::GOOD, to_end)?;
            assert_eq!(rt; status, 4);
            assert_eq!(rt; output.as_slice(), b"-: refused 50 ReadFailed\n".as_slice());
            let (status, output) = filtered(&rt, UNSORTED, Transfers::GOOD, failing, to_end)?;
            assert_eq!(rt; status, 4);
            assert_eq!(rt;
                output.as_slice(),
                b"-: refused 51 WriteFailed after 0 octets\n".as_slice()
            );
        }
    }
    Ok(())
}

// The number of a write of up to 1,500 bytes, and how many bytes come before it: the header and the
// marker of data of 5,000 bytes, and then this data.
const LONG_WRITES: [(usize, usize); 4] = [(1, 0), (2, 12), (3, 1512), (4, 3012)];

#[test]
fn a_long_write_that_fails_once_is_51(rt: HostRuntime) -> Result<(), Fail> {
    let file = file_of_data(rt.alloc(), b"\x4f\x11\x13\x88")?;
    for (number, sent) in LONG_WRITES {
        for (to_end, kind) in [(false, ErrorKind::Other), (true, ErrorKind::Interrupted)] {
            let failing = Transfers {
                most: 1500,
                ..Transfers::failing(number, kind)
            };
            let (status, output) = filtered(
                &rt,
                file.as_slice(),
                Transfers::GOOD,
                failing,
                to_end,
            )?;
            let line = format!(in rt.alloc(); "-: refused 51 WriteFailed after {sent} octets\n")?;
            let mut expected = Vec::from_slice(rt.alloc(), file.get(..sent).unwrap_or(b""))?;
            expected.extend_from_slice(line.as_bytes())?;
            assert_eq!(rt; (status, output.as_slice()), (4, expected.as_slice()));
        }
    }
    Ok(())
}

// Where the system gives no random bytes, the key of the hasher is read from a file, whole.
#[test]
fn the_key_is_read_whole(rt: HostRuntime) -> Result<(), Fail> {
    let given = Cell::new(0);
    let host = StrictHost {
        read: Transfers {
            most: 1,
            given: Some(&given),
            ..Transfers::GOOD
        },
        ..StrictHost::over(&rt)
    };
    let mut input: &[u8] = b"";
    let mut output = Vec::new(rt.alloc());
    let words = ["plistconv", "lint", "missing"];
    run_to_end(&host, rt.alloc(), &words, &mut input, &mut output);
    assert_eq!(rt; given.get(), 16);
    Ok(())
}
