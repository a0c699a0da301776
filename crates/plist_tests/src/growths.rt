//! Calls that allocate, on small inputs. bench/growths.py runs a test once for each of its
//! allocations, which it refuses from outside: the test then passes, or the first call with another
//! answer gives 60.
use crate::files::{marked, numbers};
use crate::judge_tests::REORDERED;
use crate::worked_files::{TABLE, TABLE_TEXT, TWICE, UNSORTED, VALUES_FIRST, WRITTEN_TEXT};
use ostep_text::{TextFault, read_text, write_text};
use plist_binary::{BinaryFault, judge, read};
use plist_canon::{ListSink, Verdict, WriteFault, canonical, check, write_canonical};
use plist_devices::DeviceFault;
use plist_forms::{Fault, PairFault, canonicalise, judge_any, line, read_any, same_files};
use plist_value::{Value, fits, same};
use std::test::Fail;
use test_files::file;

// A text whose keys ascend by their units. Its canonical file has 62 bytes.
const SURROGATES: &[u8] = b"{\"\\Uff61\"=a;\"\\Ud800\\Udc00\"=b;}";

// Texts with the number of their refusal, 0 if they are accepted.
const TEXTS: [(&[u8], u8); 8] = [
    (b"(/usr/bin, a//b, /* c */ d)", 0),
    (b"a/*c*/", 23),
    (b"{a;a=b;}", 14),
    (b"{a=b}", 30),
    (b"<0f b>", 28),
    (b"<>", 0),
    (b"{a;}", 0),
    (b" ", 0),
];

// Two references to one array, dictionaries with keys out of order, and an array that contains
// itself.
#[test]
fn files_are_judged_and_read(rt: HostRuntime) -> Result<(), Fail> {
    let alloc = rt.alloc();
    let shared = file(alloc, b"\xa2\x01\x01\xa0", &[8, 11], 1)?;
    let circular = file(alloc, b"\xa1\x00", &[8], 1)?;
    let rows = [
        (shared.as_slice(), 0),
        (UNSORTED, 0),
        (REORDERED, 0),
        (circular.as_slice(), 15),
    ];
    for (octets, code) in rows {
        assert_eq!(rt; code_of!(judge(alloc, octets)), code, "{octets:?}");
        assert_eq!(rt; code_of!(read(alloc, octets)), code, "{octets:?}");
        assert_eq!(rt; code_of!(check(alloc, octets)), 0, "{octets:?}");
    }
    let value = read(alloc, shared.as_slice())?;
    assert!(rt; same(&value, &read_text(alloc, b"((), ())")?));
    Ok(())
}

#[test]
fn files_are_made(rt: HostRuntime) -> Result<(), Fail> {
    let alloc = rt.alloc();
    let value = read_text(alloc, SURROGATES)?;
    if !fits(&value) {
        return Err(Fail::from("it does not fit"));
    }
    let whole = canonical(alloc, &value)?;
    assert_eq!(rt; whole.len(), 62);
    let mut sink = ListSink::new(alloc, 100, 7)?;
    let sent = match write_canonical(alloc, &value, &mut sink) {
        Ok(sent) => {
            assert_eq!(rt; sent, 62);
            sent
        }
        Err(WriteFault::OutOfMemory { sent }) => sent,
        Err(WriteFault::WriteFailed { .. }) => return Err(Fail::from("the sink has room")),
    };
    assert_eq!(rt; Some(sink.taken()), whole.as_slice().get(..sent as usize));
    Ok(())
}

#[test]
fn files_are_checked(rt: HostRuntime) -> Result<(), Fail> {
    let alloc = rt.alloc();
    let marked = marked(alloc)?;
    let rows = [
        (TABLE, Verdict::Canonical),
        (VALUES_FIRST, Verdict::Broken { rule: 7, object: 0 }),
        (UNSORTED, Verdict::Broken { rule: 5, object: 0 }),
        (marked.as_slice(), Verdict::Broken { rule: 1, object: 0 }),
    ];
    for (octets, verdict) in rows {
        assert_eq!(rt; check(alloc, octets), Ok(verdict));
    }
    assert_eq!(rt; code_of!(check(alloc, TABLE_TEXT)), 1);
    Ok(())
}

#[test]
fn texts_are_read(rt: HostRuntime) -> Result<(), Fail> {
    let alloc = rt.alloc();
    for (octets, code) in TEXTS {
        assert_eq!(rt; code_of!(read_text(alloc, octets)), code, "{octets:?}");
        assert_eq!(rt; code_of!(judge_any(alloc, octets)), code, "{octets:?}");
        assert_eq!(rt; code_of!(read_any(alloc, octets)), code, "{octets:?}");
        assert_eq!(rt; code_of!(canonicalise(alloc, octets)), code, "{octets:?}");
    }
    assert_eq!(rt; canonicalise(alloc, TABLE_TEXT)?.as_slice(), TABLE);
    Ok(())
}

#[test]
fn texts_are_written(rt: HostRuntime) -> Result<(), Fail> {
    let alloc = rt.alloc();
    let rows: [(&[u8], &[u8]); 5] = [
        (b"\"bplist\"", b"\"bplist\"\n"),
        (b"\"\\Ud800\"", b"\"\\Ud800\"\n"),
        (TABLE_TEXT, WRITTEN_TEXT),
        (b"()", b"(\n)\n"),
        (b"a.b", b"\"a.b\"\n"),
    ];
    for (octets, written) in rows {
        let value = read_text(alloc, octets)?;
        if !fits(&value) {
            return Err(Fail::from("it does not fit"));
        }
        assert_eq!(rt; write_text(alloc, &value)?.as_slice(), written);
    }
    let flags = Value::List(vec![in alloc; Value::Flag(true)]?);
    if fits(&flags) {
        assert_eq!(rt; code_of!(write_text(alloc, &flags)), 40);
    }
    Ok(())
}

#[test]
fn files_are_compared(rt: HostRuntime) -> Result<(), Fail> {
    assert_eq!(rt; same_files(rt.alloc(), TABLE_TEXT, TABLE), Ok(true));
    let twice = Fault::Text(TextFault::DuplicateKey { octet: 3 });
    let answer = same_files(rt.alloc(), TABLE_TEXT, TWICE);
    assert_eq!(rt; answer, Err(PairFault::Second(twice)));
    Ok(())
}

#[test]
fn faults_are_printed(rt: HostRuntime) -> Result<(), Fail> {
    let alloc = rt.alloc();
    let ascii = Fault::Binary(BinaryFault::NotAscii { object: 7 });
    let twice = Fault::Text(TextFault::DuplicateKey { octet: 3 });
    let wanting = Fault::from(BinaryFault::OutOfMemory);
    for (fault, printed) in [
        (ascii, "p: refused 11 NotAscii at object 7"),
        (twice, "p: refused 14 DuplicateKey at octet 3"),
        (wanting, "p: refused 60 OutOfMemory after 0 octets"),
    ] {
        assert_eq!(rt; line(alloc, "p", &fault)?.as_str(), printed);
    }
    let first = PairFault::First(Fault::ReadFailed);
    assert_eq!(rt;
        first.to_string(alloc)?.as_str(),
        "the first: 50 ReadFailed"
    );
    let second = PairFault::Second(Fault::from(DeviceFault));
    assert_eq!(rt;
        second.to_string(alloc)?.as_str(),
        "the second: 50 ReadFailed"
    );
    assert_eq!(rt; DeviceFault.to_string(alloc)?.as_str(), "the device failed");
    Ok(())
}

// A value takes an allocation for each of its strings. bench/growths.py counts them, since `check`,
// which builds no value, makes fewer than 100 for this file.
#[test]
fn a_value_of_many_strings_is_read(rt: HostRuntime) -> Result<(), Fail> {
    let octets = numbers(rt.alloc(), 255, 2)?;
    let value = read(rt.alloc(), octets.as_slice())?;
    assert!(rt; matches!(&value, Value::List(items) if items.len() == 255));
    Ok(())
}
