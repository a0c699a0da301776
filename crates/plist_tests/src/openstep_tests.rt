//! OpenStep texts of more than one piece.
use crate::depth::nested;
use crate::devices::Noting;
use plist_devices::{ListSink, Sink};
use plist_forms::{Fault, Form, convert_octets, write_openstep};
use plist_value::FixedHasher;
use std::alloc::{AllocError, Global};
use std::test::Fail;
use test_files::{Draft, chain};

// Returns the file of an array of two items. The first is ten arrays deep, each of the next object
// twice, and after them a dictionary; the second is this scalar.
fn doubled(alloc: Global, last: &[u8]) -> Result<Vec<u8>, AllocError> {
    let mut draft = Draft::new(alloc)?;
    draft.put(&[0xa2, 1, 14])?;
    for next in 2..12u8 {
        draft.put(&[0xa2, next, next])?;
    }
    for object in [b"\xd1\x0c\x0d".as_slice(), b"Qa", b"Qb", last] {
        draft.put(object)?;
    }
    draft.finish(1, 1)
}

// Returns its text if the scalar is the string `c`.
fn doubled_text(alloc: Global) -> Result<Vec<u8>, AllocError> {
    let mut item = format!(in alloc; "{{\na = b;\n}}")?;
    for _ in 0..10 {
        item = format!(in alloc; "(\n{item},\n{item},\n)")?;
    }
    let text = format!(in alloc; "(\n{item},\nc,\n)\n")?;
    Vec::from_slice(alloc, text.as_bytes())
}

// Sends the text by one of the two calls.
fn send<W: Sink>(alloc: Global, octets: &[u8], is_owned: bool, to: &mut W) -> Result<u64, Fault> {
    if is_owned {
        let loaded = Vec::from_slice(alloc, octets)?;
        convert_octets(alloc, FixedHasher::new(), loaded, to, Form::OpenStep)
    } else {
        write_openstep(alloc, octets, to)
    }
}

#[test]
fn a_long_text_is_sent_in_pieces(rt: HostRuntime) -> Result<(), Fail> {
    let alloc = rt.alloc();
    let lines = [b"".as_slice(), b"(\n", b"a", b",\n)", b"\n"];
    let deep = nested(alloc, &lines, 511)?;
    let rows = [
        (doubled(alloc, b"Qc")?, doubled_text(alloc)?),
        (chain(alloc, 512, b"Qa", [2, 2])?, deep),
    ];
    for (file, text) in rows {
        for octets in [file.as_slice(), text.as_slice()] {
            for is_owned in [false, true] {
                let mut sink = ListSink::new(alloc, text.len(), 7)?;
                let sent = send(alloc, octets, is_owned, &mut sink);
                assert_eq!(rt; sent, Ok(text.len() as u64));
                assert!(rt; sink.taken() == text.as_slice());
                let mut noting = Noting { longest: 0, all: 0 };
                send(alloc, octets, is_owned, &mut noting)?;
                assert_eq!(rt; noting.all, text.len());
                assert!(rt; noting.longest < 5000);
            }
        }
    }
    Ok(())
}

// The boolean comes after 17,405 bytes of what would be the text.
#[test]
fn nothing_is_sent_of_a_value_without_a_text(rt: HostRuntime) -> Result<(), Fail> {
    let alloc = rt.alloc();
    let octets = doubled(alloc, b"\x09")?;
    for is_owned in [false, true] {
        let mut sink = ListSink::new(alloc, 20_000, 7)?;
        let answer = send(alloc, octets.as_slice(), is_owned, &mut sink);
        assert_eq!(rt; answer, Err(Fault::NotInOpenStep));
        assert_eq!(rt; (sink.taken().len(), sink.failures()), (0, 0));
    }
    Ok(())
}
