//! Sources and sinks: loading in pieces, sending piece by piece, readers and writers of the
//! standard library, and devices whose count of failures is at its maximum.
use crate::devices::{BrokenReader, BrokenWriter, Narrow};
use crate::files::{numbers, zeros};
use crate::worked_files::{TABLE, TABLE_TEXT};
use plist_binary::read;
use plist_canon::write_canonical;
use plist_devices::{
    DeviceFault, ListSink, ListSource, ReaderSource, Sink, Source, Stream, WriterSink, put_all,
};
use plist_forms::{Fault, Form, convert, load, load_unless};
use plist_value::fits;
use plist_write::WriteFault;
use std::test::Fail;
use test_files::one;

#[test]
fn loads_a_list_in_pieces(rt: HostRuntime) -> Result<(), Fail> {
    // Four takes give bytes, and the fifth finds the end.
    for number in 1..6 {
        let mut source = ListSource::new(TABLE_TEXT, 3, Some(number));
        let fault = load(rt.alloc(), &mut source).err();
        assert_eq!(rt; fault, Some(Fault::ReadFailed), "at take {number}");
        assert_eq!(rt; source.failures(), 1);
    }
    let octets = load(rt.alloc(), &mut ListSource::new(TABLE_TEXT, 3, Some(6)))?;
    assert_eq!(rt; octets.as_slice(), TABLE_TEXT);
    Ok(())
}

#[test]
fn loads_unless_known(rt: HostRuntime) -> Result<(), Fail> {
    let mut source = ListSource::new(TABLE_TEXT, 3, None);
    let found = load_unless(rt.alloc(), &mut source, TABLE_TEXT)?;
    assert!(rt; found.is_none());
    // Known bytes that are shorter or longer, or differ in a later piece.
    for known in [&b""[..], b"{b=a", b"{b=a;a=c;}", b"{b=a;a=b;}}"] {
        let mut source = ListSource::new(TABLE_TEXT, 3, None);
        let found = load_unless(rt.alloc(), &mut source, known)?.ok_or("known")?;
        assert_eq!(rt; found.as_slice(), TABLE_TEXT);
    }
    Ok(())
}

#[test]
fn loads_from_readers(rt: HostRuntime) -> Result<(), Fail> {
    let octets = load(rt.alloc(), &mut ReaderSource::new(TABLE_TEXT))?;
    assert_eq!(rt; octets.as_slice(), TABLE_TEXT);
    let mut source = ReaderSource::new(BrokenReader::new());
    let mut buffer = [0u8; 4];
    assert_eq!(rt; source.take(&mut buffer), Ok(2));
    assert_eq!(rt; source.take(&mut buffer), Err(DeviceFault));
    assert_eq!(rt; source.failures(), 1);
    let mut source = ReaderSource::new(BrokenReader::new());
    let fault = load(rt.alloc(), &mut source).err();
    assert_eq!(rt; fault, Some(Fault::ReadFailed));
    Ok(())
}

// Sends the values of canonical files to sinks for `room` bytes that take `step` at a time. Each
// sink has the beginning of the file.
#[test]
fn a_sink_of_any_step(rt: HostRuntime) -> Result<(), Fail> {
    let alloc = rt.alloc();
    let data = zeros(alloc, b"\x4f\x10\xf5", 245, 2)?;
    let cut = WriteFault::WriteFailed { sent: 289 };
    for (file, room, step, answer) in [
        (&one(alloc, b"\xd0")?, 100, 7, Ok(42)),
        (&one(alloc, b"Qa")?, 100, 7, Ok(43)),
        (&data, 300, 1, Ok(290)),
        (&data, 289, 1, Err(cut)),
        (&numbers(alloc, 255, 2)?, 3000, 4096, Ok(2085)),
    ] {
        let value = read(alloc, file.as_slice())?;
        if step == 0 || !fits(&value) {
            return Err(Fail::from("no step, or it does not fit"));
        }
        let mut sink = ListSink::new(alloc, room, step)?;
        assert!(rt; sink.taken().is_empty(), "{room}, {step}");
        assert_eq!(rt;
            write_canonical(alloc, &value, &mut sink),
            answer,
            "{room}, {step}"
        );
        let front = file.as_slice().get(..room.min(file.len()));
        assert!(rt; front == Some(sink.taken()), "{room}, {step}");
    }
    Ok(())
}

// A device whose count of failures is at its maximum, so that each take and each put fails.
#[derive(Drop)]
struct Spent;

impl Source for Spent {
    ghost use Rattle.std.specs.Prelude.{Some, [], ◌^◌, ◌-◌};

    ghost remaining = { λ _. Some [] };

    ghost failures = { λ _. 2 ^ 64 - 1 };

    fn take(&mut self, _into: &mut [u8]) -> Result<usize, DeviceFault> {
        Err(DeviceFault)
    }

    fn failures(&self) -> u64 {
        u64::MAX
    }
}

impl Sink for Spent {
    ghost use Rattle.std.specs.Prelude.{Some, [], ◌^◌, ◌-◌};

    ghost taken = { λ _. Some [] };

    ghost failures = { λ _. 2 ^ 64 - 1 };

    fn put(&mut self, _piece: &[u8]) -> Result<usize, DeviceFault> {
        Err(DeviceFault)
    }

    fn failures(&self) -> u64 {
        u64::MAX
    }
}

#[test]
fn a_device_at_its_greatest_count_fails(rt: HostRuntime) -> Result<(), Fail> {
    let alloc = rt.alloc();
    for form in [Form::Binary1, Form::OpenStep] {
        let mut sink = ListSink::new(alloc, 100, 7)?;
        let sent = convert(alloc, &mut Spent, &mut sink, form);
        assert_eq!(rt; (sent, sink.taken().len()), (Err(Fault::ReadFailed), 0));
        let mut source = ListSource::new(TABLE, 3, None);
        let sent = convert(alloc, &mut source, &mut Spent, form);
        assert_eq!(rt; sent, Err(Fault::WriteFailed { sent: 0 }));
    }
    Ok(())
}

// The bytes put, and the result.
type Put = (&'static [u8], Result<usize, DeviceFault>);

// Returns the bytes of the first put with another result.
fn wrong_put<S: Sink>(sink: &mut S, puts: &[Put]) -> Option<&'static [u8]> {
    for (octets, answer) in puts {
        if sink.put(octets) != *answer {
            return Some(octets);
        }
    }
    None
}

// Puts to a writer with enough room.
const TAKEN: [Put; 2] = [(b"abc", Ok(3)), (b"", Ok(0))];

// Puts to a writer with room for one byte.
const NARROW: [Put; 3] = [(b"abc", Ok(1)), (b"bc", Err(DeviceFault)), (b"", Ok(0))];

// Puts to a writer that fails.
const BROKEN: [Put; 2] = [(b"abc", Err(DeviceFault)), (b"", Err(DeviceFault))];

#[test]
fn a_writer_takes_what_is_put(rt: HostRuntime) -> Result<(), Fail> {
    let mut written = Vec::new(rt.alloc());
    let mut sink = WriterSink::new(&mut written);
    assert!(rt; wrong_put(&mut sink, &TAKEN).is_none());
    assert!(rt; sink.failures() == 0);
    let mut stream = Stream::new(&mut written);
    assert!(rt; stream.put(b"de") == Ok(2));
    assert!(rt; stream.failures() == 0);
    assert!(rt; written.as_slice() == b"abcde".as_slice());
    Ok(())
}

#[test]
fn a_write_that_fails_or_takes_nothing_is_counted(rt: HostRuntime) -> Result<(), Fail> {
    let mut sink = WriterSink::new(Narrow { room: 1 });
    assert!(rt; wrong_put(&mut sink, &NARROW).is_none());
    assert!(rt; sink.failures() == 1);
    let mut sink = WriterSink::new(BrokenWriter);
    assert!(rt; wrong_put(&mut sink, &BROKEN).is_none());
    assert!(rt; sink.failures() == 2);
    assert!(rt; put_all(b"abc", &mut WriterSink::new(Narrow { room: 1 })) == Err(1));
    let mut broken = BrokenWriter;
    let mut stream = Stream::new(&mut broken);
    assert!(rt; stream.put(b"abc") == Err(DeviceFault));
    assert!(rt; stream.failures() == 1);
    Ok(())
}
