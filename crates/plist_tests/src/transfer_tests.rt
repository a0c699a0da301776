//! Conversions and prints, from a source to a sink.
use crate::devices::Noting;
use crate::files::padded;
use crate::worked_files::{TABLE, TABLE_TEXT, TRUE, TWICE, UNSORTED, WRITTEN_TEXT};
use plist_canon::write_canonical;
use plist_devices::{ListSink, ListSource, Sink, Source};
use plist_forms::{Fault, Form, canonicalise, convert, convert_octets, print, read_any};
use plist_value::FixedHasher;
use std::alloc::{AllocError, Global};
use std::ops::Range;
use std::test::Fail;
use test_files::{file, one};

// Converts the bytes to this form, or prints them, to a sink for `room` bytes, from a source that
// fails at take number `failing`. Returns the result, how often the source failed, and the sink.
fn conversion(
    alloc: Global,
    octets: &[u8],
    failing: Option<u64>,
    form: Option<Form>,
    room: usize,
) -> Result<(Result<u64, Fault>, u64, ListSink), AllocError> {
    let mut sink = ListSink::new(alloc, room, 7)?;
    let mut source = ListSource::new(octets, 3, failing);
    let answer = match form {
        Some(form) => convert(alloc, &mut source, &mut sink, form),
        None => print(alloc, octets, &mut sink),
    };
    let failed = source.failures();
    Ok((answer, failed, sink))
}

const BINARY: Option<Form> = Some(Form::Binary1);

const TEXT: Option<Form> = Some(Form::OpenStep);

#[test]
fn a_failing_take_leaves_the_sink_empty(rt: HostRuntime) -> Result<(), Fail> {
    // Four takes give bytes, and the fifth finds the end.
    for number in 1..6 {
        for form in [BINARY, TEXT] {
            let (answer, failed, sink) = conversion(
                rt.alloc(),
                TABLE_TEXT,
                Some(number),
                form,
                100,
            )?;
            assert_eq!(rt; answer, Err(Fault::ReadFailed), "at take {number}");
            assert_eq!(rt; (sink.taken().len(), sink.failures(), failed), (0, 0, 1));
        }
    }
    let (answer, _, _) = conversion(rt.alloc(), TABLE_TEXT, Some(6), BINARY, 100)?;
    assert_eq!(rt; answer, Ok(52));
    Ok(())
}

// Returns the first size of a sink that does not take everything, or all that fits followed by a
// refusal.
fn wrong_room(
    alloc: Global,
    octets: &[u8],
    form: Option<Form>,
    rooms: Range<usize>,
    whole: &[u8],
) -> Result<Option<usize>, AllocError> {
    for room in rooms {
        let (answer, _, sink) = conversion(alloc, octets, None, form, room)?;
        let most = room.min(whole.len());
        let sent = most as u64;
        let is_told = if room < whole.len() {
            answer == Err(Fault::WriteFailed { sent }) && sink.failures() == 1
        } else {
            answer == Ok(sent) && sink.failures() == 0
        };
        if !is_told || whole.get(..most) != Some(sink.taken()) {
            return Ok(Some(room));
        }
    }
    Ok(None)
}

#[test]
fn a_sink_of_any_room_holds_a_front(rt: HostRuntime) -> Result<(), Fail> {
    let alloc = rt.alloc();
    for octets in [TABLE_TEXT, UNSORTED, TABLE, WRITTEN_TEXT] {
        assert_eq!(rt; wrong_room(alloc, octets, BINARY, 0..54, TABLE)?, None);
        assert_eq!(rt; wrong_room(alloc, octets, TEXT, 0..20, WRITTEN_TEXT)?, None);
    }
    // Data that puts the offset table beyond the largest offset of one byte.
    let data = padded(alloc, &[0x4f, 0x11, 0, 245], 245, 7)?;
    let source = one(alloc, data.as_slice())?;
    let whole = canonicalise(alloc, source.as_slice())?;
    assert_eq!(rt; whole.len(), 290);
    let wrong = wrong_room(alloc, source.as_slice(), BINARY, 288..292, whole.as_slice())?;
    assert_eq!(rt; wrong, None);
    Ok(())
}

// Nothing is printed of a boolean before it is found that the array which contains it contains
// itself.
#[test]
fn refused_octets_leave_the_sink_empty(rt: HostRuntime) -> Result<(), Fail> {
    let circular = file(rt.alloc(), &[0xa2, 1, 0, 9], &[8, 11], 1)?;
    let rows: [(&[u8], Option<Form>, u8); 9] = [
        (TWICE, BINARY, 14),
        (TWICE, TEXT, 14),
        (TWICE, None, 14),
        (b"bplist00", BINARY, 1),
        (b"bplist00", TEXT, 1),
        (b"bplist00", None, 1),
        (b"(a b)", BINARY, 30),
        (TRUE, TEXT, 40),
        (circular.as_slice(), None, 15),
    ];
    for (octets, form, code) in rows {
        let (answer, _, sink) = conversion(rt.alloc(), octets, None, form, 100)?;
        assert_eq!(rt; code_of!(answer), code, "{octets:?}");
        assert_eq!(rt; (sink.taken().len(), sink.failures()), (0, 0));
    }
    Ok(())
}

// Returns the text of an array of the strings 00000 to 59999.
fn many_texts(alloc: Global) -> Result<Vec<u8>, AllocError> {
    let mut text = Vec::from_slice(alloc, b"(")?;
    for number in 0..60_000u32 {
        for power in [10_000, 1000, 100, 10, 1] {
            text.push(b'0' + (number / power % 10) as u8)?;
        }
        text.push(b',')?;
    }
    text.push(b')')?;
    Ok(text)
}

// The first twelve bytes of a file, and its trailer.
const MANY: [&[u8]; 2] = [
    b"bplist00\xaf\x11\xea\x60",
    b"\0\0\0\0\0\0\x04\x02\0\0\0\0\0\0\xea\x61\0\0\0\0\0\0\0\0\0\0\0\0\0\x07\x53\x0c",
];

const LONG: [&[u8]; 2] = [
    b"bplist00\x4f\x11\x0f\xdc",
    b"\0\0\0\0\0\0\x02\x01\0\0\0\0\0\0\0\x01\0\0\0\0\0\0\0\0\0\0\0\0\0\0\x0f\xe8",
];

// For the data, the header, the object and its offset take 4,074 bytes, so that the trailer does
// not fit after them.
#[test]
fn no_piece_is_longer_than_the_longest_object(rt: HostRuntime) -> Result<(), Fail> {
    let alloc = rt.alloc();
    let mut long_data = padded(alloc, b"<", 8120, b'0')?;
    long_data.push(b'>')?;
    let rows = [
        (many_texts(alloc)?, 120_004, 720_048, MANY),
        (long_data, 4074, 4106, LONG),
    ];
    for (text, longest, all, [front, trailer]) in rows {
        let file = canonicalise(alloc, text.as_slice())?;
        assert_eq!(rt; file.len(), all);
        assert!(rt; file.starts_with(front) && file.ends_with(trailer));
        let mut noting = Noting { longest: 0, all: 0 };
        let value = read_any(alloc, text.as_slice())?;
        assert_eq!(rt; write_canonical(alloc, &value, &mut noting), Ok(all as u64));
        assert_eq!(rt; (noting.longest, noting.all), (longest, all));
        // The canonical file of the text, and that of the file itself.
        for octets in [text.as_slice(), file.as_slice()] {
            let mut noting = Noting { longest: 0, all: 0 };
            let mut source = ListSource::new(octets, 4096, None);
            let sent = convert(alloc, &mut source, &mut noting, Form::Binary1);
            assert_eq!(rt; sent, Ok(all as u64));
            assert_eq!(rt; (noting.longest, noting.all), (longest, all));
        }
        assert!(rt; canonicalise(alloc, file.as_slice())? == file);
    }
    Ok(())
}

// Returns whether the sink has the output: all of it, or as many bytes as the result says if memory
// was refused.
fn is_front(answer: &Result<u64, Fault>, sink: &ListSink, whole: &[u8]) -> bool {
    let most = match answer {
        Ok(sent) if *sent == whole.len() as u64 => *sent,
        Err(Fault::OutOfMemory { sent }) => *sent,
        Err(fault) if fault.code() == 60 => 0,
        _ => return false,
    };
    whole.get(..most as usize) == Some(sink.taken())
}

// Also with any allocation refused from outside.
#[test]
fn what_went_out_is_a_front_of_the_output(rt: HostRuntime) -> Result<(), Fail> {
    let alloc = rt.alloc();
    let printed = b"{\n  \"a\" => \"b\"\n  \"b\" => \"a\"\n}\n".as_slice();
    for (form, whole) in [(BINARY, TABLE), (TEXT, WRITTEN_TEXT), (None, printed)] {
        for octets in [TABLE_TEXT, TABLE] {
            let (answer, _, sink) = conversion(alloc, octets, None, form, 100)?;
            assert!(rt; is_front(&answer, &sink, whole));
            if let Some(form) = form {
                let mut sink = ListSink::new(alloc, 100, 7)?;
                let loaded = Vec::from_slice(alloc, octets)?;
                let answer = convert_octets(alloc, FixedHasher::new(), loaded, &mut sink, form);
                assert!(rt; is_front(&answer, &sink, whole));
            }
        }
    }
    Ok(())
}
