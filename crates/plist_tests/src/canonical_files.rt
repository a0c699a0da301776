//! Canonical files made from binary files, without their values.
use crate::files::padded;
use plist_binary::judge_file;
use plist_object::Object;
use plist_value::{FixedHasher, ScalarRef, Whole};
use plist_write::{RepeatFilterBuilder, ScalarNumbers, canonical_of};
use std::alloc::{AllocError, Global};
use std::test::Fail;
use test_files::Draft;

// Returns the canonical file of the value that the bytes encode.
pub(crate) fn canonical_file(alloc: Global, octets: &[u8]) -> Result<Vec<u8>, AllocError> {
    match judge_file(alloc, octets) {
        Ok(judged) => canonical_of(alloc, FixedHasher::new(), judged),
        Err(_) => Err(AllocError),
    }
}

const TWO: &[u8] = b"\xa2\x01\x02";

// References to objects 1 to 24, and to 20 objects, of four of which it has two.
const LISTED: &[u8] = b"\xaf\x10\x18\x01\x02\x03\x04\x05\x06\x07\x08\x09\x0a\x0b\x0c\
    \x0d\x0e\x0f\x10\x11\x12\x13\x14\x15\x16\x17\x18";

const SHARED: &[u8] = b"\xaf\x10\x18\x01\x02\x03\x04\x05\x06\x07\x08\x09\x0a\x0b\x0c\
    \x0d\x0e\x0f\x10\x11\x12\x13\x14\x01\x08\x09\x14";

// Long pieces of data: two that are equal, two that differ in the last byte, and more than are
// compared without a hash, with repeats. Each row has the array and the last bytes of the data, for
// a file and for its canonical file.
const LONG: [[&[u8]; 4]; 3] = [
    [TWO, b"aa", b"\xa2\x01\x01", b"a"],
    [TWO, b"ab", TWO, b"ab"],
    [
        LISTED,
        b"abcdefghijklmnopqrstahit",
        SHARED,
        b"abcdefghijklmnopqrst",
    ],
];

// Returns the file of an array and of data of 65,536 bytes, all zero except the last.
fn file_of_long(alloc: Global, list: &[u8], lasts: &[u8]) -> Result<Vec<u8>, AllocError> {
    let mut draft = Draft::new(alloc)?;
    draft.put(list)?;
    for last in lasts {
        let mut object = padded(alloc, &[0x4f, 0x12, 0, 1, 0, 0], 65_535, 0)?;
        object.push(*last)?;
        draft.put(object.as_slice())?;
    }
    draft.finish(4, 1)
}

#[test]
fn long_data_share_objects_where_all_octets_are_equal(rt: HostRuntime) -> Result<(), Fail> {
    for (index, [list, lasts, own_list, own_lasts]) in LONG.iter().enumerate() {
        let source = file_of_long(rt.alloc(), list, lasts)?;
        let canonical = canonical_file(rt.alloc(), source.as_slice())?;
        let own = file_of_long(rt.alloc(), own_list, own_lasts)?;
        assert!(rt; canonical.as_slice() == own.as_slice(), "row {index}");
    }
    Ok(())
}

// Returns the file of an array with 12,000 references to `objects` scalars, the last ones to the
// first scalars again. The scalars are integers, or data of two bytes. Those after the first 10,000
// repeat the first ones, integers as four bytes.
fn file_of_many(alloc: Global, objects: u16, are_numbers: bool) -> Result<Vec<u8>, AllocError> {
    let mut list = Vec::from_slice(alloc, &[0xaf, 0x11, 0x2e, 0xe0])?;
    for index in 0..12_000u16 {
        let object = if index < objects {
            index
        } else {
            index - objects
        };
        list.extend_from_slice(&object.saturating_add(1).to_be_bytes())?;
    }
    let mut draft = Draft::new(alloc)?;
    draft.put(list.as_slice())?;
    for object in 0..objects {
        let [high, low] = (object % 10_000).to_be_bytes();
        match object {
            _ if !are_numbers => draft.put(&[0x42, high, low])?,
            0..256 => draft.put(&[0x10, low])?,
            256..10_000 => draft.put(&[0x11, high, low])?,
            _ => draft.put(&[0x12, 0, 0, high, low])?,
        }
    }
    draft.finish(2, 2)
}

#[test]
fn many_scalars_share_objects_however_they_are_spelled(rt: HostRuntime) -> Result<(), Fail> {
    for are_numbers in [true, false] {
        let source = file_of_many(rt.alloc(), 12_000, are_numbers)?;
        let canonical = canonical_file(rt.alloc(), source.as_slice())?;
        let own = file_of_many(rt.alloc(), 10_000, are_numbers)?;
        assert!(rt; canonical.as_slice() == own.as_slice(), "{are_numbers}");
    }
    Ok(())
}

#[test]
fn filters_tell_what_may_repeat(rt: HostRuntime) -> Result<(), Fail> {
    let mut builder = RepeatFilterBuilder::new(rt.alloc(), &FixedHasher::new(), 3);
    for octets in [b"a", b"b", b"a"] {
        builder.add(&Object::Scalar(ScalarRef::Bytes(octets)))?;
    }
    let filter = builder.build(rt.alloc())?;
    assert_eq!(rt; filter.len(), 3);
    assert_eq!(rt; filter.may_repeat(0), true);
    assert_eq!(rt; filter.may_repeat(1), false);
    assert_eq!(rt; filter.may_repeat(2), true);
    Ok(())
}

#[test]
fn scalars_by_their_numbers(rt: HostRuntime) -> Result<(), Fail> {
    let five = ScalarRef::Whole(Whole::new(5).ok_or("in the range")?);
    let mut known = ScalarNumbers::new(rt.alloc(), FixedHasher::new(), 3);
    assert_eq!(rt; known.enter(five, 7)?, None);
    assert_eq!(rt; known.enter(ScalarRef::Bytes(b"a"), 8)?, None);
    assert_eq!(rt; known.enter(five, 9)?, Some(7));
    assert_eq!(rt; known.enter(ScalarRef::Bytes(b"a"), 9)?, Some(8));
    Ok(())
}
