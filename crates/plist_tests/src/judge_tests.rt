//! The validator, beyond the rows: keys of long dictionaries, and overlapping dictionaries.
use crate::canonical_files::canonical_file;
use plist_binary::{BinaryFault, judge};
use plist_canon::{Verdict, check};
use std::alloc::{AllocError, Global};
use std::test::Fail;
use test_files::{Draft, end};

// Returns key `number` of a long dictionary, which ascends with the number. Keys begin with `units`
// units, of which the first is shared by `sharing` keys and the others by all; one or two units
// follow. The last unit goes from 88 to 107 in ASCII keys, and from 245 to 264 in the others.
fn key(alloc: Global, sharing: u8, units: u8, number: u8) -> Result<Vec<u8>, AllocError> {
    let step = number / 2;
    let ascii = step < 20;
    let count = units.saturating_add(1 + number % 2);
    let mut key = Vec::from_slice(alloc, &[if ascii { 0x5f } else { 0x6f }, 0x10, count])?;
    for index in 0..count {
        let unit = if index >= units {
            (if ascii { 88 } else { 225 }) + u16::from(step)
        } else if index == 0 {
            0x61 + u16::from(number / sharing.max(1))
        } else {
            0x61
        };
        let [high, low] = unit.to_be_bytes();
        if !ascii {
            key.push(high)?;
        }
        key.push(low)?;
    }
    Ok(key)
}

// Returns a dictionary of eighty keys out of order, the last but one of which has number `last`.
fn long_table(alloc: Global, sharing: u8, units: u8, last: u8) -> Result<Vec<u8>, AllocError> {
    let mut table = Vec::from_slice(alloc, &[0xdf, 0x10, 80])?;
    for i in 1..81u8 {
        table.push(i)?;
    }
    table.resize(163, 81)?;
    let mut draft = Draft::new(alloc)?;
    draft.put(table.as_slice())?;
    for i in 0..80u16 {
        let number = if i == 78 { last } else { (i * 37 % 80) as u8 };
        draft.put(key(alloc, sharing, units, number)?.as_slice())?;
    }
    draft.put(b"\x09")?;
    draft.finish(2, 1)
}

// Returns whether the file is valid, and its canonical file is one, so that all keys are sorted.
fn is_sorted(alloc: Global, octets: &[u8]) -> Result<bool, AllocError> {
    if judge(alloc, octets).is_err() {
        return Ok(false);
    }
    let file = canonical_file(alloc, octets)?;
    Ok(matches!(check(alloc, file.as_slice()), Ok(Verdict::Canonical)))
}

// How many keys share their first unit, and how many units they begin with.
const BEGINNINGS: [(u8, &[u8]); 3] = [
    (80, &[0, 1, 40, 62, 63, 64, 65, 90]),
    (8, &[1, 7, 8, 9, 16, 63, 64, 65, 90]),
    (2, &[1, 8, 17, 90]),
];

// Also with a duplicate key.
#[test]
fn keys_of_a_long_table(rt: HostRuntime) -> Result<(), Fail> {
    for (sharing, counts) in &BEGINNINGS {
        for units in counts.iter() {
            let octets = long_table(rt.alloc(), *sharing, *units, 6)?;
            assert!(rt;
                is_sorted(rt.alloc(), octets.as_slice())?,
                "{sharing}, {units}"
            );
            let twice = long_table(rt.alloc(), *sharing, *units, 7)?;
            let fault = BinaryFault::DuplicateKey { object: 0 };
            assert_eq!(rt;
                judge(rt.alloc(), twice.as_slice()),
                Err(fault),
                "{sharing}, {units}"
            );
        }
    }
    Ok(())
}

// Two dictionaries of the same two keys, in either order. Both keys are long: together they are
// longer than the file, so that they are compared by their ranks.
pub(crate) const REORDERED: &[u8] = b"bplist00\xa2\x01\x02\xd2\x03\x04\x05\x05\xd2\x04\x03\x05\x05\
    \x5f\x10\x3caaaaaaaaaaaaaaaaaaaaaaaaaaaaaaaaaaaaaaaaaaaaaaaaaaaaaaaaaaax\
    \x5f\x10\x3caaaaaaaaaaaaaaaaaaaaaaaaaaaaaaaaaaaaaaaaaaaaaaaaaaaaaaaaaaaw\x09\
    \x08\x0b\x10\x15\x54\x93\0\0\0\0\0\0\x01\x01\0\0\0\0\0\0\0\x06\0\0\0\0\0\0\0\0\
    \0\0\0\0\0\0\0\x94";

#[test]
fn keys_in_another_order(rt: HostRuntime) -> Result<(), Fail> {
    assert!(rt; is_sorted(rt.alloc(), REORDERED)?);
    Ok(())
}

// Returns a file with a dictionary of `count` keys, all of them one string, and `count` objects
// that are all this dictionary.
fn one_table_often(alloc: Global, count: u32) -> Result<Vec<u8>, AllocError> {
    let mut file = Vec::from_slice(alloc, b"bplist00\xdf\x12")?;
    file.extend_from_slice(&count.to_be_bytes())?;
    let mut places = Vec::new(alloc);
    for _ in 0..count {
        file.extend_from_slice(&count.to_be_bytes())?;
        file.extend_from_slice(&count.to_be_bytes())?;
        places.extend_from_slice(&[0, 0, 0, 8])?;
    }
    let text = file.len() as u64;
    file.extend_from_slice(b"Qa")?;
    places.extend_from_slice(&text.to_be_bytes()[4..])?;
    end(&mut file, places.as_slice(), [4, 4], u64::from(count) + 1)?;
    Ok(file)
}

// Comparing the keys of each dictionary again would take minutes.
#[test]
fn tables_that_overlap_take_no_longer(rt: HostRuntime) -> Result<(), Fail> {
    let octets = one_table_often(rt.alloc(), 150_000)?;
    let broken = Verdict::Broken { rule: 5, object: 0 };
    assert_eq!(rt; check(rt.alloc(), octets.as_slice())?, broken);
    let fault = BinaryFault::DuplicateKey { object: 0 };
    assert_eq!(rt; judge(rt.alloc(), octets.as_slice()), Err(fault));
    Ok(())
}
