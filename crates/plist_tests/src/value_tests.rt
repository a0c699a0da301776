//! Copies of values, strings, compared and as keys of a map, and which refusals there are.
use crate::worked_files::TABLE_TEXT;
use ostep_text::read_text;
use plist_value::{
    MAX_DEPTH, MAX_NODES, MAX_PAYLOAD, Place, Refusal, Report, ScalarRef, TextRef, Utf16, Value,
    Whole, copy, fits, same,
};
use std::alloc::{AllocError, Global};
use std::collections::{BTreeMap, HashMap};
use std::test::Fail;

// Returns a value of each kind.
fn values(alloc: Global) -> Result<Vec<Value>, Fail> {
    let mut values = Vec::new(alloc);
    let alone = Utf16::from_units(Vec::from_slice(alloc, &[0xd800])?);
    values.push(Value::Text(alone))?;
    values.push(Value::Whole(Whole::new(5).ok_or("in the range")?))?;
    values.push(Value::Flag(true))?;
    values.push(Value::Real4([0; 4]))?;
    values.push(Value::Real8([0; 8]))?;
    values.push(Value::Moment([0; 8]))?;
    values.push(Value::Bytes(Vec::from_slice(alloc, b"a")?))?;
    values.push(Value::List(Vec::new(alloc)))?;
    values.push(Value::Table(BTreeMap::new(alloc)))?;
    values.push(read_text(alloc, TABLE_TEXT)?)?;
    Ok(values)
}

#[test]
fn copies_are_equal(rt: HostRuntime) -> Result<(), Fail> {
    let alloc = rt.alloc();
    let values = values(alloc)?;
    for (i, value) in values.iter().enumerate() {
        let again = copy(alloc, value)?;
        for (k, other) in values.iter().enumerate() {
            assert_eq!(rt; same(&again, other), i == k, "{i}, {k}");
        }
    }
    let list = Value::List(values);
    let copied = copy(alloc, &list)?;
    assert!(rt; same(&copied, &list) && fits(&copied));
    let text = Utf16::from_units(Vec::from_slice(alloc, &[0x61, 0x62])?);
    assert!(rt; text.copy(alloc)? == text);
    Ok(())
}

#[test]
fn limits_and_what_values_are_made_of(rt: HostRuntime) -> Result<(), Fail> {
    let limits: (u64, u64, u64) = (MAX_NODES, MAX_DEPTH, MAX_PAYLOAD);
    assert_eq!(rt; limits, (16_777_216, 512, 1_073_741_824));
    assert_eq!(rt; Whole::new(5).map(|number| number.get()), Some(5));
    let text = TextRef::of_units(&[0x61]);
    if text.is_empty() {
        return Err(Fail::from("it has a unit"));
    }
    assert_eq!(rt; text.unit(0), 0x61);
    assert!(rt; ScalarRef::of(&Value::Flag(true)) == Some(ScalarRef::Flag(true)));
    Ok(())
}

// A string is found however it is stored, and neither another nor data of the same bytes.
#[test]
fn strings_are_keys_however_they_are_stored(rt: HostRuntime) -> Result<(), Fail> {
    let scalars = [
        ScalarRef::Text(TextRef::of_ascii(b"ab").ok_or("ASCII")?),
        ScalarRef::Text(TextRef::of_wide(b"\0a\0b").ok_or("an even length")?),
        ScalarRef::Text(TextRef::of_units(&[0x61, 0x62])),
        ScalarRef::Text(TextRef::of_wide(b"ab").ok_or("an even length")?),
        ScalarRef::Bytes(b"ab"),
    ];
    for (i, held) in scalars.iter().enumerate() {
        let mut map = HashMap::new(rt.alloc());
        drop(map.insert(*held, ())?);
        for (k, wanted) in scalars.iter().enumerate() {
            let is_same = i == k || i < 3 && k < 3;
            assert_eq!(rt; map.contains_key(wanted), is_same, "{i}, {k}");
        }
    }
    Ok(())
}

// What two strings end with, and how many units of that both share. In two rows only bytes of the
// units are alike.
const ENDS: [(&[u16], &[u16], usize); 7] = [
    (&[], &[], usize::MAX),
    (&[0x78], &[], 0),
    (&[0x78], &[0x79], 0),
    (&[0x78], &[0x178], 0),
    (&[0x78], &[0x7800], 0),
    (&[0x78, 0x79], &[0x78, 0x7a], 1),
    (&[0xd83d, 0x79], &[0xd83d, 0x79, 0x79], 2),
];

// The units of a string, their bytes, and the lower byte of each.
#[derive(Drop)]
struct Units {
    units: Vec<u16>,
    pairs: Vec<u8>,
    lower: Vec<u8>,
}

impl Units {
    // Returns `front` units, these units, and `rest` units.
    fn of(alloc: Global, front: u16, end: &[u16], rest: usize) -> Result<Units, AllocError> {
        let mut units = Vec::new(alloc);
        for i in 0..front {
            units.push(0x41 + i % 50)?;
        }
        units.extend_from_slice(end)?;
        let size = units.len().saturating_add(rest);
        units.resize(size, 0x61)?;
        let (mut pairs, mut lower) = (Vec::new(alloc), Vec::new(alloc));
        for unit in &units {
            let [high, low] = unit.to_be_bytes();
            pairs.extend_from_slice(&[high, low])?;
            lower.push(low)?;
        }
        Ok(Units {
            units,
            pairs,
            lower,
        })
    }

    // Returns the string, as it is stored in each way that can store it.
    fn stored(&self) -> [Option<TextRef<'_>>; 3] {
        let text = TextRef::of_units(self.units.as_slice());
        let ascii = if text.is_ascii() {
            TextRef::of_ascii(self.lower.as_slice())
        } else {
            None
        };
        [Some(text), TextRef::of_wide(self.pairs.as_slice()), ascii]
    }
}

// Returns the first limit up to which strings that share this number of units are not alike in it,
// however they are stored.
fn wrong_limit(units: &Units, others: &Units, shared: usize) -> Option<usize> {
    for text in units.stored() {
        for other in others.stored() {
            if let (Some(text), Some(other)) = (text, other) {
                for most in 0..=text.len().min(other.len()) {
                    let count = shared.min(most);
                    if text.alike(&other, most) != count || other.alike(&text, most) != count {
                        return Some(most);
                    }
                }
            }
        }
    }
    None
}

#[test]
fn strings_are_alike_up_to_a_difference(rt: HostRuntime) -> Result<(), Fail> {
    for front in [0, 1, 31, 32, 33, 64, 100] {
        for (end, other, shared) in ENDS {
            for rest in [0, 40] {
                let units = Units::of(rt.alloc(), front, end, rest)?;
                let others = Units::of(rt.alloc(), front, other, rest)?;
                let shared = shared.saturating_add(usize::from(front));
                let wrong = wrong_limit(&units, &others, shared);
                assert_eq!(rt; wrong, None, "{front}, {end:?}, {other:?}, {rest}");
            }
        }
    }
    Ok(())
}

// The numbers of the refusals that have each kind of place.
const PLACES: [(Place, &[u8]); 4] = [
    (Place::Nowhere, &[1, 2, 3, 40, 50, 52, 60]),
    (
        Place::Object(7),
        &[4, 5, 6, 7, 8, 9, 10, 11, 12, 13, 14, 15, 16, 17, 18],
    ),
    (
        Place::Octet(7),
        &[
            14, 16, 17, 18, 20, 21, 23, 24, 25, 26, 27, 28, 29, 30, 31, 32,
        ],
    ),
    (Place::After(7), &[51, 60]),
];

#[test]
fn refusals_have_numbers_and_places(rt: HostRuntime) -> Result<(), Fail> {
    for number in 0..=255 {
        let refusal = Refusal::of_number(number);
        for (i, (place, numbers)) in PLACES.iter().enumerate() {
            let is_possible = refusal.is_some_and(|refusal| Report(refusal, *place).is_possible());
            assert_eq!(rt; is_possible, numbers.contains(&number), "{number}, {i}");
        }
    }
    Ok(())
}
