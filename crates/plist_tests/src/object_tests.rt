//! Single objects: where they are in a file, how long they are, which are handed over in their
//! encoding of the file, and that a failed put leaves the list unchanged.
use crate::worked_files::TABLE;
use plist_object::{
    BinFile, Object, list_length, put_list, put_scalar, put_table, scalar_length, table_length,
    width_of,
};
use plist_value::{ScalarRef, TextRef, Whole};
use std::alloc::AllocError;
use std::test::Fail;
use test_files::file_of;

// The least and the greatest number of each width.
const WIDTHS: [(u8, [u64; 2]); 4] = [
    (1, [0, 0xff]),
    (2, [0x100, 0xffff]),
    (4, [0x1_0000, 0xffff_ffff]),
    (8, [0x1_0000_0000, u64::MAX]),
];

// The bytes of a marker and a length, by the length.
const HEADS: [(u16, u8); 6] = [(0, 1), (14, 1), (15, 3), (255, 3), (256, 4), (300, 4)];

// Whole numbers, and the bytes of each.
const WHOLES: [(i128, u64); 7] = [
    (0, 2),
    (255, 2),
    (256, 3),
    (65_536, 5),
    (1 << 32, 9),
    (-1, 9),
    (1 << 63, 17),
];

const LETTERS: [u8; 600] = [b'a'; 600];

// Returns whether strings and data of this length, and the array and the dictionary of as many
// references, have a marker and a length of `head` bytes.
fn has_head(count: u16, head: u8) -> bool {
    let (count, head) = (usize::from(count), u64::from(head));
    let (Some(letters), Some(pairs)) = (LETTERS.get(..count), LETTERS.get(..2 * count)) else {
        return false;
    };
    let (Some(ascii), Some(wide)) = (TextRef::of_ascii(letters), TextRef::of_wide(pairs)) else {
        return false;
    };
    if wide.len() > 600 {
        return false;
    }
    let length = count as u64;
    scalar_length(&ScalarRef::Text(ascii)) == head + length
        && scalar_length(&ScalarRef::Text(wide)) == head + 2 * length
        && scalar_length(&ScalarRef::Bytes(letters)) == head + length
        && list_length(length, 4) == head + 4 * length
        && table_length(length, 1) == head + 2 * length
}

#[test]
fn widths_and_lengths(rt: HostRuntime) -> Result<(), Fail> {
    for (width, [least, greatest]) in WIDTHS {
        assert_eq!(rt; (width_of(least), width_of(greatest)), (width, width));
    }
    for (count, head) in HEADS {
        assert!(rt; has_head(count, head), "{count}");
    }
    for (number, length) in WHOLES {
        let whole = Whole::new(number).ok_or("in the range")?;
        assert!(rt;
            scalar_length(&ScalarRef::Whole(whole)) == length,
            "{number}"
        );
    }
    for (scalar, length) in [
        (ScalarRef::Flag(true), 1),
        (ScalarRef::Real4([0; 4]), 5),
        (ScalarRef::Real8([0; 8]), 9),
        (ScalarRef::Moment([0; 8]), 9),
    ] {
        assert!(rt; scalar_length(&scalar) == length, "{length}");
    }
    Ok(())
}

// Returns the first reference to a key and the first to a value.
fn first_pair(object: &Object) -> Option<(u64, u64)> {
    match object {
        Object::Table(keys, values) if keys.len() > 0 && values.len() > 0 => {
            Some((keys.get(0), values.get(0)))
        }
        _ => None,
    }
}

#[test]
fn objects_and_trailer_of_a_file(rt: HostRuntime) -> Result<(), Fail> {
    let file = BinFile::of(TABLE)?;
    assert_eq!(rt;
        (file.count(), file.top(), file.table(), file.slack()),
        (3, 0, 17, [0; 6])
    );
    assert_eq!(rt; (file.offset_width(), file.reference_width()), (1, 1));
    for (number, pair, span) in [
        (0, Some((1, 2)), (8, 13)),
        (1, None, (13, 15)),
        (2, None, (15, 17)),
    ] {
        if number >= file.count() {
            return Err(Fail::from("too few objects"));
        }
        assert_eq!(rt; first_pair(&file.object(number)?), pair);
        assert_eq!(rt; (file.place(number), file.span(number)?), (span.0, span));
    }
    Ok(())
}

// An array, and scalars, of which the last two are not in their shortest encoding.
const OBJECTS: [&[u8]; 11] = [
    b"\xaa\x01\x02\x03\x04\x05\x06\x07\x08\x09\x0a",
    b"\x52ab",
    b"\x41\xff",
    b"\x10\x07",
    b"\x5f\x10\x0fabcdefghijklmno",
    b"\x09",
    b"\x22\x40\x49\x0f\xdb",
    b"\x23\x40\x09\x21\xfb\x54\x44\x2d\x18",
    b"\x33\x41\xc6\0\0\0\0\0\0",
    b"\x5f\x10\x01a",
    b"\x11\0\x07",
];

fn spelled_of(octets: &[u8], object: u64) -> Option<&[u8]> {
    let file = BinFile::of(octets).ok()?;
    if object >= file.count() {
        return None;
    }
    match file.is_shortest(object) {
        Ok(_) => file.spelled(object),
        Err(_) => None,
    }
}

#[test]
fn scalars_as_they_stand(rt: HostRuntime) -> Result<(), Fail> {
    let file = file_of(rt.alloc(), &OBJECTS, 1)?;
    for (index, object) in OBJECTS.iter().enumerate() {
        let known = (!matches!(index, 0 | 9 | 10)).then_some(*object);
        assert_eq!(rt; spelled_of(file.as_slice(), index as u64), known, "{index}");
    }
    Ok(())
}

// Returns whether these bytes are in a list that was aa before the put. A failed put is an error if
// the list is still aa.
fn is_put(put: Result<(), AllocError>, out: &[u8], octets: &[u8]) -> Result<bool, AllocError> {
    match put {
        Ok(()) => Ok(out == octets),
        Err(_) if out != b"\xaa".as_slice() => Ok(false),
        Err(error) => Err(error),
    }
}

// Also with allocations refused from outside.
#[test]
fn a_refused_put_leaves_the_list(rt: HostRuntime) -> Result<(), Fail> {
    let wide = TextRef::of_wide(b"\x00a").ok_or("an even length")?;
    let mut out = Vec::from_slice(rt.alloc(), b"\xaa")?;
    let put = put_scalar(&mut out, &ScalarRef::Text(wide));
    assert!(rt; is_put(put, out.as_slice(), b"\xaa\x51\x61")?);
    let mut out = Vec::from_slice(rt.alloc(), b"\xaa")?;
    let put = put_list(&mut out, 2, &[1]);
    assert!(rt; is_put(put, out.as_slice(), b"\xaa\xa1\x00\x01")?);
    // A reference that does not fit into 32 bits.
    let mut out = Vec::from_slice(rt.alloc(), b"\xaa")?;
    let put = put_list(&mut out, 8, &[1 << 32]);
    assert!(rt; is_put(put, out.as_slice(), b"\xaa\xa1\0\0\0\x01\0\0\0\0")?);
    let mut out = Vec::from_slice(rt.alloc(), b"\xaa")?;
    let put = put_table(&mut out, 1, &[1, 2], &[2, 1]);
    assert!(rt; is_put(put, out.as_slice(), b"\xaa\xd2\x01\x02\x02\x01")?);
    Ok(())
}
