//! Binary files, accepted and refused, canonical and not.
use std::alloc::{AllocError, Global};
use test_files::{Draft, chain, file, file_of, one};

// Files with a single object.
const ALONE: [&[u8]; 35] = [
    b"\xd0",
    b"\x10\xff",
    b"\x11\x01\x00",
    b"\x12\xff\xff\xff\xff",
    b"\x13\x00\x00\x00\x01\x00\x00\x00\x00",
    b"\x13\xff\xff\xff\xff\xff\xff\xff\xff",
    b"\x13\x80\0\0\0\0\0\0\0",
    b"\x14\0\0\0\0\0\0\0\0\x80\0\0\0\0\0\0\0",
    b"\x13\0\0\0\0\0\0\0\x05",
    b"\x10\x05",
    b"\x61\x00a",
    b"\x5f\x10\x01a",
    b"Qa",
    b"\xa0",
    b"\xa1\x00",
    b"\x00",
    b"\x80\x05",
    b"\xc0",
    b"T\x7fS4A",
    b"\x40",
    b"Vbplist",
    b"Sa.b",
    b"\x22\x3f\x80\0\0",
    b"\x23\x3f\xf0\0\0\0\0\0\0",
    b"\x14\0\0\0\0\0\0\0\x01\0\0\0\0\0\0\0\0",
    b"Q\x80",
    b"Ra",
    b"\x5f\x13\xff\xff\xff\xff\xff\xff\xff\xffa",
    b"\xa1\x01",
    b"\x70",
    b"\x15",
    b"\x5f\x09a",
    b"\x09",
    b"\x61\xd8\x00",
    b"\x62\xd8\x3d\xde\x00",
];

// Files with several objects in sequence.
const TOGETHER: [&[&[u8]]; 16] = [
    &[b"\xd2\x01\x02\x02\x01", b"Qa", b"Qb"],
    &[b"\xd2\x01\x02\x02\x01", b"Qb", b"Qa"],
    &[b"\xd2\x02\x01\x01\x02", b"Qb", b"Qa"],
    &[b"\xa2\x01\x02", b"Qa", b"\x41a"],
    &[b"\xa2\x01\x01", b"\xa0"],
    &[b"\xa2\x01\x02", b"\xa0", b"\xa0"],
    &[
        b"\xd2\x01\x02\x03\x04",
        b"\x62\xd8\x00\xdc\x00",
        b"\x61\xff\x61",
        b"Qb",
        b"Qa",
    ],
    &[b"\xa3\x01\x02\x03", b"X/usr/bin", b"Ta//b", b"Qd"],
    &[b"\xd1\x01\x01", b"Qa"],
    &[b"\xa1\x01", b"\x09"],
    &[b"\xa2\x01\x02", b"#A\0\0\0\0\0\0\0", b"3A\0\0\0\0\0\0\0"],
    &[b"\xd1\x01\x01", b"\x09"],
    &[b"\xd2\x01\x02\x03\x03", b"Qa", b"Qa", b"\x09"],
    &[b"\xa2\x01\x02", b"RQa", b"Qa"],
    &[
        b"\xd2\x01\x02\x03\x04",
        b"^archiveVersion",
        b"Wclasses",
        b"Q1",
        b"\xd0",
    ],
    &[b"\xa1\x01", b"\xa0"],
];

// Returns the canonical file of a dictionary, with one byte of its trailer changed.
pub(crate) fn marked(alloc: Global) -> Result<Vec<u8>, AllocError> {
    let mut file = file_of(alloc, &[b"\xd2\x01\x02\x02\x01", b"Qa", b"Qb"], 1)?;
    if let Some(slack) = file.get_mut(20) {
        *slack = 1;
    }
    Ok(file)
}

// Returns the file of an array of the strings 000, 001 and so on, `count` of them, with references
// of `width` bytes.
pub(crate) fn numbers(alloc: Global, count: u8, width: u8) -> Result<Vec<u8>, AllocError> {
    let mut list = Vec::from_slice(alloc, &[0xaf, 0x10, count])?;
    for number in 1..=u64::from(count) {
        let skipped = 8 - usize::from(width.min(8));
        list.extend_from_slice(&number.to_be_bytes()[skipped..])?;
    }
    let mut draft = Draft::new(alloc)?;
    draft.put(list.as_slice())?;
    for number in 0..count {
        let digits = [number / 100, number / 10 % 10, number % 10];
        draft.put(&[0x53, b'0' + digits[0], b'0' + digits[1], b'0' + digits[2]])?;
    }
    draft.finish(2, width)
}

// Returns these bytes, and then this one `count` times.
pub(crate) fn padded(
    alloc: Global,
    head: &[u8],
    count: usize,
    octet: u8,
) -> Result<Vec<u8>, AllocError> {
    let mut octets = Vec::from_slice(alloc, head)?;
    let size = head.len().saturating_add(count);
    octets.resize(size, octet)?;
    Ok(octets)
}

// Returns the file of data of `count` zeros, with this marker and count, and offsets of `width`
// bytes.
pub(crate) fn zeros(
    alloc: Global,
    head: &[u8],
    count: u8,
    width: u8,
) -> Result<Vec<u8>, AllocError> {
    let mut draft = Draft::new(alloc)?;
    draft.put(padded(alloc, head, usize::from(count), 0)?.as_slice())?;
    draft.finish(width, 1)
}

// Returns files of at most 80 bytes, and canonical files of 288 to 2,598 bytes: of 255 and 256
// objects, with offset tables below and at offset 256, and of arrays 512 deep.
pub(crate) fn files(alloc: Global) -> Result<Vec<Vec<u8>>, AllocError> {
    let mut files = Vec::new(alloc);
    for object in ALONE {
        files.push(one(alloc, object)?)?;
    }
    for objects in TOGETHER {
        files.push(file_of(alloc, objects, 1)?)?;
    }
    files.push(file_of(alloc, &[b"\xa1\x00\x00\x01", b"\x09"], 3)?)?;
    // Two strings of which one lies inside the other, an object in the header, and a trailer that
    // does not begin with zeros.
    files.push(file(alloc, b"\xa2\x01\x02RQa", &[8, 11, 12], 1)?)?;
    files.push(file(alloc, b"\x09", &[7], 1)?)?;
    files.push(marked(alloc)?)?;
    files.push(numbers(alloc, 254, 1)?)?;
    files.push(numbers(alloc, 255, 2)?)?;
    files.push(zeros(alloc, b"\x4f\x10\xf4", 244, 1)?)?;
    files.push(zeros(alloc, b"\x4f\x10\xf5", 245, 2)?)?;
    files.push(chain(alloc, 512, b"Qa", [2, 2])?)?;
    Ok(files)
}
