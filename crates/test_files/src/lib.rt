//! Small binary files, made byte by byte and not by the code under test, devices that fail, and
//! files in memory.
#![tactic(auto)]

pub mod devices;
pub mod memory_files;
pub mod worked_files;

use std::alloc::{AllocError, Global};
use std::ops::Range;

/// A binary file that is built object by object. The first is its top object.
#[derive(Drop)]
pub struct Draft {
    octets: Vec<u8>,
    offsets: Vec<u64>,
}

impl Draft {
    /// Creates a file with only its header.
    pub fn new(alloc: Global) -> Result<Draft, AllocError> {
        Ok(Draft {
            octets: Vec::from_slice(alloc, b"bplist00")?,
            offsets: Vec::new(alloc),
        })
    }

    /// Appends an object.
    pub fn put(&mut self, object: &[u8]) -> Result<(), AllocError> {
        self.offsets.push(self.octets.len() as u64)?;
        self.octets.extend_from_slice(object)
    }

    /// Appends an array for each of these object numbers, which contains that object, with a
    /// reference of `width` bytes.
    pub fn put_chain(&mut self, numbers: Range<u32>, width: u8) -> Result<(), AllocError> {
        for number in numbers {
            self.offsets.push(self.octets.len() as u64)?;
            self.octets.push(0xa1)?;
            let skipped = 4 - usize::from(width.min(4));
            self.octets
                .extend_from_slice(&number.to_be_bytes()[skipped..])?;
        }
        Ok(())
    }

    /// Returns the file, with offsets and references of the given widths in bytes.
    pub fn finish(self, offset_width: u8, reference_width: u8) -> Result<Vec<u8>, AllocError> {
        let Draft {
            mut octets,
            offsets,
        } = self;
        let table = octets.len() as u64;
        for offset in offsets.as_slice() {
            let skipped = 8 - usize::from(offset_width.min(8));
            octets.extend_from_slice(&offset.to_be_bytes()[skipped..])?;
        }
        let widths = [offset_width, reference_width];
        put_trailer(&mut octets, widths, offsets.len() as u64, table)?;
        Ok(octets)
    }
}

/// Returns the binary file with only this object.
pub fn one(alloc: Global, object: &[u8]) -> Result<Vec<u8>, AllocError> {
    file(alloc, object, &[8], 1)
}

/// Returns the binary file of these bytes of objects and these entries of the offset table, one
/// byte each, with references of `width` bytes.
pub fn file(
    alloc: Global,
    objects: &[u8],
    entries: &[u8],
    width: u8,
) -> Result<Vec<u8>, AllocError> {
    let mut file = Vec::from_slice(alloc, b"bplist00")?;
    file.extend_from_slice(objects)?;
    end(&mut file, entries, [1, width], entries.len() as u64)?;
    Ok(file)
}

/// Returns the binary file of these objects, one after the other, with offsets of one byte and
/// references of `reference_width` bytes.
pub fn file_of(
    alloc: Global,
    objects: &[&[u8]],
    reference_width: u8,
) -> Result<Vec<u8>, AllocError> {
    let mut draft = Draft::new(alloc)?;
    for object in objects {
        draft.put(object)?;
    }
    draft.finish(1, reference_width)
}

/// Ends a file with this offset table, these widths of an offset and of a reference, and this
/// number of objects.
pub fn end(
    file: &mut Vec<u8>,
    table: &[u8],
    widths: [u8; 2],
    count: u64,
) -> Result<(), AllocError> {
    let offset = file.len() as u64;
    file.extend_from_slice(table)?;
    put_trailer(file, widths, count, offset)
}

/// Appends a trailer with these widths of an offset and of a reference, this number of objects and
/// this offset of the offset table.
pub fn put_trailer(
    file: &mut Vec<u8>,
    widths: [u8; 2],
    count: u64,
    table: u64,
) -> Result<(), AllocError> {
    file.extend_from_slice(&[0; 6])?;
    file.extend_from_slice(&widths)?;
    file.extend_from_slice(&count.to_be_bytes())?;
    file.extend_from_slice(&0u64.to_be_bytes())?;
    file.extend_from_slice(&table.to_be_bytes())
}

/// Returns `count` objects: arrays that each contain the next object, and `last`. An offset and a
/// reference have these widths.
pub fn chain(
    alloc: Global,
    count: u32,
    last: &[u8],
    widths: [u8; 2],
) -> Result<Vec<u8>, AllocError> {
    let [offset_width, reference_width] = widths;
    let mut draft = Draft::new(alloc)?;
    draft.put_chain(1..count, reference_width)?;
    draft.put(last)?;
    draft.finish(offset_width, reference_width)
}

/// Returns an array of `count` references (at least 256) to one other object, with offsets of
/// `offset_width` bytes.
pub fn fan(
    alloc: Global,
    count: u32,
    object: &[u8],
    offset_width: u8,
) -> Result<Vec<u8>, AllocError> {
    let mut list = Vec::from_slice(alloc, &[0xaf])?;
    match u16::try_from(count) {
        Ok(count) => {
            list.push(0x11)?;
            list.extend_from_slice(&count.to_be_bytes())?;
        }
        Err(_) => {
            list.push(0x12)?;
            list.extend_from_slice(&count.to_be_bytes())?;
        }
    }
    let size = list.len().saturating_add(count as usize);
    list.resize(size, 1)?;
    let mut draft = Draft::new(alloc)?;
    draft.put(list.as_slice())?;
    draft.put(object)?;
    draft.finish(offset_width, 1)
}

/// Returns thirty arrays that each contain the next object twice, and an empty one: 2^31 - 1 nodes
/// in 31 objects.
pub fn tower(alloc: Global) -> Result<Vec<u8>, AllocError> {
    let mut draft = Draft::new(alloc)?;
    for i in 1..31u8 {
        draft.put(&[0xa2, i, i])?;
    }
    draft.put(b"\xa0")?;
    draft.finish(1, 1)
}
