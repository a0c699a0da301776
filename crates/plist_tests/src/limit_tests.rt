//! Generated files: the limits on depth, nodes and payload, as the validator, the reader and the
//! check apply them, and the widths of references and offsets.
use crate::canonical_files::canonical_file;
use crate::files::{numbers, padded, zeros};
use plist_binary::{BinaryFault, judge, read};
use plist_canon::{Verdict, canonical, check};
use plist_forms::{Fault, canonicalise};
use plist_value::fits;
use std::alloc::{AllocError, Global};
use std::test::Fail;
use test_files::{Draft, chain, fan, tower};

// Returns thirty dictionaries whose two keys both have the next one as their value, a boolean, and
// the keys a and b.
fn tower_of_tables(alloc: Global) -> Result<Vec<u8>, AllocError> {
    let mut draft = Draft::new(alloc)?;
    for i in 1..31u8 {
        draft.put(&[0xd2, 31, 32, i, i])?;
    }
    for object in [b"\x09".as_slice(), b"Qa", b"Qb"] {
        draft.put(object)?;
    }
    draft.finish(1, 1)
}

// Returns an array of a chain of 300 levels, and of another one of 300 arrays that ends in the
// first.
fn shared_chain(alloc: Global) -> Result<Vec<u8>, AllocError> {
    let mut draft = Draft::new(alloc)?;
    draft.put(b"\xa2\x00\x01\x01\x2d")?;
    draft.put_chain(2..301, 2)?;
    draft.put(b"\x09")?;
    draft.put_chain(302..601, 2)?;
    draft.put(b"\xa1\x00\x01")?;
    draft.finish(2, 2)
}

// Returns an array of `count` references to one scalar with this marker and count and this number
// of letters, with offsets of `width` bytes.
fn heavy_fan(
    alloc: Global,
    count: u32,
    head: &[u8],
    letters: usize,
    width: u8,
) -> Result<Vec<u8>, AllocError> {
    let object = padded(alloc, head, letters, b'a')?;
    fan(alloc, count, object.as_slice(), width)
}

// Returns a dictionary of 1,025 keys: 1,024 times a string of 524,288 units, and object `last`.
fn heavy_keys(alloc: Global, last: u8) -> Result<Vec<u8>, AllocError> {
    let mut table = padded(alloc, &[0xdf, 0x11, 0x04, 0x01], 1024, 1)?;
    table.push(last)?;
    table.resize(4 + 2 * 1025, 2)?;
    let text = padded(alloc, &[0x6f, 0x12, 0x00, 0x08, 0x00, 0x00], 1_048_576, 0)?;
    let mut draft = Draft::new(alloc)?;
    draft.put(table.as_slice())?;
    draft.put(text.as_slice())?;
    draft.put(b"\x09")?;
    draft.finish(4, 1)
}

// A generated file, by the function of its name or as said here.
#[derive(Clone, Copy)]
enum Shape {
    Chain(u32, u8),
    // A chain with references of three bytes, and a boolean at the end.
    LongChain(u32),
    SharedChain,
    Tower,
    TowerOfTables,
    // This number of times a boolean, data of 1,048,576 bytes, with offsets of this width, or a
    // string of 524,288 units.
    Flags(u32),
    Data(u32, u8),
    Texts(u32),
    Numbers(u8, u8),
    Zeros(&'static [u8], u8, u8),
    HeavyKeys(u8),
}

impl Shape {
    fn file(self, alloc: Global) -> Result<Vec<u8>, AllocError> {
        match self {
            Shape::Chain(count, last) => chain(alloc, count, &[last], [2, 2]),
            Shape::LongChain(count) => chain(alloc, count, b"\x09", [4, 3]),
            Shape::SharedChain => shared_chain(alloc),
            Shape::Tower => tower(alloc),
            Shape::TowerOfTables => tower_of_tables(alloc),
            Shape::Flags(count) => fan(alloc, count, b"\x09", 4),
            Shape::Data(count, width) => {
                heavy_fan(alloc, count, b"\x4f\x12\0\x10\0\0", 1_048_576, width)
            }
            Shape::Texts(count) => heavy_fan(alloc, count, b"\x5f\x12\0\x08\0\0", 524_288, 4),
            Shape::Numbers(count, width) => numbers(alloc, count, width),
            Shape::Zeros(head, count, width) => zeros(alloc, head, count, width),
            Shape::HeavyKeys(last) => heavy_keys(alloc, last),
        }
    }
}

const DEEP: BinaryFault = BinaryFault::TooDeep { object: 512 };

const SHARED: BinaryFault = BinaryFault::TooDeep { object: 212 };

const TOWER: BinaryFault = BinaryFault::TooManyNodes { object: 29 };

const TABLES: BinaryFault = BinaryFault::TooManyNodes { object: 32 };

const WIDE: BinaryFault = BinaryFault::TooManyNodes { object: 1 };

const HEAVY: BinaryFault = BinaryFault::TooMuchPayload { object: 1 };

const NO_TEXT: BinaryFault = BinaryFault::KeyNotText { object: 0 };

const ZEROS_244: Shape = Shape::Zeros(b"\x4f\x10\xf4", 244, 1);

const ZEROS_245: Shape = Shape::Zeros(b"\x4f\x10\xf5", 245, 2);

// Canonical files, with their sizes, and whether their values are read, for which the others need
// much memory.
const ACCEPTED: [(Shape, usize, bool); 12] = [
    (Shape::Chain(512, 0x09), 2598, true),
    (Shape::Flags(4_194_303), 4_194_358, true),
    (Shape::Flags(4_194_304), 4_194_359, true),
    (Shape::Flags(16_777_215), 16_777_270, false),
    (Shape::Data(256, 4), 1_048_890, true),
    (Shape::Data(257, 4), 1_048_891, true),
    (Shape::Data(1024, 4), 1_049_658, false),
    (Shape::Texts(1024), 525_370, false),
    // A reference and an offset that outgrow one byte.
    (Shape::Numbers(254, 1), 1823, true),
    (Shape::Numbers(255, 2), 2085, true),
    (ZEROS_244, 288, true),
    (ZEROS_245, 290, true),
];

// Refused files, with their sizes, the fault, and the rule that the check finds broken, with the
// object. It finds rule 0 broken at object 0 for a value beyond the limits, and reaches the
// container of a tower a second time before it counts a node.
const REFUSED: [(Shape, usize, BinaryFault, (u8, u64)); 12] = [
    (Shape::Chain(513, 0x09), 2603, DEEP, (0, 0)),
    (Shape::Chain(20_000, 0xa0), 100_038, DEEP, (0, 0)),
    (Shape::LongChain(513), 4141, DEEP, (2, 0)),
    (Shape::LongChain(1_000_000), 8_000_037, DEEP, (2, 0)),
    (Shape::SharedChain, 3045, SHARED, (7, 600)),
    (Shape::Tower, 162, TOWER, (7, 29)),
    (Shape::TowerOfTables, 228, TABLES, (7, 0)),
    (Shape::Flags(16_777_216), 16_777_271, WIDE, (0, 0)),
    (Shape::Data(1025, 4), 1_049_659, HEAVY, (0, 0)),
    (Shape::Texts(1025), 525_371, HEAVY, (0, 0)),
    // A key that is not a string, or one more string, after the maximum payload of a value.
    (Shape::HeavyKeys(2), 1_050_689, NO_TEXT, (0, 0)),
    (Shape::HeavyKeys(1), 1_050_689, HEAVY, (5, 0)),
];

// Returns whether the bytes are the canonical file of their own value.
fn is_own(alloc: Global, octets: &[u8]) -> Result<bool, Fail> {
    let value = read(alloc, octets)?;
    if !fits(&value) {
        return Err(Fail::from("it does not fit"));
    }
    let made = canonical(alloc, &value)?;
    let own = canonical_file(alloc, octets)?;
    Ok(made.as_slice() == octets && own.as_slice() == octets)
}

// Returns the faults with which the validator, the reader and `canonicalise` refuse the file.
pub(crate) fn faults_of(alloc: Global, octets: &[u8]) -> [Option<Fault>; 3] {
    [
        judge(alloc, octets).err().map(Fault::Binary),
        read(alloc, octets).err().map(Fault::Binary),
        canonicalise(alloc, octets).err(),
    ]
}

#[test]
fn files_at_the_limits(rt: HostRuntime) -> Result<(), Fail> {
    for (index, (shape, size, is_read)) in ACCEPTED.iter().enumerate() {
        let octets = shape.file(rt.alloc())?;
        let octets = octets.as_slice();
        assert_eq!(rt; octets.len(), *size, "row {index}");
        assert_eq!(rt;
            check(rt.alloc(), octets),
            Ok(Verdict::Canonical),
            "row {index}"
        );
        judge(rt.alloc(), octets)?;
        assert!(rt;
            canonicalise(rt.alloc(), octets)?.as_slice() == octets,
            "row {index}"
        );
        assert!(rt; !*is_read || is_own(rt.alloc(), octets)?, "row {index}");
    }
    Ok(())
}

#[test]
fn files_beyond_the_limits(rt: HostRuntime) -> Result<(), Fail> {
    for (index, (shape, size, fault, (rule, object))) in REFUSED.iter().enumerate() {
        let octets = shape.file(rt.alloc())?;
        let octets = octets.as_slice();
        assert_eq!(rt; octets.len(), *size, "row {index}");
        let (rule, object) = (*rule, *object);
        let verdict = Verdict::Broken { rule, object };
        assert_eq!(rt; check(rt.alloc(), octets), Ok(verdict), "row {index}");
        let refused = [Some(Fault::Binary(*fault)); 3];
        assert_eq!(rt; faults_of(rt.alloc(), octets), refused, "row {index}");
    }
    Ok(())
}

// Files whose widths are not the least, and their canonical files.
const SOURCES: [(Shape, Shape); 8] = [
    (Shape::Numbers(254, 2), Shape::Numbers(254, 1)),
    (Shape::Numbers(254, 3), Shape::Numbers(254, 1)),
    (Shape::Numbers(255, 1), Shape::Numbers(255, 2)),
    (Shape::Numbers(255, 3), Shape::Numbers(255, 2)),
    (Shape::Zeros(b"\x4f\x11\0\xf4", 244, 3), ZEROS_244),
    (Shape::Zeros(b"\x4f\x11\0\xf5", 245, 2), ZEROS_245),
    (Shape::Data(256, 3), Shape::Data(256, 4)),
    (Shape::Data(257, 3), Shape::Data(257, 4)),
];

#[test]
fn widths_are_the_least(rt: HostRuntime) -> Result<(), Fail> {
    for (index, (source, own)) in SOURCES.iter().enumerate() {
        let canonical = canonicalise(rt.alloc(), source.file(rt.alloc())?.as_slice())?;
        assert!(rt; canonical == own.file(rt.alloc())?, "source {index}");
    }
    Ok(())
}
