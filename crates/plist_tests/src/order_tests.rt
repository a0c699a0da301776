//! Which refusal is returned if several are true: of references to level 513, and of references
//! after 16,777,216 nodes.
use crate::limit_tests::faults_of;
use plist_binary::BinaryFault;
use plist_forms::Fault;
use std::alloc::{AllocError, Global};
use std::test::Fail;
use test_files::Draft;

// Appends an array of references, of each object this number of times, which are `count` in all.
fn put_fan(
    draft: &mut Draft,
    alloc: Global,
    count: u16,
    references: &[(u16, u16)],
) -> Result<(), AllocError> {
    let mut list = Vec::from_slice(alloc, b"\xaf\x11")?;
    list.extend_from_slice(&count.to_be_bytes())?;
    for (object, times) in references {
        for _ in 0..*times {
            list.extend_from_slice(&object.to_be_bytes())?;
        }
    }
    draft.put(list.as_slice())
}

// Returns the file of these objects, of which the first, number 511, is at level 512: arrays that
// each contain the next object precede it.
fn deep(alloc: Global, objects: &[&[u8]]) -> Result<Vec<u8>, AllocError> {
    let mut draft = Draft::new(alloc)?;
    draft.put_chain(1..512, 2)?;
    for object in objects {
        draft.put(object)?;
    }
    draft.finish(4, 2)
}

// Like `deep`, but object 511 is node 16,777,216 too: the top array contains 16,776,704 nodes
// before object 1. Object 600 is an array of 4,095 arrays, which all are object 601, an array of
// 4,095 booleans, which all are object 602.
fn full(alloc: Global, objects: &[&[u8]]) -> Result<Vec<u8>, AllocError> {
    let mut draft = Draft::new(alloc)?;
    put_fan(&mut draft, alloc, 3585, &[(600, 1), (602, 3583), (1, 1)])?;
    draft.put_chain(2..512, 2)?;
    for object in objects {
        draft.put(object)?;
    }
    for _ in 511 + objects.len()..600 {
        draft.put(b"\x08")?;
    }
    put_fan(&mut draft, alloc, 4095, &[(601, 4095)])?;
    put_fan(&mut draft, alloc, 4095, &[(602, 4095)])?;
    draft.put(b"\x09")?;
    draft.finish(4, 2)
}

const REFERENCE: BinaryFault = BinaryFault::BadReference { object: 511 };

const CYCLE: BinaryFault = BinaryFault::Cycle { object: 511 };

const DEEP: BinaryFault = BinaryFault::TooDeep { object: 512 };

const NODES: BinaryFault = BinaryFault::TooManyNodes { object: 512 };

// The objects from number 511 on, the refusal if all are at the depth limit (`deep`), and the
// refusal if they also come after the last node allowed (`full`): references to no object, to the
// top array, to a boolean and to a null, and dictionaries with a boolean as key and with one key
// twice.
const ROWS: [(&[&[u8]], BinaryFault, BinaryFault); 6] = [
    (&[b"\xa1\xff\xff"], REFERENCE, REFERENCE),
    (&[b"\xa1\0\0"], CYCLE, CYCLE),
    (&[b"\xa1\x02\x00", b"\x09"], DEEP, NODES),
    (&[b"\xa1\x02\x00", b"\x00"], DEEP, NODES),
    (&[b"\xd1\x02\x00\x02\x00", b"\x09"], DEEP, NODES),
    (
        &[b"\xd2\x02\x00\x02\x01\x02\x00\x02\x00", b"Qa", b"Qa"],
        DEEP,
        NODES,
    ),
];

#[test]
fn the_first_of_several_refusals_is_returned(rt: HostRuntime) -> Result<(), Fail> {
    for (objects, of_deep, of_full) in ROWS {
        let file = deep(rt.alloc(), objects)?;
        let refused = [Some(Fault::Binary(of_deep)); 3];
        assert_eq!(rt; faults_of(rt.alloc(), file.as_slice()), refused);
        let file = full(rt.alloc(), objects)?;
        let refused = [Some(Fault::Binary(of_full)); 3];
        assert_eq!(rt; faults_of(rt.alloc(), file.as_slice()), refused);
    }
    Ok(())
}
