//! Drafts: their files byte by byte, the values read back, and that a failed put leaves a draft
//! unchanged.
use ostep_text::read_text;
use plist_binary::read;
use plist_draft::{Draft, put_value};
use plist_value::{ScalarRef, TextRef, same};
use std::alloc::{AllocError, Global};
use std::test::Fail;
use test_files::file;

// The file of one string.
const ONE_TEXT: &[u8] = b"bplist00Qa\0\0\0\x08\0\0\0\0\0\0\x04\x04\0\0\0\0\0\0\0\x01\
                          \0\0\0\0\0\0\0\0\0\0\0\0\0\0\0\x0a";

// The file of the dictionary {a = b; b = a}.
const TABLE: &[u8] = b"bplist00QaQb\xd2\0\0\0\x01\0\0\0\0\0\0\0\0\0\0\0\x01\
                       \0\0\0\x08\0\0\0\x0a\0\0\0\x0c\0\0\0\0\0\0\x04\x04\0\0\0\0\0\0\0\x03\
                       \0\0\0\0\0\0\0\x02\0\0\0\0\0\0\0\x1d";

fn put_text(draft: &mut Draft, units: &[u16]) -> Result<u32, AllocError> {
    draft.put_scalar(&ScalarRef::Text(TextRef::of_units(units)))
}

fn share_text(draft: &mut Draft, units: &[u16]) -> Result<u32, AllocError> {
    draft.share_scalar(&ScalarRef::Text(TextRef::of_units(units)))
}

// Returns whether the file encodes the value of the text.
fn is_file_of(alloc: Global, octets: &[u8], text: &[u8]) -> Result<bool, Fail> {
    let value = read(alloc, octets)?;
    Ok(same(&value, &read_text(alloc, text)?))
}

#[test]
fn drafts_are_finished(rt: HostRuntime) -> Result<(), Fail> {
    let mut draft = Draft::new(rt.alloc())?;
    let top = put_text(&mut draft, &[0x61])?;
    let one = draft.finish(top)?;
    assert!(rt; one.as_slice() == ONE_TEXT);
    assert!(rt; is_file_of(rt.alloc(), one.as_slice(), b"a")?);
    // The keys are out of order.
    let mut draft = Draft::new(rt.alloc())?;
    let a = put_text(&mut draft, &[0x61])?;
    let b = put_text(&mut draft, &[0x62])?;
    let top = draft.put_table(&[b, a], &[a, b])?;
    let table = draft.finish(top)?;
    assert!(rt; table.as_slice() == TABLE);
    assert!(rt; is_file_of(rt.alloc(), table.as_slice(), b"{a=b;b=a;}")?);
    Ok(())
}

#[test]
fn equal_scalars_are_one_object(rt: HostRuntime) -> Result<(), Fail> {
    let mut draft = Draft::new(rt.alloc())?;
    let a = share_text(&mut draft, &[0x61])?;
    let b = share_text(&mut draft, &[0x62])?;
    assert_eq!(rt; [a, b], [0, 1]);
    assert_eq!(rt; share_text(&mut draft, &[0x61])?, a);
    assert_eq!(rt; draft.share_scalar(&ScalarRef::Bytes(b"a"))?, 2);
    assert_eq!(rt; put_text(&mut draft, &[0x61])?, 3);
    let top = draft.put_table(&[b, a], &[a, b])?;
    let table = draft.finish(top)?;
    assert!(rt; is_file_of(rt.alloc(), table.as_slice(), b"{a=b;b=a;}")?);
    Ok(())
}

// Also after many other strings: the table of scalars grows, and its slots are replaced.
#[test]
fn equal_scalars_are_found_behind_others(rt: HostRuntime) -> Result<(), Fail> {
    let mut draft = Draft::new(rt.alloc())?;
    for i in 0..5_000u16 {
        share_text(&mut draft, &[i, 0x61])?;
    }
    let a = share_text(&mut draft, &[0x61])?;
    assert_eq!(rt; share_text(&mut draft, &[0x61])?, a);
    let b = share_text(&mut draft, &[0x62])?;
    assert_eq!(rt; share_text(&mut draft, &[0x62])?, b);
    Ok(())
}

// What is put after the string `a`.
#[derive(Clone, Copy, Debug)]
enum Put {
    Text,
    SharedText,
    List,
    Table,
}

// Puts the string `a`, and then another object. Returns whether the draft's file with that object
// on top encodes the value of this text. If the second put ran out of memory, the file with the
// string on top must still encode `a`.
fn is_file_or_left(alloc: Global, put: Put, text: &[u8]) -> Result<bool, Fail> {
    let mut draft = Draft::new(alloc)?;
    let a = put_text(&mut draft, &[0x61])?;
    let put = match put {
        Put::Text => put_text(&mut draft, &[0x62]),
        Put::SharedText => share_text(&mut draft, &[0x62]),
        Put::List => draft.put_list(&[a, a]),
        Put::Table => draft.put_table(&[a], &[a]),
    };
    let (top, text) = match put {
        Ok(top) => (top, text),
        Err(_) => (a, b"a".as_slice()),
    };
    let octets = draft.finish(top)?;
    is_file_of(alloc, octets.as_slice(), text)
}

// Also with allocations refused from outside.
#[test]
fn a_refused_put_leaves_the_draft(rt: HostRuntime) -> Result<(), Fail> {
    let rows: [(Put, &[u8]); 4] = [
        (Put::Text, b"b"),
        (Put::SharedText, b"b"),
        (Put::List, b"(a, a)"),
        (Put::Table, b"{a=a;}"),
    ];
    for (put, text) in rows {
        assert!(rt; is_file_or_left(rt.alloc(), put, text)?, "{put:?}");
    }
    Ok(())
}

// Also an array of an integer, a boolean, a real of four bytes, a date and data.
#[test]
fn values_are_put(rt: HostRuntime) -> Result<(), Fail> {
    let text = b"(a, <0f 61>, {k; \"\\Ud800\" = (b, {}); }, ())";
    let objects = b"\xa5\x01\x02\x03\x04\x05\x10\x05\x09\x22\0\0\0\x01\x33\0\0\0\0\0\0\0\x02\x41a";
    let octets = file(rt.alloc(), objects, &[8, 14, 16, 17, 22, 31], 1)?;
    let of_text = read_text(rt.alloc(), text)?;
    let of_file = read(rt.alloc(), octets.as_slice())?;
    for value in [&of_text, &of_file] {
        let mut draft = Draft::new(rt.alloc())?;
        let top = put_value(rt.alloc(), &mut draft, value)?;
        let octets = draft.finish(top)?;
        assert!(rt; same(&read(rt.alloc(), octets.as_slice())?, value));
    }
    Ok(())
}
