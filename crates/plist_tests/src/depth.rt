//! Texts of values as deep as allowed, and deeper.
use ostep_text::{TextFault, read_text, write_text};
use plist_forms::{Fault, canonicalise};
use plist_value::same;
use std::alloc::{AllocError, Global};
use std::test::Fail;
use test_files::chain;

// A beginning, a part that is repeated, a middle, another part that is repeated as often, and an
// end.
pub(crate) type Parts = [&'static [u8]; 5];

// Nested arrays.
pub(crate) const LISTS: Parts = [b"", b"(", b"a", b")", b""];

// Returns the text of these parts, with the repeated ones `count` times.
pub(crate) fn nested(alloc: Global, parts: &Parts, count: usize) -> Result<Vec<u8>, AllocError> {
    let [front, opening, middle, ending, end] = *parts;
    let mut text = Vec::from_slice(alloc, front)?;
    for _ in 0..count {
        text.extend_from_slice(opening)?;
    }
    text.extend_from_slice(middle)?;
    for _ in 0..count {
        text.extend_from_slice(ending)?;
    }
    text.extend_from_slice(end)?;
    Ok(text)
}

const TABLES: Parts = [b"", b"{a=", b"b", b";}", b""];

// In a dictionary without braces.
const BARE: Parts = [b"a = ", b"(", b"a", b")", b";"];

// Dictionaries with arrays in them.
const MIXED: Parts = [b"", b"{a=(", b"{a;}", b");}", b""];

// The parts, how often they are nested, and the byte of the refusal. Each is refused where the
// value 513 levels deep begins, whatever comes after it.
const ROWS: [(Parts, usize, Option<usize>); 11] = [
    (LISTS, 511, None),
    (LISTS, 512, Some(512)),
    ([b"", b"(", b"", b"", b""], 1_000_000, Some(512)),
    (TABLES, 511, None),
    ([b"", b"{a=", b"", b"", b""], 512, Some(1534)),
    (TABLES, 512, Some(1534)),
    ([b"", b"{a=", b"b", b"", b""], 1_000_000, Some(1534)),
    (BARE, 510, None),
    (BARE, 511, Some(515)),
    (MIXED, 255, None),
    (MIXED, 256, Some(1024)),
];

#[test]
fn texts_are_read_to_512_levels(rt: HostRuntime) -> Result<(), Fail> {
    for (parts, times, octet) in ROWS {
        let text = nested(rt.alloc(), &parts, times)?;
        let want = octet.map(|octet| TextFault::TooDeep { octet });
        let fault = read_text(rt.alloc(), text.as_slice()).err();
        assert_eq!(rt; fault, want, "{parts:?} {times} times");
        let fault = canonicalise(rt.alloc(), text.as_slice()).err();
        assert_eq!(rt; fault, want.map(Fault::Text), "{parts:?} {times} times");
    }
    Ok(())
}

#[test]
fn lists_511_deep_are_written(rt: HostRuntime) -> Result<(), Fail> {
    let text = nested(rt.alloc(), &LISTS, 511)?;
    let canonical = canonicalise(rt.alloc(), text.as_slice())?;
    assert_eq!(rt; canonical.len(), 2599);
    assert!(rt; canonical == chain(rt.alloc(), 512, b"Qa", [2, 2])?);
    let value = read_text(rt.alloc(), text.as_slice())?;
    let written = write_text(rt.alloc(), &value)?;
    let lines = [b"".as_slice(), b"(\n", b"a", b",\n)", b"\n"];
    assert_eq!(rt; written, nested(rt.alloc(), &lines, 511)?);
    let again = read_text(rt.alloc(), written.as_slice())?;
    assert!(rt; same(&again, &value));
    Ok(())
}
