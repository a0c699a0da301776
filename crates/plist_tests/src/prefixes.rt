//! Each prefix of files and texts: its refusals are ones that each call can give.
use crate::depth::{LISTS, nested};
use crate::files::files;
use ostep_lex::tokens;
use plist_canon::check;
use plist_forms::read_any;
use std::alloc::Global;
use std::test::Fail;
use test_files::tower;

// Texts of at most 80 bytes.
const SMALL_TEXTS: [&[u8]; 41] = [
    b"{}",
    b"{b=a;a=b;}",
    b"(a, <61>,)",
    b"{\"\\Uff61\"=a;\"\\Ud800\\Udc00\"=b;}",
    b"\"\\177\\1234\\U41\"",
    b"\"\\200\"",
    b"(/usr/bin, a//b, /* c */ d)",
    b"a/*c*/",
    b"{a;a=b;}",
    b"{a=b}",
    b"<0f b>",
    b"<>",
    b"{a;}",
    b" ",
    b"\"bplist\"\n",
    b"\"\\Ud800\"\n",
    b"{\na = b;\nb = a;\n}\n",
    b"(\n)\n",
    b"\"a.b\"\n",
    b"// !$*UTF8*$!\n{\narchiveVersion = 1;\nclasses = { };\n}\n",
    b"\"\xf0\x9f\x98\x80\"",
    b"\"\\Ud83d\\Ude00\"",
    b"{a = <0F>;}",
    b"'it\\'s' // c",
    b"\"\\a\\b\\f\\n\\r\\t\\v\\\"\\'\\\n\\0\\07\"",
    b"<?xml version=\"1.0\"?>",
    b"\xef\xbb\xbf <!DOCTYPE plist>",
    b"<plist>",
    b"@",
    b"(a b)",
    b"(,)",
    b"a b",
    b"\"a\" = \"b\"; \"c\";",
    b"a = b; }",
    b"a; a = b;",
    b"\xef\xbb\xbf'\xf0\x9f\x98\x80'",
    b"\xfe\xff\x00\x61\x00\x3b",
    b"\xff\xfe\x22\x00\x3d\xd8\x00\xde\x22\x00",
    b"\xfe\xff\x00\x22\x00\x5c\x00\x55\x00\x34\x00\x31\x00\x22",
    b"\xfe\xff\xdc\x00\x00\x61",
    b"a\xed\xa0\x80",
];

// Returns whether each refusal is one that its call can give. The check refuses any input below 42
// bytes as too short. The reader refuses the layout of a binary file like the check, and the tokens
// of a text like the lexer.
fn is_answered(alloc: Global, octets: &[u8]) -> bool {
    let checked = code_of!(check(alloc, octets));
    let read = code_of!(read_any(alloc, octets));
    let lexed = code_of!(tokens(alloc, octets));
    let is_named = checked <= 3 && matches!(lexed, 0 | 20 | 21 | 23..=29 | 32);
    let is_short = (checked == 1) == (octets.len() < 42);
    let is_read = if octets.starts_with(b"bplist") {
        read == checked || checked == 0 && matches!(read, 4..=18)
    } else {
        read == lexed || lexed == 0 && matches!(read, 14 | 16..=18 | 30 | 31)
    };
    is_named && is_short && is_read
}

// Returns the length of the first prefix, the whole included, with another result.
fn first_other(alloc: Global, octets: &[u8]) -> Option<usize> {
    for length in 0..=octets.len() {
        if !is_answered(alloc, &octets[..length]) {
            return Some(length);
        }
    }
    None
}

#[test]
fn prefixes_of_files(rt: HostRuntime) -> Result<(), Fail> {
    let mut files = files(rt.alloc())?;
    // A file that is refused for the number of its nodes.
    files.push(tower(rt.alloc())?)?;
    for octets in files {
        assert_eq!(rt; first_other(rt.alloc(), octets.as_slice()), None);
    }
    Ok(())
}

#[test]
fn prefixes_of_texts(rt: HostRuntime) -> Result<(), Fail> {
    for octets in SMALL_TEXTS {
        assert_eq!(rt; first_other(rt.alloc(), octets), None, "{octets:?}");
    }
    for count in [511, 512] {
        let octets = nested(rt.alloc(), &LISTS, count)?;
        assert_eq!(rt; first_other(rt.alloc(), octets.as_slice()), None);
    }
    Ok(())
}
