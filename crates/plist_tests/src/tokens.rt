//! Tokens one at a time, and with memory refused.
use ostep_lex::{LexFault, TokenKind, next_mark, next_plain, next_token, open, tokens};
use std::alloc::Global;
use std::test::Fail;

const TABLE: &[u8] = b"{a = <0F>;}";

// The debug output of the tokens of the dictionary.
const TABLE_TOKENS: &str = "[Token { kind: BraceOpen, start: 0, end: 1 }, \
    Token { kind: Text(Utf16 { units: [97] }), start: 1, end: 2 }, \
    Token { kind: Equals, start: 3, end: 4 }, \
    Token { kind: Octets([15]), start: 5, end: 9 }, \
    Token { kind: Semicolon, start: 9, end: 10 }, \
    Token { kind: BraceClose, start: 10, end: 11 }]";

// Counts the tokens without keeping any.
fn count_of(alloc: Global, octets: &[u8]) -> Result<usize, LexFault> {
    let mut rest = open(octets)?;
    for count in 0..octets.len() {
        let Some((_, behind)) = next_token(alloc, rest)? else {
            return Ok(count);
        };
        rest = behind;
    }
    Ok(octets.len())
}

#[test]
fn a_step_at_a_time(rt: HostRuntime) -> Result<(), Fail> {
    assert_eq!(rt; count_of(rt.alloc(), TABLE)?, 6);
    assert_eq!(rt; open(TABLE)?.offset(), 0);
    assert_eq!(rt; open(b"\xff\xfe")?.offset(), 2);
    Ok(())
}

// Returns where the punctuation mark begins and ends, if only whitespace precedes it.
fn mark_of(octets: &[u8], mark: char) -> Result<Option<(usize, usize)>, LexFault> {
    match next_mark(open(octets)?, mark) {
        Some((token, _)) => Ok(Some((token.start, token.end))),
        None => Ok(None),
    }
}

// An input, a punctuation mark, and where it begins and ends if it is read.
const MARKS: [(&[u8], char, Option<(usize, usize)>); 5] = [
    (b" \t= 1", '=', Some((2, 3))),
    (b"\xff\xfe\x28\x20;\0", ';', Some((4, 6))),
    (b"; =", '=', None),
    (b"/**/=", '=', None),
    (b"a", 'a', None),
];

#[test]
fn a_mark_after_whitespace_alone(rt: HostRuntime) -> Result<(), Fail> {
    for (octets, mark, span) in MARKS {
        assert_eq!(rt; mark_of(octets, mark)?, span);
    }
    Ok(())
}

// Returns the units of the first string, if it is read as bytes, and the offset after it.
fn plain_of(octets: &[u8]) -> Result<Option<(&[u8], usize)>, LexFault> {
    match next_plain(open(octets)?) {
        Some((token, behind)) => Ok(token.text.octets().map(|units| (units, behind.offset()))),
        None => Ok(None),
    }
}

// An input. If its first token is a string that is stored as bytes: these bytes, and the offset
// after the token.
const PLAIN: [(&[u8], Option<(&[u8], usize)>); 11] = [
    (b" \ta-1/$;", Some((b"a-1/$", 7))),
    (b"\"a 'b' \"c", Some((b"a 'b' ", 8))),
    (b" /* 'a' */ // b\n c ", Some((b"c", 18))),
    (b"'\"'", Some((b"\"", 3))),
    (b"''", Some((b"", 2))),
    (b"\"a\\n\"", None),
    (b"\"\xc3\xa9\"", None),
    (b"\"a", None),
    (b"/* a", None),
    (b"{a=b;}", None),
    (b"\xfe\xff\0a", None),
];

#[test]
fn a_string_where_it_stands(rt: HostRuntime) -> Result<(), Fail> {
    for (octets, text) in PLAIN {
        assert_eq!(rt; plain_of(octets)?, text);
    }
    Ok(())
}

// An input that begins with a string, the units of the string, and the offset after it.
const UNITS: [(&[u8], &[u16], usize); 5] = [
    (b" \"a\\n\\\"b\" ", &[0x61, 0xa, 0x22, 0x62], 9),
    (b"x;", &[0x78], 1),
    (b"'\xc3\xa9'", &[0xe9], 4),
    (b"\xff\xfe\"\0\xac\x20\"\0", &[0x20ac], 8),
    (b"//\n''", &[], 5),
];

#[test]
fn a_string_by_its_units(rt: HostRuntime) -> Result<(), Fail> {
    for (octets, wanted, offset) in UNITS {
        let (token, behind) = next_token(rt.alloc(), open(octets)?)?.ok_or("no token")?;
        let TokenKind::Text(text) = token.kind else {
            return Err(Fail::from("it is no string"));
        };
        assert_eq!(rt; (text.units(), behind.offset()), (wanted, offset));
    }
    Ok(())
}

// Each fault, its number and its printed form.
const FAULTS: [(LexFault, u8, &str); 11] = [
    (LexFault::BadUtf8 { octet: 0 }, 20, "20 BadUtf8 at octet 0"),
    (LexFault::XmlForm { octet: 1 }, 21, "21 XmlForm at octet 1"),
    (
        LexFault::UnexpectedCharacter { octet: 2 },
        23,
        "23 UnexpectedCharacter at octet 2",
    ),
    (
        LexFault::UnclosedString { octet: 3 },
        24,
        "24 UnclosedString at octet 3",
    ),
    (
        LexFault::UnclosedComment { octet: 4 },
        25,
        "25 UnclosedComment at octet 4",
    ),
    (
        LexFault::BadEscape { octet: 5 },
        26,
        "26 BadEscape at octet 5",
    ),
    (
        LexFault::OctalRange { octet: 6 },
        27,
        "27 OctalRange at octet 6",
    ),
    (LexFault::OddData { octet: 7 }, 28, "28 OddData at octet 7"),
    (LexFault::BadData { octet: 8 }, 29, "29 BadData at octet 8"),
    (
        LexFault::BadUtf16 { octet: 9 },
        32,
        "32 BadUtf16 at octet 9",
    ),
    (LexFault::OutOfMemory, 60, "60 OutOfMemory"),
];

#[test]
fn a_fault_has_a_number_and_a_printed_form(rt: HostRuntime) -> Result<(), Fail> {
    for (fault, code, text) in FAULTS {
        let printed = format!(in rt.alloc(); "{fault}")?;
        assert_eq!(rt; (fault.code(), printed.as_str()), (code, text));
    }
    Ok(())
}

// Also with each allocation refused in turn.
#[test]
fn a_refused_growth_changes_no_answer(rt: HostRuntime) -> Result<(), Fail> {
    let found = tokens(rt.alloc(), TABLE)?;
    let printed = format!(in rt.alloc(); "{found:?}")?;
    assert_eq!(rt; printed.as_str(), TABLE_TOKENS);
    let fault = tokens(rt.alloc(), b"@").err();
    assert_eq!(rt; fault, Some(LexFault::UnexpectedCharacter { octet: 0 }));
    Ok(())
}
