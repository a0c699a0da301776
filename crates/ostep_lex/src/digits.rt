//! Numbers in octal or hexadecimal digits.
ghost use Rattle.std.specs.Prelude.{◌≡◌, ◌<◌, ◌≤◌, ◌^◌};
ghost use Rattle.ostep_lex.specs.Digits.{number_from, Number, begins_digit};
ghost use Rattle.ostep_lex.specs.Cursor.{ahead, SameInput};

use crate::cursor::Cursor;

/// Returns the number that the digits at the cursor encode, at most `count` of them, and the cursor
/// after them.
pub fn number(cursor: Cursor<'_>, base: u32, count: u32) -> (u32, Cursor<'_>)
    requires base { 2 ≤ base }
    requires base_limit { base ≤ 16 }
    requires count_limit { count ≤ 4 }
    ensures value { number_from base count 0 (ahead cursor.entry)
        ≡ record { value = result.0; after = ahead result.1 } }
    ensures input { SameInput cursor.entry result.1 }
    ensures limit { result.0 < 2 ^ 16 }
{
    let mut value = 0;
    let mut rest = cursor;
    for _ in 0..count {
        let Some((c, after)) = rest.first() else {
            return (value, rest);
        };
        let Some(digit) = c.to_digit(base) else {
            return (value, rest);
        };
        value = value * base + digit;
        rest = after;
    }
    (value, rest)
}

/// Returns whether a digit of the base is at the cursor.
pub fn begins_digit(cursor: Cursor<'_>, base: u32) -> bool
    requires base { 2 ≤ base }
    requires base_limit { base ≤ 36 }
    ensures { result ≡ begins_digit base (ahead cursor.entry) }
{
    match cursor.first() {
        Some((c, _)) => c.is_digit(base),
        None => false,
    }
}
