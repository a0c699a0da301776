//! Bytes as hexadecimal digits.
ghost use Rattle.std.specs.Prelude.{◌≡◌, ◌+◌, ◌*◌, ◌<◌, ◌≤◌, ◌++◌};
ghost use Rattle.std.specs.Prelude.{OnOk, length, flat_map, vec_len, vec_capacity};
ghost use Rattle.std.specs.Char.{digit_char};
ghost use Rattle.plist_value.specs.Digits.{two_digits};

use std::alloc::AllocError;

/// Appends two lower-case hexadecimal digits for each byte to `out`.
///
/// # Errors
///
/// [`AllocError`] if out of memory.
pub fn put_digits(out: &mut Vec<u8>, octets: &[u8]) -> Result<(), AllocError>
    ensures { OnOk result (out.new.items ≡ out.old.items ++ flat_map two_digits octets.now) }
{
    out.reserve(2 * octets.len())?;
    push_digits(out, octets);
    Ok(())
}

/// Returns the two lower-case hexadecimal digits of a byte.
pub fn digits_of(octet: u8) -> [u8; 2]
    ensures { result ≡ two_digits octet }
{
    [digit(octet / 16), digit(octet % 16)]
}

// Appends the bytes as pairs of digits. `out` has the capacity.
fn push_digits(out: &mut Vec<u8>, octets: &[u8])
    requires { vec_len out.old + 2 * length octets.now ≤ vec_capacity out.old }
    ensures { out.new.items ≡ out.old.items ++ flat_map two_digits octets.now }
{
    for octet in octets {
        push_octet(out, *octet);
    }
}

// Appends the byte as a pair of digits. `out` has the capacity.
fn push_octet(out: &mut Vec<u8>, octet: u8)
    requires { vec_len out.old + 2 ≤ vec_capacity out.old }
    ensures items { out.new.items ≡ out.old.items ++ two_digits octet }
    ensures len { vec_len out.new ≡ vec_len out.old + 2 }
    ensures room { vec_capacity out.new ≡ vec_capacity out.old }
{
    out.push_reserved(digit(octet / 16));
    out.push_reserved(digit(octet % 16));
}

static DIGITS: [u8; 16] = *b"0123456789abcdef";

fn digit(value: u8) -> u8
    requires { value < 16 }
    ensures { result ≡ digit_char value }
{
    DIGITS[value as usize]
}
