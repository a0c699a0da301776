//! Prints reals.
ghost use Rattle.std.specs.Prelude.{◌≡◌, ◌+◌, ◌<◌, ◌≤◌, ◌^◌, ◌++◌, OnOk, length};
ghost use Rattle.std.specs.Option.{option_map};
ghost use Rattle.plist_print.specs.Units.{printed_data};
ghost use Rattle.plist_print.specs.Reals.{shortest, decimal_of, printed_real};
ghost use Rattle.plist_print.specs.Shown.{Fits, decimal_in, placed, tried};

use crate::decimals::put_decimal;
use crate::numbers::{Decimal, Format};
use byteorder::{BigEndian, ByteOrder};
use plist_value::put_digits;
use std::alloc::AllocError;

// Returns the decimal with the fewest digits after the decimal point that reads as the real `here`,
// with at most 21. The next real is `here + 2`, and 1 is `unit`.
fn shortest(below: u128, here: u128, unit: u128) -> Option<Decimal>
    requires below { below ≤ here }
    requires here { here ≤ 2 ^ 54 }
    requires some { 0 < unit }
    requires unit { unit ≤ 2 ^ 126 }
    ensures { option_map decimal_in result ≡ shortest (placed below here unit) 21 1 }
{
    for digits in 1..22 {
        if let Some(numerator) = numerator_at(below, here, unit, 10_u128.pow(digits)) {
            return Some(Decimal { numerator, digits });
        }
    }
    None
}

// Returns the numerator over `over` that is nearest to the real, if it reads as the real.
fn numerator_at(below: u128, here: u128, unit: u128, over: u128) -> Option<u128>
    requires below { below ≤ here }
    requires here { here ≤ 2 ^ 54 }
    requires some { 0 < unit }
    requires unit { unit ≤ 2 ^ 126 }
    requires over { over ≤ 10 ^ 21 }
    ensures { result ≡ tried (placed below here unit) over }
{
    let numerator = (2 * (here * over) + unit) / (2 * unit);
    let middle = 2 * (numerator * unit);
    if (below + here) * over <= middle && middle < (here + (here + 2)) * over {
        Some(numerator)
    } else {
        None
    }
}

// Returns the decimal of the real with these bits, which include no sign.
pub(crate) fn decimal_of(format: Format, bits: u64) -> Option<Decimal>
    requires { Fits format }
    ensures { option_map decimal_in result ≡ decimal_of format bits }
{
    if bits == 0 {
        return Some(Decimal {
            numerator: 0,
            digits: 1,
        });
    }
    let exponent = bits / format.hidden;
    // With a lower exponent, the real is less than half of the last of 21 digits.
    if exponent < format.one - 124 || exponent >= format.to {
        return None;
    }
    let fraction = u128::from(bits % format.hidden);
    let here = 2 * (u128::from(format.hidden) + fraction);
    // The next real below is at half the distance if the fraction is 0.
    let below = here - 1 - fraction.min(1);
    shortest(below, here, 1 << (format.to - 1 - exponent))
}

// Appends the real with these bytes to `out`.
pub(crate) fn put_real(out: &mut Vec<u8>, format: Format, octets: &[u8]) -> Result<(), AllocError>
    requires fits { Fits format }
    requires long { length octets.now ≡ format.octets }
    ensures { OnOk result (out.new.items ≡ out.old.items ++ printed_real format octets.now) }
{
    let bits = BigEndian::read_uint(octets, format.octets);
    if bits >= format.sign {
        out.push(b'-')?;
    }
    let size = bits % format.sign;
    if size == format.infinite {
        return out.extend_from_slice(b"infinity");
    }
    if size > format.infinite {
        return put_octets(out, b"nan ", octets);
    }
    match decimal_of(format, size) {
        Some(decimal) => put_decimal(out, decimal),
        None => put_octets(out, b"real ", octets),
    }
}

// Appends the word and then the bytes.
pub(crate) fn put_octets(out: &mut Vec<u8>, word: &[u8], octets: &[u8]) -> Result<(), AllocError>
    ensures { OnOk result (out.new.items ≡ out.old.items ++ word.now ++ printed_data octets.now) }
{
    out.extend_from_slice(word)?;
    out.push(b'<')?;
    put_digits(out, octets)?;
    Ok(out.push(b'>')?)
}
