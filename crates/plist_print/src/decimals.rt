//! Prints decimal digits.
ghost use Rattle.std.specs.Prelude.{◌≡◌, ◌≤◌, ◌++◌, OnOk};
ghost use Rattle.plist_print.specs.Reals.{last_digits, printed_decimal};

use crate::numbers::Decimal;
use itoa::Buffer;
use std::alloc::AllocError;

// Appends the decimal to `out`.
pub(crate) fn put_decimal(out: &mut Vec<u8>, decimal: Decimal) -> Result<(), AllocError>
    ensures { OnOk result (out.new.items
        ≡ out.old.items ++ printed_decimal decimal.numerator decimal.digits) }
{
    let mut buffer = Buffer::new();
    let whole = buffer.format(decimal.numerator / 10_u128.pow(decimal.digits));
    out.extend_from_slice(whole.as_bytes())?;
    out.push(b'.')?;
    put_last_digits(out, decimal.numerator, decimal.digits)
}

// Appends the last `digits` decimal digits of the number.
pub(crate) fn put_last_digits(
    out: &mut Vec<u8>,
    number: u128,
    digits: u32,
) -> Result<(), AllocError>
    requires { digits ≤ 21 }
    ensures { OnOk result (out.new.items ≡ out.old.items ++ last_digits digits number) }
{
    if digits == 0 {
        return Ok(());
    }
    put_last_digits(out, number / 10, digits - 1)?;
    Ok(out.push(b'0' + (number % 10) as u8)?)
}
