//! How dates are printed: the seconds since 2001 and, in parentheses, date and time in UTC.
ghost use Rattle.std.specs.Prelude.{◌≡◌, ◌+◌, ◌*◌, ◌<◌, ◌≤◌, ◌^◌, ◌++◌, IfSome, OnOk};
ghost use Rattle.plist_print.specs.Dates.{days_in_month, days_before, year_of, printed_day};
ghost use Rattle.plist_print.specs.Dates.{printed_time, printed_moment, second_at};
ghost use Rattle.plist_print.specs.Dates.{second_of, in_brackets, printed_date};

use crate::decimals::put_last_digits;
use crate::numbers::DOUBLE;
use crate::reals::{decimal_of, put_real};
use byteorder::{BigEndian, ByteOrder};
use std::alloc::AllocError;

// The number of seconds in a day.
const DAY: u128 = 86_400;

// The number of seconds from 0001-01-01T00:00:00Z to 2001-01-01T00:00:00Z.
const UNTIL_2001: u128 = 63_113_904_000;

// The number of seconds from 0001-01-01T00:00:00Z to 10000-01-01T00:00:00Z.
const UNTIL_10000: u128 = 315_537_897_600;

// Appends the seconds of a date, and date and time in parentheses if it has them.
pub(crate) fn put_date(out: &mut Vec<u8>, octets: &[u8; 8]) -> Result<(), AllocError>
    ensures { OnOk result (out.new.items ≡ out.old.items ++ printed_date octets.now) }
{
    put_real(out, DOUBLE, octets)?;
    put_brackets(out, octets)
}

// Appends date and time in parentheses, if the date is a whole second in the years 1 to 9999.
fn put_brackets(out: &mut Vec<u8>, octets: &[u8; 8]) -> Result<(), AllocError>
    ensures { OnOk result (out.new.items ≡ out.old.items ++ in_brackets (second_of octets.now)) }
{
    let Some(second) = second_of(octets) else {
        return Ok(());
    };
    out.extend_from_slice(b" (")?;
    put_moment(out, second)?;
    Ok(out.push(b')')?)
}

// Returns the number of seconds from 0001-01-01T00:00:00Z to a date, if it is a whole second in the
// years 1 to 9999.
fn second_of(octets: &[u8; 8]) -> Option<u128>
    ensures value { result ≡ second_of octets.now }
    ensures within { IfSome result (λ second. second < 86_400 * days_before 10_000) }
{
    let bits = BigEndian::read_u64(octets);
    let decimal = decimal_of(DOUBLE, bits % DOUBLE.sign)?;
    if decimal.digits != 1 || decimal.numerator % 10 != 0 {
        return None;
    }
    second_at(bits >= DOUBLE.sign, decimal.numerator / 10)
}

// Returns the number of seconds from 0001-01-01T00:00:00Z to the date that is this many seconds
// before 2001 if `negative`, and else after its start. `None` outside the years 1 to 9999.
fn second_at(negative: bool, seconds: u128) -> Option<u128>
    requires { seconds ≤ 2 ^ 127 }
    ensures value { result ≡ second_at negative seconds }
    ensures within { IfSome result (λ second. second < 86_400 * days_before 10_000) }
{
    if negative {
        return UNTIL_2001.checked_sub(seconds);
    }
    let second = UNTIL_2001 + seconds;
    if second < UNTIL_10000 {
        Some(second)
    } else {
        None
    }
}

// Appends date and time of this second after 0001-01-01T00:00:00Z.
#[tactic(auto, unfolding(crate::specs::Dates::printed_moment))]
fn put_moment(out: &mut Vec<u8>, second: u128) -> Result<(), AllocError>
    requires { second < 86_400 * days_before 10_000 }
    ensures { OnOk result (out.new.items ≡ out.old.items ++ printed_moment second) }
{
    put_day(out, second / DAY)?;
    out.push(b'T')?;
    put_time(out, second % DAY)?;
    Ok(out.push(b'Z')?)
}

// Appends the date of the day, which is counted from 0001-01-01 as day 0.
#[tactic(auto, unfolding(crate::specs::Dates::printed_day))]
fn put_day(out: &mut Vec<u8>, day: u128) -> Result<(), AllocError>
    requires { day < days_before 10_000 }
    ensures { OnOk result (out.new.items ≡ out.old.items ++ printed_day day) }
{
    let year = year_of(day);
    let mut left = day - days_before(year);
    let mut month = 1;
    while left >= days_in_month(year, month) {
        left -= days_in_month(year, month);
        month += 1;
    }
    put_last_digits(out, year, 4)?;
    out.push(b'-')?;
    put_last_digits(out, month, 2)?;
    out.push(b'-')?;
    put_last_digits(out, left + 1, 2)
}

// Returns the year of the day.
fn year_of(day: u128) -> u128
    requires { day < days_before 10_000 }
    ensures value { result ≡ year_of day }
    ensures some { 1 ≤ result }
    ensures most { result ≤ 9_999 }
    ensures begun { days_before result ≤ day }
    ensures lasts { day < days_before (result + 1) }
{
    let mut year = day / 366 + 1;
    while days_before(year + 1) <= day {
        year += 1;
    }
    year
}

// Returns the number of days from year 1 to the start of this year.
fn days_before(year: u128) -> u128
    requires some { 1 ≤ year }
    requires most { year ≤ 10_000 }
    ensures { result ≡ days_before year }
{
    let years = year - 1;
    365 * years + years / 4 - years / 100 + years / 400
}

fn days_in_month(year: u128, month: u128) -> u128
    requires some { 1 ≤ year }
    requires most { year ≤ 9_999 }
    ensures { result ≡ days_in_month year month }
{
    match month {
        2 => days_before(year + 1) - days_before(year) - 337,
        4 | 6 | 9 | 11 => 30,
        _ => 31,
    }
}

// Appends the time of day.
#[tactic(auto, unfolding(crate::specs::Dates::printed_time))]
fn put_time(out: &mut Vec<u8>, second: u128) -> Result<(), AllocError>
    ensures { OnOk result (out.new.items ≡ out.old.items ++ printed_time second) }
{
    put_last_digits(out, second / 3600, 2)?;
    out.push(b':')?;
    put_last_digits(out, second / 60 % 60, 2)?;
    out.push(b':')?;
    put_last_digits(out, second % 60, 2)
}
