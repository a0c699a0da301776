//! The number of bytes of the canonical encoding of a number or an object.
ghost use Rattle.std.specs.Prelude.{◌≡◌, ◌+◌, ◌*◌, ◌<◌, ◌^◌, ◌↔◌, length, List, ℕ, IfOk, IsOk};
ghost use Rattle.plist_value.specs.Plist.{IsWhole};
ghost use Rattle.plist_value.specs.Texts.{units_of};
ghost use Rattle.plist_value.specs.Scalars.{content_of};
ghost use Rattle.plist_object.specs.Spelling.{least_width, list_spelling, scalar_spelling};
ghost use Rattle.plist_object.specs.Spelling.{table_spelling, whole_spelling, text_spelling};
ghost use Rattle.plist_object.specs.Sizes.{IsSmall, IsWidth, head_size};

use plist_value::{ScalarRef, TextRef};
use std::alloc::AllocError;

/// Returns the least of 1, 2, 4 and 8 bytes that `n` fits in.
pub fn width_of(n: u64) -> u8
    ensures value { result ≡ least_width n }
    ensures holds { n < 256 ^ result }
{
    if n < 1 << 8 {
        1
    } else if n < 1 << 16 {
        2
    } else if n < 1 << 32 {
        4
    } else {
        8
    }
}

/// Converts a number to 32 bits. Object numbers always fit: those of a value within the limits are
/// below 2^32, and so are those of a file within the limit of input.
///
/// # Errors
///
/// Fails if the number is 2^32 or above: no memory could contain that many objects.
pub fn to_u32(number: u64) -> Result<u32, AllocError>
    ensures value { IfOk result (λ short. short ≡ number) }
    ensures fits { IsOk result ↔ number < 2 ^ 32 }
{
    u32::try_from(number).map_err(|_| AllocError)
}

/// Returns the number of bytes of the canonical encoding of a scalar. Strings have fewer than 2^32
/// units, and data fewer than 2^32 bytes.
pub fn scalar_length(scalar: &ScalarRef) -> u64
    requires { IsSmall (content_of scalar.now) }
    ensures { result ≡ length (scalar_spelling (content_of scalar.now)) }
{
    match scalar {
        ScalarRef::Text(text) => text_length(text),
        ScalarRef::Whole(whole) => whole_length(whole.get()),
        ScalarRef::Flag(_) => 1,
        ScalarRef::Real4(octets) => fixed_length(octets),
        ScalarRef::Real8(octets) | ScalarRef::Moment(octets) => fixed_length(octets),
        ScalarRef::Bytes(octets) => head_length(octets.len() as u64) + octets.len() as u64,
    }
}

// Counts the marker and the bytes after it.
fn fixed_length(octets: &[u8]) -> u64
    ensures { result ≡ 1 + length octets.now }
{
    1 + octets.len() as u64
}

/// Returns the number of bytes of an array of `count` references, each of `width` bytes. `width` is
/// 1, 2, 4 or 8, and `count` is below 2^32.
pub fn list_length(count: u64, width: u8) -> u64
    requires width { IsWidth width }
    requires count { count < 2 ^ 32 }
    ensures { (refs : List ℕ) → length refs ≡ count → result ≡ length (list_spelling width refs) }
{
    head_length(count) + count * u64::from(width)
}

/// Returns the number of bytes of a dictionary of `count` pairs, with references of `width` bytes.
/// `width` is 1, 2, 4 or 8, and `count` is below 2^32.
pub fn table_length(count: u64, width: u8) -> u64
    requires width { IsWidth width }
    requires count { count < 2 ^ 32 }
    ensures { (keys values : List ℕ) → length keys ≡ count → length values ≡ count → result ≡ length
        (table_spelling width keys values) }
{
    head_length(count) + 2 * count * u64::from(width)
}

fn text_length(text: &TextRef) -> u64
    requires { length (units_of text.now) < 2 ^ 32 }
    ensures { result ≡ length (text_spelling (units_of text.now)) }
{
    let units = text.len() as u64;
    if text.is_ascii() {
        head_length(units) + units
    } else {
        head_length(units) + 2 * units
    }
}

fn whole_length(number: i128) -> u64
    requires { IsWhole number }
    ensures { result ≡ length (whole_spelling number) }
{
    if number < 0 {
        9
    } else if number < 1 << 63 {
        1 + u64::from(width_of(number as u64))
    } else {
        17
    }
}

// Returns the number of bytes of a marker together with its count.
pub(crate) fn head_length(count: u64) -> u64
    ensures size { result ≡ head_size count }
    ensures small { result < 11 }
{
    if count < 15 {
        1
    } else {
        2 + u64::from(width_of(count))
    }
}
