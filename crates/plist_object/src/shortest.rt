//! Recognises objects that begin like their canonical encoding: with the canonical marker, and with
//! the count or the integer in the least width.
ghost use Rattle.std.specs.Prelude.{◌≡◌, ◌<◌, ◌≤◌, ◌^◌, ◌↔◌, ◌+◌, ◌*◌, ◌++◌, false};
ghost use Rattle.std.specs.Prelude.{ℕ, IsOk, IsTrue, IfSome, length, nat_lt, replicate, take};
ghost use Rattle.std.specs.List.{list_all};
ghost use Rattle.byteorder.specs.Endian.{big_bytes};
ghost use Rattle.plist_value.specs.Plist.{AreOctets, IsWhole};
ghost use Rattle.plist_value.specs.Texts.{units_of, wide_units};
ghost use Rattle.plist_value.specs.Scalars.{content_of};
ghost use Rattle.plist_object.specs.Heads.{Begins, BeginsCanonically, BeginsScalar};
ghost use Rattle.plist_object.specs.Heads.{IsCounted, text_head};
ghost use Rattle.plist_object.specs.Objects.{holds_scalar, object_in};
ghost use Rattle.plist_object.specs.Shortest.{BeginsFixed, BeginsShort, BeginsWhole};
ghost use Rattle.plist_object.specs.Shortest.{HasWideUnit, LeadsScalar};
ghost use Rattle.plist_object.specs.Sizes.{head_size};
ghost use Rattle.plist_object.specs.Spelling.{head, integer_marker, least_integer, least_width};
ghost use Rattle.plist_object.specs.Spelling.{whole_spelling};
ghost use Rattle.plist_object.specs.Views.{held_of};

use crate::Object;
use crate::lengths::{head_length, width_of};
use crate::markers::{
    ASCII, DATA, FALSE, LIST, MOMENT_8, REAL_4, REAL_8, TABLE, TRUE, WHOLE, WHOLE_1, WHOLE_2,
    WHOLE_4, WHOLE_8, WHOLE_16, WIDE,
};
use crate::refs::number_in;
use byteorder::{BigEndian, ByteOrder};
use plist_value::{ScalarRef, TextRef};

/// Returns whether the bytes begin like the canonical encoding of `object`, which was decoded from
/// them: with the canonical marker, and with the count or the integer in the least width. Of the
/// content only UTF-16 units are read, up to the first that is not ASCII.
#[inline(always)]
pub fn begins_canonically(octets: &[u8], object: &Object) -> bool
    ensures begins { IsTrue result ↔ BeginsCanonically (held_of object.now) octets.now }
    ensures counted { IsCounted (held_of object.now) }
    ensures octets { AreOctets octets.now }
{
    match object {
        Object::Scalar(scalar) => begins_scalar(octets, scalar),
        Object::List(items) => begins_with_head(octets, LIST, items.len()),
        Object::Table(keys, _) => begins_with_head(octets, TABLE, keys.len()),
    }
}

#[inline(always)]
fn begins_scalar(octets: &[u8], scalar: &ScalarRef) -> bool
    ensures begins { IsTrue result ↔ BeginsScalar (content_of scalar.now) octets.now }
    ensures counted { IsCounted (holds_scalar (content_of scalar.now)) }
{
    match scalar {
        ScalarRef::Text(text) => begins_text(octets, text),
        ScalarRef::Whole(whole) => begins_whole(octets, whole.get()),
        ScalarRef::Flag(true) => begins(octets, &[TRUE]),
        ScalarRef::Flag(false) => begins(octets, &[FALSE]),
        ScalarRef::Real4(_) => begins(octets, &[REAL_4]),
        ScalarRef::Real8(_) => begins(octets, &[REAL_8]),
        ScalarRef::Moment(_) => begins(octets, &[MOMENT_8]),
        ScalarRef::Bytes(data) => begins_with_head(octets, DATA, data.len() as u64),
    }
}

fn begins_text(octets: &[u8], text: &TextRef) -> bool
    ensures begins { IsTrue result ↔ Begins (text_head (units_of text.now)) octets.now }
    ensures counted { length (units_of text.now) < 2 ^ 64 }
{
    let kind = if text.is_ascii() { ASCII } else { WIDE };
    begins_with_head(octets, kind, text.len() as u64)
}

fn begins_whole(octets: &[u8], number: i128) -> bool
    requires { IsWhole number }
    ensures { IsTrue result ↔ Begins (whole_spelling number) octets.now }
{
    let Some((marker, digits)) = octets.split_first() else {
        return false;
    };
    if number < 0 {
        *marker == WHOLE_8 && begins_with_number(digits, (number as i64).cast_unsigned(), 8)
    } else if number < 1 << 63 {
        begins_with_integer(octets, number as u64)
    } else {
        *marker == WHOLE_16 && begins_with_long(digits, number as u64)
    }
}

fn begins_with_head(octets: &[u8], kind: u8, count: u64) -> bool
    requires { kind < 16 }
    ensures { IsTrue result ↔ Begins (head kind count) octets.now }
{
    let Some((marker, rest)) = octets.split_first() else {
        return false;
    };
    if count < 15 {
        *marker == 16 * kind + count as u8
    } else {
        *marker == 16 * kind + 15 && begins_with_integer(rest, count)
    }
}

fn begins_with_integer(octets: &[u8], n: u64) -> bool
    ensures { IsTrue result ↔ Begins (least_integer n) octets.now }
{
    let Some((marker, digits)) = octets.split_first() else {
        return false;
    };
    let width = width_of(n);
    let expected = match width {
        1 => WHOLE_1,
        2 => WHOLE_2,
        4 => WHOLE_4,
        _ => WHOLE_8,
    };
    *marker == expected && begins_with_number(digits, n, width)
}

fn begins_with_number(octets: &[u8], n: u64, width: u8) -> bool
    requires width_least { 1 ≤ width }
    requires width_most { width ≤ 8 }
    requires fits { n < 256 ^ width }
    ensures { IsTrue result ↔ (take width octets.now ≡ big_bytes width n) }
{
    let width = usize::from(width);
    octets.len() >= width && number_in(octets, width) == n
}

// Compares with 8 zero bytes followed by the number in 8 bytes.
fn begins_with_long(octets: &[u8], n: u64) -> bool
    ensures { IsTrue result ↔ Begins (replicate 8 0 ++ big_bytes 8 n) octets.now }
{
    let mut digits = [0; 16];
    BigEndian::write_u64(&mut digits[8..], n);
    begins(octets, &digits)
}

fn begins(octets: &[u8], first: &[u8]) -> bool
    ensures { IsTrue result ↔ Begins first.now octets.now }
{
    octets.starts_with(first)
}

// Returns the number of bytes of the scalar at the start of `octets` if its first bytes show that
// it has its canonical encoding.
//
// Booleans, reals and dates have only one encoding. The other scalars that can be recognised are
// integers of at most 8 bytes, ASCII strings and data below 256 bytes, and UTF-16 strings below
// 256 units that are not all ASCII. Of a UTF-16 string the units are read up to the first that is
// not ASCII.
pub(crate) fn spelled_size(octets: &[u8]) -> Option<usize>
    ensures { IfSome result (λ size. (width : ℕ) → IsOk (object_in width octets.now)
        → LeadsScalar width size octets.now) }
{
    if let Some(size) = fixed_size(octets) {
        return Some(size);
    }
    let (kind, count) = short_head(octets)?;
    match kind {
        DATA | ASCII => Some((head_length(count) + count) as usize),
        WIDE => wide_size(octets, count),
        WHOLE => whole_size(octets),
        _ => None,
    }
}

// Returns the number of bytes of a scalar if its marker alone determines that number and shows that
// the encoding is canonical.
fn fixed_size(octets: &[u8]) -> Option<usize>
    ensures size { IfSome result (λ size. BeginsFixed size octets.now) }
    ensures octets { AreOctets octets.now }
{
    let (marker, _) = octets.split_first()?;
    match *marker {
        FALSE => Some(1),
        TRUE => Some(1),
        WHOLE_1 => Some(2),
        REAL_4 => Some(5),
        REAL_8 => Some(9),
        MOMENT_8 => Some(9),
        _ => None,
    }
}

// Returns the number of bytes, with the marker, of an integer of 2, 4 or 8 bytes that would not fit
// in fewer.
fn whole_size(octets: &[u8]) -> Option<usize>
    ensures { IfSome result (λ size. BeginsWhole size octets.now) }
{
    let (marker, digits) = octets.split_first()?;
    let width = whole_width(*marker)?;
    if digits.len() < width {
        return None;
    }
    let number = number_in(digits, width);
    if usize::from(width_of(number)) == width {
        Some(1 + width)
    } else {
        None
    }
}

// Returns the number of bytes, 2, 4 or 8, after the marker of an integer.
fn whole_width(marker: u8) -> Option<usize>
    ensures least { IfSome result (λ width. 1 ≤ width) }
    ensures most { IfSome result (λ width. width ≤ 8) }
    ensures marker { IfSome result
        (λ width. (n : ℕ) → least_width n ≡ width → integer_marker n ≡ marker) }
{
    match marker {
        WHOLE_2 => Some(2),
        WHOLE_4 => Some(4),
        WHOLE_8 => Some(8),
        _ => None,
    }
}

// Returns the kind of the object and its count, if the count is below 256 and in its least width.
// For kinds without a count it is the low half of the marker.
fn short_head(octets: &[u8]) -> Option<(u8, u64)>
    ensures head { IfSome result (λ head. BeginsShort head.0 head.1 octets.now) }
    ensures octets { AreOctets octets.now }
{
    let (marker, behind) = octets.split_first()?;
    let kind = marker / 16;
    let low = marker % 16;
    if low < 15 {
        return Some((kind, u64::from(low)));
    }
    match behind {
        [WHOLE_1, count, ..] if *count >= 15 => Some((kind, u64::from(*count))),
        _ => None,
    }
}

// Returns the number of bytes of a UTF-16 string of `count` units if one of the units is not ASCII.
fn wide_size(octets: &[u8], count: u64) -> Option<usize>
    requires { count < 256 }
    ensures size { IfSome result (λ size. size ≡ head_size count + 2 * count) }
    ensures wide { IfSome result (λ _. HasWideUnit count octets.now) }
{
    let start = head_length(count) as usize;
    let size = start + 2 * count as usize;
    let units = octets.get(start..size)?;
    if has_wide_unit(units) {
        Some(size)
    } else {
        None
    }
}

// Returns whether one of the big-endian units is not ASCII.
fn has_wide_unit(octets: &[u8]) -> bool
    ensures { IsTrue result ↔ (list_all (λ unit. nat_lt unit 128) (wide_units octets.now) ≡ false) }
{
    let mut rest = octets;
    while let [high, low, behind @ ..] = rest {
        if *high != 0 || *low >= 128 {
            return true;
        }
        rest = behind;
    }
    false
}
