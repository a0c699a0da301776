//! Decodes the object at the start of a byte slice, which reaches up to the offset table, and
//! returns the remaining bytes.
ghost use Rattle.std.specs.Prelude.{◌≡◌, ◌≢◌, ◌+◌, ◌*◌, ◌<◌, ◌≤◌, ◌/◌, ◌%◌, length};
ghost use Rattle.std.specs.Prelude.{IfOk};
ghost use Rattle.plist_object.specs.Objects.{IsContent, holds_scalar, cut, integer_length};
ghost use Rattle.plist_object.specs.Objects.{ascii_length, count_or_zero, content, whole_in};
ghost use Rattle.plist_object.specs.Objects.{simple_object, whole_object, real_object};
ghost use Rattle.plist_object.specs.Objects.{moment_object, data_object, ascii_object, wide_object};
ghost use Rattle.plist_object.specs.Objects.{list_object, table_object, marked_object, object_in};
ghost use Rattle.plist_object.specs.Views.{Gives, held_of};
ghost use Rattle.plist_value.specs.Plist as kind;
ghost use Rattle.plist_value.specs.Wholes.{integer_of};

use crate::counted::{Read, content, cut, integer_length};
use crate::markers::{
    ASCII, DATA, EIGHT_OCTETS, FALSE, FOUR_OCTETS, LIST, MOMENT, NULL, REAL, SET, SIMPLE, TABLE,
    TRUE, UID, WHOLE, WHOLE_1, WIDE,
};
use crate::refs::number_in;
use crate::{Object, ObjectFault, Refs};
use byteorder::{BigEndian, ByteOrder};
use plist_value::{ScalarRef, TextRef, Whole};

#[inline(always)]
#[tactic(auto, unfolding(crate::specs::Objects::simple_object))]
fn simple(octets: &[u8], low: u8) -> Read<'_, Object<'_>>
    ensures read { Gives (λ p. (held_of p.0, p.1.now)) result (simple_object low octets.entry.now) }
    ensures valid { IfOk result (λ p. IsContent (held_of p.0)) }
{
    match low {
        NULL => Err(ObjectFault::NullObject),
        FALSE => Ok((Object::Scalar(ScalarRef::Flag(false)), octets)),
        TRUE => Ok((Object::Scalar(ScalarRef::Flag(true)), octets)),
        _ => Err(ObjectFault::BadMarker),
    }
}

// Returns the integer that all the bytes encode. There are 1, 2, 4, 8 or 16 of them.
fn whole_in(octets: &[u8], n: usize) -> Result<Whole, ObjectFault>
    requires whole { length octets.now ≡ n }
    requires some { 1 ≤ n }
    requires small { n ≢ 16 → n ≤ 8 }
    ensures { Gives integer_of result (whole_in n octets.now) }
{
    let number = match n {
        16 if BigEndian::read_u64(octets) != 0 => return Err(ObjectFault::WideInteger),
        16 => i128::from(BigEndian::read_u64(&octets[8..])),
        8 => i128::from(BigEndian::read_i64(octets)),
        _ => i128::from(number_in(octets, n)),
    };
    Whole::new(number).ok_or(ObjectFault::WideInteger)
}

#[inline(always)]
#[tactic(auto, unfolding(crate::specs::Objects::whole_object))]
fn whole(octets: &[u8], low: u8) -> Read<'_, Object<'_>>
    requires { low < 16 }
    ensures read { Gives (λ p. (held_of p.0, p.1.now)) result (whole_object low octets.entry.now) }
    ensures valid { IfOk result (λ p. IsContent (held_of p.0)) }
{
    let n = integer_length(WHOLE_1 + low)?;
    let (digits, rest) = cut(octets, n)?;
    let number = whole_in(digits, n)?;
    Ok((Object::Scalar(ScalarRef::Whole(number)), rest))
}

fn real4<'a>(octets: [u8; 4]) -> Object<'a>
    ensures held { held_of result ≡ holds_scalar (kind.real4 octets) }
    ensures valid { IsContent (held_of result) }
{
    Object::Scalar(ScalarRef::Real4(octets))
}

fn real8<'a>(octets: [u8; 8]) -> Object<'a>
    ensures held { held_of result ≡ holds_scalar (kind.real8 octets) }
    ensures valid { IsContent (held_of result) }
{
    Object::Scalar(ScalarRef::Real8(octets))
}

fn date<'a>(octets: [u8; 8]) -> Object<'a>
    ensures held { held_of result ≡ holds_scalar (kind.moment octets) }
    ensures valid { IsContent (held_of result) }
{
    Object::Scalar(ScalarRef::Moment(octets))
}

#[inline(always)]
#[tactic(auto, unfolding(crate::specs::Objects::real_object))]
fn real(octets: &[u8], low: u8) -> Read<'_, Object<'_>>
    ensures read { Gives (λ p. (held_of p.0, p.1.now)) result (real_object low octets.entry.now) }
    ensures valid { IfOk result (λ p. IsContent (held_of p.0)) }
{
    match low {
        FOUR_OCTETS => {
            let (real, rest) = octets.split_first_chunk().ok_or(ObjectFault::CutObject)?;
            Ok((real4(*real), rest))
        }
        EIGHT_OCTETS => {
            let (real, rest) = octets.split_first_chunk().ok_or(ObjectFault::CutObject)?;
            Ok((real8(*real), rest))
        }
        _ => Err(ObjectFault::BadMarker),
    }
}

#[inline(always)]
#[tactic(auto, unfolding(crate::specs::Objects::moment_object))]
fn moment(octets: &[u8], low: u8) -> Read<'_, Object<'_>>
    ensures read { Gives (λ p. (held_of p.0, p.1.now)) result (moment_object low octets.entry.now) }
    ensures valid { IfOk result (λ p. IsContent (held_of p.0)) }
{
    if low != EIGHT_OCTETS {
        return Err(ObjectFault::BadMarker);
    }
    let (moment, rest) = octets.split_first_chunk().ok_or(ObjectFault::CutObject)?;
    Ok((date(*moment), rest))
}

#[inline(always)]
#[tactic(auto, unfolding(crate::specs::Objects::data_object))]
fn data(octets: &[u8], low: u8) -> Read<'_, Object<'_>>
    ensures read { Gives (λ p. (held_of p.0, p.1.now)) result (data_object low octets.entry.now) }
    ensures valid { IfOk result (λ p. IsContent (held_of p.0)) }
{
    let (data, rest) = content(octets, low, 1)?;
    Ok((Object::Scalar(ScalarRef::Bytes(data.octets)), rest))
}

#[inline(always)]
#[tactic(auto, unfolding(crate::specs::Objects::ascii_object))]
fn ascii(octets: &[u8], low: u8) -> Read<'_, Object<'_>>
    ensures read { Gives (λ p. (held_of p.0, p.1.now)) result (ascii_object low octets.entry.now) }
    ensures valid { IfOk result (λ p. IsContent (held_of p.0)) }
{
    let (ascii, rest) = content(octets, low, 1)?;
    let text = TextRef::of_ascii(ascii.octets).ok_or(ObjectFault::NotAscii)?;
    Ok((Object::Scalar(ScalarRef::Text(text)), rest))
}

#[inline(always)]
#[tactic(auto, unfolding(crate::specs::Objects::list_object))]
fn list(octets: &[u8], low: u8, width: u8) -> Read<'_, Object<'_>>
    requires width_least { 1 ≤ width }
    requires width_most { width ≤ 8 }
    ensures read { Gives (λ p. (held_of p.0, p.1.now)) result
        (list_object width low octets.entry.now) }
    ensures valid { IfOk result (λ p. IsContent (held_of p.0)) }
{
    let (items, rest) = content(octets, low, usize::from(width))?;
    let refs = Refs::of(items.octets, width, items.count);
    Ok((Object::List(refs), rest))
}

#[inline(always)]
#[tactic(auto, unfolding(crate::specs::Objects::table_object))]
fn table(octets: &[u8], low: u8, width: u8) -> Read<'_, Object<'_>>
    requires width_least { 1 ≤ width }
    requires width_most { width ≤ 8 }
    ensures read { Gives (λ p. (held_of p.0, p.1.now)) result
        (table_object width low octets.entry.now) }
    ensures valid { IfOk result (λ p. IsContent (held_of p.0)) }
{
    let (pairs, rest) = content(octets, low, 2 * usize::from(width))?;
    let (keys, values) = pairs.octets.split_at(pairs.octets.len() / 2);
    let keys = Refs::of(keys, width, pairs.count);
    let values = Refs::of(values, width, pairs.count);
    Ok((Object::Table(keys, values), rest))
}

#[inline(always)]
#[tactic(auto, unfolding(crate::specs::Objects::wide_object))]
fn wide(octets: &[u8], low: u8) -> Read<'_, Object<'_>>
    ensures read { Gives (λ p. (held_of p.0, p.1.now)) result (wide_object low octets.entry.now) }
    ensures valid { IfOk result (λ p. IsContent (held_of p.0)) }
{
    let (wide, rest) = content(octets, low, 2)?;
    let text = TextRef::of_wide(wide.octets).ok_or(ObjectFault::CutObject)?;
    Ok((Object::Scalar(ScalarRef::Text(text)), rest))
}

// Returns the number of bytes of the object at the start, if it is marked as an ASCII string and
// not cut, and else 0. Other objects that are no strings are refused without reading what they
// contain.
pub(crate) fn ascii_length(octets: &[u8]) -> u64
    ensures { result ≡ ascii_length octets.now }
{
    match octets.split_first() {
        Some((marker, octets)) if marker / 16 == ASCII => length_in(octets, marker % 16),
        _ => 0,
    }
}

fn length_in(octets: &[u8], low: u8) -> u64
    ensures { result ≡ count_or_zero (content 1 low octets.now) }
{
    match content(octets, low, 1) {
        Ok((ascii, _)) => ascii.count,
        Err(_) => 0,
    }
}

// Decodes the object at the start of the bytes, with references of `width` bytes each. Returns its
// content, and the bytes after the object.
#[inline(always)]
#[tactic(auto, unfolding(crate::specs::Objects::marked_object))]
pub(crate) fn object(octets: &[u8], width: u8) -> Read<'_, Object<'_>>
    requires width_least { 1 ≤ width }
    requires width_most { width ≤ 8 }
    ensures read { Gives (λ p. (held_of p.0, p.1.now)) result (object_in width octets.entry.now) }
    ensures valid { IfOk result (λ p. IsContent (held_of p.0)) }
{
    let Some((marker, octets)) = octets.split_first() else {
        return Err(ObjectFault::CutObject);
    };
    let low = marker % 16;
    match marker / 16 {
        SIMPLE => simple(octets, low),
        WHOLE => whole(octets, low),
        REAL => real(octets, low),
        MOMENT => moment(octets, low),
        DATA => data(octets, low),
        ASCII => ascii(octets, low),
        WIDE => wide(octets, low),
        UID => Err(ObjectFault::UidObject),
        LIST => list(octets, low, width),
        SET => Err(ObjectFault::SetObject),
        TABLE => table(octets, low, width),
        _ => Err(ObjectFault::BadMarker),
    }
}
