//! Reads the counts of objects, and the bytes that are counted.
ghost use Rattle.std.specs.Prelude.{◌≡◌, ◌≢◌, ◌*◌, ◌<◌, ◌≤◌, ◌^◌, ◌∷◌, length, IfOk, IfSome};
ghost use Rattle.byteorder.specs.Endian.{big_number};
ghost use Rattle.plist_object.specs.Objects.{content, count_spelled, cut, integer_length};
ghost use Rattle.plist_object.specs.Views.{Gives};
ghost use Rattle.plist_value.specs.Plist.{AreOctets};

use crate::ObjectFault;
use crate::markers::{WHOLE_1, WHOLE_2, WHOLE_4, WHOLE_8, WHOLE_16};
use crate::refs::number_in;
use byteorder::{BigEndian, ByteOrder};

pub(crate) type Read<'a, T> = Result<(T, &'a [u8]), ObjectFault>;

pub(crate) fn cut(octets: &[u8], n: usize) -> Result<(&[u8], &[u8]), ObjectFault>
    ensures parts { Gives (λ p. (p.0.now, p.1.now)) result (cut n octets.entry.now) }
    ensures octets { IfOk result (λ p. AreOctets p.1.now) }
{
    if octets.len() < n {
        return Err(ObjectFault::CutObject);
    }
    Ok(octets.split_at(n))
}

pub(crate) fn integer_length(marker: u8) -> Result<usize, ObjectFault>
    ensures read { result ≡ integer_length marker }
    ensures small { IfOk result (λ n. (1 ≤ n) × (n ≢ 16 → n ≤ 8)) }
{
    match marker {
        WHOLE_1 => Ok(1),
        WHOLE_2 => Ok(2),
        WHOLE_4 => Ok(4),
        WHOLE_8 => Ok(8),
        WHOLE_16 => Ok(16),
        _ => Err(ObjectFault::BadMarker),
    }
}

#[tactic(auto, unfolding(crate::specs::Objects::count_spelled))]
fn count_spelled(octets: &[u8]) -> Read<'_, u128>
    ensures read { Gives (λ p. (p.0, p.1.now)) result (count_spelled octets.entry.now) }
    ensures octets { IfOk result (λ p. AreOctets p.1.now) }
{
    let Some((marker, octets)) = octets.split_first() else {
        return Err(ObjectFault::CutObject);
    };
    let n = integer_length(*marker)?;
    let (digits, rest) = cut(octets, n)?;
    Ok((count_in(digits, n), rest))
}

// Returns the number that all the bytes encode. There are 1, 2, 4, 8 or 16 of them.
fn count_in(octets: &[u8], n: usize) -> u128
    requires whole { length octets.now ≡ n }
    requires some { 1 ≤ n }
    requires most { n ≤ 16 }
    requires small { n ≢ 16 → n ≤ 8 }
    ensures { result ≡ big_number n octets.now }
{
    match n {
        16 => BigEndian::read_u128(octets),
        _ => u128::from(number_in(octets, n)),
    }
}

// Reads a count of 1 byte, the most frequent one, and returns it with the bytes after it.
#[inline(always)]
fn short_count(octets: &[u8]) -> Option<(u8, &[u8])>
    ensures { IfSome result (λ found. octets.now ≡ 16 ∷ found.0 ∷ found.1.now) }
{
    match octets {
        [WHOLE_1, count, behind @ ..] => Some((*count, behind)),
        _ => None,
    }
}

// The bytes of `count` items of equal size.
#[derive(Clone, Copy)]
pub(crate) struct Counted<'a> {
    pub(crate) count: u64,
    pub(crate) octets: &'a [u8],
}

#[inline(always)]
#[tactic(auto, unfolding(crate::specs::Objects::content, crate::specs::Objects::count_of_content))]
pub(crate) fn content(octets: &[u8], low: u8, unit: usize) -> Read<'_, Counted<'_>>
    requires some { 0 < unit }
    requires few { unit ≤ 16 }
    ensures read { Gives (λ p. (p.0.count, p.0.octets.now, p.1.now)) result
        (content unit low octets.entry.now) }
    ensures whole { IfOk result (λ p. length p.0.octets.now ≡ p.0.count * unit) }
    ensures octets { IfOk result (λ p. AreOctets p.0.octets.now) }
{
    if low < 15 {
        return items(octets, usize::from(low), unit);
    }
    if let Some((count, behind)) = short_count(octets) {
        return items(behind, usize::from(count), unit);
    }
    let (count, octets) = count_spelled(octets)?;
    if count > (octets.len() / unit) as u128 {
        return Err(ObjectFault::CutObject);
    }
    items(octets, count as usize, unit)
}

// Splits off `count` items of `unit` bytes each.
#[inline(always)]
fn items(octets: &[u8], count: usize, unit: usize) -> Read<'_, Counted<'_>>
    requires { count * unit < 2 ^ 64 }
    ensures read { Gives (λ p. (p.0.octets.now, p.1.now)) result
        (cut (count * unit) octets.entry.now) }
    ensures count { IfOk result (λ p. p.0.count ≡ count) }
    ensures whole { IfOk result (λ p. length p.0.octets.now ≡ p.0.count * unit) }
    ensures octets { IfOk result (λ p. AreOctets p.0.octets.now) }
{
    let (octets, rest) = cut(octets, count * unit)?;
    Ok((
        Counted {
            count: count as u64,
            octets,
        },
        rest,
    ))
}
