//! Units as machine words, as they are fed to hashers.
ghost use Rattle.std.specs.Prelude.{◌≡◌, slice_index, fold};
ghost use Rattle.plist_value.specs.Hashes.{fed_text, fed_units, seven_and, word};

use std::hash::Hasher;

// Returns the four units as one number, the first in the lowest bits.
#[inline(always)]
pub(crate) fn word(a: u16, b: u16, c: u16, d: u16) -> u64
    ensures { result ≡ word a b c d }
{
    let low = u32::from(a) + 65_536 * u32::from(b);
    let high = u32::from(c) + 65_536 * u32::from(d);
    u64::from(low) + 4_294_967_296 * u64::from(high)
}

// Feeds the units to the hasher: four in each write, and the rest in a last one.
pub(crate) fn feed<H: Hasher>(units: &[u16], state: &mut H)
    ensures { state.new ≡ fold H.write state.old (fed_units units.now) }
{
    let mut rest = units;
    while let [a, b, c, d, behind @ ..] = rest {
        state.write_u64(word(*a, *b, *c, *d));
        rest = behind;
    }
    match rest {
        [] => {}
        [a] => state.write_u64(word(*a, 0, 0, 0)),
        [a, b] => state.write_u64(word(*a, *b, 0, 0)),
        [a, b, c, ..] => state.write_u64(word(*a, *b, *c, 0)),
    }
}

// Feeds the bytes, one for each unit, to the hasher: eight in each write, and the rest in a last
// one.
pub(crate) fn feed_octets<H: Hasher>(octets: &[u8], state: &mut H)
    ensures { state.new ≡ fold H.write state.old (fed_text octets.now) }
{
    let mut rest = octets;
    while rest.len() >= 8 {
        let (eight, behind) = rest.split_at(8);
        state.write(eight);
        rest = behind;
    }
    state.write(&seven_and(rest, 128 + rest.len() as u8));
}

// Returns the first seven bytes, zeros after the end, and then `last`.
fn seven_and(octets: &[u8], last: u8) -> [u8; 8]
    ensures { result ≡ seven_and octets.now last }
{
    [
        octet(octets, 0),
        octet(octets, 1),
        octet(octets, 2),
        octet(octets, 3),
        octet(octets, 4),
        octet(octets, 5),
        octet(octets, 6),
        last,
    ]
}

// Returns the byte at position `i`, or 0 after the end.
fn octet(octets: &[u8], i: usize) -> u8
    ensures { result ≡ slice_index octets.now i }
{
    if i < octets.len() { octets[i] } else { 0 }
}
