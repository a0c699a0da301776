//! Appends bytes and numbers to vectors whose capacity is already reserved.
ghost use Rattle.std.specs.Prelude.{◌<◌, ◌≤◌, ◌^◌, [], ◌∷◌, length};
ghost use Rattle.byteorder.specs.Endian.{big_bytes};
ghost use Rattle.plist_object.specs.Appending.{Appends, HasRoom};

use byteorder::{BigEndian, ByteOrder};

pub(crate) fn push_octet(out: &mut Vec<u8>, octet: u8)
    requires { HasRoom out.old 1 }
    ensures { Appends out.old out.new (octet ∷ []) }
{
    out.push_reserved(octet);
}

pub(crate) fn push_octets(out: &mut Vec<u8>, octets: &[u8])
    requires { HasRoom out.old (length octets.now) }
    ensures { Appends out.old out.new octets.now }
{
    out.extend_from_slice(octets).unwrap();
}

// Appends the number in `width` bytes, big-endian.
pub(crate) fn push_number(out: &mut Vec<u8>, n: u64, width: u8)
    requires width_least { 1 ≤ width }
    requires width_most { width ≤ 8 }
    requires fits { n < 256 ^ width }
    requires room { HasRoom out.old width }
    ensures { Appends out.old out.new (big_bytes width n) }
{
    match width {
        1 => push_octet(out, n as u8),
        2 => push_two(out, n as u16),
        4 => push_four(out, n as u32),
        _ => push_digits(out, n, usize::from(width)),
    }
}

pub(crate) fn push_two(out: &mut Vec<u8>, n: u16)
    requires { HasRoom out.old 2 }
    ensures { Appends out.old out.new (big_bytes 2 n) }
{
    let mut digits = [0; 2];
    BigEndian::write_u16(&mut digits, n);
    push_octets(out, &digits);
}

fn push_four(out: &mut Vec<u8>, n: u32)
    requires { HasRoom out.old 4 }
    ensures { Appends out.old out.new (big_bytes 4 n) }
{
    let mut digits = [0; 4];
    BigEndian::write_u32(&mut digits, n);
    push_octets(out, &digits);
}

fn push_digits(out: &mut Vec<u8>, n: u64, width: usize)
    requires width_least { 1 ≤ width }
    requires width_most { width ≤ 8 }
    requires fits { n < 256 ^ width }
    requires room { HasRoom out.old width }
    ensures { Appends out.old out.new (big_bytes width n) }
{
    let mut digits = [0; 8];
    BigEndian::write_uint(&mut digits, n, width);
    push_octets(out, &digits[..width]);
}
