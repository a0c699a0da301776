//! The header of a file, and the markers of objects (CFBinaryPList.c).

/// The first 8 bytes of a file.
pub const HEADER: [u8; 8] = *b"bplist00";

// The kinds of objects: the high 4 bits of a marker.
pub(crate) const SIMPLE: u8 = 0x0;

pub(crate) const WHOLE: u8 = 0x1;

pub(crate) const REAL: u8 = 0x2;

pub(crate) const MOMENT: u8 = 0x3;

pub(crate) const DATA: u8 = 0x4;

pub(crate) const ASCII: u8 = 0x5;

pub(crate) const WIDE: u8 = 0x6;

pub(crate) const UID: u8 = 0x8;

/// The high 4 bits of the marker of an array.
pub const LIST: u8 = 0xa;

pub(crate) const SET: u8 = 0xc;

/// The high 4 bits of the marker of a dictionary.
pub const TABLE: u8 = 0xd;

// Complete markers: null, false and true, integers of `n` bytes (`WHOLE_n`), reals of 4 and of 8
// bytes, and dates.
pub(crate) const NULL: u8 = 0x00;

pub(crate) const FALSE: u8 = 0x08;

pub(crate) const TRUE: u8 = 0x09;

pub(crate) const WHOLE_1: u8 = 0x10;

pub(crate) const WHOLE_2: u8 = 0x11;

pub(crate) const WHOLE_4: u8 = 0x12;

pub(crate) const WHOLE_8: u8 = 0x13;

pub(crate) const WHOLE_16: u8 = 0x14;

pub(crate) const REAL_4: u8 = 0x22;

pub(crate) const REAL_8: u8 = 0x23;

pub(crate) const MOMENT_8: u8 = 0x33;

// The low 4 bits of the marker of a real or a date of 4 and of 8 bytes.
pub(crate) const FOUR_OCTETS: u8 = 0x2;

pub(crate) const EIGHT_OCTETS: u8 = 0x3;
