//! The numbers by which reals are printed.
ghost use Rattle.std.specs.Prelude.{◌≤◌};

// A decimal: its numerator, and the number of digits after the decimal point.
#[derive(Clone, Copy)]
pub(crate) struct Decimal {
    pub(crate) numerator: u128,
    pub(crate) digits: u32,
    ghost few: { digits ≤ 21 },
}

// A format of reals: single or double precision of IEEE 754. A real stands here for the number that
// its bits are, and its exponent is the biased one.
#[derive(Clone, Copy)]
pub(crate) struct Format {
    // The size in bytes.
    pub(crate) octets: usize,
    // The bit of the sign.
    pub(crate) sign: u64,
    // The least normal real, and so the bit that all normal reals have and none stores.
    pub(crate) hidden: u64,
    // Infinity.
    pub(crate) infinite: u64,
    // 1 is 2^`one` times the least real above 0.
    pub(crate) one: u64,
    // Reals with an exponent below this can be printed as decimals.
    pub(crate) to: u64,
}

// Single precision.
pub(crate) const SINGLE: Format = Format {
    octets: 4,
    sign: 0x8000_0000,
    hidden: 0x80_0000,
    infinite: 0x7f80_0000,
    one: 149,
    to: 152,
};

// Double precision.
pub(crate) const DOUBLE: Format = Format {
    octets: 8,
    sign: 0x8000_0000_0000_0000,
    hidden: 0x10_0000_0000_0000,
    infinite: 0x7ff0_0000_0000_0000,
    one: 1074,
    to: 1077,
};
