//! Property lists as values.
ghost use Rattle.std.specs.Prelude.{◌↔◌, IsTrue};
ghost use Rattle.plist_value.specs.Limits.{Fits};
ghost use Rattle.plist_value.specs.View.{view};

use crate::{Utf16, Whole};
use std::collections::BTreeMap;

/// A property list that owns its content.
#[derive(Debug, Drop)]
pub enum Value {
    /// A string, as UTF-16 units.
    Text(Utf16),
    /// An integer from -2^63 to 2^64 - 1.
    Whole(Whole),
    /// A boolean.
    Flag(bool),
    /// A real of four bytes, as in a file.
    Real4([u8; 4]),
    /// A real of eight bytes, as in a file.
    Real8([u8; 8]),
    /// A date: a big-endian `f64`, the number of seconds since 2001-01-01 00:00:00 UTC.
    Moment([u8; 8]),
    /// Data, as bytes.
    Bytes(Vec<u8>),
    /// An array.
    List(Vec<Value>),
    /// A dictionary.
    Table(BTreeMap<Utf16, Value>),
}
