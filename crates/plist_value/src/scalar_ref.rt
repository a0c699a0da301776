//! Borrowed scalars.
ghost use Rattle.std.specs.Prelude.{◌≡◌, ◌↔◌, IsSome, IsNone, IfSome, fold, ◌++◌, ◌∷◌, []};
ghost use Rattle.std.specs.Hash as fed;
ghost use Rattle.std.specs.Ordering.{on};
ghost use Rattle.std.specs.Cmp.{partial_equiv_from_equiv, on_equiv};
ghost use Rattle.std.specs.Hash.{on_Alike};
ghost use Rattle.plist_value.specs.Equality.{scalar_eq, fed_scalar};
ghost use Rattle.plist_value.specs.EqualityLaws.{scalar_eq-equiv, scalar_eq-fed};
ghost use Rattle.plist_value.specs.Scalars.{content_of};

use crate::{TextRef, Value, Whole};
use std::hash::{Hash, Hasher};

/// A value that contains no other, borrowed from a `Value` or from the bytes of a file. Two are
/// equal if they have the same kind and the same content, and then they hash alike, so they can be
/// keys of a map.
#[derive(Clone, Copy, Debug)]
pub enum ScalarRef<'a> {
    /// A string, as UTF-16 units.
    Text(TextRef<'a>),
    /// An integer from -2^63 to 2^64 - 1.
    Whole(Whole),
    /// A boolean.
    Flag(bool),
    /// A real of four bytes, as in a file.
    Real4([u8; 4]),
    /// A real of eight bytes, as in a file.
    Real8([u8; 8]),
    /// A date, as the eight bytes in a file.
    Moment([u8; 8]),
    /// Data, as bytes.
    Bytes(&'a [u8]),
}

impl<'a> ScalarRef<'a> {
    ghost use Rattle.plist_value.specs.Limits.{payload_of_scalar};
    ghost use Rattle.plist_value.specs.Plist.{IsContainer, IsScalar, scalar};
    ghost use Rattle.plist_value.specs.Plist.{real4, real8, moment, bytes};
    ghost use Rattle.plist_value.specs.View.{view};

    /// Returns the value as a scalar, or `None` if and only if it is an array or a dictionary.
    pub fn of(value: &'a Value) -> Option<ScalarRef<'a>>
        ensures container { IsNone result ↔ IsContainer (view value.entry.now) }
        ensures content { IfSome result (λ s. view value.entry.now ≡ scalar (content_of s)) }
        ensures valid { IfSome result (λ s. IsScalar (content_of s)) }
    {
        match value {
            Value::Text(text) => Some(ScalarRef::Text(TextRef::of_units(text.units()))),
            Value::Whole(whole) => Some(ScalarRef::Whole(*whole)),
            Value::Flag(flag) => Some(ScalarRef::Flag(*flag)),
            Value::Real4(octets) => Some(ScalarRef::real4(*octets)),
            Value::Real8(octets) => Some(ScalarRef::real8(*octets)),
            Value::Moment(octets) => Some(ScalarRef::moment(*octets)),
            Value::Bytes(octets) => Some(ScalarRef::data(octets.as_slice())),
            Value::List(_) | Value::Table(_) => None,
        }
    }

    /// Returns the payload in bytes: two for each UTF-16 unit of a string, one for each byte of
    /// data, and none for any other scalar. Reads no string and no data.
    pub fn payload(&self) -> u128
        ensures { result ≡ payload_of_scalar (content_of self.now) }
    {
        match self {
            ScalarRef::Text(text) => 2 * text.len() as u128,
            ScalarRef::Bytes(octets) => octets.len() as u128,
            _ => 0,
        }
    }

    fn real4(octets: [u8; 4]) -> ScalarRef<'a>
        ensures content { content_of result ≡ real4 octets }
        ensures valid { IsScalar (content_of result) }
    {
        ScalarRef::Real4(octets)
    }

    fn real8(octets: [u8; 8]) -> ScalarRef<'a>
        ensures content { content_of result ≡ real8 octets }
        ensures valid { IsScalar (content_of result) }
    {
        ScalarRef::Real8(octets)
    }

    fn moment(octets: [u8; 8]) -> ScalarRef<'a>
        ensures content { content_of result ≡ moment octets }
        ensures valid { IsScalar (content_of result) }
    {
        ScalarRef::Moment(octets)
    }

    fn data(octets: &'a [u8]) -> ScalarRef<'a>
        ensures content { content_of result ≡ bytes octets.entry.now }
        ensures valid { IsScalar (content_of result) }
    {
        ScalarRef::Bytes(octets)
    }
}

// Compares kind and content, from wherever each is borrowed.
impl<'a> PartialEq for ScalarRef<'a> {
    ghost eq = { on content_of scalar_eq };

    ghost laws = { partial_equiv_from_equiv (on_equiv content_of scalar_eq-equiv) };

    fn eq(&self, other: &Self) -> bool {
        match (self, other) {
            (ScalarRef::Text(text), ScalarRef::Text(other)) => text == other,
            (ScalarRef::Whole(whole), ScalarRef::Whole(other)) => whole == other,
            (ScalarRef::Flag(flag), ScalarRef::Flag(other)) => flag == other,
            (ScalarRef::Real4(octets), ScalarRef::Real4(other)) => octets == other,
            (ScalarRef::Real8(octets), ScalarRef::Real8(other)) => octets == other,
            (ScalarRef::Moment(octets), ScalarRef::Moment(other)) => octets == other,
            (ScalarRef::Bytes(octets), ScalarRef::Bytes(other)) => octets == other,
            _ => false,
        }
    }
}

impl<'a> Eq for ScalarRef<'a> {
    ghost laws = { on_equiv content_of scalar_eq-equiv };
}

// Hashes the content and the kind alone. The kind comes last, so that a hasher that takes eight
// bytes at a time is fed whole words before it. The last byte of a string is above the kinds of
// all other scalars. Bytes are fed in one write.
impl<'a> Hash for ScalarRef<'a> {
    ghost hash_input = { λ scalar. fed_scalar (content_of scalar) };

    ghost respects_eq = { (on_Alike content_of scalar_eq-fed).fed };

    fn hash<H: Hasher>(&self, state: &mut H) {
        match self {
            ScalarRef::Text(text) => text.hash(state),
            ScalarRef::Whole(whole) => hash_content(whole, 1, state),
            ScalarRef::Flag(flag) => hash_content(flag, 2, state),
            ScalarRef::Real4(octets) => hash_octets(octets, 3, state),
            ScalarRef::Real8(octets) => hash_octets(octets, 4, state),
            ScalarRef::Moment(octets) => hash_octets(octets, 5, state),
            ScalarRef::Bytes(octets) => hash_octets(octets, 6, state),
        }
    }
}

fn hash_content<T: Hash, H: Hasher>(content: &T, kind: u8, state: &mut H)
    ensures { state.new ≡ fold H.write state.old (T.hash_input content.now ++ fed.u8 kind) }
{
    content.hash(state);
    state.write_u8(kind);
}

fn hash_octets<H: Hasher>(octets: &[u8], kind: u8, state: &mut H)
    ensures { state.new ≡ fold H.write state.old (octets.now ∷ fed.u8 kind) }
{
    state.write(octets);
    state.write_u8(kind);
}
