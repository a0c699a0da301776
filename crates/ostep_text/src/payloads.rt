//! The payload of strings and data.
ghost use Rattle.std.specs.Prelude.{◌≡◌, ◌*◌, length};
ghost use Rattle.plist_value.specs.Plist.{AreOctets};
ghost use Rattle.plist_value.specs.Texts.{units_of};

use plist_value::TextRef;

// Returns the payload of a string: two bytes for each unit.
pub(crate) fn text_payload(text: TextRef<'_>) -> u128
    ensures { result ≡ 2 * length (units_of text.entry) }
{
    2 * text.len() as u128
}

// Returns the payload of data: its length.
pub(crate) fn data_payload(octets: &[u8]) -> u128
    ensures payload { result ≡ length octets.now }
    ensures valid { AreOctets octets.now }
{
    octets.len() as u128
}
