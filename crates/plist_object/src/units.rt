//! Appends the units of strings, without marker and count.
ghost use Rattle.std.specs.Prelude.{◌≡◌, length, nat_lt, true};
ghost use Rattle.std.specs.List.{list_all};
ghost use Rattle.plist_object.specs.Appending.{Appends, HasRoom};
ghost use Rattle.plist_object.specs.Spelling.{references};
ghost use Rattle.plist_value.specs.Texts.{units_of};

use crate::reserved::{push_octet, push_octets, push_two};
use plist_value::TextRef;

/// Appends each unit as one byte.
pub fn push_ascii(out: &mut Vec<u8>, text: &TextRef)
    requires ascii { list_all (λ unit. nat_lt unit 128) (units_of text.now) ≡ true }
    requires room { HasRoom out.old (length (units_of text.now)) }
    ensures { Appends out.old out.new (units_of text.now) }
{
    if let Some(octets) = text.octets() {
        push_octets(out, octets);
    } else {
        push_low_octets(out, text);
    }
}

// Works for strings in every form, unit by unit.
fn push_low_octets(out: &mut Vec<u8>, text: &TextRef)
    requires ascii { list_all (λ unit. nat_lt unit 128) (units_of text.now) ≡ true }
    requires room { HasRoom out.old (length (units_of text.now)) }
    ensures { Appends out.old out.new (units_of text.now) }
{
    let text = *text;
    for i in 0..text.len() {
        push_octet(out, text.unit(i) as u8);
    }
}

/// Appends each unit as two bytes.
pub fn push_wide(out: &mut Vec<u8>, text: &TextRef)
    requires { HasRoom out.old (length (references 2 (units_of text.now))) }
    ensures { Appends out.old out.new (references 2 (units_of text.now)) }
{
    let text = *text;
    for i in 0..text.len() {
        push_two(out, text.unit(i));
    }
}
