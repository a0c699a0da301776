//! Laws that hold of all canonical files. Each law is the contract of a function with an empty
//! body.
ghost use Rattle.plist_write.specs.Laws.{CanonSpellsItsValue, CanonTellsValuesApart, CanonIsShort};

/// The canonical file of a value within the limits is a binary file that encodes the value.
pub fn canonical_spells_its_value()
    ensures { CanonSpellsItsValue }
{}

/// Two values within the limits are equal if and only if their canonical files are identical.
pub fn canonical_tells_values_apart()
    ensures { CanonTellsValuesApart }
{}

/// The canonical file of a value within the limits has at most 40 bytes, plus one for each byte of
/// the payload, plus 25 for each node.
pub fn canonical_is_short()
    ensures { CanonIsShort }
{}
