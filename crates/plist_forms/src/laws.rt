//! What holds of all accepted inputs. Each law is the contract of a function that only calls the
//! laws it builds on.
ghost use Rattle.plist_forms.specs.Laws.{AreLimits, CanonicalIsAccepted, Headline, OneValue};
ghost use Rattle.plist_forms.specs.Laws.{WrittenIsAccepted};

/// The limits: 16,777,216 nodes, 512 levels and 1,073,741,824 bytes of payload for a value, and
/// 4,294,967,295 bytes for an input.
pub fn limits()
    ensures { AreLimits }
{}

/// No input encodes two values.
pub fn one_value()
    ensures { OneValue }
{
    plist_object::laws::one_value_at_top();
    ostep_text::laws::one_value();
}

/// The canonical file of every value within the limits begins with `bplist`, is accepted, and
/// encodes that value.
pub fn canonical_is_accepted()
    ensures { CanonicalIsAccepted }
{
    plist_write::laws::canonical_spells_its_value();
}

/// If a value within the limits has an OpenStep text, that text is accepted and encodes the value.
pub fn written_is_accepted()
    ensures { WrittenIsAccepted }
{
    ostep_text::laws::written_is_text();
}

/// For any two accepted inputs, the canonical files are equal byte for byte if and only if the
/// values are equal. Each canonical file is itself accepted, encodes the value of its source, and
/// is its own canonical file.
pub fn headline()
    ensures { Headline }
{
    one_value();
    canonical_is_accepted();
    plist_write::laws::canonical_tells_values_apart();
}
