//! What holds of the definitions alone. Each law is the contract of a function that does nothing.
ghost use Rattle.ostep_text.specs.Laws.{OneValue, FaultyIsNoText, WrittenIsText};

/// No bytes are a text of two values.
pub fn one_value()
    ensures { OneValue }
{
    ostep_lex::laws::one_lexing();
}

/// Bytes of which a fault is true are not a text of any value.
pub fn faulty_is_no_text()
    ensures { FaultyIsNoText }
{
    ostep_lex::laws::one_lexing();
    ostep_lex::laws::faulty_has_none();
}

/// The text written for a value within the limits is a text of that value and does not begin with
/// `bplist`. It has at most 1 byte plus three per byte of payload and five per node.
pub fn written_is_text()
    ensures { WrittenIsText }
{}
