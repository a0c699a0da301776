//! Laws of the definitions alone. Each law is the contract of a function that does nothing.
ghost use Rattle.ostep_lex.specs.Laws.{OneLexing, SpansSpell, TokensContinue, FaultyHasNone};

/// No bytes have two lists of tokens.
pub fn one_lexing()
    ensures { OneLexing }
{}

/// Tokens follow one another, with gaps before, between and after them, and the bytes of each span
/// encode its token.
pub fn spans_spell()
    ensures { SpansSpell }
{}

/// The tokens at the start of the bytes are the first of all their tokens.
pub fn tokens_continue()
    ensures { TokensContinue }
{}

/// Bytes with a fault have no tokens.
pub fn faulty_has_none()
    ensures { FaultyHasNone }
{}
