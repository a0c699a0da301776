//! The classes of characters.
ghost use Rattle.std.specs.Prelude.{◌≡◌};
ghost use Rattle.ostep_lex.specs.Character.{is_white, is_line_end, is_run, is_quote};

/// Returns whether the character is whitespace: U+0009 to U+000D, U+0020, U+2028 or U+2029 (our
/// profile).
pub fn is_white(c: char) -> bool
    ensures { result ≡ is_white c }
{
    matches!(c, '\u{9}'..='\u{d}' | ' ' | '\u{2028}' | '\u{2029}')
}

/// Returns whether the character ends a line: U+000A, U+000D, U+2028 or U+2029 (our profile).
pub fn is_line_end(c: char) -> bool
    ensures { result ≡ is_line_end c }
{
    matches!(c, '\n' | '\r' | '\u{2028}' | '\u{2029}')
}

/// Returns whether the character may occur in an unquoted string.
pub fn is_run(c: char) -> bool
    ensures { result ≡ is_run c }
{
    c.is_ascii_alphanumeric() || matches!(c, '$' | '-'..='/' | ':' | '_')
}

/// Returns whether the character begins and ends a quoted string.
pub fn is_quote(c: char) -> bool
    ensures { result ≡ is_quote c }
{
    matches!(c, '"' | '\'')
}
