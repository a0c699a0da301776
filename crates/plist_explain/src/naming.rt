//! The word of a text that names what is to be explained.
ghost use Rattle.std.specs.Prelude.{◌≡◌};
ghost use Rattle.plist_explain.specs.Topics.{is_mark, word_in};

// Returns the word that names the topic: the first word of the text, or the word after the last
// `refused` or `broken` if the text is a printed line, such as `broken C5 at object 0`. White
// space around the words is skipped.
pub(crate) fn word_in(text: &str) -> &str
    ensures { result.now ≡ word_in text.now }
{
    let mut named = "";
    let mut is_next = true;
    for word in text.split_ascii_whitespace() {
        if is_next {
            named = word;
        }
        is_next = is_mark(word);
    }
    named
}

// Returns whether the next word says what was found.
fn is_mark(word: &str) -> bool
    ensures { result ≡ is_mark word.now }
{
    word == "refused" || word == "broken"
}
