//! Prints explanations.
ghost use Rattle.std.specs.Prelude.{◌≡◌, ◌++◌, IfOk, OnOk, find, flat_map};
ghost use Rattle.std.specs.Prelude.{map, option_map, string_bytes};
ghost use Rattle.plist_explain.specs.Topics.{all_lines, entry_named, entry_of};
ghost use Rattle.plist_explain.specs.Topics.{explained, explanation_of, line_of};
ghost use Rattle.plist_explain.specs.Topics.{is_named, refusal_entries, rule_entries};

use crate::naming::word_in;
use crate::refusals::REFUSALS;
use crate::rules::RULES;
use crate::topics::Topic;
use std::alloc::{AllocError, Global};

/// Returns the explanation of the refusal or rule that the text names by its first word, such as
/// `14`, `duplicatekey` or `C5`. The text may also be a printed line that reports one, such as
/// `Info.plist: refused 14 DuplicateKey at object 0` or `broken C5 at object 0`. Returns `None` if
/// it names none.
///
/// # Errors
///
/// [`AllocError`] if out of memory.
pub fn explanation(alloc: Global, text: &str) -> Result<Option<String>, AllocError>
    ensures { IfOk result (λ found. option_map string_bytes found ≡ explanation_of text.now) }
{
    match find(word_in(text)) {
        Some(topic) => Ok(Some(explain(alloc, topic)?)),
        None => Ok(None),
    }
}

/// Returns a line for each refusal and each rule.
///
/// # Errors
///
/// [`AllocError`] if out of memory.
pub fn list(alloc: Global) -> Result<String, AllocError>
    ensures { IfOk result (λ text. string_bytes text ≡ all_lines) }
{
    let mut text = String::new(alloc);
    push_lines(&mut text, alloc, refusals())?;
    push_lines(&mut text, alloc, rules())?;
    Ok(text)
}

fn refusals() -> &'static [Topic]
    ensures { map entry_of result.now ≡ refusal_entries }
{
    &REFUSALS
}

fn rules() -> &'static [Topic]
    ensures { map entry_of result.now ≡ rule_entries }
{
    &RULES
}

fn find(word: &str) -> Option<&'static Topic>
    ensures { option_map (λ topic. entry_of topic.now) result ≡ entry_named word.now }
{
    find_in(refusals(), word).or(find_in(rules(), word))
}

// Returns the first of the topics that the word names.
fn find_in<'a>(topics: &'a [Topic], word: &str) -> Option<&'a Topic>
    ensures { option_map (λ topic. entry_of topic.now) result
        ≡ find (λ entry. is_named entry.subject word.now) (map entry_of topics.now) }
{
    topics.iter().find(|topic| topic.0.is_named(word))
}

// Appends a line for each of the topics.
fn push_lines(text: &mut String, alloc: Global, topics: &[Topic]) -> Result<(), AllocError>
    ensures { OnOk result (string_bytes text.new
        ≡ string_bytes text.old ++ flat_map line_of (map entry_of topics.now)) }
{
    for topic in topics.iter() {
        let line = line(alloc, topic)?;
        text.push_str(line.as_str())?;
    }
    Ok(())
}

// Returns the topic's line, an empty line, and its text.
fn explain(alloc: Global, topic: &Topic) -> Result<String, AllocError>
    ensures { IfOk result (λ text. string_bytes text ≡ explained (entry_of topic.now)) }
{
    let (subject, meaning, text) = *topic;
    format!(in alloc; "{subject}: {meaning}\n\n{text}\n")
}

// Returns the topic in one line.
fn line(alloc: Global, topic: &Topic) -> Result<String, AllocError>
    ensures { IfOk result (λ text. string_bytes text ≡ line_of (entry_of topic.now)) }
{
    let (subject, meaning, _) = *topic;
    format!(in alloc; "{subject}: {meaning}\n")
}
