//! A row: its name, its question and its input.
use crate::octets::spelled;
use std::alloc::{AllocError, Global};
use test_files::{Draft, file};

// What is asked of an input.
#[derive(Clone, Copy, Debug)]
pub(crate) enum Question {
    // Its value: the canonical file and the OpenStep text. For a binary file also whether it is
    // canonical.
    Value,
    // The printed text of its value.
    Print,
    // The trailer and the objects of a binary file.
    Layout,
    // The tokens of a text.
    Tokens,
    // How each prefix of it is refused.
    Fronts,
    // The refusal or rule that is explained for it.
    Topic,
    // The lines of `lint` for several inputs, and the status.
    Lint,
    // The lines of `check` for several inputs, and the status.
    Check,
}

impl Question {
    fn of(word: &str) -> Option<Question> {
        match word {
            "value" => Some(Question::Value),
            "print" => Some(Question::Print),
            "layout" => Some(Question::Layout),
            "tokens" => Some(Question::Tokens),
            "fronts" => Some(Question::Fronts),
            "topic" => Some(Question::Topic),
            "lint" => Some(Question::Lint),
            "check" => Some(Question::Check),
            _ => None,
        }
    }
}

// A line of the rows.
#[derive(Drop)]
pub(crate) struct Row<'a> {
    pub(crate) name: &'a str,
    pub(crate) question: Question,
    pub(crate) inputs: Vec<Vec<u8>>,
}

impl<'a> Row<'a> {
    // Parses a line `NAME QUESTION FORM OCTETS`, or returns `None` if it is not a row. The forms:
    //
    // - `text OCTETS`: these bytes;
    // - `file WIDTH OBJECT ..`: the binary file of these objects, with references of `WIDTH`
    //   bytes;
    // - `laid WIDTH OBJECTS ENTRIES`: the binary file of these bytes of objects and these entries
    //   of the offset table, one byte each.
    //
    // The inputs of `lint` and `check` are separated by `&`.
    pub(crate) fn read(alloc: Global, line: &'a str) -> Result<Option<Row<'a>>, AllocError> {
        let Some((name, rest)) = line.split_once(' ') else {
            return Ok(None);
        };
        let Some((word, rest)) = rest.split_once(' ') else {
            return Ok(None);
        };
        let Some(question) = Question::of(word) else {
            return Ok(None);
        };
        let Some(inputs) = inputs_of(alloc, question, rest)? else {
            return Ok(None);
        };
        Ok(Some(Row {
            name,
            question,
            inputs,
        }))
    }

    // Returns the first input.
    pub(crate) fn octets(&self) -> &[u8] {
        match self.inputs.first() {
            Some(octets) => octets.as_slice(),
            None => &[],
        }
    }
}

// Returns the inputs. Only `lint` and `check` have several.
fn inputs_of(
    alloc: Global,
    question: Question,
    text: &str,
) -> Result<Option<Vec<Vec<u8>>>, AllocError> {
    let mut inputs = Vec::new(alloc);
    // A row has no line end, so the input of any other question is not split.
    let mark = match question {
        Question::Lint | Question::Check => '&',
        _ => '\n',
    };
    for part in text.split(mark) {
        let Some(octets) = octets_of(alloc, part)? else {
            return Ok(None);
        };
        inputs.push(octets)?;
    }
    Ok(Some(inputs))
}

// Returns the input for a form and what follows it.
fn octets_of(alloc: Global, text: &str) -> Result<Option<Vec<u8>>, AllocError> {
    let (form, rest) = text.split_once(' ').unwrap_or((text, ""));
    if form == "text" {
        return Ok(Some(spelled(alloc, rest)?));
    }
    let Some((width, rest)) = rest.split_once(' ') else {
        return Ok(None);
    };
    let Ok(width) = width.parse::<u8>() else {
        return Ok(None);
    };
    match form {
        "file" => Ok(Some(file_of(alloc, rest, width)?)),
        "laid" => laid(alloc, rest, width),
        _ => Ok(None),
    }
}

// Returns the file of the objects, which are separated by spaces.
fn file_of(alloc: Global, objects: &str, width: u8) -> Result<Vec<u8>, AllocError> {
    let mut draft = Draft::new(alloc)?;
    for object in objects.split(' ') {
        draft.put(spelled(alloc, object)?.as_slice())?;
    }
    draft.finish(1, width)
}

// Returns the file of the bytes of objects and, after a space, the entries.
fn laid(alloc: Global, text: &str, width: u8) -> Result<Option<Vec<u8>>, AllocError> {
    let Some((objects, entries)) = text.split_once(' ') else {
        return Ok(None);
    };
    let objects = spelled(alloc, objects)?;
    let entries = spelled(alloc, entries)?;
    Ok(Some(file(alloc, objects.as_slice(), entries.as_slice(), width)?))
}
