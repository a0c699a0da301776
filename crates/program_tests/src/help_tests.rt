//! The help of the program and of each command.
use crate::host_tests::status_of;
use crate::words::words_of;
use std::test::Fail;

// Returns the number of lines, and the length of the longest.
fn size_of(text: &str) -> (usize, usize) {
    let mut longest = 0;
    for line in text.lines() {
        longest = longest.max(line.len());
    }
    (text.lines().count(), longest)
}

// The arguments, how the help begins, and an example in it.
const ROWS: [&str; 7] = [
    "--help|Converts Apple property lists|plistutil -i IN -f bin -o OUT",
    "convert --help|Writes the property list|Example: plistconv convert binary1 ",
    "same --help|Compares the values|Example: plistconv same ",
    "lint --help|Checks whether a file is a|plutil -convert binary1 -o OUT IN",
    "check --help|Checks whether a file is already|Example: plistconv check ",
    "print --help|Prints the value of a file|Example: plistconv print ",
    "explain --help|Explains a refusal|Example: plistconv explain 14",
];

// Returns whether the help of these arguments fits on a screen, and has these parts and those that
// all have.
fn explains(text: &str, line: &str, front: &str, example: &str) -> bool {
    let (lines, longest) = size_of(text);
    let most = if line == "--help" { 30 } else { 40 };
    for part in [example, "Exit status:", "usage error", "out of memory"] {
        if !text.contains(part) {
            return false;
        }
    }
    lines <= most && longest <= 80 && text.starts_with(front)
}

#[test]
fn each_word_is_explained_on_one_screen(rt: HostRuntime) -> Result<(), Fail> {
    for row in ROWS {
        let (line, parts) = row.split_once('|').ok_or("no front")?;
        let (front, example) = parts.split_once('|').ok_or("no example")?;
        let mut output = Vec::new(rt.alloc());
        let words = words_of(rt.alloc(), line)?;
        let status = status_of(&rt, words.as_slice(), &mut output);
        let text = String::from_utf8(output)?;
        let is_explained = explains(text.as_str(), line, front, example);
        assert!(rt; status == 0 && is_explained, "at {line}");
    }
    Ok(())
}
