//! Rows of arguments: `ARGUMENTS|STATUS PRINTED`.
use std::alloc::{AllocError, Global};

// Returns the arguments of a row, which single spaces separate, after the name of the program.
pub(crate) fn words_of(alloc: Global, row: &str) -> Result<Vec<&str>, AllocError> {
    let (line, _) = row.split_once('|').unwrap_or((row, ""));
    let mut words = Vec::new(alloc);
    words.push("plistconv")?;
    for word in line.split(' ') {
        words.push(word)?;
    }
    Ok(words)
}

// Returns the exit status, or an error if the run was out of memory.
pub(crate) fn with_memory(status: u8) -> Result<u8, AllocError> {
    if status == 5 {
        return Err(AllocError);
    }
    Ok(status)
}

// Returns what a row expects to be printed, or `None` if it expects another status.
pub(crate) fn printed_of(row: &str, status: u8) -> Option<&[u8]> {
    let (_, answer) = row.split_once('|')?;
    let (code, printed) = answer.split_once(' ')?;
    if code.parse::<u8>() == Ok(status) {
        Some(printed.as_bytes())
    } else {
        None
    }
}
