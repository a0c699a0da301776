//! The lines of the program for several inputs.
use crate::octets::shown;
use crate::row::Row;
use plist_convert::{FileDisk, run_on};
use plist_devices::{ListSink, ListSource};
use plist_value::FixedHasher;
use std::alloc::{AllocError, Global};
use test_files::memory_files::MemoryFiles;

// The maximum number of bytes of the lines, and of a piece of them.
const ROOM: usize = 4096;

// Returns the line for a command on the inputs as files: what it prints, and the exit status.
pub(crate) fn answer_several(alloc: Global, word: &str, row: &Row) -> Result<String, AllocError> {
    let mut files = MemoryFiles::new(alloc);
    let mut words = Vec::new(alloc);
    words.push("plistconv")?;
    words.push(word)?;
    for (index, input) in row.inputs.iter().enumerate() {
        let path = path_of(index);
        words.push(path)?;
        files.put(alloc, path, Vec::from_slice(alloc, input.as_slice())?)?;
    }
    let mut disk = FileDisk::over(files, FixedHasher::new());
    let mut input = ListSource::new(b"", 1, None);
    let mut output = ListSink::new(alloc, ROOM, ROOM)?;
    let status = run_on(alloc, &mut disk, words.as_slice(), &mut input, &mut output);
    format!(in alloc; "{}: {} (status {status})", row.name, shown(output.taken()))
}

// Returns the path of an input: a letter for each of the first four.
fn path_of(index: usize) -> &'static str {
    match index {
        0 => "a",
        1 => "b",
        2 => "c",
        _ => "d",
    }
}
