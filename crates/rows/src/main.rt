//! Rows: an input, a question about it, and the line that answers it.
//!
//! Standard input has a row in each line: `NAME QUESTION FORM OCTETS`, as described at
//! [`row::Row::read`]; `#` begins a comment. For each row a line is printed that begins with its
//! name. `stdout` has the expected lines.
#![tactic(auto)]

mod answers;
mod octets;
mod row;
mod several;
mod values;

use answers::answer;
use row::Row;
use std::io;

fn main(rt: HostRuntime) -> io::Result<()> {
    let alloc = rt.alloc();
    for line in rt.lines(alloc) {
        let line = line?;
        if line.is_empty() || line.starts_with('#') {
            continue;
        }
        match Row::read(alloc, line.as_str())? {
            Some(row) => println!(rt; "{}", answer(alloc, &row)?)?,
            None => println!(rt; "not a row: {line}")?,
        }
    }
    Ok(())
}
