//! The value of an input, shown as its canonical file and its OpenStep text, or its refusal.
use crate::octets::shown;
use ostep_text::write_text;
use plist_canon::{Verdict, canonical, check};
use plist_devices::ListSink;
use plist_forms::{
    Fault, PairFault, begins_as_binary, canonicalise, judge_any, line, read_any, same_files,
    write_openstep,
};
use std::alloc::{AllocError, Global};
use std::fmt::Write;

// The maximum number of bytes of a written text.
const ROOM: usize = 65_536;

// Returns the line for the value, or for the refusal. If the calls of the library disagree, the
// line says so.
pub(crate) fn answer_value(alloc: Global, name: &str, octets: &[u8]) -> Result<String, AllocError> {
    let mut said = match read_any(alloc, octets) {
        Ok(value) => {
            let file = canonical(alloc, &value)?;
            let mut said = format!(in alloc; "{name}: {}", shown(file.as_slice()))?;
            match write_text(alloc, &value) {
                Ok(text) => {
                    write!(said, "; {}", shown(text.as_slice()))?;
                    let is_whole = is_sent(alloc, octets, Ok(text.as_slice()))?;
                    put_unless(
                        &mut said,
                        is_whole && is_file_of(alloc, text.as_slice(), file.as_slice()),
                    )?;
                }
                Err(fault) => {
                    write!(said, "; refused {fault} ({})", fault.code())?;
                    put_unless(&mut said, is_sent(alloc, octets, Err(fault.code()))?)?;
                }
            }
            put_unless(&mut said, is_file_of(alloc, octets, file.as_slice()))?;
            said
        }
        Err(fault) => {
            let mut said = line(alloc, name, &fault)?;
            write!(said, " ({}, status {})", fault.code(), fault.status())?;
            let is_unsent = is_sent(alloc, octets, Err(fault.code()))?;
            put_unless(&mut said, is_unsent && is_refused(alloc, octets, fault))?;
            said
        }
    };
    if begins_as_binary(octets) {
        put_verdict(&mut said, alloc, octets)?;
    }
    Ok(said)
}

fn put_unless(said: &mut String, agrees: bool) -> Result<(), AllocError> {
    if agrees {
        Ok(())
    } else {
        write!(said, "; other calls answer otherwise")
    }
}

// Returns whether every call takes the input as an encoding of the value with this canonical file.
fn is_file_of(alloc: Global, octets: &[u8], file: &[u8]) -> bool {
    let is_own = |octets: &[u8]| match canonicalise(alloc, octets) {
        Ok(own) => own.as_slice() == file,
        Err(_) => false,
    };
    judge_any(alloc, octets).is_ok()
        && is_own(octets)
        && is_own(file)
        && same_files(alloc, octets, file) == Ok(true)
        && same_files(alloc, octets, b"(rows)") == Ok(false)
        && check(alloc, file) == Ok(Verdict::Canonical)
}

// Returns whether the OpenStep text of the value is sent, or nothing for the number of a refusal.
fn is_sent(alloc: Global, octets: &[u8], text: Result<&[u8], u8>) -> Result<bool, AllocError> {
    let mut sink = ListSink::new(alloc, ROOM, ROOM)?;
    let sent = write_openstep(alloc, octets, &mut sink);
    Ok(match text {
        Ok(text) => sent == Ok(text.len() as u64) && sink.taken() == text,
        Err(code) => sent.map_err(|fault| fault.code()) == Err(code) && sink.taken().is_empty(),
    })
}

// Returns whether every call refuses the input with this fault, as the first and as the second of
// two files.
fn is_refused(alloc: Global, octets: &[u8], fault: Fault) -> bool {
    judge_any(alloc, octets) == Err(fault)
        && canonicalise(alloc, octets).err() == Some(fault)
        && same_files(alloc, octets, b"bplist") == Err(PairFault::First(fault))
        && same_files(alloc, b"{b=a;a=b;}", octets) == Err(PairFault::Second(fault))
}

// Appends whether the binary file is canonical.
fn put_verdict(said: &mut String, alloc: Global, octets: &[u8]) -> Result<(), AllocError> {
    match check(alloc, octets) {
        Ok(Verdict::Canonical) => write!(said, "; canonical"),
        Ok(Verdict::Broken { rule, object }) => {
            write!(said, "; broken C{rule} at object {object}")
        }
        Err(fault) => write!(said, "; check refused {fault} ({})", fault.code()),
    }
}
