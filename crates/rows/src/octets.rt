//! How a row and its answer write bytes: `%` and two digits for `%` and for each byte that is not
//! printable ASCII.
use percent_encoding::{
    AsciiSet, CONTROLS, PercentEncode, ascii_set, percent_decode, percent_encode,
};
use std::alloc::{AllocError, Global};

const ESCAPED: AsciiSet = ascii_set!(CONTROLS.add(b'%'));

// Encodes the bytes for an answer.
pub(crate) fn shown(octets: &[u8]) -> PercentEncode<'_> {
    percent_encode(octets, ESCAPED)
}

// Decodes the bytes of a row.
pub(crate) fn spelled(alloc: Global, text: &str) -> Result<Vec<u8>, AllocError> {
    let mut octets = Vec::new(alloc);
    percent_decode(text.as_bytes()).append_to(&mut octets)?;
    Ok(octets)
}
