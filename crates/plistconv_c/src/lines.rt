//! Printing the line of a refusal.
ghost use Rattle.std.specs.Prelude.{◌≡◌, ◌≢◌, ◌++◌, IfOk, codes};
ghost use Rattle.plist_value.specs.Refusals.{report_text};
ghost use Rattle.plistconv_c.specs.Lines.{IsLineGiven, IsNoLine};

use crate::Refused;
use crate::giving::give;
use plist_value::Report;
use std::alloc::{AllocError, Global};

/// Writes the line of a refusal that a call set, without a line end, to the start of the buffer:
/// `PATH: refused 14 DuplicateKey at octet 9`. The path may have any bytes and is copied unchanged.
/// If the line does not fit, the buffer is unchanged and `length` is the size needed.
///
/// # Errors
///
/// Fails with 60 if out of memory, and with 255 if no call sets such a refusal; the buffer is
/// unchanged, and `length` is 0.
#[unsafe(no_mangle)]
pub extern "C" fn plistconv_line(
    alloc: Global,
    path: &[u8],
    refusal: &Refused,
    into: &mut [u8],
    length: &mut usize,
) -> u8
    ensures given { result ≡ 0
        → IsLineGiven path.now into.old into.new length.new refusal.now }
    ensures refused { result ≢ 0
        → IsNoLine into.old into.new length.new refusal.now result }
{
    *length = 0;
    let Some(report) = refusal.report() else {
        return 255;
    };
    match line_at(alloc, path, &report) {
        Ok(text) => give(&text, into, length),
        Err(AllocError) => 60,
    }
}

// Returns the line of the report. Like `line` of `plist_forms`, but the path may have any bytes.
fn line_at(alloc: Global, path: &[u8], report: &Report) -> Result<Vec<u8>, AllocError>
    ensures { IfOk result (λ text.
        text.items ≡ path.now ++ (codes ": refused " ++ report_text report.now)) }
{
    let rest = format!(in alloc; ": refused {report}")?;
    let mut text = Vec::new(alloc);
    text.extend_from_slice(path)?;
    text.extend_from_slice(rest.as_bytes())?;
    Ok(text)
}
