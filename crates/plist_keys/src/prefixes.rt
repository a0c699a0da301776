//! Sort prefixes: numbers by which most keys of a long dictionary are compared.
ghost use Rattle.std.specs.List.Sorted.{IsNonDecreasingBy, IsPermutation};
ghost use Rattle.std.specs.Prelude.{◌≡◌, ◌↔◌, ◌<◌, ◌≤◌, ◌+◌, ◌-◌, ◌^◌, ℕ, IsTrue, List, All, map};
ghost use Rattle.std.specs.Prelude.{take};
ghost use Rattle.std.specs.Prelude.{drop, length, slice_index_or};
ghost use Rattle.plist_value.specs.Texts.{units_of};
ghost use Rattle.plist_keys.specs.KeyOrder.{TellsOrder, sort_key, index_of, row_units};
ghost use Rattle.plist_keys.specs.Prefixes.{behind, digit_of, digits_of, in_run, prefix_of};
ghost use Rattle.plist_keys.specs.Prefixes.{IsNarrow, IsRunSorted};

use crate::order::{Row, text_at};
use plist_value::TextRef;

// The number of bits that a sort prefix has for each unit.
#[derive(Clone, Copy)]
pub(crate) enum Width {
    Bits8,
    Bits16,
}

// Sorts each run of rows with equal numbers by sort prefixes of the units after those that the run
// shares, and numbers the rows anew.
pub(crate) fn sort_runs(rows: &mut [Row], texts: &[TextRef])
    requires tell { All (λ row. All (TellsOrder texts.now row) rows.old) rows.old }
    requires sorted { IsNonDecreasingBy sort_key rows.old }
    requires small { length rows.old ≤ 2 ^ 32 }
    ensures tell { All (λ row. All (TellsOrder texts.now row) rows.new) rows.new }
    ensures sorted { IsNonDecreasingBy sort_key rows.new }
    ensures moved { IsPermutation (map index_of rows.old) (map index_of rows.new) }
    ensures long { length rows.new ≡ length rows.old }
{
    let mut start = 0;
    while start < rows.len() {
        let end = run_end(&*rows, start);
        sort_run(&mut rows[start..end], texts, start as u32);
        start = end;
    }
}

// Returns the index after the run that begins at `start`.
fn run_end(rows: &[Row], start: usize) -> usize
    requires { start < length rows.now }
    ensures within { (start < result) × (result ≤ length rows.now) }
    ensures rises { result < length rows.now → (d : Row)
        → sort_key (slice_index_or rows.now (result - 1) d)
        < sort_key (slice_index_or rows.now result d) }
{
    for end in start + 1..rows.len() {
        if rows[end - 1].number() < rows[end].number() {
            return end;
        }
    }
    rows.len()
}

// Sorts the rows of the run that begins at index `start` of all rows.
fn sort_run(rows: &mut [Row], texts: &[TextRef], start: u32)
    ensures sorted { IsRunSorted texts.now start rows.old rows.new }
    ensures long { length rows.new ≡ length rows.old }
{
    let front = shared(&*rows, texts);
    let width = prefix_width(&*rows, texts, front);
    fill(&mut *rows, texts, start, front, width);
    rows.sort_unstable_by_key(|row| row.prefix);
}

// Returns the number of leading units that all strings share.
fn shared(rows: &[Row], texts: &[TextRef]) -> usize
    ensures { (first : List ℕ)
        × All (λ row. take result (row_units texts.now row) ≡ take result first) rows.now }
{
    let [first, others @ ..] = rows else {
        return 0;
    };
    let first = text_at(texts, first);
    let mut count = first.len();
    for row in others {
        let text = text_at(texts, row);
        count = first.alike(&text, count.min(text.len()));
    }
    count
}

// Returns the width of the sort prefixes of a run: 8 bits if the next eight units of all strings
// fit, and else 16, so that strings in most scripts do not all have the same prefix.
fn prefix_width(rows: &[Row], texts: &[TextRef], front: usize) -> Width
    ensures { result ≡ Width.Bits8
        ↔ All (λ row. IsNarrow (drop front (row_units texts.now row))) rows.now }
{
    for row in rows {
        if !is_narrow(&text_at(texts, row), front) {
            return Width::Bits16;
        }
    }
    Width::Bits8
}

// Returns whether the next eight units after the first `front` are all below 256.
fn is_narrow(text: &TextRef, front: usize) -> bool
    ensures { IsTrue result ↔ IsNarrow (drop front (units_of text.now)) }
{
    match text.octets() {
        Some(octets) => {
            bytes_are_narrow(octets, front);
            true
        }
        None => are_narrow(text, front),
    }
}

// Does nothing; only its contract is used.
#[inline(always)]
fn bytes_are_narrow(octets: &[u8], front: usize)
    ensures { IsNarrow (drop front octets.now) }
{}

// Works for each way of storing the string.
fn are_narrow(text: &TextRef, front: usize) -> bool
    ensures { IsTrue result ↔ IsNarrow (drop front (units_of text.now)) }
{
    let start = front.min(text.len());
    let end = start + (text.len() - start).min(8);
    for i in start..end {
        if text.unit(i) >= 256 {
            return false;
        }
    }
    true
}

// Numbers each row by its run, and then by the sort prefix of its units after the first `front`.
fn fill(rows: &mut [Row], texts: &[TextRef], start: u32, front: usize, width: Width)
    ensures { rows.new ≡ map (in_run texts.now start front width) rows.old }
{
    for row in rows.iter_mut() {
        row.run = start;
        row.prefix = sort_prefix(&text_at(texts, row), front, width);
    }
}

// Returns the sort prefix of the units after the first `front`.
fn sort_prefix(text: &TextRef, front: usize, width: Width) -> u64
    ensures { result ≡ prefix_of width (drop front (units_of text.now)) }
{
    match width {
        Width::Bits8 => narrow_prefix(text, front),
        Width::Bits16 => wide_prefix(text, front),
    }
}

fn narrow_prefix(text: &TextRef, front: usize) -> u64
    ensures { result ≡ digits_of 255 8 (drop front (units_of text.now)) }
{
    if let Some(octets) = text.octets() {
        if front <= octets.len() && octets.len() - front >= 8 {
            return octets_prefix(octets, front);
        }
    }
    units_prefix(text, front)
}

// Like [`narrow_prefix`], for bytes that are the units.
fn octets_prefix(octets: &[u8], front: usize) -> u64
    requires { front + 8 ≤ length octets.now }
    ensures { result ≡ digits_of 255 8 (drop front octets.now) }
{
    let mut prefix = 0;
    for i in 0..8 {
        prefix = 256 * prefix + u64::from(octets[front + i]);
    }
    prefix
}

fn units_prefix(text: &TextRef, front: usize) -> u64
    ensures { result ≡ digits_of 255 8 (drop front (units_of text.now)) }
{
    let mut prefix = 0;
    let mut index = front;
    for read in 0..8_u32 {
        let (digit, next) = digit_at(text, index, 255);
        prefix = 256 * prefix + digit;
        index = next;
    }
    prefix
}

fn wide_prefix(text: &TextRef, front: usize) -> u64
    ensures { result ≡ digits_of 65535 4 (drop front (units_of text.now)) }
{
    let mut prefix = 0;
    let mut index = front;
    for read in 0..4_u32 {
        let (digit, next) = digit_at(text, index, 65535);
        prefix = 65536 * prefix + digit;
        index = next;
    }
    prefix
}

// Returns the digit for the unit at the position, and the position of the unit for the next digit.
#[inline(always)]
fn digit_at(text: &TextRef, index: usize, most: u16) -> (u64, usize)
    ensures digit { result.0 ≡ digit_of most (drop index (units_of text.now)) }
    ensures next { drop result.1 (units_of text.now) ≡ behind most
        (drop index (units_of text.now)) }
{
    if index >= text.len() {
        return (0, index);
    }
    let unit = text.unit(index);
    if unit > most {
        (u64::from(most), index)
    } else {
        (u64::from(unit), index + 1)
    }
}
