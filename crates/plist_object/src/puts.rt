//! Appends objects in their canonical encoding.
ghost use Rattle.std.specs.Prelude.{◌≡◌, ◌+◌, ◌*◌, ◌<◌, ◌≤◌, ◌^◌, [], ◌∷◌, ◌++◌};
ghost use Rattle.std.specs.Prelude.{ℕ, List, length, All, OnOk, OnErr, replicate};
ghost use Rattle.byteorder.specs.Endian.{big_bytes};
ghost use Rattle.plist_value.specs.Plist.{IsWhole};
ghost use Rattle.plist_value.specs.Texts.{units_of};
ghost use Rattle.plist_value.specs.Scalars.{content_of};
ghost use Rattle.plist_object.specs.Appending.{Appends, HasRoom};
ghost use Rattle.plist_object.specs.Files.{trailer_with};
ghost use Rattle.plist_object.specs.Sizes.{IsSmall, IsWidth};
ghost use Rattle.plist_object.specs.Spelling.{head, least_integer, list_spelling};
ghost use Rattle.plist_object.specs.Spelling.{references, table_spelling, scalar_spelling};
ghost use Rattle.plist_object.specs.Spelling.{text_spelling, whole_spelling};

use crate::lengths::{head_length, list_length, table_length, width_of};
use crate::markers::{
    ASCII, DATA, FALSE, LIST, MOMENT_8, REAL_4, REAL_8, TABLE, TRUE, WHOLE_1, WHOLE_2, WHOLE_4,
    WHOLE_8, WHOLE_16, WIDE,
};
use crate::reserved::{push_number, push_octet, push_octets};
use crate::units::{push_ascii, push_wide};
use plist_value::{ScalarRef, TextRef};
use std::alloc::AllocError;

/// Appends the canonical encoding of a scalar to `out`. Strings have fewer than 2^32 units, and
/// data fewer than 2^32 bytes. Leaves `out` unchanged if out of memory.
pub fn put_scalar(out: &mut Vec<u8>, scalar: &ScalarRef) -> Result<(), AllocError>
    requires { IsSmall (content_of scalar.now) }
    ensures ok { OnOk result
        (out.new.items ≡ out.old.items ++ scalar_spelling (content_of scalar.now)) }
    ensures err { OnErr result (out.new.items ≡ out.old.items) }
{
    match scalar {
        ScalarRef::Text(text) => put_text(out, text),
        ScalarRef::Whole(whole) => put_whole(out, whole.get()),
        ScalarRef::Flag(flag) => put_marked(out, if *flag { TRUE } else { FALSE }, &[]),
        ScalarRef::Real4(octets) => put_marked(out, REAL_4, octets),
        ScalarRef::Real8(octets) => put_marked(out, REAL_8, octets),
        ScalarRef::Moment(octets) => put_marked(out, MOMENT_8, octets),
        ScalarRef::Bytes(octets) => put_data(out, octets),
    }
}

// The units are tested once, before the space for either encoding is reserved.
fn put_text(out: &mut Vec<u8>, text: &TextRef) -> Result<(), AllocError>
    requires { length (units_of text.now) < 2 ^ 32 }
    ensures ok { OnOk result
        (out.new.items ≡ out.old.items ++ text_spelling (units_of text.now)) }
    ensures err { OnErr result (out.new.items ≡ out.old.items) }
{
    let count = text.len() as u64;
    if text.is_ascii() {
        out.reserve((head_length(count) + count) as usize)?;
        push_head(out, ASCII, count);
        push_ascii(out, text);
    } else {
        out.reserve((head_length(count) + 2 * count) as usize)?;
        push_head(out, WIDE, count);
        push_wide(out, text);
    }
    Ok(())
}

// Reserves 17 bytes, the most that an integer takes.
fn put_whole(out: &mut Vec<u8>, number: i128) -> Result<(), AllocError>
    requires range { IsWhole number }
    ensures ok { OnOk result (out.new.items ≡ out.old.items ++ whole_spelling number) }
    ensures err { OnErr result (out.new.items ≡ out.old.items) }
{
    out.reserve(17)?;
    push_whole(out, number);
    Ok(())
}

fn put_marked(out: &mut Vec<u8>, marker: u8, octets: &[u8]) -> Result<(), AllocError>
    requires { length octets.now < 2 ^ 32 }
    ensures ok { OnOk result (out.new.items ≡ out.old.items ++ (marker ∷ octets.now)) }
    ensures err { OnErr result (out.new.items ≡ out.old.items) }
{
    out.reserve(1 + octets.len())?;
    push_marked(out, marker, octets);
    Ok(())
}

fn put_data(out: &mut Vec<u8>, octets: &[u8]) -> Result<(), AllocError>
    requires { length octets.now < 2 ^ 32 }
    ensures ok { OnOk result
        (out.new.items ≡ out.old.items ++ (head 4 (length octets.now) ++ octets.now)) }
    ensures err { OnErr result (out.new.items ≡ out.old.items) }
{
    let count = octets.len() as u64;
    out.reserve((head_length(count) + count) as usize)?;
    push_head(out, DATA, count);
    push_octets(out, octets);
    Ok(())
}

/// Appends an array with references of `width` bytes each to `out`. `width` is 1, 2, 4 or 8. There
/// are fewer than 2^32 references, each below 256^width. Leaves `out` unchanged if out of memory.
pub fn put_list(out: &mut Vec<u8>, width: u8, refs: &[u64]) -> Result<(), AllocError>
    requires width { IsWidth width }
    requires count { length refs.now < 2 ^ 32 }
    requires fit { All (λ reference. reference < 256 ^ width) refs.now }
    ensures ok { OnOk result (out.new.items ≡ out.old.items ++ list_spelling width refs.now) }
    ensures err { OnErr result (out.new.items ≡ out.old.items) }
{
    begin_list(out, width, refs.len() as u64)?;
    push_references(out, width, refs);
    Ok(())
}

/// Appends a dictionary to `out`: the references to its keys and then those to its values, of
/// `width` bytes each. `width` is 1, 2, 4 or 8. There are fewer than 2^32 keys and equally many
/// values, and each reference is below 256^width. Leaves `out` unchanged if out of memory.
pub fn put_table(
    out: &mut Vec<u8>,
    width: u8,
    keys: &[u64],
    values: &[u64],
) -> Result<(), AllocError>
    requires width { IsWidth width }
    requires count { length keys.now < 2 ^ 32 }
    requires pairs { length keys.now ≡ length values.now }
    requires keys_fit { All (λ reference. reference < 256 ^ width) keys.now }
    requires values_fit { All (λ reference. reference < 256 ^ width) values.now }
    ensures ok { OnOk result
        (out.new.items ≡ out.old.items ++ table_spelling width keys.now values.now) }
    ensures err { OnErr result (out.new.items ≡ out.old.items) }
{
    begin_table(out, width, keys.len() as u64)?;
    push_references(out, width, keys);
    push_references(out, width, values);
    Ok(())
}

/// Like [`put_list`], for references of 32 bits, which take half the memory.
pub fn put_short_list(out: &mut Vec<u8>, width: u8, refs: &[u32]) -> Result<(), AllocError>
    requires width { IsWidth width }
    requires count { length refs.now < 2 ^ 32 }
    requires fit { All (λ reference. reference < 256 ^ width) refs.now }
    ensures ok { OnOk result (out.new.items ≡ out.old.items ++ list_spelling width refs.now) }
    ensures err { OnErr result (out.new.items ≡ out.old.items) }
{
    begin_list(out, width, refs.len() as u64)?;
    push_short_references(out, width, refs);
    Ok(())
}

/// Like [`put_table`], for references of 32 bits, which take half the memory.
pub fn put_short_table(
    out: &mut Vec<u8>,
    width: u8,
    keys: &[u32],
    values: &[u32],
) -> Result<(), AllocError>
    requires width { IsWidth width }
    requires count { length keys.now < 2 ^ 32 }
    requires pairs { length keys.now ≡ length values.now }
    requires keys_fit { All (λ reference. reference < 256 ^ width) keys.now }
    requires values_fit { All (λ reference. reference < 256 ^ width) values.now }
    ensures ok { OnOk result
        (out.new.items ≡ out.old.items ++ table_spelling width keys.now values.now) }
    ensures err { OnErr result (out.new.items ≡ out.old.items) }
{
    begin_table(out, width, keys.len() as u64)?;
    push_short_references(out, width, keys);
    push_short_references(out, width, values);
    Ok(())
}

/// Appends the marker and the count of data of `count` bytes to `out`. The bytes of the data have
/// to follow. Leaves `out` unchanged if out of memory.
pub fn put_data_head(out: &mut Vec<u8>, count: u64) -> Result<(), AllocError>
    ensures ok { OnOk result (out.new.items ≡ out.old.items ++ head 4 count) }
    ensures err { OnErr result (out.new.items ≡ out.old.items) }
{
    out.reserve(head_length(count) as usize)?;
    push_head(out, DATA, count);
    Ok(())
}

/// Appends the number in `width` bytes to `out`. `width` is 1, 2, 4 or 8, and the number is below
/// 256^width. Leaves `out` unchanged if out of memory.
pub fn put_number(out: &mut Vec<u8>, width: u8, n: u64) -> Result<(), AllocError>
    requires width { IsWidth width }
    requires fits { n < 256 ^ width }
    ensures ok { OnOk result (out.new.items ≡ out.old.items ++ big_bytes width n) }
    ensures err { OnErr result (out.new.items ≡ out.old.items) }
{
    out.reserve(usize::from(width))?;
    push_number(out, n, width);
    Ok(())
}

/// Appends the trailer to `out`, the last 32 bytes of a file. It contains the widths of an offset
/// and of a reference, the number of objects, the number of the top object, and the offset of the
/// offset table. Leaves `out` unchanged if out of memory.
pub fn put_trailer(
    out: &mut Vec<u8>,
    offset_width: u8,
    reference_width: u8,
    count: u64,
    top: u64,
    place: u64,
) -> Result<(), AllocError>
    ensures ok { OnOk result (out.new.items
        ≡ out.old.items ++ trailer_with offset_width reference_width count top place) }
    ensures err { OnErr result (out.new.items ≡ out.old.items) }
{
    out.reserve(32)?;
    push_octets(out, &[0, 0, 0, 0, 0, 0, offset_width, reference_width]);
    push_number(out, count, 8);
    push_number(out, top, 8);
    push_number(out, place, 8);
    Ok(())
}

// Reserves space for an array of `count` references, and appends its marker and count.
fn begin_list(out: &mut Vec<u8>, width: u8, count: u64) -> Result<(), AllocError>
    requires width { IsWidth width }
    requires count { count < 2 ^ 32 }
    ensures begun { OnOk result (out.new.items ≡ out.old.items ++ head 10 count) }
    ensures room { OnOk result ((refs : List ℕ) → length refs ≡ count
        → HasRoom out.new (length (references width refs))) }
    ensures err { OnErr result (out.new.items ≡ out.old.items) }
{
    out.reserve(list_length(count, width) as usize)?;
    push_head(out, LIST, count);
    Ok(())
}

// Reserves space for a dictionary of `count` pairs, and appends its marker and count.
fn begin_table(out: &mut Vec<u8>, width: u8, count: u64) -> Result<(), AllocError>
    requires width { IsWidth width }
    requires count { count < 2 ^ 32 }
    ensures begun { OnOk result (out.new.items ≡ out.old.items ++ head 13 count) }
    ensures room { OnOk result ((keys values : List ℕ) → length keys ≡ count → length values ≡ count
        → HasRoom out.new (length (references width keys) + length (references width values))) }
    ensures err { OnErr result (out.new.items ≡ out.old.items) }
{
    out.reserve(table_length(count, width) as usize)?;
    push_head(out, TABLE, count);
    Ok(())
}

fn push_references(out: &mut Vec<u8>, width: u8, refs: &[u64])
    requires width_least { 1 ≤ width }
    requires width_most { width ≤ 8 }
    requires fit { All (λ reference. reference < 256 ^ width) refs.now }
    requires room { HasRoom out.old (length (references width refs.now)) }
    ensures { Appends out.old out.new (references width refs.now) }
{
    for reference in refs {
        push_number(out, *reference, width);
    }
}

fn push_short_references(out: &mut Vec<u8>, width: u8, refs: &[u32])
    requires width_least { 1 ≤ width }
    requires width_most { width ≤ 8 }
    requires fit { All (λ reference. reference < 256 ^ width) refs.now }
    requires room { HasRoom out.old (length (references width refs.now)) }
    ensures { Appends out.old out.new (references width refs.now) }
{
    for reference in refs {
        push_number(out, u64::from(*reference), width);
    }
}

fn push_marked(out: &mut Vec<u8>, marker: u8, octets: &[u8])
    requires { HasRoom out.old (1 + length octets.now) }
    ensures { Appends out.old out.new (marker ∷ octets.now) }
{
    push_octet(out, marker);
    push_octets(out, octets);
}

fn push_integer(out: &mut Vec<u8>, n: u64)
    requires { HasRoom out.old (length (least_integer n)) }
    ensures { Appends out.old out.new (least_integer n) }
{
    let width = width_of(n);
    let marker = match width {
        1 => WHOLE_1,
        2 => WHOLE_2,
        4 => WHOLE_4,
        _ => WHOLE_8,
    };
    push_octet(out, marker);
    push_number(out, n, width);
}

// Appends a marker with the count in its low half, or with 15 there and the count after it.
fn push_head(out: &mut Vec<u8>, kind: u8, count: u64)
    requires kind { kind < 16 }
    requires room { HasRoom out.old (length (head kind count)) }
    ensures { Appends out.old out.new (head kind count) }
{
    if count < 15 {
        push_octet(out, 16 * kind + count as u8);
    } else {
        push_octet(out, 16 * kind + 15);
        push_integer(out, count);
    }
}

fn push_whole(out: &mut Vec<u8>, number: i128)
    requires range { IsWhole number }
    requires room { HasRoom out.old (length (whole_spelling number)) }
    ensures { Appends out.old out.new (whole_spelling number) }
{
    if number < 0 {
        push_octet(out, WHOLE_8);
        push_number(out, (number as i64).cast_unsigned(), 8);
    } else if number < 1 << 63 {
        push_integer(out, number as u64);
    } else {
        push_long_whole(out, number as u64);
    }
}

fn push_long_whole(out: &mut Vec<u8>, n: u64)
    requires { HasRoom out.old 17 }
    ensures { Appends out.old out.new (20 ∷ (replicate 8 0 ++ big_bytes 8 n)) }
{
    push_marked(out, WHOLE_16, &[0; 8]);
    push_number(out, n, 8);
}
