//! Each call that loads asks for 4,096 bytes at a time, and none that sends flushes its device.
use crate::host_tests::holds;
use crate::strict::{Strict, StrictHost, TAKE};
use crate::words::{printed_of, words_of};
use plist_canon::{write_canonical, write_canonical_with_hasher};
use plist_convert::{
    Form, ReaderSource, Source, WriterSink, convert, load, read_any, run, run_to_end,
};
use plist_devices::{Sink, put_all};
use plist_forms::{convert_octets, convert_with_hasher, load_unless, print, write_openstep};
use plist_value::FixedHasher;
use std::alloc::{AllocError, Global};
use std::fs;
use std::test::Fail;
use test_files::Draft;

// The forms of one value: data of 5,000 bytes, which is longer than a take and than a piece.
#[derive(Drop)]
struct Forms {
    text: Vec<u8>,
    written: Vec<u8>,
    file: Vec<u8>,
    printed: Vec<u8>,
}

// Appends the digits of `count` bytes of the data.
fn put_digits(text: &mut Vec<u8>, count: u16) -> Result<(), AllocError> {
    for _ in 0..count {
        text.extend_from_slice(b"07")?;
    }
    Ok(())
}

// Returns the file of the data, with this marker and count.
pub(crate) fn file_of_data(alloc: Global, head: &[u8]) -> Result<Vec<u8>, AllocError> {
    let mut data = Vec::from_slice(alloc, head)?;
    data.extend_from_slice(&[7; 5000])?;
    let mut draft = Draft::new(alloc)?;
    draft.put(data.as_slice())?;
    draft.finish(2, 1)
}

// Returns the print of the data: 156 lines of 32 bytes, and a line of 8.
fn print_of_data(alloc: Global) -> Result<Vec<u8>, AllocError> {
    let mut printed = Vec::from_slice(alloc, b"<\n")?;
    for line in 0..157 {
        let count = if line < 156 { 32 } else { 8 };
        printed.extend_from_slice(b"  ")?;
        put_digits(&mut printed, count)?;
        printed.push(b'\n')?;
    }
    printed.extend_from_slice(b">\n")?;
    Ok(printed)
}

fn forms_of_data(alloc: Global) -> Result<Forms, AllocError> {
    let mut text = Vec::from_slice(alloc, b"<")?;
    put_digits(&mut text, 5000)?;
    text.push(b'>')?;
    let mut written = Vec::from_slice(alloc, text.as_slice())?;
    written.push(b'\n')?;
    Ok(Forms {
        text,
        written,
        file: file_of_data(alloc, b"\x4f\x11\x13\x88")?,
        printed: print_of_data(alloc)?,
    })
}

// A call that loads or sends.
#[derive(Clone, Copy)]
enum Call {
    Load,
    LoadUnless,
    Convert(Form),
    ConvertWithHasher(Form),
    ConvertOctets(Form),
    WriteCanonical,
    WriteCanonicalWithHasher,
    WriteOpenStep,
    Print,
}

impl Forms {
    // Returns the bytes that the call puts for this input: the input, or its value in another form.
    fn put_by<'a>(&'a self, call: Call, input: &'a [u8]) -> &'a [u8] {
        match call {
            Call::Load | Call::LoadUnless => input,
            Call::Convert(Form::OpenStep)
            | Call::ConvertWithHasher(Form::OpenStep)
            | Call::ConvertOctets(Form::OpenStep)
            | Call::WriteOpenStep => self.written.as_slice(),
            Call::Print => self.printed.as_slice(),
            _ => self.file.as_slice(),
        }
    }
}

const CALLS: [Call; 12] = [
    Call::Load,
    Call::LoadUnless,
    Call::Convert(Form::Binary1),
    Call::Convert(Form::OpenStep),
    Call::ConvertWithHasher(Form::Binary1),
    Call::ConvertWithHasher(Form::OpenStep),
    Call::ConvertOctets(Form::Binary1),
    Call::ConvertOctets(Form::OpenStep),
    Call::WriteCanonical,
    Call::WriteCanonicalWithHasher,
    Call::WriteOpenStep,
    Call::Print,
];

// Makes the call on this input, from this source or from the bytes.
fn make<S: Source, W: Sink>(
    alloc: Global,
    call: Call,
    octets: &[u8],
    from: &mut S,
    to: &mut W,
) -> Result<(), Fail> {
    let (hasher, value) = (FixedHasher::new(), read_any(alloc, octets)?);
    match call {
        Call::Load => put_all(load(alloc, from)?.as_slice(), to)?,
        Call::LoadUnless => {
            let found = load_unless(alloc, from, b"<07")?.ok_or("other bytes")?;
            put_all(found.as_slice(), to)?;
        }
        Call::Convert(form) => drop(convert(alloc, from, to, form)?),
        Call::ConvertWithHasher(form) => drop(convert_with_hasher(alloc, hasher, from, to, form)?),
        Call::ConvertOctets(form) => {
            let loaded = Vec::from_slice(alloc, octets)?;
            drop(convert_octets(alloc, hasher, loaded, to, form)?);
        }
        Call::WriteCanonical => drop(write_canonical(alloc, &value, to)?),
        Call::WriteCanonicalWithHasher => {
            drop(write_canonical_with_hasher(alloc, hasher, &value, to)?);
        }
        Call::WriteOpenStep => drop(write_openstep(alloc, octets, to)?),
        Call::Print => drop(print(alloc, octets, to)?),
    }
    Ok(())
}

// Returns whether the call puts these bytes, and asks for the right number of bytes at a time: none
// if it has them.
fn is_made(alloc: Global, call: Call, octets: &[u8], put: &[u8]) -> Result<bool, Fail> {
    let mut reader = Strict::over(octets);
    let mut writer = Strict::over(Vec::new(alloc));
    let mut source = ReaderSource::new(&mut reader);
    let mut sink = WriterSink::new(&mut writer);
    make(alloc, call, octets, &mut source, &mut sink)?;
    let asked = match call {
        Call::Load | Call::LoadUnless | Call::Convert(_) | Call::ConvertWithHasher(_) => TAKE,
        _ => 0,
    };
    Ok(reader.longest == asked && writer.device.as_slice() == put)
}

#[test]
fn calls_take_4096_bytes_and_never_flush(rt: HostRuntime) -> Result<(), Fail> {
    let forms = forms_of_data(rt.alloc())?;
    for call in CALLS {
        for octets in [forms.text.as_slice(), forms.file.as_slice()] {
            assert!(rt; is_made(rt.alloc(), call, octets, forms.put_by(call, octets))?);
        }
    }
    Ok(())
}

// Runs, one after another.
const ROWS: [&str; 5] = [
    "convert binary1 strict.txt strict.out|0 ",
    "convert openstep strict.out strict.old|0 ",
    "same strict.old strict.out|0 equal\n",
    "lint strict.txt|0 strict.txt: OK\n",
    "check strict.out|0 canonical\n",
];

// Runs the program over strict files and streams. Returns its exit status and its output.
fn ran(
    rt: &HostRuntime,
    words: &[&str],
    octets: &[u8],
    is_last: bool,
) -> Result<(u8, Vec<u8>), Fail> {
    let host = StrictHost::over(rt);
    let mut input = Strict::over(octets);
    let mut output = Strict::over(Vec::new(rt.alloc()));
    let status = if is_last {
        run_to_end(&host, rt.alloc(), words, &mut input, &mut output)
    } else {
        run(&host, rt.alloc(), words, &mut input, &mut output)
    };
    Ok((status, output.device))
}

// Returns whether all runs have their results and leave the right files.
fn are_answered(rt: &HostRuntime, forms: &Forms, is_last: bool) -> Result<bool, Fail> {
    fs::write(rt, "strict.txt", forms.text.as_slice())?;
    for row in &ROWS {
        let words = words_of(rt.alloc(), row)?;
        let (status, output) = ran(rt, words.as_slice(), b"", is_last)?;
        if printed_of(row, status) != Some(output.as_slice()) {
            return Ok(false);
        }
    }
    let (status, output) = ran(rt, &[], forms.text.as_slice(), is_last)?;
    let words = ["plistconv", "print", "strict.out"];
    let (other, printed) = ran(rt, &words, b"", is_last)?;
    let are_left = holds(rt, "strict.out", forms.file.as_slice())?
        && holds(rt, "strict.old", forms.written.as_slice())?;
    Ok(
        are_left
            && (status, other) == (0, 0)
            && output.as_slice() == forms.file.as_slice()
            && printed.as_slice() == forms.printed.as_slice(),
    )
}

#[test]
fn runs_take_4096_bytes_and_never_flush(rt: HostRuntime) -> Result<(), Fail> {
    let forms = forms_of_data(rt.alloc())?;
    assert!(rt; are_answered(&rt, &forms, false)?);
    assert!(rt; are_answered(&rt, &forms, true)?);
    for path in ["strict.txt", "strict.out", "strict.old"] {
        fs::remove_file(&rt, path)?;
    }
    Ok(())
}
