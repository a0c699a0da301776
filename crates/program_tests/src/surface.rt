//! The public items of the seven crates, each used at its exact type: the tests do not compile if
//! one is missing or has another type.
ghost use Rattle.std.specs.Prelude.{◌≡◌, ◌<◌, ◌^◌, All, length};
ghost use Rattle.plist_value.specs.Limits.{Fits};
ghost use Rattle.plist_value.specs.Scalars.{content_of};
ghost use Rattle.plist_value.specs.View.{view};
ghost use Rattle.plist_object.specs.Layout.{trailer_of};
ghost use Rattle.plist_object.specs.Sizes.{IsSmall, IsWidth};
ghost use Rattle.plist_object.specs.Views.{octets_of};

use ostep_lex::{LexFault, Token, TokenKind, tokens};
use ostep_text::{TextFault, TextWriteFault, read_text, write_text};
use plist_binary::{BinaryFault, read};
use plist_canon::{
    CheckFault, DeviceFault, ListSink, Sink, Verdict, WriteFault, canonical, check, write_canonical,
};
use plist_convert::{
    Fault, Form, ListSource, PairFault, ReaderSource, Source, WriterSink, canonicalise, convert,
    line, load, read_any, run, same_files,
};
use plist_object::{
    BinFile, LayoutFault, Object, ObjectFault, Refs, list_length, put_list, put_scalar, put_table,
    scalar_length, table_length, width_of,
};
use plist_value::{
    MAX_DEPTH, MAX_NODES, MAX_PAYLOAD, ScalarRef, TextRef, Utf16, Value, Whole, copy, fits, same,
};
use std::alloc::{AllocError, Global};
use std::collections::BTreeMap;
use std::error::Error;
use std::hash::Hash;
use std::io::{Read, Write};
use std::rt::Files;
use std::test::Fail;

// Variants of a type: those without a field, and those with this one.
macro_rules! variants {
    ($kind:ident: $($name:ident)*) => { [$($kind::$name),*] };
    ($kind:ident $field:ident: $($name:ident)*) => { [$($kind::$name { $field }),*] };
}

#[test]
fn the_limits(rt: HostRuntime) -> Result<(), Fail> {
    let limits: (u64, u64, u64) = (MAX_NODES, MAX_DEPTH, MAX_PAYLOAD);
    assert_eq!(rt; limits, (16_777_216, 512, 1_073_741_824));
    Ok(())
}

// Values.

fn long_values(text: Utf16, octets: Vec<u8>) -> [Value; 2] {
    [Value::Text(text), Value::Bytes(octets)]
}

fn containers(items: Vec<Value>, pairs: BTreeMap<Utf16, Value>) -> [Value; 2] {
    [Value::List(items), Value::Table(pairs)]
}

fn scalar_values(number: Whole, flag: bool, four: [u8; 4], eight: [u8; 8]) -> [Value; 5] {
    [
        Value::Whole(number),
        Value::Flag(flag),
        Value::Real4(four),
        Value::Real8(eight),
        Value::Moment(eight),
    ]
}

fn of_values(alloc: Global, value: &Value) -> Result<(bool, bool, Value), AllocError> {
    let copied: Result<Value, AllocError> = copy(alloc, value);
    Ok((same(value, value), fits(value), copied?))
}

fn owned_text(alloc: Global, units: Vec<u16>) -> Result<Utf16, AllocError> {
    let text: Utf16 = Utf16::from_units(units);
    let _units: &[u16] = text.units();
    text.copy(alloc)
}

fn whole(number: i128) -> Option<i128> {
    let whole: Option<Whole> = Whole::new(number);
    whole.map(|whole| whole.get())
}

fn texts<'a>(units: &'a [u16], octets: &'a [u8]) -> [Option<TextRef<'a>>; 3] {
    let text: TextRef<'a> = TextRef::of_units(units);
    [
        Some(text),
        TextRef::of_ascii(octets),
        TextRef::of_wide(octets),
    ]
}

fn first_unit(text: &TextRef) -> Option<u16> {
    let length: usize = text.len();
    if length > 0 { Some(text.unit(0)) } else { None }
}

fn long_scalars<'a>(text: TextRef<'a>, octets: &'a [u8]) -> [ScalarRef<'a>; 2] {
    [ScalarRef::Text(text), ScalarRef::Bytes(octets)]
}

fn scalars<'a>(number: Whole, flag: bool, four: [u8; 4], eight: [u8; 8]) -> [ScalarRef<'a>; 5] {
    [
        ScalarRef::Whole(number),
        ScalarRef::Flag(flag),
        ScalarRef::Real4(four),
        ScalarRef::Real8(eight),
        ScalarRef::Moment(eight),
    ]
}

fn scalar(value: &Value) -> Option<ScalarRef<'_>> {
    ScalarRef::of(value)
}

fn is_equal<T: Eq + Hash>(one: &T, other: &T) -> bool {
    one == other
}

fn is_below<T: Eq + Hash + Ord>(one: &T, other: &T) -> bool {
    is_equal(one, other) || one < other
}

fn comparisons(owned: &Utf16, text: &TextRef, number: Whole, scalar: &ScalarRef) -> [bool; 4] {
    let (owned, text) = (is_below(owned, owned), is_below(text, text));
    [
        owned,
        text,
        is_equal(&number, &number),
        is_equal(scalar, scalar),
    ]
}

// Objects.

fn file(octets: &[u8]) -> Result<BinFile<'_>, LayoutFault> {
    BinFile::of(octets)
}

fn trailer(file: &BinFile) -> ([u64; 3], [u8; 2], [u8; 6]) {
    let numbers = [file.count(), file.top(), file.table()];
    let widths = [file.offset_width(), file.reference_width()];
    (numbers, widths, file.slack())
}

fn object<'a>(file: &BinFile<'a>, n: u64) -> (u64, Result<Object<'a>, ObjectFault>)
    requires { n < (trailer_of (octets_of file.now)).count }
{
    (file.place(n), file.object(n))
}

fn span(file: &BinFile, n: u64) -> Result<((u64, u64), bool), ObjectFault>
    requires { n < (trailer_of (octets_of file.now)).count }
{
    let span: Result<(u64, u64), ObjectFault> = file.span(n);
    let is_shortest: Result<bool, ObjectFault> = file.is_shortest(n);
    Ok((span?, is_shortest?))
}

fn objects<'a>(scalar: ScalarRef<'a>, refs: Refs<'a>) -> (Object<'a>, [Object<'a>; 2]) {
    let containers = [Object::List(refs), Object::Table(refs, refs)];
    (Object::Scalar(scalar), containers)
}

fn first_reference(refs: &Refs) -> Option<u64> {
    let length: u64 = refs.len();
    if length > 0 { Some(refs.get(0)) } else { None }
}

fn puts_scalar(out: &mut Vec<u8>, scalar: &ScalarRef) -> Result<u64, AllocError>
    requires { IsSmall (content_of scalar.now) }
{
    let put: Result<(), AllocError> = put_scalar(out, scalar);
    put.map(|()| scalar_length(scalar))
}

fn puts_containers(out: &mut Vec<u8>, width: u8, refs: &[u64]) -> Result<[u64; 2], AllocError>
    requires width { IsWidth width }
    requires count { length refs.now < 2 ^ 32 }
    requires fit { All (λ reference. reference < 256 ^ width) refs.now }
{
    put_list(out, width, refs)?;
    put_table(out, width, refs, refs)?;
    let count = refs.len() as u64;
    Ok([list_length(count, width), table_length(count, width)])
}

fn width(number: u64) -> u8 {
    width_of(number)
}

// Canonical files, texts and conversions.

fn files(
    alloc: Global,
    octets: &[u8],
) -> (Result<Value, BinaryFault>, Result<Verdict, CheckFault>) {
    (read(alloc, octets), check(alloc, octets))
}

fn canonicals<W: Sink>(alloc: Global, value: &Value, out: &mut W) -> Result<u64, WriteFault>
    requires { Fits (view value.now) }
{
    let _file: Result<Vec<u8>, AllocError> = canonical(alloc, value);
    write_canonical(alloc, value, out)
}

fn verdicts(rule: u8, object: u64) -> [Verdict; 2] {
    [Verdict::Canonical, Verdict::Broken { rule, object }]
}

fn token(kind: TokenKind, start: usize, end: usize) -> Token {
    Token { kind, start, end }
}

fn marks_and_forms() -> ([TokenKind; 7], [Form; 2]) {
    (
        variants!(TokenKind: BraceOpen BraceClose ParenOpen ParenClose Comma Semicolon Equals),
        variants!(Form: Binary1 OpenStep),
    )
}

fn long_tokens(text: Utf16, octets: Vec<u8>) -> [TokenKind; 2] {
    [TokenKind::Text(text), TokenKind::Octets(octets)]
}

fn readers(
    alloc: Global,
    octets: &[u8],
) -> (Result<Vec<Token>, LexFault>, Result<Value, TextFault>) {
    (tokens(alloc, octets), read_text(alloc, octets))
}

fn text_writers(alloc: Global, value: &Value) -> Result<Vec<u8>, TextWriteFault>
    requires { Fits (view value.now) }
{
    write_text(alloc, value)
}

fn either(alloc: Global, octets: &[u8]) -> (Result<Value, Fault>, Result<Vec<u8>, Fault>) {
    (read_any(alloc, octets), canonicalise(alloc, octets))
}

fn pairs(alloc: Global, a: &[u8], b: &[u8]) -> Result<bool, PairFault> {
    same_files(alloc, a, b)
}

fn loads<S: Source>(alloc: Global, from: &mut S) -> Result<Vec<u8>, Fault> {
    load(alloc, from)
}

fn conversions<S: Source, W: Sink>(
    alloc: Global,
    from: &mut S,
    to: &mut W,
    form: Form,
) -> Result<u64, Fault> {
    convert(alloc, from, to, form)
}

fn lines(alloc: Global, path: &str, fault: &Fault) -> Result<String, AllocError> {
    line(alloc, path, fault)
}

fn programs<R: Files, I: Read, O: Write>(
    rt: &R,
    alloc: Global,
    words: &[&str],
    input: &mut I,
    output: &mut O,
) -> u8 {
    run(rt, alloc, words, input, output)
}

// Devices.

fn puts<W: Sink>(sink: &mut W, piece: &[u8]) -> (Result<usize, DeviceFault>, u64) {
    (sink.put(piece), sink.failures())
}

fn takes<S: Source>(source: &mut S, into: &mut [u8]) -> (Result<usize, DeviceFault>, u64) {
    (source.take(into), source.failures())
}

fn sinks(alloc: Global, room: usize, step: usize) -> Result<ListSink, AllocError>
    requires { 0 < step }
{
    let sink: ListSink = ListSink::new(alloc, room, step)?;
    let _taken: &[u8] = sink.taken();
    Ok(sink)
}

fn sources(octets: &[u8], step: usize, fail_at: Option<u64>) -> ListSource<'_>
    requires { 0 < step }
{
    ListSource::new(octets, step, fail_at)
}

fn devices<R: Read, W: Write>(reader: R, writer: W) -> (ReaderSource<R>, WriterSink<W>) {
    (ReaderSource::new(reader), WriterSink::new(writer))
}

fn are_devices<S: Source, W: Sink>(_source: &S, _sink: &W) {}

fn over_memory(source: &ListSource, sink: &ListSink) {
    are_devices(source, sink);
}

fn over_devices<R: Read, W: Write>(source: &ReaderSource<R>, sink: &WriterSink<W>) {
    are_devices(source, sink);
}

// Faults: each is an error, and each but that of a device has a number.

fn is_error<E: Error>(_error: &E) {}

fn codes_of_files(layout: LayoutFault, object: ObjectFault, binary: BinaryFault) -> [u8; 3] {
    is_error(&layout);
    is_error(&object);
    is_error(&binary);
    [layout.code(), object.code(), binary.code()]
}

fn codes_of_texts(lex: LexFault, text: TextFault, write: TextWriteFault) -> [u8; 3] {
    is_error(&lex);
    is_error(&text);
    is_error(&write);
    [lex.code(), text.code(), write.code()]
}

fn codes_of_canonicals(write: WriteFault, check: CheckFault) -> [u8; 2] {
    is_error(&write);
    is_error(&check);
    [write.code(), check.code()]
}

fn codes_of_either(fault: Fault, pair: PairFault) -> [u8; 3] {
    is_error(&fault);
    is_error(&pair);
    is_error(&DeviceFault);
    [fault.code(), fault.status(), pair.code()]
}

fn file_faults() -> ([LayoutFault; 3], [ObjectFault; 8]) {
    (
        variants!(LayoutFault: TooShort BadHeader BadTrailer),
        variants!(ObjectFault: BadOffset CutObject BadMarker NullObject UidObject SetObject
            NotAscii WideInteger),
    )
}

fn binary_faults(object: u64) -> ([BinaryFault; 4], [BinaryFault; 15]) {
    (
        variants!(BinaryFault: TooShort BadHeader BadTrailer OutOfMemory),
        variants!(BinaryFault object: BadOffset BadReference CutObject BadMarker NullObject
            UidObject SetObject NotAscii WideInteger KeyNotText DuplicateKey Cycle TooDeep
            TooManyNodes TooMuchPayload),
    )
}

fn lex_faults(octet: usize) -> (LexFault, [LexFault; 10]) {
    (
        LexFault::OutOfMemory,
        variants!(LexFault octet: BadUtf8 XmlForm UnexpectedCharacter UnclosedString
            UnclosedComment BadEscape OctalRange OddData BadData BadUtf16),
    )
}

fn text_faults(octet: usize) -> (TextFault, [TextFault; 16]) {
    (
        TextFault::OutOfMemory,
        variants!(TextFault octet: BadUtf8 XmlForm UnexpectedCharacter UnclosedString
            UnclosedComment BadEscape OctalRange OddData BadData BadUtf16 DuplicateKey TooDeep
            TooManyNodes TooMuchPayload Expected Junk),
    )
}

fn check_faults() -> ([CheckFault; 4], [TextWriteFault; 2]) {
    (
        variants!(CheckFault: TooShort BadHeader BadTrailer OutOfMemory),
        variants!(TextWriteFault: NotInOpenStep OutOfMemory),
    )
}

fn faults(sent: u64) -> ([Fault; 3], [Fault; 2], [WriteFault; 2]) {
    (
        variants!(Fault: NotInOpenStep ReadFailed InputTooLarge),
        variants!(Fault sent: WriteFailed OutOfMemory),
        variants!(WriteFault sent: WriteFailed OutOfMemory),
    )
}

fn faults_of(binary: BinaryFault, text: TextFault, fault: Fault) -> ([Fault; 2], [PairFault; 2]) {
    (
        [Fault::Binary(binary), Fault::Text(text)],
        [PairFault::First(fault), PairFault::Second(fault)],
    )
}
