//! The rules about the trailer and about each object.
ghost use Rattle.std.specs.Prelude.{◌≡◌, ◌↔◌, ◌<◌, ◌≤◌, ℕ, IsTrue, Ok, length};
ghost use Rattle.std.specs.Prelude.{IfOk, IfErr, OnOk};
ghost use Rattle.plist_keys.specs.KeyOrder.{IsReady};
ghost use Rattle.plist_object.specs.Layout.{trailer_of};
ghost use Rattle.plist_object.specs.Objects.{IsContent};
ghost use Rattle.plist_object.specs.Places.{Holds, span_of};
ghost use Rattle.plist_object.specs.Views.{held_of, octets_of};
ghost use Rattle.plist_canon.specs.Rules.{Each, HasPlainTrailer, HasLeastWidths, Adjoins};
ghost use Rattle.plist_canon.specs.Rules.{IsSpelledCanonically, IsNoRepeat, IsWellRead};
ghost use Rattle.plist_canon.specs.Checking.{IsFlaw, earlier, IsEndBefore};
ghost use Rattle.plist_canon.specs.Checking.{Follows, IsChecked};
ghost use Rattle.plist_canon.specs.First.{IsFirstFlaw, IsFlawAt, IsObjectsFlaw, IsReportedFlaw};
ghost use Rattle.plist_canon.specs.First.{IsTableFlaw};
ghost use Rattle.plist_write.specs.RepeatFilter.{AreAdded};
ghost use Rattle.plist_canon.specs.Steps.{Walked};

use crate::objects::Input;
use crate::preorder::Walk;
use crate::references::check_references;
use crate::repeats::check_repeats;
use crate::rule::Rule;
use crate::visited::Visited;
use plist_keys::KeyOrder;
use plist_object::{BinFile, Spanned, begins_canonically, width_of};
use plist_write::RepeatFilterBuilder;
use std::alloc::{AllocError, AllocFailed, Global};
use std::hash::BuildHasher;

// A broken rule and the object that breaks it, or out of memory.
#[derive(Clone, Copy)]
pub(crate) enum Flaw {
    Broken { rule: Rule, object: u64 },
    NoMemory,
}

impl Flaw {
    ghost use Rattle.plist_canon.specs.declared.object_rules.Flaw.TheVariants.{Broken};

    pub(crate) fn at(rule: Rule, object: u64) -> Flaw
        ensures { result ≡ Broken rule object }
    {
        Flaw::Broken { rule, object }
    }

    // Returns the flaw to report: out of memory if either is, else the one at the earlier object.
    fn or_earlier(self, other: Flaw) -> Flaw
        ensures { result ≡ earlier self other }
    {
        match (self, other) {
            (Flaw::NoMemory, _) | (_, Flaw::NoMemory) => Flaw::NoMemory,
            (Flaw::Broken { object, .. }, Flaw::Broken { object: first, .. }) => {
                if first < object { other } else { self }
            }
        }
    }
}

impl From<AllocError> for Flaw {
    ghost use Rattle.plist_canon.specs.declared.object_rules.Flaw.TheVariants.{NoMemory};

    ghost from_gives = { λ _ flaw. flaw ≡ NoMemory };

    fn from(_: AllocError) -> Self {
        Flaw::NoMemory
    }
}

impl<T: Drop> From<AllocFailed<T>> for Flaw {
    ghost use Rattle.plist_canon.specs.declared.object_rules.Flaw.TheVariants.{NoMemory};

    ghost from_gives = { λ _ flaw. flaw ≡ NoMemory };

    fn from(_: AllocFailed<T>) -> Self {
        Flaw::NoMemory
    }
}

// Validates rules 1 and 2: a plain trailer and the least widths.
pub(crate) fn check_trailer(file: &BinFile) -> Result<(), Flaw>
    ensures plain { OnOk result (HasPlainTrailer (octets_of file.now)) }
    ensures widths { OnOk result (HasLeastWidths (octets_of file.now)) }
    ensures err { IfErr result (IsFlaw (octets_of file.now)) }
    ensures first { IfErr result (IsReportedFlaw (octets_of file.now)) }
{
    if !has_plain_trailer(file) {
        return Err(Flaw::at(Rule::PlainTrailer, 0));
    }
    if !has_least_widths(file) {
        return Err(Flaw::at(Rule::LeastWidths, 0));
    }
    Ok(())
}

fn has_plain_trailer(file: &BinFile) -> bool
    ensures { IsTrue result ↔ HasPlainTrailer (octets_of file.now) }
{
    file.slack() == [0; 6] && file.top() == 0
}

fn has_least_widths(file: &BinFile) -> bool
    ensures { IsTrue result ↔ HasLeastWidths (octets_of file.now) }
{
    let offset_width = width_of(file.table());
    let reference_width = width_of(file.count());
    file.offset_width() == offset_width && file.reference_width() == reference_width
}

// Validates rules 0, 3, 4, 5 and 6 for each object, except for the limits, and then the offset of
// the offset table. Returns the walk, which kept pace with the objects.
pub(crate) fn check_objects<'a, S: BuildHasher + Copy>(
    input: &Input<'a>,
    hasher: S,
) -> Result<Walk<'a>, Flaw>
    ensures checked { OnOk result (Each IsChecked (octets_of input.now.file)) }
    ensures single { OnOk result (Each IsNoRepeat (octets_of input.now.file)) }
    ensures adjoin { OnOk result (Each Adjoins (octets_of input.now.file)) }
    ensures walked { IfOk result (Walked (octets_of input.now.file)
        (trailer_of (octets_of input.now.file)).count) }
    ensures err { IfErr result (IsFlaw (octets_of input.now.file)) }
    ensures first { IfErr result (IsObjectsFlaw (octets_of input.now.file)) }
{
    let (alloc, file) = (input.alloc, &input.file);
    let mut visited = Visited::new(alloc, &hasher, file)?;
    let mut order = KeyOrder::new(alloc, file);
    for i in 0..file.count() {
        match check_object(input, &mut order, i, visited.end) {
            Ok(read) => visited.visit(&read)?,
            Err(flaw) => return Err(first_flaw(alloc, hasher, file, visited.builder, flaw)),
        }
    }
    check_repeats(alloc, hasher, file, visited.builder)?;
    check_table(file, visited.end)?;
    Ok(visited.walk)
}

// Returns `flaw`, or a breach of rule 6 at an earlier object if there is one.
fn first_flaw<S: BuildHasher + Copy>(
    alloc: Global,
    hasher: S,
    file: &BinFile,
    builder: RepeatFilterBuilder,
    flaw: Flaw,
) -> Flaw
    requires added { AreAdded (octets_of file.now) (length builder.bits.items) builder }
    requires listed { length builder.bits.items ≤ (trailer_of (octets_of file.now)).count }
    requires flaw { IsFlaw (octets_of file.now) flaw }
    ensures err { IsFlaw (octets_of file.now) result }
    ensures first { ((j : ℕ) → j < length builder.bits.items → IsChecked (octets_of file.now) j)
        → IsFlawAt (octets_of file.now) (length builder.bits.items) flaw
        → IsFirstFlaw (octets_of file.now) result }
{
    match check_repeats(alloc, hasher, file, builder) {
        Err(repeat) => flaw.or_earlier(repeat),
        Ok(()) => flaw,
    }
}

// Validates rule 3 at the last object: the offset table begins where the objects end.
fn check_table(file: &BinFile, end: u64) -> Result<(), Flaw>
    requires follows { Each Follows (octets_of file.now) }
    requires ends { IsEndBefore (octets_of file.now)
        (trailer_of (octets_of file.now)).count end }
    ensures adjoin { OnOk result (Each Adjoins (octets_of file.now)) }
    ensures err { IfErr result (IsFlaw (octets_of file.now)) }
    ensures table { IfErr result (IsTableFlaw (octets_of file.now)) }
{
    if end != file.table() {
        return Err(Flaw::at(Rule::Adjoining, file.count() - 1));
    }
    Ok(())
}

// Validates all rules but 6 for object `i` and returns its content; `offset` is the end of its
// predecessor.
#[inline(always)]
fn check_object<'a>(
    input: &Input<'a>,
    order: &mut KeyOrder<'a>,
    i: u64,
    offset: u64,
) -> Result<Spanned<'a>, Flaw>
    requires ready { IsReady (octets_of input.now.file) order.old }
    requires listed { i < (trailer_of (octets_of input.now.file)).count }
    requires before { IsEndBefore (octets_of input.now.file) i offset }
    ensures checked { OnOk result (IsChecked (octets_of input.now.file) i) }
    ensures holds { IfOk result (λ read. Holds (octets_of input.now.file) i (held_of read.object)) }
    ensures span { IfOk result
        (λ read. span_of (octets_of input.now.file) i ≡ Ok (read.start, read.end)) }
    ensures ready { OnOk result (IsReady (octets_of input.now.file) order.new) }
    ensures err { IfErr result (IsFlaw (octets_of input.now.file)) }
    ensures first { IfErr result (IsFlawAt (octets_of input.now.file) i) }
{
    let Ok(read) = input.file.spanned(i) else {
        return Err(Flaw::at(Rule::Readable, i));
    };
    let ascend = check_references(input, order, i, &read.object)?;
    check_encoding(input, i, offset, &read)?;
    if !ascend {
        return Err(Flaw::at(Rule::AscendingKeys, i));
    }
    Ok(read)
}

// Validates rules 3 and 4 for object `i`, decoded as `read`; `offset` is the end of its
// predecessor.
#[inline(always)]
fn check_encoding(input: &Input, i: u64, offset: u64, read: &Spanned) -> Result<(), Flaw>
    requires before { IsEndBefore (octets_of input.now.file) i offset }
    requires holds { Holds (octets_of input.now.file) i (held_of read.now.object) }
    requires span { span_of (octets_of input.now.file) i ≡ Ok (read.now.start, read.now.end) }
    requires valid { IsContent (held_of read.now.object) }
    ensures follows { OnOk result (Follows (octets_of input.now.file) i) }
    ensures spelled { OnOk result (IsSpelledCanonically (octets_of input.now.file) i) }
    ensures err { IfErr result (IsFlaw (octets_of input.now.file)) }
    ensures first { IsWellRead (octets_of input.now.file) i
        → IfErr result (IsFlawAt (octets_of input.now.file) i) }
{
    if read.start != offset {
        return Err(Flaw::at(Rule::Adjoining, i));
    }
    if !begins_canonically(&input.objects[offset as usize..], &read.object) {
        return Err(Flaw::at(Rule::CanonicalEncoding, i));
    }
    Ok(())
}
