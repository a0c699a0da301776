//! Rule 6: no two objects are equal scalars.
ghost use Rattle.std.specs.Prelude.{ℕ, ◌<◌, ◌≤◌, suc, length, IfErr, OnOk};
ghost use Rattle.plist_object.specs.Layout.{trailer_of};
ghost use Rattle.plist_object.specs.Views.{octets_of};
ghost use Rattle.plist_canon.specs.Rules.{IsNoRepeat};
ghost use Rattle.plist_canon.specs.Checking.{IsFlaw};
ghost use Rattle.plist_canon.specs.First.{IsFirstRepeat, IsRepeatAt};
ghost use Rattle.plist_write.specs.RepeatFilter.{AreAdded, HasAdded};
ghost use Rattle.plist_canon.specs.Seen.{HasSeen};

use crate::object_rules::Flaw;
use crate::objects::scalar_of;
use crate::rule::Rule;
use plist_object::BinFile;
use plist_write::{RepeatFilter, RepeatFilterBuilder, ScalarNumbers};
use std::alloc::Global;
use std::hash::BuildHasher;

// The largest number stored with a scalar. Only whether one is stored matters.
const MOST: u64 = 4_294_967_295;

// Validates rule 6 for the recorded objects. Decodes only those again that may repeat another.
pub(crate) fn check_repeats<S: BuildHasher + Copy>(
    alloc: Global,
    hasher: S,
    file: &BinFile,
    builder: RepeatFilterBuilder,
) -> Result<(), Flaw>
    requires added { AreAdded (octets_of file.now) (length builder.bits.items) builder }
    requires listed { length builder.bits.items ≤ (trailer_of (octets_of file.now)).count }
    ensures ok { OnOk result
        ((i : ℕ) → i < length builder.bits.items → IsNoRepeat (octets_of file.now) i) }
    ensures err { IfErr result (IsFlaw (octets_of file.now)) }
    ensures first { IfErr result
        (IsFirstRepeat (octets_of file.now) (length builder.bits.items)) }
{
    let filter = builder.build(alloc)?;
    let mut seen = ScalarNumbers::new(alloc, hasher, filter.len());
    for i in 0..filter.len() {
        check_repeat(file, &filter, i, &mut seen)?;
    }
    Ok(())
}

// Validates rule 6 for object `i`.
#[inline(always)]
fn check_repeat<'a, S: BuildHasher + Copy>(
    file: &BinFile<'a>,
    filter: &RepeatFilter,
    i: usize,
    seen: &mut ScalarNumbers<'a, S>,
) -> Result<(), Flaw>
    requires added { HasAdded (octets_of file.now) (length filter.now.bits.items) filter.now }
    requires among { i < length filter.now.bits.items }
    requires listed { i < (trailer_of (octets_of file.now)).count }
    requires seen { HasSeen filter.now (octets_of file.now) i seen.old }
    ensures ok { OnOk result (IsNoRepeat (octets_of file.now) i) }
    ensures seen { OnOk result (HasSeen filter.now (octets_of file.now) (suc i) seen.new) }
    ensures err { IfErr result (IsFlaw (octets_of file.now)) }
    ensures at { IfErr result (IsRepeatAt i) }
{
    if !filter.may_repeat(i) {
        return Ok(());
    }
    let object = i as u64;
    let Some(scalar) = scalar_of(file, object) else {
        return Ok(());
    };
    let earlier = seen.enter(scalar, object.min(MOST) as u32)?;
    if earlier.is_some() {
        return Err(Flaw::at(Rule::DistinctScalars, object));
    }
    Ok(())
}
