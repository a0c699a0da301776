//! The offsets of objects, if these overlap.
ghost use Rattle.std.specs.Prelude.{◌≡◌, ◌<◌, Ok, IfOk, IfErr};
ghost use Rattle.plist_object.specs.Layout.{trailer_of};
ghost use Rattle.plist_object.specs.Places.{span_of};
ghost use Rattle.plist_object.specs.Views.{octets_of};
ghost use Rattle.plist_keys.specs.Overlap.{KeysOverlap};
ghost use Rattle.plist_canon.specs.Checking.{IsEndBefore, IsFlaw};
ghost use Rattle.plist_canon.specs.First.{IsMisplacedAt, IsMisplacedFlaw};

use crate::object_rules::Flaw;
use crate::rule::Rule;
use plist_object::BinFile;

// Validates that each object can be decoded and begins where its predecessor ends.
pub(crate) fn check_offsets(file: &BinFile) -> Result<(), Flaw>
    ensures err { IfErr result (IsFlaw (octets_of file.now)) }
    ensures first { KeysOverlap (octets_of file.now)
        → IfErr result (IsMisplacedFlaw (octets_of file.now)) }
{
    let mut end = 8;
    for i in 0..file.count() {
        end = check_offset(file, i, end)?;
    }
    Ok(())
}

// Validates that object `i` can be decoded and begins at `offset`, and returns where it ends.
fn check_offset(file: &BinFile, i: u64, offset: u64) -> Result<u64, Flaw>
    requires listed { i < (trailer_of (octets_of file.now)).count }
    requires before { IsEndBefore (octets_of file.now) i offset }
    ensures ok { IfOk result (λ end. span_of (octets_of file.now) i ≡ Ok (offset, end)) }
    ensures err { IfErr result (IsFlaw (octets_of file.now)) }
    ensures at { IfErr result (IsMisplacedAt (octets_of file.now) i) }
{
    let Ok((start, end)) = file.span(i) else {
        return Err(Flaw::at(Rule::Readable, i));
    };
    if start != offset {
        return Err(Flaw::at(Rule::Adjoining, i));
    }
    Ok(end)
}
