//! Checks whether a file is canonical, without building its value.
ghost use Rattle.std.specs.Prelude.{◌≡◌, ◌↔◌, IfOk, IfErr, OnOk};
ghost use Rattle.plist_value.specs.Plist.{AreOctets};
ghost use Rattle.plist_object.specs.Layout.{IsLaid};
ghost use Rattle.plist_object.specs.Views.{octets_of};
ghost use Rattle.plist_canon.specs.Rules.{FollowsRules};
ghost use Rattle.plist_canon.specs.Locality.{IsCanonical};
ghost use Rattle.plist_canon.specs.Checking.{IsCheckFault, IsFlaw, IsVerdict};
ghost use Rattle.plist_canon.specs.Codes.{check_code, check_report};
ghost use Rattle.plist_canon.specs.First.{IsFirstVerdict, IsReportedFlaw};

use crate::object_rules::{Flaw, check_objects, check_trailer};
use crate::objects::Input;
use plist_object::{BinFile, LayoutFault};
use plist_value::{FixedHasher, Place, Refusal, Report};
use std::alloc::Global;
use std::fmt;
use std::hash::BuildHasher;
use thiserror::Error;

/// The error of a check.
#[derive(Clone, Copy, Debug, PartialEq, Eq, Error)]
pub enum CheckFault {
    /// 1: fewer than 42 bytes.
    TooShort,
    /// 2: the first eight bytes are not `bplist00`.
    BadHeader,
    /// 3: the trailer does not fit the file.
    BadTrailer,
    /// 60: out of memory.
    OutOfMemory,
}

impl CheckFault {
    /// Returns the number of the refusal: 1, 2, 3 or 60.
    pub fn code(&self) -> u8
        ensures { result ≡ check_code self.now }
    {
        self.report().0.number()
    }

    fn report(&self) -> Report
        ensures { result ≡ check_report self.now }
    {
        match self {
            CheckFault::TooShort => Report(Refusal::TooShort, Place::Nowhere),
            CheckFault::BadHeader => Report(Refusal::BadHeader, Place::Nowhere),
            CheckFault::BadTrailer => Report(Refusal::BadTrailer, Place::Nowhere),
            CheckFault::OutOfMemory => Report(Refusal::OutOfMemory, Place::Nowhere),
        }
    }
}

// Prints the number and the name of the refusal, such as `1 TooShort`.
impl fmt::Display for CheckFault {
    ghost use Rattle.std.specs.Prelude.{Some};
    ghost use Rattle.plist_canon.specs.Codes.{check_text};

    ghost output = { λ fault. Some (check_text fault) };

    fn fmt<W: fmt::Write>(&self, f: &mut fmt::Formatter<W>) -> fmt::Result {
        let report = self.report();
        write!(f, "{report}")
    }
}

impl From<LayoutFault> for CheckFault {
    ghost use Rattle.plist_canon.specs.Codes.{of_layout};

    ghost from_gives = { λ layout fault. fault ≡ of_layout layout };

    fn from(fault: LayoutFault) -> Self {
        match fault {
            LayoutFault::TooShort => CheckFault::TooShort,
            LayoutFault::BadHeader => CheckFault::BadHeader,
            LayoutFault::BadTrailer => CheckFault::BadTrailer,
        }
    }
}

/// The result of checking a file that has the layout.
#[derive(Clone, Copy, Debug, PartialEq, Eq)]
pub enum Verdict {
    /// The file is the canonical file of a value within the limits.
    Canonical,
    /// The file is not canonical: `object` breaks `rule`, which is from 0 to 7.
    Broken { rule: u8, object: u64 },
}

/// Checks whether `octets` is the canonical file of a value within the limits.
///
/// It is if and only if eight rules hold, each stated in terms of the file alone (this project's
/// profile):
///
/// - 0: every object can be decoded, its references are numbers of objects, references to keys
///   point to strings, and the value is within the limits;
/// - 1: the first six bytes of the trailer are zero, and the top object is 0;
/// - 2: offsets and references have the least widths;
/// - 3: the objects follow one another without gaps, from the header to the offset table;
/// - 4: each object has its canonical encoding;
/// - 5: the keys of each dictionary ascend, unit by unit;
/// - 6: no two objects are equal scalars;
/// - 7: the walk from object 0 in preorder visits the objects in the order of their numbers, and
///   only scalars more than once.
///
/// The rules are tested in this order. First come 1 and 2, then 0, 3, 4, 5 and 6 object by object.
/// Then follow 3 at the last object, for the offset of the offset table, 7, and 0 at object 0, for
/// the limits. Rule 6 is broken at the later of two equal objects. Rule 7 is broken at the
/// container with the first bad reference of the walk, or at 0 if an object is never visited.
///
/// No value is built. Time is linear in the size of the file, except for sorting the keys once.
/// Memory is needed for each object, for scalars that may occur twice, for keys and for the path of
/// the walk.
///
/// If dictionaries overlap, they can have more keys, or keys of more units, than there are bytes
/// before the offset table. The result may then be the first object that cannot be decoded or does
/// not begin where its predecessor ends, even if an earlier object breaks another rule.
///
/// # Errors
///
/// Fails if the bytes do not have the layout: [`CheckFault::TooShort`] (1) for fewer than 42 bytes,
/// [`CheckFault::BadHeader`] (2) for another header, [`CheckFault::BadTrailer`] (3) for a trailer
/// that does not fit. Fails with [`CheckFault::OutOfMemory`] (60) if out of memory.
pub fn check(alloc: Global, octets: &[u8]) -> Result<Verdict, CheckFault>
    ensures fault { IfErr result (IsCheckFault octets.now) }
    ensures laid { IfOk result (λ _. IsLaid octets.now) }
    ensures verdict { IfOk result (IsVerdict octets.now) }
    ensures canonical { IfOk result
        (λ verdict. (verdict ≡ Verdict.Canonical) ↔ IsCanonical octets.now) }
    ensures first { IfOk result (IsFirstVerdict octets.now) }
{
    check_with_hasher(alloc, FixedHasher::new(), octets)
}

/// Like [`check`], but hashes scalars with `hasher`. If files come from an untrusted source, pass a
/// [`RandomState`](std::hash::RandomState), so that scalars chosen to collide under [`FixedHasher`]
/// cost no more than others.
///
/// # Errors
///
/// Fails like [`check`].
pub fn check_with_hasher<S: BuildHasher + Copy>(
    alloc: Global,
    hasher: S,
    octets: &[u8],
) -> Result<Verdict, CheckFault>
    ensures fault { IfErr result (IsCheckFault octets.now) }
    ensures laid { IfOk result (λ _. IsLaid octets.now) }
    ensures verdict { IfOk result (IsVerdict octets.now) }
    ensures canonical { IfOk result
        (λ verdict. (verdict ≡ Verdict.Canonical) ↔ IsCanonical octets.now) }
    ensures first { IfOk result (IsFirstVerdict octets.now) }
{
    let file = BinFile::of(octets)?;
    match check_rules(alloc, hasher, octets, file) {
        Ok(()) => Ok(Verdict::Canonical),
        Err(Flaw::Broken { rule, object }) => Ok(Verdict::Broken {
            rule: rule.number(),
            object,
        }),
        Err(Flaw::NoMemory) => Err(CheckFault::OutOfMemory),
    }
}

// Returns the first broken rule as an error.
fn check_rules<'a, S: BuildHasher + Copy>(
    alloc: Global,
    hasher: S,
    octets: &'a [u8],
    file: BinFile<'a>,
) -> Result<(), Flaw>
    requires same { octets.now ≡ octets_of file }
    requires valid { AreOctets (octets_of file) }
    ensures ok { OnOk result (FollowsRules (octets_of file.entry)) }
    ensures err { IfErr result (IsFlaw (octets_of file.entry)) }
    ensures first { IfErr result (IsReportedFlaw (octets_of file.entry)) }
{
    check_trailer(&file)?;
    let objects = &octets[..file.table() as usize];
    let input = Input {
        alloc,
        file,
        objects,
    };
    check_objects(&input, hasher)?.finish()
}
