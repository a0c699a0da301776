//! The program without arguments: from standard input to standard output.
ghost use Rattle.std.specs.Prelude.{◌≡◌, ℕ, Option};
ghost use Rattle.plist_convert.specs.Files.{Files};
ghost use Rattle.plist_convert.specs.Runs.{IsFilterRun};
ghost use Rattle.plist_convert.specs.State.{input_of, state};

use crate::printing::print_refusal;
use plist_devices::{Sink, Source};
use plist_forms::{Form, Status, convert_with_hasher};
use std::alloc::Global;
use std::hash::BuildHasher;

// The path of standard input and standard output in printed lines.
pub(crate) const STANDARD: &str = "-";

// Writes the canonical file of the input to the output, object by object. Reads all of the input
// before it writes the first byte. Scalars are hashed with the hasher of this builder.
pub(crate) fn filter<H: BuildHasher + Copy, S: Source, W: Sink>(
    alloc: Global,
    hasher: H,
    input: &mut S,
    output: &mut W,
) -> u8
    ensures run { (disk : ℕ) (files : Option Files) → IsFilterRun
        (input_of (S.remaining input.old) (S.failures input.old))
        (input_of (S.remaining input.new) (S.failures input.new))
        (state files disk (W.taken output.old) (W.failures output.old))
        (state files disk (W.taken output.new) (W.failures output.new)) result }
    ensures same { W.device output.new ≡ W.device output.old }
    ensures device { S.device input.new ≡ S.device input.old }
{
    match convert_with_hasher(alloc, hasher, input, output, Form::Binary1) {
        Ok(_) => Status::Done.code(),
        Err(fault) => print_refusal(alloc, STANDARD, &fault, output),
    }
}
