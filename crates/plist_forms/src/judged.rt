//! The binary file that encodes the value of an input: the input itself, or the draft of a text.
ghost use Rattle.std.specs.Prelude.{◌≡◌, ℕ, List, IfOk, IfErr};
ghost use Rattle.plist_keys.specs.KeyOrder.{IsReady};
ghost use Rattle.plist_object.specs.Layout.{IsLaid};
ghost use Rattle.plist_object.specs.Views.{octets_of};
ghost use Rattle.plist_forms.specs.Judged.{Encodes, IsReadFrom, octets_in};
ghost use Rattle.plist_forms.specs.Refusals.{IsRefused};

use crate::Fault;
use crate::canonicals::begins_as_binary;
use ostep_text::draft_text;
use plist_binary::judge_file;
use plist_keys::JudgedFile;
use plist_object::BinFile;
use std::alloc::Global;
use std::convert::AsSlice;

// A binary file that encodes the value of an input, if it encodes any. `I` owns or borrows the
// input.
#[derive(Drop)]
pub(crate) enum Binary<I> {
    // The input, which begins with `bplist`.
    Input(I),
    // The draft of a text, which encodes its value.
    Draft(Vec<u8>),
}

impl<I: AsSlice<u8> + Drop> Binary<I> {
    // Returns the binary file of an input. A text is read into a draft, and dropped.
    pub(crate) fn of(alloc: Global, input: I) -> Result<Binary<I>, Fault>
        ensures read { IfOk result (IsReadFrom I.items (I.items input)) }
        ensures refused { IfErr result (IsRefused (I.items input)) }
    {
        if begins_as_binary(input.as_slice()) {
            return Ok(Binary::Input(input));
        }
        Ok(Binary::Draft(draft_text(alloc, input.as_slice())?))
    }

    // Returns the bytes of the file.
    pub(crate) fn octets(&self) -> &[u8]
        ensures { result.now ≡ octets_in I.items self.now }
    {
        match self {
            Binary::Input(input) => input.as_slice(),
            Binary::Draft(draft) => draft.as_slice(),
        }
    }

    // Validates an input. A draft is valid, and its value has a text.
    pub(crate) fn judged(&self, alloc: Global) -> Result<JudgedFile<'_>, Fault>
        requires { (input : List ℕ) × IsReadFrom I.items input self.now }
        ensures encodes { (input : List ℕ) → IsReadFrom I.items input self.entry.now
            → IfOk result (λ judged. Encodes input (octets_of judged.file) judged.writable) }
        ensures ready { IfOk result (λ judged. IsReady (octets_of judged.file) judged.order) }
        ensures refused { (input : List ℕ) → IsReadFrom I.items input self.entry.now
            → IfErr result (IsRefused input) }
    {
        match self {
            Binary::Input(input) => Ok(judge_file(alloc, input.as_slice())?),
            Binary::Draft(draft) => Ok(JudgedFile::of_draft(alloc, layout(draft.as_slice()), true)),
        }
    }
}

// Returns the layout of a file that has one.
fn layout(octets: &[u8]) -> BinFile<'_>
    requires { IsLaid octets.now }
    ensures { octets_of result ≡ octets.entry.now }
{
    match BinFile::of(octets) {
        Ok(file) => file,
        Err(_) => unreachable!(),
    }
}
