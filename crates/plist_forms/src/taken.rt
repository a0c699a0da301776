//! Bytes taken from a source, compared with known ones as they come.
ghost use Rattle.std.specs.Prelude.{◌≡◌, ◌≢◌, ◌≤◌, ◌++◌, List, ℕ, IfOk, IfSome};
ghost use Rattle.std.specs.Prelude.{length, take};
ghost use Rattle.plist_forms.specs.Load.{ComparesWith, octets_or, octets_taken};

use std::alloc::{AllocError, Global};

// The bytes taken so far.
#[derive(Drop)]
pub(crate) enum Taken {
    // The number of bytes, which are a prefix of the known ones.
    Known(usize),
    // Bytes that are not a prefix of the known ones.
    Other(Vec<u8>),
}

impl Taken {
    // Returns the number of bytes taken.
    pub(crate) fn len(&self) -> usize
        ensures { (known : List ℕ) → ComparesWith known self.now
            → result ≡ length (octets_taken known self.now) }
    {
        match self {
            Taken::Known(count) => *count,
            Taken::Other(octets) => octets.len(),
        }
    }

    // Appends a piece.
    pub(crate) fn then(self, alloc: Global, known: &[u8], piece: &[u8]) -> Result<Taken, AllocError>
        requires { ComparesWith known.now self }
        ensures octets { IfOk result (λ taken. octets_taken known.now taken
            ≡ octets_taken known.now self ++ piece.now) }
        ensures beside { IfOk result (ComparesWith known.now) }
    {
        match self {
            Taken::Known(count) => then_after(alloc, known, count, piece),
            Taken::Other(mut octets) => {
                octets.extend_from_slice(piece)?;
                Ok(Taken::Other(octets))
            }
        }
    }

    // Returns all bytes taken, or `None` if they are the known ones.
    pub(crate) fn unless_known(
        self,
        alloc: Global,
        known: &[u8],
    ) -> Result<Option<Vec<u8>>, AllocError>
        requires { ComparesWith known.now self }
        ensures octets { IfOk result (λ found. octets_or known.now found
            ≡ octets_taken known.now self) }
        ensures other { IfOk result (λ found. IfSome found (λ octets. octets.items ≢ known.now)) }
    {
        match self {
            Taken::Known(count) if count == known.len() => Ok(None),
            Taken::Known(count) => Ok(Some(Vec::from_slice(alloc, &known[..count])?)),
            Taken::Other(octets) => Ok(Some(octets)),
        }
    }
}

// Appends a piece to the first `count` known bytes.
fn then_after(alloc: Global, known: &[u8], count: usize, piece: &[u8]) -> Result<Taken, AllocError>
    requires { count ≤ length known.now }
    ensures octets { IfOk result (λ taken. octets_taken known.now taken
        ≡ take count known.now ++ piece.now) }
    ensures beside { IfOk result (ComparesWith known.now) }
{
    if known[count..].starts_with(piece) {
        return Ok(Taken::Known(count + piece.len()));
    }
    let mut octets = Vec::from_slice(alloc, &known[..count])?;
    octets.extend_from_slice(piece)?;
    Ok(Taken::Other(octets))
}
