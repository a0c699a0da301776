//! Maps each scalar to a bit, like a Bloom filter with one hash function. Several scalars may share
//! a bit; if a bit is not set, no equal scalar has set it.
ghost use Rattle.std.specs.Prelude.{◌≡◌, ◌≤◌, ◌↔◌, IsTrue, IfOk, bit_and};
ghost use Rattle.plist_value.specs.Scalars.{content_of};
ghost use Rattle.plist_write.specs.Bits.{HasBit, IsClear, KeepsBits, any_bit_of, bit_of};
ghost use Rattle.plist_write.specs.Bits.{fast_hash, hash_of, as_u64, strong_hash};

use crate::scalar_numbers::is_long_data;
use plist_value::ScalarRef;
use std::alloc::{AllocError, Global};
use std::hash::{DefaultHasher, FoldHasher, Hash, Hasher};

// The least and the greatest number of bits.
const LEAST: u64 = 64;

const MOST: u64 = 1 << 31;

// A bit vector, with 64 bits in each word.
#[derive(Drop)]
pub(crate) struct Bits {
    pub(crate) words: Vec<u64>,
}

impl Bits {
    // Returns a vector whose bits up to `mask` are all clear.
    pub(crate) fn new(alloc: Global, mask: u32) -> Result<Bits, AllocError>
        ensures { IfOk result (IsClear mask) }
    {
        let mut words = Vec::new(alloc);
        words.resize(mask as usize / 64 + 1, 0)?;
        Ok(Bits { words })
    }

    // Returns whether the bit is set. Bits past the end count as set.
    #[inline(always)]
    pub(crate) fn has(&self, bit: u32) -> bool
        ensures { IsTrue result ↔ HasBit self.now bit }
    {
        let index = bit as usize / 64;
        if index >= self.words.len() {
            return true;
        }
        self.words[index] >> (bit % 64) & 1 == 1
    }

    #[inline(always)]
    pub(crate) fn set(&mut self, bit: u32)
        ensures set { HasBit self.new bit }
        ensures kept { KeepsBits self.old self.new }
    {
        let index = bit as usize / 64;
        if index < self.words.len() {
            self.words[index] |= 1 << (bit % 64);
        }
    }
}

// Returns the number of the greatest bit of a vector of about `bits` bits. It is one less than a
// power of two, so that it is also a mask.
pub(crate) fn mask_for(bits: u64) -> u32 {
    let bits = bits.clamp(LEAST, MOST) as u32;
    u32::MAX.checked_shr(bits.leading_zeros()).unwrap_or(0)
}

// Returns the bit of the scalar, from 1 to `mask`. Non-negative integers up to `mask` have their
// own value as their bit, except 0, which has bit 1. All other scalars are hashed.
#[inline(always)]
pub(crate) fn bit_of(mask: u32, seed: u64, scalar: &ScalarRef) -> u32
    ensures { result ≡ bit_of mask seed (content_of scalar.now) }
{
    any_bit_of(mask, seed, scalar).max(1)
}

// Like `bit_of`, but may return 0.
#[inline(always)]
#[tactic(auto, using(std::proofs::lemmas::Nat::and_le_r))]
fn any_bit_of(mask: u32, seed: u64, scalar: &ScalarRef) -> u32
    ensures { result ≡ any_bit_of mask seed (content_of scalar.now) }
{
    match as_u64(*scalar) {
        Some(natural) if natural <= u64::from(mask) => natural as u32,
        _ => (hash_of(seed, scalar) & u64::from(mask)) as u32,
    }
}

// Returns the integer that the scalar contains, or `None` if the scalar is negative or no integer.
fn as_u64(scalar: ScalarRef) -> Option<u64>
    ensures { result ≡ as_u64 (content_of scalar.entry) }
{
    match scalar {
        ScalarRef::Whole(whole) => u64::try_from(whole.get()).ok(),
        _ => None,
    }
}

// Uses a fast hash, except for data: with the fast hash some data collides for every seed. Long
// data is not hashed.
fn hash_of(seed: u64, scalar: &ScalarRef) -> u64
    ensures { result ≡ hash_of seed (content_of scalar.now) }
{
    match scalar {
        ScalarRef::Bytes(_) if is_long_data(*scalar) => 0,
        ScalarRef::Bytes(_) => strong_hash(seed, scalar),
        _ => fast_hash(seed, scalar),
    }
}

#[tactic(auto, unfolding(crate::specs::Bits::fast_hash))]
fn fast_hash(seed: u64, scalar: &ScalarRef) -> u64
    ensures { result ≡ fast_hash seed (content_of scalar.now) }
{
    let mut hasher = FoldHasher::default();
    hasher.write_u64(seed);
    scalar.hash(&mut hasher);
    hasher.finish()
}

#[tactic(auto, unfolding(crate::specs::Bits::strong_hash))]
fn strong_hash(seed: u64, scalar: &ScalarRef) -> u64
    ensures { result ≡ strong_hash seed (content_of scalar.now) }
{
    let mut hasher = DefaultHasher::new();
    hasher.write_u64(seed);
    scalar.hash(&mut hasher);
    hasher.finish()
}
