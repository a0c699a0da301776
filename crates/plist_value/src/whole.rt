//! Integers.
ghost use Rattle.std.specs.Prelude.{◌≡◌, ◌↔◌, ℤ, IsSome, IfSome};
ghost use Rattle.std.specs.Ordering.{int_eq, on};
ghost use Rattle.std.specs.Cmp.Rules.{comparing, hashing};
ghost use Rattle.std.specs.Hash as fed;
ghost use Rattle.std.proofs.Common.{rules};
ghost use Rattle.plist_value.specs.Plist.{IsWhole};
ghost use Rattle.plist_value.specs.Numbers.{number_kept};

use std::hash::{Hash, Hasher};

/// An integer from -2^63 to 2^64 - 1.
#[derive(Clone, Copy, Debug)]
pub struct Whole {
    kept: Number,
    ghost in_range: { IsWhole (number_kept kept) },
}

#[derive(Clone, Copy, Debug)]
enum Number {
    Signed(i64),
    Unsigned(u64),
}

impl Whole {
    ghost use Rattle.plist_value.specs.Wholes.{integer_of};

    /// Returns the integer `n`, or `None` if and only if it is below -2^63 or above 2^64 - 1.
    pub fn new(n: i128) -> Option<Self>
        ensures in_range { IsSome result ↔ IsWhole n }
        ensures value { IfSome result (λ w. integer_of w ≡ n) }
    {
        if let Ok(unsigned) = u64::try_from(n) {
            return Some(Whole {
                kept: Number::Unsigned(unsigned),
            });
        }
        let signed = i64::try_from(n).ok()?;
        Some(Whole {
            kept: Number::Signed(signed),
        })
    }

    /// Returns the number, from -2^63 to 2^64 - 1.
    pub fn get(&self) -> i128
        ensures value { result ≡ integer_of self.now }
        ensures in_range { IsWhole result }
    {
        match self.kept {
            Number::Signed(signed) => i128::from(signed),
            Number::Unsigned(unsigned) => i128::from(unsigned),
        }
    }
}

impl PartialEq for Whole {
    ghost use Rattle.plist_value.specs.Wholes.{integer_of};

    ghost eq = { on integer_of int_eq };

    ghost laws = { Prim.search (comparing, rules) };

    fn eq(&self, other: &Whole) -> bool {
        self.get() == other.get()
    }
}

impl Eq for Whole {
    ghost laws = { Prim.search (comparing, rules) };
}

// Hashes the number alone.
impl Hash for Whole {
    ghost use Rattle.plist_value.specs.Wholes.{integer_of};

    ghost hash_input = { λ whole. fed.i128 (integer_of whole) };

    ghost respects_eq = { Prim.search (hashing, rules) };

    fn hash<H: Hasher>(&self, state: &mut H) {
        state.write_i128(self.get());
    }
}
