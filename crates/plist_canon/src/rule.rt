//! The eight rules of a canonical file.
ghost use Rattle.std.specs.Prelude.{◌≡◌};
ghost use Rattle.plist_canon.specs.Checking.{rule_number};

// A rule of a canonical file, as explained at [`check`](crate::check).
#[derive(Clone, Copy)]
pub(crate) enum Rule {
    // Every object can be decoded, with valid references, and the value is within the limits.
    Readable,
    PlainTrailer,
    LeastWidths,
    // The objects follow one another without gaps.
    Adjoining,
    CanonicalEncoding,
    AscendingKeys,
    // No two objects are equal scalars.
    DistinctScalars,
    // The walk in preorder visits the objects in the order of their numbers.
    Preorder,
}

impl Rule {
    // Returns the number of the rule, from 0 to 7.
    pub(crate) fn number(self) -> u8
        ensures { result ≡ rule_number self }
    {
        match self {
            Rule::Readable => 0,
            Rule::PlainTrailer => 1,
            Rule::LeastWidths => 2,
            Rule::Adjoining => 3,
            Rule::CanonicalEncoding => 4,
            Rule::AscendingKeys => 5,
            Rule::DistinctScalars => 6,
            Rule::Preorder => 7,
        }
    }
}
