//! What an object counts against the limits.
ghost use Rattle.std.specs.Prelude.{◌≡◌, IfSome, IfNone};
ghost use Rattle.plist_value.specs.Budget.{Spends, IsOver};
ghost use Rattle.plist_object.specs.Views.{held_of};
ghost use Rattle.plist_canon.specs.Weights.{weight_of, is_scalar_weight, payload_of_weight};

use plist_object::Object;
use plist_value::Budget;

// The largest payload that is kept exactly. It is above `MAX_PAYLOAD`, so larger ones need no
// telling apart.
const MOST_KEPT: u128 = 4_294_967_295;

// What an object without its references counts against the limits.
#[derive(Clone, Copy)]
pub(crate) enum Weight {
    // An array or dictionary, which has no payload of its own.
    Container,
    // A scalar and its payload in bytes, which is capped at `MOST_KEPT`.
    Scalar(u32),
}

impl Weight {
    // Returns the weight of `object`. Reads no string and no data.
    pub(crate) fn of(object: &Object) -> Weight
        ensures { result ≡ weight_of (held_of object.now) }
    {
        match object {
            Object::Scalar(scalar) => Weight::Scalar(scalar.payload().min(MOST_KEPT) as u32),
            Object::List(_) | Object::Table(_, _) => Weight::Container,
        }
    }

    // Returns the budget left after one node and its payload.
    pub(crate) fn spend(self, left: Budget) -> Option<Budget>
        ensures left { IfSome result (Spends left 1 (payload_of_weight self)) }
        ensures over { IfNone result (IsOver left 1 (payload_of_weight self)) }
    {
        match self {
            Weight::Container => left.spend(0),
            Weight::Scalar(payload) => left.spend(u128::from(payload)),
        }
    }

    // Returns whether the object is a scalar.
    pub(crate) fn is_scalar(self) -> bool
        ensures { result ≡ is_scalar_weight self }
    {
        matches!(self, Weight::Scalar(_))
    }
}
