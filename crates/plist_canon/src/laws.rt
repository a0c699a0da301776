//! What holds of all canonical files. Each law is the contract of a function that does nothing.
ghost use Rattle.plist_canon.specs.Locality.{CanonicityIsLocal};

pub use plist_write::laws::{
    canonical_is_short, canonical_spells_its_value, canonical_tells_values_apart,
};

/// Bytes have the layout and follow the eight rules if and only if they are the canonical file of a
/// value within the limits.
pub fn canonicity_is_local()
    ensures { CanonicityIsLocal }
{}
