//! The default hasher of scalars.

use std::hash::{BuildHasherDefault, FoldHasher};

/// Builds hashers with a fixed seed. This is the default, and the fastest. Whoever knows the source
/// can choose scalars that collide, so that a set of `n` of them takes time in the order of `n *
/// n`. If somebody else chooses the scalars, pass a [`RandomState`](std::hash::RandomState) to the
/// call that takes a builder.
pub type FixedHasher = BuildHasherDefault<FoldHasher>;
