//! The key for hashing scalars.
ghost use Rattle.std.specs.Prelude.{◌≡◌, IfNone, IfSome};
ghost use Rattle.plistconv_c.specs.KeyedHasher.{initial_of, keyed_by, no_key};

use std::hash::{BuildHasher, DefaultHasher, Hasher};

// Builds hashers that have already read the key.
#[derive(Clone, Copy)]
pub(crate) struct KeyedHasher {
    initial: DefaultHasher,
}

impl BuildHasher for KeyedHasher {
    type Hasher = DefaultHasher;

    ghost build_hasher = { initial_of };

    fn build_hasher(&self) -> DefaultHasher {
        self.initial
    }
}

// Returns the hash builder for the key, or `None` for sixteen zeros, which mean no key.
pub(crate) fn keyed_hasher(key: &[u8; 16]) -> Option<KeyedHasher>
    ensures none { IfNone result (key.now ≡ no_key) }
    ensures keyed { IfSome result (λ builder. initial_of builder ≡ keyed_by key.now) }
{
    if *key == [0; 16] {
        return None;
    }
    let mut initial = DefaultHasher::new();
    initial.write(key);
    Some(KeyedHasher { initial })
}
