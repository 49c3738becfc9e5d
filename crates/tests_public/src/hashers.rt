// A hasher that tells no keys apart.
use std::hash::{BuildHasher, Hasher};

/// Each key has the hash 0.
#[derive(Clone, Copy)]
pub struct Zero;

impl Hasher for Zero {
    ghost write = { λ hasher _. hasher };

    ghost finish = { λ _. 0 };

    fn finish(&self) -> u64 {
        0
    }

    fn write(&mut self, _bytes: &[u8]) {}
}

impl BuildHasher for Zero {
    type Hasher = Zero;

    ghost build_hasher = { λ state. state };

    fn build_hasher(&self) -> Zero {
        *self
    }
}
