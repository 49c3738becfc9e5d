//! The hash state of a cache of bytes.
ghost use Rattle.std.specs.Hash.DefaultHasher.{with_keys};

use core::hash::keyed_hasher;
use std::hash::{BuildHasher, DefaultHasher};

/// SipHash-1-3 with a key of 16 bytes, which is what std's `RandomState` makes of random ones. Who doesn't know the key can't choose keys of one hash.
#[derive(Clone, Copy, Drop)]
pub struct Seed {
    pub low: u64,
    pub high: u64,
}

impl BuildHasher for Seed {
    type Hasher = DefaultHasher;

    ghost build_hasher = { λ seed. with_keys seed.low seed.high };

    fn build_hasher(&self) -> DefaultHasher {
        keyed_hasher(self.low, self.high)
    }
}
