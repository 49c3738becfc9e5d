// A hash state that takes one multiplication for a number, so that what a trace costs is what the cache costs.
ghost use Rattle.bench_trace.specs.Hasher.{hasher_after};

use crate::constants::{MULTIPLIER, ROTATION};
use std::hash::{BuildHasher, Hasher};

/// Mixes in each word of eight bytes by one multiplication. Other writes are left out, since only numbers of 64 bits are keys here.
#[derive(Clone, Copy)]
pub(crate) struct MultiplyHasher {
    number: u64,
}

impl Hasher for MultiplyHasher {
    ghost write = { hasher_after };

    ghost finish = { λ hasher. hasher.number };

    fn finish(&self) -> u64 {
        self.number
    }

    fn write(&mut self, bytes: &[u8]) {
        if let [a, b, c, d, e, f, g, h] = bytes {
            let word = u64::from_le_bytes([*a, *b, *c, *d, *e, *f, *g, *h]);
            self.number = (self.number.rotate_left(ROTATION) ^ word).wrapping_mul(MULTIPLIER);
        }
    }
}

/// The hash state of a trace's cache.
#[derive(Clone, Copy)]
pub(crate) struct MultiplyState;

impl BuildHasher for MultiplyState {
    type Hasher = MultiplyHasher;

    ghost build_hasher = { λ _. record { number = 0 } };

    fn build_hasher(&self) -> MultiplyHasher {
        MultiplyHasher { number: 0 }
    }
}
