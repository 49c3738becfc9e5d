// A hasher by which a test chooses the shards of its keys.
ghost use Rattle.tests_calls.specs.Hashers.{hasher_after};

use std::cell::Cell;
use std::hash::{BuildHasher, Hasher};

/// Hashes a number to itself.
#[derive(Clone, Copy)]
pub struct OwnHasher {
    number: u64,
}

impl Hasher for OwnHasher {
    ghost write = { hasher_after };

    ghost finish = { λ hasher. hasher.number };

    fn finish(&self) -> u64 {
        self.number
    }

    // A number is written as its eight bytes.
    fn write(&mut self, bytes: &[u8]) {
        if let [a, b, c, d, e, f, g, h] = bytes {
            self.number = u64::from_le_bytes([*a, *b, *c, *d, *e, *f, *g, *h]);
        }
    }
}

/// The hash state of such keys.
#[derive(Clone, Copy, Drop)]
pub struct OwnState;

impl BuildHasher for OwnState {
    type Hasher = OwnHasher;

    ghost build_hasher = { λ _. record { number = 0 } };

    fn build_hasher(&self) -> OwnHasher {
        OwnHasher { number: 0 }
    }
}

/// The hash state of such keys, which counts how often it was asked for a hasher.
#[derive(Drop)]
pub struct CountingState<'a> {
    pub asked: &'a Cell<u64>,
}

impl BuildHasher for CountingState<'_> {
    type Hasher = OwnHasher;

    ghost build_hasher = { λ _. record { number = 0 } };

    fn build_hasher(&self) -> OwnHasher {
        self.asked.set(self.asked.get().wrapping_add(1));
        OwnHasher { number: 0 }
    }
}
