//! The keys of scripts: numbers that are hashed to themselves, so that a script chooses the shard of each key.
ghost use Rattle.moka_script.specs.ScriptKeys.{hasher_after};

use std::hash::{BuildHasher, Hasher};

/// Hashes a number to itself.
#[derive(Clone, Copy, Debug, PartialEq, Eq)]
pub struct KeyHasher {
    number: u64,
}

impl Hasher for KeyHasher {
    ghost write = { hasher_after };

    ghost finish = { λ hasher. hasher.number };

    fn finish(&self) -> u64 {
        self.number
    }

    // A number is written as its eight bytes. Nothing else is.
    fn write(&mut self, bytes: &[u8]) {
        if let [a, b, c, d, e, f, g, h] = bytes {
            self.number = u64::from_le_bytes([*a, *b, *c, *d, *e, *f, *g, *h]);
        }
    }
}

/// The hash state of a script's cache.
#[derive(Clone, Copy, Debug, PartialEq, Eq)]
pub struct KeyState;

impl BuildHasher for KeyState {
    type Hasher = KeyHasher;

    ghost build_hasher = { λ _. record { number = 0 } };

    fn build_hasher(&self) -> KeyHasher {
        KeyHasher { number: 0 }
    }
}
