// What a caller draws: numbers that look random, and calls made of them.
ghost use Rattle.std.specs.Prelude.{◌<◌};

use crate::soak::call::{Call, kind_of};
use crate::soak::constants::{CALLERS, KEYS, OUT_OF};
use moka_common::time::Instant;
use rand_core::{Rng, SeedableRng};
use rand_xoshiro::Xoshiro256PlusPlus;

/// The draws of one caller.
#[derive(Drop)]
pub(crate) struct Draws {
    generator: Xoshiro256PlusPlus,
}

impl Draws {
    /// The draws of the caller with this number, by the seed of the soak. The number `CALLERS` is of whoever fills the cache in the end.
    pub(crate) fn new(seed: u64, caller: u64) -> Draws {
        let number = seed.wrapping_mul(CALLERS + 1).wrapping_add(caller);
        Draws {
            generator: Xoshiro256PlusPlus::seed_from_u64(number),
        }
    }

    /// A number below a bound.
    pub(crate) fn below(&mut self, bound: u64) -> u64
        requires { 0 < bound }
        ensures { result < bound }
    {
        self.generator.next_u64() % bound
    }

    /// A number of any size.
    pub(crate) fn number(&mut self) -> u32 {
        self.generator.next_u32()
    }

    /// A key. The less it is the more often it comes, so that some keys are popular.
    fn key(&mut self) -> u64 {
        let first = self.below(KEYS);
        let second = self.below(KEYS);
        first.min(second)
    }

    /// A call at a moment.
    pub(crate) fn call(&mut self, now: Instant) -> Call {
        let kind = kind_of(self.below(OUT_OF));
        let key = self.key();
        let number = self.number();
        Call {
            kind,
            key,
            number,
            now,
        }
    }
}
