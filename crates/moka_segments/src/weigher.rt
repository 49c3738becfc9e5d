//! Weighers of a cache of segments.
ghost use Rattle.std.specs.Prelude.{◌≡◌, ℕ, ⊤};
ghost use Rattle.moka_common.specs.Weight.{unit_weighs};

use moka_common::constants::UNIT_WEIGHT;
use moka_common::weigh::{UnitWeight, Weigh};
use std::marker::Model;

/// Weighs entries. It is a trait apart from `Weigh`, which closures have too: a type with a bound whose trait fits in two ways gets no generated proof
/// where it is used. So a closure needs a type of its own with an impl.
pub trait Weighing<K, V>: Drop {
    // That the weigher may be called.
    ghost ready: { Self → Type 0 };

    // What the weigher returns for a key and a value, and what it is then.
    ghost weighs: { Self → K → V → ℕ → Self → Type 0 };

    /// Returns the weight of an entry, which may be 0.
    fn weigh(&mut self, key: &K, value: &V) -> u32
        requires { ready self.old }
        ensures weight { weighs self.old key.now value.now result self.new }
        ensures ready { ready self.new };
}

impl<K, V> Weighing<K, V> for UnitWeight {
    ghost ready = { λ _. ⊤ };

    ghost weighs = { λ old key value weight new. unit_weighs key value weight × (new ≡ old) };

    fn weigh(&mut self, _key: &K, _value: &V) -> u32 {
        UNIT_WEIGHT
    }
}

/// The weigher that a segment's cache asks.
#[derive(Drop)]
pub struct Asks<W: Drop>(pub(crate) W);

impl<W: Drop> Model for Asks<W> {
    ghost Value = { W };

    ghost view = { λ a. a.0 };
}

impl<K, V, W: Weighing<K, V>> Weigh<K, V> for Asks<W> {
    ghost ready = { W.ready };

    ghost weighs = { W.weighs };

    fn weigh(&mut self, key: &K, value: &V) -> u32 {
        self.0.weigh(key, value)
    }
}
