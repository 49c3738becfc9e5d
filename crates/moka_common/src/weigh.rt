//! Weighers, which say how much of a cache's capacity an entry takes.
ghost use Rattle.std.specs.Prelude.{◌≡◌, ℕ, ⊤};
ghost use Rattle.moka_common.specs.Weight.{unit_weighs};

use crate::constants::UNIT_WEIGHT;

/// A weigher of entries. Any closure of the form `|key: &K, value: &V| -> u32` is one. A type with an impl of its own can promise more of its answers.
pub trait Weigh<K, V>: Drop {
    // Whether the weigher may be asked.
    ghost ready: { Self → Type 0 };

    // What the weigher answers for a key and a value, and what it is then.
    ghost weighs: { Self → K → V → ℕ → Self → Type 0 };

    /// Returns the weight of an entry. It may be 0.
    fn weigh(&mut self, key: &K, value: &V) -> u32
        requires { ready self.old }
        ensures weight { weighs self.old key.now value.now result self.new }
        ensures ready { ready self.new };
}

/// The weigher of a cache that is given none: each entry weighs `UNIT_WEIGHT`.
#[derive(Clone, Copy, Debug, PartialEq, Eq)]
pub struct UnitWeight;

impl<K, V> Weigh<K, V> for UnitWeight {
    ghost ready = { λ _. ⊤ };

    ghost weighs = { λ old key value weight new. unit_weighs key value weight × (new ≡ old) };

    fn weigh(&mut self, _key: &K, _value: &V) -> u32 {
        UNIT_WEIGHT
    }
}

impl<K, V, F: FnMut(&K, &V) -> u32 + Drop> Weigh<K, V> for F {
    ghost ready = { λ weigher. F.IsAlwaysCallable weigher };

    ghost weighs = { λ old key value weight new. (p : _) × (q : _) × F.step old p q weight new × (p.now ≡ key) × (q.now ≡ value) };

    fn weigh(&mut self, key: &K, value: &V) -> u32 {
        self(key, value)
    }
}
