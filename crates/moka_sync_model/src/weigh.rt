//! Weighers that callers on several threads may ask at the same time.
ghost use Rattle.std.specs.Prelude.{◌≡◌, ℕ, ⊤};
ghost use Rattle.moka_common.specs.Weight.{unit_weighs};

use moka_common::constants::UNIT_WEIGHT;
use moka_common::weigh::UnitWeight;

/// A weigher of the entries of a cache that threads share. It is called under a shard's lock, and isn't changed by that. Any closure of the form `|key: &K,
/// value: &V| -> u32` that changes nothing does, as it stands; so does a type with an impl of its own.
pub trait WeighShared<K, V>: Drop {
    // Whether the weigher may be asked.
    ghost ready: { Self → Type 0 };

    // What the weigher may answer for a key and a value.
    ghost weighs: { Self → K → V → ℕ → Type 0 };

    /// Returns the weight of an entry. It may be 0.
    fn weigh(&self, key: &K, value: &V) -> u32
        requires { ready self.now }
        ensures weight { weighs self.now key.now value.now result };
}

impl<K, V> WeighShared<K, V> for UnitWeight {
    ghost ready = { λ _. ⊤ };

    ghost weighs = { λ _ key value weight. unit_weighs key value weight };

    fn weigh(&self, _key: &K, _value: &V) -> u32 {
        UNIT_WEIGHT
    }
}

impl<K, V, F: Fn(&K, &V) -> u32 + Drop> WeighShared<K, V> for F {
    ghost ready = { λ weigher. F.IsAlwaysCallable weigher };

    ghost weighs = { λ weigher key value weight. (p : _) × (q : _) × F.post weigher p q weight × (p.now ≡ key) × (q.now ≡ value) };

    fn weigh(&self, key: &K, value: &V) -> u32 {
        self(key, value)
    }
}
