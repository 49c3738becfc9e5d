//! Rules that the weights of a recording cache meet.
ghost use Rattle.std.specs.Prelude.{ℕ, ⊤};
ghost use Rattle.moka_common.specs.Weight.{unit_weighs};

use moka_common::weigh::UnitWeight;

/// A rule of the weights that a weigher gives. A record replays by it.
pub trait WeightRule<K, V> {
    // What may be given for a key and a value.
    ghost weighs: { K → V → ℕ → Type 0 };
}

/// The rule that all weights meet.
#[derive(Drop)]
pub struct AnyWeight;

impl<K, V> WeightRule<K, V> for AnyWeight {
    ghost weighs = { λ _ _ _. ⊤ };
}

/// The rule of the caches that count their entries.
impl<K, V> WeightRule<K, V> for UnitWeight {
    ghost weighs = { λ key value weight. unit_weighs key value weight };
}
