//! What holds of all whole calls over the steps of a core: the one place for functions without code.
ghost use Rattle.moka_common.specs.Keys.{keys_by};
ghost use Rattle.moka_core.specs.StepLaws.{AreCalls};

use moka_sync_model::weigh::WeighShared;
use std::hash::{BuildHasher, Hash};

/// States that a whole call over the steps of a core gives the reply and the core of `Core::call`.
pub fn calls_by_steps_are_calls<K: Eq + Hash, V, S: BuildHasher, W: WeighShared<K, V>>()
    ensures { AreCalls {V = V} (keys_by K.Hash S.BuildHasher S.Hasher.Hasher) W.weighs }
{}
