//! The laws of the steps on a shard, one a function. A law is its function's clause: there is no code to call.
ghost use Rattle.moka_common.specs.Keys.{keys_by};
ghost use Rattle.moka_history.specs.Laws.{HitsAreCurrent, InsertsStand, MissesHaveAReason, RemoveAsGet};

use moka_sync_model::weigh::WeighShared;
use std::hash::{BuildHasher, Hash};

/// A hit is the value last written at the key, and it is live. No invalidation or removal has ended it, neither of its durations has passed, and no
/// invalidation of all hides it.
pub fn hits_are_current<K: Eq + Hash, V, S: BuildHasher, W: WeighShared<K, V>>()
    ensures { (weigher : _) → (settings : _) → HitsAreCurrent V (keys_by K.Hash S.BuildHasher S.Hasher.Hasher) (W.weighs weigher) settings }
{}

/// A get finds nothing exactly if its key was never written, its entry has left for a cause, or its last write counts no more.
pub fn misses_have_a_reason<K: Eq + Hash, V, S: BuildHasher, W: WeighShared<K, V>>()
    ensures { (weigher : _) → (settings : _) → MissesHaveAReason V (keys_by K.Hash S.BuildHasher S.Hasher.Hasher) (W.weighs weigher) settings }
{}

/// A removal hands back what a get in its place would find.
pub fn remove_as_get<K: Eq + Hash, V, S: BuildHasher, W: WeighShared<K, V>>()
    ensures { (weigher : _) → (settings : _) → RemoveAsGet V (keys_by K.Hash S.BuildHasher S.Hasher.Hasher) (W.weighs weigher) settings }
{}

/// The value of an accepted insert stands at its key.
pub fn inserts_stand<K: Eq + Hash, V, S: BuildHasher, W: WeighShared<K, V>>()
    ensures { (weigher : _) → (settings : _) → InsertsStand V (keys_by K.Hash S.BuildHasher S.Hasher.Hasher) (W.weighs weigher) settings }
{}
