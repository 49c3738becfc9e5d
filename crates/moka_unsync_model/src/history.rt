//! What follows for a cache's entries from the calls that were made, a law a function. A law is its function's clause: there is no code to call.
ghost use Rattle.moka_common.specs.Keys.{keys_by};
ghost use Rattle.moka_unsync_model.specs.Excluded.{EntriesWithoutCauseStay, ExpiredValuesAreNotCurrent, ReplacedValuesAreNotCurrent};
ghost use Rattle.moka_unsync_model.specs.History.{ContainsAsGet, HitsAreCurrent, LastWritesAreInserts, PairsAreCurrent, PeekAsGet, PeeksAreCurrent};
ghost use Rattle.moka_unsync_model.specs.History.{RemoveAsGet};
ghost use Rattle.moka_unsync_model.specs.History.{RunsHaveAHistory};
ghost use Rattle.moka_unsync_model.specs.Removal.{EntriesLeaveForACause, InsertsEnterOrAreRejected, MissesHaveAReason, ProbesMissForAReason};

use moka_common::weigh::Weigh;
use std::hash::{BuildHasher, Hash};

/// A hit is the last written value and fresh: no invalidation or removal has ended it, and neither of its durations has passed. A value that a removal answers
/// is one too, by `remove_as_get`.
pub fn hits_are_current<K: Eq + Hash, V, S: BuildHasher, W: Weigh<K, V>>()
    ensures { HitsAreCurrent (keys_by K.Hash S.BuildHasher S.Hasher.Hasher) W.weighs }
{}

/// So is a value that a peek finds.
pub fn peeks_are_current<K: Eq + Hash, V, S: BuildHasher, W: Weigh<K, V>>()
    ensures { PeeksAreCurrent (keys_by K.Hash S.BuildHasher S.Hasher.Hasher) W.weighs }
{}

/// And each pair of an iterator.
pub fn pairs_are_current<K: Eq + Hash, V, S: BuildHasher, W: Weigh<K, V>>()
    ensures { PairsAreCurrent (keys_by K.Hash S.BuildHasher S.Hasher.Hasher) W.weighs }
{}

/// A get finds nothing exactly if its key was never written, its insert was rejected, its entry has left, or its last write is over. So does a removal, by
/// `remove_as_get`.
pub fn misses_have_a_reason<K: Eq + Hash, V, S: BuildHasher, W: Weigh<K, V>>()
    ensures { MissesHaveAReason (keys_by K.Hash S.BuildHasher S.Hasher.Hasher) W.weighs }
{}

/// The same for look-ups by probes: each key that the probe stands for is missing for such a reason, or its last write is over.
pub fn probes_miss_for_a_reason<K: Eq + Hash, V, S: BuildHasher, W: Weigh<K, V>>()
    ensures { ProbesMissForAReason (keys_by K.Hash S.BuildHasher S.Hasher.Hasher) W.weighs }
{}

/// The calls of a run, the last one first, are a history: so all lists of calls have these laws, and those of `unsync::run` too.
pub fn runs_have_a_history<K: Eq + Hash, V, S: BuildHasher, W: Weigh<K, V>>()
    ensures { RunsHaveAHistory (keys_by K.Hash S.BuildHasher S.Hasher.Hasher) W.weighs }
{}

/// The last write of a key in a history is the last call that concerns the key: an accepted insert.
pub fn last_writes_are_inserts<K: Eq + Hash, V, S: BuildHasher>()
    ensures { LastWritesAreInserts (keys_by K.Hash S.BuildHasher S.Hasher.Hasher) V }
{}

/// `contains_key` answers whether a `get` would find a value, so the laws of hits and misses are its own too.
pub fn contains_as_get<K: Eq + Hash, V, S: BuildHasher, W: Weigh<K, V>>()
    ensures { ContainsAsGet (keys_by K.Hash S.BuildHasher S.Hasher.Hasher) W.weighs }
{}

/// `remove` answers what a `get` in its place would, so the laws of hits and misses speak of it too.
pub fn remove_as_get<K: Eq + Hash, V, S: BuildHasher, W: Weigh<K, V>>()
    ensures { RemoveAsGet (keys_by K.Hash S.BuildHasher S.Hasher.Hasher) W.weighs }
{}

/// `peek` finds what a `get` in its place would, and leaves the cache as it is. It may find more: what the get would have removed first for the limit.
pub fn peek_as_get<K: Eq + Hash, V, S: BuildHasher, W: Weigh<K, V>>()
    ensures { PeekAsGet (keys_by K.Hash S.BuildHasher S.Hasher.Hasher) W.weighs }
{}

/// An entry leaves only when it is invalidated, removed or expired, or to make room.
pub fn entries_leave_for_a_cause<K: Eq + Hash, V, S: BuildHasher, W: Weigh<K, V>>()
    ensures { EntriesLeaveForACause (keys_by K.Hash S.BuildHasher S.Hasher.Hasher) W.weighs }
{}

/// The value of an accepted insert stands at its key then, or was rejected for want of room.
pub fn inserts_enter_or_are_rejected<K: Eq + Hash, V, S: BuildHasher, W: Weigh<K, V>>()
    ensures { InsertsEnterOrAreRejected (keys_by K.Hash S.BuildHasher S.Hasher.Hasher) W.weighs }
{}

/// The law of hits excludes that an update keeps the old value. A value that another has replaced is not current.
pub fn replaced_values_are_not_current<K: Eq + Hash, V, S: BuildHasher>()
    ensures { ReplacedValuesAreNotCurrent (keys_by K.Hash S.BuildHasher S.Hasher.Hasher) V }
{}

/// That an expired entry is answered. A value is not current from the end of its time to live on, of its own one or the cache's, whichever is shorter.
pub fn expired_values_are_not_current<K: Eq + Hash, V, S: BuildHasher>()
    ensures { ExpiredValuesAreNotCurrent (keys_by K.Hash S.BuildHasher S.Hasher.Hasher) V }
{}

/// And what the law of misses excludes: without a limit an entry that is neither invalidated nor removed nor expired has no cause to leave.
pub fn entries_without_cause_stay<K: Eq + Hash, V, S: BuildHasher, W>()
    ensures { EntriesWithoutCauseStay (keys_by K.Hash S.BuildHasher S.Hasher.Hasher) V W }
{}
