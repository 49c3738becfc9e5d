//! The laws of the cache that threads share, one a function. A law is its function's clause: there is no code to call.
ghost use Rattle.moka_common.specs.Keys.{keys_by};
ghost use Rattle.std.specs.Prelude.{◌≡◌};
ghost use Rattle.moka_sync_model.specs.declared.constants.TheConstants.{FLUSH_POINT, MAX_ABSENT, MAX_OUTSTANDING, MAX_ROUNDS, NO_TICKET};
ghost use Rattle.moka_sync_model.specs.declared.constants.TheConstants.{READ_LOG_SIZE, SHARDS, SYNC_BATCH_SIZE, SYNC_INTERVAL, WRITE_LOG_SIZE};
ghost use Rattle.moka_sync_model.specs.MaintenanceLaws.{AdmitsUndisturbed, ComesToRest, DropsCandidates, DropsUpserts, PublishesTrimmed};
ghost use Rattle.moka_sync_model.specs.Laws.{GetsLastWritten, GetsLiveValue, IsPairedAtRest, KeepsConsistent, KeepsLastWritten};
ghost use Rattle.moka_sync_model.specs.Laws.{LeavesForCause, StandsOnceInserted, StandsUntilCause, StaysConsistent, StaysCounted};
ghost use Rattle.moka_sync_model.specs.Laws.{TakesLastWritten, TakesLiveValue};
ghost use Rattle.moka_sync_model.specs.PlainMap.{IsPlainMap};
ghost use Rattle.moka_sync_model.specs.Weights.{AcceptsWeighed, KeepsWeighed, RunsKeepWeighed};
ghost use Rattle.moka_sync_model.specs.CallLaws.{CallsGetLive, CallsKeepLastWritten, CallsRemoveLive, CallsRest, CallsReturn, IterationsCopy};
ghost use Rattle.moka_sync_model.specs.CallLaws.{ListsRest, ReplaysOneMore, ReplaysRest, RunsAreHappenings, SyncsEmpty};

use crate::weigh::WeighShared;
use std::hash::{BuildHasher, Hash};

/// A core that was built is consistent after any list of steps.
pub fn built_cores_stay_consistent<K: Eq + Hash, V, S: BuildHasher>()
    ensures { StaysConsistent V (keys_by K.Hash S.BuildHasher S.Hasher.Hasher) }
{}

/// So is any core that was consistent before.
pub fn cores_stay_consistent<K: Eq + Hash, V, S: BuildHasher>()
    ensures { KeepsConsistent V (keys_by K.Hash S.BuildHasher S.Hasher.Hasher) }
{}

/// An entry that leaves in a step has its cause there, of its own ticket.
pub fn entries_leave_for_causes<K: Eq + Hash, V, S: BuildHasher>()
    ensures { LeavesForCause V (keys_by K.Hash S.BuildHasher S.Hasher.Hasher) }
{}

/// An entry that stands, and later doesn't, was taken by a step on the way, for a cause of its own ticket.
pub fn entries_stand_until_causes<K: Eq + Hash, V, S: BuildHasher>()
    ensures { StandsUntilCause V (keys_by K.Hash S.BuildHasher S.Hasher.Hasher) }
{}

/// An accepted insert's value stands at its key.
pub fn accepted_inserts_stand<K: Eq + Hash, V, S: BuildHasher>()
    ensures { StandsOnceInserted V (keys_by K.Hash S.BuildHasher S.Hasher.Hasher) }
{}

/// The entry at a key has the value last written there.
pub fn values_are_last_written<K: Eq + Hash, V, S: BuildHasher>()
    ensures { KeepsLastWritten V (keys_by K.Hash S.BuildHasher S.Hasher.Hasher) }
{}

/// A get answers the value that stands unexpired, and none where none does.
pub fn gets_answer_live_values<K: Eq + Hash, V, S: BuildHasher>()
    ensures { GetsLiveValue V (keys_by K.Hash S.BuildHasher S.Hasher.Hasher) }
{}

/// A get that answers a value answers the one last written.
pub fn gets_answer_what_was_last_written<K: Eq + Hash, V, S: BuildHasher>()
    ensures { GetsLastWritten V (keys_by K.Hash S.BuildHasher S.Hasher.Hasher) }
{}

/// A removal answers the value that stood unexpired, and none where none did.
pub fn removals_answer_live_values<K: Eq + Hash, V, S: BuildHasher>()
    ensures { TakesLiveValue V (keys_by K.Hash S.BuildHasher S.Hasher.Hasher) }
{}

/// A removal that answers a value answers the one last written.
pub fn removals_answer_what_was_last_written<K: Eq + Hash, V, S: BuildHasher>()
    ensures { TakesLastWritten V (keys_by K.Hash S.BuildHasher S.Hasher.Hasher) }
{}

/// With nothing outstanding, entries and nodes are paired, and the charged entries are those of the map.
pub fn charges_are_weights_at_rest<K: Eq + Hash, V, S: BuildHasher>()
    ensures { IsPairedAtRest V (keys_by K.Hash S.BuildHasher S.Hasher.Hasher) }
{}

/// An upsert whose entry has left is dropped as it is applied.
pub fn upserts_of_left_entries_are_dropped<K: Eq + Hash, V, S: BuildHasher>()
    ensures { DropsUpserts V (keys_by K.Hash S.BuildHasher S.Hasher.Hasher) }
{}

/// So is a candidate whose entry has left as it would enter.
pub fn candidates_that_left_are_dropped<K: Eq + Hash, V, S: BuildHasher>()
    ensures { DropsCandidates V (keys_by K.Hash S.BuildHasher S.Hasher.Hasher) }
{}

/// An admission between whose turns nothing comes is that of the single-thread cache's policy.
pub fn undisturbed_admissions_follow_the_policy<K: Eq + Hash, V, S: BuildHasher>()
    ensures { AdmitsUndisturbed V (keys_by K.Hash S.BuildHasher S.Hasher.Hasher) }
{}

/// Without limit, durations and a refused node the contents are those of a plain map.
pub fn unlimited_cores_are_maps<K: Eq + Hash, V, S: BuildHasher>()
    ensures { IsPlainMap V (keys_by K.Hash S.BuildHasher S.Hasher.Hasher) }
{}

/// Published weights are within the limit, or the eviction has used all its turns.
pub fn published_weights_are_trimmed<K: Eq + Hash, V, S: BuildHasher>()
    ensures { PublishesTrimmed V (keys_by K.Hash S.BuildHasher S.Hasher.Hasher) }
{}

/// The map has at most as many entries as there are nodes and outstanding upserts together.
pub fn entries_are_counted<K: Eq + Hash, V, S: BuildHasher>()
    ensures { StaysCounted V (keys_by K.Hash S.BuildHasher S.Hasher.Hasher) }
{}

/// A maintenance ends after some number of turns, whatever memory refuses, if nobody pushes meanwhile.
pub fn maintenances_come_to_rest<K: Eq + Hash, V, S: BuildHasher>()
    ensures { ComesToRest V (keys_by K.Hash S.BuildHasher S.Hasher.Hasher) }
{}

/// An accepted insert's entry has a weight that the weigher answered.
pub fn accepted_inserts_are_weighed<K: Eq + Hash, V, S: BuildHasher, W: WeighShared<K, V>>()
    ensures { (weigher : _) → AcceptsWeighed {V = V} (keys_by K.Hash S.BuildHasher S.Hasher.Hasher) (W.weighs weigher) }
{}

/// A step leaves every entry with a weight that the weigher answered, for an equal key and its value.
pub fn stored_weights_are_answers<K: Eq + Hash, V, S: BuildHasher, W: WeighShared<K, V>>()
    ensures { (weigher : _) → KeepsWeighed {V = V} (keys_by K.Hash S.BuildHasher S.Hasher.Hasher) (W.weighs weigher) }
{}

/// So does any list of steps.
pub fn stored_weights_stay_answers<K: Eq + Hash, V, S: BuildHasher, W: WeighShared<K, V>>()
    ensures { (weigher : _) → RunsKeepWeighed {V = V} (keys_by K.Hash S.BuildHasher S.Hasher.Hasher) (W.weighs weigher) }
{}

/// The list of steps that a core has run is a list of happenings, of which the laws of lists speak.
pub fn runs_are_happenings<K: Eq + Hash, V, S: BuildHasher, W: WeighShared<K, V>>()
    ensures { (weigher : _) → RunsAreHappenings {V = V} (keys_by K.Hash S.BuildHasher S.Hasher.Hasher) (W.weighs weigher) }
{}

/// A whole call of one caller leaves nothing under way.
pub fn whole_calls_rest<K: Eq + Hash, V, S: BuildHasher, W: WeighShared<K, V>>()
    ensures { (weigher : _) → CallsRest {V = V} (keys_by K.Hash S.BuildHasher S.Hasher.Hasher) (W.weighs weigher) }
{}

/// So does a list of them.
pub fn lists_of_calls_rest<K: Eq + Hash, V, S: BuildHasher, W: WeighShared<K, V>>()
    ensures { (weigher : _) → ListsRest {V = V} (keys_by K.Hash S.BuildHasher S.Hasher.Hasher) (W.weighs weigher) }
{}

/// A whole call of one caller returns.
pub fn whole_calls_return<K: Eq + Hash, V, S: BuildHasher, W: WeighShared<K, V>>()
    ensures { (weigher : _) → CallsReturn {V = V} (keys_by K.Hash S.BuildHasher S.Hasher.Hasher) (W.weighs weigher) }
{}

/// A sync of one caller empties both logs. It leaves the charged weight within the limit unless it has evicted as many entries as it may.
pub fn syncs_empty_the_logs<K: Eq + Hash, V, S: BuildHasher, W: WeighShared<K, V>>()
    ensures { (weigher : _) → SyncsEmpty {V = V} (keys_by K.Hash S.BuildHasher S.Hasher.Hasher) (W.weighs weigher) }
{}

/// The entry at a key has the value that a whole call last wrote there.
pub fn calls_keep_last_written<K: Eq + Hash, V, S: BuildHasher, W: WeighShared<K, V>>()
    ensures { (weigher : _) → CallsKeepLastWritten {V = V} (keys_by K.Hash S.BuildHasher S.Hasher.Hasher) (W.weighs weigher) }
{}

/// A whole call of get answers the value that stands unexpired.
pub fn calls_of_get_answer_live_values<K: Eq + Hash, V, S: BuildHasher, W: WeighShared<K, V>>()
    ensures { (weigher : _) → CallsGetLive {V = V} (keys_by K.Hash S.BuildHasher S.Hasher.Hasher) (W.weighs weigher) }
{}

/// So does one of remove, of what stood before it.
pub fn calls_of_remove_answer_live_values<K: Eq + Hash, V, S: BuildHasher, W: WeighShared<K, V>>()
    ensures { (weigher : _) → CallsRemoveLive {V = V} (keys_by K.Hash S.BuildHasher S.Hasher.Hasher) (W.weighs weigher) }
{}

/// Copying all shards changes nothing, and gives each shard's unexpired pairs.
pub fn iterations_copy_all_shards<K: Eq + Hash, V, S: BuildHasher, W: WeighShared<K, V>>()
    ensures { (weigher : _) → IterationsCopy {V = V} (keys_by K.Hash S.BuildHasher S.Hasher.Hasher) (W.weighs weigher) }
{}

/// A record with one more call replays to where that call leads.
pub fn records_grow_by_one<K: Eq + Hash, V, S: BuildHasher, W: WeighShared<K, V>>()
    ensures { (weigher : _) → ReplaysOneMore {V = V} (keys_by K.Hash S.BuildHasher S.Hasher.Hasher) (W.weighs weigher) }
{}

/// A record of calls on a core that was built replays to a core that is consistent and at rest.
pub fn records_replay_to_rest<K: Eq + Hash, V, S: BuildHasher, W: WeighShared<K, V>>()
    ensures { (weigher : _) → ReplaysRest {V = V} (keys_by K.Hash S.BuildHasher S.Hasher.Hasher) (W.weighs weigher) }
{}

/// The number of shards, and the ticket number that no shard gives out.
pub fn shards_are_sixteen()
    ensures shards { SHARDS ≡ 16 }
    ensures kept { NO_TICKET ≡ 18446744073709551615 }
    ensures outstanding { MAX_OUTSTANDING ≡ 18446744073709551615 }
{}

/// The capacity of a log, and the length that makes a maintenance due.
pub fn logs_hold_384_operations()
    ensures reads { READ_LOG_SIZE ≡ 384 }
    ensures writes { WRITE_LOG_SIZE ≡ 384 }
    ensures point { FLUSH_POINT ≡ 64 }
{}

/// The most that a maintenance does, and the time from one to the next that is due by time alone.
pub fn maintenances_have_five_rounds()
    ensures rounds { MAX_ROUNDS ≡ 5 }
    ensures batch { SYNC_BATCH_SIZE ≡ 500 }
    ensures absent { MAX_ABSENT ≡ 6 }
    ensures interval { SYNC_INTERVAL ≡ 500000000 }
{}
