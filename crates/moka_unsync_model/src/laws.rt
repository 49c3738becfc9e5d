//! The laws of the cache as a machine, one a function. A law is its function's clause: there is no code to call.
ghost use Rattle.moka_common.specs.Keys.{hash_by, keys_by};
ghost use Rattle.std.specs.Prelude.{◌≡◌, ◌/◌, ℕ};
ghost use Rattle.moka_unsync_model.specs.declared.constants.TheConstants.{EVICTION_BATCH_SIZE};
ghost use Rattle.moka_unsync_model.specs.Shares.{default_shares, limits_of};
ghost use Rattle.moka_unsync_model.specs.Laws.{EntriesAreOwn, GetsOrInsertsAreRuns, HitsAreProtected, InvalidationsKeepCounts, KeysStandOnce};
ghost use Rattle.moka_unsync_model.specs.Laws.{ModificationsAreCalls};
ghost use Rattle.std.specs.Fn.{FnOnceReturnsAtMut};
ghost use Rattle.moka_unsync_model.specs.Laws.{FixedSharesStay, InsertsDoLittle, LooksChangeNothing, TurnsAreSmall, WindowStaysWithinBounds};
ghost use Rattle.moka_unsync_model.specs.Laws.{NeverRefuses, OnlyUpdatesOutgrowLimit, PartsStandInOrder, ProbesActAsKeys, ProtectedGivesWayLast};
ghost use Rattle.moka_unsync_model.specs.Laws.{ProtectedStaysEmpty, ProtectedStaysWithinShare, StaysWithinLimit, WindowStandsBehind, WindowStaysEmpty};
ghost use Rattle.moka_unsync_model.specs.Laws.{RemovalsOfExpiredAreInvalidations, WritesFollowEntries};
ghost use Rattle.moka_unsync_model.specs.PlainMap.{RunsAsMap, StepsAsMap};

use moka_common::lookup::Lookup;
use moka_common::weigh::Weigh;
use std::hash::{BuildHasher, Hash};

/// A cache with a limit and without a weigher never has more entries than that at a call's end, whatever calls are made.
pub fn entry_count_stays_within_the_limit<K: Eq + Hash, V, S: BuildHasher, W: Weigh<K, V>>()
    ensures { StaysWithinLimit (keys_by K.Hash S.BuildHasher S.Hasher.Hasher) W.weighs }
{}

/// A cache without a weigher whose initial capacity is above its limit refuses no call. It takes no memory for entries after it is built.
pub fn no_insert_is_refused_with_room_above_the_limit<
    K: Eq + Hash,
    V,
    S: BuildHasher,
    W: Weigh<K, V>,
>()
    ensures { NeverRefuses (keys_by K.Hash S.BuildHasher S.Hasher.Hasher) W.weighs }
{}

/// With a weigher, only an insert at a key that is there can leave more weight than it found, and more than the limit.
pub fn only_updates_outgrow_the_limit<K: Eq + Hash, V, S: BuildHasher, W: Weigh<K, V>>()
    ensures { OnlyUpdatesOutgrowLimit (keys_by K.Hash S.BuildHasher S.Hasher.Hasher) W.weighs }
{}

/// A key never has two entries, whatever calls are made.
pub fn each_key_stands_once<K: Eq + Hash, V, S: BuildHasher, W: Weigh<K, V>>()
    ensures { KeysStandOnce (keys_by K.Hash S.BuildHasher S.Hasher.Hasher) W.weighs }
{}

/// With a time to live the order of writing has exactly the entries' keys, each with the moment of its last insert. Without one it is empty.
pub fn writes_follow_entries<K: Eq + Hash, V, S: BuildHasher, W: Weigh<K, V>>()
    ensures { WritesFollowEntries (keys_by K.Hash S.BuildHasher S.Hasher.Hasher) W.weighs }
{}

/// The entries of main stand before those of the window.
pub fn the_window_stands_behind<K: Eq + Hash, V, S: BuildHasher, W: Weigh<K, V>>()
    ensures { WindowStandsBehind (keys_by K.Hash S.BuildHasher S.Hasher.Hasher) W.weighs }
{}

/// And in main those of probation before those of protected.
pub fn the_parts_stand_in_order<K: Eq + Hash, V, S: BuildHasher, W: Weigh<K, V>>()
    ensures { PartsStandInOrder (keys_by K.Hash S.BuildHasher S.Hasher.Hasher) W.weighs }
{}

/// A window that adapts keeps its share, and has at most 80 hundredths of the limit, or its share if that is more.
pub fn the_window_stays_within_bounds<K: Eq + Hash, V, S: BuildHasher, W: Weigh<K, V>>()
    ensures { WindowStaysWithinBounds (keys_by K.Hash S.BuildHasher S.Hasher.Hasher) W.weighs }
{}

/// A call moves the window's limit up by the weight of the entry that it inserts at most, or down by twice that. Other calls leave it as it is.
pub fn turns_are_small<K: Eq + Hash, V, S: BuildHasher, W: Weigh<K, V>>()
    ensures { TurnsAreSmall (keys_by K.Hash S.BuildHasher S.Hasher.Hasher) W.weighs }
{}

/// Without a weigher an insert of a new key judges three entries of the window at most. Then main gives up one and demotes one at most.
pub fn inserts_do_little<K: Eq + Hash, V, S: BuildHasher, W: Weigh<K, V>>()
    ensures { InsertsDoLittle (keys_by K.Hash S.BuildHasher S.Hasher.Hasher) W.weighs }
{}

/// A cache that doesn't adapt keeps its shares, and remembers nothing of what left, whatever calls are made.
pub fn fixed_shares_stay<K: Eq + Hash, V, S: BuildHasher, W: Weigh<K, V>>()
    ensures { FixedSharesStay (keys_by K.Hash S.BuildHasher S.Hasher.Hasher) W.weighs }
{}

/// Protected never weighs more than its share of main, whatever calls are made.
pub fn protected_stays_within_its_share<K: Eq + Hash, V, S: BuildHasher, W: Weigh<K, V>>()
    ensures { ProtectedStaysWithinShare (keys_by K.Hash S.BuildHasher S.Hasher.Hasher) W.weighs }
{}

/// If protected's share is nothing, no entry is ever in it, not even one that weighs nothing.
pub fn protected_stays_empty<K: Eq + Hash, V, S: BuildHasher, W: Weigh<K, V>>()
    ensures { ProtectedStaysEmpty (keys_by K.Hash S.BuildHasher S.Hasher.Hasher) W.weighs }
{}

/// A hit in main leaves its entry in protected, unless it is heavier than all of that may be.
pub fn hits_are_protected<K: Eq + Hash, V, S: BuildHasher, W: Weigh<K, V>>()
    ensures { HitsAreProtected (keys_by K.Hash S.BuildHasher S.Hasher.Hasher) W.weighs }
{}

/// An entry of protected leaves for want of room only where probation doesn't weigh enough.
pub fn protected_gives_way_last<K: Eq + Hash, V, S: BuildHasher, W: Weigh<K, V>>()
    ensures { ProtectedGivesWayLast (keys_by K.Hash S.BuildHasher S.Hasher.Hasher) W.weighs }
{}

/// Without a limit, and with one of which its share is nothing, there is no window: no entry is ever in it.
pub fn the_window_stays_empty<K: Eq + Hash, V, S: BuildHasher, W: Weigh<K, V>>()
    ensures { WindowStaysEmpty (keys_by K.Hash S.BuildHasher S.Hasher.Hasher) W.weighs }
{}

/// The window has a hundredth of a limit by default, by its digits: definitions name the constant.
pub fn the_window_has_a_hundredth()
    ensures { (limit : ℕ) → (limits_of default_shares limit).window ≡ limit / 100 }
{}

/// And protected has nothing.
pub fn protected_is_opt_in()
    ensures { (limit : ℕ) → (limits_of default_shares limit).protected ≡ 0 }
{}

/// An entry has its key's hash under the cache's hash state, and a weight of 32 bits.
pub fn entries_are_own<K: Eq + Hash, V, S: BuildHasher, W: Weigh<K, V>>()
    ensures { EntriesAreOwn (keys_by K.Hash S.BuildHasher S.Hasher.Hasher) W.weighs }
{}

/// The largest number of entries that a call removes for a reason that isn't its own, by its digits: definitions name the constant.
pub fn batches_are_of_a_hundred()
    ensures { EVICTION_BATCH_SIZE ≡ 100 }
{}

/// `peek`, `contains_key`, `iter` and the counts are no reads: they count nothing, and set no moment and no order of what remains.
pub fn looks_change_nothing<K: Eq + Hash, V, S: BuildHasher, W: Weigh<K, V>>()
    ensures { LooksChangeNothing (keys_by K.Hash S.BuildHasher S.Hasher.Hasher) W.weighs }
{}

/// An invalidation keeps what was counted of all keys, and what remains is as it was. So does a removal.
pub fn invalidations_keep_counts<K: Eq + Hash, V, S: BuildHasher, W: Weigh<K, V>>()
    ensures { InvalidationsKeepCounts (keys_by K.Hash S.BuildHasher S.Hasher.Hasher) W.weighs }
{}

/// A removal of the expired entries is an invalidation by a predicate that chooses them, so each law of runs speaks of it. No entry is expired after it.
pub fn removals_of_expired_are_invalidations<K: Eq + Hash, V, S: BuildHasher, W: Weigh<K, V>>()
    ensures { RemovalsOfExpiredAreInvalidations (keys_by K.Hash S.BuildHasher S.Hasher.Hasher) W.weighs }
{}

/// A modification is an insert of what the function leaves in the value, or a look at a key that isn't there. So each law of runs speaks of it.
pub fn modifications_are_calls<K: Eq + Hash, V, S: BuildHasher, W: Weigh<K, V>, F: FnOnce(&mut V)>()
    ensures { (f : F) → ModificationsAreCalls (keys_by K.Hash S.BuildHasher S.Hasher.Hasher) W.weighs (λ old new. FnOnceReturnsAtMut F.FnOnce f old tt new) }
{}

/// Without limit, durations and refusal a call answers as a plain map of the cache's pairs would, and leaves what that would leave.
pub fn steps_are_those_of_a_map<K: Eq + Hash, V, S: BuildHasher, W: Weigh<K, V>>()
    ensures { StepsAsMap (keys_by K.Hash S.BuildHasher S.Hasher.Hasher) W.weighs }
{}

/// So does any list of calls of which none is refused.
pub fn runs_are_those_of_a_map<K: Eq + Hash, V, S: BuildHasher, W: Weigh<K, V>>()
    ensures { RunsAsMap (keys_by K.Hash S.BuildHasher S.Hasher.Hasher) W.weighs }
{}

/// A get or insert is a run of one call or two: a get, and where that finds nothing an insert at the same moment. So each law of runs speaks of it.
pub fn gets_or_inserts_are_runs<K: Eq + Hash, V, S: BuildHasher, W: Weigh<K, V>>()
    ensures { GetsOrInsertsAreRuns (keys_by K.Hash S.BuildHasher S.Hasher.Hasher) W.weighs }
{}

/// A look-up by a probe answers and leaves what that by any key does that the probe stands for. So each law of runs speaks of it too.
pub fn probes_act_as_keys<K: Eq + Hash, V, S: BuildHasher, W, Q: Lookup<K>>()
    ensures { ProbesActAsKeys V W (keys_by K.Hash S.BuildHasher S.Hasher.Hasher) Q.stands_for
        (λ state probe. hash_by S.BuildHasher S.Hasher.Hasher state (Q.hash_input probe)) }
{}
