//! Calls of one key, each a visit to the key's segment: the key is hashed once, and the call is noted as the lock is given back.
ghost use Rattle.std.specs.Prelude.{◌≡◌, ◌*◌, [], OnOk, Option, option_copied, option_map};
ghost use Rattle.std.specs.Duration.{as_nanos};
ghost use Rattle.moka_common.specs.Keys.{keys_by};
ghost use Rattle.moka_unsync_model.specs.Step.{Done, Invalidate};
ghost use Rattle.moka_segments.specs.Calls.{Makes};
ghost use Rattle.moka_segments.specs.Notifying.{TellsAt};
ghost use Rattle.moka_segments.specs.Plan.{place_of};
ghost use Rattle.moka_segments.specs.Tells.{Gets, Inserts, Looks, Peeks, Removes, TellsClone, TimedInserts};
ghost use Rattle.moka_row.specs.Visits.{IsIdle, IsPlace};

use crate::account::Caller;
use crate::plan::segment_of;
use crate::rule::Rule;
use crate::shared::Shared;
use crate::weigher::Weighing;
use moka_common::error::{InsertError, OutOfMemory};
use moka_common::time::Instant;
use moka_row::row::{leave, lock};
use moka_unsync::error::TimedInsertError;
use moka_unsync_model::listener::Listener;
use std::hash::{BuildHasher, Hash};
use std::marker::Brand;
use std::snapshot::Snapshot;
use std::sync::Wait;
use std::time::Duration;

/// Returns the hash of a key, and its segment.
#[inline]
pub(crate) fn place_of<
    K: Eq + Hash + Drop,
    V: Drop,
    S: BuildHasher + Drop,
    W: Weighing<K, V>,
    P: Rule<K, V>,
>(shared: &Shared<K, V, S, W, P>, key: &K) -> (u64, usize)
    ensures hash { result.0 ≡ (keys_by K.Hash S.BuildHasher S.Hasher.Hasher).hash_of shared.now.table.shared.key.hash_state key.now }
    ensures place { place_of shared.now.table.shared.key (keys_by K.Hash S.BuildHasher S.Hasher.Hasher) key.now ≡ result.1 }
    ensures inside { IsPlace shared.now.table.shared.table_id result.1 }
{
    let hash = shared.plan.hash_state.hash_one(key);
    (hash, segment_of(hash, shared.plan.count))
}

/// Clones what was found, and returns a snapshot of it for the proofs.
#[inline]
pub(crate) fn looked<V: Clone>(
    found: Option<&V>,
) -> (Result<Option<V>, OutOfMemory>, Option<Snapshot<V>>)
    ensures told { TellsClone V.is_clone (option_copied found.entry) result.0 }
    ensures seen { option_map (λ s. s.value) result.1 ≡ option_copied found.entry }
{
    match found {
        None => (Ok(None), None),
        Some(value) => {
            let seen = Snapshot::of(value);
            match value.clone() {
                Ok(copy) => (Ok(Some(copy)), Some(seen)),
                Err(_) => (Err(OutOfMemory), Some(seen)),
            }
        }
    }
}

/// Returns a clone of the value of the key's unexpired entry, if there is one, and counts as a use.
#[inline]
pub(crate) fn get<
    K: Eq + Hash + Drop,
    V: Clone + Drop,
    S: BuildHasher + Drop,
    W: Weighing<K, V>,
    P: Rule<K, V>,
    L: Listener<K, V>,
    R: Wait,
>(
    rt: &R,
    shared: &Shared<K, V, S, W, P>,
    me: &mut Caller<K, V, S, W>,
    key: &K,
    now: Instant,
    listener: &mut L,
) -> Result<Option<V>, OutOfMemory>
    requires table { me.old.table_id ≡ shared.now.table.shared.table_id }
    requires idle { IsIdle shared.now.table.shared.key me.old.me }
    ensures same { me.new.table_id ≡ me.old.table_id }
    ensures idle { IsIdle shared.now.table.shared.key me.new.me }
    ensures made { Gets (keys_by K.Hash S.BuildHasher S.Hasher.Hasher) W.weighs P.rules shared.now.table.shared.key V.is_clone me.old.me.0
        key.now now result me.new.me.0 }
    ensures told { TellsAt L.hears (keys_by K.Hash S.BuildHasher S.Hasher.Hasher) shared.now.table.shared.key key.now me.new.me.0 listener.old
        listener.new }
{
    let row = &shared.table.shared;
    let (hash, i) = place_of(shared, key);
    lock(rt, row, me, i);
    let cache = me.slot_mut(row, i);
    let before = Snapshot::of(&*cache);
    let (found, told) = looked(cache.get_notifying(key, hash, now, listener));
    let after = Snapshot::of(&*cache);
    leave::<_, _, _, _, _, Brand>(row, me, i, (before, after, key, now, told));
    found
}

/// Returns a clone of the value of the key's unexpired entry, if there is one, without counting as a use.
#[inline]
pub(crate) fn peek<
    K: Eq + Hash + Drop,
    V: Clone + Drop,
    S: BuildHasher + Drop,
    W: Weighing<K, V>,
    P: Rule<K, V>,
    R: Wait,
>(
    rt: &R,
    shared: &Shared<K, V, S, W, P>,
    me: &mut Caller<K, V, S, W>,
    key: &K,
    now: Instant,
) -> Result<Option<V>, OutOfMemory>
    requires table { me.old.table_id ≡ shared.now.table.shared.table_id }
    requires idle { IsIdle shared.now.table.shared.key me.old.me }
    ensures same { me.new.table_id ≡ me.old.table_id }
    ensures idle { IsIdle shared.now.table.shared.key me.new.me }
    ensures made { Peeks (keys_by K.Hash S.BuildHasher S.Hasher.Hasher) W.weighs P.rules shared.now.table.shared.key V.is_clone me.old.me.0
        key.now now result me.new.me.0 }
{
    let row = &shared.table.shared;
    let (hash, i) = place_of(shared, key);
    lock(rt, row, me, i);
    let cache = me.slot_mut(row, i);
    let before = Snapshot::of(&*cache);
    let (found, told) = looked(cache.peek_hashed(key, hash, now));
    let after = Snapshot::of(&*cache);
    leave::<_, _, _, _, _, Brand>(row, me, i, (before, after, key, now, told));
    found
}

/// Returns `true` if the key has an unexpired entry.
#[inline]
pub(crate) fn contains_key<
    K: Eq + Hash + Drop,
    V: Drop,
    S: BuildHasher + Drop,
    W: Weighing<K, V>,
    P: Rule<K, V>,
    L: Listener<K, V>,
    R: Wait,
>(
    rt: &R,
    shared: &Shared<K, V, S, W, P>,
    me: &mut Caller<K, V, S, W>,
    key: &K,
    now: Instant,
    listener: &mut L,
) -> bool
    requires table { me.old.table_id ≡ shared.now.table.shared.table_id }
    requires idle { IsIdle shared.now.table.shared.key me.old.me }
    ensures same { me.new.table_id ≡ me.old.table_id }
    ensures idle { IsIdle shared.now.table.shared.key me.new.me }
    ensures made { Looks (keys_by K.Hash S.BuildHasher S.Hasher.Hasher) W.weighs P.rules shared.now.table.shared.key me.old.me.0 key.now now
        result me.new.me.0 }
    ensures told { TellsAt L.hears (keys_by K.Hash S.BuildHasher S.Hasher.Hasher) shared.now.table.shared.key key.now me.new.me.0 listener.old
        listener.new }
{
    let row = &shared.table.shared;
    let (hash, i) = place_of(shared, key);
    lock(rt, row, me, i);
    let cache = me.slot_mut(row, i);
    let before = Snapshot::of(&*cache);
    let found = cache.contains_notifying(key, hash, now, listener);
    let after = Snapshot::of(&*cache);
    leave::<_, _, _, _, _, Brand>(row, me, i, (before, after, key, now, found));
    found
}

/// Puts the value at the key.
#[inline]
pub(crate) fn insert<
    K: Eq + Hash + Drop,
    V: Drop,
    S: BuildHasher + Drop,
    W: Weighing<K, V>,
    P: Rule<K, V>,
    L: Listener<K, V>,
    R: Wait,
>(
    rt: &R,
    shared: &Shared<K, V, S, W, P>,
    me: &mut Caller<K, V, S, W>,
    key: K,
    value: V,
    time_to_live: Option<Duration>,
    now: Instant,
    listener: &mut L,
) -> Result<(), InsertError>
    requires table { me.old.table_id ≡ shared.now.table.shared.table_id }
    requires idle { IsIdle shared.now.table.shared.key me.old.me }
    requires holds { P.rules.holds key value }
    requires owns { P.rules.owns me.old.me.0.by key }
    ensures same { me.new.table_id ≡ me.old.table_id }
    ensures idle { IsIdle shared.now.table.shared.key me.new.me }
    ensures made { Inserts (keys_by K.Hash S.BuildHasher S.Hasher.Hasher) W.weighs P.rules shared.now.table.shared.key me.old.me.0 key value
        (option_map as_nanos time_to_live) now result me.new.me.0 }
    ensures told { TellsAt L.hears (keys_by K.Hash S.BuildHasher S.Hasher.Hasher) shared.now.table.shared.key key me.new.me.0 listener.old
        listener.new }
{
    let row = &shared.table.shared;
    let (hash, i) = place_of(shared, &key);
    lock(rt, row, me, i);
    let cache = me.slot_mut(row, i);
    let before = Snapshot::of(&*cache);
    let asked = Snapshot::of(&key);
    let given = Snapshot::of(&value);
    let found = cache.insert_notifying(key, hash, value, time_to_live, now, listener);
    let after = Snapshot::of(&*cache);
    leave::<_, _, _, _, _, Brand>(
        row,
        me,
        i,
        (before, after, asked, given, time_to_live, now, found),
    );
    found
}

/// Inserts a value with a time to live of its own, in a cache that has one too.
pub(crate) fn insert_with_time_to_live<
    K: Eq + Hash + Drop,
    V: Drop,
    S: BuildHasher + Drop,
    W: Weighing<K, V>,
    P: Rule<K, V>,
    L: Listener<K, V>,
    R: Wait,
>(
    rt: &R,
    shared: &Shared<K, V, S, W, P>,
    me: &mut Caller<K, V, S, W>,
    key: K,
    value: V,
    time_to_live: Duration,
    now: Instant,
    listener: &mut L,
) -> Result<(), TimedInsertError>
    requires table { me.old.table_id ≡ shared.now.table.shared.table_id }
    requires idle { IsIdle shared.now.table.shared.key me.old.me }
    requires holds { P.rules.holds key value }
    requires owns { P.rules.owns me.old.me.0.by key }
    ensures same { me.new.table_id ≡ me.old.table_id }
    ensures idle { IsIdle shared.now.table.shared.key me.new.me }
    ensures made { TimedInserts (keys_by K.Hash S.BuildHasher S.Hasher.Hasher) W.weighs P.rules shared.now.table.shared.key me.old.me.0 key value
        (as_nanos time_to_live) now result me.new.me.0 }
    ensures told { OnOk result (TellsAt L.hears (keys_by K.Hash S.BuildHasher S.Hasher.Hasher) shared.now.table.shared.key key me.new.me.0
        listener.old listener.new) }
{
    if shared.plan.policy.time_to_live().is_none() {
        return Err(TimedInsertError::NoTimeToLive);
    }
    match insert(
        rt,
        shared,
        me,
        key,
        value,
        Some(time_to_live),
        now,
        listener,
    ) {
        Ok(()) => Ok(()),
        Err(_) => Err(TimedInsertError::OutOfMemory),
    }
}

/// Removes the entry of the key.
#[inline]
pub(crate) fn invalidate<
    K: Eq + Hash + Drop,
    V: Drop,
    S: BuildHasher + Drop,
    W: Weighing<K, V>,
    P: Rule<K, V>,
    L: Listener<K, V>,
    R: Wait,
>(
    rt: &R,
    shared: &Shared<K, V, S, W, P>,
    me: &mut Caller<K, V, S, W>,
    key: &K,
    now: Instant,
    listener: &mut L,
)
    requires table { me.old.table_id ≡ shared.now.table.shared.table_id }
    requires idle { IsIdle shared.now.table.shared.key me.old.me }
    requires owns { P.rules.owns me.old.me.0.by key.now }
    ensures same { me.new.table_id ≡ me.old.table_id }
    ensures idle { IsIdle shared.now.table.shared.key me.new.me }
    ensures made { Makes (keys_by K.Hash S.BuildHasher S.Hasher.Hasher) W.weighs P.rules shared.now.table.shared.key me.old.me.0 (place_of
        shared.now.table.shared.key (keys_by K.Hash S.BuildHasher S.Hasher.Hasher) key.now) (Invalidate key.now now) Done me.new.me.0 }
    ensures told { TellsAt L.hears (keys_by K.Hash S.BuildHasher S.Hasher.Hasher) shared.now.table.shared.key key.now me.new.me.0 listener.old
        listener.new }
{
    let row = &shared.table.shared;
    let (hash, i) = place_of(shared, key);
    lock(rt, row, me, i);
    let cache = me.slot_mut(row, i);
    let before = Snapshot::of(&*cache);
    cache.invalidate_notifying(key, hash, now, listener);
    let after = Snapshot::of(&*cache);
    leave::<_, _, _, _, _, Brand>(row, me, i, (before, after, key, now));
}

/// Removes the entry of the key, and returns its value, unless it is expired.
#[inline]
pub(crate) fn remove<
    K: Eq + Hash + Drop,
    V: Drop,
    S: BuildHasher + Drop,
    W: Weighing<K, V>,
    P: Rule<K, V>,
    L: Listener<K, V>,
    R: Wait,
>(
    rt: &R,
    shared: &Shared<K, V, S, W, P>,
    me: &mut Caller<K, V, S, W>,
    key: &K,
    now: Instant,
    listener: &mut L,
) -> Option<V>
    requires table { me.old.table_id ≡ shared.now.table.shared.table_id }
    requires idle { IsIdle shared.now.table.shared.key me.old.me }
    requires owns { P.rules.owns me.old.me.0.by key.now }
    ensures same { me.new.table_id ≡ me.old.table_id }
    ensures idle { IsIdle shared.now.table.shared.key me.new.me }
    ensures made { Removes (keys_by K.Hash S.BuildHasher S.Hasher.Hasher) W.weighs P.rules shared.now.table.shared.key me.old.me.0 key.now
        now result me.new.me.0 }
    ensures told { TellsAt L.hears (keys_by K.Hash S.BuildHasher S.Hasher.Hasher) shared.now.table.shared.key key.now me.new.me.0 listener.old
        listener.new }
{
    let row = &shared.table.shared;
    let (hash, i) = place_of(shared, key);
    lock(rt, row, me, i);
    let cache = me.slot_mut(row, i);
    let before = Snapshot::of(&*cache);
    let found = cache.remove_notifying(key, hash, now, listener);
    let told = Snapshot::of(&found);
    let after = Snapshot::of(&*cache);
    leave::<_, _, _, _, _, Brand>(row, me, i, (before, after, key, now, told));
    found
}
