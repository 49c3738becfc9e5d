//! A get, and an insert if it finds nothing, in one visit.
ghost use Rattle.std.specs.Prelude.{◌≡◌, Ok, option_map};
ghost use Rattle.moka_common.specs.Keys.{keys_by};
ghost use Rattle.moka_unsync_model.specs.History.{Leads};
ghost use Rattle.moka_segments.specs.Notifying.{TellsAt, TellsIfPut, TellsVisit};
ghost use Rattle.moka_segments.specs.Plan.{place_of};
ghost use Rattle.moka_segments.specs.Put.{IsPut, TellsGot, TellsPut, TellsTried, visit_of};
ghost use Rattle.moka_segments.specs.Tells.{GetsOrInserts, TriesToInsert};
ghost use Rattle.moka_row.specs.Visits.{IsIdle};

use crate::account::Caller;
use crate::call::{looked, place_of};
use crate::rule::Rule;
use crate::shared::Shared;
use crate::weigher::{Asks, Weighing};
use moka_common::error::InsertError;
use moka_common::time::Instant;
use moka_row::row::{leave, lock};
use moka_unsync::cache::Cache;
use moka_unsync::error::TryInsertError;
use moka_unsync_model::listener::Listener;
use std::hash::{BuildHasher, Hash};
use std::marker::Brand;
use std::snapshot::Snapshot;
use std::sync::Wait;

/// A value that was put, and whether there was room for it.
type Put<V> = Option<(Snapshot<V>, bool)>;

/// Inserts a value that was made, and returns a clone of it. If memory is refused for the clone, nothing is inserted.
fn put<
    K: Eq + Hash + Drop,
    V: Clone + Drop,
    S: BuildHasher + Drop,
    W: Weighing<K, V>,
    L: Listener<K, V>,
>(
    cache: &mut Cache<K, V, S, Asks<W>>,
    key: K,
    hash: u64,
    now: Instant,
    value: V,
    listener: &mut L,
) -> (Result<V, InsertError>, Put<V>)
    requires hashed { hash ≡ (keys_by K.Hash S.BuildHasher S.Hasher.Hasher).hash_of cache.old.settings.hash_state key }
    requires ready { W.ready cache.old.weigher }
    ensures answered { TellsPut V.is_clone value (option_map (λ p. (p.0.value, p.1)) result.1) result.0 }
    ensures step { IsPut (keys_by K.Hash S.BuildHasher S.Hasher.Hasher) W.weighs cache.old key now (option_map (λ p. (p.0.value, p.1))
        result.1) cache.new }
    ensures ready { W.ready cache.new.weigher }
    ensures told { TellsIfPut L.hears (keys_by K.Hash S.BuildHasher S.Hasher.Hasher) cache.old key now (option_map (λ p. (p.0.value, p.1)) result.1)
        cache.new listener.old
        listener.new }
{
    let given = Snapshot::of(&value);
    let Ok(copy) = value.clone() else {
        return (Err(InsertError::OutOfMemory), None);
    };
    match cache.insert_notifying(key, hash, value, None, now, listener) {
        Ok(()) => (Ok(copy), Some((given, true))),
        Err(error) => (Err(error), Some((given, false))),
    }
}

/// The value that a get or insert found, the cache between get and insert, and the value that it put.
type Noted<K, V, S, W> = (
    Option<Snapshot<V>>,
    Snapshot<Cache<K, V, S, Asks<W>>>,
    Put<V>,
);

/// Returns a clone of the value of a key, or of one that is made and inserted.
fn get_or_put<
    K: Eq + Hash + Drop,
    V: Clone + Drop,
    S: BuildHasher + Drop,
    W: Weighing<K, V>,
    F: FnOnce() -> V,
    L: Listener<K, V>,
>(
    cache: &mut Cache<K, V, S, Asks<W>>,
    key: K,
    hash: u64,
    now: Instant,
    make: F,
    listener: &mut L,
) -> (Result<V, InsertError>, Noted<K, V, S, W>)
    requires hashed { hash ≡ (keys_by K.Hash S.BuildHasher S.Hasher.Hasher).hash_of cache.old.settings.hash_state key }
    requires ready { W.ready cache.old.weigher }
    requires make { F.pre make }
    ensures answered { TellsGot V.is_clone (F.post make) (option_map (λ s. s.value) result.1.0) (option_map (λ p. (p.0.value, p.1)) result.1.2) result.0 }
    ensures leads { Leads (keys_by K.Hash S.BuildHasher S.Hasher.Hasher) W.weighs cache.old
        (visit_of cache.old key now (option_map (λ s. s.value) result.1.0) result.1.1.value (option_map (λ p. (p.0.value, p.1)) result.1.2) cache.new)
        cache.new }
    ensures ready { W.ready cache.new.weigher }
    ensures told { TellsVisit L.hears (keys_by K.Hash S.BuildHasher S.Hasher.Hasher)
        (visit_of cache.old key now (option_map (λ s. s.value) result.1.0) result.1.1.value (option_map (λ p. (p.0.value, p.1)) result.1.2) cache.new)
        listener.old listener.new }
{
    let (found, told) = looked(cache.get_notifying(&key, hash, now, listener));
    let between = Snapshot::of(&*cache);
    match found {
        Ok(Some(copy)) => (Ok(copy), (told, between, None)),
        Err(_) => (Err(InsertError::OutOfMemory), (told, between, None)),
        Ok(None) => {
            let (result, put) = put(cache, key, hash, now, make(), listener);
            (result, (told, between, put))
        }
    }
}

/// Returns a clone of the value of a key, or of one that is made and inserted. If making it fails, that error is returned.
fn try_get_or_put<
    K: Eq + Hash + Drop,
    V: Clone + Drop,
    S: BuildHasher + Drop,
    W: Weighing<K, V>,
    E: Drop,
    F: FnOnce() -> Result<V, E>,
    L: Listener<K, V>,
>(
    cache: &mut Cache<K, V, S, Asks<W>>,
    key: K,
    hash: u64,
    now: Instant,
    make: F,
    listener: &mut L,
) -> (Result<V, TryInsertError<E>>, Noted<K, V, S, W>)
    requires hashed { hash ≡ (keys_by K.Hash S.BuildHasher S.Hasher.Hasher).hash_of cache.old.settings.hash_state key }
    requires ready { W.ready cache.old.weigher }
    requires make { F.pre make }
    ensures answered { TellsTried V.is_clone (F.post make) (option_map (λ s. s.value) result.1.0) (option_map (λ p. (p.0.value, p.1)) result.1.2) result.0 }
    ensures leads { Leads (keys_by K.Hash S.BuildHasher S.Hasher.Hasher) W.weighs cache.old
        (visit_of cache.old key now (option_map (λ s. s.value) result.1.0) result.1.1.value (option_map (λ p. (p.0.value, p.1)) result.1.2) cache.new)
        cache.new }
    ensures ready { W.ready cache.new.weigher }
    ensures told { TellsVisit L.hears (keys_by K.Hash S.BuildHasher S.Hasher.Hasher)
        (visit_of cache.old key now (option_map (λ s. s.value) result.1.0) result.1.1.value (option_map (λ p. (p.0.value, p.1)) result.1.2) cache.new)
        listener.old listener.new }
{
    let (found, told) = looked(cache.get_notifying(&key, hash, now, listener));
    let between = Snapshot::of(&*cache);
    match found {
        Ok(Some(copy)) => (Ok(copy), (told, between, None)),
        Err(_) => (Err(TryInsertError::OutOfMemory), (told, between, None)),
        Ok(None) => match make() {
            Err(error) => (Err(TryInsertError::Make(error)), (told, between, None)),
            Ok(value) => {
                let (result, put) = put(cache, key, hash, now, value, listener);
                let answer = match result {
                    Ok(copy) => Ok(copy),
                    Err(_) => Err(TryInsertError::OutOfMemory),
                };
                (answer, (told, between, put))
            }
        },
    }
}

/// Returns a clone of the value of a key, or of one that is made and inserted under the lock of the segment.
pub(crate) fn get_or_insert_with<
    K: Eq + Hash + Drop,
    V: Clone + Drop,
    S: BuildHasher + Drop,
    W: Weighing<K, V>,
    P: Rule<K, V>,
    F: FnOnce() -> V,
    L: Listener<K, V>,
    R: Wait,
>(
    rt: &R,
    shared: &Shared<K, V, S, W, P>,
    me: &mut Caller<K, V, S, W>,
    key: K,
    now: Instant,
    make: F,
    listener: &mut L,
) -> Result<V, InsertError>
    requires table { me.old.table_id ≡ shared.now.table.shared.table_id }
    requires idle { IsIdle shared.now.table.shared.key me.old.me }
    requires make { F.pre make }
    requires holds { (value : V) → F.post make value → P.rules.holds key value }
    requires owns { P.rules.owns me.old.me.0.by key }
    ensures same { me.new.table_id ≡ me.old.table_id }
    ensures idle { IsIdle shared.now.table.shared.key me.new.me }
    ensures made { GetsOrInserts (keys_by K.Hash S.BuildHasher S.Hasher.Hasher) W.weighs P.rules shared.now.table.shared.key V.is_clone
        (F.post make) me.old.me.0
        (place_of shared.now.table.shared.key (keys_by K.Hash S.BuildHasher S.Hasher.Hasher) key) key now result me.new.me.0 }
    ensures told { TellsAt L.hears (keys_by K.Hash S.BuildHasher S.Hasher.Hasher) shared.now.table.shared.key key me.new.me.0 listener.old
        listener.new }
{
    let row = &shared.table.shared;
    let (hash, i) = place_of(shared, &key);
    lock(rt, row, me, i);
    let cache = me.slot_mut(row, i);
    let before = Snapshot::of(&*cache);
    let asked = Snapshot::of(&key);
    let (result, noted) = get_or_put(cache, key, hash, now, make, listener);
    let after = Snapshot::of(&*cache);
    leave::<_, _, _, _, _, Brand>(row, me, i, (before, after, asked, now, noted));
    result
}

/// Returns a clone of a key's value, or of one that is made under the segment's lock and inserted, if making it succeeds.
pub(crate) fn try_get_or_insert_with<
    K: Eq + Hash + Drop,
    V: Clone + Drop,
    S: BuildHasher + Drop,
    W: Weighing<K, V>,
    P: Rule<K, V>,
    E: Drop,
    F: FnOnce() -> Result<V, E>,
    L: Listener<K, V>,
    R: Wait,
>(
    rt: &R,
    shared: &Shared<K, V, S, W, P>,
    me: &mut Caller<K, V, S, W>,
    key: K,
    now: Instant,
    make: F,
    listener: &mut L,
) -> Result<V, TryInsertError<E>>
    requires table { me.old.table_id ≡ shared.now.table.shared.table_id }
    requires idle { IsIdle shared.now.table.shared.key me.old.me }
    requires make { F.pre make }
    requires holds { (value : V) → F.post make (Ok value) → P.rules.holds key value }
    requires owns { P.rules.owns me.old.me.0.by key }
    ensures same { me.new.table_id ≡ me.old.table_id }
    ensures idle { IsIdle shared.now.table.shared.key me.new.me }
    ensures made { TriesToInsert (keys_by K.Hash S.BuildHasher S.Hasher.Hasher) W.weighs P.rules shared.now.table.shared.key V.is_clone
        (F.post make) me.old.me.0
        (place_of shared.now.table.shared.key (keys_by K.Hash S.BuildHasher S.Hasher.Hasher) key) key now result me.new.me.0 }
    ensures told { TellsAt L.hears (keys_by K.Hash S.BuildHasher S.Hasher.Hasher) shared.now.table.shared.key key me.new.me.0 listener.old
        listener.new }
{
    let row = &shared.table.shared;
    let (hash, i) = place_of(shared, &key);
    lock(rt, row, me, i);
    let cache = me.slot_mut(row, i);
    let before = Snapshot::of(&*cache);
    let asked = Snapshot::of(&key);
    let (result, noted) = try_get_or_put(cache, key, hash, now, make, listener);
    let after = Snapshot::of(&*cache);
    leave::<_, _, _, _, _, Brand>(row, me, i, (before, after, asked, now, noted));
    result
}
