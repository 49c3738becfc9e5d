//! Calls by probes, each a visit to the segment of the keys that the probe stands for.
ghost use Rattle.std.specs.Prelude.{◌≡◌, IsTrue};
ghost use Rattle.moka_common.specs.Keys.{hash_by, keys_by};
ghost use Rattle.moka_row.specs.Visits.{IsIdle, IsPlace};
ghost use Rattle.moka_segments.specs.Plan.{segment_of};
ghost use Rattle.moka_segments.specs.Probes.{GetsBy, InvalidatesBy, LooksBy, PeeksBy, RemovesBy, TellsAtHash};

use crate::account::Caller;
use crate::call::looked;
use crate::plan::segment_of;
use crate::rule::Rule;
use crate::shared::Shared;
use crate::weigher::Weighing;
use moka_common::error::OutOfMemory;
use moka_common::lookup::Lookup;
use moka_common::time::Instant;
use moka_row::row::{leave, lock};
use moka_unsync_model::listener::Listener;
use std::hash::{BuildHasher, Hash};
use std::marker::Brand;
use std::snapshot::Snapshot;
use std::sync::Wait;

/// Returns the hash of a probe, and the segment of the keys that it stands for.
#[inline]
pub(crate) fn place_by<
    Q: Copy + Hash,
    K: Eq + Hash + Drop,
    V: Drop,
    S: BuildHasher + Drop,
    W: Weighing<K, V>,
    P: Rule<K, V>,
>(shared: &Shared<K, V, S, W, P>, probe: Q) -> (u64, usize)
    ensures hash { result.0 ≡ hash_by S.BuildHasher S.Hasher.Hasher shared.now.table.shared.key.hash_state (Q.hash_input probe) }
    ensures place { segment_of result.0 shared.now.table.shared.key.count ≡ result.1 }
    ensures inside { IsPlace shared.now.table.shared.table_id result.1 }
{
    let hash = shared.plan.hash_state.hash_one(probe);
    (hash, segment_of(hash, shared.plan.count))
}

/// Returns a clone of the value of the key that the probe stands for, if it has an unexpired entry, and counts as a use.
#[inline]
pub(crate) fn get_by<
    Q: Lookup<K>,
    K: Eq + Hash + Drop,
    V: Clone + Drop,
    S: BuildHasher + Drop,
    W: Weighing<K, V>,
    P: Rule<K, V>,
    L: Listener<K, V>,
    R: Wait,
>(
    rt: &R,
    shared: &Shared<K, V, S, W, P>,
    me: &mut Caller<K, V, S, W>,
    probe: Q,
    now: Instant,
    listener: &mut L,
) -> Result<Option<V>, OutOfMemory>
    requires table { me.old.table_id ≡ shared.now.table.shared.table_id }
    requires idle { IsIdle shared.now.table.shared.key me.old.me }
    ensures same { me.new.table_id ≡ me.old.table_id }
    ensures idle { IsIdle shared.now.table.shared.key me.new.me }
    ensures made { GetsBy (keys_by K.Hash S.BuildHasher S.Hasher.Hasher) W.weighs P.rules shared.now.table.shared.key V.is_clone me.old.me.0
        (Q.stands_for probe) (hash_by S.BuildHasher S.Hasher.Hasher shared.now.table.shared.key.hash_state (Q.hash_input probe)) now result me.new.me.0 }
    ensures told { TellsAtHash L.hears (keys_by K.Hash S.BuildHasher S.Hasher.Hasher) shared.now.table.shared.key (hash_by S.BuildHasher S.Hasher.Hasher
        shared.now.table.shared.key.hash_state (Q.hash_input probe)) me.new.me.0 listener.old listener.new }
{
    let row = &shared.table.shared;
    let (hash, i) = place_by(shared, probe);
    lock(rt, row, me, i);
    let cache = me.slot_mut(row, i);
    let before = Snapshot::of(&*cache);
    let (found, told) = looked(cache.get_notifying(probe, hash, now, listener));
    let after = Snapshot::of(&*cache);
    leave::<_, _, _, _, _, Brand>(row, me, i, (before, after, probe, hash, now, told));
    found
}

/// Returns a clone of the value of the key that the probe stands for, if it has an unexpired entry, without counting as a use.
#[inline]
pub(crate) fn peek_by<
    Q: Lookup<K>,
    K: Eq + Hash + Drop,
    V: Clone + Drop,
    S: BuildHasher + Drop,
    W: Weighing<K, V>,
    P: Rule<K, V>,
    R: Wait,
>(
    rt: &R,
    shared: &Shared<K, V, S, W, P>,
    me: &mut Caller<K, V, S, W>,
    probe: Q,
    now: Instant,
) -> Result<Option<V>, OutOfMemory>
    requires table { me.old.table_id ≡ shared.now.table.shared.table_id }
    requires idle { IsIdle shared.now.table.shared.key me.old.me }
    ensures same { me.new.table_id ≡ me.old.table_id }
    ensures idle { IsIdle shared.now.table.shared.key me.new.me }
    ensures made { PeeksBy (keys_by K.Hash S.BuildHasher S.Hasher.Hasher) W.weighs P.rules shared.now.table.shared.key V.is_clone me.old.me.0
        (Q.stands_for probe) (hash_by S.BuildHasher S.Hasher.Hasher shared.now.table.shared.key.hash_state (Q.hash_input probe)) now result me.new.me.0 }
{
    let row = &shared.table.shared;
    let (hash, i) = place_by(shared, probe);
    lock(rt, row, me, i);
    let cache = me.slot_mut(row, i);
    let before = Snapshot::of(&*cache);
    let (found, told) = looked(cache.peek_hashed(probe, hash, now));
    let after = Snapshot::of(&*cache);
    leave::<_, _, _, _, _, Brand>(row, me, i, (before, after, probe, now, told));
    found
}

/// Returns `true` if the key that the probe stands for has an unexpired entry.
#[inline]
pub(crate) fn contains_by<
    Q: Lookup<K>,
    K: Eq + Hash + Drop,
    V: Drop,
    S: BuildHasher + Drop,
    W: Weighing<K, V>,
    P: Rule<K, V>,
    L: Listener<K, V>,
    R: Wait,
>(
    rt: &R,
    shared: &Shared<K, V, S, W, P>,
    me: &mut Caller<K, V, S, W>,
    probe: Q,
    now: Instant,
    listener: &mut L,
) -> bool
    requires table { me.old.table_id ≡ shared.now.table.shared.table_id }
    requires idle { IsIdle shared.now.table.shared.key me.old.me }
    ensures same { me.new.table_id ≡ me.old.table_id }
    ensures idle { IsIdle shared.now.table.shared.key me.new.me }
    ensures made { LooksBy (keys_by K.Hash S.BuildHasher S.Hasher.Hasher) W.weighs P.rules shared.now.table.shared.key me.old.me.0 (Q.stands_for probe)
        (hash_by S.BuildHasher S.Hasher.Hasher shared.now.table.shared.key.hash_state (Q.hash_input probe)) now result me.new.me.0 }
    ensures told { TellsAtHash L.hears (keys_by K.Hash S.BuildHasher S.Hasher.Hasher) shared.now.table.shared.key (hash_by S.BuildHasher S.Hasher.Hasher
        shared.now.table.shared.key.hash_state (Q.hash_input probe)) me.new.me.0 listener.old listener.new }
{
    let row = &shared.table.shared;
    let (hash, i) = place_by(shared, probe);
    lock(rt, row, me, i);
    let cache = me.slot_mut(row, i);
    let before = Snapshot::of(&*cache);
    let found = cache.contains_notifying(probe, hash, now, listener);
    let after = Snapshot::of(&*cache);
    leave::<_, _, _, _, _, Brand>(row, me, i, (before, after, probe, now, found));
    found
}

/// Removes the entry of the key that the probe stands for.
#[inline]
pub(crate) fn invalidate_by<
    Q: Lookup<K>,
    K: Eq + Hash + Drop,
    V: Drop,
    S: BuildHasher + Drop,
    W: Weighing<K, V>,
    P: Rule<K, V>,
    L: Listener<K, V>,
    R: Wait,
>(
    rt: &R,
    shared: &Shared<K, V, S, W, P>,
    me: &mut Caller<K, V, S, W>,
    probe: Q,
    now: Instant,
    listener: &mut L,
)
    requires table { me.old.table_id ≡ shared.now.table.shared.table_id }
    requires idle { IsIdle shared.now.table.shared.key me.old.me }
    requires owns { (key : K) → IsTrue (Q.stands_for probe key) → P.rules.owns me.old.me.0.by key }
    ensures same { me.new.table_id ≡ me.old.table_id }
    ensures idle { IsIdle shared.now.table.shared.key me.new.me }
    ensures made { InvalidatesBy (keys_by K.Hash S.BuildHasher S.Hasher.Hasher) W.weighs P.rules shared.now.table.shared.key me.old.me.0 (Q.stands_for
        probe) (hash_by S.BuildHasher S.Hasher.Hasher shared.now.table.shared.key.hash_state (Q.hash_input probe)) now me.new.me.0 }
    ensures told { TellsAtHash L.hears (keys_by K.Hash S.BuildHasher S.Hasher.Hasher) shared.now.table.shared.key (hash_by S.BuildHasher S.Hasher.Hasher
        shared.now.table.shared.key.hash_state (Q.hash_input probe)) me.new.me.0 listener.old listener.new }
{
    let row = &shared.table.shared;
    let (hash, i) = place_by(shared, probe);
    lock(rt, row, me, i);
    let cache = me.slot_mut(row, i);
    let before = Snapshot::of(&*cache);
    cache.invalidate_notifying(probe, hash, now, listener);
    let after = Snapshot::of(&*cache);
    leave::<_, _, _, _, _, Brand>(row, me, i, (before, after, probe, now));
}

/// Removes the entry of the key that the probe stands for, and returns its value, unless it is expired.
#[inline]
pub(crate) fn remove_by<
    Q: Lookup<K>,
    K: Eq + Hash + Drop,
    V: Drop,
    S: BuildHasher + Drop,
    W: Weighing<K, V>,
    P: Rule<K, V>,
    L: Listener<K, V>,
    R: Wait,
>(
    rt: &R,
    shared: &Shared<K, V, S, W, P>,
    me: &mut Caller<K, V, S, W>,
    probe: Q,
    now: Instant,
    listener: &mut L,
) -> Option<V>
    requires table { me.old.table_id ≡ shared.now.table.shared.table_id }
    requires idle { IsIdle shared.now.table.shared.key me.old.me }
    requires owns { (key : K) → IsTrue (Q.stands_for probe key) → P.rules.owns me.old.me.0.by key }
    ensures same { me.new.table_id ≡ me.old.table_id }
    ensures idle { IsIdle shared.now.table.shared.key me.new.me }
    ensures made { RemovesBy (keys_by K.Hash S.BuildHasher S.Hasher.Hasher) W.weighs P.rules shared.now.table.shared.key me.old.me.0 (Q.stands_for
        probe) (hash_by S.BuildHasher S.Hasher.Hasher shared.now.table.shared.key.hash_state (Q.hash_input probe)) now result me.new.me.0 }
    ensures told { TellsAtHash L.hears (keys_by K.Hash S.BuildHasher S.Hasher.Hasher) shared.now.table.shared.key (hash_by S.BuildHasher S.Hasher.Hasher
        shared.now.table.shared.key.hash_state (Q.hash_input probe)) me.new.me.0 listener.old listener.new }
{
    let row = &shared.table.shared;
    let (hash, i) = place_by(shared, probe);
    lock(rt, row, me, i);
    let cache = me.slot_mut(row, i);
    let before = Snapshot::of(&*cache);
    let found = cache.remove_notifying(probe, hash, now, listener);
    let told = Snapshot::of(&found);
    let after = Snapshot::of(&*cache);
    leave::<_, _, _, _, _, Brand>(row, me, i, (before, after, probe, now, told));
    found
}
