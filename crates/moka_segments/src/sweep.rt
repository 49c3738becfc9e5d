//! Removal of expired entries, one segment after another.
ghost use Rattle.std.specs.Prelude.{◌≡◌, ◌≢◌, ◌*◌, ℕ};
ghost use Rattle.moka_common.specs.Keys.{keys_by};
ghost use Rattle.moka_segments.specs.Calls.{SameIn};
ghost use Rattle.moka_segments.specs.Notifying.{TellsEachSwept, TellsSweptLast};
ghost use Rattle.moka_segments.specs.TellsAll.{Sweeps, SweepsAll};
ghost use Rattle.moka_row.specs.Visits.{IsIdle, IsPlace, at};

use crate::account::{Caller, Segments};
use crate::rule::Rule;
use crate::shared::Shared;
use crate::weigher::Weighing;
use moka_common::time::Instant;
use moka_row::row::{leave, lock};
use moka_unsync_model::listener::Listener;
use std::hash::{BuildHasher, Hash};
use std::marker::Brand;
use std::snapshot::Snapshot;
use std::sync::Wait;

/// Removes the expired entries of a segment.
fn remove_expired_in<
    K: Eq + Hash + Drop,
    V: Drop,
    S: BuildHasher + Drop,
    W: Weighing<K, V>,
    P: Rule<K, V>,
    L: Listener<K, V>,
    R: Wait,
>(
    rt: &R,
    row: &Segments<K, V, S, W, P>,
    me: &mut Caller<K, V, S, W>,
    i: usize,
    now: Instant,
    listener: &mut L,
)
    requires table { (me.old.table_id ≡ row.now.table_id) × IsPlace row.now.table_id i }
    requires idle { IsIdle row.now.key me.old.me }
    requires owns { (key : K) → P.rules.owns me.old.me.0.by key }
    ensures same { (me.new.table_id ≡ me.old.table_id) × (me.new.me.0.by ≡ me.old.me.0.by) }
    ensures idle { IsIdle row.now.key me.new.me }
    ensures made { Sweeps (keys_by K.Hash S.BuildHasher S.Hasher.Hasher) W.weighs P.rules row.now.key now me.old.me.0 i me.new.me.0 }
    ensures others { (j : ℕ) → j ≢ i → SameIn me.old.me.0 j me.new.me.0 }
    ensures told { TellsSweptLast L.hears (keys_by K.Hash S.BuildHasher S.Hasher.Hasher) now (at me.new.me.0.seen i) listener.old listener.new }
{
    lock(rt, row, me, i);
    let cache = me.slot_mut(row, i);
    let before = Snapshot::of(&*cache);
    cache.remove_expired_notifying(now, listener);
    let after = Snapshot::of(&*cache);
    leave::<_, _, _, _, _, Brand>(row, me, i, (before, after));
}

/// Removes all expired entries, one segment after another.
pub(crate) fn remove_expired<
    K: Eq + Hash + Drop,
    V: Drop,
    S: BuildHasher + Drop,
    W: Weighing<K, V>,
    P: Rule<K, V>,
    L: Listener<K, V>,
    R: Wait,
>(
    rt: &R,
    shared: &Shared<K, V, S, W, P>,
    me: &mut Caller<K, V, S, W>,
    now: Instant,
    listener: &mut L,
)
    requires table { me.old.table_id ≡ shared.now.table.shared.table_id }
    requires idle { IsIdle shared.now.table.shared.key me.old.me }
    requires owns { (key : K) → P.rules.owns me.old.me.0.by key }
    ensures same { (me.new.table_id ≡ me.old.table_id) × (me.new.me.0.by ≡ me.old.me.0.by) }
    ensures idle { IsIdle shared.now.table.shared.key me.new.me }
    ensures made { SweepsAll (keys_by K.Hash S.BuildHasher S.Hasher.Hasher) W.weighs P.rules shared.now.table.shared.key now me.old.me.0
        shared.now.plan.count me.new.me.0 }
    ensures told { TellsEachSwept L.hears (keys_by K.Hash S.BuildHasher S.Hasher.Hasher) now me.new.me.0.seen shared.now.plan.count listener.old listener.new }
{
    for i in 0..shared.plan.count {
        remove_expired_in(rt, &shared.table.shared, me, i, now, listener);
    }
}
