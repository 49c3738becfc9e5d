//! Calls of a whole segment, each a visit.
ghost use Rattle.std.specs.Prelude.{◌≡◌, ◌*◌};
ghost use Rattle.moka_common.specs.Keys.{keys_by};
ghost use Rattle.moka_unsync_model.specs.Step.{Done, EntryCount, InvalidateAll, Number, WeightedSize};
ghost use Rattle.moka_segments.specs.Calls.{Makes};
ghost use Rattle.moka_segments.specs.Notifying.{TellsLast};
ghost use Rattle.moka_row.specs.Visits.{IsIdle, IsPlace, at};

use crate::account::{Caller, Segments};
use crate::rule::Rule;
use crate::weigher::Weighing;
use moka_row::row::{leave, lock};
use moka_unsync_model::listener::Listener;
use std::hash::{BuildHasher, Hash};
use std::marker::Brand;
use std::snapshot::Snapshot;
use std::sync::Wait;

/// Removes all entries.
#[inline]
pub(crate) fn invalidate_all<
    K: Eq + Hash + Drop,
    V: Drop,
    S: BuildHasher + Drop,
    W: Weighing<K, V>,
    P: Rule<K, V>,
    L: Listener<K, V>,
    R: Wait,
>(rt: &R, row: &Segments<K, V, S, W, P>, me: &mut Caller<K, V, S, W>, i: usize, listener: &mut L)
    requires table { (me.old.table_id ≡ row.now.table_id) × IsPlace row.now.table_id i }
    requires idle { IsIdle row.now.key me.old.me }
    requires owns { (key : K) → P.rules.owns me.old.me.0.by key }
    ensures same { (me.new.table_id ≡ me.old.table_id) × (me.new.me.0.by ≡ me.old.me.0.by) }
    ensures idle { IsIdle row.now.key me.new.me }
    ensures made { Makes (keys_by K.Hash S.BuildHasher S.Hasher.Hasher) W.weighs P.rules row.now.key me.old.me.0 i InvalidateAll Done me.new.me.0 }
    ensures told { TellsLast L.hears (keys_by K.Hash S.BuildHasher S.Hasher.Hasher) (at me.new.me.0.seen i) listener.old listener.new }
{
    lock(rt, row, me, i);
    let cache = me.slot_mut(row, i);
    let before = Snapshot::of(&*cache);
    cache.invalidate_all_notifying(listener);
    let after = Snapshot::of(&*cache);
    leave::<_, _, _, _, _, Brand>(row, me, i, (before, after));
}

/// Returns the number of entries.
#[inline]
pub(crate) fn entry_count<
    K: Eq + Hash + Drop,
    V: Drop,
    S: BuildHasher + Drop,
    W: Weighing<K, V>,
    P: Rule<K, V>,
    R: Wait,
>(rt: &R, row: &Segments<K, V, S, W, P>, me: &mut Caller<K, V, S, W>, i: usize) -> u64
    requires table { (me.old.table_id ≡ row.now.table_id) × IsPlace row.now.table_id i }
    requires idle { IsIdle row.now.key me.old.me }
    ensures same { (me.new.table_id ≡ me.old.table_id) × (me.new.me.0.by ≡ me.old.me.0.by) }
    ensures idle { IsIdle row.now.key me.new.me }
    ensures made { Makes (keys_by K.Hash S.BuildHasher S.Hasher.Hasher) W.weighs P.rules row.now.key me.old.me.0 i EntryCount (Number
        result) me.new.me.0 }
{
    lock(rt, row, me, i);
    let cache = me.slot_mut(row, i);
    let before = Snapshot::of(&*cache);
    let found = cache.entry_count();
    let after = Snapshot::of(&*cache);
    leave::<_, _, _, _, _, Brand>(row, me, i, (before, after, found));
    found
}

/// Returns the weight of all entries.
#[inline]
pub(crate) fn weighted_size<
    K: Eq + Hash + Drop,
    V: Drop,
    S: BuildHasher + Drop,
    W: Weighing<K, V>,
    P: Rule<K, V>,
    R: Wait,
>(rt: &R, row: &Segments<K, V, S, W, P>, me: &mut Caller<K, V, S, W>, i: usize) -> u64
    requires table { (me.old.table_id ≡ row.now.table_id) × IsPlace row.now.table_id i }
    requires idle { IsIdle row.now.key me.old.me }
    ensures same { (me.new.table_id ≡ me.old.table_id) × (me.new.me.0.by ≡ me.old.me.0.by) }
    ensures idle { IsIdle row.now.key me.new.me }
    ensures made { Makes (keys_by K.Hash S.BuildHasher S.Hasher.Hasher) W.weighs P.rules row.now.key me.old.me.0 i WeightedSize (Number
        result) me.new.me.0 }
{
    lock(rt, row, me, i);
    let cache = me.slot_mut(row, i);
    let before = Snapshot::of(&*cache);
    let found = cache.weighted_size();
    let after = Snapshot::of(&*cache);
    leave::<_, _, _, _, _, Brand>(row, me, i, (before, after, found));
    found
}
