//! Invalidation by a predicate, one segment after another.
ghost use Rattle.std.specs.Prelude.{◌≡◌, ◌≢◌, ◌*◌, ◌^◌, ℕ};
ghost use Rattle.moka_common.specs.Keys.{keys_by};
ghost use Rattle.moka_segments.specs.Calls.{SameIn};
ghost use Rattle.moka_segments.specs.Notifying.{TellsEach, TellsLast};
ghost use Rattle.moka_segments.specs.TellsAll.{InvalidatesAllIf, InvalidatesIf};
ghost use Rattle.moka_row.specs.Visits.{IsIdle, IsPlace, at};

use crate::account::{Caller, Segments};
use crate::rule::Rule;
use crate::shared::Shared;
use crate::weigher::Weighing;
use moka_row::row::{leave, lock};
use moka_unsync_model::listener::Listener;
use std::hash::{BuildHasher, Hash};
use std::marker::Brand;
use std::snapshot::Snapshot;
use std::sync::Wait;

/// Removes the entries of a segment for which the predicate returns `true`.
fn invalidate_entries_if_in<
    K: Eq + Hash + Drop,
    V: Drop,
    S: BuildHasher + Drop,
    W: Weighing<K, V>,
    P: Rule<K, V>,
    F: FnMut(&K, &V) -> bool + Copy,
    L: Listener<K, V>,
    R: Wait,
>(
    rt: &R,
    row: &Segments<K, V, S, W, P>,
    me: &mut Caller<K, V, S, W>,
    i: usize,
    predicate: F,
    listener: &mut L,
)
    requires table { (me.old.table_id ≡ row.now.table_id) × IsPlace row.now.table_id i }
    requires idle { IsIdle row.now.key me.old.me }
    requires predicate { F.IsAlwaysCallable predicate }
    requires owns { (key : K) → P.rules.owns me.old.me.0.by key }
    ensures same { (me.new.table_id ≡ me.old.table_id) × (me.new.me.0.by ≡ me.old.me.0.by) }
    ensures idle { IsIdle row.now.key me.new.me }
    ensures made { InvalidatesIf (keys_by K.Hash S.BuildHasher S.Hasher.Hasher) W.weighs P.rules row.now.key F.step predicate me.old.me.0 i
        me.new.me.0 }
    ensures others { (j : ℕ) → j ≢ i → SameIn me.old.me.0 j me.new.me.0 }
    ensures told { TellsLast L.hears (keys_by K.Hash S.BuildHasher S.Hasher.Hasher) (at me.new.me.0.seen i) listener.old listener.new }
{
    lock(rt, row, me, i);
    let cache = me.slot_mut(row, i);
    let before = Snapshot::of(&*cache);
    cache.invalidate_entries_if_notifying(predicate, listener);
    let after = Snapshot::of(&*cache);
    leave::<_, _, _, _, _, Brand>(row, me, i, (before, after));
}

/// Removes the entries for which the predicate returns `true`, one segment after another.
pub(crate) fn invalidate_entries_if<
    K: Eq + Hash + Drop,
    V: Drop,
    S: BuildHasher + Drop,
    W: Weighing<K, V>,
    P: Rule<K, V>,
    F: FnMut(&K, &V) -> bool + Copy,
    L: Listener<K, V>,
    R: Wait,
>(
    rt: &R,
    shared: &Shared<K, V, S, W, P>,
    me: &mut Caller<K, V, S, W>,
    predicate: F,
    listener: &mut L,
)
    requires table { me.old.table_id ≡ shared.now.table.shared.table_id }
    requires idle { IsIdle shared.now.table.shared.key me.old.me }
    requires predicate { F.IsAlwaysCallable predicate }
    requires owns { (key : K) → P.rules.owns me.old.me.0.by key }
    ensures same { (me.new.table_id ≡ me.old.table_id) × (me.new.me.0.by ≡ me.old.me.0.by) }
    ensures idle { IsIdle shared.now.table.shared.key me.new.me }
    ensures made { InvalidatesAllIf (keys_by K.Hash S.BuildHasher S.Hasher.Hasher) W.weighs P.rules shared.now.table.shared.key F.step predicate me.old.me.0
        shared.now.plan.count me.new.me.0 }
    ensures told { TellsEach L.hears (keys_by K.Hash S.BuildHasher S.Hasher.Hasher) me.new.me.0.seen shared.now.plan.count listener.old listener.new }
{
    for i in 0..shared.plan.count {
        invalidate_entries_if_in(rt, &shared.table.shared, me, i, predicate, listener);
    }
}
