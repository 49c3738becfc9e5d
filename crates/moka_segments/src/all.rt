//! Calls of all segments, one segment after another.
ghost use Rattle.std.specs.Prelude.{◌≡◌};
ghost use Rattle.moka_common.specs.Keys.{keys_by};
ghost use Rattle.moka_unsync_model.specs.Step.{Done, EntryCount, InvalidateAll, WeightedSize};
ghost use Rattle.moka_segments.specs.Calls.{MakesAll, Sums};
ghost use Rattle.moka_segments.specs.Notifying.{TellsEach};
ghost use Rattle.moka_row.specs.Visits.{IsIdle};

use crate::account::Caller;
use crate::rule::Rule;
use crate::shared::Shared;
use crate::visit;
use crate::weigher::Weighing;
use moka_unsync_model::listener::Listener;
use std::hash::{BuildHasher, Hash};
use std::sync::Wait;

/// Removes all entries.
pub(crate) fn invalidate_all<
    K: Eq + Hash + Drop,
    V: Drop,
    S: BuildHasher + Drop,
    W: Weighing<K, V>,
    P: Rule<K, V>,
    L: Listener<K, V>,
    R: Wait,
>(rt: &R, shared: &Shared<K, V, S, W, P>, me: &mut Caller<K, V, S, W>, listener: &mut L)
    requires table { me.old.table_id ≡ shared.now.table.shared.table_id }
    requires idle { IsIdle shared.now.table.shared.key me.old.me }
    requires owns { (key : K) → P.rules.owns me.old.me.0.by key }
    ensures same { (me.new.table_id ≡ me.old.table_id) × (me.new.me.0.by ≡ me.old.me.0.by) }
    ensures idle { IsIdle shared.now.table.shared.key me.new.me }
    ensures made { MakesAll (keys_by K.Hash S.BuildHasher S.Hasher.Hasher) W.weighs P.rules shared.now.table.shared.key me.old.me.0 shared.now.plan.count (λ _.
        InvalidateAll) (λ _. Done) me.new.me.0 }
    ensures told { TellsEach L.hears (keys_by K.Hash S.BuildHasher S.Hasher.Hasher) me.new.me.0.seen shared.now.plan.count listener.old listener.new }
{
    for i in 0..shared.plan.count {
        visit::invalidate_all(rt, &shared.table.shared, me, i, listener);
    }
}

/// Returns the number of entries of all segments, at most `u64::MAX`.
pub(crate) fn entry_count<
    K: Eq + Hash + Drop,
    V: Drop,
    S: BuildHasher + Drop,
    W: Weighing<K, V>,
    P: Rule<K, V>,
    R: Wait,
>(rt: &R, shared: &Shared<K, V, S, W, P>, me: &mut Caller<K, V, S, W>) -> u64
    requires table { me.old.table_id ≡ shared.now.table.shared.table_id }
    requires idle { IsIdle shared.now.table.shared.key me.old.me }
    ensures same { (me.new.table_id ≡ me.old.table_id) × (me.new.me.0.by ≡ me.old.me.0.by) }
    ensures idle { IsIdle shared.now.table.shared.key me.new.me }
    ensures made { Sums (keys_by K.Hash S.BuildHasher S.Hasher.Hasher) W.weighs P.rules shared.now.table.shared.key me.old.me.0
        shared.now.plan.count EntryCount result me.new.me.0 }
{
    let mut sum: u64 = 0;
    for i in 0..shared.plan.count {
        sum = sum.saturating_add(visit::entry_count(rt, &shared.table.shared, me, i));
    }
    sum
}

/// Returns the weight of all entries, at most `u64::MAX`.
pub(crate) fn weighted_size<
    K: Eq + Hash + Drop,
    V: Drop,
    S: BuildHasher + Drop,
    W: Weighing<K, V>,
    P: Rule<K, V>,
    R: Wait,
>(rt: &R, shared: &Shared<K, V, S, W, P>, me: &mut Caller<K, V, S, W>) -> u64
    requires table { me.old.table_id ≡ shared.now.table.shared.table_id }
    requires idle { IsIdle shared.now.table.shared.key me.old.me }
    ensures same { (me.new.table_id ≡ me.old.table_id) × (me.new.me.0.by ≡ me.old.me.0.by) }
    ensures idle { IsIdle shared.now.table.shared.key me.new.me }
    ensures made { Sums (keys_by K.Hash S.BuildHasher S.Hasher.Hasher) W.weighs P.rules shared.now.table.shared.key me.old.me.0
        shared.now.plan.count WeightedSize result
        me.new.me.0 }
{
    let mut sum: u64 = 0;
    for i in 0..shared.plan.count {
        sum = sum.saturating_add(visit::weighted_size(rt, &shared.table.shared, me, i));
    }
    sum
}
