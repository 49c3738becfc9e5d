//! Snapshots of a cache: clones of its live pairs.
ghost use Rattle.std.specs.Prelude.{◌≡◌, ◌*◌, ◌^◌, IfOk, List, OnOk};
ghost use Rattle.std.specs.List.{AppendsClones};
ghost use Rattle.moka_common.specs.Keys.{keys_by};
ghost use Rattle.moka_unsync_model.specs.Step.{Iterate, Pairs};
ghost use Rattle.moka_segments.specs.Calls.{Makes};
ghost use Rattle.moka_segments.specs.TellsAll.{IsPairClone, TellsSnapshot};
ghost use Rattle.moka_row.specs.Visits.{IsIdle, IsPlace};

use crate::account::{Caller, Segments};
use crate::rule::Rule;
use crate::shared::Shared;
use crate::weigher::Weighing;
use moka_common::error::OutOfMemory;
use moka_common::time::Instant;
use moka_row::row::{leave, leave_unsaid, lock};
use moka_unsync::cache::Iter;
use std::alloc::{AllocError, Global};
use std::hash::{BuildHasher, Hash};
use std::marker::Brand;
use std::snapshot::Snapshot;
use std::sync::Wait;

/// Adds clones of the pairs that an iterator gives.
fn add_clones<K: Clone + Drop, V: Clone + Drop>(
    pairs: &mut Vec<(K, V)>,
    entries: Iter<'_, K, V>,
) -> Result<(), AllocError>
    ensures { OnOk result (AppendsClones (IsPairClone K.is_clone V.is_clone) pairs.old.items pairs.new.items entries.entry) }
{
    for (key, value) in entries {
        pairs.push((key.clone()?, value.clone()?))?;
    }
    Ok(())
}

/// Adds clones of the live pairs of a segment, in order of use.
fn add_segment<
    K: Eq + Hash + Clone + Drop,
    V: Clone + Drop,
    S: BuildHasher + Drop,
    W: Weighing<K, V>,
    P: Rule<K, V>,
    R: Wait,
>(
    rt: &R,
    pairs: &mut Vec<(K, V)>,
    row: &Segments<K, V, S, W, P>,
    me: &mut Caller<K, V, S, W>,
    i: usize,
    now: Instant,
) -> Result<(), OutOfMemory>
    requires table { (me.old.table_id ≡ row.now.table_id) × IsPlace row.now.table_id i }
    requires idle { IsIdle row.now.key me.old.me }
    ensures same { (me.new.table_id ≡ me.old.table_id) × (me.new.me.0.by ≡ me.old.me.0.by) }
    ensures idle { IsIdle row.now.key me.new.me }
    ensures made { OnOk result ((found : List (K × V)) × AppendsClones (IsPairClone K.is_clone V.is_clone) pairs.old.items pairs.new.items found
        × Makes (keys_by K.Hash S.BuildHasher S.Hasher.Hasher) W.weighs P.rules row.now.key me.old.me.0 i (Iterate now) (Pairs found)
        me.new.me.0) }
{
    lock(rt, row, me, i);
    let cache = me.slot_mut(row, i);
    let before = Snapshot::of(&*cache);
    match add_clones(pairs, cache.iter(now)) {
        Ok(()) => {
            let after = Snapshot::of(&*cache);
            leave::<_, _, _, _, _, Brand>(row, me, i, (before, after, now));
            Ok(())
        }
        Err(_) => {
            leave_unsaid(row, me, i);
            Err(OutOfMemory)
        }
    }
}

/// Clones the live pairs of all segments, one segment after another.
pub(crate) fn snapshot<
    K: Eq + Hash + Clone + Drop,
    V: Clone + Drop,
    S: BuildHasher + Drop,
    W: Weighing<K, V>,
    P: Rule<K, V>,
    R: Wait,
>(
    rt: &R,
    alloc: Global,
    shared: &Shared<K, V, S, W, P>,
    me: &mut Caller<K, V, S, W>,
    now: Instant,
) -> Result<Vec<(K, V)>, OutOfMemory>
    requires table { me.old.table_id ≡ shared.now.table.shared.table_id }
    requires idle { IsIdle shared.now.table.shared.key me.old.me }
    ensures same { (me.new.table_id ≡ me.old.table_id) × (me.new.me.0.by ≡ me.old.me.0.by) }
    ensures idle { IsIdle shared.now.table.shared.key me.new.me }
    ensures made { IfOk result (λ pairs. TellsSnapshot (keys_by K.Hash S.BuildHasher S.Hasher.Hasher) W.weighs P.rules shared.now.table.shared.key K.is_clone
        V.is_clone me.old.me.0 shared.now.plan.count now pairs.items me.new.me.0) }
{
    let mut all = Vec::new(alloc);
    for i in 0..shared.plan.count {
        add_segment(rt, &mut all, &shared.table.shared, me, i, now)?;
    }
    Ok(all)
}
