//! A change of a value in place, in one visit.
ghost use Rattle.std.specs.Prelude.{◌≡◌};
ghost use Rattle.std.specs.Fn.{FnOnceReturnsAtMut, FnOnceTakesAtMut};
ghost use Rattle.moka_common.specs.Keys.{keys_by};
ghost use Rattle.moka_segments.specs.Modify.{Modifies, TellsModifiedAt};
ghost use Rattle.moka_row.specs.Visits.{IsIdle};

use crate::account::Caller;
use crate::call::place_of;
use crate::rule::Rule;
use crate::shared::Shared;
use crate::weigher::Weighing;
use moka_common::time::Instant;
use moka_row::row::{leave, lock};
use moka_unsync_model::listener::Listener;
use std::hash::{BuildHasher, Hash};
use std::marker::Brand;
use std::snapshot::Snapshot;
use std::sync::Wait;

/// Changes the value of the key's unexpired entry in place, under the lock of its segment, and returns `true`, or `false` if there is none.
pub(crate) fn modify<
    K: Eq + Hash + Drop,
    V: Drop,
    S: BuildHasher + Drop,
    W: Weighing<K, V>,
    P: Rule<K, V>,
    F: FnOnce(&mut V),
    L: Listener<K, V>,
    R: Wait,
>(
    rt: &R,
    shared: &Shared<K, V, S, W, P>,
    me: &mut Caller<K, V, S, W>,
    key: &K,
    now: Instant,
    change: F,
    listener: &mut L,
) -> bool
    requires table { me.old.table_id ≡ shared.now.table.shared.table_id }
    requires idle { IsIdle shared.now.table.shared.key me.old.me }
    requires change { (value : V) → FnOnceTakesAtMut F.FnOnce change value }
    requires holds { (old new : V) → P.rules.holds key.now old → FnOnceReturnsAtMut F.FnOnce change old tt new → P.rules.holds key.now new }
    requires owns { P.rules.owns me.old.me.0.by key.now }
    ensures same { me.new.table_id ≡ me.old.table_id }
    ensures idle { IsIdle shared.now.table.shared.key me.new.me }
    ensures made { Modifies (keys_by K.Hash S.BuildHasher S.Hasher.Hasher) W.weighs P.rules shared.now.table.shared.key
        (λ before after. FnOnceReturnsAtMut F.FnOnce change before tt after) me.old.me.0 key.now now result me.new.me.0 }
    ensures told { TellsModifiedAt L.hears (keys_by K.Hash S.BuildHasher S.Hasher.Hasher) shared.now.table.shared.key key.now now me.new.me.0
        listener.old listener.new }
{
    let row = &shared.table.shared;
    let (hash, i) = place_of(shared, key);
    lock(rt, row, me, i);
    let cache = me.slot_mut(row, i);
    let before = Snapshot::of(&*cache);
    let found = cache.modify_notifying(key, hash, now, change, listener);
    let after = Snapshot::of(&*cache);
    leave::<_, _, _, _, _, Brand>(row, me, i, (before, after, key, now, found));
    found
}
