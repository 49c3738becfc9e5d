//! The change of a value by a session.
ghost use Rattle.std.specs.Prelude.{◌≡◌};
ghost use Rattle.std.specs.Fn.{FnOnceReturnsAtMut, FnOnceTakesAtMut};
ghost use Rattle.moka_common.specs.Keys.{keys_by};
ghost use Rattle.moka_segments.specs.Modify.{Modifies, TellsModifiedAt};

use crate::modify;
use crate::rule::Rule;
use crate::session::Session;
use crate::weigher::Weighing;
use moka_common::time::Instant;
use moka_unsync_model::listener::Listener;
use std::hash::{BuildHasher, Hash};
use std::sync::Wait;

impl<
    K: Eq + Hash + Drop,
    V: Drop,
    S: BuildHasher + Drop,
    W: Weighing<K, V>,
    P: Rule<K, V>,
    L: Listener<K, V> + Drop,
> Session<K, V, S, W, P, L> {
    /// Changes the value of the key's unexpired entry in place, and returns `true`, or `false` if there is none. Then `change` isn't called.
    ///
    /// It acts as an insert of what `change` leaves: the entry is used and written, weighed again, and has the cache's time to live. But it takes no memory, so
    /// it is never refused. The listener doesn't get the value, since it stays.
    ///
    /// `change` runs under the lock of the key's segment, so no other thread sees the value half changed, and no change is lost. It must not call this cache,
    /// which would wait for itself.
    ///
    /// ```
    /// let counted = session.modify(rt, &7, now, |count: &mut u64| *count = count.saturating_add(1));
    /// ```
    pub fn modify<F: FnOnce(&mut V), R: Wait>(
        &mut self,
        rt: &R,
        key: &K,
        now: Instant,
        change: F,
    ) -> bool
        requires change { (value : V) → FnOnceTakesAtMut F.FnOnce change value }
        requires holds { (old new : V) → P.rules.holds key.now old → FnOnceReturnsAtMut F.FnOnce change old tt new → P.rules.holds key.now new }
        requires owns { P.rules.owns self.old.knows.by key.now }
        ensures same { self.new.cache ≡ self.old.cache }
        ensures made { Modifies (keys_by K.Hash S.BuildHasher S.Hasher.Hasher) W.weighs P.rules self.old.cache.plan
            (λ before after. FnOnceReturnsAtMut F.FnOnce change before tt after) self.old.knows key.now now result self.new.knows }
        ensures told { TellsModifiedAt L.hears (keys_by K.Hash S.BuildHasher S.Hasher.Hasher) self.old.cache.plan key.now now self.new.knows
            self.old.listener self.new.listener }
    {
        modify::modify(
            rt,
            &*self.shared,
            &mut self.caller,
            key,
            now,
            change,
            &mut self.listener,
        )
    }
}
