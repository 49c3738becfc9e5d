// The change of a value in place.
ghost use Rattle.std.specs.Prelude.{◌≡◌};
ghost use Rattle.std.specs.Fn.{FnOnceReturnsAtMut, FnOnceTakesAtMut};
ghost use Rattle.moka_common.specs.Keys.{keys_by};
ghost use Rattle.moka_unsync_model.specs.Insert.{Modifies};
ghost use Rattle.moka_unsync_model.specs.ToldCalls.{TellsLook};

use crate::cache::Cache;
use moka_common::time::Instant;
use moka_common::weigh::Weigh;
use moka_store::store::Moments;
use moka_unsync_model::listener::{Listener, NoListener};
use std::alloc::Allocator;
use std::hash::{BuildHasher, Hash};

impl<
    K: Eq + Hash + Drop,
    V: Drop,
    S: BuildHasher + Drop,
    W: Weigh<K, V> + Drop,
    A: Allocator + Clone + Drop,
> Cache<K, V, S, W, A> {
    /// Changes the value of the key's unexpired entry in place, and returns `true`, or `false` if there is none. Then `change` isn't called.
    ///
    /// It acts as an insert of what `change` leaves: the entry is used and written, weighed again, and has the cache's time to live. But it takes no memory, so
    /// it is never refused.
    ///
    /// ```
    /// let counted = cache.modify(&7, now, |count: &mut u64| *count = count.saturating_add(1));
    /// ```
    pub fn modify<F: FnOnce(&mut V)>(&mut self, key: &K, now: Instant, change: F) -> bool
        requires ready { W.ready self.old.weigher }
        requires change { (value : V) → FnOnceTakesAtMut F.FnOnce change value }
        ensures step { Modifies (keys_by K.Hash S.BuildHasher S.Hasher.Hasher) W.weighs
            (λ old new. FnOnceReturnsAtMut F.FnOnce change old tt new) result self.old key.now now self.new }
        ensures ready { W.ready self.new.weigher }
    {
        let hash = self.hash_of(key);
        self.modify_notifying(key, hash, now, change, &mut NoListener)
    }

    /// Changes the value of the key, as `modify` does, by the key's hash. The listener gets what leaves, but not the value, which stays.
    pub fn modify_notifying<F: FnOnce(&mut V), L: Listener<K, V>>(
        &mut self,
        key: &K,
        hash: u64,
        now: Instant,
        change: F,
        listener: &mut L,
    ) -> bool
        requires hashed { hash ≡ (keys_by K.Hash S.BuildHasher S.Hasher.Hasher).hash_of self.old.settings.hash_state key.now }
        requires ready { W.ready self.old.weigher }
        requires change { (value : V) → FnOnceTakesAtMut F.FnOnce change value }
        ensures step { Modifies (keys_by K.Hash S.BuildHasher S.Hasher.Hasher) W.weighs
            (λ old new. FnOnceReturnsAtMut F.FnOnce change old tt new) result self.old key.now now self.new }
        ensures ready { W.ready self.new.weigher }
        ensures told { TellsLook L.hears (keys_by K.Hash S.BuildHasher S.Hasher.Hasher) self.old now listener.old listener.new }
    {
        self.bounds.clean_up(&mut self.store, now, listener);
        let Some(id) = self.store.find(key, hash) else {
            return false;
        };
        if self.bounds.is_expired(self.store.get(id), now) {
            return false;
        }
        let moments = Moments {
            accessed: now,
            deadline: self.bounds.deadline(None, now),
            outlasts: self.bounds.is_beyond(None, now),
        };
        self.store
            .modify(id, key, &mut self.weigher, moments, change);
        true
    }
}
