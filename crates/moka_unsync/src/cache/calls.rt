//! The calls in which entries may leave: by key, by the hash of the key, and with a listener that gets what leaves.
ghost use Rattle.std.specs.Prelude.{◌≡◌, ⊤, Bool, List, [], option_copied, true};
ghost use Rattle.std.specs.Borrow.{sem};
ghost use Rattle.moka_common.specs.Keys.{hash_by, keys_by};
ghost use Rattle.moka_unsync_model.specs.Cleanup.{is_expired};
ghost use Rattle.moka_unsync_model.specs.Invalidate.{AnswersInTurn, after_invalidate, after_invalidate_all, after_invalidate_if};
ghost use Rattle.moka_unsync_model.specs.Invalidate.{after_invalidate_where, after_remove_expired};
ghost use Rattle.moka_unsync_model.specs.Lookup.{after_get, after_get_where, after_look, found_by_get, found_where, is_contained, is_contained_where};
ghost use Rattle.moka_unsync_model.specs.Told.{TellsWhatLeft};
ghost use Rattle.moka_unsync_model.specs.ToldCalls.{TellsInvalidateWhere, TellsLook, TellsRemoveWhere};
ghost use Rattle.moka_unsync_model.specs.declared.listener.Cause.TheVariants.{Expired, Explicit};

use crate::cache::Cache;
use crate::removal::{clear, remove, remove_expired, remove_notifying, remove_where};
use moka_common::lookup::Lookup;
use moka_common::time::Instant;
use moka_unsync_model::entry::Entry;
use moka_unsync_model::listener::{Cause, Listener, NoListener};
use std::alloc::Allocator;
use std::hash::{BuildHasher, Hash};

impl<
    K: Eq + Hash + Drop,
    V: Drop,
    S: BuildHasher + Drop,
    W: Drop,
    A: Allocator + Clone + Drop,
> Cache<K, V, S, W, A> {
    ghost use Rattle.moka_unsync.specs.CacheLends.{ends_as};

    /// Returns `true` if the key has an unexpired entry. It doesn't count as an access: no moment, place or popularity changes.
    pub fn contains_key(&mut self, key: &K, now: Instant) -> bool
        ensures value { result
            ≡ is_contained (keys_by K.Hash S.BuildHasher S.Hasher.Hasher) self.old key.now now }
        ensures step { self.new
            ≡ after_look (keys_by K.Hash S.BuildHasher S.Hasher.Hasher) self.old now }
    {
        self.contains_by(key, now)
    }

    /// Returns `true` if the key that the probe stands for has an unexpired entry, as `contains_key` does: a `&str` stands for a `String`.
    pub fn contains_by<Q: Lookup<K>>(&mut self, probe: Q, now: Instant) -> bool
        ensures value { result
            ≡ is_contained_where (keys_by K.Hash S.BuildHasher S.Hasher.Hasher) self.old (Q.stands_for probe) now }
        ensures step { self.new
            ≡ after_look (keys_by K.Hash S.BuildHasher S.Hasher.Hasher) self.old now }
    {
        let hash = self.hash_of(probe);
        self.contains_notifying(probe, hash, now, &mut NoListener)
    }

    /// Returns `true` if the key has an unexpired entry, as `contains_by` does, by the probe's hash. The listener gets what leaves. An owner of many caches
    /// with one hash state hashes once.
    pub fn contains_notifying<Q: Lookup<K>, L: Listener<K, V>>(
        &mut self,
        probe: Q,
        hash: u64,
        now: Instant,
        listener: &mut L,
    ) -> bool
        requires { hash ≡ hash_by S.BuildHasher S.Hasher.Hasher self.old.settings.hash_state (Q.hash_input probe) }
        ensures value { result ≡ is_contained_where (keys_by K.Hash S.BuildHasher S.Hasher.Hasher) self.old (Q.stands_for probe) now }
        ensures step { self.new ≡ after_look (keys_by K.Hash S.BuildHasher S.Hasher.Hasher) self.old now }
        ensures told { TellsLook L.hears (keys_by K.Hash S.BuildHasher S.Hasher.Hasher) self.old now listener.old listener.new }
    {
        self.bounds.clean_up(&mut self.store, now, listener);
        match self.store.find(probe, hash) {
            Some(id) => !self.bounds.is_expired(self.store.get(id), now),
            None => false,
        }
    }

    /// Returns the value of the key's unexpired entry, if there is one. The key is counted, found or not.
    pub fn get(&mut self, key: &K, now: Instant) -> Option<&V>
        ensures* step { sem 𝓛 (ends_as K.row V.row S.row W.row A.row S.Hasher.row
            K.Hash S.BuildHasher S.Hasher.Hasher A.Allocator A.Clone self.entry
            (after_get (keys_by K.Hash S.BuildHasher S.Hasher.Hasher) self.old key.now now)) }
        ensures value { option_copied result
            ≡ found_by_get (keys_by K.Hash S.BuildHasher S.Hasher.Hasher) self.old key.now now }
    {
        self.get_by(key, now)
    }

    /// Returns the value of the key that the probe stands for, as `get` does: a `&str` stands for a `String`. The probe's hash is counted, found or not.
    pub fn get_by<Q: Lookup<K>>(&mut self, probe: Q, now: Instant) -> Option<&V>
        ensures* step { sem 𝓛 (ends_as K.row V.row S.row W.row A.row S.Hasher.row
            K.Hash S.BuildHasher S.Hasher.Hasher A.Allocator A.Clone self.entry
            (after_get_where (keys_by K.Hash S.BuildHasher S.Hasher.Hasher) self.old (Q.stands_for probe)
            (hash_by S.BuildHasher S.Hasher.Hasher self.old.settings.hash_state (Q.hash_input probe)) now)) }
        ensures value { option_copied result
            ≡ found_where (keys_by K.Hash S.BuildHasher S.Hasher.Hasher) self.old (Q.stands_for probe) now }
    {
        let hash = self.hash_of(probe);
        self.get_notifying(probe, hash, now, &mut NoListener)
    }

    /// Returns the value of the key, as `get_by` does, by the probe's hash. The listener gets what leaves.
    pub fn get_notifying<Q: Lookup<K>, L: Listener<K, V>>(
        &mut self,
        probe: Q,
        hash: u64,
        now: Instant,
        listener: &mut L,
    ) -> Option<&V>
        requires { hash ≡ hash_by S.BuildHasher S.Hasher.Hasher self.old.settings.hash_state (Q.hash_input probe) }
        ensures* step { sem 𝓛 (ends_as K.row V.row S.row W.row A.row S.Hasher.row
            K.Hash S.BuildHasher S.Hasher.Hasher A.Allocator A.Clone self.entry
            (after_get_where (keys_by K.Hash S.BuildHasher S.Hasher.Hasher) self.old (Q.stands_for probe) hash now)) }
        ensures value { option_copied result ≡ found_where (keys_by K.Hash S.BuildHasher S.Hasher.Hasher) self.old (Q.stands_for probe) now }
        ensures told { TellsLook L.hears (keys_by K.Hash S.BuildHasher S.Hasher.Hasher) self.old now listener.old listener.new }
    {
        self.bounds.clean_up(&mut self.store, now, listener);
        // The index is asked first, so that the processor waits for it and for the sketch at once.
        let candidates = self.store.candidates(hash);
        self.sketch.increment(hash);
        let id = self.store.find_among(candidates, probe, hash)?;
        if self.bounds.is_expired(self.store.get(id), now) {
            return None;
        }
        self.store.touch(id, now);
        Some(&self.store.get(id).value)
    }

    /// Removes the entry of the key, if there is one. The sketch keeps the key's count.
    pub fn invalidate(&mut self, key: &K, now: Instant)
        ensures step { self.new
            ≡ after_invalidate (keys_by K.Hash S.BuildHasher S.Hasher.Hasher) self.old key.now now }
    {
        self.invalidate_by(key, now);
    }

    /// Removes the entry of the key that the probe stands for, as `invalidate` does: a `&str` stands for a `String`.
    pub fn invalidate_by<Q: Lookup<K>>(&mut self, probe: Q, now: Instant)
        ensures step { self.new
            ≡ after_invalidate_where (keys_by K.Hash S.BuildHasher S.Hasher.Hasher) self.old (Q.stands_for probe) now }
    {
        let hash = self.hash_of(probe);
        self.invalidate_notifying(probe, hash, now, &mut NoListener);
    }

    /// Removes the entry of the key, as `invalidate_by` does, by the probe's hash. The listener gets what leaves, the entry of the key as removed or as
    /// expired.
    pub fn invalidate_notifying<Q: Lookup<K>, L: Listener<K, V>>(
        &mut self,
        probe: Q,
        hash: u64,
        now: Instant,
        listener: &mut L,
    )
        requires { hash ≡ hash_by S.BuildHasher S.Hasher.Hasher self.old.settings.hash_state (Q.hash_input probe) }
        ensures step { self.new ≡ after_invalidate_where (keys_by K.Hash S.BuildHasher S.Hasher.Hasher) self.old (Q.stands_for probe) now }
        ensures told { TellsInvalidateWhere L.hears (keys_by K.Hash S.BuildHasher S.Hasher.Hasher) self.old now (Q.stands_for probe)
            listener.old listener.new }
    {
        self.bounds.clean_up(&mut self.store, now, listener);
        remove_notifying(&mut self.store, &self.bounds, probe, hash, now, listener);
    }

    /// Removes the entry of the key, if there is one, and returns its value, unless it is expired. The value is moved out, so it needs no `Clone`.
    ///
    /// Returns `None` if the key has no entry, or an expired one, which is removed too. The key is
    /// not counted, and the sketch keeps its count. It takes constant time on average, beside the batch that leaves first, and no memory, so it is
    /// never refused.
    pub fn remove(&mut self, key: &K, now: Instant) -> Option<V>
        ensures value { result
            ≡ found_by_get (keys_by K.Hash S.BuildHasher S.Hasher.Hasher) self.old key.now now }
        ensures step { self.new
            ≡ after_invalidate (keys_by K.Hash S.BuildHasher S.Hasher.Hasher) self.old key.now now }
    {
        self.remove_by(key, now)
    }

    /// Removes the entry of the key that the probe stands for and returns its value, as `remove` does: a `&str` stands for a `String`.
    pub fn remove_by<Q: Lookup<K>>(&mut self, probe: Q, now: Instant) -> Option<V>
        ensures value { result
            ≡ found_where (keys_by K.Hash S.BuildHasher S.Hasher.Hasher) self.old (Q.stands_for probe) now }
        ensures step { self.new
            ≡ after_invalidate_where (keys_by K.Hash S.BuildHasher S.Hasher.Hasher) self.old (Q.stands_for probe) now }
    {
        let hash = self.hash_of(probe);
        self.remove_notifying(probe, hash, now, &mut NoListener)
    }

    /// Removes the entry of the key, as `remove_by` does, by the probe's hash. The listener doesn't get a value that is returned.
    pub fn remove_notifying<Q: Lookup<K>, L: Listener<K, V>>(
        &mut self,
        probe: Q,
        hash: u64,
        now: Instant,
        listener: &mut L,
    ) -> Option<V>
        requires { hash ≡ hash_by S.BuildHasher S.Hasher.Hasher self.old.settings.hash_state (Q.hash_input probe) }
        ensures value { result ≡ found_where (keys_by K.Hash S.BuildHasher S.Hasher.Hasher) self.old (Q.stands_for probe) now }
        ensures step { self.new ≡ after_invalidate_where (keys_by K.Hash S.BuildHasher S.Hasher.Hasher) self.old (Q.stands_for probe) now }
        ensures told { TellsRemoveWhere L.hears (keys_by K.Hash S.BuildHasher S.Hasher.Hasher) self.old now (Q.stands_for probe)
            listener.old listener.new }
    {
        self.bounds.clean_up(&mut self.store, now, listener);
        let entry = remove(&mut self.store, probe, hash)?;
        if self.bounds.is_expired(&entry, now) {
            let Entry { key, value, .. } = entry;
            listener.removed(key, value, Cause::Expired);
            return None;
        }
        Some(entry.value)
    }

    /// Removes all entries. The sketch keeps their keys' counts, and the capacity stays. It takes time linear in the number of entries.
    pub fn invalidate_all(&mut self)
        ensures step { self.new ≡ after_invalidate_all self.old }
    {
        self.invalidate_all_notifying(&mut NoListener);
    }

    /// Removes all entries, as `invalidate_all` does. The listener gets them.
    pub fn invalidate_all_notifying<L: Listener<K, V>>(&mut self, listener: &mut L)
        ensures step { self.new ≡ after_invalidate_all self.old }
        ensures told { TellsWhatLeft L.hears Explicit (λ e. ⊤) self.old.contents.entries [] listener.old listener.new }
    {
        clear(&mut self.store, listener);
    }

    /// Removes the entries for which the predicate returns `true`. It is called once for each entry, including expired ones, in order of use, least
    /// recently used first and those of the window last. The sketch keeps the keys' counts. It takes time linear in the number of entries, and no memory.
    pub fn invalidate_entries_if<F: FnMut(&K, &V) -> bool>(&mut self, predicate: F)
        requires { F.IsAlwaysCallable predicate }
        ensures step { (answers : List Bool)
            × AnswersInTurn F.step predicate self.old.contents.entries answers
            × (self.new ≡ after_invalidate_if (keys_by K.Hash S.BuildHasher S.Hasher.Hasher) self.old answers) }
    {
        self.invalidate_entries_if_notifying(predicate, &mut NoListener);
    }

    /// Removes the entries that the predicate chooses, as `invalidate_entries_if` does. The listener gets them.
    pub fn invalidate_entries_if_notifying<F: FnMut(&K, &V) -> bool, L: Listener<K, V>>(
        &mut self,
        predicate: F,
        listener: &mut L,
    )
        requires { F.IsAlwaysCallable predicate }
        ensures step { (answers : List Bool)
            × AnswersInTurn F.step predicate self.old.contents.entries answers
            × (self.new ≡ after_invalidate_if (keys_by K.Hash S.BuildHasher S.Hasher.Hasher) self.old answers) }
        ensures told { TellsWhatLeft L.hears Explicit (λ e. ⊤) self.old.contents.entries self.new.contents.entries listener.old listener.new }
    {
        remove_where(&mut self.store, predicate, listener);
    }

    /// Removes all expired entries, including those after unexpired ones in the orders of writing and of use.
    ///
    /// Other calls remove at most a batch of `EVICTION_BATCH_SIZE` expired entries from the front of each order. So an expired entry that no call asks for
    /// may keep its memory for long. This call looks at each entry: it takes time linear in their number, and no memory. Without a duration it does
    /// nothing. The sketch keeps the keys' counts.
    pub fn remove_expired(&mut self, now: Instant)
        ensures step { self.new
            ≡ after_remove_expired (keys_by K.Hash S.BuildHasher S.Hasher.Hasher) self.old now }
    {
        self.remove_expired_notifying(now, &mut NoListener);
    }

    /// Removes all expired entries, as `remove_expired` does. The listener gets them as expired.
    pub fn remove_expired_notifying<L: Listener<K, V>>(&mut self, now: Instant, listener: &mut L)
        ensures step { self.new ≡ after_remove_expired (keys_by K.Hash S.BuildHasher S.Hasher.Hasher) self.old now }
        ensures told { TellsWhatLeft L.hears Expired (λ e. is_expired self.old.settings.policy now e ≡ true)
            self.old.contents.entries self.new.contents.entries listener.old listener.new }
    {
        remove_expired(&mut self.store, &self.bounds, now, listener);
    }
}
