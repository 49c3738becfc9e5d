// The inserts: of the cache's time to live or of one's own, by key, by the hash of the key, and with a listener that gets what leaves.
ghost use Rattle.std.specs.Prelude.{◌≡◌, None, Some, IfErr, IsSome, OnErr, OnOk, option_map};
ghost use Rattle.std.specs.Duration.{as_nanos};
ghost use Rattle.moka_common.specs.Keys.{keys_by};
ghost use Rattle.moka_unsync_model.specs.Insert.{IsInserted, IsRefused};
ghost use Rattle.moka_unsync_model.specs.ToldCalls.{TellsInsert};
ghost use Rattle.moka_unsync.specs.Timed.{IsTimedRefused};

use crate::admission::{admit, insert_into_window};
use crate::cache::Cache;
use crate::error::TimedInsertError;
use crate::memory::come;
use moka_common::error::InsertError;
use moka_common::time::Instant;
use moka_common::weigh::Weigh;
use moka_unsync_model::entry::{Entry, Part};
use moka_unsync_model::listener::{Cause, Listener, NoListener};
use std::alloc::Allocator;
use std::hash::{BuildHasher, Hash};
use std::time::Duration;

impl<
    K: Eq + Hash + Drop,
    V: Drop,
    S: BuildHasher + Drop,
    W: Weigh<K, V> + Drop,
    A: Allocator + Clone + Drop,
> Cache<K, V, S, W, A> {
    /// Inserts the value at the key, as the most recently used and the most recently written entry. If the key is there already, its entry keeps the first
    /// key object. A new entry above the capacity may be rejected by the admission policy, which is `Ok` as well. If there is a window, older entries in it
    /// may leave too.
    ///
    /// Memory is reserved first, for an update too, which may need none in the end. If it is refused, nothing was expired, evicted, weighed or stored, an entry
    /// at the key keeps its value, and the key and value that were handed in are dropped. Otherwise the weigher is called once.
    pub fn insert(&mut self, key: K, value: V, now: Instant) -> Result<(), InsertError>
        requires ready { W.ready self.old.weigher }
        ensures step { OnOk result (IsInserted (keys_by K.Hash S.BuildHasher S.Hasher.Hasher)
            W.weighs self.old key value None now self.new) }
        ensures err { OnErr result (IsRefused self.old self.new) }
        ensures error { IfErr result (λ error. error ≡ InsertError.OutOfMemory) }
        ensures ready { W.ready self.new.weigher }
    {
        let hash = self.hash_of(&key);
        self.insert_notifying(key, hash, value, None, now, &mut NoListener)
    }

    /// Inserts the value at the key, as `insert` does, with a time to live of its own. The entry expires after that, or after the cache's time to live if that
    /// is shorter. The next insert at the key gives it a new deadline.
    ///
    /// ```
    /// let minute = Duration::from_secs(60);
    /// cache.insert_with_time_to_live(7, 1, minute, now)?;
    /// let gone = cache.get(&7, now.after(minute)).is_none();
    /// ```
    ///
    /// The cache needs a time to live, which is the longest that its entries can have. Without one the call is refused, and the cache is as it was. From its
    /// deadline on no call finds the entry. Its memory is freed at the latest when the cache's time to live has passed, in the order of writing, or by
    /// `remove_expired`.
    pub fn insert_with_time_to_live(
        &mut self,
        key: K,
        value: V,
        time_to_live: Duration,
        now: Instant,
    ) -> Result<(), TimedInsertError>
        requires ready { W.ready self.old.weigher }
        ensures step { OnOk result (IsInserted (keys_by K.Hash S.BuildHasher S.Hasher.Hasher)
            W.weighs self.old key value (Some (as_nanos time_to_live)) now self.new) }
        ensures lives { OnOk result (IsSome self.old.settings.policy.time_to_live) }
        ensures err { IfErr result (λ error. IsTimedRefused error self.old self.new) }
        ensures ready { W.ready self.new.weigher }
    {
        let hash = self.hash_of(&key);
        self.insert_with_time_to_live_notifying(
            key,
            hash,
            value,
            time_to_live,
            now,
            &mut NoListener,
        )
    }

    /// Inserts the value at the key, as `insert_with_time_to_live` does, by the key's hash. If it replaces a value, the listener gets the old value with the
    /// new key, as `insert_notifying` says.
    pub fn insert_with_time_to_live_notifying<L: Listener<K, V>>(
        &mut self,
        key: K,
        hash: u64,
        value: V,
        time_to_live: Duration,
        now: Instant,
        listener: &mut L,
    ) -> Result<(), TimedInsertError>
        requires hashed { hash ≡ (keys_by K.Hash S.BuildHasher S.Hasher.Hasher).hash_of self.old.settings.hash_state key }
        requires ready { W.ready self.old.weigher }
        ensures step { OnOk result (IsInserted (keys_by K.Hash S.BuildHasher S.Hasher.Hasher)
            W.weighs self.old key value (Some (as_nanos time_to_live)) now self.new) }
        ensures lives { OnOk result (IsSome self.old.settings.policy.time_to_live) }
        ensures err { IfErr result (λ error. IsTimedRefused error self.old self.new) }
        ensures ready { W.ready self.new.weigher }
        ensures told { OnOk result (TellsInsert L.hears (keys_by K.Hash S.BuildHasher S.Hasher.Hasher)
            self.old now key value self.new listener.old listener.new) }
        ensures untold { OnErr result (listener.new ≡ listener.old) }
    {
        if !self.bounds.has_time_to_live() {
            return Err(TimedInsertError::NoTimeToLive);
        }
        match self.insert_notifying(key, hash, value, Some(time_to_live), now, listener) {
            Ok(()) => Ok(()),
            Err(_) => Err(TimedInsertError::OutOfMemory),
        }
    }

    /// Puts the value at the key, as `insert` does, by the key's hash. It has its own time to live if one is given and the cache has one. If it replaces a
    /// value, the listener gets the old value with the new key, as replaced or, if the value was past a duration, as expired.
    pub fn insert_notifying<L: Listener<K, V>>(
        &mut self,
        key: K,
        hash: u64,
        value: V,
        time_to_live: Option<Duration>,
        now: Instant,
        listener: &mut L,
    ) -> Result<(), InsertError>
        requires hashed { hash ≡ (keys_by K.Hash S.BuildHasher S.Hasher.Hasher).hash_of self.old.settings.hash_state key }
        requires ready { W.ready self.old.weigher }
        ensures step { OnOk result (IsInserted (keys_by K.Hash S.BuildHasher S.Hasher.Hasher)
            W.weighs self.old key value (option_map as_nanos time_to_live) now self.new) }
        ensures err { OnErr result (IsRefused self.old self.new) }
        ensures error { IfErr result (λ error. error ≡ InsertError.OutOfMemory) }
        ensures ready { W.ready self.new.weigher }
        ensures told { OnOk result (TellsInsert L.hears (keys_by K.Hash S.BuildHasher S.Hasher.Hasher)
            self.old now key value self.new listener.old listener.new) }
        ensures untold { OnErr result (listener.new ≡ listener.old) }
    {
        if self.store.reserve(1, self.max_entries).is_err() {
            return Err(InsertError::OutOfMemory);
        }
        self.bounds.clean_up(&mut self.store, now, listener);
        let deadline = self.bounds.deadline(time_to_live, now);
        let outlasts = self.bounds.is_beyond(time_to_live, now);
        let entry = Entry {
            hash,
            weight: self.weigher.weigh(&key, &value),
            key,
            value,
            part: Part::Probation,
            accessed: now,
            deadline,
            outlasts,
        };
        match self.store.find(&entry.key, entry.hash) {
            Some(id) => {
                let cause = self
                    .bounds
                    .cause_at(self.store.get(id), now, Cause::Replaced);
                let (key, value) = self.store.update(id, entry);
                listener.removed(key, value, cause);
            }
            None => match self.windowed {
                Some(limits) => {
                    come(&mut self.memory, self.shares, limits.all, &entry);
                    let part = insert_into_window(
                        &mut self.store,
                        &limits,
                        &self.sketch,
                        entry,
                        &mut self.memory,
                        listener,
                    );
                    self.follow(limits, part, listener);
                    if part.is_some() {
                        self.enable_sketch();
                    }
                }
                None => {
                    let limit = self.bounds.policy().max_capacity();
                    if admit(
                        &mut self.store,
                        limit,
                        &self.sketch,
                        entry,
                        &mut None,
                        listener,
                    ) {
                        self.enable_sketch();
                    }
                }
            },
        }
        Ok(())
    }
}
