//! A cache for one thread that gives a listener each entry that leaves.
ghost use Rattle.std.specs.Prelude.{◌≡◌, ◌⊎◌, ⊤, Bool, List, [], None, Some, Ok, IfErr, IfOk, IsSome, OnErr, OnOk, option_copied, true};
ghost use Rattle.std.specs.Duration.{as_nanos};
ghost use Rattle.std.specs.Borrow.{sem};
ghost use Rattle.std.specs.Fn.{FnOnceReturnsAtMut, FnOnceTakesAtMut};
ghost use Rattle.moka_common.specs.Keys.{hash_by, keys_by};
ghost use Rattle.moka_unsync_model.specs.Cleanup.{is_expired};
ghost use Rattle.moka_unsync_model.specs.GetOrInsert.{IsGotOrInserted, IsRefusedBehind};
ghost use Rattle.moka_unsync_model.specs.Insert.{IsInserted, IsRefused, Modifies};
ghost use Rattle.moka_unsync_model.specs.Invalidate.{AnswersInTurn, after_invalidate, after_invalidate_all, after_invalidate_if};
ghost use Rattle.moka_unsync_model.specs.Invalidate.{after_invalidate_where, after_remove_expired};
ghost use Rattle.moka_unsync_model.specs.Lookup.{after_get, after_get_where, after_look, found_by_get, found_where, is_contained, is_contained_where};
ghost use Rattle.moka_unsync_model.specs.Told.{TellsWhatLeft};
ghost use Rattle.moka_unsync_model.specs.ToldCalls.{TellsGot, TellsInsert, TellsInvalidate, TellsInvalidateWhere, TellsLook, TellsRemove};
ghost use Rattle.moka_unsync_model.specs.ToldCalls.{TellsRemoveWhere};
ghost use Rattle.moka_unsync.specs.Timed.{IsTimedRefused};
ghost use Rattle.moka_unsync.specs.Trying.{IsOnlyAGet};
ghost use Rattle.moka_unsync_model.specs.declared.listener.Cause.TheVariants.{Expired, Explicit};

use crate::cache::Cache;
use crate::error::{TimedInsertError, TryInsertError};
use moka_common::error::InsertError;
use moka_common::hash::FixedState;
use moka_common::lookup::Lookup;
use moka_common::time::Instant;
use moka_common::weigh::{UnitWeight, Weigh};
use moka_unsync_model::listener::Listener;
use std::alloc::{Allocator, Global};
use std::hash::{BuildHasher, Hash};
use std::marker::Model;
use std::time::Duration;

/// A cache with a listener, which gets each entry that leaves: within the call, once, with its cause.
///
/// ```
/// let cache: Cache<u64, u32> = Cache::new(alloc, 10_000)?;
/// let mut cache = cache.with_listener(Statistics::default());
/// cache.insert(7, 1, now)?;
/// cache.insert(7, 2, now)?;
/// let replaced = cache.listener().replaced;
/// ```
///
/// The listener doesn't get a value that `remove` returns, since the caller has it. Nor does it get the key and value of an insert that is refused memory:
/// they never entered.
/// A cache that is dropped gives its listener nothing: call `invalidate_all` first.
#[derive(Drop)]
pub struct NotifyingCache<
    K: Eq + Hash + Drop,
    V: Drop,
    L: Drop,
    S: BuildHasher + Drop = FixedState,
    W: Drop = UnitWeight,
    A: Allocator + Clone + Drop = Global,
> {
    cache: Cache<K, V, S, W, A>,
    listener: L,
}

impl<
    K: Eq + Hash + Drop,
    V: Drop,
    L: Drop,
    S: BuildHasher + Drop,
    W: Drop,
    A: Allocator + Clone + Drop,
> Model for NotifyingCache<K, V, L, S, W, A> {
    ghost use Rattle.moka_unsync.specs.Notifying.{Notifying};

    ghost Value = { Notifying K V S W L };

    ghost view = { λ c. record { cache = c.cache; listener = c.listener } };
}

impl<
    K: Eq + Hash + Drop,
    V: Drop,
    L: Drop,
    S: BuildHasher + Drop,
    W: Drop,
    A: Allocator + Clone + Drop,
> NotifyingCache<K, V, L, S, W, A> {
    ghost use Rattle.moka_unsync.specs.CacheLends.{lends_listener};

    /// Makes a cache with a listener.
    pub(crate) fn new(cache: Cache<K, V, S, W, A>, listener: L) -> Self
        ensures { result ≡ record { cache = cache; listener = listener } }
    {
        NotifyingCache { cache, listener }
    }

    /// Returns the cache, for calls that remove nothing.
    pub fn cache(&self) -> &Cache<K, V, S, W, A>
        ensures { result.now ≡ self.now.cache }
    {
        &self.cache
    }

    /// Returns the listener.
    pub fn listener(&self) -> &L
        ensures { result.now ≡ self.now.listener }
    {
        &self.listener
    }

    /// Returns the listener, to change it or to take out what it has.
    pub fn listener_mut(&mut self) -> &mut L
        ensures* lends { sem 𝓛 (lends_listener K.row V.row L.row S.row W.row A.row S.Hasher.row
            K.Hash S.BuildHasher S.Hasher.Hasher A.Allocator A.Clone self.entry self.old result) }
        ensures value { result.now ≡ self.old.listener }
    {
        &mut self.listener
    }

    /// Takes the cache and the listener apart.
    pub fn into_parts(self) -> (Cache<K, V, S, W, A>, L)
        ensures { result ≡ (self.cache, self.listener) }
    {
        (self.cache, self.listener)
    }
}

impl<
    K: Eq + Hash + Drop,
    V: Drop,
    L: Listener<K, V> + Drop,
    S: BuildHasher + Drop,
    W: Drop,
    A: Allocator + Clone + Drop,
> NotifyingCache<K, V, L, S, W, A> {
    ghost use Rattle.moka_unsync.specs.CacheLends.{notifying_ends_so};

    /// Returns `true` if the key has an unexpired entry, as `Cache::contains_key` does.
    pub fn contains_key(&mut self, key: &K, now: Instant) -> bool
        ensures value { result ≡ is_contained (keys_by K.Hash S.BuildHasher S.Hasher.Hasher) self.old.cache key.now now }
        ensures step { self.new.cache ≡ after_look (keys_by K.Hash S.BuildHasher S.Hasher.Hasher) self.old.cache now }
        ensures told { TellsLook L.hears (keys_by K.Hash S.BuildHasher S.Hasher.Hasher) self.old.cache now self.old.listener self.new.listener }
    {
        self.contains_by(key, now)
    }

    /// Returns `true` if the key that the probe stands for has an unexpired entry, as `Cache::contains_by` does.
    pub fn contains_by<Q: Lookup<K>>(&mut self, probe: Q, now: Instant) -> bool
        ensures value { result ≡ is_contained_where (keys_by K.Hash S.BuildHasher S.Hasher.Hasher) self.old.cache (Q.stands_for probe) now }
        ensures step { self.new.cache ≡ after_look (keys_by K.Hash S.BuildHasher S.Hasher.Hasher) self.old.cache now }
        ensures told { TellsLook L.hears (keys_by K.Hash S.BuildHasher S.Hasher.Hasher) self.old.cache now self.old.listener self.new.listener }
    {
        let hash = self.cache.hash_of(probe);
        self.cache
            .contains_notifying(probe, hash, now, &mut self.listener)
    }

    /// Returns the value of the key's unexpired entry, as `Cache::get` does.
    pub fn get(&mut self, key: &K, now: Instant) -> Option<&V>
        ensures* step { sem 𝓛 (notifying_ends_so K.row V.row L.row S.row W.row A.row S.Hasher.row
            K.Hash S.BuildHasher S.Hasher.Hasher A.Allocator A.Clone self.entry
            (λ end. (end.cache ≡ after_get (keys_by K.Hash S.BuildHasher S.Hasher.Hasher) self.old.cache key.now now)
            × TellsLook L.hears (keys_by K.Hash S.BuildHasher S.Hasher.Hasher) self.old.cache now self.old.listener end.listener)) }
        ensures value { option_copied result ≡ found_by_get (keys_by K.Hash S.BuildHasher S.Hasher.Hasher) self.old.cache key.now now }
    {
        self.get_by(key, now)
    }

    /// Returns the value of the key that the probe stands for, as `Cache::get_by` does.
    pub fn get_by<Q: Lookup<K>>(&mut self, probe: Q, now: Instant) -> Option<&V>
        ensures* step { sem 𝓛 (notifying_ends_so K.row V.row L.row S.row W.row A.row S.Hasher.row
            K.Hash S.BuildHasher S.Hasher.Hasher A.Allocator A.Clone self.entry
            (λ end. (end.cache ≡ after_get_where (keys_by K.Hash S.BuildHasher S.Hasher.Hasher) self.old.cache (Q.stands_for probe)
            (hash_by S.BuildHasher S.Hasher.Hasher self.old.cache.settings.hash_state (Q.hash_input probe)) now)
            × TellsLook L.hears (keys_by K.Hash S.BuildHasher S.Hasher.Hasher) self.old.cache now self.old.listener end.listener)) }
        ensures value { option_copied result ≡ found_where (keys_by K.Hash S.BuildHasher S.Hasher.Hasher) self.old.cache (Q.stands_for probe) now }
    {
        let hash = self.cache.hash_of(probe);
        self.cache
            .get_notifying(probe, hash, now, &mut self.listener)?;
        self.cache.stored(probe, hash)
    }

    /// Removes the entry of the key, as `Cache::invalidate` does.
    pub fn invalidate(&mut self, key: &K, now: Instant)
        ensures step { self.new.cache ≡ after_invalidate (keys_by K.Hash S.BuildHasher S.Hasher.Hasher) self.old.cache key.now now }
        ensures told { TellsInvalidate L.hears (keys_by K.Hash S.BuildHasher S.Hasher.Hasher) self.old.cache now key.now self.old.listener self.new.listener }
    {
        self.invalidate_by(key, now);
    }

    /// Removes the entry of the key that the probe stands for, as `Cache::invalidate_by` does.
    pub fn invalidate_by<Q: Lookup<K>>(&mut self, probe: Q, now: Instant)
        ensures step { self.new.cache ≡ after_invalidate_where (keys_by K.Hash S.BuildHasher S.Hasher.Hasher) self.old.cache (Q.stands_for probe) now }
        ensures told { TellsInvalidateWhere L.hears (keys_by K.Hash S.BuildHasher S.Hasher.Hasher) self.old.cache now (Q.stands_for probe)
            self.old.listener self.new.listener }
    {
        let hash = self.cache.hash_of(probe);
        self.cache
            .invalidate_notifying(probe, hash, now, &mut self.listener);
    }

    /// Removes the entry of the key and returns its value, as `Cache::remove` does. The listener doesn't get a value that is returned.
    pub fn remove(&mut self, key: &K, now: Instant) -> Option<V>
        ensures value { result ≡ found_by_get (keys_by K.Hash S.BuildHasher S.Hasher.Hasher) self.old.cache key.now now }
        ensures step { self.new.cache ≡ after_invalidate (keys_by K.Hash S.BuildHasher S.Hasher.Hasher) self.old.cache key.now now }
        ensures told { TellsRemove L.hears (keys_by K.Hash S.BuildHasher S.Hasher.Hasher) self.old.cache now key.now self.old.listener self.new.listener }
    {
        self.remove_by(key, now)
    }

    /// Removes the entry of the key that the probe stands for and returns its value, as `Cache::remove_by` does. The listener doesn't get a value that is
    /// returned.
    pub fn remove_by<Q: Lookup<K>>(&mut self, probe: Q, now: Instant) -> Option<V>
        ensures value { result ≡ found_where (keys_by K.Hash S.BuildHasher S.Hasher.Hasher) self.old.cache (Q.stands_for probe) now }
        ensures step { self.new.cache ≡ after_invalidate_where (keys_by K.Hash S.BuildHasher S.Hasher.Hasher) self.old.cache (Q.stands_for probe) now }
        ensures told { TellsRemoveWhere L.hears (keys_by K.Hash S.BuildHasher S.Hasher.Hasher) self.old.cache now (Q.stands_for probe)
            self.old.listener self.new.listener }
    {
        let hash = self.cache.hash_of(probe);
        self.cache
            .remove_notifying(probe, hash, now, &mut self.listener)
    }

    /// Removes all entries, as `Cache::invalidate_all` does.
    pub fn invalidate_all(&mut self)
        ensures step { self.new.cache ≡ after_invalidate_all self.old.cache }
        ensures told { TellsWhatLeft L.hears Explicit (λ e. ⊤) self.old.cache.contents.entries [] self.old.listener self.new.listener }
    {
        self.cache.invalidate_all_notifying(&mut self.listener);
    }

    /// Removes the entries that the predicate chooses, as `Cache::invalidate_entries_if` does.
    pub fn invalidate_entries_if<F: FnMut(&K, &V) -> bool>(&mut self, predicate: F)
        requires { F.IsAlwaysCallable predicate }
        ensures step { (answers : List Bool)
            × AnswersInTurn F.step predicate self.old.cache.contents.entries answers
            × (self.new.cache ≡ after_invalidate_if (keys_by K.Hash S.BuildHasher S.Hasher.Hasher) self.old.cache answers) }
        ensures told { TellsWhatLeft L.hears Explicit (λ e. ⊤) self.old.cache.contents.entries self.new.cache.contents.entries
            self.old.listener self.new.listener }
    {
        self.cache
            .invalidate_entries_if_notifying(predicate, &mut self.listener);
    }

    /// Removes all expired entries, as `Cache::remove_expired` does.
    pub fn remove_expired(&mut self, now: Instant)
        ensures step { self.new.cache ≡ after_remove_expired (keys_by K.Hash S.BuildHasher S.Hasher.Hasher) self.old.cache now }
        ensures told { TellsWhatLeft L.hears Expired (λ e. is_expired self.old.cache.settings.policy now e ≡ true)
            self.old.cache.contents.entries self.new.cache.contents.entries self.old.listener self.new.listener }
    {
        self.cache.remove_expired_notifying(now, &mut self.listener);
    }
}

impl<
    K: Eq + Hash + Drop,
    V: Drop,
    L: Listener<K, V> + Drop,
    S: BuildHasher + Drop,
    W: Weigh<K, V> + Drop,
    A: Allocator + Clone + Drop,
> NotifyingCache<K, V, L, S, W, A> {
    /// Changes the value of the key in place, as `Cache::modify` does. The listener doesn't get it, since it stays.
    pub fn modify<F: FnOnce(&mut V)>(&mut self, key: &K, now: Instant, change: F) -> bool
        requires ready { W.ready self.old.cache.weigher }
        requires change { (value : V) → FnOnceTakesAtMut F.FnOnce change value }
        ensures step { Modifies (keys_by K.Hash S.BuildHasher S.Hasher.Hasher) W.weighs
            (λ old new. FnOnceReturnsAtMut F.FnOnce change old tt new) result self.old.cache key.now now self.new.cache }
        ensures ready { W.ready self.new.cache.weigher }
        ensures told { TellsLook L.hears (keys_by K.Hash S.BuildHasher S.Hasher.Hasher) self.old.cache now self.old.listener self.new.listener }
    {
        let hash = self.cache.hash_of(key);
        self.cache
            .modify_notifying(key, hash, now, change, &mut self.listener)
    }

    /// Puts the value at the key, as `Cache::insert` does. If it replaces a value, the listener gets the old value with the new key.
    pub fn insert(&mut self, key: K, value: V, now: Instant) -> Result<(), InsertError>
        requires ready { W.ready self.old.cache.weigher }
        ensures step { OnOk result (IsInserted (keys_by K.Hash S.BuildHasher S.Hasher.Hasher) W.weighs self.old.cache key value None now self.new.cache) }
        ensures err { OnErr result (IsRefused self.old.cache self.new.cache) }
        ensures error { IfErr result (λ error. error ≡ InsertError.OutOfMemory) }
        ensures ready { W.ready self.new.cache.weigher }
        ensures told { OnOk result (TellsInsert L.hears (keys_by K.Hash S.BuildHasher S.Hasher.Hasher)
            self.old.cache now key value self.new.cache self.old.listener self.new.listener) }
        ensures untold { OnErr result (self.new.listener ≡ self.old.listener) }
    {
        let hash = self.cache.hash_of(&key);
        self.cache
            .insert_notifying(key, hash, value, None, now, &mut self.listener)
    }

    /// Puts the value at the key, as `Cache::insert_with_time_to_live` does. If it replaces a value, the listener gets the old value with the new key.
    pub fn insert_with_time_to_live(
        &mut self,
        key: K,
        value: V,
        time_to_live: Duration,
        now: Instant,
    ) -> Result<(), TimedInsertError>
        requires ready { W.ready self.old.cache.weigher }
        ensures step { OnOk result (IsInserted (keys_by K.Hash S.BuildHasher S.Hasher.Hasher) W.weighs
            self.old.cache key value (Some (as_nanos time_to_live)) now self.new.cache) }
        ensures lives { OnOk result (IsSome self.old.cache.settings.policy.time_to_live) }
        ensures err { IfErr result (λ error. IsTimedRefused error self.old.cache self.new.cache) }
        ensures ready { W.ready self.new.cache.weigher }
        ensures told { OnOk result (TellsInsert L.hears (keys_by K.Hash S.BuildHasher S.Hasher.Hasher)
            self.old.cache now key value self.new.cache self.old.listener self.new.listener) }
        ensures untold { OnErr result (self.new.listener ≡ self.old.listener) }
    {
        let hash = self.cache.hash_of(&key);
        self.cache
            .insert_with_time_to_live_notifying(
                key,
                hash,
                value,
                time_to_live,
                now,
                &mut self.listener,
            )
    }
}

impl<
    K: Eq + Hash + Drop,
    V: Clone + Drop,
    L: Listener<K, V> + Drop,
    S: BuildHasher + Drop,
    W: Weigh<K, V> + Drop,
    A: Allocator + Clone + Drop,
> NotifyingCache<K, V, L, S, W, A> {
    /// Returns a clone of the value of the key, as `Cache::get_or_insert_with` does. If memory is refused, for the clone or for room, the listener doesn't
    /// get what was made.
    pub fn get_or_insert_with<F: FnOnce() -> V>(
        &mut self,
        key: K,
        now: Instant,
        make: F,
    ) -> Result<V, InsertError>
        requires ready { W.ready self.old.cache.weigher }
        requires make { found_by_get (keys_by K.Hash S.BuildHasher S.Hasher.Hasher) self.old.cache key now ≡ None → F.pre make }
        ensures ok { IfOk result (λ copy. (value : V) × V.is_clone value copy
            × IsGotOrInserted (keys_by K.Hash S.BuildHasher S.Hasher.Hasher) self.old.cache key now W.weighs (F.post make) value self.new.cache) }
        ensures err { OnErr result (((value : V) × (¬ (V.is_infallible value))
            × (self.new.cache ≡ after_get (keys_by K.Hash S.BuildHasher S.Hasher.Hasher) self.old.cache key now))
            ⊎ IsRefusedBehind (keys_by K.Hash S.BuildHasher S.Hasher.Hasher) self.old.cache key now self.new.cache) }
        ensures error { IfErr result (λ error. error ≡ InsertError.OutOfMemory) }
        ensures ready { W.ready self.new.cache.weigher }
        ensures told { OnOk result (TellsGot L.hears (keys_by K.Hash S.BuildHasher S.Hasher.Hasher) self.old.cache now
            (found_by_get (keys_by K.Hash S.BuildHasher S.Hasher.Hasher) self.old.cache key now) key self.new.cache
            self.old.listener self.new.listener) }
        ensures looked { OnErr result (TellsLook L.hears (keys_by K.Hash S.BuildHasher S.Hasher.Hasher) self.old.cache now
            self.old.listener self.new.listener) }
    {
        let hash = self.cache.hash_of(&key);
        self.cache
            .get_or_insert_notifying(key, hash, now, make, &mut self.listener)
    }

    /// Returns a clone of the value of the key, as `Cache::try_get_or_insert_with` does. If it fails, the listener gets what the get had to remove.
    pub fn try_get_or_insert_with<E: Drop, F: FnOnce() -> Result<V, E>>(
        &mut self,
        key: K,
        now: Instant,
        make: F,
    ) -> Result<V, TryInsertError<E>>
        requires ready { W.ready self.old.cache.weigher }
        requires make { found_by_get (keys_by K.Hash S.BuildHasher S.Hasher.Hasher) self.old.cache key now ≡ None → F.pre make }
        ensures ok { IfOk result (λ copy. (value : V) × V.is_clone value copy
            × IsGotOrInserted (keys_by K.Hash S.BuildHasher S.Hasher.Hasher) self.old.cache key now W.weighs (λ made. F.post make (Ok made)) value
            self.new.cache) }
        ensures err { IfErr result (λ error. IsOnlyAGet (F.post make) V.is_infallible (keys_by K.Hash S.BuildHasher S.Hasher.Hasher)
            self.old.cache key now error self.new.cache) }
        ensures ready { W.ready self.new.cache.weigher }
        ensures told { OnOk result (TellsGot L.hears (keys_by K.Hash S.BuildHasher S.Hasher.Hasher) self.old.cache now
            (found_by_get (keys_by K.Hash S.BuildHasher S.Hasher.Hasher) self.old.cache key now) key self.new.cache
            self.old.listener self.new.listener) }
        ensures looked { OnErr result (TellsLook L.hears (keys_by K.Hash S.BuildHasher S.Hasher.Hasher) self.old.cache now
            self.old.listener self.new.listener) }
    {
        let hash = self.cache.hash_of(&key);
        self.cache
            .try_get_or_insert_notifying(key, hash, now, make, &mut self.listener)
    }
}
