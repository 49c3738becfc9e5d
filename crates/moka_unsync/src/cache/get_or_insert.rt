// A get that inserts what it misses.
ghost use Rattle.std.specs.Prelude.{◌≡◌, ◌⊎◌, None, Ok, IfErr, IfOk, OnErr, OnOk};
ghost use Rattle.moka_common.specs.Keys.{keys_by};
ghost use Rattle.moka_unsync_model.specs.GetOrInsert.{IsGotOrInserted, IsRefusedBehind};
ghost use Rattle.moka_unsync_model.specs.Lookup.{after_get, found_by_get};
ghost use Rattle.moka_unsync_model.specs.ToldCalls.{TellsGot, TellsLook};
ghost use Rattle.moka_unsync.specs.Trying.{IsOnlyAGet};

use crate::cache::Cache;
use crate::error::TryInsertError;
use moka_common::error::InsertError;
use moka_common::time::Instant;
use moka_common::weigh::Weigh;
use moka_unsync_model::listener::{Listener, NoListener};
use std::alloc::Allocator;
use std::hash::{BuildHasher, Hash};

impl<
    K: Eq + Hash + Drop,
    V: Clone + Drop,
    S: BuildHasher + Drop,
    W: Weigh<K, V> + Drop,
    A: Allocator + Clone + Drop,
> Cache<K, V, S, W, A> {
    /// Returns a clone of the key's value. If the key has no unexpired entry, `make` is called once, and its value is inserted as by `insert`. It is returned
    /// even if the admission policy rejects the entry. The key is counted, found or not, and a hit counts as a use.
    ///
    /// ```
    /// let square = cache.get_or_insert_with(7, now, || 7 * 7)?;
    /// let found = cache.peek(&7, now).copied().unwrap_or(0);
    /// ```
    ///
    /// It hashes the key once. Memory can be refused for the clone, or for room: then the key is counted, and an entry that was found is used, but nothing is
    /// inserted, and what was made is dropped.
    pub fn get_or_insert_with<F: FnOnce() -> V>(
        &mut self,
        key: K,
        now: Instant,
        make: F,
    ) -> Result<V, InsertError>
        requires ready { W.ready self.old.weigher }
        requires make { found_by_get (keys_by K.Hash S.BuildHasher S.Hasher.Hasher) self.old key now ≡ None → F.pre make }
        ensures ok { IfOk result (λ copy. (value : V) × V.is_clone value copy
            × IsGotOrInserted (keys_by K.Hash S.BuildHasher S.Hasher.Hasher) self.old key now W.weighs (F.post make) value self.new) }
        ensures err { OnErr result (((value : V) × (¬ (V.is_infallible value))
            × (self.new ≡ after_get (keys_by K.Hash S.BuildHasher S.Hasher.Hasher) self.old key now))
            ⊎ IsRefusedBehind (keys_by K.Hash S.BuildHasher S.Hasher.Hasher) self.old key now self.new) }
        ensures error { IfErr result (λ error. error ≡ InsertError.OutOfMemory) }
        ensures ready { W.ready self.new.weigher }
    {
        let hash = self.hash_state.hash_one(&key);
        self.get_or_insert_notifying(key, hash, now, make, &mut NoListener)
    }

    /// Returns a clone of the value of the key, as `get_or_insert_with` does, by the key's hash. If memory is refused, for the clone or for room, the
    /// listener doesn't get what was made.
    pub fn get_or_insert_notifying<F: FnOnce() -> V, L: Listener<K, V>>(
        &mut self,
        key: K,
        hash: u64,
        now: Instant,
        make: F,
        listener: &mut L,
    ) -> Result<V, InsertError>
        requires hashed { hash ≡ (keys_by K.Hash S.BuildHasher S.Hasher.Hasher).hash_of self.old.settings.hash_state key }
        requires ready { W.ready self.old.weigher }
        requires make { found_by_get (keys_by K.Hash S.BuildHasher S.Hasher.Hasher) self.old key now ≡ None → F.pre make }
        ensures ok { IfOk result (λ copy. (value : V) × V.is_clone value copy
            × IsGotOrInserted (keys_by K.Hash S.BuildHasher S.Hasher.Hasher) self.old key now W.weighs (F.post make) value self.new) }
        ensures err { OnErr result (((value : V) × (¬ (V.is_infallible value))
            × (self.new ≡ after_get (keys_by K.Hash S.BuildHasher S.Hasher.Hasher) self.old key now))
            ⊎ IsRefusedBehind (keys_by K.Hash S.BuildHasher S.Hasher.Hasher) self.old key now self.new) }
        ensures error { IfErr result (λ error. error ≡ InsertError.OutOfMemory) }
        ensures ready { W.ready self.new.weigher }
        ensures told { OnOk result (TellsGot L.hears (keys_by K.Hash S.BuildHasher S.Hasher.Hasher) self.old now
            (found_by_get (keys_by K.Hash S.BuildHasher S.Hasher.Hasher) self.old key now) key self.new listener.old listener.new) }
        ensures looked { OnErr result (TellsLook L.hears (keys_by K.Hash S.BuildHasher S.Hasher.Hasher) self.old now listener.old listener.new) }
    {
        if let Some(found) = self.get_notifying(&key, hash, now, listener) {
            return copy_of(found);
        }
        let value = make();
        let copy = copy_of(&value)?;
        self.insert_notifying(key, hash, value, None, now, listener)?;
        Ok(copy)
    }

    /// Returns a clone of the key's value, as `get_or_insert_with` does, where `make` may fail. Then its error is returned, and nothing is inserted: the call
    /// was a get.
    ///
    /// ```
    /// let make = || if number % 2 == 0 { Ok(number / 2) } else { Err(Odd) };
    /// let half = cache.try_get_or_insert_with(number, now, make);
    /// ```
    pub fn try_get_or_insert_with<E: Drop, F: FnOnce() -> Result<V, E>>(
        &mut self,
        key: K,
        now: Instant,
        make: F,
    ) -> Result<V, TryInsertError<E>>
        requires ready { W.ready self.old.weigher }
        requires make { found_by_get (keys_by K.Hash S.BuildHasher S.Hasher.Hasher) self.old key now ≡ None → F.pre make }
        ensures ok { IfOk result (λ copy. (value : V) × V.is_clone value copy
            × IsGotOrInserted (keys_by K.Hash S.BuildHasher S.Hasher.Hasher) self.old key now W.weighs (λ made. F.post make (Ok made)) value
            self.new) }
        ensures err { IfErr result (λ error. IsOnlyAGet (F.post make) V.is_infallible (keys_by K.Hash S.BuildHasher S.Hasher.Hasher)
            self.old key now error self.new) }
        ensures ready { W.ready self.new.weigher }
    {
        let hash = self.hash_state.hash_one(&key);
        self.try_get_or_insert_notifying(key, hash, now, make, &mut NoListener)
    }

    /// Returns a clone of the key's value, as `try_get_or_insert_with` does, by the key's hash. If it fails, the listener gets what the get had to remove.
    pub fn try_get_or_insert_notifying<E: Drop, F: FnOnce() -> Result<V, E>, L: Listener<K, V>>(
        &mut self,
        key: K,
        hash: u64,
        now: Instant,
        make: F,
        listener: &mut L,
    ) -> Result<V, TryInsertError<E>>
        requires hashed { hash ≡ (keys_by K.Hash S.BuildHasher S.Hasher.Hasher).hash_of self.old.settings.hash_state key }
        requires ready { W.ready self.old.weigher }
        requires make { found_by_get (keys_by K.Hash S.BuildHasher S.Hasher.Hasher) self.old key now ≡ None → F.pre make }
        ensures ok { IfOk result (λ copy. (value : V) × V.is_clone value copy
            × IsGotOrInserted (keys_by K.Hash S.BuildHasher S.Hasher.Hasher) self.old key now W.weighs (λ made. F.post make (Ok made)) value
            self.new) }
        ensures err { IfErr result (λ error. IsOnlyAGet (F.post make) V.is_infallible (keys_by K.Hash S.BuildHasher S.Hasher.Hasher)
            self.old key now error self.new) }
        ensures ready { W.ready self.new.weigher }
        ensures told { OnOk result (TellsGot L.hears (keys_by K.Hash S.BuildHasher S.Hasher.Hasher) self.old now
            (found_by_get (keys_by K.Hash S.BuildHasher S.Hasher.Hasher) self.old key now) key self.new listener.old listener.new) }
        ensures looked { OnErr result (TellsLook L.hears (keys_by K.Hash S.BuildHasher S.Hasher.Hasher) self.old now listener.old listener.new) }
    {
        if let Some(value) = self.get_notifying(&key, hash, now, listener) {
            return match copy_of(value) {
                Ok(copy) => Ok(copy),
                Err(_) => Err(TryInsertError::OutOfMemory),
            };
        }
        let value = match make() {
            Ok(value) => value,
            Err(error) => return Err(TryInsertError::Make(error)),
        };
        let Ok(copy) = copy_of(&value) else {
            return Err(TryInsertError::OutOfMemory);
        };
        match self.insert_notifying(key, hash, value, None, now, listener) {
            Ok(()) => Ok(copy),
            Err(_) => Err(TryInsertError::OutOfMemory),
        }
    }
}

/// Clones a value.
fn copy_of<V: Clone>(value: &V) -> Result<V, InsertError>
    ensures ok { IfOk result (λ copy. V.is_clone value.now copy) }
    ensures err { OnErr result (¬ (V.is_infallible value.now)) }
    ensures error { IfErr result (λ error. error ≡ InsertError.OutOfMemory) }
{
    match value.clone() {
        Ok(copy) => Ok(copy),
        Err(_) => Err(InsertError::OutOfMemory),
    }
}
