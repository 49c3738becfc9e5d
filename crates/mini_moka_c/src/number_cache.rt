//! A cache of numbers.
ghost use Rattle.std.specs.Prelude.{◌≡◌, ⊤, [], IfErr, IfOk, is_some, IsSome, None, OnErr, OnOk, option_map, Some, true};
ghost use Rattle.std.specs.Duration.{as_nanos};
ghost use Rattle.std.specs.Map.Iter.{deref_pair};
ghost use Rattle.moka_unsync.specs.Builder.{IsBuilt, refusal_of};
ghost use Rattle.moka_unsync.specs.Cleanup.{is_expired};
ghost use Rattle.moka_unsync.specs.Contents.{entry_at};
ghost use Rattle.moka_unsync.specs.Invalidate.{after_invalidate_all, after_remove_expired};
ghost use Rattle.moka_unsync.specs.Lookup.{after_look, found_by_get, found_by_peek, is_contained};
ghost use Rattle.moka_unsync_model.specs.Told.{TellsWhatLeft};
ghost use Rattle.moka_unsync_model.specs.ToldCalls.{TellsLook};
ghost use Rattle.moka_unsync_model.specs.declared.listener.Cause.TheVariants.{Expired, Explicit};
ghost use Rattle.mini_moka_c.specs.declared.steps.Walk.TheVariants.{AtStart, Ended};
ghost use Rattle.mini_moka_c.specs.Calls.{IsTimedRefusal};
ghost use Rattle.mini_moka_c.specs.Inserted.{inserted_of};
ghost use Rattle.mini_moka_c.specs.NumberCalls.{IsNumberGet, IsNumberInsert, IsNumberInvalidation, IsNumberRefusal, IsNumberRemove};
ghost use Rattle.mini_moka_c.specs.NumberKeys.{number_keys};
ghost use Rattle.mini_moka_c.specs.NumberWalk.{met_after, next_pair, step_of, walk_after};
ghost use Rattle.mini_moka_c.specs.Removed.{oldest, queues, without_oldest};
ghost use Rattle.mini_moka_c.specs.Statistics.{no_statistics, with_clearing, with_expiry, with_cleanup};

use crate::inserted::Inserted;
use crate::removed::{Leaving, Removed, RemovedQueue};
use crate::statistics::Statistics;
use crate::steps::{NumberStep, Walk};
use crate::weight::NumberWeight;
use moka_common::error::{BuildError, InsertError};
use moka_common::hash::FixedState;
use moka_common::time::Instant;
use moka_unsync::builder::CacheBuilder;
use moka_unsync::cache::Cache;
use moka_unsync::error::TimedInsertError;
use std::time::Duration;

/// A cache for one thread whose keys and values are numbers. No look-up asks for memory.
#[derive(Drop)]
pub struct NumberCache {
    pub cache: Cache<u64, u64, FixedState, NumberWeight>,
    /// Counts of the calls, and entries that left and aren't drained.
    pub leaving: Leaving<u64, u64>,
    walk: Walk,
    // The key that the walk met last.
    walk_key: u64,
}

impl NumberCache {
    /// Builds a cache with what is set, which queues what leaves. It is refused as `CacheBuilder::build` is.
    pub fn build(
        builder: CacheBuilder<u64, u64, NumberWeight>,
        removed: RemovedQueue<u64, u64>,
    ) -> Result<NumberCache, BuildError>
        ensures ok { IfOk result (λ made. IsBuilt builder made.cache.settings.hash_state made.cache) }
        ensures counts { IfOk result (λ made. made.leaving.statistics ≡ no_statistics) }
        ensures removed { IfOk result (λ made. made.leaving.removed ≡ removed) }
        ensures walk { IfOk result (λ made. made.walk ≡ Ended) }
        ensures err { IfErr result (λ error. error ≡ refusal_of builder) }
    {
        Ok(NumberCache {
            cache: builder.build()?,
            leaving: Leaving {
                statistics: Statistics::none(),
                removed,
                inserted: Inserted::Stored,
            },
            walk: Walk::Ended,
            walk_key: 0,
        })
    }

    /// Puts the value at the key, as `Cache::insert` does, and returns whether it was let in. If memory is refused, no entry changes and a walk goes on.
    pub fn insert(&mut self, key: u64, value: u64, now: Instant) -> Result<Inserted, InsertError>
        ensures answer { IfOk result (λ inserted. inserted ≡ inserted_of (is_some (entry_at number_keys.eq key self.new.cache.contents.entries))) }
        ensures step { OnOk result (IsNumberInsert key value None now self.old self.new) }
        ensures refused { OnErr result (IsNumberRefusal self.old self.new) }
        ensures error { IfErr result (λ error. error ≡ InsertError.OutOfMemory) }
    {
        let hash = self.cache.hash_of(&key);
        self.insert_hashed(key, hash, value, None, now)
    }

    /// Puts the value at the key, as `insert` does, with its own time to live, in a cache that has one too. Without that the error is `NoTimeToLive`.
    pub fn insert_for(
        &mut self,
        key: u64,
        value: u64,
        time_to_live: Duration,
        now: Instant,
    ) -> Result<Inserted, TimedInsertError>
        ensures answer { IfOk result (λ inserted. inserted ≡ inserted_of (is_some (entry_at number_keys.eq key self.new.cache.contents.entries))) }
        ensures step { OnOk result (IsSome self.old.cache.settings.policy.time_to_live
            × IsNumberInsert key value (Some (as_nanos time_to_live)) now self.old self.new) }
        ensures refused { IfErr result (λ error. IsTimedRefusal IsNumberRefusal error self.old.cache.settings.policy self.old self.new) }
    {
        if self.cache.policy().time_to_live().is_none() {
            return Err(TimedInsertError::NoTimeToLive);
        }
        let hash = self.cache.hash_of(&key);
        match self.insert_hashed(key, hash, value, Some(time_to_live), now) {
            Ok(inserted) => Ok(inserted),
            Err(_) => Err(TimedInsertError::OutOfMemory),
        }
    }

    /// Puts the value at the key by the key's hash. With a time to live it works as `insert_for`, and without one as `insert`.
    pub(crate) fn insert_hashed(
        &mut self,
        key: u64,
        hash: u64,
        value: u64,
        time_to_live: Option<Duration>,
        now: Instant,
    ) -> Result<Inserted, InsertError>
        requires { hash ≡ number_keys.hash_of self.old.cache.settings.hash_state key }
        ensures answer { IfOk result (λ inserted. inserted ≡ inserted_of (is_some (entry_at number_keys.eq key self.new.cache.contents.entries))) }
        ensures step { OnOk result (IsNumberInsert key value (option_map as_nanos time_to_live) now self.old self.new) }
        ensures refused { OnErr result (IsNumberRefusal self.old self.new) }
        ensures error { IfErr result (λ error. error ≡ InsertError.OutOfMemory) }
    {
        let before = self.leaving.inserted;
        self.leaving.inserted = Inserted::Stored;
        if let Err(refused) = self
            .cache
            .insert_notifying(key, hash, value, time_to_live, now, &mut self.leaving)
        {
            self.leaving.inserted = before;
            return Err(refused);
        }
        self.walk = Walk::Ended;
        self.leaving.statistics.count_insert();
        Ok(self.leaving.inserted)
    }

    /// Looks the key up as `Cache::get` does.
    pub fn get(&mut self, key: u64, now: Instant) -> Option<u64>
        ensures { IsNumberGet key now result self.old self.new }
    {
        let hash = self.cache.hash_of(&key);
        self.get_hashed(key, hash, now)
    }

    /// Looks the key up as `get` does, by the key's hash.
    pub(crate) fn get_hashed(&mut self, key: u64, hash: u64, now: Instant) -> Option<u64>
        requires { hash ≡ number_keys.hash_of self.old.cache.settings.hash_state key }
        ensures { IsNumberGet key now result self.old self.new }
    {
        self.walk = Walk::Ended;
        let value = self.cache.get_notifying(&key, hash, now, &mut self.leaving);
        let found = value.copied();
        self.leaving.statistics.count_get(found.is_some());
        found
    }

    /// Looks the key up as `Cache::peek` does.
    pub fn peek(&self, key: u64, now: Instant) -> Option<u64>
        ensures { result ≡ found_by_peek number_keys self.now.cache key now }
    {
        self.cache.peek(&key, now).copied()
    }

    /// Returns `true` if the key has an unexpired entry, as `Cache::contains_key` does.
    pub fn contains(&mut self, key: u64, now: Instant) -> bool
        ensures value { result ≡ is_contained number_keys self.old.cache key now }
        ensures step { self.new.cache ≡ after_look number_keys self.old.cache now }
        ensures counts { self.new.leaving.statistics ≡ with_cleanup number_keys self.old.cache now self.old.leaving.statistics }
        ensures removed { TellsLook queues number_keys self.old.cache now self.old.leaving.removed self.new.leaving.removed }
        ensures walk { self.new.walk ≡ Ended }
    {
        self.walk = Walk::Ended;
        let hash = self.cache.hash_of(&key);
        self.cache
            .contains_notifying(&key, hash, now, &mut self.leaving)
    }

    /// Removes the entry of the key, as `Cache::remove` does, and returns its value.
    pub fn remove(&mut self, key: u64, now: Instant) -> Option<u64>
        ensures value { result ≡ found_by_get number_keys self.old.cache key now }
        ensures step { IsNumberRemove key now self.old self.new }
    {
        self.walk = Walk::Ended;
        let hash = self.cache.hash_of(&key);
        let value = self
            .cache
            .remove_notifying(&key, hash, now, &mut self.leaving);
        self.leaving.statistics.count_removal(value.is_some());
        value
    }

    /// Removes the entry of the key, if there is one.
    pub fn invalidate(&mut self, key: u64, now: Instant)
        ensures { IsNumberInvalidation key now self.old self.new }
    {
        self.walk = Walk::Ended;
        let hash = self.cache.hash_of(&key);
        self.cache
            .invalidate_notifying(&key, hash, now, &mut self.leaving);
    }

    /// Removes all entries.
    pub fn invalidate_all(&mut self)
        ensures step { self.new ≡ record self.old { cache = after_invalidate_all self.old.cache; leaving = self.new.leaving; walk = Ended } }
        ensures counts { self.new.leaving.statistics ≡ with_clearing self.old.cache self.old.leaving.statistics }
        ensures removed { TellsWhatLeft queues Explicit (λ e. ⊤) self.old.cache.contents.entries [] self.old.leaving.removed self.new.leaving.removed }
    {
        self.walk = Walk::Ended;
        self.cache.invalidate_all_notifying(&mut self.leaving);
    }

    /// Removes all expired entries, as `Cache::remove_expired` does.
    pub fn remove_expired(&mut self, now: Instant)
        ensures step { self.new ≡ record self.old { cache = after_remove_expired number_keys self.old.cache now; leaving = self.new.leaving; walk = Ended } }
        ensures counts { self.new.leaving.statistics ≡ with_expiry number_keys self.old.cache now self.old.leaving.statistics }
        ensures removed { TellsWhatLeft queues Expired (λ e. is_expired self.old.cache.settings.policy now e ≡ true) self.old.cache.contents.entries
            self.new.cache.contents.entries self.old.leaving.removed self.new.leaving.removed }
    {
        self.walk = Walk::Ended;
        self.cache.remove_expired_notifying(now, &mut self.leaving);
    }

    /// Drains the removed entry that left first.
    pub fn drain(&mut self) -> Option<Removed<u64, u64>>
        ensures value { result ≡ oldest self.old.leaving.removed }
        ensures step { self.new ≡ record self.old { leaving = record self.old.leaving { removed = without_oldest self.old.leaving.removed } } }
    {
        self.leaving.removed.take()
    }

    /// Begins a walk through the unexpired entries, in the order of `Cache::iter`. Each call that may change the cache ends it, unless it is refused memory:
    /// all but `peek` and the looks at counts.
    pub fn begin_walk(&mut self)
        ensures { self.new ≡ record self.old { walk = AtStart } }
    {
        self.walk = Walk::AtStart;
    }

    /// Goes on to the next entry of the walk.
    pub fn step(&mut self, now: Instant) -> NumberStep
        ensures told { result ≡ step_of self.old.walk (next_pair self.old.walk self.old.cache self.old.walk_key now) }
        ensures rest { self.new ≡ record self.old {
          walk = walk_after self.old.walk (next_pair self.old.walk self.old.cache self.old.walk_key now);
          walk_key = met_after self.old.walk_key (next_pair self.old.walk self.old.cache self.old.walk_key now);
        } }
    {
        match next_of(&self.cache, self.walk, self.walk_key, now) {
            Some((key, value)) => {
                self.walk = Walk::Behind;
                self.walk_key = key;
                NumberStep::Pair { key, value }
            }
            None => end_of(self.walk),
        }
    }
}

/// Returns the next entry of a walk.
fn next_of(
    cache: &Cache<u64, u64, FixedState, NumberWeight>,
    walk: Walk,
    walk_key: u64,
    now: Instant,
) -> Option<(u64, u64)>
    ensures { result ≡ next_pair walk cache.now walk_key now }
{
    match walk {
        Walk::Ended => None,
        Walk::AtStart => copied(cache.iter(now).next()),
        Walk::Behind => copied(cache.next_after(&walk_key, now)),
    }
}

/// Copies a key and its value.
fn copied(pair: Option<(&u64, &u64)>) -> Option<(u64, u64)>
    ensures { result ≡ option_map deref_pair pair.entry }
{
    let (key, value) = pair?;
    Some((*key, *value))
}

/// Returns the answer of a step without a next entry.
fn end_of(walk: Walk) -> NumberStep
    ensures { result ≡ step_of walk None }
{
    match walk {
        Walk::Ended => NumberStep::Ended,
        _ => NumberStep::Done,
    }
}
