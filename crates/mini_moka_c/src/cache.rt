//! A cache of bytes.
ghost use Rattle.std.specs.Prelude.{◌≡◌, ⊤, [], length, nat_le, IfErr, IfOk, is_some, IsSome, None, OnErr, OnOk, option_copied, option_map, Some, true};
ghost use Rattle.std.specs.Duration.{as_nanos};
ghost use Rattle.std.specs.Map.Iter.{deref_pair};
ghost use Rattle.moka_unsync.specs.Builder.{IsBuilt, refusal_of};
ghost use Rattle.moka_unsync.specs.Cleanup.{is_expired};
ghost use Rattle.moka_unsync.specs.Contents.{entry_at};
ghost use Rattle.moka_unsync.specs.Invalidate.{after_invalidate, after_invalidate_all, after_remove_expired};
ghost use Rattle.moka_unsync.specs.Lookup.{after_look, found_by_get, found_by_peek, is_contained};
ghost use Rattle.moka_unsync_model.specs.Told.{TellsWhatLeft};
ghost use Rattle.moka_unsync_model.specs.ToldCalls.{TellsInvalidate, TellsLook};
ghost use Rattle.moka_unsync_model.specs.declared.listener.Cause.TheVariants.{Expired, Explicit};
ghost use Rattle.mini_moka_c.specs.Buffer.{IsTaken, copied_to, is_longer};
ghost use Rattle.mini_moka_c.specs.ByteCalls.{IsBytesGet, IsBytesInsert, IsBytesRefusal};
ghost use Rattle.mini_moka_c.specs.ByteKeys.{byte_keys};
ghost use Rattle.mini_moka_c.specs.Calls.{IsTimedRefusal};
ghost use Rattle.mini_moka_c.specs.Inserted.{inserted_of};
ghost use Rattle.mini_moka_c.specs.Drain.{drained_by, drained_of, pair_of};
ghost use Rattle.mini_moka_c.specs.Removed.{QueuesTaken, oldest, queues};
ghost use Rattle.mini_moka_c.specs.Walk.{IsLong, fitting, met_after, next_pair, step_of, walk_after};
ghost use Rattle.mini_moka_c.specs.declared.steps.Walk.TheVariants.{AtStart, Ended};
ghost use Rattle.mini_moka_c.specs.Statistics.{no_statistics, with_clearing, with_expiry, with_remove, with_taken, with_cleanup};

use crate::inserted::Inserted;
use crate::key::{Bytes, Key};
use crate::removed::{Drained, Leaving, RemovedQueue};
use crate::seed::Seed;
use crate::statistics::Statistics;
use crate::steps::{Step, Walk};
use crate::value::Value;
use crate::weight::ByteWeight;
use moka_common::error::{BuildError, InsertError, OutOfMemory};
use moka_common::time::Instant;
use moka_unsync::builder::CacheBuilder;
use moka_unsync::cache::Cache;
use moka_unsync::error::TimedInsertError;
use std::alloc::Global;
use std::time::Duration;

/// A cache for one thread whose keys and values are bytes. It copies in what it is given, and copies out what it finds.
///
/// A look-up copies no key, so it asks for no memory. A walk keeps a copy of the key that it met last, which asks for memory if the key is longer than
/// `SHORT_KEY` bytes and than those before.
#[derive(Drop)]
pub struct ByteCache {
    pub cache: Cache<Key, Value, Seed, ByteWeight>,
    /// Counts of the calls, and entries that left and aren't drained.
    pub leaving: Leaving<Key, Value>,
    walk: Walk,
    // The key that the walk met last.
    walk_key: Key,
}

impl ByteCache {
    /// Builds a cache with what is set, whose hash has this key, and which queues what leaves. It is refused as `CacheBuilder::build` is.
    pub fn build(
        alloc: Global,
        builder: CacheBuilder<Key, Value, ByteWeight>,
        seed: Seed,
        removed: RemovedQueue<Key, Value>,
    ) -> Result<ByteCache, BuildError>
        ensures ok { IfOk result (λ made. IsBuilt builder seed made.cache) }
        ensures counts { IfOk result (λ made. made.leaving.statistics ≡ no_statistics) }
        ensures removed { IfOk result (λ made. made.leaving.removed ≡ removed) }
        ensures walk { IfOk result (λ made. made.walk ≡ Ended) }
        ensures err { IfErr result (λ error. error ≡ refusal_of builder) }
    {
        Ok(ByteCache {
            cache: builder.build_with_hasher(seed)?,
            leaving: Leaving {
                statistics: Statistics::none(),
                removed,
                inserted: Inserted::Stored,
            },
            walk: Walk::Ended,
            walk_key: Key::new(alloc),
        })
    }

    /// Puts a copy of the value at a copy of the key, as `Cache::insert` does, and returns whether it was let in. If memory is refused, for the copies or for
    /// room, no entry changes and a walk goes on.
    pub fn insert(
        &mut self,
        alloc: Global,
        key: &[u8],
        value: &[u8],
        now: Instant,
    ) -> Result<Inserted, InsertError>
        ensures answer { IfOk result (λ inserted. inserted ≡ inserted_of (is_some (entry_at byte_keys.eq key.now self.new.cache.contents.entries))) }
        ensures step { OnOk result (IsBytesInsert key.now value.now None now self.old self.new) }
        ensures refused { OnErr result (IsBytesRefusal self.old self.new) }
        ensures error { IfErr result (λ error. error ≡ InsertError.OutOfMemory) }
    {
        let hash = self.cache.hash_of(Bytes { bytes: key });
        self.insert_hashed(alloc, key, hash, value, None, now)
    }

    /// Puts a copy of the value at a copy of the key, as `insert` does, with its own time to live. If the cache has none, the error is `NoTimeToLive`.
    pub fn insert_for(
        &mut self,
        alloc: Global,
        key: &[u8],
        value: &[u8],
        time_to_live: Duration,
        now: Instant,
    ) -> Result<Inserted, TimedInsertError>
        ensures answer { IfOk result (λ inserted. inserted ≡ inserted_of (is_some (entry_at byte_keys.eq key.now self.new.cache.contents.entries))) }
        ensures step { OnOk result (IsSome self.old.cache.settings.policy.time_to_live
            × IsBytesInsert key.now value.now (Some (as_nanos time_to_live)) now self.old self.new) }
        ensures refused { IfErr result (λ error. IsTimedRefusal IsBytesRefusal error self.old.cache.settings.policy self.old self.new) }
    {
        if self.cache.policy().time_to_live().is_none() {
            return Err(TimedInsertError::NoTimeToLive);
        }
        let hash = self.cache.hash_of(Bytes { bytes: key });
        match self.insert_hashed(alloc, key, hash, value, Some(time_to_live), now) {
            Ok(inserted) => Ok(inserted),
            Err(_) => Err(TimedInsertError::OutOfMemory),
        }
    }

    /// Puts a copy of the value at a copy of the key by the key's hash. With a time to live it works as `insert_for`, and without one as `insert`.
    pub(crate) fn insert_hashed(
        &mut self,
        alloc: Global,
        key: &[u8],
        hash: u64,
        value: &[u8],
        time_to_live: Option<Duration>,
        now: Instant,
    ) -> Result<Inserted, InsertError>
        requires { hash ≡ byte_keys.hash_of self.old.cache.settings.hash_state key.now }
        ensures answer { IfOk result (λ inserted. inserted ≡ inserted_of (is_some (entry_at byte_keys.eq key.now self.new.cache.contents.entries))) }
        ensures step { OnOk result (IsBytesInsert key.now value.now (option_map as_nanos time_to_live) now self.old self.new) }
        ensures refused { OnErr result (IsBytesRefusal self.old self.new) }
        ensures error { IfErr result (λ error. error ≡ InsertError.OutOfMemory) }
    {
        let (key, value) = copies(alloc, key, value)?;
        let before = self.leaving.inserted;
        self.leaving.inserted = Inserted::Stored;
        if let Err(refused) = self
            .cache
            .insert_notifying(key, hash, value, time_to_live, now, &mut self.leaving)
        {
            self.leaving.inserted = before;
            return Err(refused);
        }
        self.walk = Walk::Ended;
        self.leaving.statistics.count_insert();
        Ok(self.leaving.inserted)
    }

    /// Looks the key up as `Cache::get` does. It copies the value to the beginning of the buffer, if it fits, and answers its length.
    pub fn get(&mut self, key: &[u8], now: Instant, buffer: &mut [u8]) -> Option<usize>
        ensures value { result ≡ option_map length (found_by_get byte_keys self.old.cache key.now now) }
        ensures copied { buffer.new ≡ copied_to buffer.old (found_by_get byte_keys self.old.cache key.now now) }
        ensures step { IsBytesGet key.now now self.old self.new }
    {
        let hash = self.cache.hash_of(Bytes { bytes: key });
        self.get_hashed(key, hash, now, buffer)
    }

    /// Looks the key up as `get` does, by the key's hash.
    pub(crate) fn get_hashed(
        &mut self,
        key: &[u8],
        hash: u64,
        now: Instant,
        buffer: &mut [u8],
    ) -> Option<usize>
        requires { hash ≡ byte_keys.hash_of self.old.cache.settings.hash_state key.now }
        ensures value { result ≡ option_map length (found_by_get byte_keys self.old.cache key.now now) }
        ensures copied { buffer.new ≡ copied_to buffer.old (found_by_get byte_keys self.old.cache key.now now) }
        ensures step { IsBytesGet key.now now self.old self.new }
    {
        self.walk = Walk::Ended;
        let value = self
            .cache
            .get_notifying(Bytes { bytes: key }, hash, now, &mut self.leaving);
        let found = copied(value, buffer);
        self.leaving.statistics.count_get(found.is_some());
        found
    }

    /// Looks the key up as `Cache::peek` does.
    pub fn peek(&self, key: &[u8], now: Instant, buffer: &mut [u8]) -> Option<usize>
        ensures value { result ≡ option_map length (found_by_peek byte_keys self.now.cache key.now now) }
        ensures copied { buffer.new ≡ copied_to buffer.old (found_by_peek byte_keys self.now.cache key.now now) }
    {
        copied(self.cache.peek_by(Bytes { bytes: key }, now), buffer)
    }

    /// Returns `true` if the key has an unexpired entry, as `Cache::contains_key` does.
    pub fn contains(&mut self, key: &[u8], now: Instant) -> bool
        ensures value { result ≡ is_contained byte_keys self.old.cache key.now now }
        ensures step { self.new.cache ≡ after_look byte_keys self.old.cache now }
        ensures counts { self.new.leaving.statistics ≡ with_cleanup byte_keys self.old.cache now self.old.leaving.statistics }
        ensures removed { TellsLook queues byte_keys self.old.cache now self.old.leaving.removed self.new.leaving.removed }
        ensures walk { self.new.walk ≡ Ended }
    {
        self.walk = Walk::Ended;
        let key = Bytes { bytes: key };
        let hash = self.cache.hash_of(key);
        self.cache
            .contains_notifying(key, hash, now, &mut self.leaving)
    }

    /// Removes the entry of the key, as `Cache::remove` does, and returns the length of its value, which it copies as `get` does. An entry whose value is
    /// longer than the buffer stays.
    pub fn remove(&mut self, key: &[u8], now: Instant, buffer: &mut [u8]) -> Option<usize>
        ensures step { IsTaken self.old.cache key.now now buffer.old self.new.cache buffer.new result }
        ensures walk { self.new.walk ≡ Ended }
        ensures counts { self.new.leaving.statistics
            ≡ with_taken byte_keys self.old.cache now (is_longer (found_by_peek byte_keys self.old.cache key.now now) buffer.old) key.now
            self.old.leaving.statistics }
        ensures removed { QueuesTaken byte_keys self.old.cache now
            (is_longer (found_by_peek byte_keys self.old.cache key.now now) buffer.old) key.now self.old.leaving.removed self.new.leaving.removed }
    {
        self.walk = Walk::Ended;
        let key = Bytes { bytes: key };
        let hash = self.cache.hash_of(key);
        if let Some(value) = self.cache.peek_hashed(key, hash, now) {
            let length = value.as_slice().len();
            if length > buffer.len() {
                return Some(length);
            }
        }
        let value = self
            .cache
            .remove_notifying(key, hash, now, &mut self.leaving);
        self.leaving.statistics.count_removal(value.is_some());
        copied(value.as_ref(), buffer)
    }

    /// Removes the entry of the key, if there is one.
    pub fn invalidate(&mut self, key: &[u8], now: Instant)
        ensures step { self.new.cache ≡ after_invalidate byte_keys self.old.cache key.now now }
        ensures walk { self.new.walk ≡ Ended }
        ensures counts { self.new.leaving.statistics ≡ with_remove byte_keys self.old.cache now key.now self.old.leaving.statistics }
        ensures removed { TellsInvalidate queues byte_keys self.old.cache now key.now self.old.leaving.removed self.new.leaving.removed }
    {
        self.walk = Walk::Ended;
        let key = Bytes { bytes: key };
        let hash = self.cache.hash_of(key);
        self.cache
            .invalidate_notifying(key, hash, now, &mut self.leaving);
    }

    /// Removes all entries.
    pub fn invalidate_all(&mut self)
        ensures step { self.new ≡ record self.old { cache = after_invalidate_all self.old.cache; leaving = self.new.leaving; walk = Ended } }
        ensures counts { self.new.leaving.statistics ≡ with_clearing self.old.cache self.old.leaving.statistics }
        ensures removed { TellsWhatLeft queues Explicit (λ e. ⊤) self.old.cache.contents.entries [] self.old.leaving.removed self.new.leaving.removed }
    {
        self.walk = Walk::Ended;
        self.cache.invalidate_all_notifying(&mut self.leaving);
    }

    /// Removes all expired entries, as `Cache::remove_expired` does.
    pub fn remove_expired(&mut self, now: Instant)
        ensures step { self.new ≡ record self.old { cache = after_remove_expired byte_keys self.old.cache now; leaving = self.new.leaving; walk = Ended } }
        ensures counts { self.new.leaving.statistics ≡ with_expiry byte_keys self.old.cache now self.old.leaving.statistics }
        ensures removed { TellsWhatLeft queues Expired (λ e. is_expired self.old.cache.settings.policy now e ≡ true) self.old.cache.contents.entries
            self.new.cache.contents.entries self.old.leaving.removed self.new.leaving.removed }
    {
        self.walk = Walk::Ended;
        self.cache.remove_expired_notifying(now, &mut self.leaving);
    }

    /// Drains the entry that left first, if its key and value fit in the buffers, and returns their lengths. They are copied to the beginnings. If one
    /// doesn't fit, the entry stays in front.
    pub fn drain(&mut self, keys: &mut [u8], values: &mut [u8]) -> Option<Drained>
        ensures told { result ≡ option_map drained_of (oldest self.old.leaving.removed) }
        ensures key { keys.new ≡ copied_to keys.old (option_map (λ p. p.0)
            (fitting (option_map pair_of (oldest self.old.leaving.removed)) keys.old values.old)) }
        ensures value { values.new ≡ copied_to values.old (option_map (λ p. p.1)
            (fitting (option_map pair_of (oldest self.old.leaving.removed)) keys.old values.old)) }
        ensures step { self.new ≡ drained_by (fitting (option_map pair_of (oldest self.old.leaving.removed)) keys.old values.old) self.old }
    {
        let removed = self.leaving.removed.kept.front()?;
        let (key, value) = (removed.key.as_slice(), removed.value.as_slice());
        let drained = Drained {
            key: key.len(),
            value: value.len(),
            cause: removed.cause,
        };
        if key.len() <= keys.len() && value.len() <= values.len() {
            keys[..key.len()].copy_from_slice(key);
            values[..value.len()].copy_from_slice(value);
            let _removed = self.leaving.removed.take();
        }
        Some(drained)
    }

    /// Begins a walk through the unexpired entries, in the order of `Cache::iter`. Each call that may change the cache ends it, unless it is refused memory:
    /// all but `peek` and the looks at counts.
    pub fn begin_walk(&mut self)
        ensures { self.new ≡ record self.old { walk = AtStart } }
    {
        self.walk = Walk::AtStart;
    }

    /// Goes on to the next entry of the walk. It copies key and value to the beginnings of the buffers, if both fit, and answers their lengths. Else the walk
    /// stays where it is, so that the step can be made again.
    pub fn step(
        &mut self,
        now: Instant,
        keys: &mut [u8],
        values: &mut [u8],
    ) -> Result<Step, OutOfMemory>
        ensures told { IfOk result (λ step. step ≡ step_of self.old.walk (next_pair self.old.walk self.old.cache self.old.walk_key now)) }
        ensures key { OnOk result (keys.new ≡ copied_to keys.old (option_map (λ p. p.0)
            (fitting (next_pair self.old.walk self.old.cache self.old.walk_key now) keys.old values.old))) }
        ensures value { OnOk result (values.new ≡ copied_to values.old (option_map (λ p. p.1)
            (fitting (next_pair self.old.walk self.old.cache self.old.walk_key now) keys.old values.old))) }
        ensures walk { OnOk result (self.new.walk ≡ walk_after self.old.walk
            (fitting (next_pair self.old.walk self.old.cache self.old.walk_key now) keys.old values.old)) }
        ensures walk_key { OnOk result (self.new.walk_key ≡ met_after self.old.walk_key
            (fitting (next_pair self.old.walk self.old.cache self.old.walk_key now) keys.old values.old)) }
        ensures refused { OnErr result ((self.new ≡ self.old) × (keys.new ≡ keys.old) × (values.new ≡ values.old)) }
        ensures long { OnErr result (IsLong (next_pair self.old.walk self.old.cache self.old.walk_key now)) }
        ensures cache { self.new.cache ≡ self.old.cache }
        ensures leaving { self.new.leaving ≡ self.old.leaving }
    {
        let ByteCache {
            cache,
            walk,
            walk_key,
            ..
        } = self;
        let Some((key, value)) = next_of(cache, *walk, walk_key, now) else {
            return Ok(end_of(*walk));
        };
        let (key, value) = (key.as_slice(), value.as_slice());
        let step = Step::Pair {
            key: key.len(),
            value: value.len(),
        };
        if key.len() <= keys.len() && value.len() <= values.len() {
            walk_key.set(key)?;
            *walk = Walk::Behind;
            keys[..key.len()].copy_from_slice(key);
            values[..value.len()].copy_from_slice(value);
        }
        Ok(step)
    }
}

/// Returns the next entry of a walk.
fn next_of<'a>(
    cache: &'a Cache<Key, Value, Seed, ByteWeight>,
    walk: Walk,
    walk_key: &Key,
    now: Instant,
) -> Option<(&'a Key, &'a Value)>
    ensures { option_map deref_pair result ≡ next_pair walk cache.now walk_key.now now }
{
    match walk {
        Walk::Ended => None,
        Walk::AtStart => cache.iter(now).next(),
        Walk::Behind => cache.next_after(walk_key, now),
    }
}

/// Returns the answer of a step without a next entry.
fn end_of(walk: Walk) -> Step
    ensures { result ≡ step_of walk None }
{
    match walk {
        Walk::Ended => Step::Ended,
        _ => Step::Done,
    }
}

/// Copies of a key and a value.
fn copies(alloc: Global, key: &[u8], value: &[u8]) -> Result<(Key, Value), InsertError>
    ensures ok { IfOk result (λ pair. (pair.0 ≡ key.now) × (pair.1 ≡ value.now)) }
    ensures error { IfErr result (λ error. error ≡ InsertError.OutOfMemory) }
{
    match (Key::copy_of(alloc, key), Value::copy_of(alloc, value)) {
        (Ok(key), Ok(value)) => Ok((key, value)),
        _ => Err(InsertError::OutOfMemory),
    }
}

/// Copies what was found to the beginning of the buffer, if it fits, and returns its length.
fn copied(found: Option<&Value>, buffer: &mut [u8]) -> Option<usize>
    ensures value { result ≡ option_map length (option_copied found.entry) }
    ensures copied { buffer.new ≡ copied_to buffer.old (option_copied found.entry) }
{
    let value = found?.bytes.as_slice();
    let length = value.len();
    if length <= buffer.len() {
        buffer[..length].copy_from_slice(value);
    }
    Some(length)
}
