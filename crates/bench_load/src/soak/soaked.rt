//! The caches of soaks, and how a soak calls them.
ghost use Rattle.std.specs.Prelude.{◌≡◌, Some, IfOk, IfSome};
ghost use Rattle.bench_load.specs.declared.soak.constants.TheConstants.{LIMIT};

use crate::soak::constants::{KEYS, LIMIT, SEGMENTS, TIME_TO_IDLE, TIME_TO_LIVE};
use crate::soak::errors::SoakError;
use crate::soak::size::Size;
use crate::soak::stamp::{ByNumber, NamesItsKey, Stamp};
use moka_common::error::{BuildError, InsertError, OutOfMemory};
use moka_common::hash::FixedState;
use moka_common::policy::Policy;
use moka_common::time::Instant;
use moka_segments::cache::SegmentedCache;
use moka_sync::builder::CacheBuilder;
use moka_sync::cache::{Cache, ConcurrentCacheExt};
use std::alloc::{AllocError, Global};
use std::sync::Wait;
use std::time::Duration;

/// A cache of stamps by their keys, with a limit on what they weigh and with both durations. The pair rule promises that a stamp names its key.
pub trait Soaked: Sized + Drop {
    /// Returns the same cache once more, for another thread.
    fn another(&self) -> Result<Self, AllocError>;

    /// Returns the stamp of a key.
    fn get<R: Wait>(&self, rt: &R, key: u64, now: Instant) -> Result<Option<Stamp>, OutOfMemory>
        ensures { IfOk result (λ found. IfSome found (λ stamp. stamp.key ≡ key)) };

    /// Returns the stamp of a key, by another call that reads it.
    fn read<R: Wait>(&self, rt: &R, key: u64, now: Instant) -> Result<Option<Stamp>, OutOfMemory>
        ensures { IfOk result (λ found. IfSome found (λ stamp. stamp.key ≡ key)) };

    /// Tells if a key is there.
    fn contains_key<R: Wait>(&self, rt: &R, key: u64, now: Instant) -> bool;

    /// Inserts a stamp at its key.
    fn insert<R: Wait>(&self, rt: &R, stamp: Stamp, now: Instant) -> Result<(), InsertError>;

    /// Removes a key.
    fn invalidate<R: Wait>(&self, rt: &R, key: u64, now: Instant);

    /// Takes the stamp of a key out.
    fn remove<R: Wait>(&self, rt: &R, key: u64, now: Instant) -> Result<Option<Stamp>, OutOfMemory>
        ensures { IfOk result (λ removed. IfSome removed (λ stamp. stamp.key ≡ key)) };

    /// Removes all keys.
    fn invalidate_all<R: Wait>(&self, rt: &R, now: Instant);

    /// Returns the pairs of a snapshot.
    fn pairs<R: Wait>(
        &self,
        rt: &R,
        alloc: Global,
        now: Instant,
    ) -> Result<Vec<(u64, Stamp)>, OutOfMemory>;

    /// Removes what is expired or too much.
    fn settle<R: Wait>(&self, rt: &R, now: Instant);

    /// Returns what the cache counts.
    fn counted<R: Wait>(&self, rt: &R) -> Size;

    /// Returns the policy.
    fn policy(&self) -> Policy;
}

/// The cache that threads share.
pub type SoakedCache = Cache<u64, Stamp, FixedState, NamesItsKey, ByNumber, Global>;

/// The cache of segments.
pub type SoakedSegments = SegmentedCache<u64, Stamp, FixedState, ByNumber, NamesItsKey>;

/// Builds a cache that threads share, with nothing in it.
pub fn new_cache(alloc: Global) -> Result<SoakedCache, BuildError>
    ensures limit { IfOk result (λ cache. cache.settings.policy.max_capacity ≡ Some LIMIT) }
{
    CacheBuilder::new(alloc, LIMIT)
        .time_to_live(Duration::from_millis(TIME_TO_LIVE))
        .time_to_idle(Duration::from_millis(TIME_TO_IDLE))
        .weigher(ByNumber)
        .pair_rule::<NamesItsKey>()
        .build()
}

/// Builds a cache of segments, with nothing in it.
pub fn new_segments(alloc: Global) -> Result<SoakedSegments, SoakError>
    ensures limit { IfOk result (λ cache. cache.plan.policy.max_capacity ≡ Some LIMIT) }
{
    let cache = SegmentedCache::<u64, Stamp>::builder(alloc)
        .max_capacity(LIMIT)
        .num_segments(SEGMENTS)
        .time_to_live(Duration::from_millis(TIME_TO_LIVE))
        .time_to_idle(Duration::from_millis(TIME_TO_IDLE))
        .weigher(ByNumber)
        .rule::<NamesItsKey>()
        .build()?;
    Ok(cache)
}

/// Tells if a policy is the one that the caches are built with.
pub fn is_as_set(policy: &Policy) -> bool {
    policy.max_capacity() == Some(LIMIT)
        && policy.time_to_live() == Some(Duration::from_millis(TIME_TO_LIVE))
        && policy.time_to_idle() == Some(Duration::from_millis(TIME_TO_IDLE))
}

/// Returns what a snapshot of the cache has.
pub fn left<C: Soaked, R: Wait>(
    rt: &R,
    alloc: Global,
    cache: &C,
    now: Instant,
) -> Result<Size, OutOfMemory> {
    let mut size = Size::NOTHING;
    for (_, stamp) in cache.pairs(rt, alloc, now)? {
        size = size.with(stamp.weight());
    }
    Ok(size)
}

impl Soaked for SoakedCache {
    fn another(&self) -> Result<SoakedCache, AllocError> {
        self.clone()
    }

    fn get<R: Wait>(&self, rt: &R, key: u64, now: Instant) -> Result<Option<Stamp>, OutOfMemory> {
        Cache::get(self, rt, &key, now)
    }

    fn read<R: Wait>(&self, rt: &R, key: u64, now: Instant) -> Result<Option<Stamp>, OutOfMemory> {
        self.get_if_present(rt, &key, now)
    }

    fn contains_key<R: Wait>(&self, rt: &R, key: u64, now: Instant) -> bool {
        Cache::contains_key(self, rt, &key, now)
    }

    fn insert<R: Wait>(&self, rt: &R, stamp: Stamp, now: Instant) -> Result<(), InsertError> {
        Cache::insert(self, rt, stamp.key, stamp, now)
    }

    fn invalidate<R: Wait>(&self, rt: &R, key: u64, now: Instant) {
        Cache::invalidate(self, rt, &key, now);
    }

    fn remove<R: Wait>(
        &self,
        rt: &R,
        key: u64,
        now: Instant,
    ) -> Result<Option<Stamp>, OutOfMemory> {
        Cache::remove(self, rt, &key, now)
    }

    fn invalidate_all<R: Wait>(&self, _rt: &R, now: Instant) {
        Cache::invalidate_all(self, now);
    }

    fn pairs<R: Wait>(
        &self,
        rt: &R,
        alloc: Global,
        now: Instant,
    ) -> Result<Vec<(u64, Stamp)>, OutOfMemory> {
        let mut pairs = Vec::new(alloc);
        for pair in self.iter(rt, now)? {
            pairs.push((*pair.key(), *pair.value()))?;
        }
        Ok(pairs)
    }

    fn settle<R: Wait>(&self, rt: &R, now: Instant) {
        self.sync(rt, now);
    }

    /// The two numbers are of one maintenance if no thread runs another.
    fn counted<R: Wait>(&self, _rt: &R) -> Size {
        Size {
            entries: self.entry_count(),
            weight: self.weighted_size(),
        }
    }

    fn policy(&self) -> Policy {
        Cache::policy(self)
    }
}

impl Soaked for SoakedSegments {
    fn another(&self) -> Result<SoakedSegments, AllocError> {
        self.clone()
    }

    fn get<R: Wait>(&self, rt: &R, key: u64, now: Instant) -> Result<Option<Stamp>, OutOfMemory> {
        SegmentedCache::get(self, rt, &key, now)
    }

    fn read<R: Wait>(&self, rt: &R, key: u64, now: Instant) -> Result<Option<Stamp>, OutOfMemory> {
        self.peek(rt, &key, now)
    }

    fn contains_key<R: Wait>(&self, rt: &R, key: u64, now: Instant) -> bool {
        SegmentedCache::contains_key(self, rt, &key, now)
    }

    fn insert<R: Wait>(&self, rt: &R, stamp: Stamp, now: Instant) -> Result<(), InsertError> {
        SegmentedCache::insert(self, rt, stamp.key, stamp, now)
    }

    fn invalidate<R: Wait>(&self, rt: &R, key: u64, now: Instant) {
        SegmentedCache::invalidate(self, rt, &key, now);
    }

    fn remove<R: Wait>(
        &self,
        rt: &R,
        key: u64,
        now: Instant,
    ) -> Result<Option<Stamp>, OutOfMemory> {
        Ok(SegmentedCache::remove(self, rt, &key, now))
    }

    fn invalidate_all<R: Wait>(&self, rt: &R, _now: Instant) {
        SegmentedCache::invalidate_all(self, rt);
    }

    fn pairs<R: Wait>(
        &self,
        rt: &R,
        alloc: Global,
        now: Instant,
    ) -> Result<Vec<(u64, Stamp)>, OutOfMemory> {
        SegmentedCache::iter(self, rt, alloc, now)
    }

    /// A call of a key first removes what is expired or too much in its segment, and each segment has a key of the soak.
    fn settle<R: Wait>(&self, rt: &R, now: Instant) {
        for key in 0..KEYS {
            let _ = SegmentedCache::contains_key(self, rt, &key, now);
        }
    }

    fn counted<R: Wait>(&self, rt: &R) -> Size {
        Size {
            entries: self.entry_count(rt),
            weight: self.weighted_size(rt),
        }
    }

    fn policy(&self) -> Policy {
        SegmentedCache::policy(self)
    }
}
