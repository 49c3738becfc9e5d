// The caches that are played on, as threads share them.
use crate::play::error::PlayError;
use crate::play::hasher::MultiplyState;
use crate::play::settings::Settings;
use moka_common::time::Instant;
use moka_common::weigh::UnitWeight;
use moka_guards::counts::CountPass;
use moka_segments::cache::SegmentedCache;
use moka_segments::rule::Unruled;
use moka_segments::session::Session;
use moka_sync::builder::CacheBuilder as SyncBuilder;
use moka_sync::cache::{Cache as SyncCache, ConcurrentCacheExt};
use moka_unsync::builder::CacheBuilder as UnsyncBuilder;
use moka_unsync::cache::Cache as UnsyncCache;
use std::alloc::{AllocError, Global};
use std::marker::Model;
use std::sync::{Arc, Mutex, Wait};

/// A cache that calls are played on.
pub(crate) trait Called: Sized + Drop {
    /// Returns a copy of the value of a key.
    fn look<R: Wait>(&mut self, rt: &R, key: u64, now: Instant) -> Result<Option<u64>, PlayError>;

    /// Inserts a key with itself for its value.
    fn put<R: Wait>(&mut self, rt: &R, key: u64, now: Instant) -> Result<(), PlayError>;

    /// Returns the entry count of the last maintenance.
    fn count<R: Wait>(&mut self, rt: &R) -> u64;

    /// Returns the number of entries after all delayed work is done.
    fn entries<R: Wait>(&mut self, rt: &R, now: Instant) -> u64;
}

/// A cache as threads share it.
pub(crate) trait Side: Called {
    /// Returns the same cache, for another thread.
    fn another(&mut self) -> Result<Self, AllocError>;
}

/// Returns the builder of a cache for threads with these limits.
fn sync_builder(alloc: Global, settings: Settings) -> SyncBuilder<u64, u64> {
    let mut builder = SyncBuilder::default(alloc);
    if let Some(capacity) = settings.capacity {
        builder = builder.max_capacity(capacity);
    }
    if let Some(duration) = settings.durations {
        builder = builder.time_to_live(duration).time_to_idle(duration);
    }
    builder
}

/// Builds a cache for one thread with these limits.
pub(crate) fn unsync_cache(
    alloc: Global,
    settings: Settings,
) -> Result<UnsyncCache<u64, u64, MultiplyState>, PlayError> {
    let mut builder = UnsyncBuilder::default(alloc);
    if let Some(capacity) = settings.capacity {
        builder = builder.max_capacity(capacity);
    }
    if let Some(duration) = settings.durations {
        builder = builder.time_to_live(duration).time_to_idle(duration);
    }
    Ok(builder.build_with_hasher(MultiplyState)?)
}

/// The cache that is made for threads.
#[derive(Drop)]
pub(crate) struct Shared {
    cache: SyncCache<u64, u64, MultiplyState>,
}

impl Shared {
    pub(crate) fn new(alloc: Global, settings: Settings) -> Result<Shared, PlayError> {
        let cache = sync_builder(alloc, settings).build_with_hasher(MultiplyState)?;
        Ok(Shared { cache })
    }
}

impl Called for Shared {
    fn look<R: Wait>(&mut self, rt: &R, key: u64, now: Instant) -> Result<Option<u64>, PlayError> {
        Ok(self.cache.get(rt, &key, now)?)
    }

    fn put<R: Wait>(&mut self, rt: &R, key: u64, now: Instant) -> Result<(), PlayError> {
        self.cache.insert(rt, key, key, now)?;
        Ok(())
    }

    fn count<R: Wait>(&mut self, _rt: &R) -> u64 {
        self.cache.entry_count()
    }

    fn entries<R: Wait>(&mut self, rt: &R, now: Instant) -> u64 {
        self.cache.sync(rt, now);
        self.cache.entry_count()
    }
}

impl Side for Shared {
    fn another(&mut self) -> Result<Shared, AllocError> {
        Ok(Shared {
            cache: self.cache.clone()?,
        })
    }
}

/// `sync::Cache` with its counts published.
#[derive(Drop)]
pub(crate) struct Counted {
    cache: SyncCache<u64, u64, MultiplyState>,
    pass: CountPass,
}

impl Model for Counted {
    ghost use Rattle.std.specs.Prelude.{◌≡◌, Some};
    ghost use Rattle.moka_guards.specs.Counts.{CountPass as PassValue};

    ghost Value = { PassValue };

    ghost view = { λ c. c.pass };

    ghost invariant = { λ c. c.cache.counted ≡ Some c.pass.counts };
}

impl Counted {
    pub(crate) fn new(alloc: Global, settings: Settings) -> Result<Counted, PlayError> {
        let (cache, pass) = sync_builder(alloc, settings).build_counted(MultiplyState)?;
        Ok(Counted { cache, pass })
    }
}

impl Called for Counted {
    fn look<R: Wait>(&mut self, rt: &R, key: u64, now: Instant) -> Result<Option<u64>, PlayError> {
        Ok(self.cache.get(rt, &key, now)?)
    }

    fn put<R: Wait>(&mut self, rt: &R, key: u64, now: Instant) -> Result<(), PlayError> {
        self.cache.insert(rt, key, key, now)?;
        Ok(())
    }

    fn count<R: Wait>(&mut self, rt: &R) -> u64 {
        self.cache.published(rt, &mut self.pass).count
    }

    fn entries<R: Wait>(&mut self, rt: &R, now: Instant) -> u64 {
        self.cache.sync(rt, now);
        self.cache.entry_count()
    }
}

impl Side for Counted {
    fn another(&mut self) -> Result<Counted, AllocError> {
        let cache = self.cache.clone()?;
        let pass = self.cache.split_pass(&mut self.pass);
        Ok(Counted { cache, pass })
    }
}

/// The cache for one thread, with one lock round it.
#[derive(Drop)]
pub(crate) struct Locked {
    cache: Arc<Mutex<UnsyncCache<u64, u64, MultiplyState>>>,
}

impl Locked {
    pub(crate) fn new(alloc: Global, settings: Settings) -> Result<Locked, PlayError> {
        let cache = unsync_cache(alloc, settings)?;
        Ok(Locked {
            cache: Arc::new(alloc, Mutex::new(cache))?,
        })
    }
}

impl Called for Locked {
    fn look<R: Wait>(&mut self, rt: &R, key: u64, now: Instant) -> Result<Option<u64>, PlayError> {
        let mut cache = self.cache.lock(rt);
        let found = cache.get(&key, now).copied();
        Ok(found)
    }

    fn put<R: Wait>(&mut self, rt: &R, key: u64, now: Instant) -> Result<(), PlayError> {
        let mut cache = self.cache.lock(rt);
        cache.insert(key, key, now)?;
        Ok(())
    }

    fn count<R: Wait>(&mut self, rt: &R) -> u64 {
        let cache = self.cache.lock(rt);
        cache.entry_count()
    }

    fn entries<R: Wait>(&mut self, rt: &R, _now: Instant) -> u64 {
        self.count(rt)
    }
}

impl Side for Locked {
    fn another(&mut self) -> Result<Locked, AllocError> {
        Ok(Locked {
            cache: self.cache.clone()?,
        })
    }
}

/// The cache of segments, which each thread calls by a session of its own.
#[derive(Drop)]
pub(crate) struct Segmented {
    cache: SegmentedCache<u64, u64, MultiplyState>,
    session: Session<u64, u64, MultiplyState, UnitWeight, Unruled>,
}

impl Segmented {
    pub(crate) fn new(alloc: Global, settings: Settings) -> Result<Segmented, PlayError> {
        let mut builder = SegmentedCache::<u64, u64>::builder(alloc);
        if let Some(capacity) = settings.capacity {
            builder = builder.max_capacity(capacity);
        }
        if let Some(duration) = settings.durations {
            builder = builder.time_to_live(duration).time_to_idle(duration);
        }
        let cache = builder.build_with_hasher(MultiplyState)?;
        let session = cache.session()?;
        Ok(Segmented { cache, session })
    }
}

impl Called for Segmented {
    fn look<R: Wait>(&mut self, rt: &R, key: u64, now: Instant) -> Result<Option<u64>, PlayError> {
        Ok(self.session.get(rt, &key, now)?)
    }

    fn put<R: Wait>(&mut self, rt: &R, key: u64, now: Instant) -> Result<(), PlayError> {
        self.session.insert(rt, key, key, now)?;
        Ok(())
    }

    fn count<R: Wait>(&mut self, rt: &R) -> u64 {
        self.session.entry_count(rt)
    }

    fn entries<R: Wait>(&mut self, rt: &R, _now: Instant) -> u64 {
        self.count(rt)
    }
}

impl Side for Segmented {
    fn another(&mut self) -> Result<Segmented, AllocError> {
        let cache = self.cache.clone()?;
        let Ok(session) = cache.session() else {
            return Err(AllocError);
        };
        Ok(Segmented { cache, session })
    }
}
