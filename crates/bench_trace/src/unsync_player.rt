// The single-thread cache as one that traces are played on.
ghost use Rattle.std.specs.Prelude.{◌≤◌, length, IfOk};

use crate::Settings;
use crate::constants::UNLIMITED;
use crate::operation::Operation;
use crate::player::{Outcome, PlayError, Plays, Traced, play};
use crate::weigher::WeighsItsValue;
use moka_common::time::Instant;
use moka_common::weigh::Weigh;
use moka_unsync::builder::CacheBuilder;
use moka_unsync::cache::Cache;
use std::alloc::Global;
use std::hash::BuildHasher;
use std::time::Duration;

impl<S: BuildHasher + Drop, W: Weigh<u64, u64>> Traced for Cache<u64, u64, S, W> {
    ghost ready = { λ cache. W.ready cache.weigher };

    fn look(&mut self, key: u64, now: Instant) -> Result<Option<u64>, PlayError> {
        Ok(self.get(&key, now).copied())
    }

    fn put(&mut self, key: u64, value: u64, now: Instant) -> Result<(), PlayError> {
        self.insert(key, value, now)?;
        Ok(())
    }

    fn take(&mut self, key: u64, now: Instant) -> Result<(), PlayError> {
        self.remove(&key, now);
        Ok(())
    }

    fn finish(&mut self, _now: Instant) -> Result<(u64, u64), PlayError> {
        Ok((self.entry_count(), self.weighted_size()))
    }
}

/// Plays on single-thread caches.
pub(crate) struct OnUnsync;

impl Plays for OnUnsync {
    fn play_hashed<S: BuildHasher + Drop>(
        alloc: Global,
        settings: &Settings,
        operations: &[Operation],
        hash_state: S,
    ) -> Result<Outcome, PlayError> {
        let builder = builder_of(alloc, settings);
        if settings.is_weighed {
            let weighed = builder.weigher(WeighsItsValue);
            let mut cache = weighed.build_with_hasher(hash_state)?;
            return play(&mut cache, settings, operations);
        }
        let mut cache = builder.build_with_hasher(hash_state)?;
        play(&mut cache, settings, operations)
    }
}

/// A builder with all that is set but the weigher.
fn builder_of(alloc: Global, settings: &Settings) -> CacheBuilder<u64, u64> {
    let builder = Cache::builder(alloc);
    let builder = if settings.is_adaptive {
        builder.adaptive()
    } else {
        builder
    };
    let mut builder = builder
        .window_share(settings.window_share)
        .protected_share(settings.protected_share);
    if settings.capacity != UNLIMITED {
        builder = builder.max_capacity(settings.capacity);
    }
    if settings.time_to_live != UNLIMITED {
        builder = builder.time_to_live(Duration::from_nanos(settings.time_to_live));
    }
    if settings.time_to_idle != UNLIMITED {
        builder = builder.time_to_idle(Duration::from_nanos(settings.time_to_idle));
    }
    builder
}
