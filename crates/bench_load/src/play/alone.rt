// The caches that one thread plays on alone, without a lock.
use crate::play::error::PlayError;
use crate::play::hasher::MultiplyState;
use crate::play::settings::Settings;
use crate::play::side::{Called, unsync_cache};
use moka_common::policy::Policy;
use moka_common::shared::Shared;
use moka_common::time::Instant;
use moka_common::weigh::UnitWeight;
use moka_core::engine::Core;
use moka_sync_model::call::Call;
use moka_sync_model::event::Reply;
use moka_sync_model::settings::CoreParts;
use moka_unsync::cache::Cache as UnsyncCache;
use std::alloc::Global;
use std::marker::Model;
use std::sync::Wait;

/// The cache for one thread.
#[derive(Drop)]
pub(crate) struct Alone {
    cache: UnsyncCache<u64, u64, MultiplyState>,
}

impl Alone {
    pub(crate) fn new(alloc: Global, settings: Settings) -> Result<Alone, PlayError> {
        Ok(Alone {
            cache: unsync_cache(alloc, settings)?,
        })
    }
}

impl Called for Alone {
    fn look<R: Wait>(&mut self, _rt: &R, key: u64, now: Instant) -> Result<Option<u64>, PlayError> {
        Ok(self.cache.get(&key, now).copied())
    }

    fn put<R: Wait>(&mut self, _rt: &R, key: u64, now: Instant) -> Result<(), PlayError> {
        self.cache.insert(key, key, now)?;
        Ok(())
    }

    fn count<R: Wait>(&mut self, _rt: &R) -> u64 {
        self.cache.entry_count()
    }

    fn entries<R: Wait>(&mut self, _rt: &R, _now: Instant) -> u64 {
        self.cache.entry_count()
    }
}

/// The core of `sync::Cache`, by whole calls of one caller.
#[derive(Drop)]
pub(crate) struct Cored {
    core: Core<u64, u64, MultiplyState>,
    alloc: Global,
}

impl Model for Cored {
    ghost use Rattle.std.specs.Prelude.{ℕ};
    ghost use Rattle.moka_sync_model.specs.CoreCall.{IsAtRest};

    ghost Value = { ℕ };

    ghost view = { λ _. 0 };

    ghost invariant = { λ it. IsAtRest it.core.state };
}

impl Cored {
    /// Makes a core that grows from nothing, as its original does.
    pub(crate) fn new(alloc: Global, settings: Settings) -> Result<Cored, PlayError> {
        let parts = CoreParts {
            hash_state: MultiplyState,
            policy: Policy::new(settings.capacity, settings.durations, settings.durations),
            is_weighed: false,
            weigher: UnitWeight,
            capacity: 0,
        };
        Ok(Cored {
            core: Core::from_parts(alloc, parts)?,
            alloc,
        })
    }
}

impl Called for Cored {
    fn look<R: Wait>(&mut self, _rt: &R, key: u64, now: Instant) -> Result<Option<u64>, PlayError> {
        match self.core.get(&key, now) {
            Reply::Found(Some(value)) => Ok(Some(*value.get())),
            Reply::Found(None) => Ok(None),
            _ => Err(PlayError::OutOfMemory),
        }
    }

    /// Moves key and value into memory of their own. Ticket numbers last longer than any play, so it is memory that an insert is refused.
    fn put<R: Wait>(&mut self, _rt: &R, key: u64, now: Instant) -> Result<(), PlayError> {
        let value = Shared::new(self.alloc, key)?;
        let key = Shared::new(self.alloc, key)?;
        match self.core.call(Call::Insert { key, value, now }) {
            Reply::Done => Ok(()),
            _ => Err(PlayError::OutOfMemory),
        }
    }

    fn count<R: Wait>(&mut self, _rt: &R) -> u64 {
        match self.core.call(Call::Counts) {
            Reply::Counts { count, weight: _ } => u64::try_from(count).unwrap_or(u64::MAX),
            _ => 0,
        }
    }

    /// Runs a whole maintenance first.
    fn entries<R: Wait>(&mut self, rt: &R, now: Instant) -> u64 {
        self.core.call(Call::Sync { now });
        self.count(rt)
    }
}
