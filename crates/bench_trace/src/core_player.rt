// The core of the shared cache as a cache that traces are played on, by whole calls of one caller.
ghost use Rattle.std.specs.Prelude.{◌≡◌, ◌≤◌, length, IfOk};
ghost use Rattle.moka_sync_model.specs.CoreCall.{IsAtRest};

use crate::Settings;
use crate::constants::UNLIMITED;
use crate::operation::Operation;
use crate::player::{Outcome, PlayError, Plays, Traced, play};
use crate::weigher::WeighsItsValue;
use moka_common::policy::Policy;
use moka_common::shared::Shared;
use moka_common::time::Instant;
use moka_common::weigh::UnitWeight;
use moka_core::engine::Core;
use moka_sync_model::call::Call;
use moka_sync_model::event::Reply;
use moka_sync_model::settings::CoreParts;
use moka_sync_model::weigh::WeighShared;
use std::alloc::Global;
use std::hash::BuildHasher;
use std::time::Duration;

/// A core, with the allocator of its keys and values.
#[derive(Drop)]
struct OnHeap<C: Drop> {
    core: C,
    alloc: Global,
}

impl<S: BuildHasher + Drop, W: WeighShared<u64, u64>> Traced for OnHeap<Core<u64, u64, S, W>> {
    ghost ready = { λ it. W.ready it.core.weigher × IsAtRest it.core.state };

    fn look(&mut self, key: u64, now: Instant) -> Result<Option<u64>, PlayError> {
        match self.core.get(&key, now) {
            Reply::Found(Some(value)) => Ok(Some(*value.get())),
            Reply::Found(None) => Ok(None),
            _ => Err(PlayError::OutOfMemory),
        }
    }

    /// Moves key and value into memory of their own. Ticket numbers last longer than any trace, so it is memory that an insert is refused.
    fn put(&mut self, key: u64, value: u64, now: Instant) -> Result<(), PlayError> {
        let key = Shared::new(self.alloc, key)?;
        let value = Shared::new(self.alloc, value)?;
        match self.core.call(Call::Insert { key, value, now }) {
            Reply::Done => Ok(()),
            _ => Err(PlayError::OutOfMemory),
        }
    }

    fn take(&mut self, key: u64, now: Instant) -> Result<(), PlayError> {
        let key = Shared::new(self.alloc, key)?;
        self.core.call(Call::Remove { key, now });
        Ok(())
    }

    /// Runs a whole maintenance.
    fn finish(&mut self, now: Instant) -> Result<(u64, u64), PlayError> {
        self.core.call(Call::Sync { now });
        let Reply::Counts { count, weight } = self.core.call(Call::Counts) else {
            return Err(PlayError::OutOfMemory);
        };
        Ok((
            u64::try_from(count).unwrap_or(u64::MAX),
            u64::try_from(weight).unwrap_or(u64::MAX),
        ))
    }
}

/// Plays on cores.
pub(crate) struct OnCore;

impl Plays for OnCore {
    fn play_hashed<S: BuildHasher + Drop>(
        alloc: Global,
        settings: &Settings,
        operations: &[Operation],
        hash_state: S,
    ) -> Result<Outcome, PlayError> {
        if settings.is_weighed {
            let core = Core::from_parts(alloc, parts_of(settings, hash_state, WeighsItsValue))?;
            let mut traced = OnHeap { core, alloc };
            return play(&mut traced, settings, operations);
        }
        let core = Core::from_parts(alloc, parts_of(settings, hash_state, UnitWeight))?;
        let mut traced = OnHeap { core, alloc };
        play(&mut traced, settings, operations)
    }
}

/// Returns the parts of a new core. It grows from nothing, as its original does.
fn parts_of<S: Drop, W: Drop>(settings: &Settings, hash_state: S, weigher: W) -> CoreParts<S, W>
    ensures { result.weigher ≡ weigher }
{
    let policy = Policy::new(
        limit(settings.capacity),
        limit(settings.time_to_live).map(Duration::from_nanos),
        limit(settings.time_to_idle).map(Duration::from_nanos),
    );
    CoreParts {
        hash_state,
        policy,
        is_weighed: settings.is_weighed,
        weigher,
        capacity: 0,
    }
}

/// A capacity or a duration, if it is set.
fn limit(number: u64) -> Option<u64> {
    if number == UNLIMITED {
        return None;
    }
    Some(number)
}
