// The parts of a new cache.
ghost use Rattle.std.specs.Prelude.{◌≡◌, [], IfOk};
ghost use Rattle.moka_locks.specs.Charged.{counts_of};
ghost use Rattle.moka_sync_model.specs.CoreState.{new_maintenance};

use crate::idle::Working;
use moka_common::error::OutOfMemory;
use moka_guards::counts::{Counts, Publisher};
use moka_guards::logs::Logs;
use moka_maintenance::maintenance::Maintenance;
use moka_queues::taken::TakenWrites;
use std::alloc::Allocator;

/// Returns the counts of a publisher, if there is one.
pub(super) fn counts_of<A: Allocator + Drop>(
    publisher: &Option<Publisher<A>>,
) -> Result<Option<Counts<A>>, OutOfMemory>
    ensures { IfOk result (λ counts. counts ≡ counts_of publisher.now) }
{
    match publisher {
        Some(publisher) => Ok(Some(publisher.counts()?)),
        None => Ok(None),
    }
}

/// Makes empty logs, and a maintenance that has done nothing and taken no write.
pub(super) fn logs_and_maintenance<A: Allocator + Clone + Drop>(
    alloc: &A,
) -> Result<(Logs<A>, Box<Working<A>, A>), OutOfMemory>
    ensures maintenance { IfOk result (λ made. made.1.value.maintenance ≡ new_maintenance) }
    ensures taken { IfOk result (λ made. made.1.value.taken ≡ []) }
{
    let working = Working {
        maintenance: Maintenance::new(alloc.clone()?)?,
        taken: TakenWrites::new(),
    };
    let working = Box::new(alloc.clone()?, working)?;
    Ok((Logs::new(alloc)?, working))
}
