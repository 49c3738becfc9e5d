// What lies behind the lock of the maintenance whenever that is free.
use moka_guards::counts::Publisher;
use moka_maintenance::maintenance::Maintenance;
use moka_queues::taken::TakenWrites;
use std::alloc::{Allocator, Global};
use std::marker::Model;

/// A maintenance, and the writes that it has taken from their log and not applied.
#[derive(Drop)]
pub(crate) struct Working<A: Allocator + Clone + Drop = Global> {
    pub maintenance: Maintenance<A>,
    pub taken: TakenWrites,
}

/// A maintenance that is not under way, and the publisher of its counts, if there is one. It lies in memory of its own, so that it is short to hand on.
#[derive(Drop)]
pub(crate) struct IdleMaintenance<A: Allocator + Clone + Drop = Global> {
    pub working: Box<Working<A>, A>,
    pub publisher: Option<Publisher<A>>,
    /// True if a time to live is set, so that each entry has a place in the order of writing too.
    pub keeps_writes: bool,
}

impl<A: Allocator + Clone + Drop> Model for IdleMaintenance<A> {
    ghost use Rattle.std.specs.Prelude.{◌≡◌, [], IfSome, Bool};
    ghost use Rattle.moka_sync_model.specs.Phase.{Idle};
    ghost use Rattle.moka_locks.specs.Charged.{IsCharged, IsNewest};
    ghost use Rattle.moka_locks.specs.SameTickets.{HasBothOrders};

    ghost Value = { Bool };

    ghost view = { λ i. i.keeps_writes };

    ghost invariant = { λ i. (i.working.value.maintenance.phase ≡ Idle) × (i.working.value.taken ≡ [])
        × HasBothOrders i.keeps_writes i.working.value.maintenance.orders
        × IfSome i.publisher (λ p. IsNewest i.working.value.maintenance p.published × IsCharged i.working.value.maintenance p.published) };
}
