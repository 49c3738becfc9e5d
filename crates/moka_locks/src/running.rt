// A maintenance that is under way, with its lock.
ghost use Rattle.std.specs.Prelude.{◌≡◌};
ghost use Rattle.moka_common.specs.Settings.{keeps_writes};
ghost use Rattle.moka_sync_model.specs.Phase.{Idle, name_of};
ghost use Rattle.moka_locks.specs.MaintenanceTurn.{AreTurns};
ghost use Rattle.moka_locks.specs.SameTickets.{AtWork, IsOrdered, just_begun};

use crate::idle::{IdleMaintenance, Working};
use crate::inner::Inner;
use moka_common::time::Instant;
use moka_guards::counts::Publisher;
use moka_guards::waiting::lock;
use moka_shard::rule::PairRule;
use moka_sync_model::phase::Phase;
use moka_sync_model::published::Published;
use std::alloc::Allocator;
use std::hash::{BuildHasher, Hash};
use std::marker::Model;
use std::sync::{Mutex, MutexGuard, Wait};

/// A maintenance that is under way, with its lock.
///
/// The writes that it has taken from their log are no more than its round is still to apply.
#[derive(Drop)]
pub(crate) struct RunningMaintenance<'a, A: Allocator + Clone + Drop> {
    guard: MutexGuard<'a, Option<IdleMaintenance<A>>>,
    working: Box<Working<A>, A>,
    publisher: Option<Publisher<A>>,
    keeps_writes: bool,
}

impl<'a, A: Allocator + Clone + Drop> Model for RunningMaintenance<'a, A> {
    ghost use Rattle.std.specs.Prelude.{◌≤◌, IfSome, length};
    ghost use Rattle.moka_locks.specs.Charged.{IsAccounted};
    ghost use Rattle.moka_locks.specs.SameTickets.{AtWork, HasBothOrders};
    ghost use Rattle.moka_maintenance.specs.Taken.{writes_left};

    ghost Value = { AtWork };

    ghost view = { λ r. record {
      keeps_writes = r.keeps_writes;
      working = record { maintenance = r.working.value.maintenance; taken = r.working.value.taken };
    } };

    ghost invariant = { λ r. (length r.working.value.taken ≤ writes_left r.working.value.maintenance.phase)
        × HasBothOrders r.keeps_writes r.working.value.maintenance.orders
        × IfSome r.publisher (λ p. IsAccounted r.working.value.maintenance p.published) };
}

impl<'a, A: Allocator + Clone + Drop> RunningMaintenance<'a, A> {
    /// Takes the lock, and begins a maintenance. `keeps_writes` says if the cache has a time to live.
    pub(crate) fn begin<R: Wait>(
        rt: &R,
        lock_of: &'a Mutex<Option<IdleMaintenance<A>>>,
        keeps_writes: bool,
        now: Instant,
    ) -> RunningMaintenance<'a, A>
        ensures begun { (w : AtWork) × (w.keeps_writes ≡ keeps_writes) × (w.working.maintenance.phase ≡ Idle) × (result ≡ just_begun now w) }
        ensures ordered { IsOrdered result }
    {
        for _ in rt.forever() {
            let mut guard = lock(rt, lock_of);
            let Some(idle) = guard.take() else {
                continue;
            };
            if idle.keeps_writes != keeps_writes {
                // Not proved: read in the code. It never comes here: a cache's maintenance was made by its settings.
                *guard = Some(idle);
                continue;
            }
            return RunningMaintenance::of(guard, idle, now);
        }
        unreachable!()
    }

    /// Begins this maintenance, which was taken from its lock.
    fn of(
        guard: MutexGuard<'a, Option<IdleMaintenance<A>>>,
        idle: IdleMaintenance<A>,
        now: Instant,
    ) -> RunningMaintenance<'a, A>
        ensures begun { (w : AtWork) × (w.keeps_writes ≡ idle) × (w.working.maintenance.phase ≡ Idle) × (result ≡ just_begun now w) }
        ensures ordered { IsOrdered result }
    {
        let IdleMaintenance {
            mut working,
            publisher,
            keeps_writes,
        } = idle;
        working.maintenance.begin(now);
        RunningMaintenance {
            guard,
            working,
            publisher,
            keeps_writes,
        }
    }

    /// Returns the counts that it has published.
    pub(crate) fn published(&self) -> Published
        ensures { result ≡ self.now.working.maintenance.published }
    {
        self.working.maintenance.published()
    }

    /// Takes one turn, with the lock of what it needs, or several if operations leave their log together. Returns the phase after it.
    pub(crate) fn turn<
        R: Wait,
        K: Eq + Hash + Drop,
        V: Drop,
        S: BuildHasher + Drop,
        P: PairRule<K, V>,
        W: Drop,
    >(&mut self, rt: &R, inner: &Inner<K, V, S, P, W, A>) -> Phase
        requires { self.old.keeps_writes ≡ keeps_writes inner.now.settings.policy }
        ensures turns { AreTurns K V inner.now.settings self.old.working self.new.working }
        ensures phase { result ≡ name_of self.new.working.maintenance.phase }
        ensures keeps { self.new.keeps_writes ≡ self.old.keeps_writes }
        ensures ordered { IsOrdered self.new }
    {
        let working = &mut *self.working;
        inner.turn(rt, &mut working.maintenance, &mut working.taken);
        working.maintenance.phase()
    }

    /// Publishes the counts of the maintenance, which has ended, to the cell, if there is one, gives it back, and releases its lock.
    pub(crate) fn end<R: Wait>(self, rt: &R)
        requires { self.working.maintenance.phase ≡ Idle }
    {
        let RunningMaintenance {
            mut guard,
            working,
            mut publisher,
            keeps_writes,
        } = self;
        if let Some(publisher) = &mut publisher {
            publisher.publish(rt, working.maintenance.published());
        }
        *guard = Some(IdleMaintenance {
            working,
            publisher,
            keeps_writes,
        });
    }
}
