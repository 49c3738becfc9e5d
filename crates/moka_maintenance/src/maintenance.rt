//! The maintenance of the cache that threads share: it applies what callers have left in the logs, decides which entries enter and leave, and
//! publishes the counts. It goes on by turns, each of which needs at most one log or one entry besides it.
ghost use Rattle.std.specs.Prelude.{◌≡◌, ◌≤◌, ◌<◌, ◌↔◌, ℕ, Bool, IfOk, IfSome, IsTrue, Option, false, length, option_copied, option_map};
ghost use Rattle.moka_common.specs.Settings.{Settings as SettingsState};
ghost use Rattle.moka_sync_model.specs.CoreState.{new_maintenance};
ghost use Rattle.moka_sync_model.specs.Orders.{charged_weight};
ghost use Rattle.moka_sync_model.specs.Parts.{NeedsNothing, NeedsReads, NeedsShard, NeedsWrites, TurnsAlone};
ghost use Rattle.moka_sync_model.specs.Parts.{TurnsAtEntry, TurnsWithReads, TurnsWithWrites, need_of};
ghost use Rattle.moka_sync_model.specs.Phase.{Idle, ReadCount, name_of};
ghost use Rattle.moka_sync_model.specs.Turn.Turn.{turn_at};
ghost use Rattle.moka_sync_model.specs.Entry.{Entry as EntryState};
ghost use Rattle.moka_sync_model.specs.declared.operation.Write.TheVariants.{Remove, Upsert};
ghost use Rattle.moka_maintenance.specs.Need.{need_named};
ghost use Rattle.moka_queues.specs.LoggedReads.{reads_of};
ghost use Rattle.moka_maintenance.specs.Taken.{AppliesReads, IsScan, IsTaken, TakesRead, TakesWrite, having_taken_write, reads_left, writes_left};

mod admission;
mod eviction;
mod expiry;
mod fronts;
mod needs;
mod phase;
mod publish;
mod reads;
mod sketch;
mod state;
mod writes;

use crate::maintenance::admission::weight_of;
use crate::maintenance::needs::{need_of_front, need_of_read, need_of_write};
use crate::maintenance::phase::PhaseState;
use crate::maintenance::state::State;
use moka_common::frequency_sketch::FrequencySketch;
use moka_common::time::Instant;
use moka_queues::logs::{LoggedRead, ReadLog, WriteLog};
use moka_queues::orders::Orders;
use moka_sync_model::entry::{Entry, EntryChange, node_hint_of};
use moka_sync_model::operation::{Read, Write};
use moka_sync_model::phase::Phase;
use moka_sync_model::published::Published;
use moka_sync_model::settings::Settings;
use moka_sync_model::ticket::Ticket;
use std::alloc::{AllocError, Allocator, Global};
use std::marker::Model;

/// The log or the entry that a turn needs beside the maintenance.
#[derive(Clone, Copy, Debug)]
pub enum Need {
    Nothing,
    Reads,
    Writes,
    /// The entry of this ticket, if there is one.
    Entry(Ticket),
}

/// The maintenance, which lies behind its lock.
#[derive(Drop)]
pub struct Maintenance<A: Allocator + Clone + Drop = Global> {
    state: State<A>,
}

impl<A: Allocator + Clone + Drop> Model for Maintenance<A> {
    ghost use Rattle.moka_sync_model.specs.CoreState.{Maintenance as MaintenanceState};
    ghost use Rattle.moka_maintenance.specs.Held.{HoldsIn, maintenance_of};

    ghost Value = { MaintenanceState };

    ghost view = { λ m. maintenance_of m.state };

    ghost invariant = { λ m. HoldsIn m.state.orders m.state.phase };
}

impl<A: Allocator + Clone + Drop> Maintenance<A> {
    /// Makes an idle maintenance with nothing charged.
    pub fn new(alloc: A) -> Result<Self, AllocError>
        ensures { IfOk result (λ m. m ≡ new_maintenance) }
    {
        Ok(Maintenance {
            state: State {
                orders: Orders::new(alloc.clone()?)?,
                sketch: FrequencySketch::default(alloc),
                phase: PhaseState::Idle,
                moment: Instant::from_nanos(0),
                published: Published::opening(),
            },
        })
    }

    /// Returns the number of charged entries.
    pub fn count(&self) -> usize
        ensures { result ≡ length self.now.orders.access }
    {
        self.state.orders.len()
    }

    /// Returns the sum of the charges of all entries.
    pub fn charged_weight(&self) -> u128
        ensures { result ≡ charged_weight self.now.orders }
    {
        self.state.orders.charged_weight()
    }

    /// Returns the counts that were published last.
    pub fn published(&self) -> Published
        ensures { result ≡ self.now.published }
    {
        self.state.published
    }

    /// Returns `true` if nothing has been done with it.
    pub fn is_new(&self) -> bool
        ensures { IsTrue result ↔ (self.now ≡ new_maintenance) }
    {
        self.state.is_new()
    }

    /// Returns its phase.
    pub fn phase(&self) -> Phase
        ensures { result ≡ name_of self.now.phase }
    {
        self.state.phase.name()
    }

    /// Returns what the next turn needs.
    pub fn need<K: Drop, V: Drop, S: Drop>(
        &self,
        settings: &Settings<S, A>,
        valid_after: Instant,
    ) -> Need
        ensures { need_named result
            ≡ need_of (turn_at {K = K} {V = V} settings.now valid_after false self.now.phase self.now) }
    {
        match self.state.phase {
            PhaseState::Idle | PhaseState::Sketch { .. } | PhaseState::Publish { .. } =>
                Need::Nothing,
            PhaseState::ReadCount { .. }
            | PhaseState::Reads { .. }
            | PhaseState::MoreReads { .. } => Need::Reads,
            PhaseState::WriteCount { .. }
            | PhaseState::Writes { .. }
            | PhaseState::MoreWrites { .. } => Need::Writes,
            PhaseState::ReadApply { read, .. } => need_of_read(read),
            PhaseState::Apply { write, .. } => need_of_write(write),
            PhaseState::Scanning { scan, .. } => self.state.need_of_scan::<K, V>(scan),
            PhaseState::Removing { removal, .. } => self.state.need_of_removal::<K, V>(removal),
            PhaseState::Enter { candidate, .. } => Need::Entry(candidate.ticket),
            PhaseState::ExpireWrite { turns } => need_of_front(
                self.state.write_front(settings, turns),
            ),
            PhaseState::ExpireAccess { turns } => need_of_front(
                self.state.access_front(settings, valid_after, turns),
            ),
            PhaseState::Evict { turns } => need_of_front(
                self.state.eviction_front(settings, turns),
            ),
        }
    }

    /// Begins a maintenance. None may be under way: `phase` tells.
    pub fn begin(&mut self, now: Instant)
        requires { self.old.phase ≡ Idle }
        ensures { self.new ≡ record self.old { phase = ReadCount 1; moment = now } }
    {
        self.state.moment = now;
        self.state.phase = PhaseState::ReadCount { round: 1 };
    }

    /// Takes a turn that needs the read log.
    pub fn turn_with_reads<K: Drop, V: Drop, S: Drop>(&mut self, log: &mut ReadLog<A>)
        requires { (settings : SettingsState S) × (valid_after : ℕ)
            × (need_of (turn_at {K = K} {V = V} settings valid_after false self.old.phase self.old) ≡ NeedsReads) }
        ensures { (settings : SettingsState S) → (valid_after : ℕ)
            → TurnsWithReads K V settings valid_after false self.old self.new log.old log.new }
    {
        match self.state.phase {
            PhaseState::ReadCount { round } => self.state.count_reads(round, log.len()),
            PhaseState::Reads { work } => self.state.take_read(work, log),
            PhaseState::MoreReads { round } => self.state.look_for_reads(round, log.len()),
            _ => {}
        }
    }

    /// Returns `true` if the next turn is to take a read.
    pub fn takes_read(&self) -> bool
        ensures { IsTrue result ↔ TakesRead self.now }
    {
        matches!(self.state.phase, PhaseState::Reads { .. })
    }

    /// Returns the number of reads that its round is still to take if the next turn is to take one, and 0 otherwise.
    pub fn reads_left(&self) -> usize
        ensures { result ≡ reads_left self.now.phase }
    {
        match self.state.phase {
            PhaseState::Reads { work } => work.left,
            _ => 0,
        }
    }

    /// Applies reads together, with the result of their single turns. The caller has popped them and touched their entries.
    pub fn apply_reads(&mut self, reads: &[LoggedRead])
        requires some { 0 < length reads.now }
        requires left { length reads.now ≤ reads_left self.old.phase }
        ensures { AppliesReads (reads_of reads.now) self.old self.new }
    {
        if let PhaseState::Reads { work } = self.state.phase {
            self.state.apply_reads(work, reads);
        }
    }

    /// Returns `true` if the next turn is to take a write.
    pub fn takes_write(&self) -> bool
        ensures { IsTrue result ↔ TakesWrite self.now }
    {
        matches!(self.state.phase, PhaseState::Writes { .. })
    }

    /// Returns the number of writes that its round is still to take. The next turn must be one that takes a write.
    pub fn writes_left(&self) -> usize
        requires { TakesWrite self.now }
        ensures { result ≡ writes_left self.now.phase }
    {
        match self.state.phase {
            PhaseState::Writes { work } => work.left,
            _ => 0,
        }
    }

    /// Pops the first write of the log, if the next turn is to take one. The turn that applies it must follow at once: `turn_with_upsert` or
    /// `turn_with_removal`.
    pub fn take_write(&self, log: &mut WriteLog<A>) -> Option<Write>
        ensures { IsTaken (TakesWrite self.now) result log.old log.new }
    {
        let PhaseState::Writes { .. } = self.state.phase else {
            return None;
        };
        log.pop()
    }

    /// Applies an upsert that `take_write` has taken, to the entry of its ticket, if there is one. The entry's owner makes the change that it returns.
    pub fn turn_with_upsert<K: Drop, V: Drop, S: Drop>(
        &mut self,
        settings: &Settings<S, A>,
        ticket: Ticket,
        found: Option<&Entry<K, V, A>>,
    ) -> EntryChange
        requires { TakesWrite self.old }
        ensures { (refused : Bool) × ((valid_after : ℕ)
            → TurnsAtEntry K V settings.now valid_after refused (having_taken_write (Upsert ticket) self.old) self.new
            (option_copied found.entry) result) }
    {
        match self.state.phase {
            PhaseState::Writes { work } => {
                self.state
                    .apply_upsert(settings, work.less_one(), ticket, found)
            }
            _ => EntryChange::Stays,
        }
    }

    /// Applies a removal that `take_write` has taken.
    pub fn turn_with_removal<K: Drop, V: Drop, S: Drop>(&mut self, ticket: Ticket)
        requires { TakesWrite self.old }
        ensures { (settings : SettingsState S) → (valid_after : ℕ)
            → TurnsAlone K V settings valid_after false (having_taken_write (Remove ticket) self.old) self.new }
    {
        if let PhaseState::Writes { work } = self.state.phase {
            self.state.apply_removal(work.less_one(), ticket);
        }
    }

    /// Takes a turn that needs the write log.
    pub fn turn_with_writes<K: Drop, V: Drop, S: Drop>(&mut self, log: &mut WriteLog<A>)
        requires { (settings : SettingsState S) × (valid_after : ℕ)
            × (need_of (turn_at {K = K} {V = V} settings valid_after false self.old.phase self.old) ≡ NeedsWrites) }
        ensures { (settings : SettingsState S) → (valid_after : ℕ)
            → TurnsWithWrites K V settings valid_after false self.old self.new log.old log.new }
    {
        match self.state.phase {
            PhaseState::WriteCount { round } => self.state.count_writes(round, log.len()),
            PhaseState::Writes { work } => self.state.take_write(work, log),
            PhaseState::MoreWrites { round } => self.state.look_for_writes(round, log.len()),
            _ => {}
        }
    }

    /// Takes a turn that needs nothing.
    pub fn turn_alone<K: Drop, V: Drop, S: Drop>(&mut self, settings: &Settings<S, A>)
        requires { (valid_after : ℕ)
            × (need_of (turn_at {K = K} {V = V} settings.now valid_after false self.old.phase self.old) ≡ NeedsNothing) }
        ensures { (valid_after : ℕ)
            → need_of (turn_at {K = K} {V = V} settings.now valid_after false self.old.phase self.old) ≡ NeedsNothing
            → (refused : Bool) × TurnsAlone K V settings.now valid_after refused self.old self.new }
    {
        match self.state.phase {
            PhaseState::ReadApply { work, read } => {
                if let Read::Miss { hash } = read {
                    self.state.apply_miss(work, hash);
                }
            }
            PhaseState::Apply { work, write } => {
                if let Write::Remove { ticket } = write {
                    self.state.apply_removal(work, ticket);
                }
            }
            PhaseState::Scanning { work, scan } => self.state.admit(work, scan),
            PhaseState::Removing { work, removal } => self.state.skip_absent::<K, V>(work, removal),
            PhaseState::Sketch { round } => self.state.ask_for_sketch(settings, round),
            PhaseState::ExpireWrite { .. } => self.state.phase = PhaseState::ExpireAccess {
                turns: 0,
            },
            PhaseState::ExpireAccess { .. } => self.state.phase = PhaseState::Evict { turns: 0 },
            PhaseState::Evict { turns } => self.state.phase = PhaseState::Publish { turns },
            PhaseState::Publish { .. } => self.state.publish(),
            _ => {}
        }
    }

    /// Returns the ticket whose entry the next turn needs, if it is a turn of a scan, which `scan` takes.
    #[inline(always)]
    pub fn need_to_scan<K: Drop, V: Drop, S: Drop>(&self) -> Option<Ticket>
        ensures scans { IfSome result (λ t. IsScan self.now.phase) }
        ensures need { IfSome result (λ t. (settings : SettingsState S) → (valid_after : ℕ)
            → need_of (turn_at {K = K} {V = V} settings valid_after false self.now.phase self.now) ≡ NeedsShard t) }
    {
        let PhaseState::Scanning { scan, .. } = self.state.phase else {
            return None;
        };
        match self.state.need_of_scan::<K, V>(scan) {
            Need::Entry(ticket) => Some(ticket),
            _ => None,
        }
    }

    /// Takes a turn of a scan that needs an entry. It sees only the entry's weight, if there is an entry, whose owner makes the change that it returns.
    #[inline(always)]
    pub fn scan<K: Drop, V: Drop, S: Drop>(&mut self, weight: Option<u32>) -> EntryChange
        requires scans { IsScan self.old.phase }
        requires need { (settings : SettingsState S) × (valid_after : ℕ) × (t : Ticket)
            × (need_of (turn_at {K = K} {V = V} settings valid_after false self.old.phase self.old) ≡ NeedsShard t) }
        ensures { (settings : SettingsState S) → (valid_after : ℕ) → (found : Option (EntryState K V))
            → option_map (λ e. e.weight) found ≡ weight → TurnsAtEntry K V settings valid_after false self.old self.new found result }
    {
        match self.state.phase {
            PhaseState::Scanning { work, scan } => self.state.scan::<K, V>(work, scan, weight),
            _ => EntryChange::Stays,
        }
    }

    /// Takes a turn that needs the entry of this ticket, as `need` says. `found` is the entry, if there is one. Its owner makes the change that the turn
    /// returns.
    pub fn turn_at_entry<K: Drop, V: Drop, S: Drop>(
        &mut self,
        settings: &Settings<S, A>,
        valid_after: Instant,
        ticket: Ticket,
        found: Option<&Entry<K, V, A>>,
    ) -> EntryChange
        requires { need_of (turn_at {K = K} {V = V} settings.now valid_after false self.old.phase self.old) ≡ NeedsShard ticket }
        ensures { (refused : Bool)
            × TurnsAtEntry K V settings.now valid_after refused self.old self.new (option_copied found.entry) result }
    {
        match self.state.phase {
            PhaseState::ReadApply { work, read } => match read {
                Read::Hit { ticket, moment } => {
                    self.state.apply_hit(work, ticket, node_hint_of(found));
                    EntryChange::Touched(moment)
                }
                Read::Miss { .. } => EntryChange::Stays,
            },
            PhaseState::Apply { work, .. } => self
                .state
                .apply_upsert(settings, work, ticket, found),
            PhaseState::Scanning { work, scan } => {
                self.state.scan::<K, V>(work, scan, weight_of(found))
            }
            PhaseState::Removing { work, removal } => self.state.remove(work, removal, found),
            PhaseState::Enter {
                work,
                candidate,
                skipped,
            } => self.state.enter(settings, work, candidate, skipped, found),
            PhaseState::ExpireWrite { turns } => self
                .state
                .expire_write(settings, valid_after, turns, ticket, found),
            PhaseState::ExpireAccess { turns } => {
                self.state
                    .expire_access(settings, valid_after, turns, found)
            }
            PhaseState::Evict { turns } => self.state.evict(turns, found),
            _ => EntryChange::Stays,
        }
    }
}
