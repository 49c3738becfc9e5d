// The turns that take and apply writes.
ghost use Rattle.std.specs.Prelude.{◌≡◌, ◌≤◌, ◌<◌, ℕ, Bool, None, Some, false, option_copied};
ghost use Rattle.moka_common.specs.Admission.{is_within};
ghost use Rattle.moka_sync_model.specs.declared.constants.TheConstants.{MAX_ROUNDS};
ghost use Rattle.moka_sync_model.specs.Orders.{charge_of};
ghost use Rattle.moka_sync_model.specs.Turn.Plan.{gone_to, writes_or_on};
ghost use Rattle.moka_sync_model.specs.Turn.Apply.{after_first_upsert, after_removal, after_upsert};
ghost use Rattle.moka_sync_model.specs.Turn.Turn.{after_more_writes, after_write_taken};
ghost use Rattle.moka_queues.specs.OrdersState.{orders_of};
ghost use Rattle.moka_maintenance.specs.Held.{HoldsIn, IsPlain, maintenance_of, outcome_of, scan_begun};

use crate::maintenance::fronts::remove_ticket;
use crate::maintenance::phase::{PhaseState, Scan};
use crate::maintenance::state::State;
use moka_common::limits::Limits;
use moka_queues::logs::WriteLog;
use moka_sync_model::constants::{FLUSH_POINT, MAX_ROUNDS};
use moka_sync_model::entry::{Entry, EntryChange};
use moka_sync_model::operation::Write;
use moka_sync_model::progress::{Candidate, Tally, Work};
use moka_sync_model::settings::Settings;
use moka_sync_model::ticket::Ticket;
use std::alloc::Allocator;

/// Returns `Writes` if writes are left of the round, and `Sketch` otherwise.
pub(crate) fn writes_or_on(work: Work) -> PhaseState
    requires { work.round ≤ MAX_ROUNDS }
    ensures { IsPlain result (writes_or_on work) }
{
    if work.left == 0 {
        return PhaseState::Sketch { round: work.round };
    }
    PhaseState::Writes { work }
}

/// Returns the phase after the look at the write log that ends a round, if that isn't the last.
fn after_more_writes(round: usize, len: usize) -> PhaseState
    requires { round < MAX_ROUNDS }
    ensures { IsPlain result (after_more_writes round len) }
{
    if len >= FLUSH_POINT {
        return PhaseState::ReadCount { round: round + 1 };
    }
    PhaseState::ExpireWrite { turns: 0 }
}

/// Returns `true` if a weight is within the limit, or there is none.
pub(crate) fn is_within(limits: &Limits, weight: u128) -> bool
    ensures { result ≡ is_within limits.now.max_capacity weight }
{
    match limits.max_capacity() {
        Some(limit) => weight <= u128::from(limit),
        None => true,
    }
}

impl<A: Allocator + Clone + Drop> State<A> {
    /// Begins to apply as many writes in this round as the log has.
    pub(crate) fn count_writes(&mut self, round: usize, len: usize)
        requires { round ≤ MAX_ROUNDS }
        ensures step { maintenance_of self.new
            ≡ gone_to (writes_or_on (record { round = round; left = len })) (maintenance_of self.old) }
        ensures holds { HoldsIn self.new.orders self.new.phase }
    {
        self.phase = writes_or_on(Work { round, left: len });
    }

    /// Takes the first write out of the log.
    pub(crate) fn take_write(&mut self, work: Work, log: &mut WriteLog<A>)
        requires round { work.round ≤ MAX_ROUNDS }
        requires holds { HoldsIn self.old.orders self.old.phase }
        ensures step { (maintenance_of self.new, log.new) ≡ after_write_taken work (maintenance_of self.old) log.old }
        ensures holds { HoldsIn self.new.orders self.new.phase }
    {
        if let Some(write) = log.pop() {
            self.phase = PhaseState::Apply {
                work: work.less_one(),
                write,
            };
        }
    }

    /// Begins another round if the write log has reached the flush point.
    pub(crate) fn look_for_writes(&mut self, round: usize, len: usize)
        requires { round < MAX_ROUNDS }
        ensures step { maintenance_of self.new ≡ gone_to (after_more_writes round len) (maintenance_of self.old) }
        ensures holds { HoldsIn self.new.orders self.new.phase }
    {
        self.phase = after_more_writes(round, len);
    }

    /// Removes the node of a removal's ticket.
    pub(crate) fn apply_removal(&mut self, work: Work, ticket: Ticket)
        requires { work.round ≤ MAX_ROUNDS }
        ensures step { maintenance_of self.new ≡ after_removal work ticket (maintenance_of self.old) }
        ensures holds { HoldsIn self.new.orders self.new.phase }
    {
        remove_ticket(&mut self.orders, ticket);
        self.phase = writes_or_on(work);
    }

    /// Applies an upsert. It sets the charge of the entry's node, admits an entry without one, and drops the upsert if the entry has left.
    #[inline(always)]
    pub(crate) fn apply_upsert<K: Drop, V: Drop, S: Drop>(
        &mut self,
        settings: &Settings<S, A>,
        work: Work,
        ticket: Ticket,
        found: Option<&Entry<K, V, A>>,
    ) -> EntryChange
        requires { work.round ≤ MAX_ROUNDS }
        ensures step { (refused : Bool) × (outcome_of result self.new
            ≡ after_upsert settings.now refused work ticket (maintenance_of self.old) (option_copied found.entry)) }
        ensures holds { HoldsIn self.new.orders self.new.phase }
    {
        let Some(entry) = found else {
            self.phase = writes_or_on(work);
            return EntryChange::Stays;
        };
        let Some(id) = self.orders.find_at(ticket, entry.node_hint()) else {
            return self.apply_first_upsert(settings, work, ticket, entry);
        };
        self.orders.recharge(id, entry.weight());
        self.orders.touch_both(id);
        self.phase = writes_or_on(work);
        EntryChange::UpsertDone
    }

    /// Applies the upsert of an entry that isn't charged. It reserves its node before it asks for its admission.
    fn apply_first_upsert<K: Drop, V: Drop, S: Drop>(
        &mut self,
        settings: &Settings<S, A>,
        work: Work,
        ticket: Ticket,
        entry: &Entry<K, V, A>,
    ) -> EntryChange
        requires round { work.round ≤ MAX_ROUNDS }
        requires absent { charge_of ticket (orders_of self.old.orders) ≡ None }
        ensures step { (refused : Bool) × (outcome_of result self.new
            ≡ after_first_upsert settings.now refused work ticket entry.now (maintenance_of self.old)) }
        ensures holds { HoldsIn self.new.orders self.new.phase }
    {
        let weight = entry.weight();
        if self.orders.reserve(settings.limits()).is_err() {
            self.phase = writes_or_on(work);
            return EntryChange::Leaves;
        }
        let charged = self.orders.charged_weight() + u128::from(weight);
        if is_within(settings.limits(), charged) {
            let hint = self.orders.enter(ticket, weight, settings.limits());
            entry.set_node_hint(hint);
            self.phase = writes_or_on(work);
            return EntryChange::UpsertDone;
        }
        if is_within(settings.limits(), u128::from(weight)) {
            self.begin_scan(work, ticket, weight);
            return EntryChange::Stays;
        }
        self.phase = writes_or_on(work);
        EntryChange::Leaves
    }

    /// Begins a scan, which decides about admission.
    #[inline(always)]
    fn begin_scan(&mut self, work: Work, ticket: Ticket, weight: u32)
        requires round { work.round ≤ MAX_ROUNDS }
        requires room { 0 < self.old.orders.room }
        requires absent { charge_of ticket (orders_of self.old.orders) ≡ None }
        ensures step { maintenance_of self.new
            ≡ gone_to (scan_begun work ticket weight self.old.sketch) (maintenance_of self.old) }
        ensures holds { HoldsIn self.new.orders self.new.phase }
    {
        // No id stands twice, and there are fewer nodes than 2^64.
        let _ = self.orders.len();
        self.phase = PhaseState::Scanning {
            work,
            scan: Scan {
                candidate: Candidate {
                    ticket,
                    weight,
                    estimate: self.sketch.frequency(ticket.hash),
                },
                tally: Tally {
                    weight: 0,
                    estimate: 0,
                    absent: 0,
                },
                seen: 0,
                next: self.orders.front(),
            },
        };
    }
}
