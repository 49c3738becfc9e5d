// The turns that take and apply reads.
ghost use Rattle.std.specs.Prelude.{◌≡◌, ◌≤◌};
ghost use Rattle.std.specs.List.{fold};
ghost use Rattle.moka_sync_model.specs.declared.constants.TheConstants.{MAX_ROUNDS};
ghost use Rattle.moka_sync_model.specs.Orders.{used};
ghost use Rattle.moka_sync_model.specs.Turn.Plan.{gone_to, moved_on, reads_or_on};
ghost use Rattle.moka_sync_model.specs.Turn.Apply.{after_miss};
ghost use Rattle.moka_sync_model.specs.Turn.Turn.{after_more_reads, after_read_taken};
ghost use Rattle.moka_queues.specs.OrdersState.{orders_of};
ghost use Rattle.moka_maintenance.specs.Held.{HoldsIn, IsPlain, maintenance_of};
ghost use Rattle.moka_queues.specs.LoggedReads.{reads_of};
ghost use Rattle.moka_maintenance.specs.Taken.{counted, hash_of_read, having_applied, used_by};

use crate::maintenance::fronts::touch_ticket;
use crate::maintenance::phase::PhaseState;
use crate::maintenance::state::State;
use moka_common::frequency_sketch::FrequencySketch;
use moka_queues::logs::{LoggedRead, ReadLog};
use moka_queues::orders::Orders;
use moka_sync_model::constants::{FLUSH_POINT, MAX_ROUNDS};
use moka_sync_model::operation::Read;
use moka_sync_model::progress::Work;
use moka_sync_model::ticket::Ticket;
use std::alloc::Allocator;

/// Returns `Reads` if reads are left of the round, and `WriteCount` otherwise.
fn reads_or_on(work: Work) -> PhaseState
    requires { work.round ≤ MAX_ROUNDS }
    ensures { IsPlain result (reads_or_on work) }
{
    if work.left == 0 {
        return PhaseState::WriteCount { round: work.round };
    }
    PhaseState::Reads { work }
}

/// Returns the phase after the look at the read log that ends a round.
fn after_more_reads(round: usize, len: usize) -> PhaseState
    requires { round ≤ MAX_ROUNDS }
    ensures { IsPlain result (after_more_reads round len) }
{
    if round == MAX_ROUNDS {
        return PhaseState::ExpireWrite { turns: 0 };
    }
    if len >= FLUSH_POINT {
        return PhaseState::ReadCount { round: round + 1 };
    }
    PhaseState::MoreWrites { round }
}

/// Returns the hash that a read counts.
fn hash_of(read: Read) -> u64
    ensures { result ≡ hash_of_read read }
{
    match read {
        Read::Hit { ticket, .. } => ticket.hash,
        Read::Miss { hash } => hash,
    }
}

/// Counts the hashes of reads.
fn count_hashes<A: Allocator + Clone + Drop>(sketch: &mut FrequencySketch<A>, reads: &[LoggedRead])
    ensures { sketch.new ≡ fold counted sketch.old (reads_of reads.now) }
{
    for logged in reads {
        sketch.increment(hash_of(logged.read));
    }
}

/// Makes the node of a hit the most recently used one, looking at its hint first.
fn touch_node<A: Allocator + Clone + Drop>(orders: &mut Orders<A>, logged: LoggedRead)
    ensures { orders_of orders.new ≡ used_by (orders_of orders.old) logged.read }
{
    if let Read::Hit { ticket, .. } = logged.read {
        touch_ticket(orders, ticket, logged.hint);
    }
}

/// Makes the nodes of hits the most recently used ones, one after another.
fn use_nodes<A: Allocator + Clone + Drop>(orders: &mut Orders<A>, reads: &[LoggedRead])
    ensures { orders_of orders.new ≡ fold used_by (orders_of orders.old) (reads_of reads.now) }
{
    for logged in reads {
        touch_node(orders, *logged);
    }
}

impl<A: Allocator + Clone + Drop> State<A> {
    /// Begins a round that applies as many reads as the log has.
    pub(crate) fn count_reads(&mut self, round: usize, len: usize)
        requires { round ≤ MAX_ROUNDS }
        ensures step { maintenance_of self.new
            ≡ gone_to (reads_or_on (record { round = round; left = len })) (maintenance_of self.old) }
        ensures holds { HoldsIn self.new.orders self.new.phase }
    {
        self.phase = reads_or_on(Work { round, left: len });
    }

    /// Takes the first read out of the log.
    pub(crate) fn take_read(&mut self, work: Work, log: &mut ReadLog<A>)
        requires round { work.round ≤ MAX_ROUNDS }
        requires holds { HoldsIn self.old.orders self.old.phase }
        ensures step { (maintenance_of self.new, log.new) ≡ after_read_taken work (maintenance_of self.old) log.old }
        ensures holds { HoldsIn self.new.orders self.new.phase }
    {
        if let Some(read) = log.pop() {
            self.phase = PhaseState::ReadApply {
                work: work.less_one(),
                read,
            };
        }
    }

    /// Begins another round if the read log has reached the flush point.
    pub(crate) fn look_for_reads(&mut self, round: usize, len: usize)
        requires { round ≤ MAX_ROUNDS }
        ensures step { maintenance_of self.new ≡ gone_to (after_more_reads round len) (maintenance_of self.old) }
        ensures holds { HoldsIn self.new.orders self.new.phase }
    {
        self.phase = after_more_reads(round, len);
    }

    /// Counts the hash of a miss.
    pub(crate) fn apply_miss(&mut self, work: Work, hash: u64)
        requires { work.round ≤ MAX_ROUNDS }
        ensures step { maintenance_of self.new ≡ after_miss work hash (maintenance_of self.old) }
        ensures holds { HoldsIn self.new.orders self.new.phase }
    {
        self.sketch.increment(hash);
        self.phase = reads_or_on(work);
    }

    /// Counts the hash of a hit, and makes its node the most recently used one, looking at `hint` first.
    pub(crate) fn apply_hit(&mut self, work: Work, ticket: Ticket, hint: usize)
        requires { work.round ≤ MAX_ROUNDS }
        ensures step { maintenance_of self.new ≡ moved_on (after_miss work ticket.hash (maintenance_of self.old))
            (used ticket (orders_of self.old.orders)) (reads_or_on work) }
        ensures holds { HoldsIn self.new.orders self.new.phase }
    {
        touch_ticket(&mut self.orders, ticket, hint);
        self.apply_miss(work, ticket.hash);
    }

    /// Applies reads: it counts their hashes, and then moves the nodes of the hits.
    pub(crate) fn apply_reads(&mut self, work: Work, reads: &[LoggedRead])
        requires { work.round ≤ MAX_ROUNDS }
        ensures step { maintenance_of self.new ≡ having_applied work (reads_of reads.now) (maintenance_of self.old) }
        ensures holds { HoldsIn self.new.orders self.new.phase }
    {
        count_hashes(&mut self.sketch, reads);
        use_nodes(&mut self.orders, reads);
        self.phase = reads_or_on(work.less(reads.len()));
    }
}
