// The turns of a maintenance, each with the lock of what it needs.
ghost use Rattle.std.specs.Prelude.{◌≡◌, ◌<◌, ◌≤◌, [], drop, length, slice_get, IfSome, IsNone, IsSome};
ghost use Rattle.moka_shard.specs.PlannedTurn.{IsTurn};
ghost use Rattle.moka_locks.specs.MaintenanceTurn.{AreTurns, empty_handed};
ghost use Rattle.moka_maintenance.specs.Taken.{TakesRead, TakesWrite, writes_left};

use crate::inner::Inner;
use moka_maintenance::maintenance::{Maintenance, Need};
use moka_queues::logs::{LoggedRead, NO_READ, READS_AT_ONCE};
use moka_queues::taken::TakenWrites;
use moka_shard::rule::PairRule;
use moka_sync_model::operation::{Read, Write};
use std::alloc::Allocator;
use std::hash::{BuildHasher, Hash};
use std::sync::Wait;

impl<
    K: Eq + Hash + Drop,
    V: Drop,
    S: BuildHasher + Drop,
    P: PairRule<K, V>,
    W: Drop,
    A: Allocator + Clone + Drop,
> Inner<K, V, S, P, W, A> {
    /// Takes one turn of the maintenance, with the lock of what it needs, or several if operations leave their log together. The writes that have left their
    /// log are no more than the round will apply.
    pub(crate) fn turn<R: Wait>(
        &self,
        rt: &R,
        maintenance: &mut Maintenance<A>,
        taken: &mut TakenWrites,
    )
        requires { length taken.old ≤ writes_left maintenance.old.phase }
        ensures turns { AreTurns K V self.now.settings (record { maintenance = maintenance.old; taken = taken.old })
            (record { maintenance = maintenance.new; taken = taken.new }) }
        ensures left { length taken.new ≤ writes_left maintenance.new.phase }
    {
        if maintenance.takes_read() {
            self.apply_next_reads(rt, maintenance);
            return;
        }
        if maintenance.takes_write() {
            let is_last = maintenance.writes_left() <= 1;
            self.apply_next_write(rt, maintenance, taken);
            if is_last {
                // The round has no more, so none is left.
                self.logs.note_applied(rt);
            }
            return;
        }
        self.turn_by_need(rt, maintenance);
    }

    /// Takes a turn that takes no operation out of a log, with the lock of what it needs.
    fn turn_by_need<R: Wait>(&self, rt: &R, maintenance: &mut Maintenance<A>)
        ensures { IsTurn K V self.now.settings maintenance.old maintenance.new }
    {
        let valid_after = self.shards.valid_after();
        match maintenance.need::<K, V, S>(&self.shards.settings, valid_after) {
            Need::Nothing => maintenance.turn_alone::<K, V, S>(&self.shards.settings),
            Need::Reads => {
                let mut log = self.logs.lock_reads(rt);
                maintenance.turn_with_reads::<K, V, S>(&mut log);
                self.logs.publish_read_len(log.len());
            }
            Need::Writes => {
                let mut queue = self.logs.lock_writes(rt);
                queue.turn_with_writes::<K, V, S>(maintenance);
                self.logs.publish_write_len(queue.len());
            }
            Need::Entry(ticket) => self.shards.turn(rt, maintenance, ticket, valid_after),
        }
    }

    /// Returns how many of the reads left in a round may leave their log together. With a time to idle it is one: a get sees when an entry is touched.
    fn reads_wanted(&self, left: usize) -> usize
        ensures within { result ≤ left }
        ensures singly { IsSome self.now.settings.policy.time_to_idle → result ≤ 1 }
    {
        if self.settings().limits().has_time_to_idle() {
            return left.min(1);
        }
        left
    }

    /// Takes the next reads and applies them, if there are any. No lock but the maintenance's is held while their hashes are counted and their nodes move.
    fn apply_next_reads<R: Wait>(&self, rt: &R, maintenance: &mut Maintenance<A>)
        requires { TakesRead maintenance.old }
        ensures { AreTurns K V self.now.settings (empty_handed maintenance.old) (empty_handed maintenance.new) }
    {
        let mut copy = [NO_READ; READS_AT_ONCE];
        let wanted = self.reads_wanted(maintenance.reads_left());
        let count = self.logs.take_reads(rt, wanted, &mut copy);
        if count == 0 {
            return;
        }
        let reads = &mut copy[..count];
        self.touch_all(rt, reads);
        maintenance.apply_reads(reads);
    }

    /// Touches the entries of hits, one after another, each under the lock of its shard. Each read's hint is then that of its node.
    fn touch_all<R: Wait>(&self, rt: &R, reads: &mut [LoggedRead])
        ensures { length reads.new ≡ length reads.old }
    {
        for logged in reads.iter_mut() {
            logged.hint = self.touch(rt, logged.read, logged.hint);
        }
    }

    /// Touches the entry of a hit, if there is one, looking in a slot first. Returns a hint for its node.
    fn touch<R: Wait>(&self, rt: &R, read: Read, slot: usize) -> usize {
        let Read::Hit { ticket, moment } = read else {
            return 0;
        };
        self.shards.touch(rt, ticket, slot, moment)
    }

    /// Takes the next write, if there is one, and applies it.
    fn apply_next_write<R: Wait>(
        &self,
        rt: &R,
        maintenance: &mut Maintenance<A>,
        taken: &mut TakenWrites,
    )
        requires takes { TakesWrite maintenance.old }
        requires left { length taken.old ≤ writes_left maintenance.old.phase }
        ensures turns { AreTurns K V self.now.settings (record { maintenance = maintenance.old; taken = taken.old })
            (record { maintenance = maintenance.new; taken = taken.new }) }
        ensures left { length taken.new ≤ writes_left maintenance.new.phase }
    {
        let Some(write) = self.next_write(rt, maintenance, taken) else {
            return;
        };
        match write {
            Write::Upsert { ticket } => self.shards.apply_upsert(rt, maintenance, ticket),
            Write::Remove { ticket } => maintenance.turn_with_removal::<K, V, S>(ticket),
        }
    }

    /// Returns the write that the maintenance takes next. It has left its log before, or leaves it now with those after it.
    fn next_write<R: Wait>(
        &self,
        rt: &R,
        maintenance: &Maintenance<A>,
        taken: &mut TakenWrites,
    ) -> Option<Write>
        requires takes { TakesWrite maintenance.now }
        requires left { length taken.old ≤ writes_left maintenance.now.phase }
        ensures some { IfSome result (λ write. length taken.new < writes_left maintenance.now.phase) }
        ensures none { IsNone result → taken.new ≡ [] }
        ensures first { 0 < length taken.old → (result ≡ slice_get taken.old 0) × (taken.new ≡ drop 1 taken.old) }
    {
        if taken.is_empty() {
            self.logs.take_writes(rt, maintenance.writes_left(), taken);
        }
        taken.pop()
    }
}
