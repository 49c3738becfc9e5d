//! Whole calls of one caller, each a chain of steps.
ghost use Rattle.std.specs.Prelude.{◌≡◌, ◌≢◌, true};
ghost use Rattle.moka_common.specs.Keys.{keys_by};
ghost use Rattle.moka_core.specs.Calls.{AppliesNext, AppliesNextReads, AppliesNextWrite, CoreMaintains, CorePushesRead};
ghost use Rattle.moka_core.specs.Calls.{CorePushesWrite, MaintainsAsDue, Pends, PendsRead, PendsWrite, having};
ghost use Rattle.moka_core.specs.Machine.{KeepsRoom};
ghost use Rattle.moka_sync_model.specs.Consistent.{IsConsistent};
ghost use Rattle.moka_sync_model.specs.CoreCall.{CoreTurns, Finishes, IsAtRest, IsCall, scheduled};
ghost use Rattle.moka_sync_model.specs.Phase.{Idle};
ghost use Rattle.moka_sync_model.specs.declared.call.Call.TheVariants as call;
ghost use Rattle.moka_sync_model.specs.declared.operation.Operation.TheVariants.{Reading, Writing};

use crate::machine::Machine;
use crate::machine::steps::refusal;
use crate::rows::Rows;
use moka_common::shared::Shared;
use moka_common::time::Instant;
use moka_queues::logs::{LoggedRead, NO_READ, READS_AT_ONCE};
use moka_sync_model::call::Call;
use moka_sync_model::constants::{CALLER, FLUSH_POINT};
use moka_sync_model::event::Reply;
use moka_sync_model::housekeeper::{due_after, is_due};
use moka_sync_model::operation::{Operation, Write};
use moka_sync_model::phase::Phase;
use moka_sync_model::weigh::WeighShared;
use std::alloc::Allocator;
use std::hash::{BuildHasher, Hash};

impl<
    K: Eq + Hash + Drop,
    V: Drop,
    S: BuildHasher + Drop,
    W: WeighShared<K, V>,
    A: Allocator + Clone + Drop,
> Machine<K, V, S, W, A> {
    /// Makes one whole call, from rest to rest.
    pub fn call(
        &mut self,
        call: Call<Shared<K, A>, Shared<V, A>>,
    ) -> Reply<Shared<V, A>, Rows<K, V, A>>
        requires ready { W.ready self.old.weigher }
        requires good { IsConsistent (keys_by K.Hash S.BuildHasher S.Hasher.Hasher) self.old.state }
        requires rest { IsAtRest self.old.state }
        ensures step { IsCall (keys_by K.Hash S.BuildHasher S.Hasher.Hasher) (W.weighs self.old.weigher)
            self.old.state call result self.new.state }
        ensures weigher { self.new.weigher ≡ self.old.weigher }
    {
        match call {
            Call::Insert { key, value, now } => self.call_insert(key, value, now),
            Call::Get { key, now } => self.call_get(key.get(), now),
            Call::Contains { key, now } => self.contains_key(key.get(), now),
            Call::Invalidate { key, now } => self.call_invalidate(key.get(), now),
            Call::Remove { key, now } => self.call_remove(key.get(), now),
            Call::InvalidateAll { now } => self.invalidate_all(now),
            Call::Sync { now } => {
                self.maintain(now);
                Reply::Done
            }
            Call::Counts => self.published(),
        }
    }

    fn call_insert(
        &mut self,
        key: Shared<K, A>,
        value: Shared<V, A>,
        now: Instant,
    ) -> Reply<Shared<V, A>, Rows<K, V, A>>
        requires ready { W.ready self.old.weigher }
        requires good { IsConsistent (keys_by K.Hash S.BuildHasher S.Hasher.Hasher) self.old.state }
        requires rest { IsAtRest self.old.state }
        ensures step { IsCall (keys_by K.Hash S.BuildHasher S.Hasher.Hasher) (W.weighs self.old.weigher)
            self.old.state (call.Insert key value now) result self.new.state }
        ensures weigher { self.new.weigher ≡ self.old.weigher }
    {
        match self.insert_into_map(key, value, now) {
            Ok(write) => {
                self.log_write(write, now);
                Reply::Done
            }
            Err(error) => refusal(error),
        }
    }

    /// Makes the whole call `Get`.
    #[inline(always)]
    pub fn call_get(&mut self, key: &K, now: Instant) -> Reply<Shared<V, A>, Rows<K, V, A>>
        requires good { IsConsistent (keys_by K.Hash S.BuildHasher S.Hasher.Hasher) self.old.state }
        requires rest { IsAtRest self.old.state }
        ensures step { IsCall (keys_by K.Hash S.BuildHasher S.Hasher.Hasher) (W.weighs self.old.weigher)
            self.old.state (call.Get key.now now) result self.new.state }
        ensures weigher { self.new.weigher ≡ self.old.weigher }
    {
        let Ok((found, logged)) = self.look_up(key, now) else {
            return Reply::OutOfMemory;
        };
        self.log_read(logged, now);
        Reply::Found(found)
    }

    fn call_invalidate(&mut self, key: &K, now: Instant) -> Reply<Shared<V, A>, Rows<K, V, A>>
        requires good { IsConsistent (keys_by K.Hash S.BuildHasher S.Hasher.Hasher) self.old.state }
        requires rest { IsAtRest self.old.state }
        ensures step { IsCall (keys_by K.Hash S.BuildHasher S.Hasher.Hasher) (W.weighs self.old.weigher)
            self.old.state (call.Invalidate key.now now) result self.new.state }
        ensures weigher { self.new.weigher ≡ self.old.weigher }
    {
        let Some(write) = self.remove_from_map(key) else {
            return Reply::Done;
        };
        self.log_write(write, now);
        Reply::Done
    }

    fn call_remove(&mut self, key: &K, now: Instant) -> Reply<Shared<V, A>, Rows<K, V, A>>
        requires good { IsConsistent (keys_by K.Hash S.BuildHasher S.Hasher.Hasher) self.old.state }
        requires rest { IsAtRest self.old.state }
        ensures step { IsCall (keys_by K.Hash S.BuildHasher S.Hasher.Hasher) (W.weighs self.old.weigher)
            self.old.state (call.Remove key.now now) result self.new.state }
        ensures weigher { self.new.weigher ≡ self.old.weigher }
    {
        let (found, write) = self.remove_value(key, now);
        let Some(write) = write else {
            return Reply::Found(found);
        };
        self.log_write(write, now);
        Reply::Found(found)
    }

    /// Returns the counts that were published last.
    fn published(&self) -> Reply<Shared<V, A>, Rows<K, V, A>>
        ensures { IsCall (keys_by K.Hash S.BuildHasher S.Hasher.Hasher) (W.weighs self.now.weigher)
            self.now.state call.Counts result self.now.state }
    {
        let published = self.maintenance.published();
        Reply::Counts {
            count: published.count as usize,
            weight: u128::from(published.weight),
        }
    }

    /// Pushes a read to its log. If a maintenance is due, the read is pending while that runs.
    fn log_read(&mut self, logged: LoggedRead, now: Instant)
        requires rest { IsAtRest self.old.state }
        requires pends { PendsRead (keys_by K.Hash S.BuildHasher S.Hasher.Hasher) (having (Reading logged.read) self.old.state) }
        ensures step { CorePushesRead (keys_by K.Hash S.BuildHasher S.Hasher.Hasher) (W.weighs self.old.weigher)
            now (having (Reading logged.read) self.old.state) self.new.state }
        ensures weigher { self.new.weigher ≡ self.old.weigher }
    {
        if is_due(self.read_log.len(), FLUSH_POINT, self.sync_after, now) {
            self.pending.put(CALLER, Operation::Reading(logged.read));
            self.push_read(now);
            return;
        }
        let _ = self.read_log.push_logged(logged);
    }

    /// Pushes a write to its log. If a maintenance is due, the write is pending while that runs.
    fn log_write(&mut self, write: Write, now: Instant)
        requires rest { IsAtRest self.old.state }
        requires pends { PendsWrite (keys_by K.Hash S.BuildHasher S.Hasher.Hasher) (having (Writing write) self.old.state) }
        ensures step { CorePushesWrite (keys_by K.Hash S.BuildHasher S.Hasher.Hasher) (W.weighs self.old.weigher)
            now (having (Writing write) self.old.state) self.new.state }
        ensures weigher { self.new.weigher ≡ self.old.weigher }
    {
        if is_due(self.write_log.len(), FLUSH_POINT, self.sync_after, now) {
            self.pending.put(CALLER, Operation::Writing(write));
            self.push_write(now);
            return;
        }
        let _ = self.write_log.push(write);
    }

    /// Runs a maintenance if one is due, and then pushes the pending read to its log.
    #[cold]
    #[inline(never)]
    fn push_read(&mut self, now: Instant)
        requires pends { PendsRead (keys_by K.Hash S.BuildHasher S.Hasher.Hasher) self.old.state }
        ensures step { CorePushesRead (keys_by K.Hash S.BuildHasher S.Hasher.Hasher) (W.weighs self.old.weigher)
            now self.old.state self.new.state }
        ensures weigher { self.new.weigher ≡ self.old.weigher }
    {
        let reads = self.read_log.len();
        self.maintain_if_due(reads, now);
        let _ = self.push(CALLER);
    }

    /// Runs a maintenance if one is due, and then pushes the pending write to its log, which has space then.
    #[cold]
    #[inline(never)]
    fn push_write(&mut self, now: Instant)
        requires pends { PendsWrite (keys_by K.Hash S.BuildHasher S.Hasher.Hasher) self.old.state }
        ensures step { CorePushesWrite (keys_by K.Hash S.BuildHasher S.Hasher.Hasher) (W.weighs self.old.weigher)
            now self.old.state self.new.state }
        ensures weigher { self.new.weigher ≡ self.old.weigher }
    {
        let writes = self.write_log.len();
        self.maintain_if_due(writes, now);
        let _ = self.push(CALLER);
    }

    /// Runs a whole maintenance if the length of a log or the time makes it due.
    fn maintain_if_due(&mut self, len: usize, now: Instant)
        requires pends { Pends (keys_by K.Hash S.BuildHasher S.Hasher.Hasher) self.old.state }
        ensures step { MaintainsAsDue (keys_by K.Hash S.BuildHasher S.Hasher.Hasher) (W.weighs self.old.weigher)
            now self.old.state self.new.state len }
        ensures weigher { self.new.weigher ≡ self.old.weigher }
    {
        if is_due(len, FLUSH_POINT, self.sync_after, now) {
            self.schedule(now);
            self.maintain(now);
        }
    }

    /// Schedules the next maintenance half a second after `now`.
    pub(super) fn schedule(&mut self, now: Instant)
        ensures state { self.new.state ≡ scheduled true now self.old.state }
        ensures weigher { self.new.weigher ≡ self.old.weigher }
    {
        self.sync_after = Some(due_after(now));
    }

    /// Runs a whole maintenance.
    fn maintain(&mut self, now: Instant)
        requires good { IsConsistent (keys_by K.Hash S.BuildHasher S.Hasher.Hasher) self.old.state }
        requires idle { self.old.state.maintenance.phase ≡ Idle }
        ensures step { CoreMaintains (keys_by K.Hash S.BuildHasher S.Hasher.Hasher) (W.weighs self.old.weigher)
            now self.old.state self.new.state }
        ensures weigher { self.new.weigher ≡ self.old.weigher }
    {
        let _ = self.begin(now);
        self.finish();
    }

    /// Takes turns until the maintenance ends, if one is under way. Returns `true` if one was.
    pub fn end_maintenance(&mut self) -> bool
        requires good { IsConsistent (keys_by K.Hash S.BuildHasher S.Hasher.Hasher) self.old.state }
        ensures step { Finishes (keys_by K.Hash S.BuildHasher S.Hasher.Hasher) (W.weighs self.old.weigher)
            self.old.state result self.new.state }
        ensures weigher { self.new.weigher ≡ self.old.weigher }
    {
        if self.maintenance.phase() == Phase::Idle {
            return false;
        }
        self.finish();
        true
    }

    /// Takes turns until no maintenance is under way.
    fn finish(&mut self)
        requires good { IsConsistent (keys_by K.Hash S.BuildHasher S.Hasher.Hasher) self.old.state }
        requires busy { self.old.state.maintenance.phase ≢ Idle }
        ensures turns { CoreTurns (keys_by K.Hash S.BuildHasher S.Hasher.Hasher) (W.weighs self.old.weigher)
            self.old.state self.new.state }
        ensures weigher { self.new.weigher ≡ self.old.weigher }
    {
        loop {
            if self.apply_next() {
                continue;
            }
            self.take_turn();
            if let Phase::Idle = self.maintenance.phase() {
                return;
            }
        }
    }

    /// Takes the next operations out of a log and applies them, if the next turn is to take one and there is one. Returns `true` if it did.
    fn apply_next(&mut self) -> bool
        ensures turns { AppliesNext self.old.state result self.new.state }
        ensures weigher { self.new.weigher ≡ self.old.weigher }
    {
        self.apply_next_reads() || self.apply_next_write()
    }

    /// Applies the next reads together: it touches their entries, counts their hashes, and then moves their nodes. So their waits for memory overlap.
    fn apply_next_reads(&mut self) -> bool
        ensures turns { AppliesNextReads self.old.state result self.new.state }
        ensures kept { KeepsRoom self.old self.new }
    {
        let left = self.maintenance.reads_left();
        if left == 0 {
            return false;
        }
        let mut copy = [NO_READ; READS_AT_ONCE];
        let count = self.read_log.take_first(left, &mut copy);
        if count == 0 {
            return false;
        }
        let reads = &mut copy[..count];
        self.map.touch_all(reads);
        self.maintenance.apply_reads(reads);
        true
    }

    /// Takes the next write out of its log and applies it, if the next turn is to take one and there is one. Returns `true` if it did.
    fn apply_next_write(&mut self) -> bool
        ensures turns { AppliesNextWrite self.old.state result self.new.state }
        ensures kept { KeepsRoom self.old self.new }
    {
        let Some(write) = self.maintenance.take_write(&mut self.write_log) else {
            return false;
        };
        match write {
            Write::Upsert { ticket } => { self.map.turn_with_upsert(&mut self.maintenance, ticket) }
            Write::Remove { ticket } => self.maintenance.turn_with_removal::<K, V, S>(ticket),
        }
        true
    }
}
