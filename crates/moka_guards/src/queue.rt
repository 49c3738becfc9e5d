//! The writes on their way from callers to the maintenance.
ghost use Rattle.std.specs.Prelude.{◌≡◌, ◌↔◌, ◌<◌, ◌++◌, ℕ, Bool, false, [], ◌∷◌, length, min, take, drop, IfOk, IsTrue, IsFalse};
ghost use Rattle.moka_common.specs.Settings.{Settings as SettingsState};
ghost use Rattle.moka_sync_model.specs.declared.constants.TheConstants.{WRITE_LOG_SIZE};
ghost use Rattle.moka_sync_model.specs.Parts.{NeedsWrites, TurnsWithWrites, need_of};
ghost use Rattle.moka_sync_model.specs.Turn.Turn.{turn_at};
ghost use Rattle.moka_guards.specs.WriteQueue.{on_their_way};

use moka_common::error::OutOfMemory;
use moka_maintenance::maintenance::Maintenance;
use moka_queues::logs::WriteLog;
use moka_queues::taken::TakenWrites;
use moka_sync_model::constants::WRITE_LOG_SIZE;
use moka_sync_model::operation::Write;
use std::alloc::{Allocator, Global};
use std::marker::Model;

/// The write log, with how many writes the maintenance has taken out of it together. They take room as if they were in it still, until it is known that
/// they are applied: so no more are on their way than the log can hold, as if each left it when its turn comes.
#[derive(Drop)]
pub struct WriteQueue<A: Allocator + Clone + Drop = Global> {
    log: WriteLog<A>,
    taken: usize,
}

impl<A: Allocator + Clone + Drop> Model for WriteQueue<A> {
    ghost use Rattle.std.specs.Prelude.{◌≤◌, ◌+◌, length};
    ghost use Rattle.moka_sync_model.specs.declared.constants.TheConstants.{WRITE_LOG_SIZE};
    ghost use Rattle.moka_guards.specs.WriteQueue.{WriteQueue as QueueState};

    ghost Value = { QueueState };

    ghost view = { λ q. record { log = q.log; taken = q.taken } };

    ghost invariant = { λ q. length q.log + q.taken ≤ WRITE_LOG_SIZE };
}

impl<A: Allocator + Clone + Drop> WriteQueue<A> {
    /// Makes an empty queue, with capacity for all that it will hold.
    pub(crate) fn new(alloc: A) -> Result<Self, OutOfMemory>
        ensures { IfOk result (λ queue. queue ≡ record { log = []; taken = 0 }) }
    {
        Ok(WriteQueue {
            log: WriteLog::new(alloc)?,
            taken: 0,
        })
    }

    /// Returns the number of writes that are on their way.
    pub fn len(&self) -> usize
        ensures { result ≡ on_their_way self.now }
    {
        self.log.len() + self.taken
    }

    /// Pushes a write. Returns `true` if there was space.
    pub(crate) fn push(&mut self, write: Write) -> bool
        ensures variant { IsTrue result ↔ (on_their_way self.old < WRITE_LOG_SIZE) }
        ensures pushed { IsTrue result → self.new ≡ record self.old { log = self.old.log ++ write ∷ [] } }
        ensures full { IsFalse result → self.new ≡ self.old }
    {
        if self.len() >= WRITE_LOG_SIZE {
            return false;
        }
        self.log.push(write).is_ok()
    }

    /// Takes the first writes out of the log, up to `wanted` and up to 16. All that were taken before must be applied.
    pub(crate) fn take_first(&mut self, wanted: usize, taken: &mut TakenWrites)
        requires { taken.old ≡ [] }
        ensures count { length taken.new ≡ min (min wanted 16) (length self.old.log) }
        ensures taken { taken.new ≡ take (length taken.new) self.old.log }
        ensures rest { self.new ≡ record { log = drop (length taken.new) self.old.log; taken = length taken.new } }
    {
        let before = self.log.len();
        taken.take_batch(&mut self.log, wanted);
        self.taken = before - self.log.len();
    }

    /// Notes that the writes that were taken are applied.
    pub(crate) fn note_applied(&mut self)
        ensures { self.new ≡ record self.old { taken = 0 } }
    {
        self.taken = 0;
    }

    /// Takes a turn of the maintenance that looks at the log, once it has applied all that it has taken.
    pub fn turn_with_writes<K: Drop, V: Drop, S: Drop>(&mut self, maintenance: &mut Maintenance<A>)
        requires { (settings : SettingsState S) × (valid_after : ℕ)
            × (need_of (turn_at {K = K} {V = V} settings valid_after false maintenance.old.phase maintenance.old) ≡ NeedsWrites) }
        ensures turn { (settings : SettingsState S) → (valid_after : ℕ)
            → TurnsWithWrites K V settings valid_after false maintenance.old maintenance.new self.old.log self.new.log }
        ensures applied { self.new.taken ≡ 0 }
    {
        self.note_applied();
        maintenance.turn_with_writes::<K, V, S>(&mut self.log);
        let _ = self.log.len();
    }
}
