//! The writes that a maintenance has taken out of their log and not applied yet.
ghost use Rattle.std.specs.Prelude.{◌≡◌, ◌==◌, [], take, drop, length, min, slice_get};

use crate::logs::WriteLog;
use moka_sync_model::operation::Write;
use moka_sync_model::ticket::Ticket;
use std::alloc::Allocator;
use std::marker::Model;

/// Writes that a maintenance takes at once, at most. To take the lock of their log costs about as much as to apply one, while other threads push.
const WRITES_AT_ONCE: usize = 16;

/// Fills slots to which no write was copied yet.
const NO_WRITE: Write = Write::Remove {
    ticket: Ticket { hash: 0, number: 0 },
};

/// The writes that were taken, the first one first.
#[derive(Drop)]
pub struct TakenWrites {
    writes: [Write; WRITES_AT_ONCE],
    /// Index of the first write.
    next: usize,
    /// Index after the last one.
    end: usize,
}

impl Model for TakenWrites {
    ghost use Rattle.std.specs.Prelude.{◌≡◌, ◌≤◌, List, take, drop, length};
    ghost use Rattle.moka_sync_model.specs.declared.operation.Write.{Write as WriteState};

    ghost Value = { List WriteState };

    ghost view = { λ t. drop t.next (take t.end t.writes) };

    ghost invariant = { λ t. (t.next ≤ t.end) × (t.end ≤ length t.writes) };
}

impl TakenWrites {
    /// Makes a batch of no writes.
    pub fn new() -> TakenWrites
        ensures { result ≡ [] }
    {
        TakenWrites {
            writes: [NO_WRITE; WRITES_AT_ONCE],
            next: 0,
            end: 0,
        }
    }

    /// Returns `true` if no taken write is left.
    pub fn is_empty(&self) -> bool
        ensures { result ≡ (length self.now == 0) }
    {
        self.next == self.end
    }

    /// Takes the first writes out of their log, up to `wanted` and up to 16. All that were taken before must be applied.
    pub fn take_batch<A: Allocator + Drop>(&mut self, log: &mut WriteLog<A>, wanted: usize)
        requires { self.old ≡ [] }
        ensures count { length self.new ≡ min (min wanted 16) (length log.old) }
        ensures taken { self.new ≡ take (length self.new) log.old }
        ensures rest { log.new ≡ drop (length self.new) log.old }
    {
        self.end = log.take_first(wanted, &mut self.writes);
        self.next = 0;
    }

    /// Takes the first write out of the batch, to be applied now.
    pub fn pop(&mut self) -> Option<Write>
        ensures value { result ≡ slice_get self.old 0 }
        ensures rest { self.new ≡ drop 1 self.old }
    {
        if self.is_empty() {
            return None;
        }
        let write = self.writes[self.next];
        self.next += 1;
        Some(write)
    }
}
