//! The two logs, in which callers leave what the maintenance is to do. Each lies in a ring whose memory is taken once.
ghost use Rattle.std.specs.Prelude.{◌≡◌, ◌↔◌, ◌<◌, ◌≤◌, ◌++◌, [], ◌∷◌, length, map, min, take, drop, slice_get, IfOk, IfErr, OnOk, OnErr, IsOk};
ghost use Rattle.moka_sync_model.specs.declared.constants.TheConstants.{READ_LOG_SIZE, WRITE_LOG_SIZE};

use circular_buffer::HeapCircularBuffer;
use moka_common::error::OutOfMemory;
use moka_sync_model::constants::{READ_LOG_SIZE, WRITE_LOG_SIZE};
pub use moka_sync_model::operation::{Read, Write};
use std::alloc::{Allocator, Global};
use std::marker::Model;

/// Reads that a maintenance takes and applies at once, at most. Each of them waits for memory, and so they wait together.
pub const READS_AT_ONCE: usize = 16;

/// A read, with a hint for a hit: the likely slot of its entry, and after that was touched, the likely place of its node.
#[derive(Clone, Copy, Debug)]
pub struct LoggedRead {
    pub read: Read,
    pub hint: usize,
}

/// Fills slots to which no read was copied yet.
pub const NO_READ: LoggedRead = LoggedRead {
    read: Read::Miss { hash: 0 },
    hint: 0,
};

/// The reads that are to be applied, the first one first.
#[derive(Drop)]
pub struct ReadLog<A: Allocator + Drop = Global> {
    reads: HeapCircularBuffer<LoggedRead, A>,
}

impl<A: Allocator + Drop> Model for ReadLog<A> {
    ghost use Rattle.std.specs.Prelude.{◌≡◌, List, map};
    ghost use Rattle.moka_sync_model.specs.declared.constants.TheConstants.{READ_LOG_SIZE};
    ghost use Rattle.moka_sync_model.specs.declared.operation.Read.{Read as ReadState};

    ghost Value = { List ReadState };

    ghost view = { λ log. map (λ l. l.read) log.reads.items };

    ghost invariant = { λ log. log.reads.capacity ≡ READ_LOG_SIZE };
}

impl<A: Allocator + Drop> ReadLog<A> {
    /// Makes an empty log, with capacity for all that it will hold.
    pub fn new(alloc: A) -> Result<ReadLog<A>, OutOfMemory>
        ensures { IfOk result (λ log. log ≡ []) }
    {
        Ok(ReadLog {
            reads: HeapCircularBuffer::with_capacity(alloc, READ_LOG_SIZE)?,
        })
    }

    /// Returns the number of reads.
    pub fn len(&self) -> usize
        ensures len { result ≡ length self.now }
        ensures within { result ≤ READ_LOG_SIZE }
    {
        self.reads.len()
    }

    /// Pushes a read. A full log hands it back.
    pub fn push(&mut self, read: Read) -> Result<(), Read>
        ensures variant { IsOk result ↔ (length self.old < READ_LOG_SIZE) }
        ensures ok { OnOk result (self.new ≡ self.old ++ read ∷ []) }
        ensures err { OnErr result (self.new ≡ self.old) }
        ensures value_returned { IfErr result (λ back. back ≡ read) }
    {
        self.push_logged(LoggedRead { read, hint: 0 })
    }

    /// Pushes a read with its hint, as `push` does.
    pub fn push_logged(&mut self, logged: LoggedRead) -> Result<(), Read>
        ensures variant { IsOk result ↔ (length self.old < READ_LOG_SIZE) }
        ensures ok { OnOk result (self.new ≡ self.old ++ logged.read ∷ []) }
        ensures err { OnErr result (self.new ≡ self.old) }
        ensures value_returned { IfErr result (λ back. back ≡ logged.read) }
    {
        match self.reads.try_push_back(logged) {
            Ok(()) => Ok(()),
            Err(back) => Err(back.read),
        }
    }

    /// Takes the first read.
    pub fn pop(&mut self) -> Option<Read>
        ensures value { result ≡ slice_get self.old 0 }
        ensures rest { self.new ≡ drop 1 self.old }
    {
        let logged = self.reads.pop_front()?;
        Some(logged.read)
    }

    /// Takes the first reads into a slice: the least of what there is, what it holds and what is wanted. Returns their number.
    pub fn take_first(&mut self, wanted: usize, reads: &mut [LoggedRead]) -> usize
        ensures count { result ≡ min (min wanted (length reads.old)) (length self.old) }
        ensures reads { map (λ l. l.read) (take result reads.new) ≡ take result self.old }
        ensures same { length reads.new ≡ length reads.old }
        ensures rest { self.new ≡ drop result self.old }
    {
        let wanted = wanted.min(reads.len());
        self.reads.read_into(&mut reads[..wanted])
    }
}

/// The writes that are to be applied, the first one first.
#[derive(Drop)]
pub struct WriteLog<A: Allocator + Drop = Global> {
    writes: HeapCircularBuffer<Write, A>,
}

impl<A: Allocator + Drop> Model for WriteLog<A> {
    ghost use Rattle.std.specs.Prelude.{◌≡◌, List};
    ghost use Rattle.moka_sync_model.specs.declared.constants.TheConstants.{WRITE_LOG_SIZE};
    ghost use Rattle.moka_sync_model.specs.declared.operation.Write.{Write as WriteState};

    ghost Value = { List WriteState };

    ghost view = { λ log. log.writes.items };

    ghost invariant = { λ log. log.writes.capacity ≡ WRITE_LOG_SIZE };
}

impl<A: Allocator + Drop> WriteLog<A> {
    /// Makes an empty log, with capacity for all that it will hold.
    pub fn new(alloc: A) -> Result<WriteLog<A>, OutOfMemory>
        ensures { IfOk result (λ log. log ≡ []) }
    {
        Ok(WriteLog {
            writes: HeapCircularBuffer::with_capacity(alloc, WRITE_LOG_SIZE)?,
        })
    }

    /// Returns the number of writes.
    pub fn len(&self) -> usize
        ensures len { result ≡ length self.now }
        ensures within { result ≤ WRITE_LOG_SIZE }
    {
        self.writes.len()
    }

    /// Pushes a write. A full log hands it back.
    pub fn push(&mut self, write: Write) -> Result<(), Write>
        ensures variant { IsOk result ↔ (length self.old < WRITE_LOG_SIZE) }
        ensures ok { OnOk result (self.new ≡ self.old ++ write ∷ []) }
        ensures err { OnErr result (self.new ≡ self.old) }
        ensures value_returned { IfErr result (λ back. back ≡ write) }
    {
        self.writes.try_push_back(write)
    }

    /// Takes the first writes into a slice: the least of what there is, what it holds and what is wanted. Returns their number.
    pub fn take_first(&mut self, wanted: usize, writes: &mut [Write]) -> usize
        ensures count { result ≡ min (min wanted (length writes.old)) (length self.old) }
        ensures writes { take result writes.new ≡ take result self.old }
        ensures same { length writes.new ≡ length writes.old }
        ensures rest { self.new ≡ drop result self.old }
    {
        let wanted = wanted.min(writes.len());
        self.writes.read_into(&mut writes[..wanted])
    }

    /// Takes the first write.
    pub fn pop(&mut self) -> Option<Write>
        ensures value { result ≡ slice_get self.old 0 }
        ensures rest { self.new ≡ drop 1 self.old }
    {
        self.writes.pop_front()
    }
}
