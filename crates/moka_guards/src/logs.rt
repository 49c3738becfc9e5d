//! The two logs of a cache, each behind a lock of its own, with its published length in a word beside it, which callers read before they lock.
ghost use Rattle.std.specs.Prelude.{◌≡◌, ◌≤◌, [], length};

use crate::queue::WriteQueue;
use crate::waiting::{WRITE_BATCH, has_room, lock, lock_yielding};
use crossbeam_utils::CachePadded;
use moka_common::error::OutOfMemory;
use moka_queues::logs::{LoggedRead, ReadLog};
use moka_queues::taken::TakenWrites;
use moka_sync_model::constants::{FLUSH_POINT, READ_LOG_SIZE, WRITE_LOG_SIZE};
use moka_sync_model::operation::Write;
use std::alloc::{Allocator, Global};
use std::sync::atomic::{AtomicUsize, Ordering};
use std::sync::{Mutex, MutexGuard, Wait};

/// The write log behind its lock. The holder of the lock writes the word beside it, so both lie on one cache line.
#[derive(Drop)]
struct HintedQueue<A: Allocator + Clone + Drop> {
    /// The published length of the write log, as `publish_write_len` had it last.
    len: AtomicUsize,
    queue: Mutex<WriteQueue<A>>,
}

/// The logs. What threads write to lies on cache lines of its own. No contract speaks of what lies behind an unlocked lock, nor of the words beside
/// the logs.
#[derive(Drop)]
pub struct Logs<A: Allocator + Clone + Drop = Global> {
    read_log: CachePadded<Mutex<ReadLog<A>>>,
    /// The published length of the read log, as `publish_read_len` had it last. It seldom changes, so it lies apart from the lock, and its readers keep the
    /// cache line.
    reads: CachePadded<AtomicUsize>,
    writes: CachePadded<HintedQueue<A>>,
}

impl<A: Allocator + Clone + Drop> Logs<A> {
    /// Makes empty logs, with capacity for all that they will hold.
    pub fn new(alloc: &A) -> Result<Self, OutOfMemory> {
        let read_log = ReadLog::new(alloc.clone()?)?;
        let writes = HintedQueue {
            len: AtomicUsize::new(0),
            queue: Mutex::new(WriteQueue::new(alloc.clone()?)?),
        };
        Ok(Logs {
            read_log: CachePadded::new(Mutex::new(read_log)),
            reads: CachePadded::new(AtomicUsize::new(0)),
            writes: CachePadded::new(writes),
        })
    }

    /// Returns the published length of the read log: its capacity, the flush point, or 0. It is one load.
    pub fn reads(&self) -> usize {
        self.reads.load(Ordering::Acquire)
    }

    /// Returns the published number of writes that are on their way, a multiple of `WRITE_BATCH`.
    pub fn writes(&self) -> usize {
        self.writes.len.load(Ordering::Acquire)
    }

    /// Locks the read log. Before it is unlocked, `publish_read_len` must get its length.
    #[inline]
    pub fn lock_reads<R: Wait>(&self, rt: &R) -> MutexGuard<'_, ReadLog<A>> {
        lock(rt, &self.read_log)
    }

    /// Locks the write log. Before it is unlocked, `publish_write_len` must get its length.
    #[inline]
    pub fn lock_writes<R: Wait>(&self, rt: &R) -> MutexGuard<'_, WriteQueue<A>> {
        lock(rt, &self.writes.queue)
    }

    /// Publishes the length of the read log: its capacity, the flush point or 0, since callers need no more. It stores only a value that differs: a store takes
    /// the cache line from all who read it.
    pub fn publish_read_len(&self, len: usize) {
        let published = if len >= READ_LOG_SIZE {
            READ_LOG_SIZE
        } else if len >= FLUSH_POINT {
            FLUSH_POINT
        } else {
            0
        };
        if self.reads.load(Ordering::Acquire) != published {
            self.reads.store(published, Ordering::Release);
        }
    }

    /// Publishes how many writes are on their way, as a multiple of `WRITE_BATCH`. Callers ask by it if the log is full, has reached the flush point, or has
    /// space for so many. Only a value that differs is stored, since a store is an exchange here.
    pub fn publish_write_len(&self, len: usize) {
        let published = len - len % WRITE_BATCH;
        if self.writes.len.load(Ordering::Acquire) != published {
            self.writes.len.store(published, Ordering::Release);
        }
    }

    /// Pushes a read to its log, and returns `true` if there was space. A log that is full by its published length isn't locked.
    pub fn push_read<R: Wait>(&self, rt: &R, logged: LoggedRead) -> bool {
        if self.reads.load(Ordering::Acquire) >= READ_LOG_SIZE {
            return false;
        }
        let mut log = lock(rt, &self.read_log);
        let is_pushed = log.push_logged(logged).is_ok();
        self.publish_read_len(log.len());
        is_pushed
    }

    /// Takes the first reads into a slice: the least of what there is, what it holds and what is wanted. Returns their number. Callers that push reads get
    /// the lock first.
    pub fn take_reads<R: Wait>(&self, rt: &R, wanted: usize, reads: &mut [LoggedRead]) -> usize
        ensures wanted { result ≤ wanted }
        ensures held { result ≤ length reads.old }
        ensures same { length reads.new ≡ length reads.old }
    {
        let mut log = lock_yielding(rt, &self.read_log);
        let count = log.take_first(wanted, reads);
        self.publish_read_len(log.len());
        count
    }

    /// Pushes a write to its log, and returns `true` if there was space. While the log is full by its published length, the writer waits for a while, without
    /// the lock.
    pub fn push_write<R: Wait>(&self, rt: &R, write: Write) -> bool {
        if !has_room(&self.writes.len, WRITE_LOG_SIZE) {
            return false;
        }
        let mut queue = self.lock_writes(rt);
        let is_pushed = queue.push(write);
        self.publish_write_len(queue.len());
        is_pushed
    }

    /// Takes the first writes, once those taken before are applied. It takes the least of what there is, what is wanted and what can be taken at once.
    pub fn take_writes<R: Wait>(&self, rt: &R, wanted: usize, taken: &mut TakenWrites)
        requires { taken.old ≡ [] }
        ensures { length taken.new ≤ wanted }
    {
        let mut queue = self.lock_writes(rt);
        queue.take_first(wanted, taken);
        self.publish_write_len(queue.len());
    }

    /// Notes that the writes that were taken are applied. They no longer count against the capacity.
    pub fn note_applied<R: Wait>(&self, rt: &R) {
        let mut queue = self.lock_writes(rt);
        queue.note_applied();
        self.publish_write_len(queue.len());
    }
}
