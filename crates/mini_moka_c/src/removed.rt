//! Entries that left a cache: each is counted, and queued until the program drains it.
ghost use Rattle.std.specs.Prelude.{◌≡◌, IfOk};
ghost use Rattle.mini_moka_c.specs.Removed.{QueueKeepsItsCapacity, after_leaving, empty_queue, number_of, oldest, queued, without_oldest};

use crate::inserted::Inserted;
use crate::statistics::{Report, Statistics};
use circular_buffer::HeapCircularBuffer;
use moka_common::error::OutOfMemory;
use moka_unsync_model::listener::{Cause, Listener};
use std::alloc::Global;

/// An entry that left a cache, or never entered it.
#[derive(Drop)]
pub struct Removed<K, V> {
    pub key: K,
    pub value: V,
    pub cause: Cause,
}

/// Entries that left, oldest first. Its memory is reserved when it is made, so no call is refused memory for it.
#[derive(Drop)]
pub struct RemovedQueue<K, V> {
    pub kept: HeapCircularBuffer<Removed<K, V>>,
    /// Entries that left while the queue was full. It stays at `u64::MAX` once it has reached that.
    pub lost: u64,
}

impl<K: Drop, V: Drop> RemovedQueue<K, V> {
    /// Returns an empty queue of this capacity.
    pub fn with_capacity(alloc: Global, capacity: usize) -> Result<RemovedQueue<K, V>, OutOfMemory>
        ensures { IfOk result (λ queue. queue ≡ empty_queue capacity) }
    {
        Ok(RemovedQueue {
            kept: HeapCircularBuffer::with_capacity(alloc, capacity)?,
            lost: 0,
        })
    }

    /// Adds an entry that left. A full queue drops it and counts it as lost; one of capacity 0 drops it.
    pub(crate) fn add(&mut self, removed: Removed<K, V>)
        ensures { self.new ≡ queued self.old removed }
    {
        if self.kept.capacity() == 0 {
            return;
        }
        if self.kept.try_push_back(removed).is_err() {
            self.lost = self.lost.saturating_add(1);
        }
    }

    /// Takes the oldest entry.
    pub(crate) fn take(&mut self) -> Option<Removed<K, V>>
        ensures value { result ≡ oldest self.old }
        ensures rest { self.new ≡ without_oldest self.old }
    {
        self.kept.pop_front()
    }
}

/// The listener of a cache's calls: it counts what leaves, queues it, and finds the answer of an insert.
#[derive(Drop)]
pub struct Leaving<K, V> {
    pub statistics: Statistics,
    pub removed: RemovedQueue<K, V>,
    /// The answer of the last insert, or `Stored` within one until its entry is rejected.
    pub inserted: Inserted,
}

impl<K, V> Leaving<K, V> {
    /// Returns the counts for C.
    pub(crate) fn report(&self) -> Report
        ensures { result ≡ record { statistics = self.now.statistics; lost = self.now.removed.lost } }
    {
        Report {
            statistics: self.statistics,
            lost: self.removed.lost,
        }
    }
}

impl<K: Drop, V: Drop> Listener<K, V> for Leaving<K, V> {
    ghost hears = { λ old key value cause new. new ≡ after_leaving old key value cause };

    fn removed(&mut self, key: K, value: V, cause: Cause) {
        self.statistics.count_leaving(cause);
        self.inserted.hear(cause);
        self.removed.add(Removed { key, value, cause });
    }
}

/// The lengths of a removed entry's key and value, and its cause.
#[derive(Clone, Copy, Drop)]
pub struct Drained {
    pub key: usize,
    pub value: usize,
    pub cause: Cause,
}

/// Returns the number of a cause for C.
pub(crate) fn number_of(cause: Cause) -> u32
    ensures { result ≡ number_of cause }
{
    match cause {
        Cause::Size => 0,
        Cause::Expired => 1,
        Cause::Explicit => 2,
        Cause::Replaced => 3,
        Cause::Rejected => 4,
    }
}

/// A queue never keeps more entries than its capacity, which stays. A law is its function's clause: there is no code to call.
pub fn queue_keeps_its_capacity<K, V>()
    ensures { QueueKeepsItsCapacity K V }
{}
