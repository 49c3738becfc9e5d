// What a heap counts, in words that its clones share.
use crate::refusals::{Range, Refusals};
use std::alloc::{AllocError, Global};
use std::sync::Arc;
use std::sync::atomic::{AtomicU64, Ordering};

/// A handle to the counts of a heap.
#[derive(Clone, Drop)]
pub(crate) struct Tally {
    counts: Arc<Counts, Global>,
}

#[derive(Drop)]
struct Counts {
    first: AtomicU64,
    last: AtomicU64,
    step: AtomicU64,
    asked: AtomicU64,
    refused: AtomicU64,
    held_bytes: AtomicU64,
    held_blocks: AtomicU64,
}

impl Tally {
    pub(crate) fn new(alloc: Global, refusals: Refusals) -> Result<Tally, AllocError> {
        let Range { first, last, step } = refusals.range();
        let counts = Counts {
            first: AtomicU64::new(first),
            last: AtomicU64::new(last),
            step: AtomicU64::new(step),
            asked: AtomicU64::new(0),
            refused: AtomicU64::new(0),
            held_bytes: AtomicU64::new(0),
            held_blocks: AtomicU64::new(0),
        };
        Ok(Tally {
            counts: Arc::new(alloc, counts)?,
        })
    }

    /// Refuses these from now on. The next request is the first.
    pub(crate) fn restart(&self, refusals: Refusals) {
        let Range { first, last, step } = refusals.range();
        self.counts.first.store(first, Ordering::Relaxed);
        self.counts.last.store(last, Ordering::Relaxed);
        self.counts.step.store(step, Ordering::Relaxed);
        self.counts.asked.store(0, Ordering::Relaxed);
        self.counts.refused.store(0, Ordering::Relaxed);
    }

    /// Counts a request, and says whether it is refused.
    pub(crate) fn refuses(&self) -> bool {
        let request = self
            .counts
            .asked
            .fetch_add(1, Ordering::Relaxed)
            .wrapping_add(1);
        let range = Range {
            first: self.counts.first.load(Ordering::Relaxed),
            last: self.counts.last.load(Ordering::Relaxed),
            step: self.counts.step.load(Ordering::Relaxed),
        };
        let is_refused = range.contains(request);
        if is_refused {
            self.counts.refused.fetch_add(1, Ordering::Relaxed);
        }
        is_refused
    }

    /// Counts a block that was given out.
    pub(crate) fn hold(&self, size: usize) {
        self.counts
            .held_bytes
            .fetch_add(size as u64, Ordering::Relaxed);
        self.counts.held_blocks.fetch_add(1, Ordering::Relaxed);
    }

    /// Counts a block that comes back.
    pub(crate) fn give_back(&self, size: usize) {
        self.counts
            .held_bytes
            .fetch_sub(size as u64, Ordering::Relaxed);
        self.counts.held_blocks.fetch_sub(1, Ordering::Relaxed);
    }

    pub(crate) fn asked(&self) -> u64 {
        self.counts.asked.load(Ordering::Relaxed)
    }

    pub(crate) fn refused(&self) -> u64 {
        self.counts.refused.load(Ordering::Relaxed)
    }

    pub(crate) fn held_bytes(&self) -> u64 {
        self.counts.held_bytes.load(Ordering::Relaxed)
    }

    pub(crate) fn held_blocks(&self) -> u64 {
        self.counts.held_blocks.load(Ordering::Relaxed)
    }
}
