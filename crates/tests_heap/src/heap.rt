//! A heap over another one, which refuses and counts.
use crate::refusals::Refusals;
use crate::tally::Tally;
use std::alloc::{AllocError, Allocator, Global};

/// A heap that passes requests on to another one, but for those that it refuses.
///
/// Its clones share the counts and the refusals. A container that grows asks for a new block and gives the old one back.
#[derive(Drop)]
pub struct RefusingHeap<B: Allocator> {
    inner: B,
    tally: Tally,
}

impl<B: Allocator> RefusingHeap<B> {
    /// The counts are in a block of `alloc`, which is not counted.
    pub fn new(inner: B, alloc: Global, refusals: Refusals) -> Result<RefusingHeap<B>, AllocError> {
        let tally = Tally::new(alloc, refusals)?;
        Ok(RefusingHeap { inner, tally })
    }

    /// Refuses these from now on, and counts requests and refusals from 0. Blocks that are held stay counted.
    ///
    /// It is not one step: call it while no other thread asks for memory here.
    pub fn refuse(&self, refusals: Refusals) {
        self.tally.restart(refusals);
    }

    /// The requests since the last `refuse`, with those that were refused.
    pub fn asked(&self) -> u64 {
        self.tally.asked()
    }

    /// The requests since the last `refuse` that this heap refused. Those that the inner one refused are not in it.
    pub fn refused(&self) -> u64 {
        self.tally.refused()
    }

    /// The bytes of the blocks that were given out and did not come back.
    pub fn held_bytes(&self) -> u64 {
        self.tally.held_bytes()
    }

    /// The blocks that were given out and did not come back.
    pub fn held_blocks(&self) -> u64 {
        self.tally.held_blocks()
    }
}

impl<B: Allocator + Clone> Clone for RefusingHeap<B> {
    fn clone(&self) -> Result<RefusingHeap<B>, AllocError> {
        Ok(RefusingHeap {
            inner: self.inner.clone()?,
            tally: self.tally.clone()?,
        })
    }
}

unsafe impl<B: Allocator> Allocator for RefusingHeap<B> {
    ghost dealloc_token = { λ heap. B.dealloc_token heap.inner };

    fn allocate(&self, size: usize, align: usize) -> Result<*mut u8, AllocError> {
        if self.tally.refuses() {
            return Err(AllocError);
        }
        let answer = self.inner.allocate(size, align);
        match answer {
            Ok(_) => self.tally.hold(size),
            Err(_) => {}
        }
        answer
    }

    unsafe fn deallocate(&self, ptr: *mut u8, size: usize, align: usize) {
        self.tally.give_back(size);
        self.inner.deallocate(ptr, size, align);
    }
}
