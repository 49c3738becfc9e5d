// What all plays here share: each works on a heap that refuses, and names the first thing that is wrong.
use mini_moka::common::Shared;
use mini_moka::common::time::Instant;
use std::alloc::Global;
use tests_heap::RefusingHeap;

/// The heap of a play.
pub type Heap = RefusingHeap<Global>;

/// `Ok` if all was as it should be, or what was not.
pub type Play = Result<(), &'static str>;

/// More plays than any work here has requests.
pub const BOUND: u64 = 2000;

pub fn at(nanos: u64) -> Instant {
    Instant::from_nanos(nanos)
}

/// Returns what is wrong, if something is.
pub fn check(holds: bool, wrong: &'static str) -> Play {
    if holds { Ok(()) } else { Err(wrong) }
}

/// A key or a value of a core.
pub type HeapShared<'a> = Shared<u64, &'a Heap>;

/// A key and a value, which both take memory.
pub fn pair(heap: &Heap, key: u64, value: u64) -> Option<(HeapShared<'_>, HeapShared<'_>)> {
    Some((Shared::new(heap, key).ok()?, Shared::new(heap, value).ok()?))
}
