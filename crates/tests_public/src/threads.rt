// Threads that share a cache on a heap that refuses every seventh request.
use crate::plays::{Heap, at};
use mini_moka::common::{FixedState, InsertError, OutOfMemory, UnitWeight};
use mini_moka::sync::{AnyPair, Cache, ConcurrentCacheExt};
use std::alloc::Global;
use std::sync::Wait;
use std::test::Fail;
use std::thread::{Builder, Threads};
use tests_heap::{Refusals, RefusingHeap};

/// A value that names its key. Its clone takes memory.
type Named = Box<u64, Heap>;

type NamedCache = Cache<u64, Named, FixedState, AnyPair, UnitWeight, Heap>;

/// Inserts the value of a key. Whether it is done, where memory for the value was there, or nothing where that was refused.
fn insert<R: Wait>(
    rt: &R,
    heap: &Heap,
    cache: &NamedCache,
    key: u64,
) -> Option<Result<(), InsertError>> {
    let value = Box::new(heap.clone().ok()?, key).ok()?;
    Some(cache.insert(rt, key, value, at(0)))
}

/// Returns `true` if a value that was found names its key.
fn is_own(found: Result<Option<Named>, OutOfMemory>, key: u64) -> bool {
    match found {
        Ok(Some(value)) => *value == key,
        Ok(None) | Err(_) => true,
    }
}

/// Returns the number of pairs of a snapshot, or 0 if it is refused, and how many of their values don't name their key.
fn count_of<R: Wait>(rt: &R, cache: &NamedCache) -> (u64, u64) {
    let Ok(pairs) = cache.iter(rt, at(0)) else {
        return (0, 0);
    };
    let mut count = 0u64;
    let mut strange = 0u64;
    for pair in pairs {
        count = count.saturating_add(1);
        strange = strange.saturating_add(u64::from(**pair.value() != *pair.key()));
    }
    (count, strange)
}

/// Makes a call of a kind on a key. Whether it is answered rightly.
fn is_answered<R: Wait>(rt: &R, heap: &Heap, cache: &NamedCache, kind: u64, key: u64) -> bool {
    match kind {
        0..=6 => !matches!(
            insert(rt, heap, cache, key),
            Some(Err(InsertError::TicketsUsedUp))
        ),
        7 => {
            cache.invalidate(rt, &key, at(0));
            true
        }
        8 if key % 16 == 0 => count_of(rt, cache).1 == 0,
        9 if key % 16 == 0 => {
            cache.sync(rt, at(0));
            true
        }
        _ => is_own(cache.get(rt, &key, at(0)), key),
    }
}

/// Returns `true` if 25,000 calls of all kinds on a hundred keys are answered rightly.
fn are_answered<R: Wait>(rt: &R, heap: &Heap, cache: &NamedCache, seed: u64) -> bool {
    let mut number = seed;
    for _ in 0..25_000 {
        // Knuth's linear random numbers, of which the high bits are used.
        number = number
            .wrapping_mul(6_364_136_223_846_793_005)
            .wrapping_add(1_442_695_040_888_963_407);
        if !is_answered(rt, heap, cache, number >> 60, (number >> 32) % 100) {
            return false;
        }
    }
    true
}

/// Returns `true` if four threads are answered rightly by a cache that they share.
fn are_answered_by_threads<R: Wait + Threads + Copy + Send + 'static>(
    rt: R,
    alloc: Global,
    heap: &Heap,
    cache: &NamedCache,
) -> Result<bool, Fail> {
    let mut threads = Vec::new(alloc);
    for number in 0..4u64 {
        let (shared, heap) = (cache.clone()?, heap.clone()?);
        threads.push(Builder::new().spawn(&rt, move || {
            are_answered(&rt, &heap, &shared, number)
        })?)?;
    }
    let mut is_well = true;
    for thread in threads {
        is_well &= thread.join(&rt);
    }
    Ok(is_well)
}

/// Returns the counts of a cache after one maintenance with all memory, and what its snapshot has.
fn counts_of<R: Wait>(rt: &R, heap: &Heap, cache: &NamedCache) -> (u64, u64, (u64, u64)) {
    heap.refuse(Refusals::Never);
    cache.sync(rt, at(0));
    let pairs = count_of(rt, cache);
    (cache.entry_count(), cache.weighted_size(), pairs)
}

#[test]
fn no_value_is_wrong_while_requests_are_refused(rt: HostRuntime) -> Result<(), Fail> {
    let heap = RefusingHeap::new(rt.alloc(), rt.alloc(), Refusals::Never)?;
    let cache: NamedCache = Cache::new(heap.clone()?, 50)?;
    heap.refuse(Refusals::Every(7));
    assert!(rt; are_answered_by_threads(rt, rt.alloc(), &heap, &cache)?);
    assert!(rt; heap.refused() > 1000);
    let counts = counts_of(&rt, &heap, &cache);
    let count = counts.0;
    assert!(rt; 0 < count && count <= 50);
    assert_eq!(rt; counts, (count, count, (count, 0)));
    drop(cache);
    assert_eq!(rt; (heap.held_blocks(), heap.held_bytes()), (0, 0));
    Ok(())
}
