// Inserts with a time to live of their own.
use moka_common::time::Instant;
use moka_segments::cache::SegmentedCache;
use moka_unsync::cache::Cache;
use moka_unsync::error::TimedInsertError;
use moka_unsync_model::listener::Statistics;
use std::alloc::Global;
use std::sync::Wait;
use std::test::Fail;
use std::time::Duration;
use tests_heap::{RefusingHeap, for_each_refusal};

/// More plays than any work here has requests.
const BOUND: u64 = 50;

/// A time to live of five nanoseconds.
fn five() -> Duration {
    Duration::from_nanos(5)
}

fn at(nanos: u64) -> Instant {
    Instant::from_nanos(nanos)
}

/// A cache of numbers, of which an entry lives for ten nanoseconds.
fn numbers(alloc: Global) -> Result<Cache<u64, u64>, Fail> {
    let builder = Cache::builder(alloc).max_capacity(100);
    Ok(builder.time_to_live(Duration::from_nanos(10)).build()?)
}

/// Returns `true` if a peek finds the key.
fn is_there(cache: &Cache<u64, u64>, key: u64, nanos: u64) -> bool {
    cache.peek(&key, at(nanos)).is_some()
}

// Its own counts where it is shorter, and the cache's where that is. The last nanosecond of either is the first at which the entry is expired.
#[test]
fn an_entry_expires_at_its_deadline(rt: HostRuntime) -> Result<(), Fail> {
    let mut cache = numbers(rt.alloc())?;
    cache.insert_with_time_to_live(1, 10, five(), at(100))?;
    cache.insert_with_time_to_live(2, 20, Duration::from_nanos(50), at(100))?;
    cache.insert(3, 30, at(100))?;
    assert_eq!(rt;
        [
            is_there(&cache, 1, 0),
            is_there(&cache, 1, 100),
            is_there(&cache, 1, 104),
            is_there(&cache, 1, 105)
        ],
        [true, true, true, false]
    );
    assert_eq!(rt;
        [
            is_there(&cache, 2, 0),
            is_there(&cache, 2, 109),
            is_there(&cache, 2, 110),
            is_there(&cache, 2, 150)
        ],
        [true, true, false, false]
    );
    assert_eq!(rt;
        [
            is_there(&cache, 3, 0),
            is_there(&cache, 3, 109),
            is_there(&cache, 3, 110),
            is_there(&cache, 3, 111)
        ],
        [true, true, false, false]
    );
    assert_eq!(rt; cache.get(&1, at(104)).copied(), Some(10));
    assert_eq!(rt; cache.get(&1, at(105)).copied(), None);
    Ok(())
}

// An update has the deadline of its own insert: without a time to live of its own the cache's.
#[test]
fn an_update_gets_a_new_deadline(rt: HostRuntime) -> Result<(), Fail> {
    let mut cache = numbers(rt.alloc())?;
    cache.insert_with_time_to_live(1, 10, five(), at(0))?;
    cache.insert(1, 11, at(0))?;
    assert_eq!(rt;
        [
            is_there(&cache, 1, 5),
            is_there(&cache, 1, 9),
            is_there(&cache, 1, 10)
        ],
        [true, true, false]
    );
    cache.insert_with_time_to_live(1, 12, five(), at(4))?;
    assert_eq!(rt;
        [
            is_there(&cache, 1, 8),
            is_there(&cache, 1, 9),
            is_there(&cache, 1, 10)
        ],
        [true, false, false]
    );
    cache.insert_with_time_to_live(1, 13, Duration::from_nanos(0), at(4))?;
    assert_eq!(rt;
        [
            is_there(&cache, 1, 3),
            is_there(&cache, 1, 4),
            is_there(&cache, 1, 5)
        ],
        [true, false, false]
    );
    Ok(())
}

// Key 2 is expired behind key 1, which was written before it and isn't: it is freed once the front has left.
#[test]
fn memory_is_freed_in_the_order_of_writing(rt: HostRuntime) -> Result<(), Fail> {
    let mut cache = numbers(rt.alloc())?;
    cache.insert(1, 10, at(0))?;
    cache.insert_with_time_to_live(2, 20, five(), at(1))?;
    assert_eq!(rt;
        (cache.contains_key(&2, at(9)), cache.entry_count()),
        (false, 2)
    );
    assert_eq!(rt;
        (cache.contains_key(&2, at(10)), cache.entry_count()),
        (false, 0)
    );
    Ok(())
}

// No moment comes after the last one, so a deadline that would never comes.
#[test]
fn a_deadline_after_the_last_moment_never_comes(rt: HostRuntime) -> Result<(), Fail> {
    let mut cache = numbers(rt.alloc())?;
    let written = at(u64::MAX - 1);
    cache.insert(1, 10, written)?;
    cache.insert_with_time_to_live(2, 20, Duration::from_nanos(1), written)?;
    cache.insert_with_time_to_live(3, 30, Duration::from_nanos(2), written)?;
    let found = [
        is_there(&cache, 1, u64::MAX),
        is_there(&cache, 2, u64::MAX - 1),
        is_there(&cache, 2, u64::MAX),
        is_there(&cache, 3, u64::MAX),
    ];
    assert_eq!(rt; found, [true, true, false, true]);
    Ok(())
}

#[test]
fn a_cache_without_a_time_to_live_refuses(rt: HostRuntime) -> Result<(), Fail> {
    let builder = Cache::builder(rt.alloc()).max_capacity(100);
    let mut cache: Cache<u64, u64> = builder.time_to_idle(Duration::from_nanos(10)).build()?;
    cache.insert(1, 10, at(0))?;
    let refused = cache.insert_with_time_to_live(1, 11, five(), at(10));
    assert_eq!(rt; refused, Err(TimedInsertError::NoTimeToLive));
    assert_eq!(rt;
        (cache.entry_count(), cache.peek(&1, at(9)).copied()),
        (1, Some(10))
    );
    Ok(())
}

// The listener hears of the replaced value as expired if its own time has passed, and else as replaced.
#[test]
fn a_listener_hears_of_deadlines(rt: HostRuntime) -> Result<(), Fail> {
    let mut cache = numbers(rt.alloc())?.with_listener(Statistics::default());
    cache.insert(1, 10, at(0))?;
    cache.insert_with_time_to_live(2, 20, five(), at(0))?;
    cache.insert_with_time_to_live(2, 21, five(), at(4))?;
    assert_eq!(rt;
        (cache.listener().replaced, cache.listener().expired),
        (1, 0)
    );
    cache.insert_with_time_to_live(2, 22, five(), at(9))?;
    assert_eq!(rt;
        (cache.listener().replaced, cache.listener().expired),
        (1, 1)
    );
    cache.invalidate(&2, at(14));
    assert_eq!(rt;
        (cache.listener().explicit, cache.listener().expired),
        (0, 3)
    );
    Ok(())
}

/// An insert on a heap that refuses is made, or is refused and changes nothing.
fn play(heap: &RefusingHeap<Global>) -> Result<(), &'static str> {
    let builder = Cache::builder(heap).max_capacity(10);
    let Ok(mut cache) = builder.time_to_live(Duration::from_nanos(10)).build() else {
        return Ok(());
    };
    let answer = cache.insert_with_time_to_live(7u64, 49u64, five(), at(0));
    let wanted = if heap.refused() == 0 {
        (Ok(()), 1)
    } else {
        (Err(TimedInsertError::OutOfMemory), 0)
    };
    if (answer, cache.entry_count()) == wanted {
        Ok(())
    } else {
        Err("an insert is made or refused")
    }
}

#[test]
fn a_refused_insert_with_a_time_to_live_changes_nothing(rt: HostRuntime) -> Result<(), Fail> {
    let plays = for_each_refusal(rt.alloc(), rt.alloc(), BOUND, |heap| play(heap))?;
    assert!(rt; plays > 0);
    Ok(())
}

/// The answers to a session and a guest for keys with deadlines of their own, at their last nanosecond and after it.
fn found_in_segments<R: Wait>(rt: &R, alloc: Global) -> Result<[Option<u64>; 4], Fail> {
    let builder = SegmentedCache::builder(alloc)
        .max_capacity(100)
        .num_segments(4);
    let cache: SegmentedCache<u64, u64> = builder.time_to_live(Duration::from_nanos(10)).build()?;
    let mut session = cache.session()?;
    session.insert_with_time_to_live(rt, 1, 10, five(), at(0))?;
    cache.insert_with_time_to_live(rt, 2, 20, Duration::from_nanos(50), at(0))?;
    Ok([
        cache.get(rt, &1, at(4))?,
        session.get(rt, &1, at(5))?,
        session.get(rt, &2, at(9))?,
        cache.get(rt, &2, at(10))?,
    ])
}

/// The refusals of a cache of segments without a time to live, and its number of entries.
fn refused_in_segments<R: Wait>(
    rt: &R,
    alloc: Global,
) -> Result<([Result<(), TimedInsertError>; 2], u64), Fail> {
    let builder = SegmentedCache::builder(alloc)
        .max_capacity(100)
        .num_segments(4);
    let cache: SegmentedCache<u64, u64> = builder.build()?;
    let mut session = cache.session()?;
    let refused = [
        session.insert_with_time_to_live(rt, 1, 10, five(), at(0)),
        cache.insert_with_time_to_live(rt, 2, 20, five(), at(0)),
    ];
    Ok((refused, cache.entry_count(rt)))
}

#[test]
fn segments_keep_deadlines(rt: HostRuntime) -> Result<(), Fail> {
    let found = found_in_segments(&rt, rt.alloc())?;
    assert_eq!(rt; found, [Some(10), None, Some(20), None]);
    let refused = [Err(TimedInsertError::NoTimeToLive); 2];
    assert_eq!(rt; refused_in_segments(&rt, rt.alloc())?, (refused, 0));
    Ok(())
}

/// The entries of a cache of segments before and after a session removes what is expired, and what its listener got.
fn left_in_segments<R: Wait>(rt: &R, alloc: Global) -> Result<(u64, u64, u64, u64), Fail> {
    let builder = SegmentedCache::builder(alloc)
        .max_capacity(100)
        .num_segments(4);
    let cache: SegmentedCache<u64, u64> = builder.time_to_live(Duration::from_nanos(10)).build()?;
    let mut session = cache.session()?.with_listener(Statistics::default());
    for key in 0..8u64 {
        session.insert(rt, key, key, at(0))?;
        session.insert_with_time_to_live(rt, key.saturating_add(100), key, five(), at(0))?;
    }
    cache.remove_expired(rt, at(4));
    let before = cache.entry_count(rt);
    session.remove_expired(rt, at(5));
    let after = cache.entry_count(rt);
    Ok((
        before,
        after,
        session.listener().expired,
        session.listener().explicit,
    ))
}

#[test]
fn segments_remove_what_is_expired(rt: HostRuntime) -> Result<(), Fail> {
    assert_eq!(rt; left_in_segments(&rt, rt.alloc())?, (16, 8, 8, 0));
    Ok(())
}
