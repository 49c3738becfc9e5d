// Calls of the cache with a listener.
use moka_common::error::InsertError;
use moka_common::hash::FixedState;
use moka_common::time::Instant;
use moka_unsync::cache::Cache;
use moka_unsync::notifying_cache::NotifyingCache;
use moka_unsync_model::listener::Statistics;
use std::alloc::Global;
use std::test::Fail;
use std::time::Duration;
use tests_heap::{RefusingHeap, for_each_refusal};

/// More plays than any work here has requests.
const BOUND: u64 = 50;

fn at(nanos: u64) -> Instant {
    Instant::from_nanos(nanos)
}

/// The counts as digits, in the order in which `Statistics` has them.
fn digits(counts: &Statistics) -> u64 {
    let mut digits = counts.size;
    for count in [
        counts.expired,
        counts.explicit,
        counts.replaced,
        counts.rejected,
    ] {
        digits = digits.wrapping_mul(10).wrapping_add(count);
    }
    digits
}

/// The keys 0 to 3 with their squares, each inserted a nanosecond after the one before it, of which an entry lives for ten.
fn squares(alloc: Global) -> Result<NotifyingCache<u64, u64, Statistics>, Fail> {
    let builder = Cache::builder(alloc).max_capacity(4);
    let mut cache = builder
        .time_to_live(Duration::from_nanos(10))
        .eviction_listener(Statistics::default())
        .build()?;
    for key in 0..4u64 {
        cache.insert(key, key * key, at(key))?;
    }
    Ok(cache)
}

// The removed 4 isn't counted, since the call returns it.
#[test]
fn a_notifying_cache_answers_as_a_cache(rt: HostRuntime) -> Result<(), Fail> {
    let mut cache = squares(rt.alloc())?;
    let found = [
        cache.get(&2, at(4)).copied(),
        cache.remove(&2, at(4)),
        cache.get(&2, at(4)).copied(),
        Some(cache.get_or_insert_with(2, at(4), || 5)?),
        Some(cache.get_or_insert_with(2, at(4), || 6)?),
    ];
    assert_eq!(rt; found, [Some(4), Some(4), None, Some(5), Some(5)]);
    assert_eq!(rt; digits(cache.listener()), 0);
    Ok(())
}

// The entry of 0 is over when its make fails, so it expires; 1 is over when its value is made.
#[test]
fn a_listener_gets_what_a_failed_make_finds_expired(rt: HostRuntime) -> Result<(), Fail> {
    let mut cache = squares(rt.alloc())?;
    let failed = cache.try_get_or_insert_with(0, at(10), || Err(()));
    assert_eq!(rt; (failed.is_err(), digits(cache.listener())), (true, 1000));
    let made = cache.try_get_or_insert_with(1, at(11), || Ok::<u64, ()>(8));
    assert_eq!(rt; (made, digits(cache.listener())), (Ok(8), 2000));
    Ok(())
}

// 3 gets another value, 0 and 2 are invalidated, 1 is over at 11, and 3 is left to the end.
#[test]
fn a_listener_counts_each_entry_that_leaves(rt: HostRuntime) -> Result<(), Fail> {
    let mut cache = squares(rt.alloc())?;
    cache.insert(3, 10, at(4))?;
    cache.invalidate(&0, at(4));
    cache.invalidate_entries_if(|_, value| *value == 4);
    let found = [
        cache.contains_key(&1, at(10)),
        cache.contains_key(&1, at(11)),
    ];
    assert_eq!(rt; (found, digits(cache.listener())), ([true, false], 1210));
    cache.invalidate_all();
    let (cache, counts) = cache.into_parts();
    assert_eq!(rt; (cache.entry_count(), digits(&counts)), (0, 1310));
    Ok(())
}

// The first write is of a later moment, so the other entries are expired at 15 and stay until calls come to them. The last insert replaces a live value.
#[test]
fn an_entry_that_was_expired_leaves_as_such(rt: HostRuntime) -> Result<(), Fail> {
    let builder = Cache::builder(rt.alloc()).time_to_live(Duration::from_nanos(10));
    let mut cache = builder.eviction_listener(Statistics::default()).build()?;
    cache.insert(0u64, 0u64, at(20))?;
    for key in 1..4u64 {
        cache.insert(key, key, at(5))?;
    }
    assert_eq!(rt;
        (cache.cache().entry_count(), digits(cache.listener())),
        (4, 0)
    );
    cache.insert(1, 7, at(15))?;
    cache.invalidate(&2, at(15));
    assert_eq!(rt; cache.remove(&3, at(15)), None);
    assert_eq!(rt;
        (cache.cache().entry_count(), digits(cache.listener())),
        (2, 3000)
    );
    cache.insert(1, 8, at(15))?;
    cache.invalidate(&0, at(15));
    assert_eq!(rt;
        (cache.cache().entry_count(), digits(cache.listener())),
        (1, 3110)
    );
    Ok(())
}

// 2 is written at an earlier moment than 1, and stands behind it. The second removal finds nothing.
#[test]
fn an_expired_entry_behind_an_unexpired_one_leaves_once(rt: HostRuntime) -> Result<(), Fail> {
    let builder = Cache::builder(rt.alloc()).time_to_live(Duration::from_secs(10));
    let mut cache = builder.eviction_listener(Statistics::default()).build()?;
    cache.insert(1u64, 1u64, Instant::from_secs(100))?;
    cache.insert(2, 4, at(0))?;
    let now = Instant::from_secs(50);
    cache.remove_expired(now);
    cache.remove_expired(now);
    let left = [
        cache.cache().peek(&1, now).copied(),
        cache.cache().peek(&2, at(0)).copied(),
    ];
    assert_eq!(rt; left, [Some(1), None]);
    assert_eq!(rt;
        (cache.cache().entry_count(), digits(cache.listener())),
        (1, 1000)
    );
    Ok(())
}

// With a hash state of its own. The first count is of the second value, the next one of the removal alone.
#[test]
fn a_listener_can_be_changed_between_calls(rt: HostRuntime) -> Result<(), Fail> {
    let mut cache = Cache::builder(rt.alloc())
        .max_capacity(1)
        .eviction_listener(Statistics::default())
        .build_with_hasher(FixedState::new())?;
    cache.insert(1u64, 1u64, at(0))?;
    cache.insert(1, 2, at(0))?;
    assert_eq!(rt; digits(cache.listener()), 10);
    *cache.listener_mut() = Statistics::default();
    cache.invalidate(&1, at(0));
    assert_eq!(rt; digits(cache.listener()), 100);
    assert_eq!(rt; cache.cache().policy().max_capacity(), Some(1));
    Ok(())
}

/// An insert on a heap that refuses is made or refused. The listener gets nothing.
fn play(heap: &RefusingHeap<Global>) -> Result<(), &'static str> {
    let builder = Cache::builder(heap).max_capacity(10);
    let Ok(mut cache) = builder.eviction_listener(Statistics::default()).build() else {
        return Ok(());
    };
    let answer = cache.insert(7u64, 49u64, at(0));
    let wanted = if heap.refused() == 0 {
        (Ok(()), 1, 0)
    } else {
        (Err(InsertError::OutOfMemory), 0, 0)
    };
    if (
        answer,
        cache.cache().entry_count(),
        digits(cache.listener()),
    ) == wanted
    {
        Ok(())
    } else {
        Err("an insert is made or refused, and nothing leaves")
    }
}

#[test]
fn a_refused_insert_gives_the_listener_nothing(rt: HostRuntime) -> Result<(), Fail> {
    let plays = for_each_refusal(rt.alloc(), rt.alloc(), BOUND, |heap| play(heap))?;
    assert!(rt; plays > 0);
    Ok(())
}
