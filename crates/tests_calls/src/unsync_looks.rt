// Calls of the cache for one thread that no script makes: a peek, a get or insert, a step of a walk, a look at all entries, and a modification with a listener.
use moka_common::error::InsertError;
use moka_common::time::Instant;
use moka_unsync::cache::Cache;
use moka_unsync::error::TryInsertError;
use moka_unsync_model::listener::Statistics;
use std::alloc::Global;
use std::cell::Cell;
use std::test::Fail;
use std::time::Duration;
use tests_heap::{RefusingHeap, for_each_refusal};

/// More plays than any work here has requests.
const BOUND: u64 = 50;

fn at(nanos: u64) -> Instant {
    Instant::from_nanos(nanos)
}

/// The keys 0 to 3 with their squares, each inserted a nanosecond after the one before it, of which an entry lives for ten.
fn squares(alloc: Global) -> Result<Cache<u64, u64>, Fail> {
    let builder = Cache::builder(alloc).max_capacity(4);
    let mut cache = builder.time_to_live(Duration::from_nanos(10)).build()?;
    for key in 0..4u64 {
        cache.insert(key, key * key, at(key))?;
    }
    Ok(cache)
}

/// The keys that a walk meets at a moment from a key on, as a digit each.
fn walked(cache: &Cache<u64, u64>, from: u64, now: Instant) -> u64 {
    let mut digits = 0u64;
    let mut key = from;
    for _ in 0..4 {
        let Some((next, _)) = cache.next_after(&key, now) else {
            break;
        };
        digits = digits.wrapping_mul(10).wrapping_add(*next);
        key = *next;
    }
    digits
}

// 0 is used last. At 11 the keys 0 and 1 are over, and nothing has removed them.
#[test]
fn a_walk_goes_on_from_a_key(rt: HostRuntime) -> Result<(), Fail> {
    let mut cache = squares(rt.alloc())?;
    let _ = cache.get(&0, at(4));
    let found = [
        walked(&cache, 1, at(4)),
        walked(&cache, 3, at(4)),
        walked(&cache, 0, at(4)),
        walked(&cache, 7, at(4)),
        walked(&cache, 1, at(11)),
        cache.entry_count(),
    ];
    assert_eq!(rt; found, [230, 0, 0, 0, 23, 4]);
    Ok(())
}

// The key 9 is as popular as none after two peeks, so it is rejected; a get makes it more popular than 0. An entry that is over is not seen, and stays.
#[test]
fn a_peek_changes_nothing(rt: HostRuntime) -> Result<(), Fail> {
    let mut cache = squares(rt.alloc())?;
    let seen = [
        cache.peek(&3, at(4)).copied(),
        cache.peek(&9, at(4)).copied(),
        cache.peek(&9, at(4)).copied(),
        cache.peek(&0, at(10)).copied(),
    ];
    assert_eq!(rt;
        (seen, cache.entry_count()),
        ([Some(9), None, None, None], 4)
    );
    cache.insert(9, 81, at(4))?;
    assert_eq!(rt; cache.peek(&9, at(4)).copied(), None);
    let _ = cache.get(&9, at(4));
    cache.insert(9, 81, at(4))?;
    assert_eq!(rt;
        (
            cache.peek(&9, at(4)).copied(),
            cache.peek(&0, at(4)).copied()
        ),
        (Some(81), None)
    );
    Ok(())
}

// What is made for 9 is answered, though its entry is rejected: it is asked for as often as 3, which would have to leave.
#[test]
fn a_get_or_insert_makes_what_is_not_there(rt: HostRuntime) -> Result<(), Fail> {
    let mut cache = squares(rt.alloc())?;
    let _ = cache.get(&0, at(4));
    let found = [
        cache.get_or_insert_with(3, at(4), || 0)?,
        cache.get_or_insert_with(0, at(10), || 100)?,
        cache.get_or_insert_with(0, at(10), || 101)?,
    ];
    assert_eq!(rt; found, [9, 100, 100]);
    let _ = cache.get(&1, at(10));
    let _ = cache.get(&2, at(10));
    let made = cache.get_or_insert_with(9, at(10), || 81)?;
    assert_eq!(rt;
        (made, cache.contains_key(&9, at(10)), cache.entry_count()),
        (81, false, 4)
    );
    Ok(())
}

#[test]
fn a_get_or_insert_makes_nothing_at_a_hit(rt: HostRuntime) -> Result<(), Fail> {
    let mut cache = squares(rt.alloc())?;
    let calls = Cell::new(0u64);
    let make = || {
        calls.set(calls.get().wrapping_add(1));
        100
    };
    let found = [
        cache.get_or_insert_with(3, at(4), &make)?,
        cache.get_or_insert_with(0, at(10), &make)?,
        cache.get_or_insert_with(0, at(10), &make)?,
    ];
    assert_eq!(rt; (found, calls.get()), ([9, 100, 100], 1));
    Ok(())
}

// Counting begins when the cache is half full. A look and a peek count nothing, and an absent key is counted too.
#[test]
fn a_key_is_as_popular_as_it_was_asked_for(rt: HostRuntime) -> Result<(), Fail> {
    let mut young: Cache<u64, u64> = Cache::new(rt.alloc(), 100)?;
    let _ = young.get(&0, at(0));
    let mut cache = squares(rt.alloc())?;
    for key in [0, 0, 0, 9] {
        let _ = cache.get(&key, at(4));
    }
    let _ = (cache.contains_key(&1, at(4)), cache.peek(&1, at(4)));
    let found = [0, 1, 9].map(|key| cache.popularity(&key));
    assert_eq!(rt; (young.popularity(&0), found), (0, [3, 0, 1]));
    Ok(())
}

// A failed make leaves no entry. Then the value is made, and its entry is admitted in place of that of 0, for which nobody has asked.
#[test]
fn a_failed_make_inserts_nothing(rt: HostRuntime) -> Result<(), Fail> {
    let mut cache = squares(rt.alloc())?;
    let found = [
        cache.try_get_or_insert_with(3, at(4), || Err("not asked")),
        cache.try_get_or_insert_with(9, at(4), || Err("no square")),
    ];
    assert_eq!(rt; found, [Ok(9), Err(TryInsertError::Make("no square"))]);
    assert_eq!(rt;
        (cache.contains_key(&9, at(4)), cache.entry_count()),
        (false, 4)
    );
    let made = cache.try_get_or_insert_with(9, at(4), || Ok::<u64, &str>(81));
    let again = cache.try_get_or_insert_with(9, at(4), || Err("made before"));
    assert_eq!(rt; (made, again), (Ok(81), Ok(81)));
    Ok(())
}

/// A get or insert on a heap that refuses answers what was made and has an entry, or is refused and has none.
fn play(heap: &RefusingHeap<Global>) -> Result<(), &'static str> {
    let Ok(mut cache) = Cache::new(heap, 10) else {
        return Ok(());
    };
    let made = cache.get_or_insert_with(7u64, at(0), || 49u64);
    let wanted = if heap.refused() == 0 {
        (Ok(49), 1)
    } else {
        (Err(InsertError::OutOfMemory), 0)
    };
    if (made, cache.entry_count()) == wanted {
        Ok(())
    } else {
        Err("a get or insert is made or refused")
    }
}

/// Plays the same with a make that may fail.
fn try_play(heap: &RefusingHeap<Global>) -> Result<(), &'static str> {
    let Ok(mut cache) = Cache::new(heap, 10) else {
        return Ok(());
    };
    let made = cache.try_get_or_insert_with(7u64, at(0), || Ok::<u64, ()>(49));
    let wanted = if heap.refused() == 0 {
        (Ok(49), 1)
    } else {
        (Err(TryInsertError::OutOfMemory), 0)
    };
    if (made, cache.entry_count()) == wanted {
        Ok(())
    } else {
        Err("a get or insert whose make may fail is made or refused")
    }
}

#[test]
fn a_try_get_or_insert_is_made_or_refused(rt: HostRuntime) -> Result<(), Fail> {
    let plays = for_each_refusal(rt.alloc(), rt.alloc(), BOUND, |heap| try_play(heap))?;
    assert!(rt; plays > 0);
    Ok(())
}

#[test]
fn a_get_or_insert_is_made_or_refused(rt: HostRuntime) -> Result<(), Fail> {
    let plays = for_each_refusal(rt.alloc(), rt.alloc(), BOUND, |heap| play(heap))?;
    assert!(rt; plays > 0);
    Ok(())
}

// They come in order of use, the expired ones too, each with its last use and its deadline.
#[test]
fn entries_have_what_the_cache_keeps(rt: HostRuntime) -> Result<(), Fail> {
    let mut cache = squares(rt.alloc())?;
    let _ = cache.get(&1, at(5));
    let wanted = [
        (0u64, 0u64, at(0), at(10)),
        (2, 4, at(2), at(12)),
        (3, 9, at(3), at(13)),
        (1, 1, at(5), at(11)),
    ];
    assert_eq!(rt; cache.entries().count(), wanted.len());
    for (entry, kept) in cache.entries().zip(wanted) {
        assert_eq!(rt;
            (entry.key, entry.value, entry.accessed, entry.deadline),
            kept
        );
        assert!(rt; entry.weight == 1 && !entry.outlasts);
    }
    Ok(())
}

// Key 1 is written at 4. At 10 key 0 is expired, and at 13 keys 2 and 3 are.
#[test]
fn a_listener_gets_no_modified_value(rt: HostRuntime) -> Result<(), Fail> {
    let mut cache = squares(rt.alloc())?.with_listener(Statistics::default());
    let modified = [
        cache.modify(&1, at(4), |value: &mut u64| *value = 7),
        cache.modify(&9, at(4), |value: &mut u64| *value = 7),
        cache.modify(&0, at(10), |value: &mut u64| *value = 7),
    ];
    assert_eq!(rt; modified, [true, false, false]);
    assert_eq!(rt; cache.get(&1, at(13)).copied(), Some(7));
    let counts = cache.listener();
    assert_eq!(rt;
        (
            counts.expired,
            counts.replaced,
            counts.explicit,
            counts.size
        ),
        (3, 0, 0, 0)
    );
    Ok(())
}
