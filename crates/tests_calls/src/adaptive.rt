// A window that adapts: how far it grows, what it keeps then, and what it does if its tables are refused memory.
use moka_common::hash::FixedState;
use moka_common::time::Instant;
use moka_common::weigh::UnitWeight;
use moka_segments::cache::SegmentedCache;
use moka_unsync::builder::CacheBuilder;
use moka_unsync::cache::Cache;
use moka_unsync::shares::Shares;
use std::alloc::{Allocator, Global};
use std::cell::Cell;
use std::test::Fail;
use tests_heap::{RefusingHeap, for_each_refusal};

/// More plays than any work here has requests.
const BOUND: u64 = 100;

const LIMIT: u64 = 100;

/// Keys that come back.
const RETURNING: std::ops::Range<u64> = 1000..1010;

type Plain<A> = Cache<u64, u64, FixedState, UnitWeight, A>;

fn start() -> Instant {
    Instant::from_nanos(0)
}

/// Fills a cache of a hundred, and then inserts ten more keys in turn, so that each comes back after nine others. Returns the number of refused inserts.
fn keys_return<A: Allocator + Clone + Drop>(cache: &mut Plain<A>) -> u64 {
    let mut refused = 0u64;
    for key in 0..LIMIT {
        refused = refused.wrapping_add(u64::from(cache.insert(key, key, start()).is_err()));
    }
    for _ in 0..30 {
        for key in RETURNING {
            refused = refused.wrapping_add(u64::from(cache.insert(key, key, start()).is_err()));
        }
    }
    refused
}

/// Counts the keys that came back and that a cache has.
fn found<A: Allocator + Clone + Drop>(cache: &Plain<A>) -> u64 {
    let mut count = 0u64;
    for key in RETURNING {
        count = count.wrapping_add(u64::from(cache.peek(&key, start()).is_some()));
    }
    count
}

// A rejected key that comes back asks for a larger window, until all ten fit into it. A window that doesn't adapt has the last one alone.
#[test]
fn a_window_grows_for_keys_that_come_back(rt: HostRuntime) -> Result<(), Fail> {
    let mut adaptive: Plain<Global> = CacheBuilder::new(rt.alloc(), LIMIT).adaptive().build()?;
    let mut fixed: Plain<Global> = CacheBuilder::new(rt.alloc(), LIMIT)
        .protected_share(80)
        .build()?;
    assert_eq!(rt; (adaptive.window_limit(), fixed.window_limit()), (1, 1));
    assert_eq!(rt;
        (keys_return(&mut adaptive), keys_return(&mut fixed)),
        (0, 0)
    );
    assert_eq!(rt; (found(&adaptive), found(&fixed)), (10, 1));
    assert_eq!(rt; (adaptive.window_limit(), fixed.window_limit()), (11, 1));
    assert_eq!(rt; (adaptive.entry_count(), fixed.entry_count()), (99, LIMIT));
    Ok(())
}

#[test]
fn shares_tell_how_far_a_window_has_adapted(rt: HostRuntime) -> Result<(), Fail> {
    let mut cache: Plain<Global> = CacheBuilder::new(rt.alloc(), LIMIT).adaptive().build()?;
    let begin = Shares {
        window: 1,
        protected: 80,
        adapts: true,
        extra: 0,
    };
    assert!(rt; cache.shares() == begin);
    let _ = keys_return(&mut cache);
    assert!(rt; cache.shares() == Shares { extra: 10, ..begin });
    Ok(())
}

#[test]
fn a_share_that_is_set_later_is_where_an_adaptive_cache_begins(
    rt: HostRuntime,
) -> Result<(), Fail> {
    let cache: Plain<Global> = CacheBuilder::new(rt.alloc(), LIMIT)
        .adaptive()
        .window_share(20)
        .build()?;
    assert_eq!(rt; cache.window_limit(), 20);
    let before: Plain<Global> = CacheBuilder::new(rt.alloc(), LIMIT)
        .window_share(20)
        .adaptive()
        .build()?;
    assert_eq!(rt; before.window_limit(), 1);
    Ok(())
}

/// Plays on a cache that has room for all its entries. Whether its window has stayed as it was is counted.
fn play(heap: &RefusingHeap<Global>, stayed: &Cell<u64>) -> Result<(), &'static str> {
    let built = CacheBuilder::new(heap, LIMIT)
        .initial_capacity(LIMIT as usize)
        .adaptive()
        .build();
    let Ok(mut cache) = built else {
        return Ok(());
    };
    if keys_return(&mut cache) > 0 {
        return Err("an insert is refused for a table");
    }
    match (cache.window_limit(), found(&cache)) {
        (1, 1) => stayed.set(stayed.get().wrapping_add(1)),
        (11, 10) => {}
        _ => return Err("what the window has"),
    }
    Ok(())
}

// Of four requests of the build, with that for the sketch's table, and of the two tables of tags each is refused alone, and then with all that follow.
#[test]
fn a_refused_table_leaves_the_window_as_it_is(rt: HostRuntime) -> Result<(), Fail> {
    let stayed = Cell::new(0u64);
    let plays = for_each_refusal(rt.alloc(), rt.alloc(), BOUND, |heap| play(heap, &stayed))?;
    assert_eq!(rt; (plays, stayed.get()), (12, 4));
    Ok(())
}

// One segment is a cache for one thread.
#[test]
fn a_segment_adapts_by_itself(rt: HostRuntime) -> Result<(), Fail> {
    let cache: SegmentedCache<u64, u64> = SegmentedCache::builder(rt.alloc())
        .max_capacity(LIMIT)
        .num_segments(1)
        .adaptive()
        .build()?;
    for key in 0..LIMIT {
        cache.insert(&rt, key, key, start())?;
    }
    let mut count = 0u64;
    for _ in 0..30 {
        count = 0;
        for key in RETURNING {
            cache.insert(&rt, key, key, start())?;
        }
        for key in RETURNING {
            count = count.wrapping_add(u64::from(cache.peek(&rt, &key, start())?.is_some()));
        }
    }
    assert_eq!(rt; count, 10);
    Ok(())
}
