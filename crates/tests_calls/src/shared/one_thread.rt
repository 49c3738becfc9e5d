// Calls of a cache that threads share, by one of them.
use moka_common::error::OutOfMemory;
use moka_common::hash::FixedState;
use moka_common::time::Instant;
use moka_sync::builder::CacheBuilder;
use moka_sync::cache::{Cache, ConcurrentCacheExt};
use moka_sync::iter::Iter;
use moka_sync_model::published::Published;
use std::alloc::Global;
use std::sync::Wait;
use std::test::Fail;

/// The cache of all tests here.
type Numbers = Cache<u64, u64>;

/// Inserts keys in turn, each with ten times itself for its value.
fn insert_all<R: Wait>(rt: &R, cache: &Numbers, keys: &[u64]) -> Result<(), Fail> {
    for key in keys {
        cache.insert(rt, *key, key.wrapping_mul(10), Instant::from_nanos(0))?;
    }
    Ok(())
}

/// Returns the number of counted entries, and their weight.
fn counts(cache: &Numbers) -> [u64; 2] {
    [cache.entry_count(), cache.weighted_size()]
}

/// Returns what the maintenance with this number has published, with `count` entries that weigh 1 each.
fn published(number: u64, count: u64) -> Published {
    Published {
        number,
        count,
        weight: count,
    }
}

#[test]
fn the_counts_are_those_of_the_last_maintenance(rt: HostRuntime) -> Result<(), Fail> {
    let now = Instant::from_nanos(0);
    let builder: CacheBuilder<u64, u64> = CacheBuilder::new(rt.alloc(), 10);
    let (cache, mut pass) = builder.build_counted(FixedState::new())?;
    insert_all(&rt, &cache, &[3, 1, 3])?;
    let before = (counts(&cache), cache.published(&rt, &mut pass));
    assert_eq!(rt; before, ([0, 0], published(0, 0)));
    cache.sync(&rt, now);
    let after = (counts(&cache), cache.published(&rt, &mut pass));
    assert_eq!(rt; after, ([2, 2], published(1, 2)));
    cache.sync(&rt, now);
    let mut other = cache.split_pass(&mut pass);
    assert_eq!(rt; cache.published(&rt, &mut other), published(2, 2));
    assert_eq!(rt; cache.get_if_present(&rt, &3, now)?, Some(30));
    Ok(())
}

/// Returns what a snapshot of one pair shows, the pair, its key, its value, and what the snapshot shows then.
fn text_of_snapshot(alloc: Global, mut pairs: Iter<u64, u64>) -> Result<String, Fail> {
    let before = format!(in alloc; "{pairs:?}")?;
    let Some(pair) = pairs.next() else {
        return Err("a pair".into());
    };
    let text = format!(in alloc;
        "{before} {:?} {} {} {pairs:?}",
        pair.pair(),
        *pair.key(),
        *pair
    )?;
    Ok(text)
}

#[test]
fn a_snapshot_shows_what_is_left(rt: HostRuntime) -> Result<(), Fail> {
    let cache: Numbers = Cache::builder(rt.alloc()).build()?;
    insert_all(&rt, &cache, &[3])?;
    let pairs: Result<Iter<u64, u64>, OutOfMemory> = cache.iter(&rt, Instant::from_nanos(0));
    let text = text_of_snapshot(rt.alloc(), pairs?)?;
    assert_eq!(rt; text.as_str(), "{3: 30} (3, 30) 3 30 {}");
    Ok(())
}

#[test]
fn what_is_set_is_shown(rt: HostRuntime) -> Result<(), Fail> {
    let builder: CacheBuilder<u64, u32> = CacheBuilder::new(rt.alloc(), 3).initial_capacity(5);
    let text = format!(in rt.alloc(); "{builder:?}")?;
    let set =
        "CacheBuilder { max_capacity: Some(3), time_to_live: None, time_to_idle: None, initial_capacity: 5, is_weighed: false }";
    assert!(rt; text.as_str() == set);
    Ok(())
}
