// Calls of one cache from several threads at a time.
use crate::shared::all_are_well;
use moka_common::time::Instant;
use moka_sync::cache::{Cache, ConcurrentCacheExt};
use std::alloc::Global;
use std::sync::Wait;
use std::test::Fail;
use std::thread::{Builder, Threads};

/// A key that all threads insert and invalidate.
const OF_ALL: u64 = 5000;

fn start() -> Instant {
    Instant::from_nanos(0)
}

/// Returns `true` if a value that was inserted is read back.
fn is_read_back<R: Wait>(rt: &R, cache: &Cache<u64, u64>, key: u64) -> bool {
    if cache.insert(rt, key, key, start()).is_err() {
        return false;
    }
    cache.get(rt, &key, start()) == Ok(Some(key))
}

/// Returns `true` if each of 64 keys from this one on is read back.
fn are_read_back<R: Wait>(rt: &R, cache: &Cache<u64, u64>, first: u64) -> bool {
    for key in first..first.saturating_add(64) {
        if !is_read_back(rt, cache, key) {
            return false;
        }
    }
    true
}

/// Inserts each of the first keys, with itself for its value.
fn insert_all<R: Wait>(rt: &R, cache: &Cache<u64, u64>, keys: u64) -> bool {
    for key in 0..keys {
        if cache.insert(rt, key, key, start()).is_err() {
            return false;
        }
    }
    true
}

/// Returns `true` if a snapshot has `keys` pairs, each of a key with itself. By the contract of `iter` their keys are different ones.
fn is_whole<R: Wait>(rt: &R, cache: &Cache<u64, u64>, keys: u64) -> bool {
    let Ok(pairs) = cache.iter(rt, start()) else {
        return false;
    };
    let mut are_own = true;
    let mut count = 0u64;
    for pair in pairs {
        are_own &= *pair.value() == *pair.key() && *pair.key() < keys;
        count = count.saturating_add(1);
    }
    are_own && count == keys
}

/// Reads back 64 writes and takes out every fourth of them, and writes a key of all threads before and takes that out behind.
fn keep_three_of_four<R: Wait>(rt: &R, cache: &Cache<u64, u64>, first: u64) -> bool {
    if cache.insert(rt, OF_ALL, 1, start()).is_err() || !are_read_back(rt, cache, first) {
        return false;
    }
    for key in first..first.saturating_add(64) {
        if key % 4 == 0 {
            cache.invalidate(rt, &key, start());
        }
    }
    cache.invalidate(rt, &OF_ALL, start());
    true
}

/// Keys that all threads remove.
const REMOVED: u64 = 1000;

/// The value of a key that its insert with this serial number brings: it names both.
fn value_of(key: u64, serial: u64) -> u64 {
    serial.wrapping_mul(10_000).wrapping_add(key)
}

/// Returns the key at which the thread with the keys from this one on puts what it has removed at a key.
fn carried_to(key: u64, first: u64) -> u64 {
    first
        .wrapping_mul(1000)
        .wrapping_add(10_000)
        .wrapping_add(key)
}

/// Removes each of the keys that is still there, and puts its value at a key of this thread alone.
fn carry_all<R: Wait>(rt: &R, cache: &Cache<u64, u64>, first: u64) -> bool {
    for key in 0..REMOVED {
        let Ok(removed) = cache.remove(rt, &key, start()) else {
            return false;
        };
        if let Some(value) = removed {
            if cache
                .insert(rt, carried_to(key, first), value, start())
                .is_err()
            {
                return false;
            }
        }
    }
    true
}

/// Returns how many of eight threads have the last value of a key. It is `None` if one has another value or the key is still there.
fn carriers<R: Wait>(rt: &R, cache: &Cache<u64, u64>, key: u64) -> Option<u64> {
    if cache.contains_key(rt, &key, start()) {
        return None;
    }
    let mut count = 0u64;
    for number in 0..8u64 {
        let place = carried_to(key, number.wrapping_mul(64));
        if let Some(value) = cache.get(rt, &place, start()).ok()? {
            if value != value_of(key, 2) {
                return None;
            }
            count = count.saturating_add(1);
        }
    }
    Some(count)
}

/// Inserts 500 keys that no other thread has.
fn insert_own<R: Wait>(rt: &R, cache: &Cache<u64, u64>, first: u64) -> bool {
    let from = first.wrapping_mul(1000);
    for key in from..from.saturating_add(500) {
        if cache.insert(rt, key, key, start()).is_err() {
            return false;
        }
    }
    true
}

/// The work of one of several threads that share a cache.
#[derive(Clone, Copy)]
enum Task {
    InsertAll,
    Look,
    KeepThreeOfFour,
    CarryAll,
    InsertOwn,
}

impl Task {
    /// Does it, with the keys from this one on where each thread has keys of its own. The answer is whether all was as it should be.
    fn is_well_done<R: Wait>(self, rt: &R, cache: &Cache<u64, u64>, first: u64) -> bool {
        match self {
            Task::InsertAll => insert_all(rt, cache, 1024),
            Task::Look => is_whole(rt, cache, 1024),
            Task::KeepThreeOfFour => keep_three_of_four(rt, cache, first),
            Task::CarryAll => carry_all(rt, cache, first),
            Task::InsertOwn => insert_own(rt, cache, first),
        }
    }
}

/// Returns `true` if each of these threads does well, each with 64 keys of its own.
fn are_well_done<R: Wait + Threads + Copy + Send + 'static>(
    rt: R,
    alloc: Global,
    cache: &Cache<u64, u64>,
    tasks: &[Task],
) -> Result<bool, Fail> {
    let mut threads = Vec::new(alloc);
    for (number, task) in tasks.iter().enumerate() {
        let (shared, task) = (cache.clone()?, *task);
        let first = (number as u64).wrapping_mul(64);
        threads.push(Builder::new().spawn(&rt, move || task.is_well_done(&rt, &shared, first))?)?;
    }
    Ok(all_are_well(&rt, threads))
}

/// Eight threads that insert, and eight that look.
const INSERTS_AND_LOOKS: [Task; 16] = [
    Task::InsertAll,
    Task::Look,
    Task::InsertAll,
    Task::Look,
    Task::InsertAll,
    Task::Look,
    Task::InsertAll,
    Task::Look,
    Task::InsertAll,
    Task::Look,
    Task::InsertAll,
    Task::Look,
    Task::InsertAll,
    Task::Look,
    Task::InsertAll,
    Task::Look,
];

#[test]
fn a_snapshot_is_whole_while_threads_insert_the_same_pairs(rt: HostRuntime) -> Result<(), Fail> {
    let cache: Cache<u64, u64> = Cache::new(rt.alloc(), 2048)?;
    assert!(rt; insert_all(&rt, &cache, 1024));
    assert!(rt; are_well_done(rt, rt.alloc(), &cache, &INSERTS_AND_LOOKS)?);
    Ok(())
}

/// Returns `true` if the keys divisible by 4 are absent and each other one has itself for its value.
fn has_three_of_four<R: Wait>(rt: &R, cache: &Cache<u64, u64>) -> bool {
    if cache.contains_key(rt, &OF_ALL, start()) {
        return false;
    }
    for key in 0..1024u64 {
        let expected = if key % 4 == 0 { None } else { Some(key) };
        if cache.get(rt, &key, start()) != Ok(expected) {
            return false;
        }
    }
    true
}

#[test]
fn sixteen_threads_keep_three_keys_of_four(rt: HostRuntime) -> Result<(), Fail> {
    let cache: Cache<u64, u64> = Cache::new(rt.alloc(), 10_000)?;
    assert!(rt; are_well_done(rt, rt.alloc(), &cache, &[Task::KeepThreeOfFour; 16])?);
    assert!(rt; has_three_of_four(&rt, &cache));
    cache.sync(&rt, start());
    assert_eq!(rt; (cache.entry_count(), cache.weighted_size()), (768, 768));
    Ok(())
}

/// Inserts each key twice, and asks eight threads to remove them all. Whether each last value is with exactly one of them then.
fn are_removed_once<R: Wait + Threads + Copy + Send + 'static>(
    rt: R,
    alloc: Global,
) -> Result<bool, Fail> {
    let cache: Cache<u64, u64> = Cache::builder(alloc).build()?;
    for serial in 1..3u64 {
        for key in 0..REMOVED {
            cache.insert(&rt, key, value_of(key, serial), start())?;
        }
    }
    let mut is_well = are_well_done(rt, alloc, &cache, &[Task::CarryAll; 8])?;
    for key in 0..REMOVED {
        is_well &= carriers(&rt, &cache, key) == Some(1);
    }
    Ok(is_well)
}

#[test]
fn each_value_is_removed_by_one_thread(rt: HostRuntime) -> Result<(), Fail> {
    assert!(rt; are_removed_once(rt, rt.alloc())?);
    Ok(())
}

#[test]
fn each_insert_of_four_threads_is_charged(rt: HostRuntime) -> Result<(), Fail> {
    let cache: Cache<u64, u64> = Cache::builder(rt.alloc()).build()?;
    assert!(rt; are_well_done(rt, rt.alloc(), &cache, &[Task::InsertOwn; 4])?);
    cache.sync(&rt, start());
    assert_eq!(rt; cache.entry_count(), 2000);
    Ok(())
}
