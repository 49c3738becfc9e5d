// Calls of one cache of segments from several threads at a time.
use moka_common::hash::FixedState;
use moka_common::time::Instant;
use moka_common::weigh::UnitWeight;
use moka_segments::cache::SegmentedCache;
use moka_segments::rule::Unruled;
use moka_segments::session::Session;
use std::alloc::Global;
use std::sync::atomic::{AtomicU64, Ordering};
use std::sync::{Arc, Wait};
use std::test::Fail;
use std::thread::{Builder, JoinHandle, Threads};

/// Number of threads that ask for each key.
const ASKERS: u64 = 16;

/// Number of keys that each of them asks for.
const KEYS: u64 = 1000;

/// The cache of the tests.
type Numbers = SegmentedCache<u64, u64>;

/// A session of it.
type NumbersSession = Session<u64, u64, FixedState, UnitWeight, Unruled>;

fn start() -> Instant {
    Instant::from_nanos(0)
}

/// Asks for each key, from one on that is the thread's own, and makes the value if it isn't there. Returns the number of answers that are right.
fn ask_for_all<R: Wait>(rt: &R, cache: &Numbers, made: &AtomicU64, first: u64) -> u64 {
    let mut right = 0u64;
    for turn in 0..KEYS {
        let key = first.wrapping_add(turn) % KEYS;
        let answer = cache.get_or_insert_with(rt, key, start(), || {
            made.fetch_add(1, Ordering::SeqCst);
            key.wrapping_mul(3)
        });
        if answer == Ok(key.wrapping_mul(3)) {
            right = right.saturating_add(1);
        }
    }
    right
}

/// Returns the number of right answers of sixteen threads, the number of values that were made, and the number of entries in the end.
fn asked_by_threads<R: Wait + Threads + Copy + Send + 'static>(
    rt: R,
    alloc: Global,
) -> Result<(u64, u64, u64), Fail> {
    let cache = Numbers::builder(alloc)
        .max_capacity(100_000)
        .num_segments(8)
        .build()?;
    let made = Arc::new(alloc, AtomicU64::new(0))?;
    let mut threads: Vec<JoinHandle<u64>> = Vec::new(alloc);
    for number in 0..ASKERS {
        let shared = cache.clone()?;
        let counter = Arc::try_clone(&made)?;
        let first = number.wrapping_mul(61);
        let thread = Builder::new().spawn(&rt, move || ask_for_all(&rt, &shared, &counter, first))?;
        threads.push(thread)?;
    }
    let mut right = 0u64;
    for thread in threads {
        right = right.saturating_add(thread.join(&rt));
    }
    Ok((right, made.load(Ordering::SeqCst), cache.entry_count(&rt)))
}

/// Writes a key by a session, and tells if it is read back at once.
fn is_read_back<R: Wait>(rt: &R, session: &mut NumbersSession, key: u64) -> bool {
    if session.insert(rt, key, key, start()).is_err() {
        return false;
    }
    session.get(rt, &key, start()) == Ok(Some(key))
}

/// Returns the number of 500 keys, from one on, that are read back.
fn write_and_read<R: Wait>(rt: &R, session: &mut NumbersSession, first: u64) -> u64 {
    let mut found = 0u64;
    for key in first..first.saturating_add(500) {
        if is_read_back(rt, session, key) {
            found = found.saturating_add(1);
        }
    }
    found
}

/// Returns the number of keys that eight threads read back in a single segment, and the number of entries in the end.
fn read_back_by_threads<R: Wait + Threads + Copy + Send + 'static>(
    rt: R,
    alloc: Global,
) -> Result<(u64, u64), Fail> {
    let cache = Numbers::builder(alloc)
        .max_capacity(100_000)
        .num_segments(1)
        .build()?;
    let mut threads: Vec<JoinHandle<u64>> = Vec::new(alloc);
    for number in 0..8u64 {
        let mut session = cache.session()?;
        let first = number.wrapping_mul(10_000);
        let thread = Builder::new().spawn(&rt, move || write_and_read(&rt, &mut session, first))?;
        threads.push(thread)?;
    }
    let mut found = 0u64;
    for thread in threads {
        found = found.saturating_add(thread.join(&rt));
    }
    Ok((found, cache.entry_count(&rt)))
}

#[test]
fn sixteen_threads_make_each_value_once(rt: HostRuntime) -> Result<(), Fail> {
    assert_eq!(rt; asked_by_threads(rt, rt.alloc())?, (16_000, 1000, 1000));
    Ok(())
}

#[test]
fn threads_of_one_segment_read_back_what_they_write(rt: HostRuntime) -> Result<(), Fail> {
    assert_eq!(rt; read_back_by_threads(rt, rt.alloc())?, (4000, 4000));
    Ok(())
}
