// Calls of the cache of segments with a listener.
use moka_common::error::OutOfMemory;
use moka_common::hash::FixedState;
use moka_common::time::Instant;
use moka_segments::cache::SegmentedCache;
use moka_segments::notifying_cache::NotifyingCache;
use moka_segments::session::NotifyingSession;
use moka_unsync_model::listener::Statistics;
use std::alloc::Global;
use std::sync::Wait;
use std::test::Fail;
use std::thread::{Builder, JoinHandle, Threads};
use std::time::Duration;

type Squares = NotifyingCache<u64, u64, Statistics>;

type SquaresSession = NotifyingSession<u64, u64, Statistics>;

/// Number of threads that insert.
const WRITERS: u64 = 4;

/// Number of keys that each of them inserts.
const KEYS: u64 = 1000;

fn at(nanos: u64) -> Instant {
    Instant::from_nanos(nanos)
}

/// The counts as digits, in the order in which `Statistics` has them.
fn digits(counts: &Statistics) -> u64 {
    let mut digits = counts.size;
    for count in [
        counts.expired,
        counts.explicit,
        counts.replaced,
        counts.rejected,
    ] {
        digits = digits.wrapping_mul(10).wrapping_add(count);
    }
    digits
}

/// A cache of one segment, in which an entry lives for ten nanoseconds.
fn squares(alloc: Global) -> Result<Squares, Fail> {
    let builder = SegmentedCache::builder(alloc)
        .max_capacity(4)
        .num_segments(1);
    let cache = builder
        .time_to_live(Duration::from_nanos(10))
        .eviction_listener(Statistics::default())
        .build()?;
    Ok(cache)
}

/// The keys 0 to 3 with their squares, each inserted a nanosecond after the one before it.
fn fill<R: Wait>(rt: &R, session: &mut SquaresSession) -> Result<(), Fail> {
    for key in 0..4u64 {
        session.insert(rt, key, key * key, at(key))?;
    }
    Ok(())
}

/// Returns what a session finds of the key 2, removes and makes, and its counts.
fn found<R: Wait>(
    rt: &R,
    session: &mut SquaresSession,
) -> Result<([Option<u64>; 5], u64), OutOfMemory> {
    let first = session.get(rt, &2, at(4))?;
    let removed = session.remove(rt, &2, at(4));
    let second = session.peek(rt, &2, at(4))?;
    let made = session.get_or_insert_with(rt, 2, at(4), || 5).ok();
    let again = session.get_or_insert_with(rt, 2, at(4), || 6).ok();
    Ok((
        [first, removed, second, made, again],
        digits(session.listener()),
    ))
}

/// Returns the counts of two sessions. In one, 3 gets another value and 0 is invalidated. In the other, a predicate chooses 2, 1 expires at 11, and 3 is left
/// to the end.
fn counts<R: Wait>(rt: &R, cache: &Squares) -> Result<[u64; 4], Fail> {
    let mut one = cache.session()?;
    let mut other = cache.session()?;
    fill(rt, &mut one)?;
    one.insert(rt, 3, 10, at(4))?;
    one.invalidate(rt, &0, at(4));
    other.invalidate_entries_if(rt, |_key: &u64, value: &u64| *value == 4);
    let _ = other.contains_key(rt, &1, at(10));
    let early = digits(other.listener());
    let _ = other.contains_key(rt, &1, at(11));
    let late = digits(other.listener());
    other.invalidate_all(rt);
    Ok([
        digits(&one.into_listener()),
        early,
        late,
        digits(&other.into_listener()),
    ])
}

/// Returns what a session with a listener of its own finds, and its counts; then those of the next listener of the session.
fn told_in_turn<R: Wait>(rt: &R, alloc: Global) -> Result<(([Option<u64>; 3], u64), u64), Fail> {
    let mut session = SegmentedCache::builder(alloc)
        .max_capacity(4)
        .build()?
        .session()?
        .with_listener(Statistics::default());
    session.insert(rt, 1, 4, at(0))?;
    session.insert(rt, 1, 5, at(0))?;
    let found = [
        session.get(rt, &1, at(0))?,
        session.get_or_insert_with(rt, 1, at(0), || 8).ok(),
        session.get_or_insert_with(rt, 2, at(0), || 9).ok(),
    ];
    let counts = session.replace_listener(Statistics::default());
    session.insert(rt, 2, 7, at(0))?;
    session.invalidate(rt, &1, at(0));
    Ok(((found, digits(&counts)), digits(session.listener())))
}

/// Inserts keys, from one on, and returns the number of entries that left for want of room or were not let in.
fn left_of_inserts<R: Wait>(rt: &R, session: &mut SquaresSession, first: u64) -> u64 {
    for key in first..first.saturating_add(KEYS) {
        if session.insert(rt, key, key, at(0)).is_err() {
            return 0;
        }
    }
    let counts = session.replace_listener(Statistics::default());
    counts.size.saturating_add(counts.rejected)
}

/// Returns the number of entries that four threads were told of, each in its own calls, and the number of those that are left.
fn left_of_all_inserts<R: Wait + Threads + Copy + Send + 'static>(
    rt: R,
    alloc: Global,
) -> Result<(u64, u64), Fail> {
    let cache = SegmentedCache::builder(alloc)
        .max_capacity(300)
        .num_segments(3)
        .eviction_listener(Statistics::default())
        .build()?;
    let mut threads: Vec<JoinHandle<u64>> = Vec::new(alloc);
    for number in 0..WRITERS {
        let mut session = cache.clone()?.session()?;
        let first = number.wrapping_mul(KEYS);
        let thread = Builder::new().spawn(&rt, move || left_of_inserts(&rt, &mut session, first))?;
        threads.push(thread)?;
    }
    let mut told = 0u64;
    for thread in threads {
        told = told.saturating_add(thread.join(&rt));
    }
    let mut session = cache.session()?;
    Ok((told, session.entry_count(&rt)))
}

// The removed 4 isn't counted, since the call returns it.
#[test]
fn a_notifying_session_answers_as_a_session(rt: HostRuntime) -> Result<(), Fail> {
    let mut session = squares(rt.alloc())?.session()?;
    fill(&rt, &mut session)?;
    let wanted = ([Some(4), Some(4), None, Some(5), Some(5)], 0);
    assert_eq!(rt; found(&rt, &mut session)?, wanted);
    Ok(())
}

#[test]
fn what_leaves_goes_to_the_sessions_listener(rt: HostRuntime) -> Result<(), Fail> {
    let cache = squares(rt.alloc())?;
    assert_eq!(rt; counts(&rt, &cache)?, [110, 100, 1100, 1200]);
    Ok(())
}

#[test]
fn threads_are_told_of_all_that_leaves(rt: HostRuntime) -> Result<(), Fail> {
    assert_eq!(rt; left_of_all_inserts(rt, rt.alloc())?, (3700, 300));
    Ok(())
}

#[test]
fn a_session_tells_its_listeners_in_turn(rt: HostRuntime) -> Result<(), Fail> {
    let wanted = (([Some(5), Some(5), Some(9)], 10), 110);
    assert_eq!(rt; told_in_turn(&rt, rt.alloc())?, wanted);
    Ok(())
}

#[test]
fn a_notifying_session_lists_the_pairs(rt: HostRuntime) -> Result<(), Fail> {
    let builder = SegmentedCache::builder(rt.alloc())
        .max_capacity(4)
        .num_segments(1)
        .eviction_listener(Statistics::default());
    let mut session = builder.build_with_hasher(FixedState::new())?.session()?;
    fill(&rt, &mut session)?;
    let pairs = session.iter(&rt, rt.alloc(), at(4))?;
    let wanted: [(u64, u64); 4] = [(0, 0), (1, 1), (2, 4), (3, 9)];
    assert_eq!(rt; pairs.as_slice(), wanted.as_slice());
    Ok(())
}
