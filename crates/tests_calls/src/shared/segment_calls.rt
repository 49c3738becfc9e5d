// Calls of the cache of segments without a listener.
ghost use Rattle.std.specs.Prelude.{⊤};

use moka_common::error;
use moka_common::hash::FixedState;
use moka_common::time::Instant;
use moka_segments::cache::SegmentedCache;
use moka_segments::error::BuildError;
use moka_segments::own::both;
use moka_segments::weigher::Weighing;
use moka_unsync::error::TryInsertError;
use moka_unsync_model::listener::Statistics;
use std::alloc::Global;
use std::sync::Wait;
use std::test::Fail;
use std::time::Duration;

type Numbers = SegmentedCache<u64, u64>;

/// A number that is found or made, or the number of the attempt that failed.
type Tried = Result<u64, TryInsertError<u32>>;

fn numbers(alloc: Global, limit: u64, count: usize) -> Result<Numbers, BuildError> {
    Numbers::builder(alloc)
        .max_capacity(limit)
        .num_segments(count)
        .build()
}

fn found_by_another<R: Wait>(rt: &R, alloc: Global) -> Result<(u64, u64, usize), Fail> {
    let cache = numbers(alloc, 1000, 4)?;
    let mut one = cache.session()?;
    let mut other = cache.session()?;
    let now = Instant::from_nanos(0);
    for key in 0..100u64 {
        one.insert(rt, key, key.saturating_add(7), now)?;
    }
    let mut found = 0u64;
    for key in 0..200u64 {
        if other.get(rt, &key, now)? == Some(key.saturating_add(7)) {
            found = found.saturating_add(1);
        }
    }
    let entries = one.entry_count(rt);
    let pairs = other.iter(rt, alloc, now)?.len();
    Ok((found, entries, pairs))
}

fn left_of_five_thousand<R: Wait>(rt: &R, alloc: Global) -> Result<(u64, u64), Fail> {
    let cache = numbers(alloc, 103, 4)?;
    let mut session = cache.session()?;
    let now = Instant::from_nanos(0);
    for key in 0..5000u64 {
        session.insert(rt, key, key, now)?;
    }
    Ok((session.entry_count(rt), cache.weighted_size(rt)))
}

fn removed<R: Wait>(
    rt: &R,
    alloc: Global,
) -> Result<(Option<u64>, bool, bool, Option<u64>, Option<u64>), Fail> {
    let cache = numbers(alloc, 1000, 4)?;
    let mut session = cache.session()?;
    let now = Instant::from_nanos(0);
    for key in 0..10u64 {
        cache.insert(rt, key, key, now)?;
    }
    let taken = session.remove(rt, &3, now);
    session.invalidate(rt, &4, now);
    let gone = session.contains_key(rt, &4, now);
    let there = cache.contains_key(rt, &5, now);
    session.invalidate_all(rt);
    let none = cache.get(rt, &5, now)?;
    cache.insert(rt, 5, 50, now)?;
    let again = cache.peek(rt, &5, now)?;
    Ok((taken, gone, there, none, again))
}

fn made<R: Wait>(rt: &R, alloc: Global) -> Result<(u64, u64, u64), Fail> {
    let cache = numbers(alloc, 1000, 4)?;
    let mut session = cache.session()?;
    let now = Instant::from_nanos(0);
    let first = session.get_or_insert_with(rt, 7, now, || 49)?;
    let second = cache.get_or_insert_with(rt, 7, now, || 50)?;
    let third = cache.get_or_insert_with(rt, 8, now, || 64)?;
    Ok((first, second, third))
}

/// Fails to make a value, and is then asked for it by the cache and by the session.
fn tried<R: Wait>(rt: &R, alloc: Global) -> Result<(Tried, bool, Tried, Tried), Fail> {
    let cache = numbers(alloc, 1000, 4)?;
    let mut session = cache.session()?;
    let now = Instant::from_nanos(0);
    let failed = session.try_get_or_insert_with(rt, 7, now, || Err(1));
    let there = session.contains_key(rt, &7, now);
    let made = cache.try_get_or_insert_with(rt, 7, now, || Ok(49));
    let again = session.try_get_or_insert_with(rt, 7, now, || Err(2));
    Ok((failed, there, made, again))
}

fn chosen<R: Wait>(rt: &R, alloc: Global) -> Result<(u64, bool, bool), Fail> {
    let cache = numbers(alloc, 1000, 4)?;
    let mut session = cache.session()?;
    let now = Instant::from_nanos(0);
    for key in 0..100u64 {
        session.insert(rt, key, key, now)?;
    }
    session.invalidate_entries_if(rt, |key: &u64, _value: &u64| *key < 40);
    let left = session.entry_count(rt);
    cache.invalidate_entries_if(rt, |_key: &u64, value: &u64| *value == 50);
    let gone = cache.contains_key(rt, &50, now);
    Ok((left, gone, cache.contains_key(rt, &51, now)))
}

/// Each entry weighs its value.
#[derive(Clone, Copy)]
struct ByValue;

impl Weighing<u64, u64> for ByValue {
    ghost ready = { λ _. ⊤ };

    ghost weighs = { λ old key value weight new. ⊤ };

    fn weigh(&mut self, _key: &u64, value: &u64) -> u32 {
        u32::try_from(*value).unwrap_or(u32::MAX)
    }
}

fn weighed<R: Wait>(rt: &R, alloc: Global) -> Result<(u64, u64), Fail> {
    let cache = Numbers::builder(alloc)
        .max_capacity(1000)
        .num_segments(2)
        .weigher(ByValue)
        .build()?;
    let now = Instant::from_nanos(0);
    cache.insert(rt, 1, 30, now)?;
    cache.insert(rt, 2, 4, now)?;
    Ok((cache.entry_count(rt), cache.weighted_size(rt)))
}

/// The answers to changes of values, and what is found then. Also the weight of all entries, and how many a listener got as expired and as replaced.
fn changed<R: Wait>(
    rt: &R,
    alloc: Global,
) -> Result<([bool; 4], [Option<u64>; 2], [u64; 3]), Fail> {
    let cache = Numbers::builder(alloc)
        .max_capacity(1000)
        .num_segments(2)
        .time_to_live(Duration::from_nanos(10))
        .weigher(ByValue)
        .build()?;
    let mut session = cache.session()?.with_listener(Statistics::default());
    let start = Instant::from_nanos(0);
    let end = Instant::from_nanos(10);
    cache.insert(rt, 1, 30, start)?;
    cache.insert(rt, 2, 4, start)?;
    let double = |value: &mut u64| *value = value.wrapping_mul(2);
    let answers = [
        session.modify(rt, &1, Instant::from_nanos(5), double),
        cache.modify(rt, &1, Instant::from_nanos(9), double),
        cache.modify(rt, &3, start, double),
        session.modify(rt, &2, end, double),
    ];
    let found = [
        session.get(rt, &1, Instant::from_nanos(18))?,
        session.get(rt, &2, end)?,
    ];
    let told = session.into_listener();
    Ok((
        answers,
        found,
        [cache.weighted_size(rt), told.expired, told.replaced],
    ))
}

fn owned<R: Wait>(rt: &R, alloc: Global) -> Result<(Option<u64>, usize), Fail> {
    let builder = Numbers::builder(alloc).max_capacity(6_399);
    let (cache, mut owners) = builder.build_owned(FixedState::default())?;
    let mut writer = owners.session()?;
    let mut reader = owners.session()?;
    let now = Instant::from_nanos(0);
    writer.insert(rt, 1, 10, now)?;
    reader.learn(writer.note());
    Ok((reader.get(rt, &1, now)?, cache.num_segments()))
}

/// An entry that is looked at until it is idle. A look that were a `get` too would renew it.
fn looked_at<R: Wait>(rt: &R, alloc: Global) -> Result<[bool; 5], Fail> {
    let cache = Numbers::builder(alloc)
        .num_segments(2)
        .time_to_idle(Duration::from_nanos(10))
        .build()?;
    cache.insert(rt, 1, 10, Instant::from_nanos(0))?;
    let before = Instant::from_nanos(9);
    let found = [
        cache.peek(rt, &1, before)? == Some(10),
        cache.contains_key(rt, &1, before),
        cache.iter(rt, alloc, before)?.len() == 1,
        cache.entry_count(rt) == 1,
        cache.get(rt, &1, Instant::from_nanos(10))?.is_none(),
    ];
    Ok(found)
}

fn refusal(alloc: Global, count: usize, seconds: u64) -> Option<BuildError> {
    let builder = Numbers::builder(alloc)
        .num_segments(count)
        .time_to_live(Duration::from_secs(seconds));
    match builder.build() {
        Ok(_) => None,
        Err(error) => Some(error),
    }
}

#[test]
fn sessions_find_what_was_written(rt: HostRuntime) -> Result<(), Fail> {
    assert_eq!(rt; found_by_another(&rt, rt.alloc())?, (100, 100, 100));
    Ok(())
}

#[test]
fn the_limit_is_shared_out(rt: HostRuntime) -> Result<(), Fail> {
    assert_eq!(rt; left_of_five_thousand(&rt, rt.alloc())?, (103, 103));
    Ok(())
}

#[test]
fn removals_remove(rt: HostRuntime) -> Result<(), Fail> {
    assert_eq!(rt;
        removed(&rt, rt.alloc())?,
        (Some(3), false, true, None, Some(50))
    );
    Ok(())
}

#[test]
fn a_value_is_made_once(rt: HostRuntime) -> Result<(), Fail> {
    assert_eq!(rt; made(&rt, rt.alloc())?, (49, 49, 64));
    Ok(())
}

#[test]
fn a_value_that_could_not_be_made_is_made_later(rt: HostRuntime) -> Result<(), Fail> {
    let found = tried(&rt, rt.alloc())?;
    assert_eq!(rt;
        found,
        (Err(TryInsertError::Make(1)), false, Ok(49), Ok(49))
    );
    Ok(())
}

#[test]
fn a_predicate_chooses(rt: HostRuntime) -> Result<(), Fail> {
    assert_eq!(rt; chosen(&rt, rt.alloc())?, (60, false, true));
    Ok(())
}

#[test]
fn a_look_is_no_access(rt: HostRuntime) -> Result<(), Fail> {
    assert_eq!(rt; looked_at(&rt, rt.alloc())?, [true; 5]);
    Ok(())
}

#[test]
fn a_weigher_is_asked(rt: HostRuntime) -> Result<(), Fail> {
    assert_eq!(rt; weighed(&rt, rt.alloc())?, (2, 34));
    Ok(())
}

// The change at 9 is a write, so the entry lives until 19.
#[test]
fn a_value_is_changed_in_its_place(rt: HostRuntime) -> Result<(), Fail> {
    let (answers, found, counts) = changed(&rt, rt.alloc())?;
    assert_eq!(rt; answers, [true, true, false, false]);
    assert_eq!(rt; (found, counts), ([Some(120), None], [120, 1, 0]));
    Ok(())
}

#[test]
fn a_reader_is_told_of_a_write(rt: HostRuntime) -> Result<(), Fail> {
    assert_eq!(rt; owned(&rt, rt.alloc())?, (Some(10), 63));
    Ok(())
}

#[test]
fn refusals_have_names(rt: HostRuntime) -> Result<(), Fail> {
    let too_long = BuildError::Cache(error::BuildError::TimeToLiveTooLong);
    assert_eq!(rt; refusal(rt.alloc(), 0, 1), Some(BuildError::NumSegments));
    assert_eq!(rt; refusal(rt.alloc(), 0, 40_000_000_000), Some(too_long));
    assert_eq!(rt; refusal(rt.alloc(), 3, 1), None);
    Ok(())
}

#[test]
fn two_threads_find_their_own(rt: HostRuntime) -> Result<(), Fail> {
    let cache = numbers(rt.alloc(), 1000, 4)?;
    let one = cache.session()?;
    let other = cache.session()?;
    let now = Instant::from_nanos(0);
    let (first, second) = both(&rt, one, other, (1, 10), (2, 20), now);
    assert_eq!(rt; first.0, Some(Some(10)));
    assert_eq!(rt; second.0, Some(Some(20)));
    Ok(())
}
