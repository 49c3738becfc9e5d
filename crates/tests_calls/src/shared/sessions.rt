// Sessions of the cache with logs, which know the histories of its shards.
use moka_common::time::Instant;
use moka_sync::cache::Cache;
use moka_sync::own::{invalidate_and_read, learn_and_read, write_and_read};
use std::alloc::Global;
use std::sync::Wait;
use std::test::Fail;
use std::time::Duration;

/// Looks in one session for what another wrote, takes it out, and looks again.
fn found_by_another<R: Wait>(
    rt: &R,
    alloc: Global,
) -> Result<(Option<u64>, bool, Option<u64>, [bool; 3]), Fail> {
    let cache: Cache<u64, u64> = Cache::new(alloc, 100)?;
    let (mut writer, mut reader) = (cache.session()?, cache.session()?);
    let now = Instant::from_nanos(0);
    writer.insert(rt, 1, 10, now)?;
    writer.insert(rt, 2, 20, now)?;
    writer.insert(rt, 3, 30, now)?;
    reader.learn(writer.note());
    let found = reader.get(rt, &1, now)?;
    let there = reader.contains_key(rt, &2, now);
    let taken = reader.remove(rt, &1, now)?;
    reader.invalidate(rt, &2, now);
    let left = [
        cache.contains_key(rt, &1, now),
        writer.contains_key(rt, &2, now),
        writer.contains_key(rt, &3, now),
    ];
    Ok((found, there, taken, left))
}

/// Looks for an entry in the session that wrote it, and in another that takes a note of it.
fn told<R: Wait>(rt: &R, alloc: Global) -> Result<[Option<Option<u64>>; 2], Fail> {
    let cache: Cache<u64, u64> = Cache::new(alloc, 100)?;
    let (mut writer, mut reader) = (cache.session()?, cache.session()?);
    let now = Instant::from_nanos(0);
    let own = write_and_read(rt, &mut writer, 7, 70, now);
    let other = learn_and_read(rt, &mut reader, writer.note(), &7, now);
    Ok([own, other])
}

/// Hides what was written before the moment 5 in one session. Looks there, in one that learns of it, and in the cache.
fn hidden<R: Wait>(
    rt: &R,
    alloc: Global,
) -> Result<(Option<Option<u64>>, Option<u64>, [bool; 3]), Fail> {
    let cache: Cache<u64, u64> = Cache::new(alloc, 100)?;
    let (mut hider, mut reader) = (cache.session()?, cache.session()?);
    let now = Instant::from_nanos(6);
    reader.insert(rt, 1, 10, Instant::from_nanos(4))?;
    reader.insert(rt, 2, 20, Instant::from_nanos(5))?;
    let old = invalidate_and_read(rt, &mut hider, Instant::from_nanos(5), &1, now);
    let young = hider.remove(rt, &2, now)?;
    hider.invalidate_all(Instant::from_nanos(3));
    hider.insert(rt, 3, 30, Instant::from_nanos(4))?;
    reader.learn(hider.note());
    let left = [
        hider.contains_key(rt, &3, now),
        reader.contains_key(rt, &1, now),
        cache.contains_key(rt, &3, now),
    ];
    Ok((old, young, left))
}

/// A session's reads and writes go to the logs: the value is renewed by a read, and expires 10 after that.
fn renewed<R: Wait>(rt: &R, alloc: Global) -> Result<[bool; 3], Fail> {
    let cache: Cache<u64, u64> = Cache::builder(alloc)
        .time_to_idle(Duration::from_nanos(10))
        .build()?;
    let mut session = cache.session()?;
    session.insert(rt, 1, 10, Instant::from_nanos(0))?;
    let first = session.get(rt, &1, Instant::from_nanos(9))?.is_some();
    moka_sync::cache::ConcurrentCacheExt::sync(&cache, rt, Instant::from_nanos(9));
    let second = session.contains_key(rt, &1, Instant::from_nanos(18));
    Ok([
        first,
        second,
        session.contains_key(rt, &1, Instant::from_nanos(19)),
    ])
}

#[test]
fn a_session_finds_what_another_wrote(rt: HostRuntime) -> Result<(), Fail> {
    let found = found_by_another(&rt, rt.alloc())?;
    assert_eq!(rt; found, (Some(10), true, Some(10), [false, false, true]));
    Ok(())
}

#[test]
fn a_session_finds_its_own_and_what_it_was_told(rt: HostRuntime) -> Result<(), Fail> {
    assert_eq!(rt; told(&rt, rt.alloc())?, [Some(Some(70)), Some(Some(70))]);
    Ok(())
}

#[test]
fn a_session_hides_older_entries_from_all(rt: HostRuntime) -> Result<(), Fail> {
    let found = hidden(&rt, rt.alloc())?;
    assert_eq!(rt; found, (Some(None), Some(20), [false, false, false]));
    Ok(())
}

#[test]
fn a_read_of_a_session_renews_the_idle_time(rt: HostRuntime) -> Result<(), Fail> {
    assert_eq!(rt; renewed(&rt, rt.alloc())?, [true, true, false]);
    Ok(())
}
