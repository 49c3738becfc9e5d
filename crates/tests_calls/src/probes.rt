// Look-ups by something borrowed that stands for a key.
use moka_common::lookup::Lookup;
use moka_common::time::Instant;
use moka_segments::cache::SegmentedCache;
use moka_unsync::cache::Cache;
use moka_unsync_model::listener::Statistics;
use std::alloc::Global;
use std::hash::Hash;
use std::sync::Wait;
use std::test::Fail;
use std::time::Duration;

fn at(nanos: u64) -> Instant {
    Instant::from_nanos(nanos)
}

/// Two texts with their lengths, of which an entry lives for ten nanoseconds. The sketch has its table.
fn lengths(alloc: Global) -> Result<Cache<String, usize>, Fail> {
    let builder = Cache::builder(alloc).max_capacity(3);
    let mut cache = builder.time_to_live(Duration::from_nanos(10)).build()?;
    for text in ["alice", "bob"] {
        cache.insert(String::from_str(alloc, text)?, text.len(), at(0))?;
    }
    Ok(cache)
}

// A text that is absent is counted once by each get, and only by a get.
#[test]
fn a_text_stands_for_a_string(rt: HostRuntime) -> Result<(), Fail> {
    let mut cache = lengths(rt.alloc())?;
    let carol = String::from_str(rt.alloc(), "carol")?;
    let found = [
        cache.get_by("alice", at(1)).copied(),
        cache.get_by("carol", at(1)).copied(),
        cache.get_by("carol", at(1)).copied(),
        cache.peek_by("bob", at(1)).copied(),
        cache.peek_by("carol", at(1)).copied(),
        cache.remove_by("carol", at(1)),
    ];
    assert_eq!(rt; found, [Some(5), None, None, Some(3), None, None]);
    let there = [
        cache.contains_by("alice", at(1)),
        cache.contains_by("carol", at(1)),
    ];
    assert_eq!(rt; (there, cache.popularity(&carol)), ([true, false], 2));
    assert_eq!(rt; cache.remove_by("alice", at(1)), Some(5));
    cache.invalidate_by("carol", at(1));
    assert_eq!(rt; cache.entry_count(), 1);
    cache.invalidate_by("bob", at(1));
    assert_eq!(rt; cache.entry_count(), 0);
    Ok(())
}

// Used at its place, an entry is the most recent one; what is past its time isn't found, and leaves.
#[test]
fn a_probe_uses_and_expires_as_a_key_does(rt: HostRuntime) -> Result<(), Fail> {
    let mut cache = lengths(rt.alloc())?;
    let first = |cache: &Cache<String, usize>| cache.iter(at(1)).next().map(|(_, length)| *length);
    assert_eq!(rt; first(&cache), Some(5));
    let _ = cache.peek_by("alice", at(1));
    let _ = cache.contains_by("alice", at(1));
    assert_eq!(rt; first(&cache), Some(5));
    let _ = cache.get_by("alice", at(1));
    assert_eq!(rt; first(&cache), Some(3));
    assert_eq!(rt; cache.peek_by("bob", at(9)).copied(), Some(3));
    assert_eq!(rt; cache.peek_by("bob", at(10)).copied(), None);
    assert_eq!(rt; cache.get_by("bob", at(10)).copied(), None);
    assert_eq!(rt; cache.entry_count(), 0);
    Ok(())
}

// What a removal returns isn't told.
#[test]
fn a_listener_gets_what_a_probe_removes(rt: HostRuntime) -> Result<(), Fail> {
    let mut cache = lengths(rt.alloc())?.with_listener(Statistics::default());
    let found = (
        cache.get_by("bob", at(1)).copied(),
        cache.get_by("carol", at(1)).copied(),
        cache.contains_by("alice", at(1)),
    );
    assert_eq!(rt; found, (Some(3), None, true));
    assert_eq!(rt; cache.remove_by("alice", at(1)), Some(5));
    assert_eq!(rt; cache.listener().explicit, 0);
    cache.invalidate_by("bob", at(1));
    assert_eq!(rt;
        (cache.listener().explicit, cache.cache().entry_count()),
        (1, 0)
    );
    Ok(())
}

/// Returns `true` if a cache with one key finds it by a probe, and nothing by another probe.
fn tells_apart<K: Eq + Hash + Drop, Q: Lookup<K>>(
    alloc: Global,
    key: K,
    probe: Q,
    other: Q,
) -> Result<bool, Fail> {
    let mut cache: Cache<K, u8> = Cache::new(alloc, 10)?;
    cache.insert(key, 1, at(0))?;
    let found = cache.get_by(probe, at(0)).is_some();
    Ok(found && cache.get_by(other, at(0)).is_none())
}

// Keys, texts in a box, lists, slices in a box, and pairs of them.
#[test]
fn each_kind_of_probe_tells_keys_apart(rt: HostRuntime) -> Result<(), Fail> {
    let alloc = rt.alloc();
    let text = || String::from_str(alloc, "key");
    let bytes = || Vec::from_slice(alloc, b"key");
    let found = [
        tells_apart(alloc, 7u64, &7, &8)?,
        tells_apart(alloc, text()?, "key", "kex")?,
        tells_apart(alloc, text()?.into_boxed_str(), "key", "ke")?,
        tells_apart(alloc, bytes()?, &b"key"[..], &b"keys"[..])?,
        tells_apart(alloc, bytes()?.into_boxed_slice(), &b"key"[..], &b""[..])?,
        tells_apart(alloc, (text()?, 7u32), ("key", &7), ("key", &8))?,
        tells_apart(alloc, (text()?, 7u32), ("key", &7), ("kex", &7))?,
    ];
    assert_eq!(rt; found, [true; 7]);
    Ok(())
}

/// A cache of segments for texts, of which an entry lives for ten nanoseconds after its last use.
fn shared_lengths<R: Wait>(rt: &R, alloc: Global) -> Result<SegmentedCache<String, usize>, Fail> {
    let builder = SegmentedCache::builder(alloc)
        .max_capacity(100)
        .num_segments(4);
    let cache: SegmentedCache<String, usize> = builder
        .time_to_idle(Duration::from_nanos(10))
        .build()?;
    for text in ["alice", "bob", "erin"] {
        cache.insert(rt, String::from_str(alloc, text)?, text.len(), at(0))?;
    }
    Ok(cache)
}

/// The answers to a session, and the number of entries that its listener got as removed and as expired.
fn found_by_a_session<R: Wait>(
    rt: &R,
    alloc: Global,
) -> Result<([Option<usize>; 6], [bool; 2], u64, u64), Fail> {
    let cache = shared_lengths(rt, alloc)?;
    let mut session = cache.session()?.with_listener(Statistics::default());
    let found = [
        session.get_by(rt, "alice", at(1))?,
        session.get_by(rt, "carol", at(1))?,
        session.peek_by(rt, "bob", at(1))?,
        session.peek_by(rt, "carol", at(1))?,
        session.remove_by(rt, "carol", at(1)),
        session.remove_by(rt, "bob", at(1)),
    ];
    session.invalidate_by(rt, "carol", at(1));
    session.invalidate_by(rt, "alice", at(1));
    let there = [
        session.contains_by(rt, "erin", at(9)),
        session.contains_by(rt, "erin", at(10)),
    ];
    let told = session.into_listener();
    Ok((found, there, told.explicit, told.expired))
}

#[test]
fn a_text_stands_for_a_string_in_a_session(rt: HostRuntime) -> Result<(), Fail> {
    let (found, there, explicit, expired) = found_by_a_session(&rt, rt.alloc())?;
    assert_eq!(rt; found, [Some(5), None, Some(3), None, None, Some(3)]);
    assert_eq!(rt; (there, explicit, expired), ([true, false], 1, 1));
    Ok(())
}

/// The answers to guests, of which a get alone makes an entry live longer, and the number of entries at the end.
fn found_by_guests<R: Wait>(rt: &R, alloc: Global) -> Result<([Option<usize>; 6], u64), Fail> {
    let cache = shared_lengths(rt, alloc)?;
    let _ = cache.peek_by(rt, "bob", at(5))?;
    let _ = cache.contains_by(rt, "bob", at(5));
    let found = [
        cache.get_by(rt, "alice", at(5))?,
        cache.remove_by(rt, "erin", at(9)),
        cache.remove_by(rt, "erin", at(9)),
        cache.peek_by(rt, "bob", at(10))?,
        cache.get_by(rt, "alice", at(14))?,
        cache.get_by(rt, "alice", at(24))?,
    ];
    cache.invalidate_by(rt, "bob", at(24));
    Ok((found, cache.entry_count(rt)))
}

#[test]
fn a_text_stands_for_a_string_to_a_guest(rt: HostRuntime) -> Result<(), Fail> {
    let (found, left) = found_by_guests(&rt, rt.alloc())?;
    assert_eq!(rt; found, [Some(5), Some(4), None, None, Some(5), None]);
    assert_eq!(rt; left, 0);
    Ok(())
}
