// Keys that all have one hash.
ghost use Rattle.std.specs.Prelude.{[], ◌==◌};
ghost use Rattle.std.specs.Cmp.Rules.{comparing, hashing};
ghost use Rattle.std.proofs.Common.{rules};

use crate::hashers::Zero;
use crate::plays::at;
use mini_moka::common::Shared;
use mini_moka::sync::engine::{Core, Event, Reply, Rows};
use mini_moka::{sync, unsync};
use std::alloc::Global;
use std::hash::{Hash, Hasher};
use std::sync::Wait;
use std::test::Fail;

/// A key that equals each other one of its kind.
#[derive(Clone, Copy)]
struct Kinded {
    kind: u64,
    number: u64,
}

impl PartialEq for Kinded {
    ghost eq = { λ a b. a.kind == b.kind };

    ghost laws = { Prim.search (comparing, rules) };

    fn eq(&self, other: &Kinded) -> bool {
        self.kind == other.kind
    }
}

impl Eq for Kinded {
    ghost laws = { Prim.search (comparing, rules) };
}

impl Hash for Kinded {
    ghost hash_input = { λ _. [] };

    ghost respects_eq = { Prim.search (hashing, rules) };

    fn hash<H: Hasher>(&self, _state: &mut H) {}
}

/// The key at a place of six: two of each kind.
fn key_at(number: u64) -> Kinded {
    Kinded {
        kind: number / 2,
        number,
    }
}

/// Adds the numbers of a pair's key and value to those of its kind, as three digits: how often it comes, and both.
fn note(found: &mut [u64; 3], key: Kinded, value: u64) {
    let digits = key.number.saturating_mul(10).saturating_add(value);
    if let Some(place) = found.get_mut(key.kind as usize) {
        *place = place.saturating_add(digits.saturating_add(100));
    }
}

/// The pairs of a cache after six inserts.
fn sync_pairs<R: Wait>(rt: &R, alloc: Global) -> Result<[u64; 3], Fail> {
    let cache: sync::Cache<Kinded, u64> = sync::Cache::new(alloc, 10)?;
    for number in 0..6u64 {
        cache.insert(rt, key_at(number), number, at(0))?;
    }
    let mut found = [0; 3];
    for pair in cache.iter(rt, at(0))? {
        note(&mut found, *pair.key(), *pair.value());
    }
    Ok(found)
}

// An update keeps the first key object.
#[test]
fn keys_of_one_hash_are_one_where_they_are_equal(rt: HostRuntime) -> Result<(), Fail> {
    assert_eq!(rt; sync_pairs(&rt, rt.alloc())?, [101, 123, 145]);
    Ok(())
}

/// A cache for one thread in which every key has the hash 0.
fn zero_hashed(alloc: Global, limit: u64) -> Result<unsync::Cache<u64, u64, Zero>, Fail> {
    let builder = unsync::Cache::builder(alloc).max_capacity(limit);
    Ok(builder.build_with_hasher(Zero)?)
}

// A new key is as popular as any other, and so never more popular than the one that would leave.
#[test]
fn a_new_key_of_the_same_hash_is_rejected(rt: HostRuntime) -> Result<(), Fail> {
    let mut cache = zero_hashed(rt.alloc(), 2)?;
    cache.insert(0, 0, at(0))?;
    cache.insert(1, 1, at(0))?;
    for _ in 0..5 {
        assert_eq!(rt; cache.get(&0, at(0)).copied(), Some(0));
    }
    cache.insert(2, 2, at(0))?;
    let left = (cache.contains_key(&2, at(0)), cache.entry_count());
    assert_eq!(rt; left, (false, 2));
    Ok(())
}

/// Counts the keys that are found with their own values, of a thousand of which every third was invalidated. The 990th was rejected as it left the window; it
/// is a third too, so 332 others are invalidated.
fn found_of_a_thousand(alloc: Global) -> Result<u64, Fail> {
    let mut cache = zero_hashed(alloc, 1000)?;
    for key in 0..=1000u64 {
        cache.insert(key, key, at(0))?;
    }
    for third in 0..333u64 {
        cache.invalidate(&(third * 3), at(0));
    }
    let mut found = 0u64;
    for key in 0..=1000u64 {
        if cache.get(&key, at(0)).copied() == Some(key) {
            found = found.saturating_add(1);
        }
    }
    Ok(found)
}

#[test]
fn a_thousand_keys_of_one_hash_are_told_apart(rt: HostRuntime) -> Result<(), Fail> {
    assert_eq!(rt; found_of_a_thousand(rt.alloc())?, 668);
    Ok(())
}

/// Adds one to the count of a pair's key, if its value is ten times the key.
fn count_own(counts: &mut [u64; 3], key: u64, value: u64) {
    if let Some(count) = counts.get_mut(key as usize) {
        *count = count.saturating_add(u64::from(value == key.wrapping_mul(10)));
    }
}

type ZeroEvent = Event<Shared<u64>, Shared<u64>>;

/// Inserts of the keys 0 to 2 by three callers, and a copy of each shard behind them.
fn inserts_and_copies(alloc: Global) -> Result<Vec<ZeroEvent>, Fail> {
    let mut events = Vec::new(alloc);
    for caller in 0..3u32 {
        let key = u64::from(caller);
        events.push(Event::Insert {
            caller,
            key: Shared::new(alloc, key)?,
            value: Shared::new(alloc, key.wrapping_mul(10))?,
            now: at(0),
        })?;
    }
    for shard in 0..16 {
        events.push(Event::Copy { shard, now: at(0) })?;
    }
    Ok(events)
}

/// Counts how often each key is in a copy.
fn counts_in(copy: Option<&Reply<Shared<u64>, Rows<u64, u64>>>) -> [u64; 3] {
    let mut counts = [0; 3];
    if let Some(Reply::Rows(rows)) = copy {
        for (key, value) in rows.as_slice() {
            count_own(&mut counts, *key.get(), *value.get());
        }
    }
    counts
}

#[test]
fn a_copy_of_their_shard_has_all_keys_of_one_hash(rt: HostRuntime) -> Result<(), Fail> {
    let mut core: Core<u64, u64, Zero> = Core::new(rt.alloc(), Zero)?;
    let replies = core.run(inserts_and_copies(rt.alloc())?)?;
    assert_eq!(rt; counts_in(replies.get(3)), [1; 3]);
    for reply in 4..19 {
        assert!(rt; matches!(replies.get(reply), Some(Reply::Rows(_))));
        assert_eq!(rt; counts_in(replies.get(reply)), [0; 3]);
    }
    Ok(())
}

/// Counts how often each key is in a snapshot of a shared cache with the keys 0 to 2.
fn counts_in_snapshot<R: Wait>(rt: &R, alloc: Global) -> Result<[u64; 3], Fail> {
    let builder = sync::Cache::builder(alloc);
    let cache: sync::Cache<u64, u64, Zero> = builder.build_with_hasher(Zero)?;
    for key in 0..3u64 {
        cache.insert(rt, key, key.wrapping_mul(10), at(0))?;
    }
    let mut counts = [0; 3];
    for pair in cache.iter(rt, at(0))? {
        count_own(&mut counts, *pair.key(), *pair.value());
    }
    Ok(counts)
}

#[test]
fn a_snapshot_has_each_key_of_one_hash_once(rt: HostRuntime) -> Result<(), Fail> {
    assert_eq!(rt; counts_in_snapshot(&rt, rt.alloc())?, [1; 3]);
    Ok(())
}
