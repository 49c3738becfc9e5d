// Two threads that hold the locks of two shards at the same time.
ghost use Rattle.std.specs.Prelude.{⊤};

use crate::hashers::OwnState;
use crate::shared::all_are_well;
use crossbeam_utils::Backoff;
use moka_common::time::Instant;
use moka_shard::rule::AnyPair;
use moka_sync::builder::CacheBuilder;
use moka_sync::cache::{Cache, ConcurrentCacheExt};
use moka_sync_model::weigh::WeighShared;
use std::alloc::Global;
use std::sync::atomic::{AtomicBool, Ordering};
use std::sync::{Arc, Barrier, Wait};
use std::test::Fail;
use std::thread::{Builder, Threads};

/// How often a weigher looks for the other one: for most of a minute, however busy the machine is.
const LOOKS: u32 = 100_000_000;

/// A weigher of two keys, which is asked behind the locks of their shards. It answers 2 where it has met the weigher of the other key, and else 1.
#[derive(Drop)]
struct Meeting {
    first: AtomicBool,
    second: AtomicBool,
}

impl WeighShared<u64, u64> for Meeting {
    ghost ready = { λ _. ⊤ };

    ghost weighs = { λ _ _ _ _. ⊤ };

    fn weigh(&self, key: &u64, _value: &u64) -> u32 {
        let (own, other) = if *key == 0 {
            (&self.first, &self.second)
        } else {
            (&self.second, &self.first)
        };
        own.store(true, Ordering::SeqCst);
        let backoff = Backoff::new();
        for _ in 0..LOOKS {
            if other.load(Ordering::SeqCst) {
                return 2;
            }
            backoff.snooze();
        }
        1
    }
}

type MeetingCache = Cache<u64, u64, OwnState, AnyPair, Meeting, Global>;

/// Inserts a key once both threads are there.
fn insert_together<R: Wait>(rt: &R, cache: &MeetingCache, together: &Barrier, key: u64) -> bool {
    let _ = together.wait(rt);
    cache.insert(rt, key, 0, Instant::from_nanos(0)).is_ok()
}

/// Returns `true` if two threads insert a key each, and meet before that.
fn are_inserted_together<R: Wait + Threads + Copy + Send + 'static>(
    rt: R,
    alloc: Global,
    cache: &MeetingCache,
) -> Result<bool, Fail> {
    let together = Arc::new(alloc, Barrier::new(2))?;
    let mut threads = Vec::new(alloc);
    for key in 0..2u64 {
        let (shared, together) = (cache.clone()?, together.clone()?);
        threads.push(Builder::new().spawn(&rt, move || {
            insert_together(&rt, &shared, &together, key)
        })?)?;
    }
    Ok(all_are_well(&rt, threads))
}

#[test]
fn keys_of_two_shards_are_weighed_at_the_same_time(rt: HostRuntime) -> Result<(), Fail> {
    let meeting = Meeting {
        first: AtomicBool::new(false),
        second: AtomicBool::new(false),
    };
    let cache: MeetingCache = CacheBuilder::default(rt.alloc())
        .weigher(meeting)
        .build_with_hasher(OwnState)?;
    assert!(rt; are_inserted_together(rt, rt.alloc(), &cache)?);
    cache.sync(&rt, Instant::from_nanos(0));
    assert_eq!(rt; cache.weighted_size(), 4);
    Ok(())
}
