// A maintenance that is held up in the middle, by a value that waits where it is dropped.
ghost use Rattle.std.specs.Prelude.{⊤};

use crate::hashers::OwnState;
use crossbeam_utils::Backoff;
use moka_common::time::Instant;
use moka_shard::rule::AnyPair;
use moka_sync::builder::CacheBuilder;
use moka_sync::cache::{Cache, ConcurrentCacheExt};
use moka_sync_model::weigh::WeighShared;
use std::alloc::{AllocError, Global};
use std::rt::Clock;
use std::sync::atomic::{AtomicBool, Ordering};
use std::sync::{Arc, Wait};
use std::test::Fail;
use std::thread::{Builder, Threads, sleep};
use std::time::Duration;

/// How often a thread looks at a flag before it goes on without it: for most of a minute, however busy the machine is.
const LOOKS: u64 = 100_000_000;

/// Waits for a flag, for a while.
fn wait_for(flag: &AtomicBool) {
    let backoff = Backoff::new();
    for _ in 0..LOOKS {
        if flag.load(Ordering::SeqCst) {
            return;
        }
        backoff.snooze();
    }
}

/// A value whose clone holds a thread up.
#[derive(Drop)]
struct Gate {
    is_reached: AtomicBool,
    is_open: AtomicBool,
}

impl Gate {
    /// A closed gate.
    fn new(alloc: Global) -> Result<Arc<Gate>, AllocError> {
        let gate = Gate {
            is_reached: AtomicBool::new(false),
            is_open: AtomicBool::new(false),
        };
        Ok(Arc::new(alloc, gate)?)
    }

    /// Opens it.
    fn open(&self) {
        self.is_open.store(true, Ordering::SeqCst);
    }

    /// Says that a thread is here.
    fn reach(&self) {
        self.is_reached.store(true, Ordering::SeqCst);
    }

    /// Says that a thread is here, and waits until the gate is open.
    fn pass(&self) {
        self.reach();
        wait_for(&self.is_open);
    }
}

/// A value with a weight. Whoever drops one with a gate has to pass that.
struct Gated {
    weight: u32,
    gate: Option<Arc<Gate>>,
}

impl Drop for Gated {
    fn drop(self) {
        if let Some(gate) = &self.gate {
            gate.pass();
        }
        let Gated { weight: _, gate: _ } = self;
    }
}

impl Clone for Gated {
    ghost is_clone = { λ _ _. ⊤ };

    /// A value of the same weight without a gate.
    fn clone(&self) -> Result<Gated, AllocError> {
        Ok(light(self.weight))
    }
}

/// A value without a gate.
fn light(weight: u32) -> Gated {
    Gated { weight, gate: None }
}

/// A value with a gate.
fn with_gate(weight: u32, gate: &Arc<Gate>) -> Result<Gated, AllocError> {
    Ok(Gated {
        weight,
        gate: Some(gate.clone()?),
    })
}

/// Weighs a value by what it says.
#[derive(Drop)]
struct Weights;

impl WeighShared<u64, Gated> for Weights {
    ghost ready = { λ _. ⊤ };

    ghost weighs = { λ _ _ _ _. ⊤ };

    fn weigh(&self, _key: &u64, value: &Gated) -> u32 {
        value.weight
    }
}

type GatedCache = Cache<u64, Gated, OwnState, AnyPair, Weights, Global>;

/// A cache with this limit.
fn limited(alloc: Global, limit: u64) -> Result<GatedCache, Fail> {
    let builder = CacheBuilder::new(alloc, limit).weigher(Weights);
    Ok(builder.build_with_hasher(OwnState)?)
}

/// The moment at which a maintenance is due by time, after one at 0.
const DUE: u64 = 500_000_000;

fn at(nanos: u64) -> Instant {
    Instant::from_nanos(nanos)
}

/// Looks a key up a number of times.
fn get_often<R: Wait>(rt: &R, cache: &GatedCache, key: u64, times: u64, now: Instant) {
    for _ in 0..times {
        let _ = cache.get(rt, &key, now);
    }
}

/// Fills a cache of weight 2 with the keys 1 and 2, of which 1 is the least recently used. An entry that is too heavy waits to be rejected, once a
/// maintenance is due by time.
fn fill<R: Wait>(rt: &R, cache: &GatedCache, gate: &Arc<Gate>) -> Result<(), Fail> {
    get_often(rt, cache, 9, 65, at(0));
    cache.insert(rt, 1, light(1), at(0))?;
    cache.insert(rt, 2, light(1), at(0))?;
    cache.sync(rt, at(0));
    Ok(cache.insert(rt, 0, with_gate(3, gate)?, at(0))?)
}

/// Reads while a maintenance is held up: the key 7 until the log holds 64 reads, and then the key 1. Returns whether 1 and 2 give way to 7 in the end.
fn read_past_64<R: Wait + Threads + Copy + Send + 'static>(
    rt: R,
    alloc: Global,
) -> Result<[bool; 2], Fail> {
    let gate = Gate::new(alloc)?;
    let cache = limited(alloc, 2)?;
    fill(&rt, &cache, &gate)?;
    let shared = cache.clone()?;
    let maintenance = Builder::new().spawn(&rt, move || {
        get_often(&rt, &shared, 9, 1, at(DUE));
        true
    })?;
    wait_for(&gate.is_reached);
    get_often(&rt, &cache, 7, 64, at(DUE));
    get_often(&rt, &cache, 1, 1, at(DUE));
    gate.open();
    let _ = maintenance.join(&rt);
    cache.sync(&rt, at(DUE));
    cache.insert(&rt, 7, light(1), at(DUE))?;
    cache.sync(&rt, at(DUE));
    let has_left = |key: u64| !cache.contains_key(&rt, &key, at(DUE));
    Ok([has_left(1), has_left(2)])
}

#[test]
fn a_read_past_the_flush_point_is_applied(rt: HostRuntime) -> Result<(), Fail> {
    assert_eq!(rt; read_past_64(rt, rt.alloc())?, [false, true]);
    Ok(())
}

/// Milliseconds for a thread to come to the lock that it waits for.
const START: u64 = 2;

/// Entries of two keys of one shard: 16, and 0 with a gate.
fn fill_shard<R: Wait>(rt: &R, cache: &GatedCache, gate: &Arc<Gate>) -> Result<(), Fail> {
    cache.insert(rt, 16, light(1), at(1))?;
    cache.insert(rt, 0, with_gate(1, gate)?, at(1))?;
    cache.sync(rt, at(1));
    cache.invalidate_all(at(1));
    Ok(())
}

/// Hides all entries while a maintenance waits for the lock of their shard, which another thread has that removes the key 0. Returns how many entries are
/// counted then: what is charged for 0 until its removal is applied, and 16 if it isn't seen to be hidden.
fn count_after_hiding<R: Wait + Threads + Clock + Copy + Send + 'static>(
    rt: R,
    alloc: Global,
) -> Result<u64, Fail> {
    let (gate, begun) = (Gate::new(alloc)?, Gate::new(alloc)?);
    let cache = limited(alloc, 10)?;
    fill_shard(&rt, &cache, &gate)?;
    let (removing, syncing, told) = (cache.clone()?, cache.clone()?, begun.clone()?);
    let removal = Builder::new().spawn(&rt, move || removing.invalidate(&rt, &0, at(2)))?;
    wait_for(&gate.is_reached);
    let maintenance = Builder::new().spawn(&rt, move || {
        told.reach();
        syncing.sync(&rt, at(2));
    })?;
    wait_for(&begun.is_reached);
    sleep(&rt, Duration::from_millis(START));
    cache.invalidate_all(at(2));
    gate.open();
    removal.join(&rt);
    maintenance.join(&rt);
    Ok(cache.entry_count())
}

#[test]
fn a_turn_loads_the_moment_of_invalidation_behind_its_lock(rt: HostRuntime) -> Result<(), Fail> {
    for _ in 0..5 {
        assert!(rt; count_after_hiding(rt, rt.alloc())? < 2);
    }
    Ok(())
}
