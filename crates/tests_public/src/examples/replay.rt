// A soak of a recording cache: what four threads have done is done once more on a new core.
ghost use Rattle.std.specs.Prelude.{IfOk};
ghost use Rattle.mini_moka.specs.Sync.CoreState.{IsNew};

use mini_moka::common::time::Instant;
use mini_moka::common::{FixedState, Shared};
use mini_moka::sync::CacheBuilder;
use mini_moka::sync::engine::{Call, Core};
use mini_moka::sync::recorded::{CallPass, Record, Recorded, SharedCall};
use moka_examples::audit::is_replayed;
use std::alloc::{AllocError, Global};
use std::sync::{Arc, Wait};
use std::test::Fail;
use std::thread::{Builder, Threads};
use std::time::Duration;

/// Calls that each thread makes.
const CALLS: u64 = 20_000;

/// A core with a small limit and both durations, with which nothing has been done.
fn new_core(alloc: Global) -> Result<Core<u64, u64>, Fail>
    ensures { IfOk result (λ core. IsNew core.state) }
{
    let core = CacheBuilder::new(alloc, 50)
        .time_to_live(Duration::from_micros(4))
        .time_to_idle(Duration::from_micros(2))
        .build_core(FixedState::new())?;
    if !core.is_new() {
        return Err("a new core".into());
    }
    Ok(core)
}

/// The next of numbers that look random.
fn draw(state: &mut u64) -> u64 {
    *state = state
        .wrapping_mul(6_364_136_223_846_793_005)
        .wrapping_add(1_442_695_040_888_963_407);
    *state >> 33
}

/// A call of any kind on a hundred keys, at moments that come by and by.
fn drawn_call(
    alloc: Global,
    state: &mut u64,
    moment: u64,
) -> Result<SharedCall<u64, u64>, AllocError> {
    let now = Instant::from_nanos(moment);
    let key = Shared::new(alloc, draw(state) % 100)?;
    Ok(match draw(state) % 100 {
        0 => Call::InvalidateAll { now },
        1 => Call::Sync { now },
        2 => Call::Counts,
        3..=6 => Call::Invalidate { key, now },
        7..=9 => Call::Remove { key, now },
        10..=19 => Call::Contains { key, now },
        20..=49 => Call::Insert {
            key,
            value: Shared::new(alloc, draw(state))?,
            now,
        },
        _ => Call::Get { key, now },
    })
}

/// The pass, once a thread's calls are recorded, or nothing.
fn make_calls<R: Wait>(
    rt: &R,
    alloc: Global,
    cache: &Recorded<u64, u64>,
    mut pass: CallPass,
    seed: u64,
) -> Option<CallPass> {
    let mut state = seed;
    for moment in 0..CALLS {
        let call = drawn_call(alloc, &mut state, moment).ok()?;
        cache.call(rt, &mut pass, call).ok()?;
    }
    Some(pass)
}

/// The passes of callers, once a thread for each has recorded its calls.
fn passes_of_threads<R: Wait + Threads + Copy + Send + 'static>(
    rt: R,
    alloc: Global,
    cache: &Arc<Recorded<u64, u64>>,
    passes: Vec<CallPass>,
) -> Result<Vec<CallPass>, Fail> {
    let mut threads = Vec::new(alloc);
    for (seed, pass) in passes.into_iter().enumerate() {
        let shared = Arc::try_clone(cache)?;
        threads.push(Builder::new().spawn(&rt, move || {
            make_calls(&rt, alloc, &shared, pass, seed as u64)
        })?)?;
    }
    let mut passes = Vec::new(alloc);
    for thread in threads {
        if let Some(pass) = thread.join(&rt) {
            passes.push(pass)?;
        }
    }
    Ok(passes)
}

/// The record of a cache that nobody else has any more. Without the pass of a thread whose calls are not recorded it isn't closed.
fn closed(cache: Arc<Recorded<u64, u64>>, passes: Vec<CallPass>) -> Result<Record<u64, u64>, Fail> {
    match Arc::try_unwrap(cache) {
        Ok(cache) => Ok(cache.close(passes)?),
        Err(_) => Err("one owner".into()),
    }
}

#[test]
fn what_four_threads_record_is_replayed(rt: HostRuntime) -> Result<(), Fail> {
    let alloc = rt.alloc();
    let (cache, passes) = Recorded::open(alloc, new_core(alloc)?, 4)?;
    let cache = Arc::new(alloc, cache)?;
    let passes = passes_of_threads(rt, alloc, &cache, passes)?;
    let record = closed(cache, passes)?;
    assert_eq!(rt; record.calls().len(), 4 * CALLS as usize);
    assert!(rt; is_replayed(alloc, new_core(alloc)?, &record)?);
    Ok(())
}
