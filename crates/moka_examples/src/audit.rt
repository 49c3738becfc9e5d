//! An audit: threads make calls on a recording cache, and a new cache makes them once more afterwards, in the order of the record.
ghost use Rattle.std.specs.Prelude.{IfOk};
ghost use Rattle.mini_moka.specs.Sync.CoreState.{IsNew};

use mini_moka::Error;
use mini_moka::common::time::Instant;
use mini_moka::common::{FixedState, OutOfMemory, Shared};
use mini_moka::sync::engine::{Call, Core, Reply};
use mini_moka::sync::recorded::{Answer, CallPass, CloseError, Record, Recorded, SharedCall};
use std::alloc::Global;
use std::sync::{Arc, Wait};
use std::thread::{Builder, Threads};

/// Makes a core without a limit, on which nothing has been done.
pub fn new_core(alloc: Global) -> Result<Core<u64, u64>, Error>
    ensures { IfOk result (λ core. IsNew core.state) }
{
    Ok(Core::new(alloc, FixedState::new())?)
}

/// Returns a call of a caller: one in three inserts the caller's number, the others get.
fn call_of(alloc: Global, caller: u64, number: u64) -> Result<SharedCall<u64, u64>, Error> {
    let key = Shared::new(alloc, number % 10)?;
    let now = Instant::from_nanos(number);
    if number % 3 != caller % 3 {
        return Ok(Call::Get { key, now });
    }
    let value = Shared::new(alloc, caller)?;
    Ok(Call::Insert { key, value, now })
}

/// Makes a caller's calls, and gives its pass back.
fn make_calls<R: Wait>(
    rt: &R,
    alloc: Global,
    cache: &Recorded<u64, u64>,
    mut pass: CallPass,
    caller: u64,
) -> Result<CallPass, Error> {
    for number in 0..100u64 {
        cache.call(rt, &mut pass, call_of(alloc, caller, number)?)?;
    }
    Ok(pass)
}

/// Returns the record of a cache to which each of these threads makes a hundred calls.
pub fn record_of_threads<R: Wait + Threads + Copy + Send + 'static>(
    rt: R,
    alloc: Global,
    callers: usize,
) -> Result<Record<u64, u64>, Error> {
    let (cache, passes) = Recorded::open(alloc, new_core(alloc)?, callers)?;
    let cache = Arc::new(alloc, cache)?;
    let mut threads = Vec::new(alloc);
    for (caller, pass) in passes.into_iter().enumerate() {
        let shared = Arc::try_clone(&cache)?;
        let calls = move || make_calls(&rt, alloc, &shared, pass, caller as u64);
        threads.push(Builder::new().spawn(&rt, calls)?)?;
    }
    let mut passes = Vec::new(alloc);
    for thread in threads {
        passes.push(thread.join(&rt)?)?;
    }
    let Ok(cache) = Arc::try_unwrap(cache) else {
        return Err(CloseError::PassMissing.into());
    };
    Ok(cache.close(passes)?)
}

/// Returns `true` if two calls had the same answer.
fn is_same(one: &Answer<u64, u64>, other: &Answer<u64, u64>) -> bool {
    match (one, other) {
        (Reply::Done, Reply::Done) | (Reply::Found(None), Reply::Found(None)) => true,
        (Reply::Found(Some(found)), Reply::Found(Some(value))) => *found.get() == *value.get(),
        (Reply::Bool(truth), Reply::Bool(again)) => *truth == *again,
        (
            Reply::Counts { count, weight },
            Reply::Counts {
                count: counted,
                weight: weighed,
            },
        ) => *count == *counted && *weight == *weighed,
        _ => false,
    }
}

/// Makes the calls of a record on another one, and says whether each was answered as it was answered then.
fn answers_alike(again: &mut Record<u64, u64>, record: &Record<u64, u64>) -> Result<bool, Error> {
    for made in record.calls() {
        let call = made.call.try_clone().map_err(|_| OutOfMemory)?;
        if !is_same(&again.apply(call)?, &made.reply) {
            return Ok(false);
        }
    }
    Ok(true)
}

/// Returns `true` if a new core answers each call of a record as it was answered then.
pub fn is_replayed(
    alloc: Global,
    core: Core<u64, u64>,
    record: &Record<u64, u64>,
) -> Result<bool, Error>
    requires { IsNew core.state }
{
    let mut again = Record::new(alloc, core);
    answers_alike(&mut again, record)
}
