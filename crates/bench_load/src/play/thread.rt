// What one thread of a play does.
ghost use Rattle.std.specs.Prelude.{◌≡◌, ◌+◌, ◌≤◌, length, IfOk};

use crate::play::error::PlayError;
use crate::play::moments::Moments;
use crate::play::request::Call;
use crate::play::side::Called;
use std::sync::{Barrier, Wait};
use std::thread::JoinHandle;
use std::time::{Clock, Instant};

/// The look-ups of a thread so far.
#[derive(Clone, Copy)]
pub(crate) struct Found {
    /// Look-ups that found their key.
    pub(crate) hits: u64,
    /// The sum of the found values, modulo 2^64.
    pub(crate) sum: u64,
}

impl Found {
    fn nothing() -> Found
        ensures { result.hits ≡ 0 }
    {
        Found { hits: 0, sum: 0 }
    }

    /// One more look-up has found this value.
    fn add(&mut self, value: u64)
        ensures hits { self.new.hits ≤ self.old.hits + 1 }
    {
        self.hits = self.hits.saturating_add(1);
        self.sum = self.sum.wrapping_add(value);
    }
}

/// The hits of a thread and its times, or of several threads together.
#[derive(Clone, Copy)]
pub(crate) struct Played {
    pub(crate) found: Found,
    begun: Instant,
    ended: Instant,
}

impl Played {
    /// Both together.
    pub(crate) fn with(self, other: Played) -> Played {
        Played {
            found: Found {
                hits: self.found.hits.saturating_add(other.found.hits),
                sum: self.found.sum.wrapping_add(other.found.sum),
            },
            begun: self.begun.min(other.begun),
            ended: self.ended.max(other.ended),
        }
    }

    /// The nanoseconds from the first beginning to the last end.
    pub(crate) fn nanos(&self) -> u64 {
        let time = self.ended.duration_since(self.begun);
        u64::try_from(time.as_nanos()).unwrap_or(u64::MAX)
    }
}

/// A thread that plays. It gives its list of calls back.
pub(crate) type Playing = JoinHandle<Result<(Vec<Call>, Played), PlayError>>;

/// Waits until all threads are there, and makes the calls.
pub(crate) fn play_thread<C: Called, M: Moments, R: Wait + Clock>(
    rt: &R,
    cache: &mut C,
    moments: M,
    together: &Barrier,
    calls: Vec<Call>,
) -> Result<(Vec<Call>, Played), PlayError> {
    let _ = together.wait(rt);
    let played = play_timed(rt, cache, moments, &calls)?;
    Ok((calls, played))
}

/// Makes the calls in turn, and reads the clock before and after them.
pub(crate) fn play_timed<C: Called, M: Moments, R: Wait + Clock>(
    rt: &R,
    cache: &mut C,
    moments: M,
    calls: &[Call],
) -> Result<Played, PlayError> {
    let begun = Instant::now(rt)?;
    let found = play_calls(rt, cache, moments, calls)?;
    let ended = Instant::now(rt)?;
    Ok(Played {
        found,
        begun,
        ended,
    })
}

/// Makes the calls in turn.
pub(crate) fn play_calls<C: Called, M: Moments, R: Wait + Clock>(
    rt: &R,
    cache: &mut C,
    moments: M,
    calls: &[Call],
) -> Result<Found, PlayError>
    ensures { IfOk result (λ found. found.hits ≤ length calls.now) }
{
    let mut found = Found::nothing();
    for call in calls {
        play_call(rt, cache, moments, *call, &mut found)?;
    }
    Ok(found)
}

/// Makes one call, or the two of a look-up that inserts what it misses.
fn play_call<C: Called, M: Moments, R: Wait + Clock>(
    rt: &R,
    cache: &mut C,
    moments: M,
    call: Call,
    found: &mut Found,
) -> Result<(), PlayError>
    ensures hits { found.new.hits ≤ found.old.hits + 1 }
{
    match call {
        Call::Get(key) => {
            is_found(rt, cache, moments, key, found)?;
        }
        Call::Insert(key) => cache.put(rt, key, moments.next(rt)?)?,
        Call::Read(key) => {
            if !is_found(rt, cache, moments, key, found)? {
                cache.put(rt, key, moments.next(rt)?)?;
            }
        }
        Call::Count => {
            let _ = cache.count(rt);
        }
        Call::Sync => {
            let _ = cache.entries(rt, moments.next(rt)?);
        }
    }
    Ok(())
}

/// Looks a key up, notes its value, and returns `true` if it was found.
fn is_found<C: Called, M: Moments, R: Wait + Clock>(
    rt: &R,
    cache: &mut C,
    moments: M,
    key: u64,
    found: &mut Found,
) -> Result<bool, PlayError>
    ensures hits { found.new.hits ≤ found.old.hits + 1 }
{
    match cache.look(rt, key, moments.next(rt)?)? {
        Some(value) => {
            found.add(value);
            Ok(true)
        }
        None => Ok(false),
    }
}
