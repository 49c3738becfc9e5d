// A soak from its first call to its report.
ghost use Rattle.std.specs.Prelude.{◌≡◌, IfOk};

use crate::soak::caller::Caller;
use crate::soak::constants::CALLERS;
use crate::soak::draws::Draws;
use crate::soak::errors::SoakError;
use crate::soak::looks::final_looks;
use crate::soak::moments::Clock;
use crate::soak::report::Report;
use crate::soak::soaked::Soaked;
use crate::soak::tally::Tally;
use std::alloc::Global;
use std::sync::Wait;
use std::thread::{Builder, Threads};

/// Makes `calls` calls from eight threads on one cache, and looks at it afterwards. Which calls are made is up to the seed, and what they give
/// also to the order in which the threads come.
pub fn soak<C: Soaked + Send + 'static, R: Wait + Threads + Copy + Send + 'static>(
    rt: R,
    alloc: Global,
    cache: &C,
    calls: u64,
    seed: u64,
) -> Result<Report, SoakError>
    ensures calls { IfOk result (λ report. report.calls ≡ calls) }
    ensures seed { IfOk result (λ report. report.seed ≡ seed) }
{
    let clock = Clock::new(alloc)?;
    let tally = soak_by_threads(rt, alloc, cache, &clock, calls, seed)?;
    let mut draws = Draws::new(seed, CALLERS);
    let looks = final_looks(&rt, alloc, cache, &mut draws, clock.millis())?;
    Ok(Report {
        calls,
        seed,
        tally,
        looks,
    })
}

/// Runs the callers, and returns what they met with together.
fn soak_by_threads<C: Soaked + Send + 'static, R: Wait + Threads + Copy + Send + 'static>(
    rt: R,
    alloc: Global,
    cache: &C,
    clock: &Clock,
    calls: u64,
    seed: u64,
) -> Result<Tally, SoakError> {
    let mut threads = Vec::new(alloc);
    for number in 0..CALLERS {
        let mut caller = Caller::new(alloc, cache.another()?, clock.try_clone()?, seed, number)?;
        let share = share_of(calls, number);
        let thread = Builder::new().spawn(&rt, move || caller.run(&rt, share))?;
        threads.push(thread)?;
    }
    let mut tally = Tally::NOTHING;
    for thread in threads {
        tally = tally.and(&thread.join(&rt));
    }
    Ok(tally)
}

/// Returns the number of calls of the caller with this number: every eighth, from its own on.
fn share_of(calls: u64, number: u64) -> u64 {
    calls.saturating_sub(number).div_ceil(CALLERS)
}
