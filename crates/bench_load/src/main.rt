//! Loads the cache that threads share, line by line of standard input, and writes the replies to standard output: plays, which are timed, and soaks, whose
//! answers are compared with what they may be. `bench/run threads` and `bench/soak` send it their lines; the README says what each line does.
//!
//! The status is 0 at the end of the input, 2 at a line that is no request or comes too early, and 1 where a soak wasn't sound or memory or the system
//! refused a call. What it was is written to standard error.
#![tactic(auto)]

mod play;
mod soak;

use crate::play::error::PlayError;
use crate::play::player::Player;
use crate::soak::errors::SoakError;
use crate::soak::report::Report;
use crate::soak::soak;
use crate::soak::soaked::{new_cache, new_segments};
use std::alloc::Global;
use std::io::{BufRead, BufReader};
use std::process::ExitCode;
use std::sync::Wait;
use std::thread::Threads;
use std::time::Clock;

/// Which cache a soak calls.
#[derive(Clone, Copy)]
enum Kind {
    Sync,
    Segments,
}

/// A soak that a line asks for.
#[derive(Clone, Copy)]
struct Asked {
    kind: Kind,
    calls: u64,
    seed: u64,
    /// True if the line asks only for a verdict, which a soak gives that was served.
    is_short: bool,
}

impl Asked {
    /// Parses a line `soak CALLS SEED` or `soak_segments CALLS SEED`, or one with `check` for `soak`, if it is one.
    fn parse(line: &str) -> Option<Asked> {
        let (word, numbers) = line.split_once(' ')?;
        let (kind, is_short) = match word {
            "soak" => (Kind::Sync, false),
            "check" => (Kind::Sync, true),
            "soak_segments" => (Kind::Segments, false),
            "check_segments" => (Kind::Segments, true),
            _ => return None,
        };
        let (calls, seed) = numbers.split_once(' ')?;
        Some(Asked {
            kind,
            calls: calls.parse::<u64>().ok()?,
            seed: seed.parse::<u64>().ok()?,
            is_short,
        })
    }

    /// Soaks a new cache.
    fn run<R: Wait + Threads + Copy + Send + 'static>(
        &self,
        rt: R,
        alloc: Global,
    ) -> Result<Report, SoakError> {
        match self.kind {
            Kind::Sync => soak(rt, alloc, &new_cache(alloc)?, self.calls, self.seed),
            Kind::Segments => soak(rt, alloc, &new_segments(alloc)?, self.calls, self.seed),
        }
    }
}

/// Writes a report, or its verdict where that is enough.
fn tell(rt: &impl Print, report: &Report, is_short: bool) -> Result<(), PlayError> {
    if is_short && report.is_served() {
        println!(rt; "{}", report.verdict())?;
    } else {
        println!(rt; "{report}")?;
    }
    if report.is_sound() {
        return Ok(());
    }
    Err(PlayError::NotSound)
}

/// Takes the lines of standard input in turn, and writes the replies.
fn load_lines<R: Input + Print + Wait + Threads + Clock + Copy + Send + 'static>(
    rt: R,
    alloc: Global,
) -> Result<(), PlayError> {
    let mut player = Player::new(alloc);
    for line in BufReader::new(alloc, rt.reader())?.lines(alloc) {
        let line = line?;
        if let Some(asked) = Asked::parse(&line) {
            let report = asked.run(rt, alloc)?;
            tell(&rt, &report, asked.is_short)?;
        } else if let Some(reply) = player.take(rt, &line)? {
            println!(rt; "{reply}")?;
        }
    }
    Ok(())
}

fn main(rt: HostRuntime) -> ExitCode {
    match load_lines(rt, rt.alloc()) {
        Ok(()) => ExitCode::SUCCESS,
        Err(error) => {
            // Nobody is left to hear of a fault in telling of the fault.
            let _ = eprintln!(rt; "{error}");
            ExitCode::from(error.status())
        }
    }
}
