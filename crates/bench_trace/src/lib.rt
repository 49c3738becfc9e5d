//! Whole traces of the cache for one thread, for a caller in C: one call builds a cache, makes every operation of a trace on it, and
//! drops it. Another does the same with the core of the cache that threads share. Beside them each part of the cache for one thread has a
//! call that makes a whole batch of its operations.
#![tactic(auto)]

ghost use Rattle.std.specs.Prelude.{◌≡◌, ◌≤◌, ◌≢◌, length};

pub mod constants;
mod core_player;
mod hasher;
mod index;
mod list;
mod operation;
mod player;
mod sketch;
mod unsync_player;
mod weigher;

use crate::constants::{DONE, SHARE_TOO_LARGE};
use crate::core_player::OnCore;
use crate::operation::Operation;
use crate::player::{Outcome, play_trace};
use crate::unsync_player::OnUnsync;
use std::alloc::Global;

/// The settings of a cache, and the moments of its operations. A capacity or a duration, in nanoseconds, that is `UNLIMITED` isn't set.
#[repr(C)]
#[derive(Clone, Copy)]
pub struct Settings {
    pub capacity: u64,
    pub time_to_live: u64,
    pub time_to_idle: u64,
    /// The moment of the first operation.
    pub start: u64,
    /// Nanoseconds from one operation to the next.
    pub tick: u64,
    /// True if an entry weighs its value and not 1.
    pub is_weighed: bool,
    /// True if keys are hashed by std's default hash state and not by one multiplication.
    pub is_std_hashed: bool,
    /// The shares of the window and of protected entries, in percent.
    pub window_share: u8,
    pub protected_share: u8,
    /// True if the window adapts to the calls.
    pub is_adaptive: bool,
}

/// Plays a trace on a new single-thread cache. What it gave is in `outcome` if the answer is `DONE`; else `outcome` is as it was.
#[unsafe(no_mangle)]
pub extern "C" fn bench_trace_play(
    alloc: Global,
    settings: &Settings,
    operations: &[Operation],
    outcome: &mut Outcome,
) -> u32
    ensures known { result ≤ SHARE_TOO_LARGE }
    ensures done { result ≡ DONE → outcome.new.hits ≤ length operations.now }
    ensures refused { result ≢ DONE → outcome.new ≡ outcome.old }
{
    play_trace::<OnUnsync>(alloc, settings, operations, outcome)
}

/// Plays a trace on a new core, and ends with a whole maintenance. The answer is that of `bench_trace_play`.
#[unsafe(no_mangle)]
pub extern "C" fn bench_trace_play_core(
    alloc: Global,
    settings: &Settings,
    operations: &[Operation],
    outcome: &mut Outcome,
) -> u32
    ensures known { result ≤ SHARE_TOO_LARGE }
    ensures done { result ≡ DONE → outcome.new.hits ≤ length operations.now }
    ensures refused { result ≢ DONE → outcome.new ≡ outcome.old }
{
    play_trace::<OnCore>(alloc, settings, operations, outcome)
}
