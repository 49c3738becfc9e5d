// The cache that threads share: what no type of a lock says. Some tests run several threads, which end by themselves with one answer.
mod held_up;
mod meeting;
mod meeting_point;
mod one_thread;
mod races;
mod recorded;
mod segment_calls;
mod segment_listeners;
mod segments;
mod sessions;
mod threads;

use std::sync::Wait;
use std::thread::{JoinHandle, Threads};

/// Returns `true` if each of these threads answers that all was well. All are waited for.
fn all_are_well<R: Wait + Threads>(rt: &R, threads: Vec<JoinHandle<bool>>) -> bool {
    let mut is_well = true;
    for thread in threads {
        is_well &= thread.join(rt);
    }
    is_well
}
