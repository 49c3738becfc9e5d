//! How a thread waits for what another thread is about to give back.
use crossbeam_utils::Backoff;
use std::hint;
use std::sync::atomic::{AtomicUsize, Ordering};
use std::sync::{Mutex, MutexGuard, Wait};

/// Pauses, each twice as long as the one before, that a thread makes at once when it finds a lock held. Together they take about as long as a part of a cache
/// is held.
const INITIAL_BACKOFF: usize = 4;

/// Number of looks at a lock after that, each after a longer pause, before the thread sleeps until it is unlocked.
const LOCK_ATTEMPTS: usize = 64;

/// Spin hints between two looks of a yielding lock, about 30 microseconds.
const YIELDING_SPINS: usize = 600;

/// Number of such looks. After them the thread waits as others do, and so lets a thread run that has the lock and no processor.
const YIELDING_ATTEMPTS: usize = 8;

/// Number of looks of a writer at a full log, before it asks again whether a maintenance is due.
const SPACE_ATTEMPTS: usize = 16;

/// The space, in operations, that a writer waits for. If several wait, they push in turns of this many, and don't all ask for the lock at
/// each operation that leaves the log.
pub(crate) const WRITE_BATCH: usize = 16;

/// Locks, and waits while another thread has the lock.
#[inline]
pub fn lock<'a, T, R: Wait>(rt: &R, part: &'a Mutex<T>) -> MutexGuard<'a, T> {
    match part.try_lock() {
        Some(guard) => guard,
        None => wait_for(rt, part),
    }
}

/// Locks what was found locked. A part of a cache is held for some hundred instructions, so a thread looks again for a while, ever more seldom, before it
/// sleeps. To put a thread to sleep and to wake it takes longer than that. Each look takes the cache line of the lock from its holder.
#[cold]
#[inline(never)]
fn wait_for<'a, T, R: Wait>(rt: &R, part: &'a Mutex<T>) -> MutexGuard<'a, T> {
    let backoff = pause();
    for _ in 0..LOCK_ATTEMPTS {
        if let Some(guard) = part.try_lock() {
            return guard;
        }
        backoff.snooze();
    }
    part.lock(rt)
}

/// Locks with low priority: on contention it backs off longer than `lock`. The maintenance takes reads out of their log so, since each look takes the cache
/// line of the lock from callers that push. A read that finds the log full costs nobody more.
pub(crate) fn lock_yielding<'a, T, R: Wait>(rt: &R, part: &'a Mutex<T>) -> MutexGuard<'a, T> {
    for _ in 0..YIELDING_ATTEMPTS {
        if let Some(guard) = part.try_lock() {
            return guard;
        }
        spin(YIELDING_SPINS);
    }
    lock(rt, part)
}

/// Gives the processor `count` hints that this thread waits for another.
fn spin(count: usize) {
    for _ in 0..count {
        hint::spin_loop();
    }
}

/// Returns `true` if a log has space, or gets it while the caller waits, by the word with its length.
pub(crate) fn has_room(len: &AtomicUsize, size: usize) -> bool {
    len.load(Ordering::Acquire) < size || gets_room(len, size)
}

/// Returns `true` if a full log gets space while the caller looks at its word, ever more seldom.
#[cold]
#[inline(never)]
fn gets_room(len: &AtomicUsize, size: usize) -> bool {
    let backoff = pause();
    for _ in 0..SPACE_ATTEMPTS {
        if len.load(Ordering::Acquire) < size.saturating_sub(WRITE_BATCH) {
            return true;
        }
        backoff.snooze();
    }
    len.load(Ordering::Acquire) < size
}

/// Makes the first pauses of a wait.
fn pause() -> Backoff {
    let backoff = Backoff::new();
    for _ in 0..INITIAL_BACKOFF {
        backoff.snooze();
    }
    backoff
}
