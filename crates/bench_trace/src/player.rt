// Plays traces on any cache that takes their operations.
ghost use Rattle.std.specs.Prelude.{◌+◌, ◌≡◌, ◌≢◌, ◌≤◌, length, IfOk};

use crate::Settings;
use crate::constants::{
    DONE, GET, GET_AND_INSERT, INSERT, OUT_OF_MEMORY, READ_THROUGH, REMOVE_AND_INSERT,
    SHARE_TOO_LARGE, UNKNOWN_KIND,
};
use crate::hasher::MultiplyState;
use crate::operation::Operation;
use moka_common::error::{BuildError, InsertError, OutOfMemory};
use moka_common::hash::FixedState;
use moka_common::time::Instant;
use std::alloc::{AllocError, AllocFailed, Global};
use std::hash::BuildHasher;

/// The outcome of a trace.
#[repr(C)]
#[derive(Clone, Copy)]
pub struct Outcome {
    /// Number of look-ups that found their key.
    pub hits: u64,
    /// The sum of the values that were found, modulo 2^64.
    pub checksum: u64,
    /// Number of entries in the end.
    pub entries: u64,
    /// Their weight.
    pub weight: u64,
}

/// Why a trace isn't played to its end.
#[derive(Clone, Copy)]
pub(crate) enum PlayError {
    OutOfMemory,
    UnknownKind,
    ShareTooLarge,
}

impl From<BuildError> for PlayError {
    // No duration is too long in nanoseconds of 64 bits.
    fn from(error: BuildError) -> PlayError {
        match error {
            BuildError::WindowShareTooLarge | BuildError::ProtectedShareTooLarge => {
                PlayError::ShareTooLarge
            }
            _ => PlayError::OutOfMemory,
        }
    }
}

impl From<InsertError> for PlayError {
    fn from(_error: InsertError) -> PlayError {
        PlayError::OutOfMemory
    }
}

impl From<OutOfMemory> for PlayError {
    fn from(_error: OutOfMemory) -> PlayError {
        PlayError::OutOfMemory
    }
}

impl From<AllocError> for PlayError {
    fn from(_error: AllocError) -> PlayError {
        PlayError::OutOfMemory
    }
}

impl<T: Drop> From<AllocFailed<T>> for PlayError {
    fn from(_error: AllocFailed<T>) -> PlayError {
        PlayError::OutOfMemory
    }
}

/// The hits so far.
#[derive(Clone, Copy)]
pub(crate) struct Found {
    pub(crate) hits: u64,
    pub(crate) checksum: u64,
}

impl Found {
    pub(crate) fn nothing() -> Found
        ensures { result.hits ≡ 0 }
    {
        Found {
            hits: 0,
            checksum: 0,
        }
    }

    /// One more look-up has found this value.
    pub(crate) fn add(&mut self, value: u64)
        ensures hits { self.new.hits ≤ self.old.hits + 1 }
    {
        self.hits = self.hits.saturating_add(1);
        self.checksum = self.checksum.wrapping_add(value);
    }
}

/// A cache that takes the operations of a trace.
pub(crate) trait Traced {
    // Whether it can take one.
    ghost ready: { Self → Type 0 };

    /// Looks a key up.
    fn look(&mut self, key: u64, now: Instant) -> Result<Option<u64>, PlayError>
        requires { ready self.old }
        ensures { ready self.new };

    /// Inserts a pair.
    fn put(&mut self, key: u64, value: u64, now: Instant) -> Result<(), PlayError>
        requires { ready self.old }
        ensures { ready self.new };

    /// Removes the entry of a key.
    fn take(&mut self, key: u64, now: Instant) -> Result<(), PlayError>
        requires { ready self.old }
        ensures { ready self.new };

    /// Does what is still to be done, and returns the number of entries and their weight.
    fn finish(&mut self, now: Instant) -> Result<(u64, u64), PlayError>
        requires { ready self.old }
        ensures { ready self.new };
}

/// A kind of caches that traces are played on.
pub(crate) trait Plays {
    /// Plays a trace on a new cache with this hash state.
    fn play_hashed<S: BuildHasher + Drop>(
        alloc: Global,
        settings: &Settings,
        operations: &[Operation],
        hash_state: S,
    ) -> Result<Outcome, PlayError>
        ensures { IfOk result (λ outcome. outcome.hits ≤ length operations.now) };
}

/// Plays a trace on a new cache. What it gave is in `outcome` if the answer is `DONE`; else `outcome` is as it was.
pub(crate) fn play_trace<P: Plays>(
    alloc: Global,
    settings: &Settings,
    operations: &[Operation],
    outcome: &mut Outcome,
) -> u32
    ensures known { result ≤ SHARE_TOO_LARGE }
    ensures done { result ≡ DONE → outcome.new.hits ≤ length operations.now }
    ensures refused { result ≢ DONE → outcome.new ≡ outcome.old }
{
    let played = if settings.is_std_hashed {
        P::play_hashed(alloc, settings, operations, FixedState::default())
    } else {
        P::play_hashed(alloc, settings, operations, MultiplyState)
    };
    match played {
        Ok(gave) => {
            *outcome = gave;
            DONE
        }
        Err(PlayError::OutOfMemory) => OUT_OF_MEMORY,
        Err(PlayError::UnknownKind) => UNKNOWN_KIND,
        Err(PlayError::ShareTooLarge) => SHARE_TOO_LARGE,
    }
}

/// Makes the operations in turn, the first at the settings' `start` and each further one `tick` later.
pub(crate) fn play<C: Traced>(
    cache: &mut C,
    settings: &Settings,
    operations: &[Operation],
) -> Result<Outcome, PlayError>
    requires { C.ready cache.old }
    ensures { IfOk result (λ outcome. outcome.hits ≤ length operations.now) }
{
    let mut found = Found::nothing();
    let mut now = settings.start;
    for operation in operations {
        play_one(cache, operation, Instant::from_nanos(now), &mut found)?;
        now = now.saturating_add(settings.tick);
    }
    let (entries, weight) = cache.finish(Instant::from_nanos(now))?;
    Ok(Outcome {
        hits: found.hits,
        checksum: found.checksum,
        entries,
        weight,
    })
}

/// Makes one operation.
fn play_one<C: Traced>(
    cache: &mut C,
    operation: &Operation,
    now: Instant,
    found: &mut Found,
) -> Result<(), PlayError>
    requires { C.ready cache.old }
    ensures ready { C.ready cache.new }
    ensures hits { found.new.hits ≤ found.old.hits + 1 }
{
    let key = operation.key;
    let value = u64::from(operation.value);
    match operation.kind {
        GET => {
            is_found(cache, key, now, found)?;
        }
        INSERT => cache.put(key, value, now)?,
        READ_THROUGH => {
            if !is_found(cache, key, now, found)? {
                cache.put(key, value, now)?;
            }
        }
        GET_AND_INSERT => {
            is_found(cache, key, now, found)?;
            cache.put(key, value, now)?;
        }
        REMOVE_AND_INSERT => {
            cache.take(key, now)?;
            cache.put(key, value, now)?;
        }
        _ => return Err(PlayError::UnknownKind),
    }
    Ok(())
}

/// Looks a key up, notes its value, and answers if it was found.
fn is_found<C: Traced>(
    cache: &mut C,
    key: u64,
    now: Instant,
    found: &mut Found,
) -> Result<bool, PlayError>
    requires { C.ready cache.old }
    ensures ready { C.ready cache.new }
    ensures hits { found.new.hits ≤ found.old.hits + 1 }
{
    match cache.look(key, now)? {
        Some(value) => {
            found.add(value);
            Ok(true)
        }
        None => Ok(false),
    }
}
