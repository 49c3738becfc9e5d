// The calls of a cache of numbers. Each borrows the cache from its handle, and makes one call of it.
ghost use Rattle.std.specs.Prelude.{◌≡◌, ◌≢◌, false, IfErr, IfOk, None};
ghost use Rattle.mini_moka_c.specs.Calls.{OnNumbers, OnOpen};
ghost use Rattle.mini_moka_c.specs.Drain.{TellsRemoved, TellsRemovedOf};
ghost use Rattle.mini_moka_c.specs.NumberCalls.{IsNumberInvalidation, TellsFound, TellsGet, TellsGotOrInserted, TellsInsert, TellsLook, TellsNumberWalk};
ghost use Rattle.mini_moka_c.specs.NumberCalls.{TellsInsertFor, TellsPeek, TellsRemove, TellsStep};
ghost use Rattle.mini_moka_c.specs.Opening.{IsNumbersKept, IsOpening, refusal_of, settings_fault};

use crate::constants::{ABSENT, ALREADY_OPEN, CHANGED, DONE, NO_TIME_TO_LIVE, OUT_OF_MEMORY};
use crate::handle::{AnyCache, Handle};
use crate::removed::{Removed, number_of};
use crate::settings::{NumberSettings, build_numbers, settings_fault};
use crate::steps::NumberStep;
use moka_common::time::Instant;
use moka_unsync::error::TimedInsertError;
use std::alloc::Global;
use std::time::Duration;

/// Opens a closed handle with a new cache of numbers. If a duration is 0, a share is above 100 or memory is refused it stays closed, and an open handle
/// stays as it is: `ALREADY_OPEN`.
#[unsafe(no_mangle)]
pub extern "C" fn mini_moka_u64_open(
    alloc: Global,
    handle: &mut Handle,
    settings: &NumberSettings,
) -> u32
    ensures { IsOpening (settings_fault settings.now.time_to_live settings.now.time_to_idle settings.now.window_share settings.now.protected_share)
        (IsNumbersKept settings.now) handle.old.value result handle.new.value }
{
    match handle.kept() {
        Some(_) => ALREADY_OPEN,
        None => match cache_of(alloc, settings) {
            Ok(kept) => {
                handle.put(kept);
                DONE
            }
            Err(status) => status,
        },
    }
}

/// Makes a new cache of the settings in a box. The error is a status: settings are at fault, or memory is refused.
fn cache_of(alloc: Global, settings: &NumberSettings) -> Result<Box<AnyCache>, u32>
    ensures ok { IfOk result (λ kept.
        (settings_fault settings.now.time_to_live settings.now.time_to_idle settings.now.window_share settings.now.protected_share ≡ None)
        × IsNumbersKept settings.now kept.value) }
    ensures err { IfErr result (λ status. status
        ≡ refusal_of (settings_fault settings.now.time_to_live settings.now.time_to_idle settings.now.window_share settings.now.protected_share)) }
{
    if let Some(status) = settings_fault(
        settings.time_to_live,
        settings.time_to_idle,
        settings.window_share,
        settings.protected_share,
    ) {
        return Err(status);
    }
    let Some(cache) = build_numbers(alloc, settings) else {
        return Err(OUT_OF_MEMORY);
    };
    Box::new(alloc, AnyCache::Numbers(cache)).map_err(|_| OUT_OF_MEMORY)
}

/// Inserts the key and the value. If a new entry exceeds the capacity, the admission policy may reject it: `REJECTED`.
#[unsafe(no_mangle)]
pub extern "C" fn mini_moka_u64_insert(handle: &mut Handle, key: u64, value: u64, now: u64) -> u32
    ensures { OnOpen handle.old.value result handle.new.value (OnNumbers result (TellsInsert key value None now result)) }
{
    match handle.numbers() {
        Ok(numbers) => match numbers.insert(key, value, Instant::from_nanos(now)) {
            Ok(inserted) => inserted.status(),
            Err(_) => OUT_OF_MEMORY,
        },
        Err(status) => status,
    }
}

/// Inserts the key and the value, as `mini_moka_u64_insert` does, with its own time to live in nanoseconds. The entry expires after that, or after the
/// cache's time to live if that is shorter. In a cache without one nothing is done: `NO_TIME_TO_LIVE`.
#[unsafe(no_mangle)]
pub extern "C" fn mini_moka_u64_insert_for(
    handle: &mut Handle,
    key: u64,
    value: u64,
    time_to_live: u64,
    now: u64,
) -> u32
    ensures { OnOpen handle.old.value result handle.new.value (OnNumbers result (TellsInsertFor key value time_to_live now result)) }
{
    let own = Duration::from_nanos(time_to_live);
    match handle.numbers() {
        Ok(numbers) => match numbers.insert_for(key, value, own, Instant::from_nanos(now)) {
            Ok(inserted) => inserted.status(),
            Err(TimedInsertError::NoTimeToLive) => NO_TIME_TO_LIVE,
            Err(TimedInsertError::OutOfMemory) => OUT_OF_MEMORY,
        },
        Err(status) => status,
    }
}

/// Looks the key up: its unexpired entry becomes the most recently used one. The key is counted, found or not.
#[unsafe(no_mangle)]
pub extern "C" fn mini_moka_u64_get(handle: &mut Handle, key: u64, now: u64, value: &mut u64) -> u32
    ensures step { OnOpen handle.old.value result handle.new.value (OnNumbers result (TellsGet key now result value.new)) }
    ensures unchanged { result ≢ DONE → value.new ≡ value.old }
{
    match handle.numbers() {
        Ok(numbers) => {
            let found = numbers.get(key, Instant::from_nanos(now));
            tell(found, value)
        }
        Err(status) => status,
    }
}

/// Looks the key up, which doesn't count as an access.
#[unsafe(no_mangle)]
pub extern "C" fn mini_moka_u64_peek(
    handle: &mut Handle,
    key: u64,
    now: u64,
    value: &mut u64,
) -> u32
    ensures step { OnOpen handle.old.value result handle.new.value (OnNumbers result (TellsPeek key now result value.new)) }
    ensures unchanged { result ≢ DONE → value.new ≡ value.old }
{
    match handle.numbers() {
        Ok(numbers) => {
            let found = numbers.peek(key, Instant::from_nanos(now));
            tell(found, value)
        }
        Err(status) => status,
    }
}

/// Looks the key up as `mini_moka_u64_get` does, and inserts `otherwise` if it finds nothing. Writes the found value, or `otherwise`, even if the new entry
/// was rejected.
#[unsafe(no_mangle)]
pub extern "C" fn mini_moka_u64_get_or_insert(
    handle: &mut Handle,
    key: u64,
    otherwise: u64,
    now: u64,
    value: &mut u64,
) -> u32
    ensures step { OnOpen handle.old.value result handle.new.value
        (OnNumbers result (TellsGotOrInserted key otherwise now result value.new)) }
    ensures unchanged { result ≢ DONE → value.new ≡ value.old }
{
    match handle.numbers() {
        Ok(numbers) => {
            let now = Instant::from_nanos(now);
            let hash = numbers.cache.hash_of(&key);
            if let Some(known) = numbers.get_hashed(key, hash, now) {
                *value = known;
                return DONE;
            }
            match numbers.insert_hashed(key, hash, otherwise, None, now) {
                Ok(_) => {
                    *value = otherwise;
                    DONE
                }
                Err(_) => OUT_OF_MEMORY,
            }
        }
        Err(status) => status,
    }
}

/// Answers `DONE` if the key has an unexpired entry, else `ABSENT`. It doesn't count as an access.
#[unsafe(no_mangle)]
pub extern "C" fn mini_moka_u64_contains(handle: &mut Handle, key: u64, now: u64) -> u32
    ensures { OnOpen handle.old.value result handle.new.value (OnNumbers result (TellsLook key now result)) }
{
    match handle.numbers() {
        Ok(numbers) => {
            let is_there = numbers.contains(key, Instant::from_nanos(now));
            if is_there { DONE } else { ABSENT }
        }
        Err(status) => status,
    }
}

/// Removes the entry of the key, if there is one, and writes its value, unless it is expired.
#[unsafe(no_mangle)]
pub extern "C" fn mini_moka_u64_remove(
    handle: &mut Handle,
    key: u64,
    now: u64,
    value: &mut u64,
) -> u32
    ensures step { OnOpen handle.old.value result handle.new.value (OnNumbers result (TellsRemove key now result value.new)) }
    ensures unchanged { result ≢ DONE → value.new ≡ value.old }
{
    match handle.numbers() {
        Ok(numbers) => {
            let found = numbers.remove(key, Instant::from_nanos(now));
            tell(found, value)
        }
        Err(status) => status,
    }
}

/// Removes the entry of the key, if there is one.
#[unsafe(no_mangle)]
pub extern "C" fn mini_moka_u64_invalidate(handle: &mut Handle, key: u64, now: u64) -> u32
    ensures { OnOpen handle.old.value result handle.new.value (OnNumbers result (λ old new.
        (result ≡ DONE) × IsNumberInvalidation key now old new)) }
{
    match handle.numbers() {
        Ok(numbers) => {
            numbers.invalidate(key, Instant::from_nanos(now));
            DONE
        }
        Err(status) => status,
    }
}

/// Drains the removed entry that left first: writes its key, its value and why it left. Returns `ABSENT` if there is none.
#[unsafe(no_mangle)]
pub extern "C" fn mini_moka_u64_removed(
    handle: &mut Handle,
    key: &mut u64,
    value: &mut u64,
    cause: &mut u32,
) -> u32
    ensures step { OnOpen handle.old.value result handle.new.value
        (OnNumbers result (TellsRemoved result key.new value.new cause.new)) }
    ensures key { result ≢ DONE → key.new ≡ key.old }
    ensures value { result ≢ DONE → value.new ≡ value.old }
    ensures cause { result ≢ DONE → cause.new ≡ cause.old }
{
    match handle.numbers() {
        Ok(numbers) => tell_removed(numbers.drain(), key, value, cause),
        Err(status) => status,
    }
}

/// Writes a removed entry, and answers `DONE`, else `ABSENT`.
fn tell_removed(
    removed: Option<Removed<u64, u64>>,
    key: &mut u64,
    value: &mut u64,
    cause: &mut u32,
) -> u32
    ensures removed { TellsRemovedOf removed result key.new value.new cause.new }
    ensures key { result ≢ DONE → key.new ≡ key.old }
    ensures value { result ≢ DONE → value.new ≡ value.old }
    ensures cause { result ≢ DONE → cause.new ≡ cause.old }
{
    match removed {
        Some(known) => {
            *key = known.key;
            *value = known.value;
            *cause = number_of(known.cause);
            DONE
        }
        None => ABSENT,
    }
}

/// Writes the key and the value of the walk's next entry. Returns `ABSENT` after the last entry, and `CHANGED` if there is no walk any more.
#[unsafe(no_mangle)]
pub extern "C" fn mini_moka_u64_next(
    handle: &mut Handle,
    now: u64,
    key: &mut u64,
    value: &mut u64,
) -> u32
    ensures step { OnOpen handle.old.value result handle.new.value
        (OnNumbers result (TellsNumberWalk now result key.new value.new)) }
    ensures key { result ≢ DONE → key.new ≡ key.old }
    ensures value { result ≢ DONE → value.new ≡ value.old }
{
    match handle.numbers() {
        Ok(numbers) => {
            let step = numbers.step(Instant::from_nanos(now));
            tell_step(step, key, value)
        }
        Err(status) => status,
    }
}

/// Writes the key and the value of a step, if it came to an entry.
fn tell_step(step: NumberStep, key: &mut u64, value: &mut u64) -> u32
    ensures step { TellsStep step result key.new value.new }
    ensures key { result ≢ DONE → key.new ≡ key.old }
    ensures value { result ≢ DONE → value.new ≡ value.old }
{
    match step {
        NumberStep::Ended => CHANGED,
        NumberStep::Done => ABSENT,
        NumberStep::Pair {
            key: known,
            value: found,
        } => {
            *key = known;
            *value = found;
            DONE
        }
    }
}

/// Writes a found value, and answers `DONE`, else `ABSENT`.
fn tell(found: Option<u64>, value: &mut u64) -> u32
    ensures found { TellsFound found result value.new }
    ensures unchanged { result ≢ DONE → value.new ≡ value.old }
{
    match found {
        Some(known) => {
            *value = known;
            DONE
        }
        None => ABSENT,
    }
}
