// The calls of a cache of bytes. Each borrows the cache from its handle, and makes one call of it.
ghost use Rattle.std.specs.Prelude.{◌≡◌, ◌≢◌, false, IfErr, IfOk, None, Some};
ghost use Rattle.mini_moka_c.specs.ByteCalls.{TellsBytesFound, TellsBytesGet, TellsBytesGotOrInserted, TellsBytesInsert, TellsBytesLook, TellsBytesPeek};
ghost use Rattle.mini_moka_c.specs.ByteCalls.{TellsBytesInsertFor, TellsBytesRemove, TellsInvalidate};
ghost use Rattle.mini_moka_c.specs.Calls.{OnBytes, OnOpen, TellsLength};
ghost use Rattle.mini_moka_c.specs.Opening.{IsBytesKept, IsOpening, refusal_of, settings_fault};

use crate::constants::{ABSENT, ALREADY_OPEN, DONE, NO_TIME_TO_LIVE, OUT_OF_MEMORY, TOO_SHORT};
use crate::handle::{AnyCache, Handle};
use crate::key::Bytes;
use crate::settings::{ByteSettings, build_bytes, settings_fault};
use moka_common::time::Instant;
use moka_unsync::error::TimedInsertError;
use std::alloc::Global;
use std::time::Duration;

/// Opens a closed handle with a new cache of bytes. If a duration is 0, a share is above 100 or memory is refused it stays closed, and an open handle
/// stays as it is: `ALREADY_OPEN`.
#[unsafe(no_mangle)]
pub extern "C" fn mini_moka_open(alloc: Global, handle: &mut Handle, settings: &ByteSettings) -> u32
    ensures { IsOpening (settings_fault settings.now.time_to_live settings.now.time_to_idle settings.now.window_share settings.now.protected_share)
        (IsBytesKept settings.now) handle.old.value result handle.new.value }
{
    match handle.kept() {
        Some(_) => ALREADY_OPEN,
        None => match cache_of(alloc, settings) {
            Ok(kept) => {
                handle.put(kept);
                DONE
            }
            Err(status) => status,
        },
    }
}

/// Makes a new cache of the settings in a box. The error is a status: settings are at fault, or memory is refused.
fn cache_of(alloc: Global, settings: &ByteSettings) -> Result<Box<AnyCache>, u32>
    ensures ok { IfOk result (λ kept.
        (settings_fault settings.now.time_to_live settings.now.time_to_idle settings.now.window_share settings.now.protected_share ≡ None)
        × IsBytesKept settings.now kept.value) }
    ensures err { IfErr result (λ status. status
        ≡ refusal_of (settings_fault settings.now.time_to_live settings.now.time_to_idle settings.now.window_share settings.now.protected_share)) }
{
    if let Some(status) = settings_fault(
        settings.time_to_live,
        settings.time_to_idle,
        settings.window_share,
        settings.protected_share,
    ) {
        return Err(status);
    }
    let Some(cache) = build_bytes(alloc, settings) else {
        return Err(OUT_OF_MEMORY);
    };
    Box::new(alloc, AnyCache::Bytes(cache)).map_err(|_| OUT_OF_MEMORY)
}

/// Inserts a copy of the key and the value. If a new entry exceeds the capacity, the admission policy may reject it: `REJECTED`.
#[unsafe(no_mangle)]
pub extern "C" fn mini_moka_insert(
    alloc: Global,
    handle: &mut Handle,
    key: &[u8],
    value: &[u8],
    now: u64,
) -> u32
    ensures { OnOpen handle.old.value result handle.new.value (OnBytes result (TellsBytesInsert key.now value.now None now result)) }
{
    match handle.bytes() {
        Ok(bytes) => match bytes.insert(alloc, key, value, Instant::from_nanos(now)) {
            Ok(inserted) => inserted.status(),
            Err(_) => OUT_OF_MEMORY,
        },
        Err(status) => status,
    }
}

/// Inserts a copy of the key and the value, as `mini_moka_insert` does, with its own time to live in nanoseconds. The entry expires after that, or after the
/// cache's time to live if that is shorter. In a cache without one nothing is done: `NO_TIME_TO_LIVE`.
#[unsafe(no_mangle)]
pub extern "C" fn mini_moka_insert_for(
    alloc: Global,
    handle: &mut Handle,
    key: &[u8],
    value: &[u8],
    time_to_live: u64,
    now: u64,
) -> u32
    ensures { OnOpen handle.old.value result handle.new.value (OnBytes result (TellsBytesInsertFor key.now value.now time_to_live now result)) }
{
    let own = Duration::from_nanos(time_to_live);
    match handle.bytes() {
        Ok(bytes) => match bytes.insert_for(alloc, key, value, own, Instant::from_nanos(now)) {
            Ok(inserted) => inserted.status(),
            Err(TimedInsertError::NoTimeToLive) => NO_TIME_TO_LIVE,
            Err(TimedInsertError::OutOfMemory) => OUT_OF_MEMORY,
        },
        Err(status) => status,
    }
}

/// Looks the key up: its unexpired entry becomes the most recently used one. The key is counted, found or not. The value is copied to the beginning of the
/// buffer; if it doesn't fit, it returns `TOO_SHORT`. Its length is written in both cases.
#[unsafe(no_mangle)]
pub extern "C" fn mini_moka_get(
    handle: &mut Handle,
    key: &[u8],
    now: u64,
    buffer: &mut [u8],
    length: &mut usize,
) -> u32
    ensures step { OnOpen handle.old.value result handle.new.value
        (OnBytes result (TellsBytesGet key.now now buffer.old result buffer.new length.new)) }
    ensures buffer { result ≢ DONE → buffer.new ≡ buffer.old }
    ensures length { result ≢ DONE → result ≢ TOO_SHORT → length.new ≡ length.old }
{
    match handle.bytes() {
        Ok(bytes) => {
            let found = bytes.get(key, Instant::from_nanos(now), buffer);
            tell(found, buffer.len(), length)
        }
        Err(status) => status,
    }
}

/// Looks the key up, which doesn't count as an access, and copies the value as `mini_moka_get` does.
#[unsafe(no_mangle)]
pub extern "C" fn mini_moka_peek(
    handle: &mut Handle,
    key: &[u8],
    now: u64,
    buffer: &mut [u8],
    length: &mut usize,
) -> u32
    ensures step { OnOpen handle.old.value result handle.new.value
        (OnBytes result (TellsBytesPeek key.now now buffer.old result buffer.new length.new)) }
    ensures buffer { result ≢ DONE → buffer.new ≡ buffer.old }
    ensures length { result ≢ DONE → result ≢ TOO_SHORT → length.new ≡ length.old }
{
    match handle.bytes() {
        Ok(bytes) => {
            let found = bytes.peek(key, Instant::from_nanos(now), buffer);
            tell(found, buffer.len(), length)
        }
        Err(status) => status,
    }
}

/// Looks the key up as `mini_moka_get` does, and inserts a copy of `otherwise` if it finds nothing. Copies the found value, or `otherwise`, even if the new
/// entry was rejected.
#[unsafe(no_mangle)]
pub extern "C" fn mini_moka_get_or_insert(
    alloc: Global,
    handle: &mut Handle,
    key: &[u8],
    otherwise: &[u8],
    now: u64,
    buffer: &mut [u8],
    length: &mut usize,
) -> u32
    ensures step { OnOpen handle.old.value result handle.new.value
        (OnBytes result (TellsBytesGotOrInserted key.now otherwise.now now buffer.old result buffer.new length.new)) }
    ensures buffer { result ≢ DONE → buffer.new ≡ buffer.old }
    ensures length { result ≢ DONE → result ≢ TOO_SHORT → length.new ≡ length.old }
{
    match handle.bytes() {
        Ok(bytes) => {
            let now = Instant::from_nanos(now);
            let hash = bytes.cache.hash_of(Bytes { bytes: key });
            let found = bytes.get_hashed(key, hash, now, buffer);
            if found.is_some() {
                return tell(found, buffer.len(), length);
            }
            match bytes.insert_hashed(alloc, key, hash, otherwise, None, now) {
                Ok(_) => tell_copy(otherwise, buffer, length),
                Err(_) => OUT_OF_MEMORY,
            }
        }
        Err(status) => status,
    }
}

/// Answers `DONE` if the key has an unexpired entry, else `ABSENT`. It doesn't count as an access.
#[unsafe(no_mangle)]
pub extern "C" fn mini_moka_contains(handle: &mut Handle, key: &[u8], now: u64) -> u32
    ensures { OnOpen handle.old.value result handle.new.value (OnBytes result (TellsBytesLook key.now now result)) }
{
    match handle.bytes() {
        Ok(bytes) => {
            let is_there = bytes.contains(key, Instant::from_nanos(now));
            if is_there { DONE } else { ABSENT }
        }
        Err(status) => status,
    }
}

/// Removes the entry of the key, if there is one, and copies its value as `mini_moka_get` does, unless it is expired. If the buffer is too short, the
/// entry stays.
#[unsafe(no_mangle)]
pub extern "C" fn mini_moka_remove(
    handle: &mut Handle,
    key: &[u8],
    now: u64,
    buffer: &mut [u8],
    length: &mut usize,
) -> u32
    ensures step { OnOpen handle.old.value result handle.new.value
        (OnBytes result (TellsBytesRemove key.now now buffer.old result buffer.new length.new)) }
    ensures buffer { result ≢ DONE → buffer.new ≡ buffer.old }
    ensures length { result ≢ DONE → result ≢ TOO_SHORT → length.new ≡ length.old }
{
    match handle.bytes() {
        Ok(bytes) => {
            let found = bytes.remove(key, Instant::from_nanos(now), buffer);
            tell(found, buffer.len(), length)
        }
        Err(status) => status,
    }
}

/// Removes the entry of the key, if there is one.
#[unsafe(no_mangle)]
pub extern "C" fn mini_moka_invalidate(handle: &mut Handle, key: &[u8], now: u64) -> u32
    ensures { OnOpen handle.old.value result handle.new.value (OnBytes result (TellsInvalidate key.now now result)) }
{
    match handle.bytes() {
        Ok(bytes) => {
            bytes.invalidate(key, Instant::from_nanos(now));
            DONE
        }
        Err(status) => status,
    }
}

/// Copies a value to the beginning of the buffer, if it fits, and writes its length. Answers `DONE` or `TOO_SHORT`.
fn tell_copy(value: &[u8], buffer: &mut [u8], length: &mut usize) -> u32
    ensures told { TellsBytesFound (Some value.now) buffer.old result buffer.new length.new }
    ensures buffer { result ≢ DONE → buffer.new ≡ buffer.old }
{
    *length = value.len();
    if value.len() > buffer.len() {
        return TOO_SHORT;
    }
    buffer[..value.len()].copy_from_slice(value);
    DONE
}

/// Writes the length of a found value. Answers `DONE` if it fits in a buffer of `room` bytes, else `TOO_SHORT`.
fn tell(found: Option<usize>, room: usize, length: &mut usize) -> u32
    ensures found { TellsLength found room result length.new }
    ensures unchanged { result ≢ DONE → result ≢ TOO_SHORT → length.new ≡ length.old }
{
    match found {
        Some(known) => {
            *length = known;
            if known <= room { DONE } else { TOO_SHORT }
        }
        None => ABSENT,
    }
}
