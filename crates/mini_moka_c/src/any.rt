// The calls of a handle that are the same for bytes and for numbers.
ghost use Rattle.std.specs.Prelude.{◌≡◌, ◌≢◌, None};
ghost use Rattle.std.specs.Option.{MatchOption};
ghost use Rattle.mini_moka_c.specs.Calls.{IsEmptied, IsSwept, OnOpen, count_of, statistics_of, walking, weight_of, window_of};

use crate::constants::{CLOSED, DONE};
use crate::handle::Handle;
use crate::statistics::Report;
use moka_common::time::Instant;
use std::alloc::Global;

/// Closes the handle, and frees its cache. Closing a closed handle answers `CLOSED`.
#[unsafe(no_mangle)]
pub extern "C" fn mini_moka_close(alloc: Global, handle: &mut Handle) -> u32
    ensures closed { handle.new.value ≡ None }
    ensures status { MatchOption handle.old.value (result ≡ CLOSED) (λ _. result ≡ DONE) }
{
    match handle.take(alloc) {
        Some(_kept) => DONE,
        None => CLOSED,
    }
}

/// Removes all entries.
#[unsafe(no_mangle)]
pub extern "C" fn mini_moka_invalidate_all(handle: &mut Handle) -> u32
    ensures { OnOpen handle.old.value result handle.new.value (λ old new. (result ≡ DONE) × IsEmptied old new) }
{
    match handle.kept() {
        Some(kept) => {
            kept.invalidate_all();
            DONE
        }
        None => CLOSED,
    }
}

/// Removes all expired entries, also those behind unexpired ones in the orders of writing and of use.
#[unsafe(no_mangle)]
pub extern "C" fn mini_moka_remove_expired(handle: &mut Handle, now: u64) -> u32
    ensures { OnOpen handle.old.value result handle.new.value (λ old new. (result ≡ DONE) × IsSwept now old new) }
{
    match handle.kept() {
        Some(kept) => {
            kept.remove_expired(Instant::from_nanos(now));
            DONE
        }
        None => CLOSED,
    }
}

/// Counts the entries, including expired ones that no call has removed yet.
#[unsafe(no_mangle)]
pub extern "C" fn mini_moka_count(handle: &mut Handle, count: &mut u64) -> u32
    ensures step { OnOpen handle.old.value result handle.new.value (λ old new.
        (result ≡ DONE) × (count.new ≡ count_of old) × (new ≡ old)) }
    ensures unchanged { result ≢ DONE → count.new ≡ count.old }
{
    match handle.kept() {
        Some(kept) => {
            *count = kept.entry_count();
            DONE
        }
        None => CLOSED,
    }
}

/// Writes the total weight of the entries, at most the largest number of 64 bits.
#[unsafe(no_mangle)]
pub extern "C" fn mini_moka_weight(handle: &mut Handle, weight: &mut u64) -> u32
    ensures step { OnOpen handle.old.value result handle.new.value (λ old new.
        (result ≡ DONE) × (weight.new ≡ weight_of old) × (new ≡ old)) }
    ensures unchanged { result ≢ DONE → weight.new ≡ weight.old }
{
    match handle.kept() {
        Some(kept) => {
            *weight = kept.weighted_size();
            DONE
        }
        None => CLOSED,
    }
}

/// Writes the weight that the window may have now, which changes only if the cache adapts. It is 0 without a window.
#[unsafe(no_mangle)]
pub extern "C" fn mini_moka_window(handle: &mut Handle, weight: &mut u64) -> u32
    ensures step { OnOpen handle.old.value result handle.new.value (λ old new.
        (result ≡ DONE) × (weight.new ≡ window_of old) × (new ≡ old)) }
    ensures unchanged { result ≢ DONE → weight.new ≡ weight.old }
{
    match handle.kept() {
        Some(kept) => {
            *weight = kept.window_limit();
            DONE
        }
        None => CLOSED,
    }
}

/// Writes the counts of the calls since the handle was opened.
#[unsafe(no_mangle)]
pub extern "C" fn mini_moka_statistics(handle: &mut Handle, statistics: &mut Report) -> u32
    ensures step { OnOpen handle.old.value result handle.new.value (λ old new.
        (result ≡ DONE) × (statistics.new ≡ statistics_of old) × (new ≡ old)) }
    ensures unchanged { result ≢ DONE → statistics.new ≡ statistics.old }
{
    match handle.kept() {
        Some(kept) => {
            *statistics = kept.statistics();
            DONE
        }
        None => CLOSED,
    }
}

/// Begins a walk over the unexpired entries, least recently used first and those of the window last. A call that may change the cache ends it.
#[unsafe(no_mangle)]
pub extern "C" fn mini_moka_walk(handle: &mut Handle) -> u32
    ensures { OnOpen handle.old.value result handle.new.value (λ old new. (result ≡ DONE) × (new ≡ walking old)) }
{
    match handle.kept() {
        Some(kept) => {
            kept.begin_walk();
            DONE
        }
        None => CLOSED,
    }
}
