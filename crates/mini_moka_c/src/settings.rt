// What a cache is built of.
ghost use Rattle.std.specs.Prelude.{◌≡◌, IfSome, None};
ghost use Rattle.mini_moka_c.specs.Opening.{HasLimits, IsBytesNew, IsNumbersNew, limit_of, settings_fault, shares_of};
ghost use Rattle.moka_unsync.specs.Shares.{default_shares};

use crate::cache::ByteCache;
use crate::constants::{SHARE_TOO_LARGE, UNLIMITED, ZERO_DURATION};
use crate::key::Key;
use crate::number_cache::NumberCache;
use crate::removed::RemovedQueue;
use crate::seed::Seed;
use crate::value::Value;
use crate::weight::{ByteWeight, NumberWeight};
use moka_unsync::builder::CacheBuilder;
use std::alloc::Global;
use std::time::Duration;

/// The settings of a cache of numbers. A capacity or a duration, in nanoseconds, that is `UNLIMITED` isn't set. No duration may be 0.
#[repr(C)]
#[derive(Clone, Copy)]
pub struct NumberSettings {
    /// The most entries, or in a weighed cache the largest weight of all.
    pub capacity: u64,
    /// How long an entry lives after it was last written.
    pub time_to_live: u64,
    /// How long an entry lives after it was last read or written.
    pub time_to_idle: u64,
    /// Number of entries that fit from the start.
    pub initial_capacity: usize,
    /// The most entries that left that are kept.
    pub removed_room: usize,
    /// The window's share of the capacity, in percent.
    pub window_share: u8,
    /// The share of the main part for protected entries, in percent.
    pub protected_share: u8,
    /// True if the window adapts to the calls.
    pub is_adaptive: bool,
    /// True if an entry weighs the upper 32 bits of its value and not 1.
    pub is_weighed: bool,
}

/// The settings of a cache of bytes.
#[repr(C)]
#[derive(Clone, Copy)]
pub struct ByteSettings {
    /// The largest number of entries, or in a weighed cache of bytes of keys and values.
    pub capacity: u64,
    /// As of numbers.
    pub time_to_live: u64,
    pub time_to_idle: u64,
    pub initial_capacity: usize,
    /// The key of the hash.
    pub seed_low: u64,
    pub seed_high: u64,
    /// True if an entry weighs its bytes and not 1.
    pub is_weighed: bool,
    pub removed_room: usize,
    pub window_share: u8,
    pub protected_share: u8,
    pub is_adaptive: bool,
}

/// Builds a cache of numbers, unless memory is refused. No duration of 64 bits of nanoseconds is too long.
pub(crate) fn build_numbers(alloc: Global, settings: &NumberSettings) -> Option<NumberCache>
    ensures { IfSome result (IsNumbersNew settings.now) }
{
    let Ok(removed) = RemovedQueue::with_capacity(alloc, settings.removed_room) else {
        return None;
    };
    let weight = if settings.is_weighed {
        NumberWeight::Value
    } else {
        NumberWeight::Entry
    };
    let builder: CacheBuilder<u64, u64> = CacheBuilder::default(alloc);
    let builder = builder
        .initial_capacity(settings.initial_capacity)
        .weigher_where(settings.is_weighed, weight);
    let builder = with_limits(
        builder,
        settings.capacity,
        settings.time_to_live,
        settings.time_to_idle,
    );
    let builder = with_shares(
        builder,
        settings.window_share,
        settings.protected_share,
        settings.is_adaptive,
    );
    NumberCache::build(builder, removed).ok()
}

/// Builds a cache of bytes, unless memory is refused.
pub(crate) fn build_bytes(alloc: Global, settings: &ByteSettings) -> Option<ByteCache>
    ensures { IfSome result (IsBytesNew settings.now) }
{
    let Ok(removed) = RemovedQueue::with_capacity(alloc, settings.removed_room) else {
        return None;
    };
    let weight = if settings.is_weighed {
        ByteWeight::Bytes
    } else {
        ByteWeight::Entry
    };
    let builder: CacheBuilder<Key, Value> = CacheBuilder::default(alloc);
    let builder = builder
        .initial_capacity(settings.initial_capacity)
        .weigher_where(settings.is_weighed, weight);
    let builder = with_limits(
        builder,
        settings.capacity,
        settings.time_to_live,
        settings.time_to_idle,
    );
    let builder = with_shares(
        builder,
        settings.window_share,
        settings.protected_share,
        settings.is_adaptive,
    );
    let seed = Seed {
        low: settings.seed_low,
        high: settings.seed_high,
    };
    ByteCache::build(alloc, builder, seed, removed).ok()
}

/// Gives a builder without limits those that are set.
fn with_limits<K, V, W: Drop>(
    builder: CacheBuilder<K, V, W>,
    capacity: u64,
    time_to_live: u64,
    time_to_idle: u64,
) -> CacheBuilder<K, V, W>
    requires { builder.policy ≡ record { max_capacity = None; time_to_live = None; time_to_idle = None } }
    ensures limits { HasLimits result.policy capacity time_to_live time_to_idle }
    ensures same { result ≡ record builder { policy = result.policy } }
{
    let mut builder = builder;
    if let Some(max) = limit(capacity) {
        builder = builder.max_capacity(max);
    }
    if let Some(live) = limit(time_to_live) {
        builder = builder.time_to_live(Duration::from_nanos(live));
    }
    if let Some(idle) = limit(time_to_idle) {
        builder = builder.time_to_idle(Duration::from_nanos(idle));
    }
    builder
}

/// Gives a builder with the default shares those that are set.
fn with_shares<K, V, W: Drop>(
    builder: CacheBuilder<K, V, W>,
    window: u8,
    protected: u8,
    is_adaptive: bool,
) -> CacheBuilder<K, V, W>
    requires { builder.shares ≡ default_shares }
    ensures { result ≡ record builder { shares = shares_of window protected is_adaptive } }
{
    let builder = if is_adaptive {
        builder.adaptive()
    } else {
        builder
    };
    builder.window_share(window).protected_share(protected)
}

/// Returns why settings are refused, however much memory there is: a duration is 0, or a share is above 100.
pub(crate) fn settings_fault(
    time_to_live: u64,
    time_to_idle: u64,
    window_share: u8,
    protected_share: u8,
) -> Option<u32>
    ensures { result ≡ settings_fault time_to_live time_to_idle window_share protected_share }
{
    if time_to_live == 0 || time_to_idle == 0 {
        return Some(ZERO_DURATION);
    }
    if window_share > 100 || protected_share > 100 {
        return Some(SHARE_TOO_LARGE);
    }
    None
}

/// Returns a capacity or a duration, if it is set.
fn limit(number: u64) -> Option<u64>
    ensures { result ≡ limit_of number }
{
    if number == UNLIMITED {
        None
    } else {
        Some(number)
    }
}
