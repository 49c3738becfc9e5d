// The shares of a cache for one thread: which are refused, what is read back, and what the window's and protected's do.
use moka_common::error::BuildError;
use moka_common::time::Instant;
use moka_unsync::builder::CacheBuilder;
use moka_unsync::cache::Cache;
use moka_unsync::shares::Shares;
use std::alloc::Global;
use std::test::Fail;
use std::time::Duration;

fn start() -> Instant {
    Instant::from_nanos(0)
}

/// A builder with these shares.
fn with_shares(alloc: Global, limit: u64, window: u8, protected: u8) -> CacheBuilder<u64, u64> {
    CacheBuilder::new(alloc, limit)
        .window_share(window)
        .protected_share(protected)
}

/// Why no cache is built, if none is.
fn refusal(builder: CacheBuilder<u64, u64>) -> Option<BuildError> {
    builder.build().err()
}

#[test]
fn a_share_above_100_is_refused_by_its_name(rt: HostRuntime) -> Result<(), Fail> {
    let refused = [
        refusal(with_shares(rt.alloc(), 10, 101, 0)),
        refusal(with_shares(rt.alloc(), 10, 0, 101)),
        refusal(with_shares(rt.alloc(), 10, 255, 255)),
        refusal(with_shares(rt.alloc(), 10, 100, 100)),
    ];
    let told = [
        Some(BuildError::WindowShareTooLarge),
        Some(BuildError::ProtectedShareTooLarge),
        Some(BuildError::WindowShareTooLarge),
        None,
    ];
    assert!(rt; refused == told);
    Ok(())
}

#[test]
fn a_duration_is_refused_before_a_share(rt: HostRuntime) -> Result<(), Fail> {
    let builder = with_shares(rt.alloc(), 10, 101, 101).time_to_idle(Duration::MAX);
    assert!(rt; refusal(builder) == Some(BuildError::TimeToIdleTooLong));
    Ok(())
}

#[test]
fn shares_are_read_back(rt: HostRuntime) -> Result<(), Fail> {
    let cache = with_shares(rt.alloc(), 10, 20, 80).build()?;
    let plain: Cache<u64, u64> = Cache::new(rt.alloc(), 10)?;
    let set = Shares {
        window: 20,
        protected: 80,
        adapts: false,
        extra: 0,
    };
    let default = Shares {
        window: 1,
        protected: 0,
        adapts: false,
        extra: 0,
    };
    assert!(rt; cache.shares() == set && plain.shares() == default);
    Ok(())
}

/// Asks for each key, and inserts it where it isn't found.
fn ask(cache: &mut Cache<u64, u64>, keys: &[u64]) -> Result<(), Fail> {
    for key in keys {
        if cache.get(key, start()).is_none() {
            cache.insert(*key, *key, start())?;
        }
    }
    Ok(())
}

/// The keys in order of use, as a digit each.
fn digits_of(cache: &Cache<u64, u64>) -> u64 {
    let mut digits = 0u64;
    for (key, _) in cache.iter(start()) {
        digits = digits.wrapping_mul(10).wrapping_add(*key);
    }
    digits
}

/// The order of use after eleven calls on a cache of five with this share for protected and no window.
fn order_with(alloc: Global, protected: u8) -> Result<u64, Fail> {
    let mut cache = with_shares(alloc, 5, 0, protected).build()?;
    ask(&mut cache, &[1, 2, 3, 4, 5, 1, 2, 3, 1, 6, 6])?;
    Ok(digits_of(&cache))
}

// 6 is asked for twice and takes 4's place, as the last of probation. With no share that is behind all. Half of five is two: 3 and 1 are protected, and 2,
// which was, is before 6. With all of it 2 is protected too.
#[test]
fn a_new_key_leaves_before_the_protected_ones(rt: HostRuntime) -> Result<(), Fail> {
    assert_eq!(rt;
        (
            order_with(rt.alloc(), 0)?,
            order_with(rt.alloc(), 50)?,
            order_with(rt.alloc(), 100)?
        ),
        (52_316, 52_631, 56_231)
    );
    Ok(())
}

/// A cache of five with this share for its window, into which six keys came that nothing asked for.
fn six_keys(alloc: Global, window: u8) -> Result<Cache<u64, u64>, Fail> {
    let mut cache = with_shares(alloc, 5, window, 0).build()?;
    for key in 1..7 {
        cache.insert(key, key, start())?;
    }
    Ok(cache)
}

// A fifth of five is one: 5 stands in the window until 6 comes, and then leaves, since it was asked for no oftener than 1. With no window 6 is rejected.
#[test]
fn a_window_takes_each_new_key(rt: HostRuntime) -> Result<(), Fail> {
    let (windowed, plain) = (six_keys(rt.alloc(), 20)?, six_keys(rt.alloc(), 0)?);
    assert_eq!(rt; (digits_of(&windowed), digits_of(&plain)), (12_346, 12_345));
    Ok(())
}
