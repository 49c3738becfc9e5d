//! The examples of the cache that threads share.
ghost use Rattle.std.specs.Prelude.{◌≡◌, ◌*◌, All, IfOk, IfSome, map, nat_eq};
ghost use Rattle.std.proofs.Common.{subst};
ghost use Rattle.std.proofs.lemmas.Bool.{eqb-true};
ghost use Rattle.std.specs.List.{IsDistinct};
ghost use Rattle.std.specs.String.{string_len};

use mini_moka::Error;
use mini_moka::common::FixedState;
use mini_moka::common::time::Instant;
use mini_moka::sync::segmented::{NotifyingCache, Statistics};
use mini_moka::sync::{Cache, ConcurrentCacheExt, EntryRef, PairRule, SegmentedCache};
use std::alloc::Global;
use std::sync::Wait;
use std::thread::{Builder, Threads};
use std::time::Duration;

/// Inserts the square of a key, and reads it back.
fn squared<R: Wait>(rt: &R, cache: &Cache<u64, u64>, key: u64) -> Result<Option<u64>, Error> {
    let now = Instant::from_secs(0);
    cache.insert(rt, key, key.saturating_mul(key), now)?;
    Ok(cache.get(rt, &key, now)?)
}

/// Returns the sum of the squares that sixteen threads read back from their shared cache, and its number of entries in the end.
pub fn square_by_threads<R: Wait + Threads + Copy + Send + 'static>(
    rt: R,
    alloc: Global,
) -> Result<(u64, u64), Error> {
    let cache: Cache<u64, u64> = Cache::new(alloc, 100)?;
    let mut threads = Vec::new(alloc);
    for key in 0..16u64 {
        let shared = cache.clone()?;
        let thread = Builder::new().spawn(&rt, move || squared(&rt, &shared, key))?;
        threads.push(thread)?;
    }
    let mut sum = 0u64;
    for thread in threads {
        sum = sum.saturating_add(thread.join(&rt)?.unwrap_or(0));
    }
    cache.sync(&rt, Instant::from_secs(0));
    Ok((sum, cache.entry_count()))
}

/// Returns the entry counts of a cache and its clone, which are the same cache, after a maintenance.
pub fn counted_twice<R: Wait>(rt: &R, alloc: Global) -> Result<(u64, u64), Error> {
    let now = Instant::from_secs(0);
    let cache: Cache<u64, u64> = Cache::new(alloc, 100)?;
    let again = cache.clone()?;
    cache.insert(rt, 1, 10, now)?;
    again.insert(rt, 2, 20, now)?;
    cache.sync(rt, now);
    Ok((cache.entry_count(), again.entry_count()))
}

/// Returns the numbers of values that a session replaced and of entries that it removed.
pub fn counts_of_a_session<R: Wait>(rt: &R, alloc: Global) -> Result<(u64, u64), Error> {
    let cache: NotifyingCache<u64, u32, Statistics> = SegmentedCache::builder(alloc)
        .max_capacity(1000)
        .eviction_listener(Statistics::default())
        .build()?;
    let now = Instant::from_secs(0);
    let mut session = cache.session()?;
    session.insert(rt, 1, 1, now)?;
    session.insert(rt, 1, 2, now)?;
    session.invalidate(rt, &1, now);
    let counts = session.into_listener();
    Ok((counts.replaced, counts.explicit))
}

/// Returns if a text is there five seconds after it was inserted, and ten.
pub fn there_within_ten_seconds<R: Wait>(rt: &R, alloc: Global) -> Result<(bool, bool), Error> {
    let cache: Cache<u64, String> = Cache::builder(alloc)
        .max_capacity(100)
        .time_to_live(Duration::from_secs(10))
        .build()?;
    let text = String::from_str(alloc, "alice")?;
    cache.insert(rt, 7, text, Instant::from_secs(0))?;
    let early = cache.contains_key(rt, &7, Instant::from_secs(5));
    let late = cache.contains_key(rt, &7, Instant::from_secs(10));
    Ok((early, late))
}

/// Returns the weight of a text in a cache that counts bytes, after a maintenance has charged it.
pub fn charged_in_bytes<R: Wait>(rt: &R, alloc: Global, text: String) -> Result<u64, Error> {
    let now = Instant::from_secs(0);
    let cache = Cache::builder(alloc)
        .max_capacity(1_000_000)
        .weigher(|_key: &u64, value: &String| u32::try_from(value.len()).unwrap_or(u32::MAX))
        .build()?;
    cache.insert(rt, 7, text, now)?;
    cache.sync(rt, now);
    Ok(cache.weighted_size())
}

/// The rule of a cache of squares.
#[derive(Drop)]
pub struct IsSquare;

impl PairRule<u32, u64> for IsSquare {
    ghost holds = { λ key value. value ≡ key * key };

    ghost agrees = { λ key other value same is. subst (λ k. value ≡ k * k) (eqb-true key other same) is };
}

/// Returns the square of a number by a cache of squares: what is found is the square, whoever has inserted it.
pub fn square<R: Wait>(
    rt: &R,
    squares: &Cache<u32, u64, FixedState, IsSquare>,
    number: u32,
    now: Instant,
) -> Result<u64, Error>
    ensures { IfOk result (λ square. square ≡ number * number) }
{
    if let Some(found) = squares.get(rt, &number, now)? {
        return Ok(found);
    }
    let square = u64::from(number) * u64::from(number);
    squares.insert(rt, number, square, now)?;
    Ok(square)
}

/// Returns a pair of a cache of squares, if it has one.
pub fn some_square<R: Wait>(
    rt: &R,
    squares: &Cache<u32, u64, FixedState, IsSquare>,
    now: Instant,
) -> Result<Option<(u32, u64)>, Error>
    ensures { IfOk result (λ found. IfSome found (λ pair. pair.1 ≡ pair.0 * pair.0)) }
{
    let mut pairs = squares.iter(rt, now)?;
    let Some(entry) = pairs.next() else {
        return Ok(None);
    };
    Ok(Some(pair_of(&entry)))
}

/// Copies the pair of an entry.
pub fn pair_of(entry: &EntryRef<u32, u64>) -> (u32, u64)
    ensures { result ≡ entry.now }
{
    let (key, value) = entry.pair();
    (*key, *value)
}

/// Returns the key of an entry, and how many bytes its text has, as which it reads.
pub fn key_and_length(entry: &EntryRef<u64, String>) -> (u64, usize)
    ensures key { result.0 ≡ entry.now.0 }
    ensures length { result.1 ≡ string_len entry.now.1 }
{
    (*entry.key(), entry.len())
}

/// Copies the pairs of a cache of squares: each number comes once, with its square.
pub fn pairs_in<R: Wait>(
    rt: &R,
    alloc: Global,
    squares: &Cache<u32, u64, FixedState, IsSquare>,
    now: Instant,
) -> Result<Vec<(u32, u64)>, Error>
    ensures ruled { IfOk result (λ pairs. All (λ pair. pair.1 ≡ pair.0 * pair.0) pairs.items) }
    ensures once { IfOk result (λ pairs. IsDistinct nat_eq (map (λ pair. pair.0) pairs.items)) }
{
    let mut pairs = Vec::new(alloc);
    for entry in squares.iter(rt, now)? {
        pairs.push(pair_of(&entry))?;
    }
    Ok(pairs)
}

/// Returns the pairs of a cache of squares that is asked for the numbers below this one.
pub fn squares_below<R: Wait>(rt: &R, alloc: Global, end: u32) -> Result<Vec<(u32, u64)>, Error>
    ensures { IfOk result (λ pairs. All (λ pair. pair.1 ≡ pair.0 * pair.0) pairs.items) }
{
    let now = Instant::from_secs(0);
    let squares = Cache::builder(alloc).pair_rule::<IsSquare>().build()?;
    for number in 0..end {
        square(rt, &squares, number, now)?;
    }
    pairs_in(rt, alloc, &squares, now)
}
