//! Small programs on each kind of cache, proved to be safe and to return: they have no contracts.
use mini_moka::common::time::Instant;
use mini_moka::common::{FixedState, OutOfMemory, Shared};
use mini_moka::sync::engine::{Call, Core, Reply};
use mini_moka::sync::recorded::Record;
use mini_moka::unsync::{Cache, NotifyingCache, Statistics, TryInsertError};
use mini_moka::{Error, unsync};
use std::alloc::Global;
use std::rc::Rc;
use std::time::Duration;

/// Inserts a pair into a cache that keeps a record, and looks the key up.
pub fn remember(alloc: Global, key: u64, value: u32) -> Result<Option<u32>, Error> {
    let now = Instant::from_secs(0);
    let core: Core<u64, u32> = Core::new(alloc, FixedState::new())?;
    let mut record = Record::new(alloc, core);
    let key = Shared::new(alloc, key)?;
    let value = Shared::new(alloc, value)?;
    let insert = Call::Insert {
        key: key.try_clone()?,
        value,
        now,
    };
    let _done = record.apply(insert)?;
    match record.apply(Call::Get { key, now })? {
        Reply::Found(Some(value)) => Ok(Some(*value.get())),
        _ => Ok(None),
    }
}

/// Returns if a text is found five seconds after it was inserted, and ten.
pub fn found_within_ten_seconds(alloc: Global) -> Result<(bool, bool), Error> {
    let mut cache: Cache<u64, String> = Cache::builder(alloc)
        .max_capacity(100)
        .time_to_live(Duration::from_secs(10))
        .build()?;
    let text = String::from_str(alloc, "alice")?;
    cache.insert(7, text, Instant::from_secs(0))?;
    let early = cache.get(&7, Instant::from_secs(5)).is_some();
    let late = cache.get(&7, Instant::from_secs(10)).is_some();
    Ok((early, late))
}

/// Counts a visit to a page: the number is changed in its place, or it is the first.
pub fn count_visit(visits: &mut Cache<u64, u64>, page: u64, now: Instant) -> Result<(), Error> {
    if !visits.modify(
        &page,
        now,
        |count: &mut u64| *count = count.saturating_add(1),
    ) {
        visits.insert(page, 1, now)?;
    }
    Ok(())
}

/// Returns the milliseconds from midnight to a second and a half after noon.
pub fn millis_after_noon() -> u64 {
    let noon = Instant::from_secs(12 * 60 * 60);
    let later = noon.after(Duration::from_millis(1_500));
    later.nanos() / 1_000_000
}

/// Returns the weight of a text in a cache that counts bytes.
pub fn weight_in_bytes(alloc: Global, text: String) -> Result<u64, Error> {
    let mut cache = Cache::builder(alloc)
        .max_capacity(1_000_000)
        .weigher(|_key: &u64, value: &String| u32::try_from(value.len()).unwrap_or(u32::MAX))
        .build()?;
    cache.insert(7, text, Instant::from_secs(0))?;
    Ok(cache.weighted_size())
}

/// Returns if a key that stays is found, and one that is invalidated, and how many keys below 32 are left.
pub fn left_of_64(alloc: Global) -> Result<(bool, bool, usize), Error> {
    let now = Instant::from_secs(0);
    let mut cache: Cache<u64, u32> = Cache::new(alloc, 10_000)?;
    for key in 0..64 {
        cache.insert(key, 1, now)?;
    }
    cache.invalidate(&7, now);
    cache.invalidate_entries_if(|key: &u64, _value: &u32| *key >= 32);
    let found = cache.get(&8, now).is_some();
    let gone = cache.get(&7, now).is_none();
    let left = cache.iter(now).count();
    Ok((found, gone, left))
}

/// Returns the key of the least recently used one of three entries, of which the first is looked up.
pub fn least_recently_used(alloc: Global) -> Result<Option<u64>, Error> {
    let now = Instant::from_secs(0);
    let mut cache: Cache<u64, u32> = Cache::new(alloc, 100)?;
    for key in 0..3 {
        cache.insert(key, 1, now)?;
    }
    let _ = cache.get(&0, now);
    let mut pairs = cache.iter(now);
    let first = pairs.next().map(|(key, _value)| *key);
    Ok(first)
}

/// Returns the square of 7, which is made as it isn't there, and what a peek finds then.
pub fn square_of_seven(alloc: Global) -> Result<[u64; 2], Error> {
    let now = Instant::from_secs(0);
    let mut cache: Cache<u64, u64> = Cache::new(alloc, 100)?;
    let square = cache.get_or_insert_with(7, now, || 7 * 7)?;
    let found = cache.peek(&7, now).copied().unwrap_or(0);
    Ok([square, found])
}

/// A number has no half.
#[derive(Clone, Copy, Drop)]
struct Odd;

/// Returns half of a number, if there is one, and what a peek finds then: nothing, where making the half has failed.
pub fn half_of(alloc: Global, number: u64) -> Result<(Option<u64>, Option<u64>), Error> {
    let now = Instant::from_secs(0);
    let mut cache: Cache<u64, u64> = Cache::new(alloc, 100)?;
    let make = || if number % 2 == 0 {
        Ok(number / 2)
    } else {
        Err(Odd)
    };
    let half = match cache.try_get_or_insert_with(number, now, make) {
        Ok(half) => Some(half),
        Err(TryInsertError::Make(Odd)) => None,
        Err(TryInsertError::OutOfMemory) => return Err(Error::from(OutOfMemory)),
    };
    Ok((half, cache.peek(&number, now).copied()))
}

/// Counts why entries leave a cache of two. The causes are size, expiry, a call, another value, and rejection.
pub fn counts_of_what_left(alloc: Global) -> Result<[u64; 5], Error> {
    let mut cache: NotifyingCache<u64, u32, Statistics> = Cache::builder(alloc)
        .max_capacity(2)
        .time_to_live(Duration::from_secs(10))
        .eviction_listener(Statistics::default())
        .build()?;
    let now = Instant::from_secs(0);
    cache.insert(1, 1, now)?;
    cache.insert(1, 2, now)?;
    cache.insert(2, 1, now)?;
    cache.insert(3, 1, now)?;
    let _ = cache.get(&4, now);
    cache.insert(4, 1, now)?;
    cache.invalidate(&2, now);
    let _ = cache.contains_key(&4, Instant::from_secs(10));
    let counts = cache.listener();
    Ok([
        counts.size,
        counts.expired,
        counts.explicit,
        counts.replaced,
        counts.rejected,
    ])
}

/// Returns the number of entries after a list of calls, which its last call asks for.
pub fn count_after_calls(alloc: Global) -> Result<Option<u64>, Error> {
    let now = Instant::from_secs(0);
    let value = Rc::new(alloc, 10)?;
    let calls = vec![in alloc;
        unsync::Call::Insert { key: 7, value, now },
        unsync::Call::Get { key: 7, now },
        unsync::Call::EntryCount,
    ]?;
    let mut cache: Cache<u64, Rc<u32>> = Cache::new(alloc, 100)?;
    let replies = unsync::run(alloc, &mut cache, calls)?;
    match replies.last() {
        Some(unsync::Reply::Number(count)) => Ok(Some(*count)),
        _ => Ok(None),
    }
}
