//! A cache that is saved as lines of text, and filled again from them.
use mini_moka::Error;
use mini_moka::common::time::Instant;
use mini_moka::unsync::Cache;
use std::alloc::Global;
use std::fmt::Write;

/// Returns a line for each entry, in the order of `iter`: its key, its value, and the popularity of the key. A program may write them to a file.
pub fn save(alloc: Global, cache: &Cache<u64, u64>) -> Result<String, Error> {
    let mut text = String::new(alloc);
    for entry in cache.entries() {
        let popularity = cache.popularity(&entry.key);
        if writeln!(text, "{} {} {popularity}", entry.key, entry.value).is_err() {
            return Err(Error::OutOfMemory);
        }
    }
    Ok(text)
}

/// Fills a new cache from the lines of `save`, and returns the number of entries. It stops at the first line that isn't one of `save`.
///
/// Pairs, their order and their popularity are kept. Deadlines begin anew, and what was counted of other keys is lost. In a cache with a protected share a
/// popular entry is protected.
pub fn restore(cache: &mut Cache<u64, u64>, text: &str, now: Instant) -> Result<u64, Error> {
    let mut number = 0u64;
    for line in text.lines() {
        let Some((key, value, _)) = pair_of(line) else {
            break;
        };
        cache.insert(key, value, now)?;
        number = number.saturating_add(1);
    }
    // A cache counts nothing until it is half full, so the keys are asked for in the end.
    for line in text.lines() {
        let Some((key, _, popularity)) = pair_of(line) else {
            break;
        };
        for _ in 0..popularity {
            let _ = cache.get(&key, now);
        }
    }
    Ok(number)
}

/// Returns the key, the value and the popularity of a line.
fn pair_of(line: &str) -> Option<(u64, u64, u8)> {
    let mut words = line.split(' ');
    let key = words.next()?.parse::<u64>().ok()?;
    let value = words.next()?.parse::<u64>().ok()?;
    let popularity = words.next()?.parse::<u8>().ok()?;
    Some((key, value, popularity))
}
