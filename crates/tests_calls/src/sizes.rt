// The cache for one thread at sizes that no script reaches: a body that gives up beyond a size, as if memory were refused, meets every clause.
use moka_common::time::Instant;
use moka_unsync::cache::Cache;
use std::alloc::Global;
use std::test::Fail;

fn start() -> Instant {
    Instant::from_nanos(0)
}

/// A cache with this number of entries.
fn filled(alloc: Global, number: u64) -> Result<Cache<u64, u64>, Fail> {
    let mut cache: Cache<u64, u64> = Cache::builder(alloc).build()?;
    for key in 0..number {
        cache.insert(key, key, start())?;
    }
    Ok(cache)
}

#[test]
fn a_hundred_thousand_keys_are_kept(rt: HostRuntime) -> Result<(), Fail> {
    let mut cache = filled(rt.alloc(), 100_000)?;
    assert_eq!(rt; cache.entry_count(), 100_000);
    for key in &[0, 65_535, 65_536, 99_999] {
        assert_eq!(rt; cache.get(key, start()), Some(key));
    }
    Ok(())
}
