//! Metrics: one thread looks at what a cache counts, without a lock, while others call it.
use mini_moka::Error;
use mini_moka::common::FixedState;
use mini_moka::common::time::Instant;
use mini_moka::sync::{Cache, ConcurrentCacheExt, CountPass, Published};
use std::alloc::Global;
use std::marker::Model;
use std::sync::Wait;
use std::thread::{Builder, Threads};

/// The counts of a cache, for a thread that watches it.
#[derive(Drop)]
pub struct Metrics {
    cache: Cache<u64, u64>,
    pass: CountPass,
}

impl Model for Metrics {
    ghost use Rattle.std.specs.Prelude.{◌≡◌, Some};
    ghost use Rattle.mini_moka.specs.Sync.Counts.{CountPass as PassValue};

    ghost Value = { PassValue };

    ghost view = { λ m. m.pass };

    // The pass is of the cache.
    ghost invariant = { λ m. m.cache.counted ≡ Some m.pass.counts };
}

impl Metrics {
    /// Returns the number of charged entries when a maintenance ended, and their weight. It is never an older maintenance than at the last look.
    pub fn look<R: Wait>(&mut self, rt: &R) -> Published {
        self.cache.published(rt, &mut self.pass)
    }
}

/// Returns the largest entry count of these looks. It returns `None` if a look had the count of one maintenance and the weight of another, or was older than
/// the one before.
fn watch<R: Wait>(rt: &R, metrics: &mut Metrics, looks: u64) -> Option<u64> {
    let mut number = 0u64;
    let mut most = 0u64;
    for _ in 0..looks {
        let published = metrics.look(rt);
        if published.count != published.weight || published.number < number {
            return None;
        }
        number = published.number;
        most = most.max(published.count);
    }
    Some(most)
}

/// Inserts the first `keys` keys, one after another.
fn insert_all<R: Wait>(rt: &R, cache: &Cache<u64, u64>, keys: u64) -> Result<(), Error> {
    let now = Instant::from_secs(0);
    for key in 0..keys {
        cache.insert(rt, key, key, now)?;
    }
    cache.sync(rt, now);
    Ok(())
}

/// Returns the largest count that a thread has seen while another one filled a cache of a hundred entries, and the count in the end.
pub fn watched_while_filled<R: Wait + Threads + Copy + Send + 'static>(
    rt: R,
    alloc: Global,
    looks: u64,
) -> Result<(Option<u64>, u64), Error> {
    let (cache, pass) = Cache::builder(alloc)
        .max_capacity(100)
        .build_counted(FixedState::new())?;
    let mut metrics = Metrics {
        cache: cache.clone()?,
        pass,
    };
    let watching = Builder::new().spawn(&rt, move || watch(&rt, &mut metrics, looks))?;
    insert_all(&rt, &cache, 1000)?;
    let most = watching.join(&rt);
    Ok((most, cache.entry_count()))
}
