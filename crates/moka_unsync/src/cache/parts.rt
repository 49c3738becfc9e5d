// The parts of a new cache.
ghost use Rattle.std.specs.Prelude.{◌≡◌, ◌≤◌, [], None, IfOk};
ghost use Rattle.moka_common.specs.Settings.{keeps_writes};
ghost use Rattle.moka_unsync.specs.Builder.{reserved};
ghost use Rattle.moka_unsync.specs.Cached.{most_entries};
ghost use Rattle.moka_unsync_model.specs.Memory.{new_memory};

use crate::memory::Memory;
use moka_common::error::OutOfMemory;
use moka_common::frequency_sketch::FrequencySketch;
use moka_common::policy::Policy;
use moka_store::store::Store;
use moka_unsync_model::shares::Shares;
use std::alloc::Allocator;

/// The settings of a cache.
#[derive(Drop)]
pub(crate) struct Parts<S: Drop, W: Drop> {
    pub(crate) hash_state: S,
    pub(crate) policy: Policy,
    pub(crate) shares: Shares,
    pub(crate) is_weighed: bool,
    pub(crate) weigher: W,
    pub(crate) initial_capacity: usize,
}

/// Returns the memory of a new cache, if its window adapts.
pub(crate) fn new_memory<A: Allocator + Clone + Drop>(
    alloc: &A,
    shares: Shares,
) -> Result<Option<Memory<A>>, OutOfMemory>
    ensures { IfOk result (λ memory. memory ≡ new_memory shares) }
{
    if !shares.adapts {
        return Ok(None);
    }
    Ok(Some(Memory::new(alloc.clone()?)?))
}

/// Makes a sketch without a table. If the initial capacity is at least half of a limit of entries, the table is allocated here, and no call pauses for it.
pub(crate) fn new_sketch<A: Allocator + Clone + Drop>(
    alloc: A,
    policy: Policy,
    is_weighed: bool,
    initial_capacity: usize,
) -> Result<FrequencySketch<A>, OutOfMemory>
    ensures { IfOk result (λ sketch. sketch ≡ None) }
{
    let mut sketch = FrequencySketch::default(alloc);
    if !is_weighed {
        sketch.reserve_if_half_full(policy.max_capacity(), initial_capacity)?;
    }
    Ok(sketch)
}

/// Returns the number of entries for which a new store reserves memory. It is one more than the initial capacity, since an insert into a full cache stores
/// the new entry before another leaves. Without an initial capacity nothing is reserved.
pub(crate) fn reserved(initial_capacity: usize) -> Result<usize, OutOfMemory>
    ensures { IfOk result (λ entries. entries ≡ reserved initial_capacity) }
{
    if initial_capacity == 0 {
        return Ok(0);
    }
    initial_capacity.checked_add(1).ok_or(OutOfMemory)
}

/// Returns the largest useful capacity of a store: the limit plus one candidate, or `usize::MAX` if entries have weights or there is no limit.
pub(crate) fn max_entries(policy: Policy, is_weighed: bool) -> usize
    ensures { result ≡ most_entries policy is_weighed }
{
    if is_weighed {
        return usize::MAX;
    }
    let limit = policy.max_capacity().unwrap_or(u64::MAX);
    usize::try_from(limit)
        .unwrap_or(usize::MAX)
        .saturating_add(1)
}

/// Makes a store without entries, with capacity for at least `room` of them.
pub(crate) fn empty_store<K: Eq + Drop, V: Drop, A: Allocator + Clone + Drop>(
    alloc: &A,
    policy: Policy,
    protected_limit: u64,
    room: usize,
) -> Result<Store<K, V, A>, OutOfMemory>
    ensures empty { IfOk result (λ store. store ≡ record {
      nodes = [];
      written = [];
      keeps_writes = keeps_writes policy;
      protected_limit = protected_limit;
      capacity = store.capacity;
    }) }
    ensures room { IfOk result (λ store. room ≤ store.capacity) }
{
    let mut store = Store::new(alloc.clone()?, policy, protected_limit)?;
    store.reserve(room, 0)?;
    Ok(store)
}
