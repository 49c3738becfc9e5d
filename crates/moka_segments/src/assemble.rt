//! A cache of its parts.
ghost use Rattle.std.specs.Prelude.{◌≡◌, ◌<◌, ◌≤◌, ◌^◌, IfOk, vec_len};
ghost use Rattle.moka_common.specs.Keys.{keys_by};
ghost use Rattle.moka_segments.specs.Calls.{AreCaches};

use crate::cache::SegmentedCache;
use crate::owners::Owners;
use crate::plan::{Plan, builder_of};
use crate::rule::Rule;
use crate::shared::Shared;
use crate::weigher::{Asks, Weighing};
use moka_common::error::{BuildError, OutOfMemory};
use moka_row::row::open;
use moka_unsync::cache::Cache;
use std::alloc::Global;
use std::hash::{BuildHasher, Hash};
use std::sync::Arc;

/// Builds the caches of the segments.
fn caches_of<
    K: Eq + Hash + Drop,
    V: Drop,
    S: BuildHasher + Copy,
    W: Weighing<K, V> + Copy,
    P: Rule<K, V>,
>(alloc: Global, plan: &Plan<S>, weigher: W) -> Result<Vec<Cache<K, V, S, Asks<W>>>, BuildError>
    requires count { (0 < plan.now.count) × (plan.now.count ≤ 2 ^ 32) }
    requires extra { plan.now.shares.extra ≡ 0 }
    requires ready { W.ready weigher }
    ensures { IfOk result (λ caches. AreCaches (keys_by K.Hash S.BuildHasher S.Hasher.Hasher) W.weighs P.rules plan.now W.ready caches.items
        × (vec_len caches ≡ plan.now.count)) }
{
    let mut caches = Vec::with_capacity(alloc, plan.count)?;
    for i in 0..plan.count {
        let cache = builder_of(alloc, plan, i, Asks(weigher)).build_with_hasher(plan.hash_state)?;
        caches.push_reserved(cache);
    }
    Ok(caches)
}

/// Builds a cache by this plan, and the `Owners` that hand out its sessions. Whatever the cache for one thread refuses is returned as `OutOfMemory`.
pub(crate) fn assemble<
    K: Eq + Hash + Drop,
    V: Drop,
    S: BuildHasher + Copy,
    W: Weighing<K, V> + Copy,
    P: Rule<K, V>,
>(
    alloc: Global,
    plan: Plan<S>,
    weigher: W,
) -> Result<(SegmentedCache<K, V, S, W, P>, Owners<K, V, S, W, P>), OutOfMemory>
    requires count { (0 < plan.count) × (plan.count ≤ 2 ^ 32) }
    requires extra { plan.shares.extra ≡ 0 }
    requires ready { W.ready weigher }
    ensures cache { IfOk result (λ r. r.0.plan ≡ plan) }
    ensures owners { IfOk result (λ r. r.1 ≡ record { cache = r.0; next = 0 }) }
{
    let Ok(caches) = caches_of::<K, V, S, W, P>(alloc, &plan, weigher) else {
        return Err(OutOfMemory);
    };
    let (table, dealer) = open(alloc, caches, &plan)?;
    let shared = Arc::new(alloc, Shared { plan, table })?;
    let again = Arc::try_clone(&shared)?;
    Ok((SegmentedCache { shared: again }, Owners { shared, dealer }))
}
