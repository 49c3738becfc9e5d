//! How a cache is cut into segments.
ghost use Rattle.std.specs.Prelude.{◌≡◌, ◌<◌, ◌≤◌, ◌^◌, ℕ, None, true};
ghost use Rattle.moka_segments.specs.Plan.{policy_of, segment_of, share, total};
ghost use Rattle.moka_unsync.specs.Builder.{Builder};

use moka_common::policy::Policy;
use moka_common::weigh::Weigh;
use moka_unsync::builder::CacheBuilder;
use moka_unsync_model::shares::Shares;
use std::alloc::Global;

/// The plan of a cache: its hash state, the number of segments, and the settings of the whole cache.
#[derive(Drop)]
pub struct Plan<S: Drop> {
    pub hash_state: S,
    pub count: usize,
    pub policy: Policy,
    pub shares: Shares,
    pub initial_capacity: usize,
    pub is_weighed: bool,
}

/// Returns the segment of a hash, by its high bits. The index and the sketch of a segment multiply the hash first, so keys of one segment are spread there.
#[inline]
pub fn segment_of(hash: u64, count: usize) -> usize
    requires { (0 < count) × (count ≤ 2 ^ 32) }
    ensures value { result ≡ segment_of hash count }
    ensures inside { result < count }
{
    (hash / 4_294_967_296 * count as u64 / 4_294_967_296) as usize
}

/// Returns segment `i`'s part of a limit.
pub fn share(limit: u64, count: usize, i: usize) -> u64
    requires { (0 < count) × (count ≤ 2 ^ 32) }
    ensures { result ≡ share limit count i }
{
    let count = count as u64;
    let part = limit / count;
    if (i as u64) < limit % count {
        part + 1
    } else {
        part
    }
}

/// States that the parts of a limit sum up to it.
pub fn shares_are_the_limit()
    ensures { (limit count : ℕ) → 0 < count → total (share limit count) count ≡ limit }
{}

/// Returns the builder of a segment's cache.
pub(crate) fn builder_of<K, V, S: Drop, W: Weigh<K, V>>(
    alloc: Global,
    plan: &Plan<S>,
    i: usize,
    weigher: W,
) -> CacheBuilder<K, V, W>
    requires count { (0 < plan.now.count) × (plan.now.count ≤ 2 ^ 32) }
    requires extra { plan.now.shares.extra ≡ 0 }
    ensures { result ≡ record {
      policy = policy_of plan.now i;
      initial_capacity = share plan.now.initial_capacity plan.now.count i;
      shares =
          plan.now.shares;
      is_weighed = plan.now.is_weighed;
      weigher = weigher;
    } }
{
    let builder = CacheBuilder::default(alloc);
    let builder = if plan.shares.adapts {
        builder.adaptive()
    } else {
        builder
    };
    let builder = builder
        .weigher_where(plan.is_weighed, weigher)
        .initial_capacity(share(plan.initial_capacity as u64, plan.count, i) as usize)
        .window_share(plan.shares.window)
        .protected_share(plan.shares.protected);
    let builder = match plan.policy.max_capacity() {
        Some(limit) => builder.max_capacity(share(limit, plan.count, i)),
        None => builder,
    };
    let builder = match plan.policy.time_to_live() {
        Some(duration) => builder.time_to_live(duration),
        None => builder,
    };
    match plan.policy.time_to_idle() {
        Some(duration) => builder.time_to_idle(duration),
        None => builder,
    }
}
