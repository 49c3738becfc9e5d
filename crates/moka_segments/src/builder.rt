//! The builder of segmented caches.
ghost use Rattle.std.specs.Prelude.{◌≡◌, ◌≤◌, ◌<◌, ◌^◌, true, None, Some, IfErr, IfOk};
ghost use Rattle.moka_segments.specs.Builder.{count_fault, count_of, fault_of, new_builder, plan_of, refusal_of, usual_count};
ghost use Rattle.moka_unsync.specs.Builder.{share_fault};
ghost use Rattle.moka_unsync_model.specs.Shares.{adaptive};

mod notifying;

use crate::assemble::assemble;
use crate::cache::SegmentedCache;
use crate::constants::{ENTRIES_OF_A_SEGMENT, MOST_SEGMENTS, USUAL_SEGMENTS};
use crate::error::BuildError;
use crate::owners::Owners;
use crate::plan::Plan;
use crate::rule::{Rule, Unruled};
use crate::weigher::Weighing;
use moka_common::error;
use moka_common::hash::FixedState;
use moka_common::policy::Policy;
use moka_common::settings::duration_fault;
use moka_common::weigh::UnitWeight;
use moka_unsync_model::constants::{ADAPTIVE_PROTECTED_SHARE, PROTECTED_SHARE, WINDOW_SHARE};
use moka_unsync_model::shares::Shares;
pub use notifying::NotifyingBuilder;
use std::alloc::Global;
use std::hash::{BuildHasher, Hash};
use std::marker::{Model, PhantomData};
use std::time::Duration;

/// Builds a segmented cache with the settings that are made. What isn't set isn't limited.
///
/// ```
/// let cache: SegmentedCache<u64, u64> = SegmentedCache::builder(alloc)
///     .max_capacity(100_000)
///     .num_segments(16)
///     .time_to_live(Duration::from_secs(10))
///     .build()?;
/// ```
///
/// A builder takes no memory. `build`, `build_with_hasher` and `build_owned` refuse a duration of more than 1000 years, the time to live first, then a share
/// above 100%, the window's first, then a number of segments that is 0 or above 2^32, and then want of memory.
#[derive(Drop)]
pub struct CacheBuilder<K, V, W: Drop = UnitWeight, P = Unruled> {
    alloc: Global,
    policy: Policy,
    initial_capacity: usize,
    shares: Shares,
    num_segments: Option<usize>,
    is_weighed: bool,
    weigher: W,
    of: PhantomData<(K, V, P)>,
}

impl<K, V, W: Drop, P> Model for CacheBuilder<K, V, W, P> {
    ghost use Rattle.std.specs.Prelude.{◌≡◌};
    ghost use Rattle.moka_segments.specs.Builder.{Builder};

    ghost Value = { Builder W };

    ghost view = { λ b. record {
      policy = b.policy;
      initial_capacity = b.initial_capacity;
      shares = b.shares;
      num_segments = b.num_segments;
      is_weighed = b.is_weighed;
      weigher = b.weigher;
    } };

    ghost invariant = { λ b. b.shares.extra ≡ 0 };
}

impl<K, V> CacheBuilder<K, V, UnitWeight, Unruled> {
    /// Returns a builder of caches with a limit: that many entries, or as much weight if a weigher is given.
    pub fn new(alloc: Global, max_capacity: u64) -> Self
        ensures { result ≡ new_builder (Some max_capacity) result.weigher }
    {
        CacheBuilder::default(alloc).max_capacity(max_capacity)
    }

    /// Returns a builder of caches without limits.
    pub fn default(alloc: Global) -> Self
        ensures { result ≡ new_builder None result.weigher }
    {
        CacheBuilder {
            alloc,
            policy: Policy::new(None, None, None),
            initial_capacity: 0,
            shares: Shares {
                window: WINDOW_SHARE,
                protected: PROTECTED_SHARE,
                adapts: false,
                extra: 0,
            },
            num_segments: None,
            is_weighed: false,
            weigher: UnitWeight,
            of: PhantomData,
        }
    }
}

impl<K, V, W: Drop, P> CacheBuilder<K, V, W, P> {
    /// Sets the largest number of entries, or with a weigher the largest weight, of all segments together.
    pub fn max_capacity(self, max_capacity: u64) -> Self
        ensures { result ≡ record self { policy = record self.policy { max_capacity = Some max_capacity } } }
    {
        CacheBuilder {
            policy: self.policy.with_max_capacity(max_capacity),
            ..self
        }
    }

    /// Sets the number of segments, from 1 to 2^32. The default is 64, or fewer if a segment would have less than 100 of the limit.
    pub fn num_segments(self, num_segments: usize) -> Self
        ensures { result ≡ record self { num_segments = Some num_segments } }
    {
        CacheBuilder {
            num_segments: Some(num_segments),
            ..self
        }
    }

    /// Sets the number of entries that the segments together have room for from the start. Each segment gets an equal part.
    pub fn initial_capacity(self, initial_capacity: usize) -> Self
        ensures { result ≡ record self { initial_capacity = initial_capacity } }
    {
        CacheBuilder {
            initial_capacity,
            ..self
        }
    }

    /// Sets how long an entry lives after it was last written.
    pub fn time_to_live(self, time_to_live: Duration) -> Self
        ensures { result ≡ record self { policy = record self.policy { time_to_live = Some time_to_live } } }
    {
        CacheBuilder {
            policy: self.policy.with_time_to_live(time_to_live),
            ..self
        }
    }

    /// Sets how long an entry lives after it was last read or written.
    pub fn time_to_idle(self, time_to_idle: Duration) -> Self
        ensures { result ≡ record self { policy = record self.policy { time_to_idle = Some time_to_idle } } }
    {
        CacheBuilder {
            policy: self.policy.with_time_to_idle(time_to_idle),
            ..self
        }
    }

    /// Sets the window's share of each segment's capacity in percent, rounded down.
    pub fn window_share(self, percent: u8) -> Self
        ensures { result ≡ record self { shares = record self.shares { window = percent } } }
    {
        CacheBuilder {
            shares: Shares {
                window: percent,
                ..self.shares
            },
            ..self
        }
    }

    /// Sets the share of each segment's main part for protected entries in percent, rounded down.
    pub fn protected_share(self, percent: u8) -> Self
        ensures { result ≡ record self { shares = record self.shares { protected = percent } } }
    {
        CacheBuilder {
            shares: Shares {
                protected: percent,
                ..self.shares
            },
            ..self
        }
    }

    /// Makes the window of each segment adapt to the segment's calls. It grows while keys come back that were rejected, up to 80% of the segment's capacity,
    /// and shrinks while keys come back that its main part gave up for others. It begins with a window of 1% and protected entries of 80%; a share that is set
    /// later changes where it begins. Each segment then has two small tables beside its sketch's. If memory for them is refused, its window stays as it is.
    pub fn adaptive(self) -> Self
        ensures { result ≡ record self { shares = adaptive self.shares } }
    {
        CacheBuilder {
            shares: Shares {
                window: WINDOW_SHARE,
                protected: ADAPTIVE_PROTECTED_SHARE,
                adapts: true,
                ..self.shares
            },
            ..self
        }
    }

    /// Sets the weigher. It is called under the lock of the key's segment, once for each insert that isn't refused memory and each modification.
    pub fn weigher<N: Weighing<K, V>>(self, weigher: N) -> CacheBuilder<K, V, N, P>
        ensures { result ≡ record {
          policy = self.policy;
          initial_capacity = self.initial_capacity;
          shares = self.shares;
          num_segments = self.num_segments;
          is_weighed = true;
          weigher = weigher;
        } }
    {
        CacheBuilder {
            alloc: self.alloc,
            policy: self.policy,
            initial_capacity: self.initial_capacity,
            shares: self.shares,
            num_segments: self.num_segments,
            is_weighed: true,
            weigher,
            of: PhantomData,
        }
    }

    /// Sets the rules that the cache keeps.
    pub fn rule<Q>(self) -> CacheBuilder<K, V, W, Q>
        ensures { result ≡ self }
    {
        CacheBuilder {
            alloc: self.alloc,
            policy: self.policy,
            initial_capacity: self.initial_capacity,
            shares: self.shares,
            num_segments: self.num_segments,
            is_weighed: self.is_weighed,
            weigher: self.weigher,
            of: PhantomData,
        }
    }

    /// Sets the listener, of which each session gets a clone. Set it last.
    ///
    /// ```
    /// let cache: NotifyingCache<u64, u64, Statistics> = SegmentedCache::builder(alloc)
    ///     .max_capacity(100_000)
    ///     .eviction_listener(Statistics::default())
    ///     .build()?;
    /// ```
    pub fn eviction_listener<L: Drop>(self, listener: L) -> NotifyingBuilder<K, V, L, W, P>
        ensures { result ≡ record { builder = self; listener = listener } }
    {
        NotifyingBuilder::new(self, listener)
    }

    /// Returns the number of segments.
    fn count(&self) -> usize
        ensures { result ≡ count_of self.now }
    {
        match self.num_segments {
            Some(count) => count,
            None => usual_count(self.policy.max_capacity()) as usize,
        }
    }

    /// Returns the first fault among the settings.
    fn fault(&self) -> Option<BuildError>
        ensures { result ≡ fault_of self.now }
    {
        let policy = self.policy;
        if let Some(fault) = duration_fault(policy.time_to_live(), policy.time_to_idle()) {
            return Some(BuildError::Cache(fault));
        }
        if let Some(fault) = share_fault(self.shares) {
            return Some(BuildError::Cache(fault));
        }
        count_fault(self.count())
    }
}

/// Returns the number of segments if none is set.
fn usual_count(limit: Option<u64>) -> u64
    ensures { result ≡ usual_count limit }
{
    match limit {
        Some(limit) => (limit / ENTRIES_OF_A_SEGMENT).max(1).min(USUAL_SEGMENTS),
        None => USUAL_SEGMENTS,
    }
}

/// Returns what is wrong with the shares, the window's first.
fn share_fault(shares: Shares) -> Option<error::BuildError>
    ensures { result ≡ share_fault shares }
{
    if shares.window > 100 {
        Some(error::BuildError::WindowShareTooLarge)
    } else if shares.protected > 100 {
        Some(error::BuildError::ProtectedShareTooLarge)
    } else {
        None
    }
}

/// Returns what is wrong with a number of segments.
fn count_fault(count: usize) -> Option<BuildError>
    ensures { result ≡ count_fault count }
{
    if count == 0 || count > MOST_SEGMENTS {
        Some(BuildError::NumSegments)
    } else {
        None
    }
}

impl<K: Eq + Hash + Drop, V: Drop, W: Weighing<K, V> + Copy, P: Rule<K, V>> CacheBuilder<
    K,
    V,
    W,
    P,
> {
    /// Builds the cache with std's default hash state. Its key is fixed: if strangers choose the keys, use `build_with_hasher` with a `RandomState`.
    pub fn build(self) -> Result<SegmentedCache<K, V, FixedState, W, P>, BuildError>
        requires ready { W.ready self.weigher }
        ensures ok { IfOk result (λ cache. (cache.plan ≡ plan_of self cache.plan.hash_state) × (fault_of self ≡ None)) }
        ensures err { IfErr result (λ error. error ≡ refusal_of self) }
    {
        self.build_with_hasher(FixedState::default())
    }

    /// Builds the cache with this hash state, of which each segment has a copy.
    pub fn build_with_hasher<S: BuildHasher + Copy>(
        self,
        hash_state: S,
    ) -> Result<SegmentedCache<K, V, S, W, P>, BuildError>
        requires ready { W.ready self.weigher }
        ensures ok { IfOk result (λ cache. (cache.plan ≡ plan_of self hash_state) × (fault_of self ≡ None)) }
        ensures err { IfErr result (λ error. error ≡ refusal_of self) }
    {
        let (cache, _owners) = self.build_owned(hash_state)?;
        Ok(cache)
    }

    /// Builds the cache with this hash state, and the `Owners` that hand out sessions by number.
    pub fn build_owned<S: BuildHasher + Copy>(
        self,
        hash_state: S,
    ) -> Result<(SegmentedCache<K, V, S, W, P>, Owners<K, V, S, W, P>), BuildError>
        requires ready { W.ready self.weigher }
        ensures ok { IfOk result (λ r. (r.0.plan ≡ plan_of self hash_state) × (fault_of self ≡ None)) }
        ensures owners { IfOk result (λ r. r.1 ≡ record { cache = r.0; next = 0 }) }
        ensures err { IfErr result (λ error. error ≡ refusal_of self) }
    {
        if let Some(fault) = self.fault() {
            return Err(fault);
        }
        let plan = Plan {
            hash_state,
            count: self.count(),
            policy: self.policy,
            shares: self.shares,
            initial_capacity: self.initial_capacity,
            is_weighed: self.is_weighed,
        };
        match assemble(self.alloc, plan, self.weigher) {
            Ok(built) => Ok(built),
            Err(_) => Err(BuildError::Cache(error::BuildError::OutOfMemory)),
        }
    }
}
