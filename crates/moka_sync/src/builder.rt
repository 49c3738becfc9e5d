//! The builder of caches that threads share.
ghost use Rattle.std.specs.Prelude.{◌≡◌, ◌∷◌, [], true, None, Some, IfErr, IfOk};
ghost use Rattle.moka_sync.specs.Builder.{ArePartsOf, IsBuilt, IsLegal, new_builder, refusal_of};
ghost use Rattle.moka_locks.specs.Cache.{CacheId, new_cache};
ghost use Rattle.moka_sync_model.specs.Published.{opening};

mod debug;

use crate::cache::Cache;
use moka_common::error::{BuildError, OutOfMemory};
use moka_common::hash::FixedState;
use moka_common::policy::Policy;
use moka_common::settings::duration_fault;
use moka_common::weigh::UnitWeight;
use moka_core::engine::Core;
use moka_guards::counts::{CountPass, Publisher};
use moka_shard::rule::{AnyPair, PairRule};
use moka_sync_model::constants::{SHARDS, WRITE_LOG_SIZE};
use moka_sync_model::settings::CoreParts;
use moka_sync_model::weigh::WeighShared;
use std::alloc::{Allocator, Global};
use std::hash::{BuildHasher, Hash};
use std::marker::{Model, PhantomData};
use std::time::Duration;

/// Builds a cache that threads share, or the core of one, with the settings that are made. What isn't set isn't limited.
///
/// ```
/// let cache: Cache<u64, String> = Cache::builder(alloc)
///     .max_capacity(100)
///     .time_to_live(Duration::from_secs(10))
///     .build()?;
/// ```
///
/// A weigher makes the capacity a weight, as of the bytes of a text. It has no state to change, since several threads may call it at the same time:
///
/// ```
/// let cache = Cache::builder(alloc)
///     .max_capacity(1_000_000)
///     .weigher(|_key: &u64, value: &String| u32::try_from(value.len()).unwrap_or(u32::MAX))
///     .build()?;
/// ```
///
/// `pair_rule` sets a rule that each pair of the cache meets (`PairRule`). `build_with_hasher` takes a hash state; `build_counted` takes
/// one too, and returns a pass beside the cache, by which a count and its weight are loaded together (`Cache::published`); `build_core` returns the
/// cache's core, which has no locks.
///
/// A builder takes no memory. Each way to build refuses a duration of more than 1000 years, the time to live first, an initial capacity that exceeds
/// `usize::MAX` together with a log's room, and want of memory.
///
/// # What differs from mini-moka
///
/// `new` and `default` take the allocator, and `build` returns a `Result`: a duration that makes mini-moka panic is a named refusal. The weigher is a type
/// parameter and not a box. It is called while the lock of the key's shard is held, once there is room for the entry; mini-moka calls it before that lock.
/// The default hash state has a fixed key. Pair rules, published counts and the core are not in mini-moka.
#[derive(Drop)]
pub struct CacheBuilder<
    K,
    V,
    W: Drop = UnitWeight,
    A: Allocator + Clone + Drop = Global,
    P = AnyPair,
> {
    alloc: A,
    policy: Policy,
    initial_capacity: usize,
    is_weighed: bool,
    weigher: W,
    pairs: PhantomData<(K, V, P)>,
}

impl<K, V, W: Drop, A: Allocator + Clone + Drop, P> Model for CacheBuilder<K, V, W, A, P> {
    ghost use Rattle.moka_sync.specs.Builder.{Builder};

    ghost Value = { Builder W };

    ghost view = { λ b. record { policy = b.policy; initial_capacity = b.initial_capacity; is_weighed = b.is_weighed; weigher = b.weigher } };
}

impl<K, V, A: Allocator + Clone + Drop> CacheBuilder<K, V, UnitWeight, A> {
    /// Makes a builder of caches with a limit: that many entries, or that much weight with a weigher.
    pub fn new(alloc: A, max_capacity: u64) -> Self
        ensures { result ≡ new_builder (Some max_capacity) result.weigher }
    {
        CacheBuilder::default(alloc).max_capacity(max_capacity)
    }

    /// Makes a builder of caches without limits.
    pub fn default(alloc: A) -> Self
        ensures { result ≡ new_builder None result.weigher }
    {
        CacheBuilder {
            alloc,
            policy: Policy::new(None, None, None),
            initial_capacity: 0,
            is_weighed: false,
            weigher: UnitWeight,
            pairs: PhantomData,
        }
    }
}

impl<K, V, W: Drop, A: Allocator + Clone + Drop, P> CacheBuilder<K, V, W, A, P> {
    /// Sets the largest number of entries, or with a weigher the largest weight.
    pub fn max_capacity(self, max_capacity: u64) -> Self
        ensures { result ≡ record self { policy = record self.policy { max_capacity = Some max_capacity } } }
    {
        CacheBuilder {
            policy: self.policy.with_max_capacity(max_capacity),
            ..self
        }
    }

    /// Sets the number of entries for which memory is reserved at the start. It is reserved in equal parts for the shards, and for as many more as a log
    /// holds. Room for more is made as they come.
    pub fn initial_capacity(self, initial_capacity: usize) -> Self
        ensures { result ≡ record self { initial_capacity = initial_capacity } }
    {
        CacheBuilder {
            initial_capacity,
            ..self
        }
    }

    /// Sets how long an entry lives after its last write.
    pub fn time_to_live(self, time_to_live: Duration) -> Self
        ensures { result ≡ record self { policy = record self.policy { time_to_live = Some time_to_live } } }
    {
        CacheBuilder {
            policy: self.policy.with_time_to_live(time_to_live),
            ..self
        }
    }

    /// Sets how long an entry lives after its last read or write.
    pub fn time_to_idle(self, time_to_idle: Duration) -> Self
        ensures { result ≡ record self { policy = record self.policy { time_to_idle = Some time_to_idle } } }
    {
        CacheBuilder {
            policy: self.policy.with_time_to_idle(time_to_idle),
            ..self
        }
    }

    /// Sets the weigher: a closure, or a type with an impl of `WeighShared`. It is called under the lock of the key's shard.
    pub fn weigher<N: WeighShared<K, V>>(self, weigher: N) -> CacheBuilder<K, V, N, A, P>
        ensures { result ≡ record {
          policy = self.policy;
          initial_capacity = self.initial_capacity;
          is_weighed = true;
          weigher = weigher;
        } }
    {
        CacheBuilder {
            alloc: self.alloc,
            policy: self.policy,
            initial_capacity: self.initial_capacity,
            is_weighed: true,
            weigher,
            pairs: PhantomData,
        }
    }
}

impl<K: Eq, V, W: Drop, A: Allocator + Clone + Drop, P> CacheBuilder<K, V, W, A, P> {
    /// Sets the rule that each pair of the cache meets.
    pub fn pair_rule<Q: PairRule<K, V>>(self) -> CacheBuilder<K, V, W, A, Q>
        ensures { result ≡ self }
    {
        let CacheBuilder {
            alloc,
            policy,
            initial_capacity,
            is_weighed,
            weigher,
            pairs: _,
        } = self;
        CacheBuilder {
            alloc,
            policy,
            initial_capacity,
            is_weighed,
            weigher,
            pairs: PhantomData,
        }
    }
}

impl<K, V, W: Drop, A: Allocator + Clone + Drop, P> CacheBuilder<K, V, W, A, P> {
    /// Returns the parts of a cache, with the allocator, if the settings are legal.
    fn parts<S: Drop>(self, hash_state: S) -> Result<(A, CoreParts<S, W>), BuildError>
        ensures legal { IfOk result (λ built. IsLegal self) }
        ensures parts { IfOk result (λ built. ArePartsOf self hash_state built.1) }
        ensures err { IfErr result (λ error. error ≡ refusal_of self) }
    {
        let policy = self.policy;
        if let Some(fault) = duration_fault(policy.time_to_live(), policy.time_to_idle()) {
            return Err(fault);
        }
        let Some(capacity) = self.initial_capacity.checked_add(WRITE_LOG_SIZE) else {
            return Err(BuildError::CapacityTooLarge);
        };
        let parts = CoreParts {
            hash_state,
            policy,
            is_weighed: self.is_weighed,
            weigher: self.weigher,
            capacity: capacity.div_ceil(SHARDS),
        };
        Ok((self.alloc, parts))
    }
}

impl<K: Eq + Hash + Drop, V: Drop, W: Drop, A: Allocator + Clone + Drop, P> CacheBuilder<
    K,
    V,
    W,
    A,
    P,
> {
    /// Builds the core, with this hash state. It fails if a duration is above 1000 years, if `initial_capacity` is too large, or if memory is refused.
    pub fn build_core<S: BuildHasher + Drop>(
        self,
        hash_state: S,
    ) -> Result<Core<K, V, S, W, A>, BuildError>
        ensures ok { IfOk result (λ core. IsBuilt self hash_state core) }
        ensures err { IfErr result (λ error. error ≡ refusal_of self) }
    {
        let (alloc, parts) = self.parts(hash_state)?;
        Ok(Core::from_parts(alloc, parts)?)
    }
}

impl<
    K: Eq + Hash + Drop,
    V: Drop,
    W: Drop,
    A: Allocator + Clone + Drop,
    P: PairRule<K, V>,
> CacheBuilder<K, V, W, A, P> {
    /// Builds the cache with the default hash state. It fails as `build_with_hasher` does.
    pub fn build(self) -> Result<Cache<K, V, FixedState, P, W, A>, BuildError>
        ensures legal { IfOk result (λ cache. IsLegal self) }
        ensures policy { IfOk result (λ cache. cache.settings.policy ≡ self.policy) }
        ensures weigher { IfOk result (λ cache. cache.weigher ≡ self.weigher) }
        ensures err { IfErr result (λ error. error ≡ refusal_of self) }
    {
        self.build_with_hasher(FixedState::new())
    }

    /// Builds the cache with this hash state. It fails if a duration is above 1000 years, if `initial_capacity` is too large, or if memory is refused.
    pub fn build_with_hasher<S: BuildHasher + Drop>(
        self,
        hash_state: S,
    ) -> Result<Cache<K, V, S, P, W, A>, BuildError>
        ensures legal { IfOk result (λ cache. IsLegal self) }
        ensures cache { IfOk result (λ cache. (id : CacheId) × (cache ≡ new_cache
            (record { hash_state = hash_state; policy = self.policy; is_weighed = self.is_weighed }) self.weigher None id)) }
        ensures err { IfErr result (λ error. error ≡ refusal_of self) }
    {
        let (alloc, parts) = self.parts(hash_state)?;
        Ok(Cache::from_parts(alloc, parts, None)?)
    }

    /// Builds the cache with this hash state, and a pass for its published counts. It fails as `build_with_hasher` does.
    pub fn build_counted<S: BuildHasher + Drop>(
        self,
        hash_state: S,
    ) -> Result<(Cache<K, V, S, P, W, A>, CountPass), BuildError>
        ensures legal { IfOk result (λ built. IsLegal self) }
        ensures cache { IfOk result (λ built. (id : CacheId) × (built.0 ≡ new_cache
            (record { hash_state = hash_state; policy = self.policy; is_weighed = self.is_weighed }) self.weigher (Some built.1.counts) id)) }
        ensures pass { IfOk result (λ built. built.1.seen ≡ opening ∷ []) }
        ensures err { IfErr result (λ error. error ≡ refusal_of self) }
    {
        let (alloc, parts) = self.parts(hash_state)?;
        let mut publisher = Publisher::new(&alloc).map_err(|_| OutOfMemory)?;
        let pass = publisher.pass();
        let cache = Cache::from_parts(alloc, parts, Some(publisher))?;
        Ok((cache, pass))
    }
}
