//! The builder of caches for one thread.
ghost use Rattle.std.specs.Prelude.{◌≡◌, true, None, Some, IfErr, IfOk};
ghost use Rattle.moka_unsync.specs.Builder.{IsBuilt, new_builder, refusal_of};
ghost use Rattle.moka_unsync_model.specs.Shares.{adaptive};

mod debug;
mod notifying;

use crate::cache::{Cache, Parts};
use crate::part_limits::{adaptive, default_shares, share_fault};
use moka_common::error::BuildError;
use moka_common::hash::FixedState;
use moka_common::policy::Policy;
use moka_common::settings::duration_fault;
use moka_common::weigh::{UnitWeight, Weigh};
use moka_unsync_model::shares::Shares;
pub use notifying::NotifyingBuilder;
use std::alloc::{Allocator, Global};
use std::hash::{BuildHasher, Hash};
use std::marker::{Model, PhantomData};
use std::time::Duration;

/// Builds a cache with the settings that are made. What isn't set isn't limited.
///
/// ```
/// let mut cache: Cache<u64, String> = Cache::builder(alloc)
///     .max_capacity(100)
///     .time_to_live(Duration::from_secs(10))
///     .build()?;
/// ```
///
/// A weigher makes the capacity a weight, as of the bytes of a text:
///
/// ```
/// let mut cache = Cache::builder(alloc)
///     .max_capacity(1_000_000)
///     .weigher(|_key: &u64, value: &String| u32::try_from(value.len()).unwrap_or(u32::MAX))
///     .build()?;
/// ```
///
/// A builder takes no memory. `build` and `build_with_hasher` refuse a duration of more than 1000 years, the time to live first, then a share above 100%,
/// the window's first, and then want of memory for what `initial_capacity` reserves.
#[derive(Drop)]
pub struct CacheBuilder<K, V, W: Drop = UnitWeight, A: Allocator + Clone + Drop = Global> {
    alloc: A,
    policy: Policy,
    initial_capacity: usize,
    shares: Shares,
    is_weighed: bool,
    weigher: W,
    entries: PhantomData<(K, V)>,
}

impl<K, V, W: Drop, A: Allocator + Clone + Drop> Model for CacheBuilder<K, V, W, A> {
    ghost use Rattle.std.specs.Prelude.{◌≡◌};
    ghost use Rattle.moka_unsync.specs.Builder.{Builder};

    ghost Value = { Builder W };

    ghost view = { λ b. record {
      policy = b.policy;
      initial_capacity = b.initial_capacity;
      shares = b.shares;
      is_weighed = b.is_weighed;
      weigher = b.weigher;
    } };

    ghost invariant = { λ b. b.shares.extra ≡ 0 };
}

impl<K, V, A: Allocator + Clone + Drop> CacheBuilder<K, V, UnitWeight, A> {
    /// Makes a builder of caches with a limit: that many entries, or that much weight with a weigher.
    pub fn new(alloc: A, max_capacity: u64) -> Self
        ensures { result ≡ new_builder (Some max_capacity) result.weigher }
    {
        CacheBuilder::default(alloc).max_capacity(max_capacity)
    }

    /// Makes a builder of caches without limits.
    pub fn default(alloc: A) -> Self
        ensures { result ≡ new_builder None result.weigher }
    {
        CacheBuilder {
            alloc,
            policy: Policy::new(None, None, None),
            initial_capacity: 0,
            shares: default_shares(),
            is_weighed: false,
            weigher: UnitWeight,
            entries: PhantomData,
        }
    }
}

impl<K, V, W: Drop, A: Allocator + Clone + Drop> CacheBuilder<K, V, W, A> {
    /// Sets the largest number of entries, or with a weigher the largest weight.
    pub fn max_capacity(self, max_capacity: u64) -> Self
        ensures { result ≡ record self { policy = record self.policy { max_capacity = Some max_capacity } } }
    {
        CacheBuilder {
            policy: self.policy.with_max_capacity(max_capacity),
            ..self
        }
    }

    /// Sets the number of entries for which memory is reserved at the start, with one more place for the insert into a full cache. While the cache has at most
    /// that many entries it doesn't grow, and no insert is refused. So without a weigher a cache with its limit as initial capacity never grows. From half of
    /// the limit on the counters of popularity are allocated at the start too, which are used once the cache is half full.
    pub fn initial_capacity(self, initial_capacity: usize) -> Self
        ensures { result ≡ record self { initial_capacity = initial_capacity } }
    {
        CacheBuilder {
            initial_capacity,
            ..self
        }
    }

    /// Sets how long an entry lives after its last write.
    pub fn time_to_live(self, time_to_live: Duration) -> Self
        ensures { result ≡ record self { policy = record self.policy { time_to_live = Some time_to_live } } }
    {
        CacheBuilder {
            policy: self.policy.with_time_to_live(time_to_live),
            ..self
        }
    }

    /// Sets how long an entry lives after its last read or write.
    pub fn time_to_idle(self, time_to_idle: Duration) -> Self
        ensures { result ≡ record self { policy = record self.policy { time_to_idle = Some time_to_idle } } }
    {
        CacheBuilder {
            policy: self.policy.with_time_to_idle(time_to_idle),
            ..self
        }
    }

    /// Sets the window's share of the capacity in percent, rounded down. The default is 1. New entries enter the window first: a larger one finds more keys
    /// that are asked for again soon after they came, and fewer that are popular for long. With 0 there is no window. `build` refuses more than 100.
    pub fn window_share(self, percent: u8) -> Self
        ensures { result ≡ record self { shares = record self.shares { window = percent } } }
    {
        CacheBuilder {
            shares: Shares {
                window: percent,
                ..self.shares
            },
            ..self
        }
    }

    /// Sets the share of the main part for protected entries in percent, rounded down. The default is 0; Caffeine has 80. An entry of the main part is
    /// protected at its first use there, and leaves after those that aren't. If protected entries outweigh their share, the least recently used ones are
    /// protected no more. `build` refuses more than 100.
    pub fn protected_share(self, percent: u8) -> Self
        ensures { result ≡ record self { shares = record self.shares { protected = percent } } }
    {
        CacheBuilder {
            shares: Shares {
                protected: percent,
                ..self.shares
            },
            ..self
        }
    }

    /// Makes the window adapt to the calls. It grows while keys come back that were rejected, up to 80% of the capacity, and shrinks while keys come back that
    /// main gave up for others. It begins with a window of 1% and protected entries of 80%; a share that is set later changes where it begins. The cache then
    /// has two small tables beside the sketch's. If memory for them is refused, the window stays as it is.
    pub fn adaptive(self) -> Self
        ensures { result ≡ record self { shares = adaptive self.shares } }
    {
        CacheBuilder {
            shares: adaptive(self.shares),
            ..self
        }
    }

    /// Sets the weigher: a closure, or a type with an impl of `Weigh`. It is called once for each insert that isn't refused memory.
    pub fn weigher<N: Weigh<K, V> + Drop>(self, weigher: N) -> CacheBuilder<K, V, N, A>
        ensures { result ≡ record {
          policy = self.policy;
          initial_capacity = self.initial_capacity;
          shares = self.shares;
          is_weighed = true;
          weigher = weigher;
        } }
    {
        self.weigher_where(true, weigher)
    }

    /// Sets the listener, which gets each entry that leaves. Set it last.
    ///
    /// ```
    /// let mut cache: NotifyingCache<u64, u32, Statistics> = Cache::builder(alloc)
    ///     .max_capacity(100)
    ///     .eviction_listener(Statistics::default())
    ///     .build()?;
    /// ```
    pub fn eviction_listener<L: Drop>(self, listener: L) -> NotifyingBuilder<K, V, L, W, A>
        ensures { result ≡ record { builder = self; listener = listener } }
    {
        NotifyingBuilder::new(self, listener)
    }

    /// Sets a weigher for a program that learns at run time whether the capacity is a weight or a number of entries. If `is_weighed` is false it is a number,
    /// as without a weigher, and the weigher must weigh each entry 1.
    pub fn weigher_where<N: Weigh<K, V> + Drop>(
        self,
        is_weighed: bool,
        weigher: N,
    ) -> CacheBuilder<K, V, N, A>
        ensures { result ≡ record {
          policy = self.policy;
          initial_capacity = self.initial_capacity;
          shares = self.shares;
          is_weighed = is_weighed;
          weigher = weigher;
        } }
    {
        CacheBuilder {
            alloc: self.alloc,
            policy: self.policy,
            initial_capacity: self.initial_capacity,
            shares: self.shares,
            is_weighed,
            weigher,
            entries: PhantomData,
        }
    }
}

impl<K: Eq + Hash + Drop, V: Drop, W: Drop, A: Allocator + Clone + Drop> CacheBuilder<K, V, W, A> {
    /// Builds the cache with std's default hash state. It is refused if a duration is longer than 1000 years or a share above 100, or for want of memory. The
    /// hash state's key is fixed: if strangers choose the keys, use `build_with_hasher` with a `RandomState`.
    pub fn build(self) -> Result<Cache<K, V, FixedState, W, A>, BuildError>
        ensures ok { IfOk result (λ cache. IsBuilt self cache.settings.hash_state cache) }
        ensures err { IfErr result (λ error. error ≡ refusal_of self) }
    {
        self.build_with_hasher(FixedState::default())
    }

    /// Builds the cache with this hash state. It is refused as `build` is.
    pub fn build_with_hasher<S: BuildHasher + Drop>(
        self,
        hash_state: S,
    ) -> Result<Cache<K, V, S, W, A>, BuildError>
        ensures ok { IfOk result (λ cache. IsBuilt self hash_state cache) }
        ensures err { IfErr result (λ error. error ≡ refusal_of self) }
    {
        let policy = self.policy;
        if let Some(fault) = duration_fault(policy.time_to_live(), policy.time_to_idle()) {
            return Err(fault);
        }
        if let Some(fault) = share_fault(self.shares) {
            return Err(fault);
        }
        let cache = Cache::from_parts(
            self.alloc,
            Parts {
                hash_state,
                policy,
                shares: self.shares,
                is_weighed: self.is_weighed,
                weigher: self.weigher,
                initial_capacity: self.initial_capacity,
            },
        )?;
        Ok(cache)
    }
}
