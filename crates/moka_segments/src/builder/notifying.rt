//! A builder of caches with a listener.
ghost use Rattle.std.specs.Prelude.{◌≡◌, None, IfErr, IfOk};
ghost use Rattle.moka_segments.specs.Builder.{fault_of, plan_of, refusal_of};

use crate::builder::CacheBuilder;
use crate::error::BuildError;
use crate::notifying_cache::NotifyingCache;
use crate::rule::{Rule, Unruled};
use crate::weigher::Weighing;
use moka_common::hash::FixedState;
use moka_common::weigh::UnitWeight;
use std::hash::{BuildHasher, Hash};
use std::marker::Model;

/// Builds a cache with a listener. `CacheBuilder::eviction_listener` returns it, after all other settings.
#[derive(Drop)]
pub struct NotifyingBuilder<K, V, L: Drop, W: Drop = UnitWeight, P = Unruled> {
    builder: CacheBuilder<K, V, W, P>,
    listener: L,
}

impl<K, V, L: Drop, W: Drop, P> Model for NotifyingBuilder<K, V, L, W, P> {
    ghost use Rattle.moka_segments.specs.Notifying.{NotifyingBuilder as Builder};

    ghost Value = { Builder W L };

    ghost view = { λ b. record { builder = b.builder; listener = b.listener } };
}

impl<K, V, L: Drop, W: Drop, P> NotifyingBuilder<K, V, L, W, P> {
    /// Makes a builder with a listener.
    pub(crate) fn new(builder: CacheBuilder<K, V, W, P>, listener: L) -> Self
        ensures { result ≡ record { builder = builder; listener = listener } }
    {
        NotifyingBuilder { builder, listener }
    }
}

impl<
    K: Eq + Hash + Drop,
    V: Drop,
    L: Drop,
    W: Weighing<K, V> + Copy,
    P: Rule<K, V>,
> NotifyingBuilder<K, V, L, W, P> {
    /// Builds the cache, as `CacheBuilder::build` does. If it is refused, the listener is dropped.
    pub fn build(self) -> Result<NotifyingCache<K, V, L, FixedState, W, P>, BuildError>
        requires ready { W.ready self.builder.weigher }
        ensures ok { IfOk result (λ notifying. (notifying.cache.plan ≡ plan_of self.builder notifying.cache.plan.hash_state)
            × (fault_of self.builder ≡ None)) }
        ensures listener { IfOk result (λ notifying. notifying.listener ≡ self.listener) }
        ensures err { IfErr result (λ error. error ≡ refusal_of self.builder) }
    {
        self.build_with_hasher(FixedState::default())
    }

    /// Builds the cache with this hash state, as `CacheBuilder::build_with_hasher` does.
    pub fn build_with_hasher<S: BuildHasher + Copy>(
        self,
        hash_state: S,
    ) -> Result<NotifyingCache<K, V, L, S, W, P>, BuildError>
        requires ready { W.ready self.builder.weigher }
        ensures ok { IfOk result (λ notifying. (notifying.cache.plan ≡ plan_of self.builder hash_state) × (fault_of self.builder ≡ None)) }
        ensures listener { IfOk result (λ notifying. notifying.listener ≡ self.listener) }
        ensures err { IfErr result (λ error. error ≡ refusal_of self.builder) }
    {
        let cache = self.builder.build_with_hasher(hash_state)?;
        Ok(NotifyingCache::new(cache, self.listener))
    }
}
