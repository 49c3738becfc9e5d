//! A builder of caches with a listener.
ghost use Rattle.std.specs.Prelude.{◌≡◌, IfErr, IfOk};
ghost use Rattle.moka_unsync.specs.Builder.{IsBuilt, refusal_of};

use crate::builder::CacheBuilder;
use crate::notifying_cache::NotifyingCache;
use moka_common::error::BuildError;
use moka_common::hash::FixedState;
use moka_common::weigh::UnitWeight;
use std::alloc::{Allocator, Global};
use std::hash::{BuildHasher, Hash};
use std::marker::Model;

/// Builds a cache with a listener. `CacheBuilder::eviction_listener` returns it, after all other settings.
#[derive(Drop)]
pub struct NotifyingBuilder<
    K,
    V,
    L: Drop,
    W: Drop = UnitWeight,
    A: Allocator + Clone + Drop = Global,
> {
    builder: CacheBuilder<K, V, W, A>,
    listener: L,
}

impl<K, V, L: Drop, W: Drop, A: Allocator + Clone + Drop> Model
    for NotifyingBuilder<K, V, L, W, A> {
    ghost use Rattle.moka_unsync.specs.Notifying.{NotifyingBuilder as Builder};

    ghost Value = { Builder W L };

    ghost view = { λ b. record { builder = b.builder; listener = b.listener } };
}

impl<K, V, L: Drop, W: Drop, A: Allocator + Clone + Drop> NotifyingBuilder<K, V, L, W, A> {
    /// Makes a builder with a listener.
    pub(crate) fn new(builder: CacheBuilder<K, V, W, A>, listener: L) -> Self
        ensures { result ≡ record { builder = builder; listener = listener } }
    {
        NotifyingBuilder { builder, listener }
    }
}

impl<K: Eq + Hash + Drop, V: Drop, L: Drop, W: Drop, A: Allocator + Clone + Drop> NotifyingBuilder<
    K,
    V,
    L,
    W,
    A,
> {
    /// Builds the cache, as `CacheBuilder::build` does. If it is refused, the listener is dropped.
    pub fn build(self) -> Result<NotifyingCache<K, V, L, FixedState, W, A>, BuildError>
        ensures ok { IfOk result (λ notifying. IsBuilt self.builder notifying.cache.settings.hash_state notifying.cache
            × (notifying.listener ≡ self.listener)) }
        ensures err { IfErr result (λ error. error ≡ refusal_of self.builder) }
    {
        self.build_with_hasher(FixedState::default())
    }

    /// Builds the cache with this hash state, as `CacheBuilder::build_with_hasher` does.
    pub fn build_with_hasher<S: BuildHasher + Drop>(
        self,
        hash_state: S,
    ) -> Result<NotifyingCache<K, V, L, S, W, A>, BuildError>
        ensures ok { IfOk result (λ notifying. IsBuilt self.builder hash_state notifying.cache × (notifying.listener ≡ self.listener)) }
        ensures err { IfErr result (λ error. error ≡ refusal_of self.builder) }
    {
        let cache = self.builder.build_with_hasher(hash_state)?;
        Ok(cache.with_listener(self.listener))
    }
}
