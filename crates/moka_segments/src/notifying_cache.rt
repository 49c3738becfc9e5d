//! A cache of segments whose sessions have listeners.
ghost use Rattle.std.specs.Prelude.{◌≡◌, ℕ, IfOk};
ghost use Rattle.moka_row.specs.Visits.{guest, newcomer};

use crate::cache::SegmentedCache;
use crate::rule::{Rule, Unruled};
use crate::session::NotifyingSession;
use crate::weigher::Weighing;
use moka_common::error::OutOfMemory;
use moka_common::hash::FixedState;
use moka_common::policy::Policy;
use moka_common::weigh::UnitWeight;
use std::alloc::AllocError;
use std::hash::{BuildHasher, Hash};
use std::marker::Model;

/// A cache of segments with a listener, of which each session has a clone. So each entry that leaves goes to the listener of the session in whose call it
/// leaves: within the call, once, with its cause.
///
/// ```
/// let cache: NotifyingCache<u64, u64, Statistics> = SegmentedCache::builder(alloc)
///     .max_capacity(100_000)
///     .eviction_listener(Statistics::default())
///     .build()?;
/// let mut session = cache.session()?;
/// session.insert(rt, 7, 49, now)?;
/// let counts = session.into_listener();
/// ```
///
/// All calls are those of a session. A session's listener is its own, so threads don't wait for each other's. To put together what the listeners of several
/// sessions got, have them share it, as by an `Arc`, or add it up in the end.
///
/// What is left in a cache that is dropped goes to no listener: call `invalidate_all` of a session first.
#[derive(Drop)]
pub struct NotifyingCache<
    K: Eq + Hash + Drop,
    V: Drop,
    L: Drop,
    S: BuildHasher + Drop = FixedState,
    W: Weighing<K, V> = UnitWeight,
    P: Rule<K, V> = Unruled,
> {
    cache: SegmentedCache<K, V, S, W, P>,
    listener: L,
}

impl<
    K: Eq + Hash + Drop,
    V: Drop,
    L: Drop,
    S: BuildHasher + Drop,
    W: Weighing<K, V>,
    P: Rule<K, V>,
> Model for NotifyingCache<K, V, L, S, W, P> {
    ghost use Rattle.moka_segments.specs.Notifying.{NotifyingCache as CacheValue};

    ghost Value = { CacheValue S L };

    ghost view = { λ c. record { cache = c.cache; listener = c.listener } };
}

impl<
    K: Eq + Hash + Drop,
    V: Drop,
    L: Clone + Drop,
    S: BuildHasher + Drop,
    W: Weighing<K, V>,
    P: Rule<K, V>,
> Clone for NotifyingCache<K, V, L, S, W, P> {
    ghost use Rattle.std.specs.Prelude.{◌≡◌};

    ghost is_clone = { λ cache copy. (copy.cache ≡ cache.cache) × L.is_clone cache.listener copy.listener };

    /// Returns the same cache once more, with a clone of the listener.
    fn clone(&self) -> Result<Self, AllocError> {
        let cache = self.cache.clone()?;
        let listener = self.listener.clone()?;
        Ok(NotifyingCache { cache, listener })
    }
}

impl<
    K: Eq + Hash + Drop,
    V: Drop,
    L: Drop,
    S: BuildHasher + Drop,
    W: Weighing<K, V>,
    P: Rule<K, V>,
> NotifyingCache<K, V, L, S, W, P> {
    /// Makes a cache with a listener.
    pub(crate) fn new(cache: SegmentedCache<K, V, S, W, P>, listener: L) -> Self
        ensures { result ≡ record { cache = cache; listener = listener } }
    {
        NotifyingCache { cache, listener }
    }

    /// Returns the limits of the cache.
    pub fn policy(&self) -> Policy
        ensures { result ≡ self.now.cache.plan.policy }
    {
        self.cache.policy()
    }

    /// Returns the number of segments.
    pub fn num_segments(&self) -> usize
        ensures { result ≡ self.now.cache.plan.count }
    {
        self.cache.num_segments()
    }
}

impl<
    K: Eq + Hash + Drop,
    V: Drop,
    L: Clone + Drop,
    S: BuildHasher + Drop,
    W: Weighing<K, V>,
    P: Rule<K, V>,
> NotifyingCache<K, V, L, S, W, P> {
    /// Returns a new session, which has seen nothing and made no call, with a clone of the listener.
    pub fn session(&self) -> Result<NotifyingSession<K, V, L, S, W, P>, OutOfMemory>
        ensures session { IfOk result (λ made. (seat : ℕ) × (made.cache ≡ self.now.cache) × (made.knows ≡ newcomer self.now.cache.plan (guest seat))) }
        ensures listener { IfOk result (λ made. L.is_clone self.now.listener made.listener) }
    {
        let session = self.cache.session()?;
        let Ok(listener) = self.listener.clone() else {
            return Err(OutOfMemory);
        };
        Ok(session.with_listener(listener))
    }
}
