//! The cache that threads share.
ghost use Rattle.std.specs.Prelude.{◌≡◌, ℕ, Ok, IfOk, None};
ghost use Rattle.std.specs.Duration.{as_nanos};
ghost use Rattle.moka_segments.specs.Builder.{new_builder};
ghost use Rattle.moka_common.specs.Keys.{keys_by};
ghost use Rattle.moka_unsync_model.specs.Step.{Done, EntryCount, Invalidate, InvalidateAll, WeightedSize};
ghost use Rattle.moka_segments.specs.Calls.{Makes, MakesAll, Sums};
ghost use Rattle.moka_segments.specs.Plan.{place_of};
ghost use Rattle.moka_segments.specs.Session.{ByGuest};
ghost use Rattle.moka_segments.specs.Tells.{Gets, GetsOrInserts, Inserts, Looks, Peeks, Removes, TimedInserts, TriesToInsert};
ghost use Rattle.moka_segments.specs.TellsAll.{InvalidatesAllIf, SweepsAll, TellsSnapshot};
ghost use Rattle.moka_row.specs.Visits.{guest, newcomer};

mod modify;
mod probes;

use crate::builder::CacheBuilder;
use crate::invalidate_if::invalidate_entries_if;
use crate::iter::snapshot;
use crate::rule::{Rule, Unruled};
use crate::session::Session;
use crate::shared::Shared;
use crate::sweep::remove_expired;
use crate::weigher::Weighing;
use crate::{all, call, make};
use moka_common::error::{InsertError, OutOfMemory};
use moka_common::hash::FixedState;
use moka_common::policy::Policy;
use moka_common::time::Instant;
use moka_common::weigh::UnitWeight;
use moka_row::row::come;
use moka_unsync::error::{TimedInsertError, TryInsertError};
use moka_unsync_model::listener::NoListener;
use std::alloc::{AllocError, Global};
use std::hash::{BuildHasher, Hash};
use std::marker::Model;
use std::sync::{Arc, Wait};
use std::time::Duration;

/// A cache that threads share, cut into segments by the hash of the key. Each segment is a whole cache for one thread (`unsync::Cache`) behind a lock of its
/// own. A clone is the same cache.
///
/// A call takes the lock of its key's segment and no other, so calls of different segments don't wait for each other. There is no log and no maintenance: each
/// call does all its work at once, and the counts are exact. A segment has its part of the limit, so a new entry that is heavier than that is rejected.
///
/// The calls here are those of a caller who knows nothing of earlier ones. A thread that wants to be sure to find what it wrote calls by a `Session`.
#[derive(Drop)]
pub struct SegmentedCache<
    K: Eq + Hash + Drop,
    V: Drop,
    S: BuildHasher + Drop = FixedState,
    W: Weighing<K, V> = UnitWeight,
    P: Rule<K, V> = Unruled,
> {
    pub(crate) shared: Arc<Shared<K, V, S, W, P>>,
}

impl<K: Eq + Hash + Drop, V: Drop, S: BuildHasher + Drop, W: Weighing<K, V>, P: Rule<K, V>> Model
    for SegmentedCache<K, V, S, W, P> {
    ghost use Rattle.std.specs.Arc.{arc_value};
    ghost use Rattle.moka_segments.specs.Session.{Cache as CacheValue};

    ghost Value = { CacheValue S };

    ghost view = { λ c. record { plan = (arc_value c.shared).table.shared.key; id = (arc_value c.shared).table.shared.table_id } };
}

impl<K: Eq + Hash + Drop, V: Drop> SegmentedCache<K, V, FixedState, UnitWeight, Unruled> {
    /// Returns a builder of caches.
    pub fn builder(alloc: Global) -> CacheBuilder<K, V, UnitWeight, Unruled>
        ensures { result ≡ new_builder None result.weigher }
    {
        CacheBuilder::default(alloc)
    }
}

impl<K: Eq + Hash + Drop, V: Drop, S: BuildHasher + Drop, W: Weighing<K, V>, P: Rule<K, V>> Clone
    for SegmentedCache<K, V, S, W, P> {
    ghost is_clone = { λ cache copy. copy ≡ cache };

    /// Returns the same cache once more. It takes no memory, and is refused only if there are too many clones to count.
    fn clone(&self) -> Result<Self, AllocError> {
        match Arc::try_clone(&self.shared) {
            Ok(shared) => Ok(SegmentedCache { shared }),
            Err(_) => Err(AllocError),
        }
    }
}

impl<
    K: Eq + Hash + Drop,
    V: Drop,
    S: BuildHasher + Drop,
    W: Weighing<K, V>,
    P: Rule<K, V>,
> SegmentedCache<K, V, S, W, P> {
    /// Returns a new session, which has seen nothing and made no call.
    pub fn session(&self) -> Result<Session<K, V, S, W, P>, OutOfMemory>
        ensures { IfOk result (λ session. (seat : ℕ) × (session.cache ≡ self.now) × (session.knows ≡ newcomer self.now.plan (guest seat))) }
    {
        let shared = Arc::try_clone(&self.shared)?;
        let caller = come(&shared.table.shared);
        Ok(Session {
            shared,
            caller,
            listener: NoListener,
        })
    }

    /// Returns the limits of the cache.
    pub fn policy(&self) -> Policy
        ensures { result ≡ self.now.plan.policy }
    {
        self.shared.plan.policy
    }

    /// Returns the number of segments.
    pub fn num_segments(&self) -> usize
        ensures { result ≡ self.now.plan.count }
    {
        self.shared.plan.count
    }
}

impl<
    K: Eq + Hash + Drop,
    V: Clone + Drop,
    S: BuildHasher + Drop,
    W: Weighing<K, V>,
    P: Rule<K, V>,
> SegmentedCache<K, V, S, W, P> {
    /// Returns a clone of the value of the key, if it has an unexpired entry, which becomes the most recently used one of its segment.
    pub fn get<R: Wait>(&self, rt: &R, key: &K, now: Instant) -> Result<Option<V>, OutOfMemory>
        ensures made { ByGuest {K = K} {V = V} {S = S} {W = W} self.now.plan (λ old new. Gets (keys_by K.Hash S.BuildHasher S.Hasher.Hasher)
            W.weighs P.rules self.now.plan V.is_clone old key.now now result new) }
    {
        let shared = &*self.shared;
        let mut caller = come(&shared.table.shared);
        call::get(rt, shared, &mut caller, key, now, &mut NoListener)
    }

    /// Returns a clone of the value of the key, if it has an unexpired entry. It doesn't count as a use of the key.
    pub fn peek<R: Wait>(&self, rt: &R, key: &K, now: Instant) -> Result<Option<V>, OutOfMemory>
        ensures made { ByGuest {K = K} {V = V} {S = S} {W = W} self.now.plan (λ old new. Peeks (keys_by K.Hash S.BuildHasher
            S.Hasher.Hasher) W.weighs P.rules self.now.plan V.is_clone old key.now now result new) }
    {
        let shared = &*self.shared;
        let mut caller = come(&shared.table.shared);
        call::peek(rt, shared, &mut caller, key, now)
    }

    /// Returns a clone of the value of the key. If the key has no unexpired entry, `make` is called, and its value is inserted, as by `insert`; a clone of it
    /// is returned even if the admission policy rejects the entry.
    ///
    /// All of it is one visit under the lock of the key's segment: however many threads ask for a key at once, one of them makes its value, as long as the
    /// entry stays. So `make` must not call this cache, which would wait for itself. If memory is refused, what was made is dropped.
    pub fn get_or_insert_with<F: FnOnce() -> V, R: Wait>(
        &self,
        rt: &R,
        key: K,
        now: Instant,
        make: F,
    ) -> Result<V, InsertError>
        requires make { F.pre make }
        requires holds { (value : V) → F.post make value → P.rules.holds key value }
        requires owns { (seat : ℕ) → P.rules.owns (guest seat) key }
        ensures made { ByGuest {K = K} {V = V} {S = S} {W = W} self.now.plan (λ old new. GetsOrInserts (keys_by K.Hash S.BuildHasher
            S.Hasher.Hasher) W.weighs P.rules self.now.plan V.is_clone (F.post make) old (place_of self.now.plan (keys_by K.Hash
            S.BuildHasher S.Hasher.Hasher) key) key now result new) }
    {
        let shared = &*self.shared;
        let mut caller = come(&shared.table.shared);
        make::get_or_insert_with(rt, shared, &mut caller, key, now, make, &mut NoListener)
    }

    /// Returns a clone of the value of the key, as `get_or_insert_with` does, where `make` may fail. Then its error is returned, and nothing is inserted: the
    /// call was a get.
    pub fn try_get_or_insert_with<E: Drop, F: FnOnce() -> Result<V, E>, R: Wait>(
        &self,
        rt: &R,
        key: K,
        now: Instant,
        make: F,
    ) -> Result<V, TryInsertError<E>>
        requires make { F.pre make }
        requires holds { (value : V) → F.post make (Ok value) → P.rules.holds key value }
        requires owns { (seat : ℕ) → P.rules.owns (guest seat) key }
        ensures made { ByGuest {K = K} {V = V} {S = S} {W = W} self.now.plan (λ old new. TriesToInsert
            (keys_by K.Hash S.BuildHasher S.Hasher.Hasher) W.weighs P.rules self.now.plan V.is_clone (F.post make) old
            (place_of self.now.plan (keys_by K.Hash S.BuildHasher S.Hasher.Hasher) key) key now result new) }
    {
        let shared = &*self.shared;
        let mut caller = come(&shared.table.shared);
        make::try_get_or_insert_with(rt, shared, &mut caller, key, now, make, &mut NoListener)
    }
}

impl<
    K: Eq + Hash + Clone + Drop,
    V: Clone + Drop,
    S: BuildHasher + Drop,
    W: Weighing<K, V>,
    P: Rule<K, V>,
> SegmentedCache<K, V, S, W, P> {
    /// Clones the live pairs, one segment after another: those of a segment as they are at one moment, in its order of use. Each key comes once.
    /// If memory is refused for the list or a clone, it returns `OutOfMemory`, and the cache is as it was.
    pub fn iter<R: Wait>(
        &self,
        rt: &R,
        alloc: Global,
        now: Instant,
    ) -> Result<Vec<(K, V)>, OutOfMemory>
        ensures made { IfOk result (λ pairs. ByGuest {K = K} {V = V} {S = S} {W = W} self.now.plan (λ old new. TellsSnapshot (keys_by
            K.Hash S.BuildHasher S.Hasher.Hasher) W.weighs P.rules self.now.plan K.is_clone V.is_clone old self.now.plan.count now pairs.items
            new)) }
    {
        let shared = &*self.shared;
        let mut caller = come(&shared.table.shared);
        snapshot(rt, alloc, shared, &mut caller, now)
    }
}

impl<
    K: Eq + Hash + Drop,
    V: Drop,
    S: BuildHasher + Drop,
    W: Weighing<K, V>,
    P: Rule<K, V>,
> SegmentedCache<K, V, S, W, P> {
    /// Returns `true` if the key has an unexpired entry. It doesn't count as a use of the key.
    pub fn contains_key<R: Wait>(&self, rt: &R, key: &K, now: Instant) -> bool
        ensures made { ByGuest {K = K} {V = V} {S = S} {W = W} self.now.plan (λ old new. Looks (keys_by K.Hash S.BuildHasher
            S.Hasher.Hasher) W.weighs P.rules self.now.plan old key.now now result new) }
    {
        let shared = &*self.shared;
        let mut caller = come(&shared.table.shared);
        call::contains_key(rt, shared, &mut caller, key, now, &mut NoListener)
    }

    /// Puts the value at the key. The admission policy of the segment may reject a new entry, which is `Ok` as well. If memory is refused, the entries are as
    /// they were.
    pub fn insert<R: Wait>(&self, rt: &R, key: K, value: V, now: Instant) -> Result<(), InsertError>
        requires holds { P.rules.holds key value }
        requires owns { (seat : ℕ) → P.rules.owns (guest seat) key }
        ensures made { ByGuest {K = K} {V = V} {S = S} {W = W} self.now.plan (λ old new. Inserts (keys_by K.Hash S.BuildHasher
            S.Hasher.Hasher) W.weighs P.rules self.now.plan old key value None now result new) }
    {
        let shared = &*self.shared;
        let mut caller = come(&shared.table.shared);
        call::insert(
            rt,
            shared,
            &mut caller,
            key,
            value,
            None,
            now,
            &mut NoListener,
        )
    }

    /// Puts the value at the key, as `insert` does, with a time to live of its own. The entry expires after that, or after the cache's time to live if that is
    /// shorter. The cache needs one: without it the call is refused, and the cache is as it was.
    pub fn insert_with_time_to_live<R: Wait>(
        &self,
        rt: &R,
        key: K,
        value: V,
        time_to_live: Duration,
        now: Instant,
    ) -> Result<(), TimedInsertError>
        requires holds { P.rules.holds key value }
        requires owns { (seat : ℕ) → P.rules.owns (guest seat) key }
        ensures made { ByGuest {K = K} {V = V} {S = S} {W = W} self.now.plan (λ old new. TimedInserts (keys_by K.Hash S.BuildHasher
            S.Hasher.Hasher) W.weighs P.rules self.now.plan old key value (as_nanos time_to_live) now result new) }
    {
        let shared = &*self.shared;
        let mut caller = come(&shared.table.shared);
        call::insert_with_time_to_live(
            rt,
            shared,
            &mut caller,
            key,
            value,
            time_to_live,
            now,
            &mut NoListener,
        )
    }

    /// Removes the entry of the key, if it has one.
    pub fn invalidate<R: Wait>(&self, rt: &R, key: &K, now: Instant)
        requires owns { (seat : ℕ) → P.rules.owns (guest seat) key.now }
        ensures made { ByGuest {K = K} {V = V} {S = S} {W = W} self.now.plan (λ old new. Makes (keys_by K.Hash S.BuildHasher
            S.Hasher.Hasher) W.weighs P.rules self.now.plan old (place_of self.now.plan (keys_by K.Hash S.BuildHasher S.Hasher.Hasher)
            key.now) (Invalidate key.now now) Done new) }
    {
        let shared = &*self.shared;
        let mut caller = come(&shared.table.shared);
        call::invalidate(rt, shared, &mut caller, key, now, &mut NoListener);
    }

    /// Removes the entry of the key, if it has one, and returns its value, unless it is expired. The value is moved out.
    pub fn remove<R: Wait>(&self, rt: &R, key: &K, now: Instant) -> Option<V>
        requires owns { (seat : ℕ) → P.rules.owns (guest seat) key.now }
        ensures made { ByGuest {K = K} {V = V} {S = S} {W = W} self.now.plan (λ old new. Removes (keys_by K.Hash S.BuildHasher
            S.Hasher.Hasher) W.weighs P.rules self.now.plan old key.now now result new) }
    {
        let shared = &*self.shared;
        let mut caller = come(&shared.table.shared);
        call::remove(rt, shared, &mut caller, key, now, &mut NoListener)
    }

    /// Removes all entries, one segment after another.
    pub fn invalidate_all<R: Wait>(&self, rt: &R)
        requires owns { (seat : ℕ) (key : K) → P.rules.owns (guest seat) key }
        ensures made { ByGuest {K = K} {V = V} {S = S} {W = W} self.now.plan (λ old new. MakesAll (keys_by K.Hash S.BuildHasher
            S.Hasher.Hasher) W.weighs P.rules self.now.plan old self.now.plan.count (λ _. InvalidateAll) (λ _. Done) new) }
    {
        let shared = &*self.shared;
        let mut caller = come(&shared.table.shared);
        all::invalidate_all(rt, shared, &mut caller, &mut NoListener);
    }

    /// Removes the entries for which the predicate returns `true`, one segment after another. It is called once for each entry, in order of use, and copied
    /// for each segment. It must not call this cache, which would wait for itself.
    pub fn invalidate_entries_if<F: FnMut(&K, &V) -> bool + Copy, R: Wait>(
        &self,
        rt: &R,
        predicate: F,
    )
        requires predicate { F.IsAlwaysCallable predicate }
        requires owns { (seat : ℕ) (key : K) → P.rules.owns (guest seat) key }
        ensures made { ByGuest {K = K} {V = V} {S = S} {W = W} self.now.plan (λ old new. InvalidatesAllIf (keys_by K.Hash S.BuildHasher
            S.Hasher.Hasher) W.weighs P.rules self.now.plan F.step predicate old self.now.plan.count new) }
    {
        let shared = &*self.shared;
        let mut caller = come(&shared.table.shared);
        invalidate_entries_if(rt, shared, &mut caller, predicate, &mut NoListener);
    }

    /// Removes all expired entries, also those behind unexpired ones, one segment after another: see `unsync::Cache::remove_expired`.
    pub fn remove_expired<R: Wait>(&self, rt: &R, now: Instant)
        requires owns { (seat : ℕ) (key : K) → P.rules.owns (guest seat) key }
        ensures made { ByGuest {K = K} {V = V} {S = S} {W = W} self.now.plan (λ old new. SweepsAll (keys_by K.Hash S.BuildHasher
            S.Hasher.Hasher) W.weighs P.rules self.now.plan now old self.now.plan.count new) }
    {
        let shared = &*self.shared;
        let mut caller = come(&shared.table.shared);
        remove_expired(rt, shared, &mut caller, now, &mut NoListener);
    }

    /// Returns the number of entries, counted one segment after another.
    pub fn entry_count<R: Wait>(&self, rt: &R) -> u64
        ensures made { ByGuest {K = K} {V = V} {S = S} {W = W} self.now.plan (λ old new. Sums (keys_by K.Hash S.BuildHasher S.Hasher.Hasher)
            W.weighs P.rules self.now.plan old self.now.plan.count EntryCount result new) }
    {
        let shared = &*self.shared;
        let mut caller = come(&shared.table.shared);
        all::entry_count(rt, shared, &mut caller)
    }

    /// Returns the weight of all entries, summed up one segment after another. Without a weigher each weighs 1.
    pub fn weighted_size<R: Wait>(&self, rt: &R) -> u64
        ensures made { ByGuest {K = K} {V = V} {S = S} {W = W} self.now.plan (λ old new. Sums (keys_by K.Hash S.BuildHasher S.Hasher.Hasher)
            W.weighs P.rules self.now.plan old self.now.plan.count WeightedSize result new) }
    {
        let shared = &*self.shared;
        let mut caller = come(&shared.table.shared);
        all::weighted_size(rt, shared, &mut caller)
    }
}
