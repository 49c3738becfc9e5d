//! The cache that threads share.
ghost use Rattle.std.specs.Prelude.{◌≡◌, ◌∷◌, [], ℕ, List, Option, None, Some, map, IfErr, IfOk, IfSome};
ghost use Rattle.std.specs.List.{IsDistinct};
ghost use Rattle.moka_common.specs.Keys.{keys_by};
ghost use Rattle.moka_shard.specs.Rule.{PairsMeet};
ghost use Rattle.moka_sync_model.specs.declared.constants.TheConstants.{CALLER, SHARDS};
ghost use Rattle.moka_sync_model.specs.WholeCall.{CallsContains, CallsInsert, CallsInvalidate, CallsInvalidateAll, CallsSync};
ghost use Rattle.moka_sync_model.specs.declared.event.Reply.TheVariants as reply;
ghost use Rattle.moka_sync.specs.Builder.{new_builder};
ghost use Rattle.moka_locks.specs.Cache.{CacheId, new_cache, plan_of};
ghost use Rattle.moka_locks.specs.Charged.{counts_of};
ghost use Rattle.moka_guards.specs.Log.{IsChain, IsSuffix};
ghost use Rattle.moka_sync_model.specs.Published.{opening};
ghost use Rattle.moka_locks.specs.Locked.{CallsByGuest, locked_allows, locked_caller, locked_decides};
ghost use Rattle.moka_history.specs.Steps.{Invalidates};
ghost use Rattle.moka_locks.specs.History.{Makes, place_of};
ghost use Rattle.moka_locks.specs.Snapshot.{AreCopies};
ghost use Rattle.moka_row.specs.Visits.{guest, newcomer};
ghost use Rattle.moka_locks.specs.Tells.{ByGuest, Gets, Inserts, Looks, Removes};
ghost use Rattle.moka_sync_model.specs.declared.ticket.Ticket.{Ticket};
ghost use Rattle.moka_sync_model.specs.Steps.{AnswersGet, AnswersRemove, insert_reply, pends_by};

use crate::builder::CacheBuilder;
use crate::iter::Iter;
use crate::session::Session;
use crate::stored::stored;
use moka_common::error::{BuildError, InsertError, OutOfMemory};
use moka_common::hash::FixedState;
use moka_common::policy::Policy;
use moka_common::shared::Shared;
use moka_common::time::Instant;
use moka_common::weigh::UnitWeight;
use moka_guards::counts::{CountPass, Publisher};
use moka_locks::inner::Inner;
use moka_locks::locked::Locked;
use moka_shard::rule::{AnyPair, PairRule};
use moka_sync_model::constants::SHARDS;
use moka_sync_model::published::Published;
use moka_sync_model::settings::CoreParts;
use moka_sync_model::steps;
use moka_sync_model::weigh::WeighShared;
use std::alloc::{AllocError, Allocator, Global};
use std::hash::{BuildHasher, Hash};
use std::marker::Model;
use std::sync::Wait;

/// A cache that threads share, bounded by a number of entries or by their weight, with time to live and time to idle. Its clones are the same cache.
///
/// ```
/// let now = Instant::from_secs(0);
/// let cache: Cache<u64, u64> = Cache::new(alloc, 100)?;
/// let again = cache.clone()?;
/// cache.insert(rt, 1, 10, now)?;
/// again.insert(rt, 2, 20, now)?;
/// cache.sync(rt, now);
/// let counts = (cache.entry_count(), again.entry_count());
/// ```
///
/// # Locks
///
/// The map has 16 shards, each behind a lock of its own. A call takes the lock of its key's shard, releases it, and then puts what it has done into a log
/// behind another lock: a read into one, which drops it if it is full, and a write into the other, if need be after a wait for space. No call takes two locks
/// at a time but a maintenance, which has its own and one other. A value is cloned when no lock is held, except by `remove`, which clones it under the
/// shard's; the weigher is called under it too.
/// `policy`, `entry_count`, `weighted_size`, `invalidate_all` and `clone` take no lock. No clause says that a call which waits returns.
///
/// # Maintenance
///
/// A caller drains the logs within its call: when one has 64 operations, when 500 ms have passed since the last maintenance, by the moments that are handed
/// in, or on `sync`. This maintenance charges entries, and admits or rejects them by the size-aware TinyLFU of Caffeine (Einziger, Friedman and Manes). It
/// evicts entries that are expired, over the limit, or have no memory for a node. Until then the map may exceed its limit, by as many entries as the logs
/// hold and threads are about to push, and the counts are those of the last maintenance. No read returns an expired entry, evicted or not.
///
/// # Pairs
///
/// A rule of keys and values (`PairRule`) can be a cache's type: then each insert has to meet it, and each pair that comes out does, by contract.
///
/// # Size, expiry, hashing
///
/// These are as for `unsync::Cache`, but without a window or protected entries, and limits hold after a maintenance. A call hashes its key once, before it
/// takes a lock.
///
/// # Cost
///
/// A call takes constant time on average, beside waiting; the caller that runs a maintenance takes constant time for each operation that it applies and
/// each entry that it looks at. Building and inserting allocate, and `iter` for its snapshot; a look-up allocates nothing of its own.
///
/// # What differs from mini-moka
///
/// Moments are handed in, and calls that wait take the runtime. Want of memory is a named refusal. Entries have tickets, so that a late operation acts on
/// the entry that it meant. `iter` takes a snapshot and holds no lock when it comes out. There is no `Debug` of the cache itself, which would wait.
pub struct Cache<
    K: Eq + Hash + Drop,
    V: Drop,
    S: BuildHasher + Drop = FixedState,
    P: PairRule<K, V> = AnyPair,
    W: Drop = UnitWeight,
    A: Allocator + Clone + Drop = Global,
> {
    inner: Shared<Inner<K, V, S, P, W, A>, A>,
}

// By hand, and not derived: wherever a cache may end, there is one call to prove then, in place of one for each of its parts.
impl<
    K: Eq + Hash + Drop,
    V: Drop,
    S: BuildHasher + Drop,
    P: PairRule<K, V>,
    W: Drop,
    A: Allocator + Clone + Drop,
> Drop for Cache<K, V, S, P, W, A> {
    fn drop(self) {
        let Cache { inner: _ } = self;
    }
}

impl<
    K: Eq + Hash + Drop,
    V: Drop,
    S: BuildHasher + Drop,
    P: PairRule<K, V>,
    W: Drop,
    A: Allocator + Clone + Drop,
> Model for Cache<K, V, S, P, W, A> {
    ghost use Rattle.moka_locks.specs.Cache.{Cache as CacheValue};

    ghost Value = { CacheValue S W };

    ghost view = { λ c. c.inner };
}

impl<
    K: Eq + Hash + Drop,
    V: Drop,
    S: BuildHasher + Drop,
    P: PairRule<K, V>,
    W: Drop,
    A: Allocator + Clone + Drop,
> Clone for Cache<K, V, S, P, W, A> {
    ghost is_clone = { λ cache copy. copy ≡ cache };

    /// Returns the same cache. It takes no memory, and is refused only if there are too many clones to count.
    fn clone(&self) -> Result<Self, AllocError> {
        Ok(Cache {
            inner: self.inner.try_clone()?,
        })
    }
}

impl<K: Eq + Hash + Drop, V: Drop, A: Allocator + Clone + Drop> Cache<
    K,
    V,
    FixedState,
    AnyPair,
    UnitWeight,
    A,
> {
    /// Makes a cache with a limit on its number of entries.
    pub fn new(alloc: A, max_capacity: u64) -> Result<Self, BuildError>
        ensures ok { IfOk result (λ cache. cache.settings.policy ≡ (new_builder (Some max_capacity) cache.weigher).policy) }
        ensures err { IfErr result (λ error. error ≡ BuildError.OutOfMemory) }
    {
        CacheBuilder::new(alloc, max_capacity).build()
    }

    /// Makes a builder of caches without limits.
    pub fn builder(alloc: A) -> CacheBuilder<K, V, UnitWeight, A>
        ensures { result ≡ new_builder None result.weigher }
    {
        CacheBuilder::default(alloc)
    }
}

impl<
    K: Eq + Hash + Drop,
    V: Drop,
    S: BuildHasher + Drop,
    P: PairRule<K, V>,
    W: Drop,
    A: Allocator + Clone + Drop,
> Cache<K, V, S, P, W, A> {
    /// Makes a cache of these parts, on which nothing has been done, with its publisher, if there is one.
    pub(crate) fn from_parts(
        alloc: A,
        parts: CoreParts<S, W>,
        publisher: Option<Publisher<A>>,
    ) -> Result<Self, OutOfMemory>
        requires { IfSome publisher (λ p. p.published ≡ opening ∷ []) }
        ensures { IfOk result (λ cache. (id : CacheId) × (cache ≡ new_cache
            (record { hash_state = parts.hash_state; policy = parts.policy; is_weighed = parts.is_weighed }) parts.weigher (counts_of publisher) id)) }
    {
        let inner = Inner::new(alloc.clone()?, parts, publisher)?;
        Ok(Cache {
            inner: Shared::new(alloc, inner)?,
        })
    }

    /// Returns a new session, which has seen nothing and made no call. It takes no memory, and is refused only if there are too many clones to count.
    pub fn session(&self) -> Result<Session<K, V, S, P, W, A>, OutOfMemory>
        ensures { IfOk result (λ session. (seat : ℕ) × (session.cache ≡ self.now) × (session.knows ≡ newcomer (plan_of self.now) (guest seat))) }
    {
        let inner = self.inner.try_clone()?;
        let caller = inner.get().come();
        Ok(Session { inner, caller })
    }

    /// Returns the limits that the cache was built with.
    pub fn policy(&self) -> Policy
        ensures { result ≡ self.now.settings.policy }
    {
        self.inner.get().settings().limits().policy()
    }

    /// Returns the number of charged entries when a maintenance last ended, or 0 before the first one. It is one load: no contract says of which maintenance.
    pub fn entry_count(&self) -> u64 {
        self.inner.get().entry_count()
    }

    /// Returns the weight of the entries when a maintenance last ended, at most `u64::MAX`. It is another load, so it may be of another maintenance than the
    /// count.
    pub fn weighted_size(&self) -> u64 {
        self.inner.get().weighted_size()
    }

    /// Returns the count and the weight that were published last, with the number of the publication, from 1 on; before the first, three zeros.
    ///
    /// The pass must be of this cache. It has seen them then, and none is older than what it had seen. No lock is taken, unless a publication comes between.
    pub fn published<R: Wait>(&self, rt: &R, pass: &mut CountPass) -> Published
        requires { self.now.counted ≡ Some pass.old.counts }
        ensures counts { pass.new.counts ≡ pass.old.counts }
        ensures newest { (older : List _) × (pass.new.seen ≡ result ∷ older) }
        ensures seen { IsSuffix pass.old.seen pass.new.seen }

        // They are numbered from the opening three zeros on, so a greater number says how many maintenances lay between at least.
        ensures chain { IsChain pass.new.seen }
    {
        self.inner.get().published(rt, pass)
    }

    /// Returns one more pass, which has seen what this one has. It allocates nothing.
    pub fn split_pass(&self, pass: &mut CountPass) -> CountPass
        requires { self.now.counted ≡ Some pass.old.counts }
        ensures { (pass.new ≡ pass.old) × (result ≡ pass.old) }
    {
        self.inner.get().split(pass)
    }

    /// Returns a snapshot of the unexpired pairs, shard by shard. The pairs of a shard are those of one moment, and the snapshot holds no lock. It doesn't
    /// count as a read. It fails if memory is refused.
    pub fn iter<R: Wait>(&self, rt: &R, now: Instant) -> Result<Iter<K, V, A>, OutOfMemory>
        ensures ruled { IfOk result (λ pairs. PairsMeet P.holds pairs) }
        ensures once { IfOk result (λ pairs. IsDistinct K.eq (map (λ p. p.0) pairs)) }
        ensures made { IfOk result (λ pairs. AreCopies (keys_by K.Hash S.BuildHasher S.Hasher.Hasher) (plan_of self.now) now SHARDS pairs) }
    {
        let inner = self.inner.get();
        let mut pairs = Vec::new(inner.alloc().clone()?);
        for number in 0..SHARDS {
            inner.copy(rt, number, now, &mut pairs)?;
        }
        Ok(Iter::new(pairs))
    }
}

impl<
    K: Eq + Hash + Drop,
    V: Drop,
    S: BuildHasher + Drop,
    P: PairRule<K, V>,
    W: WeighShared<K, V>,
    A: Allocator + Clone + Drop,
> Cache<K, V, S, P, W, A> {
    /// Returns `true` if a key has an unexpired value. It doesn't count as a read.
    pub fn contains_key<R: Wait>(&self, rt: &R, key: &K, now: Instant) -> bool
        ensures call { CallsByGuest self.now (CallsContains (locked_allows (keys_by K.Hash S.BuildHasher S.Hasher.Hasher) P.holds W.weighs)
            locked_decides (pends_by locked_caller) CALLER key.now now (reply.Bool result)) }
        ensures made { ByGuest {K = K} {V = V} {S = S} (plan_of self.now) (λ old new. (valid_after : ℕ) × Looks (keys_by K.Hash S.BuildHasher S.Hasher.Hasher)
            self.now.settings old key.now now valid_after result new) }
    {
        steps::contains_key(rt, &mut Locked::new(self.inner.get()), key, now)
    }

    /// Puts a value at a key, in place of the one that is there. The pair has to meet the rule. It fails if memory is refused, or if the key's
    /// shard has no ticket left, and then the cache is as it was.
    pub fn insert<R: Wait>(&self, rt: &R, key: K, value: V, now: Instant) -> Result<(), InsertError>
        requires ruled { P.holds key value }
        requires ready { W.ready self.now.weigher }
        ensures call { CallsByGuest self.now (CallsInsert (locked_allows (keys_by K.Hash S.BuildHasher S.Hasher.Hasher) P.holds W.weighs)
            locked_decides (pends_by locked_caller) CALLER key value now (insert_reply result)) }
        ensures made { ByGuest {K = K} {V = V} {S = S} (plan_of self.now) (λ old new. Inserts (keys_by K.Hash S.BuildHasher S.Hasher.Hasher)
            self.now.settings (W.weighs self.now.weigher) old key value now result new) }
    {
        let Some((key, value)) = stored(self.inner.get().alloc(), key, value) else {
            return Err(InsertError::OutOfMemory);
        };
        steps::insert(rt, &mut Locked::new(self.inner.get()), key, value, now)
    }

    /// Removes the entry of a key, if there is one.
    pub fn invalidate<R: Wait>(&self, rt: &R, key: &K, now: Instant)
        ensures call { CallsByGuest self.now (CallsInvalidate (locked_allows (keys_by K.Hash S.BuildHasher S.Hasher.Hasher) P.holds W.weighs)
            locked_decides (pends_by locked_caller) CALLER key.now now reply.Done) }
        ensures made { ByGuest {K = K} {V = V} {S = S} (plan_of self.now) (λ old new. (left : Option Ticket)
            × Makes (keys_by K.Hash S.BuildHasher S.Hasher.Hasher) self.now.settings old
            (place_of (keys_by K.Hash S.BuildHasher S.Hasher.Hasher) self.now.settings key.now) (Invalidates key.now left) new) }
    {
        steps::invalidate(rt, &mut Locked::new(self.inner.get()), key, now);
    }

    /// Hides each entry whose last write or last read was before this moment; one of the two is enough. Those of the moment itself stay. It takes no lock.
    pub fn invalidate_all(&self, now: Instant)
        ensures call { CallsByGuest self.now (CallsInvalidateAll (locked_allows (keys_by K.Hash S.BuildHasher S.Hasher.Hasher) P.holds W.weighs)
            locked_decides (pends_by locked_caller) CALLER now reply.Done) }
    {
        steps::invalidate_all(&mut Locked::new(self.inner.get()), now);
    }
}

impl<
    K: Eq + Hash + Drop,
    V: Clone,
    S: BuildHasher + Drop,
    P: PairRule<K, V>,
    W: WeighShared<K, V>,
    A: Allocator + Clone + Drop,
> Cache<K, V, S, P, W, A> {
    /// Returns a clone of a key's unexpired value, made while no lock is held.
    pub fn get<R: Wait>(&self, rt: &R, key: &K, now: Instant) -> Result<Option<V>, OutOfMemory>
        ensures call { CallsByGuest self.now (AnswersGet (locked_allows (keys_by K.Hash S.BuildHasher S.Hasher.Hasher) P.holds W.weighs)
            locked_decides locked_caller V.is_clone V.is_infallible key.now now result) }
        ensures made { ByGuest {K = K} {V = V} {S = S} (plan_of self.now) (λ old new. (valid_after : ℕ) × Gets (keys_by K.Hash S.BuildHasher S.Hasher.Hasher)
            self.now.settings V.is_clone old key.now now valid_after result new) }

        // It is a clone of a value that meets the rule with the key.
        ensures ruled { IfOk result (λ found. IfSome found (λ copy. (value : V) × P.holds key.now value × V.is_clone value copy)) }
    {
        steps::get(rt, &mut Locked::new(self.inner.get()), key, now)
    }

    /// Does what `get` does.
    pub fn get_if_present<R: Wait>(
        &self,
        rt: &R,
        key: &K,
        now: Instant,
    ) -> Result<Option<V>, OutOfMemory>
        ensures call { CallsByGuest self.now (AnswersGet (locked_allows (keys_by K.Hash S.BuildHasher S.Hasher.Hasher) P.holds W.weighs)
            locked_decides locked_caller V.is_clone V.is_infallible key.now now result) }
        ensures made { ByGuest {K = K} {V = V} {S = S} (plan_of self.now) (λ old new. (valid_after : ℕ) × Gets (keys_by K.Hash S.BuildHasher S.Hasher.Hasher)
            self.now.settings V.is_clone old key.now now valid_after result new) }
        ensures ruled { IfOk result (λ found. IfSome found (λ copy. (value : V) × P.holds key.now value × V.is_clone value copy)) }
    {
        self.get(rt, key, now)
    }

    /// Removes the entry of a key, if there is one, and returns a clone of its value if that is unexpired. The clone is made while the lock of the key's
    /// shard is held, before the entry leaves: if it is refused, the cache is as it was. It doesn't count as a read.
    pub fn remove<R: Wait>(&self, rt: &R, key: &K, now: Instant) -> Result<Option<V>, OutOfMemory>
        ensures call { CallsByGuest self.now (AnswersRemove (locked_allows (keys_by K.Hash S.BuildHasher S.Hasher.Hasher) P.holds W.weighs)
            locked_decides locked_caller V.is_clone V.is_infallible key.now now result) }
        ensures made { ByGuest {K = K} {V = V} {S = S} (plan_of self.now) (λ old new. (valid_after : ℕ) × Removes (keys_by K.Hash S.BuildHasher S.Hasher.Hasher)
            self.now.settings V.is_clone old key.now now valid_after result new) }

        // It is a clone of a value that meets the rule with the key.
        ensures ruled { IfOk result (λ found. IfSome found (λ copy. (value : V) × P.holds key.now value × V.is_clone value copy)) }
    {
        steps::remove(rt, &mut Locked::new(self.inner.get()), key, now)
    }
}

/// A maintenance at a caller's request.
pub trait ConcurrentCacheExt {
    // What a whole maintenance is, at a moment.
    ghost synced: { Self → ℕ → Type 0 };

    /// Runs a whole maintenance, after any other has ended. It applies the logs, removes expired entries and those above the limit, in 500 turns each at
    /// most, and publishes the counts.
    fn sync<R: Wait>(&self, rt: &R, now: Instant)
        ensures { synced self.now now };
}

impl<
    K: Eq + Hash + Drop,
    V: Drop,
    S: BuildHasher + Drop,
    P: PairRule<K, V>,
    W: WeighShared<K, V>,
    A: Allocator + Clone + Drop,
> ConcurrentCacheExt for Cache<K, V, S, P, W, A> {
    ghost synced = { λ cache now. CallsByGuest cache (CallsSync {K = K} {V = V}
        (locked_allows (keys_by (record { eq = K.eq; hash_input = K.hash_input }) S.BuildHasher S.Hasher.Hasher) P.holds W.weighs)
        locked_decides (pends_by locked_caller) CALLER now reply.Done) };

    fn sync<R: Wait>(&self, rt: &R, now: Instant) {
        steps::sync(rt, &mut Locked::new(self.inner.get()), now);
    }
}
