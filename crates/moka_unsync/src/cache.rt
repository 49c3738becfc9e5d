//! The cache for one thread.
ghost use Rattle.std.specs.Prelude.{◌≡◌, ◌<◌, ◌≤◌, ◌^◌, [], false, length, None, Some};
ghost use Rattle.std.specs.Prelude.{IfErr, IfOk, option_copied, option_map};
ghost use Rattle.std.specs.Map.Iter.{deref_pair};
ghost use Rattle.moka_common.specs.Keys.{hash_by, keys_by};
ghost use Rattle.moka_common.specs.Sketch.{estimate};
ghost use Rattle.moka_unsync.specs.Builder.{new_builder, reserved};
ghost use Rattle.moka_unsync_model.specs.CacheState.{new_cache, window_limit};
ghost use Rattle.moka_unsync_model.specs.Contents.{entry_where, weighted_size};
ghost use Rattle.moka_unsync_model.specs.Lookup.{found_by_peek, peeked_where};
ghost use Rattle.moka_unsync_model.specs.Insert.{Refused, after_asking};
ghost use Rattle.moka_unsync_model.specs.Iterate.{pair_behind, pairs_at};
ghost use Rattle.moka_unsync_model.specs.Shares.{default_shares};

mod calls;
mod debug;
mod follow;
mod get_or_insert;
mod insert;
mod iter;
mod modify;
mod parts;

use crate::builder::CacheBuilder;
use crate::cleanup::Bounds;
use crate::memory::{Memory, make_tables};
use crate::notifying_cache::NotifyingCache;
use crate::part_limits::{protected_room, windowed_limits};
use crate::walk::next_unexpired;
pub use iter::{Entries, Iter};
use moka_common::error::{BuildError, OutOfMemory};
use moka_common::frequency_sketch::FrequencySketch;
use moka_common::frequency_sketch::enabling::Load;
use moka_common::hash::FixedState;
use moka_common::lookup::Lookup;
use moka_common::policy::Policy;
use moka_common::time::Instant;
use moka_common::weigh::UnitWeight;
use moka_store::store::Store;
use moka_unsync_model::shares::{PartLimits, Shares};
pub(crate) use parts::Parts;
use parts::{empty_store, max_entries, new_memory, new_sketch, reserved};
use std::alloc::{Allocator, Global};
use std::hash::{BuildHasher, Hash};
use std::marker::Model;

/// A single-thread cache, bounded by a number of entries or by their weight, with expiry by time to live and by time to idle.
///
/// A `get`, `contains_key`, `insert`, `invalidate` or `remove` first removes expired entries, and the least recently used ones while the weight is
/// above the limit, each time a batch of `EVICTION_BATCH_SIZE` entries at most; by time to idle a batch of the window and of each segment of the main
/// part. No read returns an expired entry that is still stored.
///
/// ```
/// let now = Instant::from_secs(0);
/// let mut cache: Cache<u64, u32> = Cache::new(alloc, 10_000)?;
/// for key in 0..64 {
///     cache.insert(key, 1, now)?;
/// }
/// cache.invalidate(&7, now);
/// cache.invalidate_entries_if(|key: &u64, _value: &u32| *key >= 32);
/// let found = cache.get(&8, now).is_some();
/// let gone = cache.get(&7, now).is_none();
/// let left = cache.iter(now).count();
/// ```
///
/// # Size
///
/// A cache with a `max_capacity` is bounded. Without a weigher an entry weighs 1, so the capacity is the largest number of entries at the end of a call.
/// With one it is a weight: the weigher returns a `u32` for key and value at each insert. An update may leave more, which later calls remove.
/// When the cache is full, a new entry is admitted only if its estimated frequency exceeds the sum of its victims', which are the least recently
/// used entries: the size-aware TinyLFU of Caffeine, by Einziger, Friedman and Manes. Weights don't choose the victims.
///
/// The window has 1% of the capacity, rounded down, and the main part the rest. A new entry goes into the window first. When the window or the whole cache
/// is too heavy, the window's least recently used entries are the candidates that are admitted to the main part or leave. So a key that is asked for again
/// soon after it came is found, though it has no frequency yet. Below a capacity of 100 there is no window.
///
/// Which keys stay depends on how large the window is. `adaptive()` lets the cache choose: the window grows while keys come back that were rejected, and
/// shrinks while keys come back that the main part gave up for others. It is the first choice unless replies must be those of a fixed window. A hit costs what
/// it costs with `protected_share(80)`, and two tables take half a byte an entry. In a small cache with a weigher it may find fewer, 9 of 100 on one trace,
/// since the window's limit moves by whole entries. Two settings of the builder fix the shares instead, or set where an adaptive cache begins.
/// `bench/run hits` compares them on traces:
///
/// - `protected_share(80)` makes the main part a segmented LRU, as in Caffeine: an entry that is used there again is protected, and leaves after those that
///   aren't. It finds more keys if some stay popular, also between scans.
/// - `window_share(20)` makes the window larger. It finds more keys if most are asked for again soon after they came, and fewer if some stay popular.
///
/// # Expiry
///
/// With a time to live an entry expires that long after its last insert, with a time to idle that long after its last `get` or insert, from the very end of
/// that time on. `insert_with_time_to_live` gives an entry a shorter time than the cache's. No call reads a clock: the moment is handed in, and it may go
/// back. `contains_key`, `peek`, `next_after` and `iter` don't count as an access.
///
/// # Hashing
///
/// The default hash state is std's with a fixed key, so that runs can be repeated. If strangers choose the keys, hand in a `RandomState` by
/// `CacheBuilder::build_with_hasher`; or any other state, such as one made for a kind of keys. A call hashes its key once.
///
/// # Cost
///
/// A look-up takes constant time on average, by an index over the hashes of the keys, as long as these are spread; keys of one hash are compared
/// one after another. All else in a call takes constant time for each entry that it adds, removes or asks about, which with weights may be all of the
/// window. Only building and inserting allocate. An insert within the cache's capacity allocates at most the sketch's table, and can't be refused. Beyond it
/// the cache doubles its capacity, without a weigher up to one above the limit, and rebuilds the index. So a cache without a weigher whose `initial_capacity`
/// is at least its limit refuses no insert. A cache has at most 2,000,000,000 entries.
///
/// # What differs from mini-moka
///
/// Moments are handed in. Building and inserting return a `Result`: refused memory, a duration of more than 1000 years and a share above 100 are named
/// refusals in place of an abort or a panic. Counts and weights follow every removal. Keys are looked up by `&K` or by a probe. `iter` and the predicate of
/// `invalidate_entries_if` go in order of use, the window last, `iter` leaves expired entries out, and `Debug` shows every stored one. New entries enter a
/// window, whose share and that of a protected segment can be set. Calls are added, such as `remove`, `modify` and those with a time to live.
pub struct Cache<
    K: Eq + Hash + Drop,
    V: Drop,
    S: BuildHasher + Drop = FixedState,
    W: Drop = UnitWeight,
    A: Allocator + Clone + Drop = Global,
> {
    hash_state: S,
    bounds: Bounds,
    shares: Shares,
    // The limits of the parts, if there is a window.
    windowed: Option<PartLimits>,
    // The largest useful capacity of the store.
    max_entries: usize,
    is_weighed: bool,
    weigher: W,
    store: Store<K, V, A>,
    sketch: FrequencySketch<A>,
    // What left, if the window adapts.
    memory: Option<Memory<A>>,
}

// By hand, and not derived: wherever a cache may end, there is one call to prove then, in place of one for each of its parts.
impl<K: Eq + Hash + Drop, V: Drop, S: BuildHasher + Drop, W: Drop, A: Allocator + Clone + Drop> Drop
    for Cache<K, V, S, W, A> {
    fn drop(self) {
        let Cache {
            hash_state: _,
            bounds: _,
            shares: _,
            windowed: _,
            max_entries: _,
            is_weighed: _,
            weigher: _,
            store: _,
            sketch: _,
            memory: _,
        } = self;
    }
}

impl<
    K: Eq + Hash + Drop,
    V: Drop,
    S: BuildHasher + Drop,
    W: Drop,
    A: Allocator + Clone + Drop,
> Model for Cache<K, V, S, W, A> {
    ghost use Rattle.moka_common.specs.Keys.{hash_by, keys_by};
    ghost use Rattle.moka_unsync_model.specs.CacheState.{CacheState};
    ghost use Rattle.moka_unsync.specs.Cached.{IsCached};
    ghost use Rattle.moka_store.specs.Store.{contents_of};

    ghost Value = { CacheState K V S W };

    ghost view = { λ c. record {
      settings = record { hash_state = c.hash_state; policy = c.bounds; is_weighed = c.is_weighed };
      shares = c.shares;
      weigher = c.weigher;
      contents = contents_of c.store;
      sketch = c.sketch;
      memory = c.memory;
      capacity = c.store.capacity;
    } };

    ghost invariant = { λ c. IsCached
        (keys_by (record { eq = K.eq; hash_input = K.hash_input }) S.BuildHasher S.Hasher.Hasher)
        c.hash_state c.bounds c.shares c.windowed c.store };
}

impl<K: Eq + Hash + Drop, V: Drop, A: Allocator + Clone + Drop> Cache<
    K,
    V,
    FixedState,
    UnitWeight,
    A,
> {
    /// Makes a cache with a limit of `max_capacity` entries, and std's default hash state, whose key is fixed. It fails only if memory is refused.
    pub fn new(alloc: A, max_capacity: u64) -> Result<Self, BuildError>
        ensures ok { IfOk result (λ cache. cache ≡ new_cache (record {
          hash_state = cache.settings.hash_state;
          policy = record { max_capacity = Some max_capacity; time_to_live = None; time_to_idle = None };
          is_weighed = false;
        }) default_shares cache.weigher cache.capacity) }
        ensures err { IfErr result (λ error. error ≡ BuildError.OutOfMemory) }
    {
        CacheBuilder::new(alloc, max_capacity).build()
    }

    /// Makes a builder of caches.
    pub fn builder(alloc: A) -> CacheBuilder<K, V, UnitWeight, A>
        ensures { result ≡ new_builder None result.weigher }
    {
        CacheBuilder::default(alloc)
    }
}

impl<
    K: Eq + Hash + Drop,
    V: Drop,
    S: BuildHasher + Drop,
    W: Drop,
    A: Allocator + Clone + Drop,
> Cache<K, V, S, W, A> {
    ghost use Rattle.moka_unsync.specs.CacheLends.{ends_as};

    /// Makes a cache of these parts, with no entries.
    pub(crate) fn from_parts(alloc: A, parts: Parts<S, W>) -> Result<Self, OutOfMemory>
        requires window { parts.shares.window ≤ 100 }
        requires protected { parts.shares.protected ≤ 100 }
        requires extra { parts.shares.extra ≡ 0 }
        ensures new { IfOk result (λ cache. cache ≡ new_cache
            (record { hash_state = parts.hash_state; policy = parts.policy; is_weighed = parts.is_weighed })
            parts.shares parts.weigher cache.capacity) }
        ensures room { IfOk result (λ cache. reserved parts.initial_capacity ≤ cache.capacity) }
    {
        let protected_limit = protected_room(parts.shares, parts.policy.max_capacity());
        let store = empty_store(
            &alloc,
            parts.policy,
            protected_limit,
            reserved(parts.initial_capacity)?,
        )?;
        let memory = new_memory(&alloc, parts.shares)?;
        let sketch = new_sketch(
            alloc,
            parts.policy,
            parts.is_weighed,
            parts.initial_capacity,
        )?;
        Ok(Cache {
            hash_state: parts.hash_state,
            bounds: Bounds::new(parts.policy),
            shares: parts.shares,
            windowed: windowed_limits(parts.shares, parts.policy.max_capacity()),
            max_entries: max_entries(parts.policy, parts.is_weighed),
            is_weighed: parts.is_weighed,
            weigher: parts.weigher,
            store,
            sketch,
            memory,
        })
    }

    /// Returns the hash of a key, or of a probe that stands for it, for the calls that take one.
    pub fn hash_of<Q: Lookup<K>>(&self, probe: Q) -> u64
        ensures { result ≡ hash_by S.BuildHasher S.Hasher.Hasher self.now.settings.hash_state (Q.hash_input probe) }
    {
        self.hash_state.hash_one(probe)
    }

    /// Turns it into a cache that gives a listener each entry that leaves.
    pub fn with_listener<L: Drop>(self, listener: L) -> NotifyingCache<K, V, L, S, W, A>
        ensures { result ≡ record { cache = self; listener = listener } }
    {
        NotifyingCache::new(self, listener)
    }

    /// Returns the limits of the cache.
    pub fn policy(&self) -> Policy
        ensures { result ≡ self.now.settings.policy }
    {
        self.bounds.policy()
    }

    /// Returns the shares of the window and of protected entries, in percent.
    pub fn shares(&self) -> Shares
        ensures { result ≡ self.now.shares }
    {
        self.shares
    }

    /// Returns the weight that the window may have now, which changes only if the cache adapts. It is 0 without a window.
    pub fn window_limit(&self) -> u64
        ensures { result ≡ window_limit self.now }
    {
        match self.windowed {
            Some(limits) => limits.window,
            None => 0,
        }
    }

    /// Returns the number of entries, including expired ones that no call has removed yet. It takes constant time.
    pub fn entry_count(&self) -> u64
        ensures { result ≡ length self.now.contents.entries }
    {
        self.store.len() as u64
    }

    /// Returns the weight of the entries, at most `u64::MAX`. Without a weigher each weighs 1. It takes constant time.
    pub fn weighted_size(&self) -> u64
        ensures { result ≡ weighted_size self.now.contents.entries }
    {
        self.store.weight()
    }

    /// Returns how often the key was asked for recently, as admission counts it: from 0 to 15, halved from time to time. The key may be absent. It is no
    /// access.
    pub fn popularity(&self, key: &K) -> u8
        ensures { result ≡ estimate self.now.sketch ((keys_by K.Hash S.BuildHasher S.Hasher.Hasher).hash_of self.now.settings.hash_state key.now) }
    {
        self.sketch.frequency(self.hash_of(key))
    }

    /// Returns the value of the key's unexpired entry, if there is one. It doesn't count as an access, and removes nothing, so it still finds an entry that a
    /// `get` would first remove for the limit. It takes constant time on average.
    pub fn peek(&self, key: &K, now: Instant) -> Option<&V>
        ensures { option_copied result
            ≡ found_by_peek (keys_by K.Hash S.BuildHasher S.Hasher.Hasher) self.now key.now now }
    {
        self.peek_by(key, now)
    }

    /// Returns the value of the key that the probe stands for, as `peek` does: a `&str` stands for a `String`.
    pub fn peek_by<Q: Lookup<K>>(&self, probe: Q, now: Instant) -> Option<&V>
        ensures { option_copied result ≡ peeked_where self.now (Q.stands_for probe) now }
    {
        let hash = self.hash_of(probe);
        self.peek_hashed(probe, hash, now)
    }

    /// Returns the value of the key, as `peek_by` does, by the probe's hash.
    pub fn peek_hashed<Q: Lookup<K>>(&self, probe: Q, hash: u64, now: Instant) -> Option<&V>
        requires { hash ≡ hash_by S.BuildHasher S.Hasher.Hasher self.now.settings.hash_state (Q.hash_input probe) }
        ensures { option_copied result ≡ peeked_where self.now (Q.stands_for probe) now }
    {
        let id = self.store.find(probe, hash)?;
        let entry = self.store.get(id);
        if self.bounds.is_expired(entry, now) {
            return None;
        }
        Some(&entry.value)
    }

    /// Returns the value of the entry whose key the probe stands for, expired or not. The hash is the probe's.
    pub(crate) fn stored<Q: Lookup<K>>(&self, probe: Q, hash: u64) -> Option<&V>
        requires { hash ≡ hash_by S.BuildHasher S.Hasher.Hasher self.now.settings.hash_state (Q.hash_input probe) }
        ensures { option_copied result ≡ option_map (λ e. e.value) (entry_where (Q.stands_for probe) self.now.contents.entries) }
    {
        let id = self.store.find(probe, hash)?;
        Some(&self.store.get(id).value)
    }

    /// Returns an iterator over the unexpired pairs, in order of use, LRU first and the window last. It doesn't count as an access, and removes nothing.
    pub fn iter(&self, now: Instant) -> Iter<'_, K, V, A>
        ensures value { result ≡ pairs_at self.now now }
        ensures fits { length result < 2 ^ 64 }
    {
        Iter::new(self.store.iter(), &self.bounds, now)
    }

    /// Returns the unexpired entry after that of a key, in the order of `iter`. It is `None` if there is none or the key has no entry. An interrupted walk can
    /// go on from its last key. It doesn't count as an access. It takes constant time on average per entry passed.
    pub fn next_after(&self, key: &K, now: Instant) -> Option<(&K, &V)>
        ensures { option_map deref_pair result
            ≡ pair_behind (keys_by K.Hash S.BuildHasher S.Hasher.Hasher) self.now key.now now }
    {
        let hash = self.hash_of(key);
        let entry = next_unexpired(&self.store, &self.bounds, key, hash, now)?;
        Some((&entry.key, &entry.value))
    }

    /// Asks for the sketch's table, if the cache is at least half full and has none, and for the memory's tables with it. If memory is refused, the next new
    /// entry asks again for the sketch's, and the memory has none.
    #[inline(always)]
    fn enable_sketch(&mut self)
        ensures { (refused : Refused) × (self.new ≡ after_asking K.eq refused self.old) }
    {
        if self.sketch.table_len() == 0 {
            self.ask_for_table();
        }
    }

    #[cold]
    #[inline(never)]
    fn ask_for_table(&mut self)
        requires { self.old.sketch ≡ None }
        ensures { (refused : Refused) × (self.new ≡ after_asking K.eq refused self.old) }
    {
        let load = Load {
            is_weighed: self.is_weighed,
            entries: self.store.len(),
            weight: u128::from(self.store.weight()),
        };
        self.sketch
            .enable_if_half_full(self.bounds.policy().max_capacity(), load);
        make_tables(&mut self.memory, self.sketch.table_len());
    }
}
