//! Sessions: who calls a cache of segments, and knows what it called.
ghost use Rattle.std.specs.Prelude.{◌≡◌, Ok, IfOk};
ghost use Rattle.moka_common.specs.Keys.{keys_by};
ghost use Rattle.moka_unsync_model.specs.Step.{Done, EntryCount, Invalidate, WeightedSize};
ghost use Rattle.moka_segments.specs.Calls.{Makes, Sums};
ghost use Rattle.moka_row.specs.Kept.{Hears};
ghost use Rattle.moka_segments.specs.Notifying.{TellsAt};
ghost use Rattle.moka_segments.specs.Plan.{place_of};
ghost use Rattle.moka_segments.specs.Tells.{Gets, GetsOrInserts, Looks, Peeks, Removes, TriesToInsert};
ghost use Rattle.moka_segments.specs.TellsAll.{TellsSnapshot};

mod insert;
mod listener;
mod modify;
mod probes;
mod sweeps;

use crate::account::Caller;
use crate::iter::snapshot;
use crate::note::Note;
use crate::rule::{Rule, Unruled};
use crate::shared::Shared;
use crate::weigher::Weighing;
use crate::{all, call, make};
use moka_common::error::{InsertError, OutOfMemory};
use moka_common::hash::FixedState;
use moka_common::policy::Policy;
use moka_common::time::Instant;
use moka_common::weigh::UnitWeight;
use moka_row::seats;
use moka_unsync::error::TryInsertError;
use moka_unsync_model::listener::{Listener, NoListener};
use std::alloc::Global;
use std::hash::{BuildHasher, Hash};
use std::marker::Model;
use std::sync::{Arc, Wait};

/// A caller's place in the histories of the segments. A thread has one of its own, by `SegmentedCache::session` or `Owners::session`.
///
/// A clause sees its cache and what it knows: its number, of each segment a history that it has seen, and its own visits there. Each call comes, in the
/// history, after all that the session had seen, so what is proved of the cache for one thread holds at that place. The calls of a session that learned a note
/// (`note` and `learn`) come after what that had seen, too.
///
/// Its listener gets each entry that leaves in a call of the session: within the call, once, with its cause.
///
/// ```
/// let mut session = cache.session()?.with_listener(Statistics::default());
/// session.insert(rt, 7, 1, now)?;
/// session.insert(rt, 7, 2, now)?;
/// let replaced = session.listener().replaced;
/// ```
///
/// The listener is called under the lock of the entry's segment, so it must not call the cache, which would wait for itself. It doesn't get a value that
/// `remove` returns, since the caller has it. Nor does it get the key and value of an insert that is refused memory. What leaves in the calls of another
/// session goes to that one's listener.
#[derive(Drop)]
pub struct Session<
    K: Eq + Hash + Drop,
    V: Drop,
    S: BuildHasher + Drop = FixedState,
    W: Weighing<K, V> = UnitWeight,
    P: Rule<K, V> = Unruled,
    L: Drop = NoListener,
> {
    pub(crate) shared: Arc<Shared<K, V, S, W, P>>,
    pub(crate) caller: Caller<K, V, S, W>,
    pub(crate) listener: L,
}

/// A session with a listener.
pub type NotifyingSession<K, V, L, S = FixedState, W = UnitWeight, P = Unruled> = Session<
    K,
    V,
    S,
    W,
    P,
    L,
>;

impl<
    K: Eq + Hash + Drop,
    V: Drop,
    S: BuildHasher + Drop,
    W: Weighing<K, V>,
    P: Rule<K, V>,
    L: Drop,
> Model for Session<K, V, S, W, P, L> {
    ghost use Rattle.std.specs.Prelude.{◌≡◌};
    ghost use Rattle.std.specs.Arc.{arc_value};
    ghost use Rattle.moka_row.specs.Visits.{IsIdle};
    ghost use Rattle.moka_segments.specs.Session.{Session as SessionValue};

    ghost Value = { SessionValue K V S W L };

    ghost view = { λ s. record {
      cache = record { plan = (arc_value s.shared).table.shared.key; id = (arc_value s.shared).table.shared.table_id };
      knows = s.caller.me.0;
      listener = s.listener;
    } };

    ghost invariant = { λ s. (s.caller.table_id ≡ (arc_value s.shared).table.shared.table_id) × IsIdle (arc_value s.shared).table.shared.key
        s.caller.me };
}

impl<
    K: Eq + Hash + Drop,
    V: Clone + Drop,
    S: BuildHasher + Drop,
    W: Weighing<K, V>,
    P: Rule<K, V>,
    L: Listener<K, V> + Drop,
> Session<K, V, S, W, P, L> {
    /// Returns a clone of the value of the key, if it has an unexpired entry, which becomes the most recently used one of its segment.
    pub fn get<R: Wait>(&mut self, rt: &R, key: &K, now: Instant) -> Result<Option<V>, OutOfMemory>
        ensures same { self.new.cache ≡ self.old.cache }
        ensures made { Gets (keys_by K.Hash S.BuildHasher S.Hasher.Hasher) W.weighs P.rules self.old.cache.plan V.is_clone self.old.knows
            key.now now result self.new.knows }
        ensures told { TellsAt L.hears (keys_by K.Hash S.BuildHasher S.Hasher.Hasher) self.old.cache.plan key.now self.new.knows
            self.old.listener self.new.listener }
    {
        call::get(
            rt,
            &*self.shared,
            &mut self.caller,
            key,
            now,
            &mut self.listener,
        )
    }

    /// Returns a clone of the value of the key. If the key has no unexpired entry, `make` is called, and its value is inserted, as by `insert`; a clone of it
    /// is returned even if the admission policy rejects the entry.
    ///
    /// All of it is one visit under the lock of the key's segment: however many threads ask for a key at once, one of them makes its value, as long as the
    /// entry stays. So `make` must not call this cache, which would wait for itself. If memory is refused, what was made is dropped.
    pub fn get_or_insert_with<F: FnOnce() -> V, R: Wait>(
        &mut self,
        rt: &R,
        key: K,
        now: Instant,
        make: F,
    ) -> Result<V, InsertError>
        requires make { F.pre make }
        requires holds { (value : V) → F.post make value → P.rules.holds key value }
        requires owns { P.rules.owns self.old.knows.by key }
        ensures same { self.new.cache ≡ self.old.cache }
        ensures made { GetsOrInserts (keys_by K.Hash S.BuildHasher S.Hasher.Hasher) W.weighs P.rules self.old.cache.plan V.is_clone (F.post
            make) self.old.knows (place_of self.old.cache.plan (keys_by K.Hash S.BuildHasher S.Hasher.Hasher) key) key now result
            self.new.knows }
        ensures told { TellsAt L.hears (keys_by K.Hash S.BuildHasher S.Hasher.Hasher) self.old.cache.plan key self.new.knows self.old.listener
            self.new.listener }
    {
        make::get_or_insert_with(
            rt,
            &*self.shared,
            &mut self.caller,
            key,
            now,
            make,
            &mut self.listener,
        )
    }

    /// Returns a clone of the value of the key, as `get_or_insert_with` does, where `make` may fail. Then its error is returned, and nothing is inserted: the
    /// call was a get.
    pub fn try_get_or_insert_with<E: Drop, F: FnOnce() -> Result<V, E>, R: Wait>(
        &mut self,
        rt: &R,
        key: K,
        now: Instant,
        make: F,
    ) -> Result<V, TryInsertError<E>>
        requires make { F.pre make }
        requires holds { (value : V) → F.post make (Ok value) → P.rules.holds key value }
        requires owns { P.rules.owns self.old.knows.by key }
        ensures same { self.new.cache ≡ self.old.cache }
        ensures made { TriesToInsert (keys_by K.Hash S.BuildHasher S.Hasher.Hasher) W.weighs P.rules self.old.cache.plan V.is_clone
            (F.post make) self.old.knows (place_of self.old.cache.plan (keys_by K.Hash S.BuildHasher S.Hasher.Hasher) key) key now result
            self.new.knows }
        ensures told { TellsAt L.hears (keys_by K.Hash S.BuildHasher S.Hasher.Hasher) self.old.cache.plan key self.new.knows self.old.listener
            self.new.listener }
    {
        make::try_get_or_insert_with(
            rt,
            &*self.shared,
            &mut self.caller,
            key,
            now,
            make,
            &mut self.listener,
        )
    }
}

impl<
    K: Eq + Hash + Drop,
    V: Clone + Drop,
    S: BuildHasher + Drop,
    W: Weighing<K, V>,
    P: Rule<K, V>,
    L: Drop,
> Session<K, V, S, W, P, L> {
    /// Returns a clone of the value of the key, if it has an unexpired entry. It doesn't count as a use of the key.
    pub fn peek<R: Wait>(&mut self, rt: &R, key: &K, now: Instant) -> Result<Option<V>, OutOfMemory>
        ensures same { self.new.cache ≡ self.old.cache }
        ensures made { Peeks (keys_by K.Hash S.BuildHasher S.Hasher.Hasher) W.weighs P.rules self.old.cache.plan V.is_clone self.old.knows
            key.now now result self.new.knows }
        ensures listener { self.new.listener ≡ self.old.listener }
    {
        call::peek(rt, &*self.shared, &mut self.caller, key, now)
    }
}

impl<
    K: Eq + Hash + Clone + Drop,
    V: Clone + Drop,
    S: BuildHasher + Drop,
    W: Weighing<K, V>,
    P: Rule<K, V>,
    L: Drop,
> Session<K, V, S, W, P, L> {
    /// Clones the live pairs, one segment after another: those of a segment as they are at one moment, in its order of use. Each key comes once.
    /// If memory is refused for the list or a clone, it returns `OutOfMemory`, and the cache is as it was.
    pub fn iter<R: Wait>(
        &mut self,
        rt: &R,
        alloc: Global,
        now: Instant,
    ) -> Result<Vec<(K, V)>, OutOfMemory>
        ensures same { self.new.cache ≡ self.old.cache }
        ensures made { IfOk result (λ pairs. TellsSnapshot (keys_by K.Hash S.BuildHasher S.Hasher.Hasher) W.weighs P.rules self.old.cache.plan
            K.is_clone V.is_clone self.old.knows self.old.cache.plan.count now pairs.items self.new.knows) }
        ensures listener { self.new.listener ≡ self.old.listener }
    {
        snapshot(rt, alloc, &*self.shared, &mut self.caller, now)
    }
}

impl<
    K: Eq + Hash + Drop,
    V: Drop,
    S: BuildHasher + Drop,
    W: Weighing<K, V>,
    P: Rule<K, V>,
    L: Listener<K, V> + Drop,
> Session<K, V, S, W, P, L> {
    /// Returns `true` if the key has an unexpired entry. It doesn't count as a use of the key.
    pub fn contains_key<R: Wait>(&mut self, rt: &R, key: &K, now: Instant) -> bool
        ensures same { self.new.cache ≡ self.old.cache }
        ensures made { Looks (keys_by K.Hash S.BuildHasher S.Hasher.Hasher) W.weighs P.rules self.old.cache.plan self.old.knows key.now now
            result self.new.knows }
        ensures told { TellsAt L.hears (keys_by K.Hash S.BuildHasher S.Hasher.Hasher) self.old.cache.plan key.now self.new.knows
            self.old.listener self.new.listener }
    {
        call::contains_key(
            rt,
            &*self.shared,
            &mut self.caller,
            key,
            now,
            &mut self.listener,
        )
    }

    /// Removes the entry of the key, if it has one.
    pub fn invalidate<R: Wait>(&mut self, rt: &R, key: &K, now: Instant)
        requires owns { P.rules.owns self.old.knows.by key.now }
        ensures same { self.new.cache ≡ self.old.cache }
        ensures made { Makes (keys_by K.Hash S.BuildHasher S.Hasher.Hasher) W.weighs P.rules self.old.cache.plan self.old.knows (place_of
            self.old.cache.plan (keys_by K.Hash S.BuildHasher S.Hasher.Hasher) key.now) (Invalidate key.now now) Done self.new.knows }
        ensures told { TellsAt L.hears (keys_by K.Hash S.BuildHasher S.Hasher.Hasher) self.old.cache.plan key.now self.new.knows
            self.old.listener self.new.listener }
    {
        call::invalidate(
            rt,
            &*self.shared,
            &mut self.caller,
            key,
            now,
            &mut self.listener,
        );
    }

    /// Removes the entry of the key, if it has one, and returns its value, unless it is expired. The value is moved out, so the listener doesn't get it.
    pub fn remove<R: Wait>(&mut self, rt: &R, key: &K, now: Instant) -> Option<V>
        requires owns { P.rules.owns self.old.knows.by key.now }
        ensures same { self.new.cache ≡ self.old.cache }
        ensures made { Removes (keys_by K.Hash S.BuildHasher S.Hasher.Hasher) W.weighs P.rules self.old.cache.plan self.old.knows key.now
            now result self.new.knows }
        ensures told { TellsAt L.hears (keys_by K.Hash S.BuildHasher S.Hasher.Hasher) self.old.cache.plan key.now self.new.knows
            self.old.listener self.new.listener }
    {
        call::remove(
            rt,
            &*self.shared,
            &mut self.caller,
            key,
            now,
            &mut self.listener,
        )
    }
}

impl<
    K: Eq + Hash + Drop,
    V: Drop,
    S: BuildHasher + Drop,
    W: Weighing<K, V>,
    P: Rule<K, V>,
    L: Drop,
> Session<K, V, S, W, P, L> {
    /// Returns the number of entries, counted one segment after another.
    pub fn entry_count<R: Wait>(&mut self, rt: &R) -> u64
        ensures same { self.new.cache ≡ self.old.cache }
        ensures made { Sums (keys_by K.Hash S.BuildHasher S.Hasher.Hasher) W.weighs P.rules self.old.cache.plan self.old.knows
            self.old.cache.plan.count EntryCount result self.new.knows }
        ensures listener { self.new.listener ≡ self.old.listener }
    {
        all::entry_count(rt, &*self.shared, &mut self.caller)
    }

    /// Returns the weight of all entries, summed up one segment after another. Without a weigher each weighs 1.
    pub fn weighted_size<R: Wait>(&mut self, rt: &R) -> u64
        ensures same { self.new.cache ≡ self.old.cache }
        ensures made { Sums (keys_by K.Hash S.BuildHasher S.Hasher.Hasher) W.weighs P.rules self.old.cache.plan self.old.knows
            self.old.cache.plan.count WeightedSize result self.new.knows }
        ensures listener { self.new.listener ≡ self.old.listener }
    {
        all::weighted_size(rt, &*self.shared, &mut self.caller)
    }

    /// Returns the limits of the cache.
    pub fn policy(&self) -> Policy
        ensures { result ≡ self.now.cache.plan.policy }
    {
        self.shared.plan.policy
    }

    /// Returns a note of what the session has seen so far, for another one to learn.
    pub fn note(&mut self) -> Note<K, V, S, W>
        ensures same { self.new ≡ self.old }
        ensures note { result ≡ record { id = self.old.cache.id; seen = self.old.knows.seen } }
    {
        let shared = &*self.shared;
        Note {
            teller: seats::note(&shared.table.shared, &mut self.caller),
        }
    }

    /// Takes in a note of another session of the same cache. What that session had seen then, this one has seen from now on, and its next calls come after
    /// it.
    pub fn learn(&mut self, note: Note<K, V, S, W>)
        requires { note.id ≡ self.old.cache.id }
        ensures same { self.new.cache ≡ self.old.cache }
        ensures told { Hears self.old.knows note.seen self.new.knows }
        ensures listener { self.new.listener ≡ self.old.listener }
    {
        let shared = &*self.shared;
        seats::learn(&shared.table.shared, &mut self.caller, note.teller);
    }
}
