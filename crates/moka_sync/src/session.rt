//! Sessions: the calls of one caller of the cache that threads share, and what the caller has seen by then.
ghost use Rattle.std.specs.Prelude.{◌≡◌, Option, IfOk, IfSome};
ghost use Rattle.moka_common.specs.Keys.{keys_by};
ghost use Rattle.moka_history.specs.Steps.{Invalidates};
ghost use Rattle.moka_locks.specs.History.{Makes, place_of};
ghost use Rattle.moka_locks.specs.Moments.{Appends, GoesOn, latest};
ghost use Rattle.moka_locks.specs.Tells.{Gets, Inserts, Looks, Removes};
ghost use Rattle.moka_row.specs.Kept.{Hears};
ghost use Rattle.moka_sync_model.specs.declared.ticket.Ticket.{Ticket};

use crate::note::Note;
use crate::stored::stored;
use moka_common::error::{InsertError, OutOfMemory};
use moka_common::hash::FixedState;
use moka_common::shared::Shared;
use moka_common::time::Instant;
use moka_common::weigh::UnitWeight;
use moka_locks::account::Caller;
use moka_locks::inner::Inner;
use moka_locks::locked::Locked;
use moka_shard::rule::{AnyPair, PairRule};
use moka_sync_model::steps;
use moka_sync_model::weigh::WeighShared;
use std::alloc::{Allocator, Global};
use std::hash::{BuildHasher, Hash};
use std::marker::Model;
use std::mem::replace;
use std::sync::Wait;

/// A caller's place in the histories of the shards of a cache, by `Cache::session`.
///
/// A clause sees its cache and what it knows: its number, of each shard a history that it has seen, its own visits there, and the moments of the
/// invalidations of all that it has seen. Each call comes, in the history of the key's shard, after all that the session had seen there, and what those
/// moments hide is not found. The calls of a session that learned a note (`note` and `learn`) come after what that had seen, too.
///
/// ```
/// let mut session = cache.session()?;
/// session.insert(rt, 7, 1, now)?;
/// let found = session.get(rt, &7, now)?;
/// ```
pub struct Session<
    K: Eq + Hash + Drop,
    V: Drop,
    S: BuildHasher + Drop = FixedState,
    P: PairRule<K, V> = AnyPair,
    W: Drop = UnitWeight,
    A: Allocator + Clone + Drop = Global,
> {
    pub(crate) inner: Shared<Inner<K, V, S, P, W, A>, A>,
    pub(crate) caller: Caller<K, V, S, P, A>,
}

// By hand, and not derived: wherever a session may end, there is one call to prove then, in place of one for each of its parts.
impl<
    K: Eq + Hash + Drop,
    V: Drop,
    S: BuildHasher + Drop,
    P: PairRule<K, V>,
    W: Drop,
    A: Allocator + Clone + Drop,
> Drop for Session<K, V, S, P, W, A> {
    fn drop(self) {
        let Session {
            inner: _,
            caller: _,
        } = self;
    }
}

impl<
    K: Eq + Hash + Drop,
    V: Drop,
    S: BuildHasher + Drop,
    P: PairRule<K, V>,
    W: Drop,
    A: Allocator + Clone + Drop,
> Model for Session<K, V, S, P, W, A> {
    ghost use Rattle.std.specs.Prelude.{◌≡◌, []};
    ghost use Rattle.moka_locks.specs.Cache.{plan_of};
    ghost use Rattle.moka_row.specs.Visits.{IsIdle};
    ghost use Rattle.moka_sync.specs.Session.{Session as SessionValue};

    ghost Value = { SessionValue K V S W };

    ghost view = { λ s. record { cache = s.inner; knows = s.caller.shards.me.0; moments = s.caller.moments.me.0.seen } };

    ghost invariant = { λ s. (s.caller.shards.table_id ≡ s.inner.id.shards) × IsIdle (plan_of s.inner) s.caller.shards.me
        × (s.caller.moments.table_id ≡ s.inner.id.moments) × (s.caller.moments.me.1 ≡ []) };
}

impl<
    K: Eq + Hash + Drop,
    V: Drop,
    S: BuildHasher + Drop,
    P: PairRule<K, V>,
    W: Drop,
    A: Allocator + Clone + Drop,
> Session<K, V, S, P, W, A> {
    /// Returns a note of what the session has seen so far, for another one to learn.
    pub fn note(&mut self) -> Note<K, V, S, P, A>
        ensures same { self.new ≡ self.old }
        ensures note { result ≡ record { id = self.old.cache.id; seen = self.old.knows.seen; moments = self.old.moments } }
    {
        let inner = self.inner.get();
        Note {
            teller: inner.note(&mut self.caller),
        }
    }

    /// Takes in a note of another session of the same cache. What that session had seen then, this one has seen from now on, and its next calls come after it.
    pub fn learn(&mut self, note: Note<K, V, S, P, A>)
        requires { note.id ≡ self.old.cache.id }
        ensures same { self.new.cache ≡ self.old.cache }
        ensures told { Hears self.old.knows note.seen self.new.knows }
        ensures moments { GoesOn self.old.moments self.new.moments × GoesOn note.moments self.new.moments }
    {
        let inner = self.inner.get();
        inner.learn(&mut self.caller, note.teller);
    }
}

impl<
    K: Eq + Hash + Drop,
    V: Drop,
    S: BuildHasher + Drop,
    P: PairRule<K, V>,
    W: WeighShared<K, V>,
    A: Allocator + Clone + Drop,
> Session<K, V, S, P, W, A> {
    /// Returns `true` if the key has an unexpired value. It doesn't count as a read.
    pub fn contains_key<R: Wait>(&mut self, rt: &R, key: &K, now: Instant) -> bool
        ensures same { self.new.cache ≡ self.old.cache }
        ensures made { Looks (keys_by K.Hash S.BuildHasher S.Hasher.Hasher) self.old.cache.settings self.old.knows key.now now (latest self.new.moments) result
            self.new.knows }
        ensures moments { GoesOn self.old.moments self.new.moments }
    {
        let inner = self.inner.get();
        let mut call = Locked::by(inner, replace(&mut self.caller, inner.come()));
        let found = steps::contains_key(rt, &mut call, key, now);
        self.caller = call.into_caller();
        found
    }

    /// Puts a value at a key, in place of the one that is there. The pair has to meet the rule. It fails if memory is refused, or if the key's shard has
    /// no ticket left, and then the entries are as they were.
    pub fn insert<R: Wait>(
        &mut self,
        rt: &R,
        key: K,
        value: V,
        now: Instant,
    ) -> Result<(), InsertError>
        requires ruled { P.holds key value }
        requires ready { W.ready self.old.cache.weigher }
        ensures same { self.new.cache ≡ self.old.cache }
        ensures made { Inserts (keys_by K.Hash S.BuildHasher S.Hasher.Hasher) self.old.cache.settings (W.weighs self.old.cache.weigher) self.old.knows
            key value now result self.new.knows }
        ensures moments { self.new.moments ≡ self.old.moments }
    {
        let inner = self.inner.get();
        let Some((key, value)) = stored(inner.alloc(), key, value) else {
            return Err(InsertError::OutOfMemory);
        };
        let mut call = Locked::by(inner, replace(&mut self.caller, inner.come()));
        let answer = steps::insert(rt, &mut call, key, value, now);
        self.caller = call.into_caller();
        answer
    }

    /// Removes the entry of a key, if there is one.
    pub fn invalidate<R: Wait>(&mut self, rt: &R, key: &K, now: Instant)
        ensures same { self.new.cache ≡ self.old.cache }
        ensures made { (left : Option Ticket) × Makes (keys_by K.Hash S.BuildHasher S.Hasher.Hasher) self.old.cache.settings self.old.knows
            (place_of (keys_by K.Hash S.BuildHasher S.Hasher.Hasher) self.old.cache.settings key.now) (Invalidates key.now left) self.new.knows }
        ensures moments { self.new.moments ≡ self.old.moments }
    {
        let inner = self.inner.get();
        let mut call = Locked::by(inner, replace(&mut self.caller, inner.come()));
        steps::invalidate(rt, &mut call, key, now);
        self.caller = call.into_caller();
    }

    /// Hides each entry whose last write or last read was before this moment; one of the two is enough. Those of the moment itself stay. It takes no lock.
    /// The session's next calls find none of the hidden ones, and neither do those of a session that learns a note of it. Once the session has read a shard,
    /// no later call finds them there, whoever makes it.
    pub fn invalidate_all(&mut self, now: Instant)
        ensures same { (self.new.cache ≡ self.old.cache) × (self.new.knows ≡ self.old.knows) }
        ensures moments { Appends self.old.moments now self.new.moments }
    {
        let inner = self.inner.get();
        let mut call = Locked::by(inner, replace(&mut self.caller, inner.come()));
        steps::invalidate_all(&mut call, now);
        self.caller = call.into_caller();
    }
}

impl<
    K: Eq + Hash + Drop,
    V: Clone,
    S: BuildHasher + Drop,
    P: PairRule<K, V>,
    W: WeighShared<K, V>,
    A: Allocator + Clone + Drop,
> Session<K, V, S, P, W, A> {
    /// Returns a clone of a key's unexpired value, made while no lock is held.
    pub fn get<R: Wait>(&mut self, rt: &R, key: &K, now: Instant) -> Result<Option<V>, OutOfMemory>
        ensures same { self.new.cache ≡ self.old.cache }
        ensures made { Gets (keys_by K.Hash S.BuildHasher S.Hasher.Hasher) self.old.cache.settings V.is_clone self.old.knows key.now now
            (latest self.new.moments) result self.new.knows }
        ensures moments { GoesOn self.old.moments self.new.moments }

        // It is a clone of a value that meets the rule with the key.
        ensures ruled { IfOk result (λ found. IfSome found (λ copy. (value : V) × P.holds key.now value × V.is_clone value copy)) }
    {
        let inner = self.inner.get();
        let mut call = Locked::by(inner, replace(&mut self.caller, inner.come()));
        let found = steps::get(rt, &mut call, key, now);
        self.caller = call.into_caller();
        found
    }

    /// Removes the entry of a key, if there is one, and returns a clone of its value if that is unexpired. The clone is made while the lock of the key's shard
    /// is held, before the entry leaves: if it is refused, the entry stays. It doesn't count as a read.
    pub fn remove<R: Wait>(
        &mut self,
        rt: &R,
        key: &K,
        now: Instant,
    ) -> Result<Option<V>, OutOfMemory>
        ensures same { self.new.cache ≡ self.old.cache }
        ensures made { Removes (keys_by K.Hash S.BuildHasher S.Hasher.Hasher) self.old.cache.settings V.is_clone self.old.knows key.now now
            (latest self.new.moments) result self.new.knows }
        ensures moments { GoesOn self.old.moments self.new.moments }

        // It is a clone of a value that meets the rule with the key.
        ensures ruled { IfOk result (λ found. IfSome found (λ copy. (value : V) × P.holds key.now value × V.is_clone value copy)) }
    {
        let inner = self.inner.get();
        let mut call = Locked::by(inner, replace(&mut self.caller, inner.come()));
        let found = steps::remove(rt, &mut call, key, now);
        self.caller = call.into_caller();
        found
    }
}
