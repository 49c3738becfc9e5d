//! The removals of a session from all segments.
ghost use Rattle.std.specs.Prelude.{◌≡◌};
ghost use Rattle.moka_common.specs.Keys.{keys_by};
ghost use Rattle.moka_unsync_model.specs.Step.{Done, InvalidateAll};
ghost use Rattle.moka_segments.specs.Calls.{MakesAll};
ghost use Rattle.moka_segments.specs.Notifying.{TellsEach, TellsEachSwept};
ghost use Rattle.moka_segments.specs.TellsAll.{InvalidatesAllIf, SweepsAll};

use crate::all;
use crate::invalidate_if::invalidate_entries_if;
use crate::rule::Rule;
use crate::session::Session;
use crate::sweep::remove_expired;
use crate::weigher::Weighing;
use moka_common::time::Instant;
use moka_unsync_model::listener::Listener;
use std::hash::{BuildHasher, Hash};
use std::sync::Wait;

impl<
    K: Eq + Hash + Drop,
    V: Drop,
    S: BuildHasher + Drop,
    W: Weighing<K, V>,
    P: Rule<K, V>,
    L: Listener<K, V> + Drop,
> Session<K, V, S, W, P, L> {
    /// Removes all entries, one segment after another.
    pub fn invalidate_all<R: Wait>(&mut self, rt: &R)
        requires owns { (key : K) → P.rules.owns self.old.knows.by key }
        ensures same { self.new.cache ≡ self.old.cache }
        ensures made { MakesAll (keys_by K.Hash S.BuildHasher S.Hasher.Hasher) W.weighs P.rules self.old.cache.plan self.old.knows
            self.old.cache.plan.count (λ _. InvalidateAll) (λ _. Done) self.new.knows }
        ensures told { TellsEach L.hears (keys_by K.Hash S.BuildHasher S.Hasher.Hasher) self.new.knows.seen self.old.cache.plan.count
            self.old.listener self.new.listener }
    {
        all::invalidate_all(rt, &*self.shared, &mut self.caller, &mut self.listener);
    }

    /// Removes the entries for which the predicate returns `true`, one segment after another. It is called once for each entry, in order of use, and copied
    /// for each segment. It must not call this cache, which would wait for itself.
    pub fn invalidate_entries_if<F: FnMut(&K, &V) -> bool + Copy, R: Wait>(
        &mut self,
        rt: &R,
        predicate: F,
    )
        requires predicate { F.IsAlwaysCallable predicate }
        requires owns { (key : K) → P.rules.owns self.old.knows.by key }
        ensures same { self.new.cache ≡ self.old.cache }
        ensures made { InvalidatesAllIf (keys_by K.Hash S.BuildHasher S.Hasher.Hasher) W.weighs P.rules self.old.cache.plan F.step predicate
            self.old.knows self.old.cache.plan.count self.new.knows }
        ensures told { TellsEach L.hears (keys_by K.Hash S.BuildHasher S.Hasher.Hasher) self.new.knows.seen self.old.cache.plan.count
            self.old.listener self.new.listener }
    {
        invalidate_entries_if(
            rt,
            &*self.shared,
            &mut self.caller,
            predicate,
            &mut self.listener,
        );
    }

    /// Removes all expired entries, also those behind unexpired ones, one segment after another: see `unsync::Cache::remove_expired`.
    pub fn remove_expired<R: Wait>(&mut self, rt: &R, now: Instant)
        requires owns { (key : K) → P.rules.owns self.old.knows.by key }
        ensures same { self.new.cache ≡ self.old.cache }
        ensures made { SweepsAll (keys_by K.Hash S.BuildHasher S.Hasher.Hasher) W.weighs P.rules self.old.cache.plan now
            self.old.knows self.old.cache.plan.count self.new.knows }
        ensures told { TellsEachSwept L.hears (keys_by K.Hash S.BuildHasher S.Hasher.Hasher) now self.new.knows.seen self.old.cache.plan.count
            self.old.listener self.new.listener }
    {
        remove_expired(rt, &*self.shared, &mut self.caller, now, &mut self.listener);
    }
}
