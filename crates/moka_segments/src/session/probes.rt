//! The calls of a session by probes: a `&str` stands for a `String`, so that a look-up needs no key.
ghost use Rattle.std.specs.Prelude.{◌≡◌, IsTrue};
ghost use Rattle.moka_common.specs.Keys.{hash_by, keys_by};
ghost use Rattle.moka_segments.specs.Probes.{GetsBy, InvalidatesBy, LooksBy, PeeksBy, RemovesBy, TellsAtHash};

use crate::probe;
use crate::rule::Rule;
use crate::session::Session;
use crate::weigher::Weighing;
use moka_common::error::OutOfMemory;
use moka_common::lookup::Lookup;
use moka_common::time::Instant;
use moka_unsync_model::listener::Listener;
use std::hash::{BuildHasher, Hash};
use std::sync::Wait;

impl<
    K: Eq + Hash + Drop,
    V: Clone + Drop,
    S: BuildHasher + Drop,
    W: Weighing<K, V>,
    P: Rule<K, V>,
    L: Listener<K, V> + Drop,
> Session<K, V, S, W, P, L> {
    /// Returns a clone of the value of the key that the probe stands for, as `get` does: a `&str` stands for a `String`. If none is found,
    /// the probe's hash is counted.
    pub fn get_by<Q: Lookup<K>, R: Wait>(
        &mut self,
        rt: &R,
        probe: Q,
        now: Instant,
    ) -> Result<Option<V>, OutOfMemory>
        ensures same { self.new.cache ≡ self.old.cache }
        ensures made { GetsBy (keys_by K.Hash S.BuildHasher S.Hasher.Hasher) W.weighs P.rules self.old.cache.plan V.is_clone self.old.knows
            (Q.stands_for probe) (hash_by S.BuildHasher S.Hasher.Hasher self.old.cache.plan.hash_state (Q.hash_input probe)) now result self.new.knows }
        ensures told { TellsAtHash L.hears (keys_by K.Hash S.BuildHasher S.Hasher.Hasher) self.old.cache.plan (hash_by S.BuildHasher S.Hasher.Hasher
            self.old.cache.plan.hash_state (Q.hash_input probe)) self.new.knows self.old.listener self.new.listener }
    {
        probe::get_by(
            rt,
            &*self.shared,
            &mut self.caller,
            probe,
            now,
            &mut self.listener,
        )
    }
}

impl<
    K: Eq + Hash + Drop,
    V: Clone + Drop,
    S: BuildHasher + Drop,
    W: Weighing<K, V>,
    P: Rule<K, V>,
    L: Drop,
> Session<K, V, S, W, P, L> {
    /// Returns a clone of the value of the key that the probe stands for, as `peek` does.
    pub fn peek_by<Q: Lookup<K>, R: Wait>(
        &mut self,
        rt: &R,
        probe: Q,
        now: Instant,
    ) -> Result<Option<V>, OutOfMemory>
        ensures same { self.new.cache ≡ self.old.cache }
        ensures made { PeeksBy (keys_by K.Hash S.BuildHasher S.Hasher.Hasher) W.weighs P.rules self.old.cache.plan V.is_clone self.old.knows
            (Q.stands_for probe) (hash_by S.BuildHasher S.Hasher.Hasher self.old.cache.plan.hash_state (Q.hash_input probe)) now result self.new.knows }
        ensures listener { self.new.listener ≡ self.old.listener }
    {
        probe::peek_by(rt, &*self.shared, &mut self.caller, probe, now)
    }
}

impl<
    K: Eq + Hash + Drop,
    V: Drop,
    S: BuildHasher + Drop,
    W: Weighing<K, V>,
    P: Rule<K, V>,
    L: Listener<K, V> + Drop,
> Session<K, V, S, W, P, L> {
    /// Returns `true` if the key that the probe stands for has an unexpired entry, as `contains_key` does.
    pub fn contains_by<Q: Lookup<K>, R: Wait>(&mut self, rt: &R, probe: Q, now: Instant) -> bool
        ensures same { self.new.cache ≡ self.old.cache }
        ensures made { LooksBy (keys_by K.Hash S.BuildHasher S.Hasher.Hasher) W.weighs P.rules self.old.cache.plan self.old.knows (Q.stands_for probe)
            (hash_by S.BuildHasher S.Hasher.Hasher self.old.cache.plan.hash_state (Q.hash_input probe)) now result self.new.knows }
        ensures told { TellsAtHash L.hears (keys_by K.Hash S.BuildHasher S.Hasher.Hasher) self.old.cache.plan (hash_by S.BuildHasher S.Hasher.Hasher
            self.old.cache.plan.hash_state (Q.hash_input probe)) self.new.knows self.old.listener self.new.listener }
    {
        probe::contains_by(
            rt,
            &*self.shared,
            &mut self.caller,
            probe,
            now,
            &mut self.listener,
        )
    }

    /// Removes the entry of the key that the probe stands for, as `invalidate` does.
    pub fn invalidate_by<Q: Lookup<K>, R: Wait>(&mut self, rt: &R, probe: Q, now: Instant)
        requires owns { (key : K) → IsTrue (Q.stands_for probe key) → P.rules.owns self.old.knows.by key }
        ensures same { self.new.cache ≡ self.old.cache }
        ensures made { InvalidatesBy (keys_by K.Hash S.BuildHasher S.Hasher.Hasher) W.weighs P.rules self.old.cache.plan self.old.knows (Q.stands_for
            probe) (hash_by S.BuildHasher S.Hasher.Hasher self.old.cache.plan.hash_state (Q.hash_input probe)) now self.new.knows }
        ensures told { TellsAtHash L.hears (keys_by K.Hash S.BuildHasher S.Hasher.Hasher) self.old.cache.plan (hash_by S.BuildHasher S.Hasher.Hasher
            self.old.cache.plan.hash_state (Q.hash_input probe)) self.new.knows self.old.listener self.new.listener }
    {
        probe::invalidate_by(
            rt,
            &*self.shared,
            &mut self.caller,
            probe,
            now,
            &mut self.listener,
        );
    }

    /// Removes the entry of the key that the probe stands for and returns its value, as `remove` does.
    pub fn remove_by<Q: Lookup<K>, R: Wait>(&mut self, rt: &R, probe: Q, now: Instant) -> Option<V>
        requires owns { (key : K) → IsTrue (Q.stands_for probe key) → P.rules.owns self.old.knows.by key }
        ensures same { self.new.cache ≡ self.old.cache }
        ensures made { RemovesBy (keys_by K.Hash S.BuildHasher S.Hasher.Hasher) W.weighs P.rules self.old.cache.plan self.old.knows (Q.stands_for probe)
            (hash_by S.BuildHasher S.Hasher.Hasher self.old.cache.plan.hash_state (Q.hash_input probe)) now result self.new.knows }
        ensures told { TellsAtHash L.hears (keys_by K.Hash S.BuildHasher S.Hasher.Hasher) self.old.cache.plan (hash_by S.BuildHasher S.Hasher.Hasher
            self.old.cache.plan.hash_state (Q.hash_input probe)) self.new.knows self.old.listener self.new.listener }
    {
        probe::remove_by(
            rt,
            &*self.shared,
            &mut self.caller,
            probe,
            now,
            &mut self.listener,
        )
    }
}
