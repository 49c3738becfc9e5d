//! The calls of a cache by probes: a `&str` stands for a `String`, so that a look-up needs no key.
ghost use Rattle.std.specs.Prelude.{ℕ, IsTrue};
ghost use Rattle.moka_common.specs.Keys.{hash_by, keys_by};
ghost use Rattle.moka_row.specs.Visits.{guest};
ghost use Rattle.moka_segments.specs.Probes.{GetsBy, InvalidatesBy, LooksBy, PeeksBy, RemovesBy};
ghost use Rattle.moka_segments.specs.Session.{ByGuest};

use crate::cache::SegmentedCache;
use crate::probe;
use crate::rule::Rule;
use crate::weigher::Weighing;
use moka_common::error::OutOfMemory;
use moka_common::lookup::Lookup;
use moka_common::time::Instant;
use moka_row::row::come;
use moka_unsync_model::listener::NoListener;
use std::hash::{BuildHasher, Hash};
use std::sync::Wait;

impl<
    K: Eq + Hash + Drop,
    V: Clone + Drop,
    S: BuildHasher + Drop,
    W: Weighing<K, V>,
    P: Rule<K, V>,
> SegmentedCache<K, V, S, W, P> {
    /// Returns a clone of the value of the key that the probe stands for, as `get` does: a `&str` stands for a `String`. If none is found,
    /// the probe's hash is counted.
    pub fn get_by<Q: Lookup<K>, R: Wait>(
        &self,
        rt: &R,
        probe: Q,
        now: Instant,
    ) -> Result<Option<V>, OutOfMemory>
        ensures made { ByGuest {K = K} {V = V} {S = S} {W = W} self.now.plan (λ old new. GetsBy (keys_by K.Hash S.BuildHasher S.Hasher.Hasher) W.weighs
            P.rules self.now.plan V.is_clone old (Q.stands_for probe) (hash_by S.BuildHasher S.Hasher.Hasher self.now.plan.hash_state (Q.hash_input
            probe)) now result new) }
    {
        let shared = &*self.shared;
        let mut caller = come(&shared.table.shared);
        probe::get_by(rt, shared, &mut caller, probe, now, &mut NoListener)
    }

    /// Returns a clone of the value of the key that the probe stands for, as `peek` does.
    pub fn peek_by<Q: Lookup<K>, R: Wait>(
        &self,
        rt: &R,
        probe: Q,
        now: Instant,
    ) -> Result<Option<V>, OutOfMemory>
        ensures made { ByGuest {K = K} {V = V} {S = S} {W = W} self.now.plan (λ old new. PeeksBy (keys_by K.Hash S.BuildHasher S.Hasher.Hasher) W.weighs
            P.rules self.now.plan V.is_clone old (Q.stands_for probe) (hash_by S.BuildHasher S.Hasher.Hasher self.now.plan.hash_state (Q.hash_input
            probe)) now result new) }
    {
        let shared = &*self.shared;
        let mut caller = come(&shared.table.shared);
        probe::peek_by(rt, shared, &mut caller, probe, now)
    }
}

impl<
    K: Eq + Hash + Drop,
    V: Drop,
    S: BuildHasher + Drop,
    W: Weighing<K, V>,
    P: Rule<K, V>,
> SegmentedCache<K, V, S, W, P> {
    /// Returns `true` if the key that the probe stands for has an unexpired entry, as `contains_key` does.
    pub fn contains_by<Q: Lookup<K>, R: Wait>(&self, rt: &R, probe: Q, now: Instant) -> bool
        ensures made { ByGuest {K = K} {V = V} {S = S} {W = W} self.now.plan (λ old new. LooksBy (keys_by K.Hash S.BuildHasher S.Hasher.Hasher) W.weighs
            P.rules self.now.plan old (Q.stands_for probe) (hash_by S.BuildHasher S.Hasher.Hasher self.now.plan.hash_state (Q.hash_input probe)) now
            result new) }
    {
        let shared = &*self.shared;
        let mut caller = come(&shared.table.shared);
        probe::contains_by(rt, shared, &mut caller, probe, now, &mut NoListener)
    }

    /// Removes the entry of the key that the probe stands for, as `invalidate` does.
    pub fn invalidate_by<Q: Lookup<K>, R: Wait>(&self, rt: &R, probe: Q, now: Instant)
        requires owns { (seat : ℕ) (key : K) → IsTrue (Q.stands_for probe key) → P.rules.owns (guest seat) key }
        ensures made { ByGuest {K = K} {V = V} {S = S} {W = W} self.now.plan (λ old new. InvalidatesBy (keys_by K.Hash S.BuildHasher S.Hasher.Hasher)
            W.weighs P.rules self.now.plan old (Q.stands_for probe) (hash_by S.BuildHasher S.Hasher.Hasher self.now.plan.hash_state (Q.hash_input
            probe)) now new) }
    {
        let shared = &*self.shared;
        let mut caller = come(&shared.table.shared);
        probe::invalidate_by(rt, shared, &mut caller, probe, now, &mut NoListener);
    }

    /// Removes the entry of the key that the probe stands for and returns its value, as `remove` does.
    pub fn remove_by<Q: Lookup<K>, R: Wait>(&self, rt: &R, probe: Q, now: Instant) -> Option<V>
        requires owns { (seat : ℕ) (key : K) → IsTrue (Q.stands_for probe key) → P.rules.owns (guest seat) key }
        ensures made { ByGuest {K = K} {V = V} {S = S} {W = W} self.now.plan (λ old new. RemovesBy (keys_by K.Hash S.BuildHasher S.Hasher.Hasher)
            W.weighs P.rules self.now.plan old (Q.stands_for probe) (hash_by S.BuildHasher S.Hasher.Hasher self.now.plan.hash_state (Q.hash_input
            probe)) now result new) }
    {
        let shared = &*self.shared;
        let mut caller = come(&shared.table.shared);
        probe::remove_by(rt, shared, &mut caller, probe, now, &mut NoListener)
    }
}
