//! The inserts of a session.
ghost use Rattle.std.specs.Prelude.{◌≡◌, None, OnOk};
ghost use Rattle.std.specs.Duration.{as_nanos};
ghost use Rattle.moka_common.specs.Keys.{keys_by};
ghost use Rattle.moka_segments.specs.Notifying.{TellsAt};
ghost use Rattle.moka_segments.specs.Tells.{Inserts, TimedInserts};

use crate::call;
use crate::rule::Rule;
use crate::session::Session;
use crate::weigher::Weighing;
use moka_common::error::InsertError;
use moka_common::time::Instant;
use moka_unsync::error::TimedInsertError;
use moka_unsync_model::listener::Listener;
use std::hash::{BuildHasher, Hash};
use std::sync::Wait;
use std::time::Duration;

impl<
    K: Eq + Hash + Drop,
    V: Drop,
    S: BuildHasher + Drop,
    W: Weighing<K, V>,
    P: Rule<K, V>,
    L: Listener<K, V> + Drop,
> Session<K, V, S, W, P, L> {
    /// Puts the value at the key. The admission policy of the segment may reject a new entry, which is `Ok` as well. If memory is refused, the entries are as
    /// they were. If it replaces a value, the listener gets the old value with the new key.
    pub fn insert<R: Wait>(
        &mut self,
        rt: &R,
        key: K,
        value: V,
        now: Instant,
    ) -> Result<(), InsertError>
        requires holds { P.rules.holds key value }
        requires owns { P.rules.owns self.old.knows.by key }
        ensures same { self.new.cache ≡ self.old.cache }
        ensures made { Inserts (keys_by K.Hash S.BuildHasher S.Hasher.Hasher) W.weighs P.rules self.old.cache.plan self.old.knows key value
            None now result self.new.knows }
        ensures told { TellsAt L.hears (keys_by K.Hash S.BuildHasher S.Hasher.Hasher) self.old.cache.plan key self.new.knows self.old.listener
            self.new.listener }
    {
        call::insert(
            rt,
            &*self.shared,
            &mut self.caller,
            key,
            value,
            None,
            now,
            &mut self.listener,
        )
    }

    /// Puts the value at the key, as `insert` does, with a time to live of its own. The entry expires after that, or after the cache's time to live if that is
    /// shorter. The cache needs one: without it the call is refused, and the cache is as it was.
    pub fn insert_with_time_to_live<R: Wait>(
        &mut self,
        rt: &R,
        key: K,
        value: V,
        time_to_live: Duration,
        now: Instant,
    ) -> Result<(), TimedInsertError>
        requires holds { P.rules.holds key value }
        requires owns { P.rules.owns self.old.knows.by key }
        ensures same { self.new.cache ≡ self.old.cache }
        ensures made { TimedInserts (keys_by K.Hash S.BuildHasher S.Hasher.Hasher) W.weighs P.rules self.old.cache.plan self.old.knows key value
            (as_nanos time_to_live) now result self.new.knows }
        ensures told { OnOk result (TellsAt L.hears (keys_by K.Hash S.BuildHasher S.Hasher.Hasher) self.old.cache.plan key self.new.knows
            self.old.listener self.new.listener) }
    {
        call::insert_with_time_to_live(
            rt,
            &*self.shared,
            &mut self.caller,
            key,
            value,
            time_to_live,
            now,
            &mut self.listener,
        )
    }
}
