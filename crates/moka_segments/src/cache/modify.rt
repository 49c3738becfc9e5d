//! The change of a value by the cache itself.
ghost use Rattle.std.specs.Prelude.{ℕ};
ghost use Rattle.std.specs.Fn.{FnOnceReturnsAtMut, FnOnceTakesAtMut};
ghost use Rattle.moka_common.specs.Keys.{keys_by};
ghost use Rattle.moka_row.specs.Visits.{guest};
ghost use Rattle.moka_segments.specs.Modify.{Modifies};
ghost use Rattle.moka_segments.specs.Session.{ByGuest};

use crate::cache::SegmentedCache;
use crate::modify;
use crate::rule::Rule;
use crate::weigher::Weighing;
use moka_common::time::Instant;
use moka_row::row::come;
use moka_unsync_model::listener::NoListener;
use std::hash::{BuildHasher, Hash};
use std::sync::Wait;

impl<
    K: Eq + Hash + Drop,
    V: Drop,
    S: BuildHasher + Drop,
    W: Weighing<K, V>,
    P: Rule<K, V>,
> SegmentedCache<K, V, S, W, P> {
    /// Changes the value of the key's unexpired entry in place, and returns `true`, or `false` if there is none. It acts as an insert of what `change` leaves,
    /// but takes no memory: see `unsync::Cache::modify`.
    ///
    /// `change` runs under the lock of the key's segment, so no change of another thread is lost. It must not call this cache, which would wait for itself.
    pub fn modify<F: FnOnce(&mut V), R: Wait>(
        &self,
        rt: &R,
        key: &K,
        now: Instant,
        change: F,
    ) -> bool
        requires change { (value : V) → FnOnceTakesAtMut F.FnOnce change value }
        requires holds { (old new : V) → P.rules.holds key.now old → FnOnceReturnsAtMut F.FnOnce change old tt new → P.rules.holds key.now new }
        requires owns { (seat : ℕ) → P.rules.owns (guest seat) key.now }
        ensures made { ByGuest {K = K} {V = V} {S = S} {W = W} self.now.plan (λ old new. Modifies (keys_by K.Hash S.BuildHasher S.Hasher.Hasher) W.weighs
            P.rules self.now.plan (λ before after. FnOnceReturnsAtMut F.FnOnce change before tt after) old key.now now result new) }
    {
        let shared = &*self.shared;
        let mut caller = come(&shared.table.shared);
        modify::modify(rt, shared, &mut caller, key, now, change, &mut NoListener)
    }
}
