// The calls of a key, each a visit to the key's shard: it is noted in the history as the lock is given back.
ghost use Rattle.std.specs.Prelude.{◌≡◌, ◌<◌, ℕ, IfOk, IfSome, OnErr, Option, Some, map};
ghost use Rattle.std.specs.List.{All, IsDistinct};
ghost use Rattle.moka_common.specs.Keys.{keys_by};
ghost use Rattle.moka_history.specs.Steps.{Copies, Gets, Invalidates, Looks, Takes};
ghost use Rattle.moka_locks.specs.History.{Makes, Puts, place_of};
ghost use Rattle.moka_locks.specs.Moments.{GoesOn, latest};
ghost use Rattle.moka_row.specs.Visits.{IsIdle};
ghost use Rattle.moka_shard.specs.Rule.{PairsMeet};
ghost use Rattle.moka_sync_model.specs.declared.constants.TheConstants.{SHARDS};
ghost use Rattle.moka_sync_model.specs.declared.ticket.Ticket.{Ticket};
ghost use Rattle.moka_sync_model.specs.Reply.{IsHanded};

use crate::account::ShardSeat;
use crate::moments::Witness;
use crate::shards::Shards;
use moka_common::error::{InsertError, OutOfMemory};
use moka_common::shared::Shared;
use moka_common::time::Instant;
use moka_row::row::{leave, leave_unsaid, lock};
use moka_shard::rule::PairRule;
use moka_sync_model::ticket::Ticket;
use moka_sync_model::weigh::WeighShared;
use std::alloc::Allocator;
use std::hash::{BuildHasher, Hash};
use std::marker::Brand;
use std::snapshot::Snapshot;
use std::sync::Wait;

impl<
    K: Eq + Hash + Drop,
    V: Drop,
    S: BuildHasher + Drop,
    P: PairRule<K, V>,
    A: Allocator + Clone + Drop,
> Shards<K, V, S, P, A> {
    /// Returns the value of a key's live entry, shared, its ticket, and the slot in which it may be found again. If memory for the copy is refused, an entry
    /// was found.
    #[inline(always)]
    pub(crate) fn get<R: Wait>(
        &self,
        rt: &R,
        me: &mut ShardSeat<K, V, S, P, A>,
        witness: &mut Witness,
        key: &K,
        hash: u64,
        now: Instant,
    ) -> Result<(Option<(Shared<V, A>, Ticket)>, usize), OutOfMemory>
        requires table { me.old.table_id ≡ self.now.table.shared.table_id }
        requires moments { witness.old.table_id ≡ self.now.moments.table.shared.table_id }
        requires idle { IsIdle self.now.table.shared.key me.old.me }
        requires hashed { hash ≡ (keys_by K.Hash S.BuildHasher S.Hasher.Hasher).hash_of self.now.table.shared.key.settings.hash_state key.now }
        ensures same { me.new.table_id ≡ me.old.table_id }
        ensures seat { (witness.new.table_id ≡ witness.old.table_id) × (witness.new.me.1 ≡ witness.old.me.1) }
        ensures moments { GoesOn witness.old.me.0.seen witness.new.me.0.seen }
        ensures idle { IsIdle self.now.table.shared.key me.new.me }
        ensures ruled { IfOk result (λ found. IfSome found.0 (λ f. P.holds key.now f.0)) }
        ensures made { IfOk result (λ answer. Makes (keys_by K.Hash S.BuildHasher S.Hasher.Hasher) self.now.table.shared.key.settings me.old.me.0
            (place_of (keys_by K.Hash S.BuildHasher S.Hasher.Hasher) self.now.table.shared.key.settings key.now)
            (Gets key.now now (latest witness.new.me.0.seen) answer.0) me.new.me.0) }
        ensures refused { OnErr result ((found : V × Ticket) × Makes (keys_by K.Hash S.BuildHasher S.Hasher.Hasher) self.now.table.shared.key.settings
            me.old.me.0 (place_of (keys_by K.Hash S.BuildHasher S.Hasher.Hasher) self.now.table.shared.key.settings key.now)
            (Gets key.now now (latest witness.new.me.0.seen) (Some found)) me.new.me.0) }
    {
        let row = &self.table.shared;
        let place = self.place(hash);
        lock(rt, row, me, place);
        let kept = me.slot_mut(row, place);
        let shard = &mut kept.shard;
        let before = Snapshot::of(&*shard);
        let valid_after = self.moments.load_both(&mut kept.witness, witness);
        let found = shard.get(key, hash, &self.settings, valid_after, now);
        leave::<_, _, _, _, _, Brand>(row, me, place, (before, key, now, valid_after));
        found
    }

    /// Returns `true` if a key has a live entry.
    #[inline]
    pub(crate) fn contains_key<R: Wait>(
        &self,
        rt: &R,
        me: &mut ShardSeat<K, V, S, P, A>,
        witness: &mut Witness,
        key: &K,
        now: Instant,
    ) -> bool
        requires table { me.old.table_id ≡ self.now.table.shared.table_id }
        requires moments { witness.old.table_id ≡ self.now.moments.table.shared.table_id }
        requires idle { IsIdle self.now.table.shared.key me.old.me }
        ensures same { me.new.table_id ≡ me.old.table_id }
        ensures seat { (witness.new.table_id ≡ witness.old.table_id) × (witness.new.me.1 ≡ witness.old.me.1) }
        ensures moments { GoesOn witness.old.me.0.seen witness.new.me.0.seen }
        ensures idle { IsIdle self.now.table.shared.key me.new.me }
        ensures made { Makes (keys_by K.Hash S.BuildHasher S.Hasher.Hasher) self.now.table.shared.key.settings me.old.me.0
            (place_of (keys_by K.Hash S.BuildHasher S.Hasher.Hasher) self.now.table.shared.key.settings key.now)
            (Looks key.now now (latest witness.new.me.0.seen) result) me.new.me.0 }
    {
        let row = &self.table.shared;
        let hash = self.hash_of(key);
        let i = self.place(hash);
        lock(rt, row, me, i);
        let kept = me.slot_mut(row, i);
        let shard = &mut kept.shard;
        let before = Snapshot::of(&*shard);
        let valid_after = self.moments.load_both(&mut kept.witness, witness);
        let found = shard.contains_key(key, hash, &self.settings, valid_after, now);
        leave::<_, _, _, _, _, Brand>(row, me, i, (before, key, now, valid_after, found));
        found
    }

    /// Puts the value at the key. Returns the entry's ticket.
    #[inline]
    pub(crate) fn insert<W: WeighShared<K, V>, R: Wait>(
        &self,
        rt: &R,
        me: &mut ShardSeat<K, V, S, P, A>,
        key: Shared<K, A>,
        value: Shared<V, A>,
        weigher: &W,
        now: Instant,
    ) -> Result<Ticket, InsertError>
        requires table { me.old.table_id ≡ self.now.table.shared.table_id }
        requires idle { IsIdle self.now.table.shared.key me.old.me }
        requires ruled { P.holds key value }
        requires ready { W.ready weigher.now }
        ensures same { me.new.table_id ≡ me.old.table_id }
        ensures idle { IsIdle self.now.table.shared.key me.new.me }
        ensures made { Puts (keys_by K.Hash S.BuildHasher S.Hasher.Hasher) self.now.table.shared.key.settings (W.weighs weigher.now) me.old.me.0
            key value now result me.new.me.0 }
    {
        let row = &self.table.shared;
        let hash = self.hash_of(key.get());
        let i = self.place(hash);
        lock(rt, row, me, i);
        let kept = me.slot_mut(row, i);
        let shard = &mut kept.shard;
        let before = Snapshot::of(&*shard);
        let asked = Snapshot::of(&key);
        let given = Snapshot::of(&value);
        let answer = shard.insert(hash, key, value, weigher, now);
        let told = Snapshot::of(&answer);
        let after = Snapshot::of(&*shard);
        leave::<_, _, _, _, _, Brand>(row, me, i, (before, after, asked, given, now, told));
        answer
    }

    /// Removes the entry of a key. Returns its ticket.
    #[inline]
    pub(crate) fn invalidate<R: Wait>(
        &self,
        rt: &R,
        me: &mut ShardSeat<K, V, S, P, A>,
        key: &K,
    ) -> Option<Ticket>
        requires table { me.old.table_id ≡ self.now.table.shared.table_id }
        requires idle { IsIdle self.now.table.shared.key me.old.me }
        ensures same { me.new.table_id ≡ me.old.table_id }
        ensures idle { IsIdle self.now.table.shared.key me.new.me }
        ensures made { Makes (keys_by K.Hash S.BuildHasher S.Hasher.Hasher) self.now.table.shared.key.settings me.old.me.0
            (place_of (keys_by K.Hash S.BuildHasher S.Hasher.Hasher) self.now.table.shared.key.settings key.now) (Invalidates key.now result) me.new.me.0 }
    {
        let row = &self.table.shared;
        let hash = self.hash_of(key);
        let i = self.place(hash);
        lock(rt, row, me, i);
        let kept = me.slot_mut(row, i);
        let shard = &mut kept.shard;
        let before = Snapshot::of(&*shard);
        let left = shard.invalidate(key, hash);
        let after = Snapshot::of(&*shard);
        leave::<_, _, _, _, _, Brand>(row, me, i, (before, after, key, left));
        left
    }

    /// Returns the live pairs of a shard, shared. If memory is refused, the visit leaves nothing in the history.
    pub(crate) fn pairs<R: Wait>(
        &self,
        rt: &R,
        me: &mut ShardSeat<K, V, S, P, A>,
        i: usize,
        alloc: A,
        now: Instant,
    ) -> Result<Vec<(Shared<K, A>, Shared<V, A>), A>, OutOfMemory>
        requires table { me.old.table_id ≡ self.now.table.shared.table_id }
        requires idle { IsIdle self.now.table.shared.key me.old.me }
        requires below { i < SHARDS }
        ensures same { me.new.table_id ≡ me.old.table_id }
        ensures idle { IsIdle self.now.table.shared.key me.new.me }
        ensures ruled { IfOk result (λ pairs. PairsMeet P.holds pairs.items) }
        ensures once { IfOk result (λ pairs. IsDistinct K.eq (map (λ p. p.0) pairs.items)) }
        ensures own { IfOk result (λ pairs.
            All (λ p. place_of (keys_by K.Hash S.BuildHasher S.Hasher.Hasher) self.now.table.shared.key.settings p.0 ≡ i) pairs.items) }
        ensures made { IfOk result (λ pairs. (valid_after : ℕ)
            × Makes (keys_by K.Hash S.BuildHasher S.Hasher.Hasher) self.now.table.shared.key.settings me.old.me.0 i (Copies now valid_after pairs.items)
            me.new.me.0) }
    {
        let row = &self.table.shared;
        lock(rt, row, me, i);
        let kept = me.slot_mut(row, i);
        let shard = &mut kept.shard;
        let before = Snapshot::of(&*shard);
        let valid_after = self.moments.load(&mut kept.witness);
        match shard.pairs(alloc, &self.settings, valid_after, now) {
            Ok(pairs) => {
                leave::<_, _, _, _, _, Brand>(row, me, i, (before, now, valid_after));
                Ok(pairs)
            }
            Err(error) => {
                leave_unsaid(row, me, i);
                Err(error)
            }
        }
    }
}

impl<
    K: Eq + Hash + Drop,
    V: Clone,
    S: BuildHasher + Drop,
    P: PairRule<K, V>,
    A: Allocator + Clone + Drop,
> Shards<K, V, S, P, A> {
    /// Removes the entry of a key, and returns a clone of its value, if it is live, and its ticket. The clone is made before the entry leaves. If it is
    /// refused, the entry stays.
    #[inline]
    pub(crate) fn take<R: Wait>(
        &self,
        rt: &R,
        me: &mut ShardSeat<K, V, S, P, A>,
        witness: &mut Witness,
        key: &K,
        now: Instant,
    ) -> Result<(Option<V>, Option<Ticket>), OutOfMemory>
        requires table { me.old.table_id ≡ self.now.table.shared.table_id }
        requires moments { witness.old.table_id ≡ self.now.moments.table.shared.table_id }
        requires idle { IsIdle self.now.table.shared.key me.old.me }
        ensures same { me.new.table_id ≡ me.old.table_id }
        ensures seat { (witness.new.table_id ≡ witness.old.table_id) × (witness.new.me.1 ≡ witness.old.me.1) }
        ensures moments { GoesOn witness.old.me.0.seen witness.new.me.0.seen }
        ensures idle { IsIdle self.now.table.shared.key me.new.me }
        ensures made { IfOk result (λ taken. (found : Option V) × IsHanded V.is_clone found taken.0
            × IfSome found (λ value. P.holds key.now value)
            × Makes (keys_by K.Hash S.BuildHasher S.Hasher.Hasher) self.now.table.shared.key.settings me.old.me.0
            (place_of (keys_by K.Hash S.BuildHasher S.Hasher.Hasher) self.now.table.shared.key.settings key.now)
            (Takes key.now now (latest witness.new.me.0.seen) found taken.1) me.new.me.0) }
        ensures refused { OnErr result (((found : V × Ticket) × Makes (keys_by K.Hash S.BuildHasher S.Hasher.Hasher) self.now.table.shared.key.settings
            me.old.me.0 (place_of (keys_by K.Hash S.BuildHasher S.Hasher.Hasher) self.now.table.shared.key.settings key.now)
            (Gets key.now now (latest witness.new.me.0.seen) (Some found)) me.new.me.0)
            × ((value : V) × (¬ (V.is_infallible value)))) }
    {
        let row = &self.table.shared;
        let hash = self.hash_of(key);
        let i = self.place(hash);
        lock(rt, row, me, i);
        let kept = me.slot_mut(row, i);
        let shard = &mut kept.shard;
        let before = Snapshot::of(&*shard);
        let valid_after = self.moments.load_both(&mut kept.witness, witness);
        let taken = shard.take_clone(key, hash, &self.settings, valid_after, now);
        let told = Snapshot::of(&taken);
        let after = Snapshot::of(&*shard);
        leave::<_, _, _, _, _, Brand>(row, me, i, (before, after, key, now, valid_after, told));
        taken
    }
}
