// The turns of a maintenance on a shard, each a visit by a guest of its own: so a caller's own visits are its calls.
ghost use Rattle.std.specs.Prelude.{◌≡◌, false};
ghost use Rattle.moka_maintenance.specs.Taken.{TakesWrite, having_taken_write};
ghost use Rattle.moka_shard.specs.PlannedTurn.{IsTurn};
ghost use Rattle.moka_sync_model.specs.declared.operation.Write.TheVariants.{Upsert};
ghost use Rattle.moka_sync_model.specs.Parts.{NeedsShard, need_of};
ghost use Rattle.moka_sync_model.specs.Turn.Turn.{turn_at};

use crate::shards::Shards;
use moka_common::time::Instant;
use moka_maintenance::maintenance::Maintenance;
use moka_row::row::{leave, lock};
use moka_shard::rule::PairRule;
use moka_sync_model::ticket::Ticket;
use std::alloc::Allocator;
use std::hash::{BuildHasher, Hash};
use std::marker::Brand;
use std::snapshot::Snapshot;
use std::sync::Wait;

impl<
    K: Eq + Hash + Drop,
    V: Drop,
    S: BuildHasher + Drop,
    P: PairRule<K, V>,
    A: Allocator + Clone + Drop,
> Shards<K, V, S, P, A> {
    /// Records that the entry of a ticket, if there is one, was used at a moment. Looks into `slot` first. Returns a hint for its node.
    pub(crate) fn touch<R: Wait>(
        &self,
        rt: &R,
        ticket: Ticket,
        slot: usize,
        moment: Instant,
    ) -> usize {
        let row = &self.table.shared;
        let me = &mut self.new_seat();
        let i = self.place(ticket.hash);
        lock(rt, row, me, i);
        let kept = me.slot_mut(row, i);
        let shard = &mut kept.shard;
        let before = Snapshot::of(&*shard);
        let hint = shard.touch(ticket, slot, moment);
        let after = Snapshot::of(&*shard);
        leave::<_, _, _, _, _, Brand>(row, me, i, (before, after, ticket, moment));
        hint
    }

    /// Takes a turn of a maintenance that needs the entry of a ticket. The moment of invalidation is the one that it loads, or `before` if that is later.
    pub(crate) fn turn<R: Wait>(
        &self,
        rt: &R,
        maintenance: &mut Maintenance<A>,
        ticket: Ticket,
        before: Instant,
    )
        requires { need_of (turn_at {K = K} {V = V} self.now.settings before false maintenance.old.phase maintenance.old) ≡ NeedsShard ticket }
        ensures { IsTurn K V self.now.settings maintenance.old maintenance.new }
    {
        let row = &self.table.shared;
        let me = &mut self.new_seat();
        let i = self.place(ticket.hash);
        lock(rt, row, me, i);
        let kept = me.slot_mut(row, i);
        let shard = &mut kept.shard;
        let found = Snapshot::of(&*shard);
        let stood = Snapshot::of(&*maintenance);
        let valid_after = self.valid_after_since(before);
        shard.turn(maintenance, ticket, &self.settings, valid_after);
        let after = Snapshot::of(&*shard);
        leave::<_, _, _, _, _, Brand>(row, me, i, (found, after, stood, valid_after, ticket));
    }

    /// Applies the upsert that a maintenance has just taken from its log.
    pub(crate) fn apply_upsert<R: Wait>(
        &self,
        rt: &R,
        maintenance: &mut Maintenance<A>,
        ticket: Ticket,
    )
        requires { TakesWrite maintenance.old }
        ensures { IsTurn K V self.now.settings (having_taken_write (Upsert ticket) maintenance.old) maintenance.new }
    {
        let row = &self.table.shared;
        let me = &mut self.new_seat();
        let i = self.place(ticket.hash);
        lock(rt, row, me, i);
        let kept = me.slot_mut(row, i);
        let shard = &mut kept.shard;
        let found = Snapshot::of(&*shard);
        let stood = Snapshot::of(&*maintenance);
        shard.apply_upsert(maintenance, ticket, &self.settings);
        let after = Snapshot::of(&*shard);
        leave::<_, _, _, _, _, Brand>(row, me, i, (found, after, stood, ticket));
    }
}
