// The turns of a maintenance that need the entry of a ticket.
ghost use Rattle.std.specs.Prelude.{◌≡◌, ℕ, Bool, false};
ghost use Rattle.moka_common.specs.Keys.{keys_by};
ghost use Rattle.moka_common.specs.Settings.{Settings as SettingsState};
ghost use Rattle.moka_maintenance.specs.Taken.{IsScan, TakesWrite, having_taken_write};
ghost use Rattle.moka_shard.specs.PlannedTurn.{IsTurn};
ghost use Rattle.moka_shard.specs.Shard.{state_of};
ghost use Rattle.moka_shard.specs.ShardTurn.{TurnsOnShard};
ghost use Rattle.moka_sync_model.specs.declared.operation.Write.TheVariants.{Upsert};
ghost use Rattle.moka_sync_model.specs.Parts.{IsValidShard, NeedsShard, need_of};
ghost use Rattle.moka_sync_model.specs.Turn.Turn.{turn_at};

use crate::rule::PairRule;
use crate::shard::Shard;
use moka_common::time::Instant;
use moka_maintenance::maintenance::Maintenance;
use moka_sync_model::settings::Settings;
use moka_sync_model::ticket::Ticket;
use std::alloc::Allocator;
use std::hash::{BuildHasher, Hash};

impl<
    K: Eq + Hash + Drop,
    V: Drop,
    S: BuildHasher + Drop,
    P: PairRule<K, V>,
    A: Allocator + Clone + Drop,
> Shard<K, V, S, P, A> {
    /// Takes a turn of the maintenance that needs the entry of a ticket, as `Maintenance::need` says.
    pub fn turn(
        &mut self,
        maintenance: &mut Maintenance<A>,
        ticket: Ticket,
        settings: &Settings<S, A>,
        valid_after: Instant,
    )
        requires { need_of (turn_at {K = K} {V = V} settings.now valid_after false maintenance.old.phase maintenance.old) ≡ NeedsShard ticket }
        ensures turn { IsTurn K V settings.now maintenance.old maintenance.new }
        ensures shard { (refused : Bool) × TurnsOnShard settings.now valid_after refused ticket maintenance.old maintenance.new
            (state_of self.old) (state_of self.new) }
        ensures valid { IsValidShard (keys_by K.Hash S.BuildHasher S.Hasher.Hasher) (state_of self.new) }
    {
        let slot = self.find_ticket(ticket);
        let change = maintenance.turn_at_entry(settings, valid_after, ticket, self.entry(slot));
        self.change(slot, change);
    }

    /// Takes a turn of a scan that needs the entry of a ticket. It sees only the entry's weight.
    #[inline(always)]
    pub fn scan(&mut self, maintenance: &mut Maintenance<A>, ticket: Ticket)
        requires scans { IsScan maintenance.old.phase }
        requires need { (settings : SettingsState S) × (valid_after : ℕ)
            × (need_of (turn_at {K = K} {V = V} settings valid_after false maintenance.old.phase maintenance.old) ≡ NeedsShard ticket) }
        ensures shard { (settings : SettingsState S) → (valid_after : ℕ)
            → need_of (turn_at {K = K} {V = V} settings valid_after false maintenance.old.phase maintenance.old) ≡ NeedsShard ticket
            → TurnsOnShard settings valid_after false ticket maintenance.old maintenance.new (state_of self.old) (state_of self.new) }
        ensures valid { IsValidShard (keys_by K.Hash S.BuildHasher S.Hasher.Hasher) (state_of self.new) }
    {
        let slot = self.find_ticket(ticket);
        let change = maintenance.scan::<K, V, S>(self.weight(slot));
        self.change(slot, change);
    }

    /// Applies the upsert that the maintenance has just taken from its log.
    #[inline(always)]
    pub fn apply_upsert(
        &mut self,
        maintenance: &mut Maintenance<A>,
        ticket: Ticket,
        settings: &Settings<S, A>,
    )
        requires { TakesWrite maintenance.old }
        ensures turn { IsTurn K V settings.now (having_taken_write (Upsert ticket) maintenance.old) maintenance.new }
        ensures shard { (refused : Bool) × ((valid_after : ℕ) → TurnsOnShard settings.now valid_after refused ticket
            (having_taken_write (Upsert ticket) maintenance.old) maintenance.new (state_of self.old) (state_of self.new)) }
        ensures valid { IsValidShard (keys_by K.Hash S.BuildHasher S.Hasher.Hasher) (state_of self.new) }
    {
        let slot = self.find_ticket(ticket);
        let change = maintenance.turn_with_upsert(settings, ticket, self.entry(slot));
        self.change(slot, change);
    }
}
