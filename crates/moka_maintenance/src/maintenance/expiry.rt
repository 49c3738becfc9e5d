// The turns at the front of an order by which entries expire.
ghost use Rattle.std.specs.Prelude.{◌≡◌, ◌+◌, IsSome, Some, option_copied};
ghost use Rattle.moka_sync_model.specs.Orders.{rewritten, used};
ghost use Rattle.moka_sync_model.specs.Phase.{Evict, ExpireAccess, ExpireWrite};
ghost use Rattle.moka_sync_model.specs.Turn.Expiry.{access_front, after_front, is_past_tti_or_hidden, is_past_ttl_or_hidden, write_front};
ghost use Rattle.moka_queues.specs.OrdersState.{orders_of};
ghost use Rattle.moka_maintenance.specs.Held.{HoldsIn, maintenance_of, outcome_of};

use crate::maintenance::fronts::{front_ticket, remove_front, remove_ticket, touch_front};
use crate::maintenance::phase::PhaseState;
use crate::maintenance::state::State;
use moka_common::time::Instant;
use moka_sync_model::constants::SYNC_BATCH_SIZE;
use moka_sync_model::entry::{Entry, EntryChange};
use moka_sync_model::settings::Settings;
use moka_sync_model::ticket::Ticket;
use std::alloc::Allocator;

/// Returns `true` if an entry was last written too long ago, or before the last invalidation of all.
fn is_past_ttl_or_hidden<K: Drop, V: Drop, S: Drop, A: Allocator + Drop>(
    settings: &Settings<S, A>,
    valid_after: Instant,
    now: Instant,
    entry: &Entry<K, V, A>,
) -> bool
    ensures { result ≡ is_past_ttl_or_hidden settings.now valid_after now entry.now }
{
    settings.limits().is_past_ttl(entry.modified(), now) || entry.modified() < valid_after
}

/// Returns `true` if an entry was last used too long ago, or before the last invalidation of all.
fn is_past_tti_or_hidden<K: Drop, V: Drop, S: Drop, A: Allocator + Drop>(
    settings: &Settings<S, A>,
    valid_after: Instant,
    now: Instant,
    entry: &Entry<K, V, A>,
) -> bool
    ensures { result ≡ is_past_tti_or_hidden settings.now valid_after now entry.now }
{
    settings.limits().is_idle(entry.accessed(), now) || entry.accessed() < valid_after
}

impl<A: Allocator + Clone + Drop> State<A> {
    /// Returns the ticket at the front of the write order, if there is a turn at it.
    pub(crate) fn write_front<S: Drop>(
        &self,
        settings: &Settings<S, A>,
        turns: usize,
    ) -> Option<Ticket>
        ensures { result ≡ write_front settings.now turns (orders_of self.now.orders) }
    {
        if settings.limits().has_time_to_live() && turns < SYNC_BATCH_SIZE {
            return self.orders.oldest_write();
        }
        None
    }

    /// Returns the ticket at the front of the access order, if there is an expiry turn at it.
    pub(crate) fn access_front<S: Drop>(
        &self,
        settings: &Settings<S, A>,
        valid_after: Instant,
        turns: usize,
    ) -> Option<Ticket>
        ensures { result ≡ access_front settings.now valid_after turns (orders_of self.now.orders) }
    {
        let is_limited = settings.limits().has_time_to_idle() || valid_after.nanos() > 0;
        if is_limited && turns < SYNC_BATCH_SIZE {
            return front_ticket(&self.orders);
        }
        None
    }

    /// Takes a turn at the front of the write order.
    pub(crate) fn expire_write<K: Drop, V: Drop, S: Drop>(
        &mut self,
        settings: &Settings<S, A>,
        valid_after: Instant,
        turns: usize,
        ticket: Ticket,
        found: Option<&Entry<K, V, A>>,
    ) -> EntryChange
        requires { write_front settings.now turns (orders_of self.old.orders) ≡ Some ticket }
        ensures step { outcome_of result self.new
            ≡ after_front (is_past_ttl_or_hidden settings.now valid_after self.old.moment) rewritten (ExpireWrite (turns + 1)) (ExpireAccess 0)
            ticket (maintenance_of self.old) (option_copied found.entry) }
        ensures holds { HoldsIn self.new.orders self.new.phase }
    {
        let Some(entry) = found else {
            self.orders.requeue_oldest_write();
            self.phase = PhaseState::ExpireWrite { turns: turns + 1 };
            return EntryChange::Stays;
        };
        if is_past_ttl_or_hidden(settings, valid_after, self.moment, entry) {
            remove_ticket(&mut self.orders, ticket);
            self.phase = PhaseState::ExpireWrite { turns: turns + 1 };
            return EntryChange::Leaves;
        }
        self.phase = PhaseState::ExpireAccess { turns: 0 };
        EntryChange::Stays
    }

    /// Takes a turn of the expiry at the front of the access order.
    pub(crate) fn expire_access<K: Drop, V: Drop, S: Drop>(
        &mut self,
        settings: &Settings<S, A>,
        valid_after: Instant,
        turns: usize,
        found: Option<&Entry<K, V, A>>,
    ) -> EntryChange
        requires { IsSome (access_front settings.now valid_after turns (orders_of self.old.orders)) }
        ensures step { (ticket : Ticket) → access_front settings.now valid_after turns (orders_of self.old.orders) ≡ Some ticket
            → outcome_of result self.new
            ≡ after_front (is_past_tti_or_hidden settings.now valid_after self.old.moment) used (ExpireAccess (turns + 1)) (Evict 0)
            ticket (maintenance_of self.old) (option_copied found.entry) }
        ensures holds { HoldsIn self.new.orders self.new.phase }
    {
        let Some(entry) = found else {
            touch_front(&mut self.orders);
            self.phase = PhaseState::ExpireAccess { turns: turns + 1 };
            return EntryChange::Stays;
        };
        if is_past_tti_or_hidden(settings, valid_after, self.moment, entry) {
            remove_front(&mut self.orders);
            self.phase = PhaseState::ExpireAccess { turns: turns + 1 };
            return EntryChange::Leaves;
        }
        self.phase = PhaseState::Evict { turns: 0 };
        EntryChange::Stays
    }
}
