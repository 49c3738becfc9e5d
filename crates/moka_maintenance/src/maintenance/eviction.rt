// The turns that evict entries while more is charged than the limit.
ghost use Rattle.std.specs.Prelude.{◌≡◌, ◌<◌, ◌+◌, IsSome, Some, option_copied};
ghost use Rattle.moka_sync_model.specs.declared.constants.TheConstants.{SYNC_BATCH_SIZE};
ghost use Rattle.moka_sync_model.specs.Turn.Expiry.{after_eviction, eviction_front};
ghost use Rattle.moka_queues.specs.OrdersState.{orders_of};
ghost use Rattle.moka_maintenance.specs.Fronts.{front_of};
ghost use Rattle.moka_maintenance.specs.Held.{HoldsIn, maintenance_of, outcome_of};

use crate::maintenance::fronts::{front_ticket, remove_front, touch_front, touch_front_both};
use crate::maintenance::phase::PhaseState;
use crate::maintenance::state::State;
use crate::maintenance::writes::is_within;
use moka_sync_model::constants::SYNC_BATCH_SIZE;
use moka_sync_model::entry::{Entry, EntryChange};
use moka_sync_model::settings::Settings;
use moka_sync_model::ticket::Ticket;
use std::alloc::Allocator;

impl<A: Allocator + Clone + Drop> State<A> {
    /// Returns the ticket at the front of the access order, if the eviction takes a turn at it: more is charged than the limit.
    pub(crate) fn eviction_front<S: Drop>(
        &self,
        settings: &Settings<S, A>,
        turns: usize,
    ) -> Option<Ticket>
        ensures { result ≡ eviction_front settings.now turns (orders_of self.now.orders) }
    {
        let is_full = !is_within(settings.limits(), self.orders.charged_weight());
        if is_full && turns < SYNC_BATCH_SIZE {
            return front_ticket(&self.orders);
        }
        None
    }

    /// Takes a turn of the eviction. An entry with an outstanding upsert isn't evicted, since it is about to be touched.
    pub(crate) fn evict<K: Drop, V: Drop>(
        &mut self,
        turns: usize,
        found: Option<&Entry<K, V, A>>,
    ) -> EntryChange
        requires below { turns < SYNC_BATCH_SIZE }
        requires front { IsSome (front_of self.old.orders) }
        ensures step { (ticket : Ticket) → front_of self.old.orders ≡ Some ticket
            → outcome_of result self.new ≡ after_eviction turns ticket (maintenance_of self.old) (option_copied found.entry) }
        ensures holds { HoldsIn self.new.orders self.new.phase }
    {
        self.phase = PhaseState::Evict { turns: turns + 1 };
        let Some(entry) = found else {
            touch_front(&mut self.orders);
            return EntryChange::Stays;
        };
        if entry.outstanding() > 0 {
            touch_front_both(&mut self.orders);
            return EntryChange::Stays;
        }
        remove_front(&mut self.orders);
        EntryChange::Leaves
    }
}
