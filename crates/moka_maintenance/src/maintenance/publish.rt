// The end of a maintenance: the counts are published.
ghost use Rattle.std.specs.Prelude.{◌≡◌};
ghost use Rattle.moka_sync_model.specs.Phase.{Idle};
ghost use Rattle.moka_sync_model.specs.Turn.Turn.{next_published};
ghost use Rattle.moka_maintenance.specs.Held.{HoldsIn, maintenance_of};

use crate::maintenance::phase::PhaseState;
use crate::maintenance::state::State;
use moka_sync_model::published::Published;
use std::alloc::Allocator;

impl<A: Allocator + Clone + Drop> State<A> {
    /// Publishes the counts, and ends the maintenance.
    pub(crate) fn publish(&mut self)
        ensures step { maintenance_of self.new
            ≡ record (maintenance_of self.old) { phase = Idle; published = next_published (maintenance_of self.old) } }
        ensures holds { HoldsIn self.new.orders self.new.phase }
    {
        self.published = Published {
            number: self.published.number.saturating_add(1),
            count: self.orders.len() as u64,
            weight: u64::try_from(self.orders.charged_weight()).unwrap_or(u64::MAX),
        };
        self.phase = PhaseState::Idle;
    }
}
