// The maintenance as its phases see it.
ghost use Rattle.std.specs.Prelude.{◌≡◌, ◌↔◌, IsTrue};
ghost use Rattle.moka_sync_model.specs.CoreState.{new_maintenance};
ghost use Rattle.moka_maintenance.specs.Held.{maintenance_of};

use crate::maintenance::phase::PhaseState;
use moka_common::frequency_sketch::FrequencySketch;
use moka_common::time::Instant;
use moka_queues::orders::Orders;
use moka_sync_model::published::Published;
use std::alloc::{Allocator, Global};
use std::marker::Model;

/// The parts of a maintenance, and its phase. The files of this folder have its turns, a file for each kind.
#[derive(Drop)]
pub(crate) struct State<A: Allocator + Clone + Drop = Global> {
    pub(crate) orders: Orders<A>,
    pub(crate) sketch: FrequencySketch<A>,
    pub(crate) phase: PhaseState,
    /// The moment at which it began last.
    pub(crate) moment: Instant,
    pub(crate) published: Published,
}

impl<A: Allocator + Clone + Drop> Model for State<A> {
    ghost use Rattle.moka_maintenance.specs.Held.{Held};

    ghost Value = { Held };

    ghost view = { λ s. record {
      orders = s.orders;
      sketch = s.sketch;
      phase = s.phase;
      moment = s.moment;
      published = s.published;
    } };
}

impl<A: Allocator + Clone + Drop> State<A> {
    /// Returns `true` if it is as it was built.
    pub(crate) fn is_new(&self) -> bool
        ensures { IsTrue result ↔ (maintenance_of self.now ≡ new_maintenance) }
    {
        if !self.published.is_opening() {
            return false;
        }
        if self.moment.nanos() > 0 {
            return false;
        }
        if self.sketch.table_len() > 0 {
            return false;
        }
        if self.orders.len() > 0 {
            return false;
        }
        if self.orders.oldest_write().is_some() {
            return false;
        }
        matches!(self.phase, PhaseState::Idle)
    }
}
