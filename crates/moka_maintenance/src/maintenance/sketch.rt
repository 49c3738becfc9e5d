// The turn that asks whether to turn the sketch on.
ghost use Rattle.std.specs.Prelude.{◌≡◌, ◌≤◌, Bool};
ghost use Rattle.moka_sync_model.specs.declared.constants.TheConstants.{MAX_ROUNDS};
ghost use Rattle.moka_sync_model.specs.Phase.{MoreReads};
ghost use Rattle.moka_sync_model.specs.Turn.Turn.{load_of};
ghost use Rattle.moka_queues.specs.OrdersState.{orders_of};
ghost use Rattle.moka_common.specs.Enabling.{after_enabling};
ghost use Rattle.moka_maintenance.specs.Held.{HoldsIn, maintenance_of};

use crate::maintenance::phase::PhaseState;
use crate::maintenance::state::State;
use moka_common::frequency_sketch::enabling::Load;
use moka_sync_model::settings::Settings;
use std::alloc::Allocator;

impl<A: Allocator + Clone + Drop> State<A> {
    /// Asks for the sketch's table, if the cache is at least half full and has none. Without memory for it the sketch stays off, and is asked for
    /// again in the next round.
    pub(crate) fn ask_for_sketch<S: Drop>(&mut self, settings: &Settings<S, A>, round: usize)
        requires { round ≤ MAX_ROUNDS }
        ensures step { (refused : Bool) × (maintenance_of self.new ≡ record (maintenance_of self.old) {
          sketch = after_enabling settings.now.policy.max_capacity (load_of settings.now (orders_of self.old.orders)) refused self.old.sketch;
          phase = MoreReads round;
        }) }
        ensures holds { HoldsIn self.new.orders self.new.phase }
    {
        self.enable_sketch(settings);
        self.phase = PhaseState::MoreReads { round };
    }

    fn enable_sketch<S: Drop>(&mut self, settings: &Settings<S, A>)
        ensures { (refused : Bool) × (self.new ≡ record self.old {
          sketch = after_enabling settings.now.policy.max_capacity (load_of settings.now (orders_of self.old.orders)) refused self.old.sketch;
        }) }
    {
        let load = Load {
            is_weighed: settings.is_weighed(),
            entries: self.orders.len(),
            weight: self.orders.charged_weight(),
        };
        self.sketch
            .enable_if_half_full(settings.limits().max_capacity(), load);
    }
}
