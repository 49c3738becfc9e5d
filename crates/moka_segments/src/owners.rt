//! Sessions with numbers that are known.
ghost use Rattle.std.specs.Prelude.{◌≡◌, ◌+◌, IfErr, IfOk};
ghost use Rattle.moka_row.specs.Visits.{newcomer, owner};

use crate::account::Caller;
use crate::rule::{Rule, Unruled};
use crate::session::Session;
use crate::shared::Shared;
use crate::weigher::Weighing;
use moka_common::error::OutOfMemory;
use moka_common::hash::FixedState;
use moka_common::weigh::UnitWeight;
use moka_row::seats::deal;
use moka_unsync_model::listener::NoListener;
use std::hash::{BuildHasher, Hash};
use std::marker::Model;
use std::sync::Arc;

/// Hands out the sessions of owners, numbered in turn, no two alike. A cache has one, from `CacheBuilder::build_owned`. A rule may
/// say which owner writes which keys (`Rule`).
#[derive(Drop)]
pub struct Owners<
    K: Eq + Hash + Drop,
    V: Drop,
    S: BuildHasher + Drop = FixedState,
    W: Weighing<K, V> = UnitWeight,
    P: Rule<K, V> = Unruled,
> {
    pub(crate) shared: Arc<Shared<K, V, S, W, P>>,
    pub(crate) dealer: Caller<K, V, S, W>,
}

impl<K: Eq + Hash + Drop, V: Drop, S: BuildHasher + Drop, W: Weighing<K, V>, P: Rule<K, V>> Model
    for Owners<K, V, S, W, P> {
    ghost use Rattle.std.specs.Prelude.{◌≡◌, Some, []};
    ghost use Rattle.std.specs.Arc.{arc_value};
    ghost use Rattle.moka_row.specs.Visits.{Deals};
    ghost use Rattle.moka_segments.specs.Session.{Owners as OwnersValue};

    ghost Value = { OwnersValue S };

    ghost view = { λ o. record {
      cache = record { plan = (arc_value o.shared).table.shared.key; id = (arc_value o.shared).table.shared.table_id };
      next = o.dealer.me.0.by;
    } };

    ghost invariant = { λ o. (o.dealer.table_id ≡ (arc_value o.shared).table.shared.table_id) × (o.dealer.me.1 ≡ []) × (o.dealer.me.0.role ≡ Deals)
        × (o.dealer.me.0.plan ≡ Some ((arc_value o.shared).table.shared.key)) };
}

impl<K: Eq + Hash + Drop, V: Drop, S: BuildHasher + Drop, W: Weighing<K, V>, P: Rule<K, V>> Owners<
    K,
    V,
    S,
    W,
    P,
> {
    /// Returns the session of the next owner, which has seen nothing and made no call.
    pub fn session(&mut self) -> Result<Session<K, V, S, W, P>, OutOfMemory>
        ensures same { self.new.cache ≡ self.old.cache }
        ensures ok { IfOk result (λ session. (session.cache ≡ self.old.cache) × (session.knows ≡ newcomer self.old.cache.plan (owner
            self.old.next)) × (self.new.next ≡ self.old.next + 1)) }
        ensures err { IfErr result (λ error. self.new ≡ self.old) }
    {
        let shared = Arc::try_clone(&self.shared)?;
        let caller = deal(&shared.table.shared, &mut self.dealer);
        Ok(Session {
            shared,
            caller,
            listener: NoListener,
        })
    }
}
