//! The rule of published counts: there is one list of them, which only grows, and the cell has the newest.
ghost use Rattle.std.specs.Prelude.{◌≡◌, true, false, [], ◌∷◌, List};
ghost use Rattle.moka_guards.specs.Log.{IsChain, IsLog, IsSuffix};
ghost use Rattle.moka_sync_model.specs.Published.{opening};
ghost use Rattle.moka_guards.specs.Log.{Known as KnownValue};

use atomic_table::Split;
use crossbeam_utils::rule::{Outcome, Protocol};
use moka_sync_model::published::Published;
use std::marker::Model;

/// A pass's knowledge of the list. No value of it is made.
pub struct Known;

impl Model for Known {
    ghost Value = { KnownValue };

    ghost view = { λ _. record { publishes = false; seen = [] } };
}

/// The rule.
pub struct Growing;

impl Protocol<Published, Known> for Growing {
    ghost holds = { IsLog };

    ghost first = { record { publishes = true; seen = opening ∷ [] } };
}

/// The publisher puts one more on the list.
pub(crate) struct Publishes;

impl Outcome<Published, Known> for Publishes {
    ghost then = { λ v x y w. w ≡ record { publishes = true; seen = y ∷ v.seen } };
}

/// A pass sees the newest.
pub(crate) struct Sees;

impl Outcome<Published, Known> for Sees {
    ghost then = { λ v x y w. (w.publishes ≡ v.publishes) × ((older : List _) × (w.seen ≡ x ∷ older)) × IsSuffix v.seen w.seen
        × IsChain w.seen };
}

/// A pass gives what it has seen to another.
pub(crate) struct Tells;

impl Split<Known> for Tells {
    ghost left = { λ v. v };

    ghost right = { λ v. record { publishes = false; seen = v.seen } };
}
