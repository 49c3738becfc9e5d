//! What a core is built for.
ghost use Rattle.std.specs.Prelude.{◌≡◌};

use moka_common::limits::Limits;
use moka_common::policy::Policy;
use moka_common::shared::Shared;
use std::alloc::{Allocator, Global};
use std::marker::Model;

/// The hash state, which all shards share, the limits, and whether a weigher was given.
#[derive(Drop)]
pub struct Settings<S: Drop, A: Allocator + Drop = Global> {
    hash_state: Shared<S, A>,
    limits: Limits,
    is_weighed: bool,
}

impl<S: Drop, A: Allocator + Drop> Model for Settings<S, A> {
    ghost use Rattle.moka_common.specs.Settings.{Settings as SettingsState};

    ghost Value = { SettingsState S };

    ghost view = { λ s. record { hash_state = s.hash_state; policy = s.limits; is_weighed = s.is_weighed } };
}

impl<S: Drop, A: Allocator + Drop> Settings<S, A> {
    pub fn new(hash_state: Shared<S, A>, policy: Policy, is_weighed: bool) -> Self
        ensures { result ≡ record { hash_state = hash_state; policy = policy; is_weighed = is_weighed } }
    {
        Settings {
            hash_state,
            limits: Limits::new(policy),
            is_weighed,
        }
    }

    #[inline]
    pub fn hash_state(&self) -> &Shared<S, A>
        ensures { result.now ≡ self.now.hash_state }
    {
        &self.hash_state
    }

    /// Returns the limits of its policy.
    #[inline]
    pub fn limits(&self) -> &Limits
        ensures { result.now ≡ self.now.policy }
    {
        &self.limits
    }

    #[inline]
    pub fn is_weighed(&self) -> bool
        ensures { result ≡ self.now.is_weighed }
    {
        self.is_weighed
    }
}

/// The parts of a new core, with capacity for `capacity` entries in each shard.
#[derive(Drop)]
pub struct CoreParts<S: Drop, W: Drop> {
    pub hash_state: S,
    pub policy: Policy,
    pub is_weighed: bool,
    pub weigher: W,
    pub capacity: usize,
}
