//! The policy of a cache, read back from it.
use std::marker::Model;
use std::time::Duration;

/// The limits of a cache, as they were set at its builder.
#[derive(Clone, Copy, Debug)]
pub struct Policy {
    max_capacity: Option<u64>,
    time_to_live: Option<Duration>,
    time_to_idle: Option<Duration>,
}

impl Model for Policy {
    ghost use Rattle.moka_common.specs.Policy.{Policy as PolicyState};

    ghost Value = { PolicyState };

    ghost view = { λ p. record { max_capacity = p.max_capacity; time_to_live = p.time_to_live; time_to_idle = p.time_to_idle } };

    ghost inverse = { λ p. record { max_capacity = p.max_capacity; time_to_live = p.time_to_live; time_to_idle = p.time_to_idle } };
}

impl Policy {
    ghost use Rattle.std.specs.Prelude.{◌≡◌, Some};

    /// Makes the policy of these limits.
    pub fn new(
        max_capacity: Option<u64>,
        time_to_live: Option<Duration>,
        time_to_idle: Option<Duration>,
    ) -> Policy
        ensures { result ≡ record { max_capacity = max_capacity; time_to_live = time_to_live; time_to_idle = time_to_idle } }
    {
        Policy {
            max_capacity,
            time_to_live,
            time_to_idle,
        }
    }

    /// Returns the same policy with this weight limit of all entries.
    pub fn with_max_capacity(self, max_capacity: u64) -> Policy
        ensures { result ≡ record self { max_capacity = Some max_capacity } }
    {
        Policy {
            max_capacity: Some(max_capacity),
            ..self
        }
    }

    /// Returns the same policy with this time to live.
    pub fn with_time_to_live(self, time_to_live: Duration) -> Policy
        ensures { result ≡ record self { time_to_live = Some time_to_live } }
    {
        Policy {
            time_to_live: Some(time_to_live),
            ..self
        }
    }

    /// Returns the same policy with this time to idle.
    pub fn with_time_to_idle(self, time_to_idle: Duration) -> Policy
        ensures { result ≡ record self { time_to_idle = Some time_to_idle } }
    {
        Policy {
            time_to_idle: Some(time_to_idle),
            ..self
        }
    }

    /// Returns the largest total weight. Without a weigher each entry weighs 1.
    pub fn max_capacity(&self) -> Option<u64>
        ensures { result ≡ self.now.max_capacity }
    {
        self.max_capacity
    }

    /// Returns how long an entry lives after its last write.
    pub fn time_to_live(&self) -> Option<Duration>
        ensures { result ≡ self.now.time_to_live }
    {
        self.time_to_live
    }

    /// Returns how long an entry lives after its last read or write.
    pub fn time_to_idle(&self) -> Option<Duration>
        ensures { result ≡ self.now.time_to_idle }
    {
        self.time_to_idle
    }
}
