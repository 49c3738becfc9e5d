//! The limits of a cache as its calls use them.
ghost use Rattle.std.specs.Prelude.{◌≡◌, ◌+◌, is_some, nat_le, option_map};
ghost use Rattle.std.specs.Duration.{as_nanos};
ghost use Rattle.moka_common.specs.Moment.{deadline_of, idle_expired, is_past, live_expired};
ghost use Rattle.moka_common.specs.Settings.{idle_nanos, live_nanos};

use crate::policy::Policy;
use crate::time::Instant;
use std::marker::Model;
use std::time::Duration;

/// The policy of a cache, with its durations in nanoseconds, which are worked out once. A contract sees the policy alone.
#[derive(Drop)]
pub struct Limits {
    policy: Policy,
    live: Option<u128>,
    idle: Option<u128>,
}

impl Model for Limits {
    ghost use Rattle.std.specs.Prelude.{◌≡◌};
    ghost use Rattle.moka_common.specs.Policy.{Policy as PolicyState};
    ghost use Rattle.moka_common.specs.Settings.{idle_nanos, live_nanos};

    ghost Value = { PolicyState };

    ghost view = { λ l. l.policy };

    ghost invariant = { λ l. (l.live ≡ live_nanos l.policy) × (l.idle ≡ idle_nanos l.policy) };
}

impl Limits {
    /// Works out the limits of a policy.
    pub fn new(policy: Policy) -> Limits
        ensures { result ≡ policy }
    {
        Limits {
            policy,
            live: policy.time_to_live().map(|duration| duration.as_nanos()),
            idle: policy.time_to_idle().map(|duration| duration.as_nanos()),
        }
    }

    /// Returns the policy that these are the limits of.
    #[inline]
    pub fn policy(&self) -> Policy
        ensures { result ≡ self.now }
    {
        self.policy
    }

    /// Returns the largest total weight. Without a weigher each entry weighs 1.
    #[inline]
    pub fn max_capacity(&self) -> Option<u64>
        ensures { result ≡ self.now.max_capacity }
    {
        self.policy.max_capacity()
    }

    /// Returns `true` if entries have a time to live.
    #[inline]
    pub fn has_time_to_live(&self) -> bool
        ensures { result ≡ is_some self.now.time_to_live }
    {
        self.live.is_some()
    }

    /// Returns `true` if entries have a time to idle.
    #[inline]
    pub fn has_time_to_idle(&self) -> bool
        ensures { result ≡ is_some self.now.time_to_idle }
    {
        self.idle.is_some()
    }

    /// Returns the deadline of an entry that is written at a moment, with its own time to live if it has one. It comes after that or after the cache's,
    /// whichever is shorter, and at the last moment if that is earlier. Without a time to live of the cache it never comes.
    #[inline]
    pub fn deadline(&self, own: Option<Duration>, written: Instant) -> Instant
        ensures { result ≡ deadline_of (live_nanos self.now) (option_map as_nanos own) written }
    {
        match (self.live, own) {
            (Some(live), Some(own)) => written.after_nanos(live.min(own.as_nanos())),
            (Some(live), None) => written.after_nanos(live),
            (None, _) => written,
        }
    }

    /// Returns `true` if an entry is past its deadline. It is from that moment on.
    #[inline]
    pub fn is_past(&self, deadline: Instant, now: Instant) -> bool
        ensures { result ≡ is_past (live_nanos self.now) deadline now }
    {
        self.live.is_some() && deadline <= now
    }

    /// Returns `true` if the time to live has passed since an entry's last write. It has passed from its last moment on.
    #[inline]
    pub fn is_past_ttl(&self, modified: Instant, now: Instant) -> bool
        ensures { result ≡ live_expired (live_nanos self.now) modified now }
    {
        match self.live {
            Some(nanos) => has_passed(nanos, modified, now),
            None => false,
        }
    }

    /// Returns `true` if the time to idle has passed since an entry's last access. It has passed from its last moment on.
    #[inline]
    pub fn is_idle(&self, accessed: Instant, now: Instant) -> bool
        ensures { result ≡ idle_expired (idle_nanos self.now) accessed now }
    {
        match self.idle {
            Some(nanos) => has_passed(nanos, accessed, now),
            None => false,
        }
    }
}

#[inline]
fn has_passed(nanos: u128, since: Instant, now: Instant) -> bool
    ensures { result ≡ nat_le (since + nanos) now }
{
    since <= now && nanos <= u128::from(now.nanos() - since.nanos())
}
