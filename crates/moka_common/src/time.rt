//! Moments, which callers hand in, and when an entry is expired.
ghost use Rattle.std.specs.Prelude.{◌≡◌, ◌+◌, ◌-◌, ◌*◌, ◌^◌, min, nat_le, option_map};
ghost use Rattle.std.specs.Duration.{as_nanos};
ghost use Rattle.moka_common.specs.Moment.{idle_expired, live_expired};

use std::marker::Model;
use std::time::Duration;

/// A moment, in nanoseconds from a start of the caller's choice. No call reads a clock: what was first can be handed in last. The last moment is
/// 2^64 - 1 nanoseconds after the start, more than 584 years.
///
/// std's `Instant` is what a clock said. This one is a number, so tests and replays choose their moments:
///
/// ```
/// let noon = Instant::from_secs(12 * 60 * 60);
/// let later = noon.after(Duration::from_millis(1_500));
/// ```
///
/// By a running clock the start is a moment of std's, `started = std::time::Instant::now(clock)?`, and each call is handed the time since then:
///
/// ```
/// let since = self.started.elapsed(clock)?;
/// Ok(Instant::from_secs(0).after(since))
/// ```
#[derive(Clone, Copy, Debug, PartialEq, Eq, PartialOrd, Ord, Hash)]
pub struct Instant {
    nanos: u64,
}

impl Model for Instant {
    ghost use Rattle.std.specs.Prelude.{ℕ};

    ghost Value = { ℕ };

    ghost view = { λ i. i.nanos };

    ghost inverse = { λ n. record { nanos = n } };
}

impl Instant {
    /// Returns the moment `nanos` nanoseconds after the start.
    pub fn from_nanos(nanos: u64) -> Instant
        ensures { result ≡ nanos }
    {
        Instant { nanos }
    }

    /// Returns the moment `secs` seconds after the start, or the last moment if that is later.
    pub fn from_secs(secs: u64) -> Instant
        ensures { result ≡ min (secs * 1_000_000_000) (2 ^ 64 - 1) }
    {
        Instant {
            nanos: secs.saturating_mul(1_000_000_000),
        }
    }

    /// Returns the moment `millis` milliseconds after the start, or the last moment if that is later.
    pub fn from_millis(millis: u64) -> Instant
        ensures { result ≡ min (millis * 1_000_000) (2 ^ 64 - 1) }
    {
        Instant {
            nanos: millis.saturating_mul(1_000_000),
        }
    }

    /// Returns the moment that much later, or the last moment if that is later.
    pub fn after(self, duration: Duration) -> Instant
        ensures { result ≡ min (self + as_nanos duration) (2 ^ 64 - 1) }
    {
        self.after_nanos(duration.as_nanos())
    }

    /// Returns the moment that many nanoseconds later, or the last moment if that is later.
    #[inline]
    pub fn after_nanos(self, nanos: u128) -> Instant
        ensures { result ≡ min (self + nanos) (2 ^ 64 - 1) }
    {
        let nanos = u128::from(self.nanos).saturating_add(nanos);
        Instant {
            nanos: u64::try_from(nanos).unwrap_or(u64::MAX),
        }
    }

    /// Returns the number of nanoseconds since the start.
    pub fn nanos(self) -> u64
        ensures { result ≡ self }
    {
        self.nanos
    }
}

/// Returns `true` if the time to idle has passed since an entry's last access. It has passed from its last moment on.
pub fn idle_expired(time_to_idle: Option<Duration>, accessed: Instant, now: Instant) -> bool
    ensures { result ≡ idle_expired (option_map as_nanos time_to_idle) accessed now }
{
    match time_to_idle {
        Some(duration) => has_passed(duration, accessed, now),
        None => false,
    }
}

/// Returns `true` if the time to live has passed since an entry's last write. It has passed from its last moment on.
pub fn live_expired(time_to_live: Option<Duration>, modified: Instant, now: Instant) -> bool
    ensures { result ≡ live_expired (option_map as_nanos time_to_live) modified now }
{
    match time_to_live {
        Some(duration) => has_passed(duration, modified, now),
        None => false,
    }
}

// A moment and a duration add up to less than 2^95 nanoseconds, which 128 bits hold.
fn has_passed(duration: Duration, since: Instant, now: Instant) -> bool
    ensures { result ≡ nat_le (since + as_nanos duration) now }
{
    u128::from(since.nanos) + duration.as_nanos() <= u128::from(now.nanos)
}
