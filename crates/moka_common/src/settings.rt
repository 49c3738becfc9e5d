//! Which settings a builder accepts.
ghost use Rattle.std.specs.Prelude.{◌≡◌, option_map};
ghost use Rattle.std.specs.Duration.{as_nanos};
ghost use Rattle.moka_common.specs.Settings.{duration_fault, is_too_long};

use crate::constants::LONGEST_DURATION_SECS;
use crate::error::BuildError;
use std::time::Duration;

/// Returns the first fault of a cache's durations. The time to live is tested first.
pub fn duration_fault(
    time_to_live: Option<Duration>,
    time_to_idle: Option<Duration>,
) -> Option<BuildError>
    ensures { result ≡ duration_fault (option_map as_nanos time_to_live) (option_map as_nanos time_to_idle) }
{
    if is_too_long(time_to_live) {
        return Some(BuildError::TimeToLiveTooLong);
    }
    if is_too_long(time_to_idle) {
        return Some(BuildError::TimeToIdleTooLong);
    }
    None
}

fn is_too_long(duration: Option<Duration>) -> bool
    ensures { result ≡ is_too_long (option_map as_nanos duration) }
{
    match duration {
        Some(duration) => duration.as_nanos() > u128::from(LONGEST_DURATION_SECS) * 1_000_000_000,
        None => false,
    }
}
