// The settings of the caches that are played on.
use std::time::Duration;

/// The limits of new caches.
#[derive(Clone, Copy)]
pub(crate) struct Settings {
    pub(crate) capacity: Option<u64>,
    /// Time to live and time to idle.
    pub(crate) durations: Option<Duration>,
}

impl Settings {
    /// Returns the settings of caches without limits.
    pub(crate) fn none() -> Settings {
        Settings {
            capacity: None,
            durations: None,
        }
    }
}
