// The moments of a play's calls: one moment for all of them, or a reading of the clock for each.
use crate::play::error::PlayError;
use moka_common::time::Instant;
use std::time::{Clock, Instant as Reading};

/// Gives each call its moment.
pub(crate) trait Moments: Copy + Send + 'static {
    /// Returns the moment of the next call.
    fn next<R: Clock>(&self, rt: &R) -> Result<Instant, PlayError>;
}

/// One moment for all calls, so that none of them reads a clock.
#[derive(Clone, Copy)]
pub(crate) struct OneMoment;

impl Moments for OneMoment {
    fn next<R: Clock>(&self, _rt: &R) -> Result<Instant, PlayError> {
        Ok(Instant::from_nanos(0))
    }
}

/// The time since a start, which each call reads from the clock.
#[derive(Clone, Copy)]
pub(crate) struct Readings {
    start: Reading,
}

impl Readings {
    /// Starts now.
    pub(crate) fn start(rt: &impl Clock) -> Result<Readings, PlayError> {
        Ok(Readings {
            start: Reading::now(rt)?,
        })
    }
}

impl Moments for Readings {
    fn next<R: Clock>(&self, rt: &R) -> Result<Instant, PlayError> {
        Ok(Instant::from_nanos(0).after(self.start.elapsed(rt)?))
    }
}
