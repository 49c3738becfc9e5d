// The moments of a soak: those of a clock that all callers share, and now and then one that is far from it.
use crate::soak::constants::{CALLS_A_LOOK, FAR, JUMPS};
use crate::soak::draws::Draws;
use moka_common::time::Instant;
use std::alloc::{AllocError, Global};
use std::sync::Arc;
use std::sync::atomic::{AtomicU64, Ordering};

/// The clock, which goes forward by a millisecond for each call that callers are about to make.
#[derive(Drop)]
pub(crate) struct Clock {
    millis: Arc<AtomicU64, Global>,
}

impl Clock {
    /// The clock at its start.
    pub(crate) fn new(alloc: Global) -> Result<Clock, AllocError> {
        Ok(Clock {
            millis: Arc::new(alloc, AtomicU64::new(0))?,
        })
    }

    /// Returns the same clock.
    pub(crate) fn try_clone(&self) -> Result<Clock, AllocError> {
        Ok(Clock {
            millis: Arc::try_clone(&self.millis)?,
        })
    }

    /// Returns the milliseconds since the start. No moment of a call whose caller has ended is later than this by more than `FAR`.
    pub(crate) fn millis(&self) -> u64 {
        self.millis.load(Ordering::SeqCst)
    }

    /// Moves the clock forward by `CALLS_A_LOOK`, and returns what it showed before.
    fn advance(&self) -> u64 {
        self.millis.fetch_add(CALLS_A_LOOK, Ordering::SeqCst)
    }
}

/// The moments of one caller.
#[derive(Drop)]
pub(crate) struct Moments {
    clock: Clock,
    millis: u64,
    /// Calls for which it goes on by itself.
    calls: u64,
}

impl Moments {
    pub(crate) fn new(clock: Clock) -> Moments {
        Moments {
            clock,
            millis: 0,
            calls: 0,
        }
    }

    /// The moment of the next call.
    pub(crate) fn next(&mut self, draws: &mut Draws) -> Instant {
        let millis = self.next_millis();
        if draws.below(JUMPS) > 0 {
            return Instant::from_millis(millis);
        }
        let jump = draws.below(2 * FAR + 1);
        Instant::from_millis(millis.saturating_add(jump).saturating_sub(FAR))
    }

    /// Returns the next moment of the clock, in milliseconds since the start.
    fn next_millis(&mut self) -> u64 {
        if self.calls == 0 {
            self.millis = self.clock.advance();
            self.calls = CALLS_A_LOOK;
        }
        self.calls -= 1;
        self.millis = self.millis.saturating_add(1);
        self.millis
    }
}
