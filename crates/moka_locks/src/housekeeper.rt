//! When a caller runs a maintenance: nobody else does, and one caller at a time.
ghost use Rattle.std.specs.Prelude.{◌≡◌, Option, ℕ, IsTrue};
ghost use Rattle.moka_sync_model.specs.CoreCall.{is_due};
ghost use Rattle.moka_sync_model.specs.declared.constants.TheConstants.{FLUSH_POINT};

use moka_common::time::Instant;
use moka_sync_model::constants::FLUSH_POINT;
use moka_sync_model::housekeeper::due_after;
pub use moka_sync_model::housekeeper::is_due;
use std::sync::atomic::{AtomicBool, AtomicU64, Ordering};

/// Says when a maintenance is due, and lets one caller at a time run it. Its calls neither wait nor take memory.
///
/// It is mini-moka's `Housekeeper`, whose `try_sync` takes a closure here. There is no due moment before the first maintenance.
///
/// A program may have one for a log of its own, with a closure that empties it. That is called if the log has ten operations, or half a second has passed
/// since it was called last:
///
/// ```
/// let is_due = keeper.should_apply(len, 10, now);
/// is_due && keeper.try_sync(now, empty)
/// ```
#[derive(Drop)]
pub struct Housekeeper {
    is_running: AtomicBool,
    /// True if there is a due moment. Each number is a moment, so none can stand for that.
    is_scheduled: AtomicBool,
    sync_after: AtomicU64,
}

impl Default for Housekeeper {
    fn default() -> Self {
        Housekeeper {
            is_running: AtomicBool::new(false),
            is_scheduled: AtomicBool::new(false),
            sync_after: AtomicU64::new(0),
        }
    }
}

impl Housekeeper {
    /// Returns `true` if a maintenance is due in a call that finds `len` operations in the read log.
    pub fn should_apply_reads(&self, len: usize, now: Instant) -> bool
        ensures { (due : Option ℕ) × (result ≡ is_due len FLUSH_POINT due now) }
    {
        self.should_apply(len, FLUSH_POINT, now)
    }

    /// Returns `true` if a maintenance is due in a call that finds `len` operations in the write log.
    pub fn should_apply_writes(&self, len: usize, now: Instant) -> bool
        ensures { (due : Option ℕ) × (result ≡ is_due len FLUSH_POINT due now) }
    {
        self.should_apply(len, FLUSH_POINT, now)
    }

    /// Returns `true` if a maintenance is due in a call that finds `len` operations in its log. It is due from the flush point on, and from the due moment on.
    pub fn should_apply(&self, len: usize, flush_point: usize, now: Instant) -> bool
        ensures { (due : Option ℕ) × (result ≡ is_due len flush_point due now) }
    {
        is_due(len, flush_point, self.sync_after(), now)
    }

    /// Calls the closure and returns `true`, unless another caller's closure is running: then it returns `false`, and drops the closure. The next
    /// maintenance is scheduled, half a second after `now`, before the closure is called.
    pub fn try_sync<F: FnOnce()>(&self, now: Instant, run: F) -> bool
        requires { F.pre run }
        ensures { IsTrue result → F.post run tt }
    {
        if !self.try_begin(now) {
            return false;
        }
        run();
        self.end();
        true
    }

    /// Wins the right to run a maintenance, and schedules the next, unless another caller has that right.
    pub(crate) fn try_begin(&self, now: Instant) -> bool {
        // A look leaves the line with all that look. An exchange, won or not, takes it from them.
        if self.is_running.load(Ordering::Acquire) {
            return false;
        }
        let won = self
            .is_running
            .compare_exchange(false, true, Ordering::AcqRel, Ordering::Acquire);
        if won.is_err() {
            return false;
        }
        let due = due_after(now);
        self.sync_after.store(due.nanos(), Ordering::Release);
        self.is_scheduled.store(true, Ordering::Release);
        true
    }

    /// Gives that right back.
    pub(crate) fn end(&self) {
        self.is_running.store(false, Ordering::Release);
    }

    /// Returns the moment from which a maintenance is due by time, if there is one.
    fn sync_after(&self) -> Option<Instant> {
        if !self.is_scheduled.load(Ordering::Acquire) {
            return None;
        }
        Some(Instant::from_nanos(self.sync_after.load(Ordering::Acquire)))
    }
}
