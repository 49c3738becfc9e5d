// Where two threads wait for each other.
use crossbeam_utils::Backoff;
use std::hint::spin_loop;
use std::sync::atomic::{AtomicBool, AtomicU64, Ordering};
use std::time::{Clock, Duration, Instant};

/// Number of looks without a pause: a thread that waits then goes on within nanoseconds of the other.
const CLOSE_LOOKS: u64 = 5000;

/// Number of looks with pauses, after which the meetings are over.
const LOOKS: u64 = 100_000_000;

/// Seconds after which the meetings are over, so that a busy machine makes fewer of them.
const SECONDS: u64 = 5;

/// A point at which two threads meet any number of times. They don't sleep, so they go on at nearly the same time.
#[derive(Drop)]
pub struct MeetingPoint {
    arrivals: AtomicU64,
    is_over: AtomicBool,
}

impl MeetingPoint {
    pub fn new() -> MeetingPoint {
        MeetingPoint {
            arrivals: AtomicU64::new(0),
            is_over: AtomicBool::new(false),
        }
    }

    /// Waits for the other thread, which comes to this meeting as well. Meetings are counted from 1 on. Returns `false` if the meetings are over: then
    /// the other thread may not have come.
    pub fn wait<R: Clock>(&self, rt: &R, begun: Instant, meeting: u64) -> bool {
        if is_late(rt, begun) {
            self.end();
        }
        self.arrivals.fetch_add(1, Ordering::SeqCst);
        for _ in 0..CLOSE_LOOKS {
            if self.have_met(meeting) {
                return !self.has_ended();
            }
            spin_loop();
        }
        let backoff = Backoff::new();
        for _ in 0..LOOKS {
            if self.have_met(meeting) || self.has_ended() {
                return !self.has_ended();
            }
            backoff.snooze();
        }
        self.end();
        false
    }

    /// Tells whether both threads have come to this meeting.
    fn have_met(&self, meeting: u64) -> bool {
        self.arrivals.load(Ordering::SeqCst) >= meeting.wrapping_mul(2)
    }

    fn end(&self) {
        self.is_over.store(true, Ordering::SeqCst);
    }

    fn has_ended(&self) -> bool {
        self.is_over.load(Ordering::SeqCst)
    }
}

/// Tells whether the time for meetings is up, or can't be read.
fn is_late<R: Clock>(rt: &R, begun: Instant) -> bool {
    match begun.elapsed(rt) {
        Ok(since) => since > Duration::from_secs(SECONDS),
        Err(_) => true,
    }
}
