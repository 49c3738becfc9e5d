// Calls of two threads that begin together, again and again.
use crate::shared::meeting_point::MeetingPoint;
use moka_common::time::Instant;
use moka_locks::housekeeper::Housekeeper;
use moka_sync::cache::Cache;
use std::hint::spin_loop;
use std::sync::Wait;
use std::sync::atomic::{AtomicBool, Ordering};
use std::test::Fail;
use std::thread::join;
use std::time::{Clock, Instant as Reading};

/// How often the two threads begin together at most.
const ROUNDS: u64 = 20_000;

/// Hints to the processor for which a maintenance lasts.
const STAY: u64 = 50;

/// A housekeeper, and what the maintenances that it runs see of each other.
#[derive(Drop)]
struct Watched {
    keeper: Housekeeper,
    is_inside: AtomicBool,
    have_met: AtomicBool,
}

impl Watched {
    /// Stays for a while, and notes whether another thread is inside.
    fn stay(&self) {
        if self.is_inside.swap(true, Ordering::SeqCst) {
            self.have_met.store(true, Ordering::SeqCst);
        }
        for _ in 0..STAY {
            spin_loop();
        }
        self.is_inside.store(false, Ordering::SeqCst);
    }

    /// Tries to run a maintenance in each round. Returns the number of tries, and of maintenances.
    fn try_often<R: Clock>(&self, rt: &R, begun: Reading, point: &MeetingPoint) -> (u64, u64) {
        let (mut tries, mut runs) = (0u64, 0u64);
        for round in 1..=ROUNDS {
            if !point.wait(rt, begun, round) {
                break;
            }
            tries = tries.saturating_add(1);
            if self.keeper.try_sync(Instant::from_nanos(0), || self.stay()) {
                runs = runs.saturating_add(1);
            }
        }
        (tries, runs)
    }
}

#[test]
fn two_callers_never_run_a_maintenance_together(rt: HostRuntime) -> Result<(), Fail> {
    let begun = Reading::now(&rt)?;
    let point = MeetingPoint::new();
    let watched = Watched {
        keeper: Housekeeper::default(),
        is_inside: AtomicBool::new(false),
        have_met: AtomicBool::new(false),
    };
    let (first, second) = join(
        &rt,
        || watched.try_often(&rt, begun, &point),
        || watched.try_often(&rt, begun, &point),
    );
    assert!(rt; !watched.have_met.load(Ordering::SeqCst));
    // In each round of both threads, one of them isn't refused.
    assert!(rt; first.1.saturating_add(second.1) >= first.0.min(second.0));
    Ok(())
}

/// The earlier of the two moments of a round, and the one at which its entry was inserted.
fn early(round: u64) -> Instant {
    Instant::from_nanos(round.wrapping_mul(2))
}

/// The later one.
fn late(round: u64) -> Instant {
    Instant::from_nanos(round.wrapping_mul(2).wrapping_add(1))
}

/// The meeting before the invalidations of a round, or after them.
fn meeting(round: u64, is_after: bool) -> u64 {
    round.wrapping_mul(2).wrapping_sub(u64::from(!is_after))
}

/// Invalidates all by the earlier moment of each round.
fn invalidate_early<R: Clock>(
    rt: &R,
    begun: Reading,
    cache: &Cache<u64, u64>,
    point: &MeetingPoint,
) {
    for round in 1..=ROUNDS {
        if !point.wait(rt, begun, meeting(round, false)) {
            break;
        }
        cache.invalidate_all(early(round));
        if !point.wait(rt, begun, meeting(round, true)) {
            break;
        }
    }
}

/// Invalidates all by the later moment of each round. Returns whether the entry of each round is hidden then.
fn invalidate_late<R: Wait + Clock>(
    rt: &R,
    begun: Reading,
    cache: &Cache<u64, u64>,
    point: &MeetingPoint,
) -> bool {
    let mut are_hidden = true;
    for round in 1..=ROUNDS {
        are_hidden &= cache.insert(rt, 0, round, early(round)).is_ok();
        if !point.wait(rt, begun, meeting(round, false)) {
            break;
        }
        cache.invalidate_all(late(round));
        if !point.wait(rt, begun, meeting(round, true)) {
            break;
        }
        are_hidden &= !cache.contains_key(rt, &0, late(round));
    }
    are_hidden
}

#[test]
fn the_later_of_two_invalidations_counts(rt: HostRuntime) -> Result<(), Fail> {
    let begun = Reading::now(&rt)?;
    let point = MeetingPoint::new();
    let cache: Cache<u64, u64> = Cache::builder(rt.alloc()).build()?;
    let (_, are_hidden) = join(
        &rt,
        || invalidate_early(&rt, begun, &cache, &point),
        || invalidate_late(&rt, begun, &cache, &point),
    );
    assert!(rt; are_hidden);
    Ok(())
}
