//! What a maintenance keeps at some of its phases.
ghost use Rattle.std.specs.Prelude.{◌≡◌, ◌-◌};
ghost use Rattle.moka_sync_model.specs.Turn.Admission.{is_admitted, is_decided};

use crate::constants::MAX_ABSENT;
use crate::ticket::Ticket;

/// A round, and how many operations of this part of it are left.
#[derive(Clone, Copy)]
pub struct Work {
    pub round: usize,
    pub left: usize,
}

impl Work {
    /// Returns what is left of the work after one operation.
    pub fn less_one(self) -> Work
        ensures round { result.round ≡ self.round }
        ensures left { result.left ≡ self.left - 1 }
    {
        self.less(1)
    }

    /// Returns what is left of the work after `count` more operations.
    pub fn less(self, count: usize) -> Work
        ensures round { result.round ≡ self.round }
        ensures left { result.left ≡ self.left - count }
    {
        Work {
            round: self.round,
            left: self.left.saturating_sub(count),
        }
    }
}

/// An entry that asks to enter, with its weight and its estimate as they were applied.
#[derive(Clone, Copy)]
pub struct Candidate {
    pub ticket: Ticket,
    pub weight: u32,
    pub estimate: u8,
}

/// The sums of a scan: weight and estimate of the present entries, and the number of absent ones that came last in a row.
#[derive(Clone, Copy)]
pub struct Tally {
    pub weight: u64,
    pub estimate: u32,
    pub absent: usize,
}

impl Tally {
    /// Returns `true` if the scan is decided: the present entries weigh enough, or are used more, or too many in a row were absent.
    #[inline]
    pub fn decides(&self, candidate: &Candidate) -> bool
        ensures { result ≡ is_decided candidate.now self.now }
    {
        u64::from(candidate.weight) <= self.weight
            || u32::from(candidate.estimate) < self.estimate
            || MAX_ABSENT <= self.absent
    }

    /// Returns `true` if the candidate is admitted: the present entries weigh enough, and it is used more than all of them together.
    #[inline]
    pub fn admits(&self, candidate: &Candidate) -> bool
        ensures { result ≡ is_admitted candidate.now self.now }
    {
        u64::from(candidate.weight) <= self.weight && self.estimate < u32::from(candidate.estimate)
    }
}
