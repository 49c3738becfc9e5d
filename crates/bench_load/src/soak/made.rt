//! How many calls have been made.
use crate::soak::call::Kind;

/// Number of calls of each kind.
#[derive(Clone, Copy, Debug, PartialEq, Eq)]
pub struct Made {
    pub gets: u64,
    pub gets_if_present: u64,
    pub looks_for_keys: u64,
    pub inserts: u64,
    pub invalidations: u64,
    pub removals: u64,
    pub invalidations_of_all: u64,
    pub snapshots: u64,
    pub syncs: u64,
    pub counts: u64,
    pub policies: u64,
    pub clones: u64,
}

impl Made {
    /// None.
    pub const NONE: Made = Made {
        gets: 0,
        gets_if_present: 0,
        looks_for_keys: 0,
        inserts: 0,
        invalidations: 0,
        removals: 0,
        invalidations_of_all: 0,
        snapshots: 0,
        syncs: 0,
        counts: 0,
        policies: 0,
        clones: 0,
    };

    /// One more of this kind.
    pub fn add(&mut self, kind: Kind) {
        match kind {
            Kind::Get => add_one(&mut self.gets),
            Kind::GetIfPresent => add_one(&mut self.gets_if_present),
            Kind::ContainsKey => add_one(&mut self.looks_for_keys),
            Kind::Insert => add_one(&mut self.inserts),
            Kind::Invalidate => add_one(&mut self.invalidations),
            Kind::Remove => add_one(&mut self.removals),
            Kind::InvalidateAll => add_one(&mut self.invalidations_of_all),
            Kind::Iter => add_one(&mut self.snapshots),
            Kind::Sync => add_one(&mut self.syncs),
            Kind::Counts => add_one(&mut self.counts),
            Kind::Policy => add_one(&mut self.policies),
            Kind::Clone => add_one(&mut self.clones),
        }
    }

    /// These and those.
    pub fn and(&self, other: &Made) -> Made {
        Made {
            gets: self.gets.saturating_add(other.gets),
            gets_if_present: self.gets_if_present.saturating_add(other.gets_if_present),
            looks_for_keys: self.looks_for_keys.saturating_add(other.looks_for_keys),
            inserts: self.inserts.saturating_add(other.inserts),
            invalidations: self.invalidations.saturating_add(other.invalidations),
            removals: self.removals.saturating_add(other.removals),
            invalidations_of_all: self
                .invalidations_of_all
                .saturating_add(other.invalidations_of_all),
            snapshots: self.snapshots.saturating_add(other.snapshots),
            syncs: self.syncs.saturating_add(other.syncs),
            counts: self.counts.saturating_add(other.counts),
            policies: self.policies.saturating_add(other.policies),
            clones: self.clones.saturating_add(other.clones),
        }
    }

    /// Each kind's name with its number.
    pub fn rows(&self) -> [(&'static str, u64); 12] {
        [
            ("get", self.gets),
            ("get_if_present", self.gets_if_present),
            ("contains_key", self.looks_for_keys),
            ("insert", self.inserts),
            ("invalidate", self.invalidations),
            ("remove", self.removals),
            ("invalidate_all", self.invalidations_of_all),
            ("iter", self.snapshots),
            ("sync", self.syncs),
            ("entry_count and weighted_size", self.counts),
            ("policy", self.policies),
            ("clone", self.clones),
        ]
    }

    /// All of them.
    pub fn total(&self) -> u64 {
        let mut total = 0u64;
        for (_, number) in self.rows() {
            total = total.saturating_add(number);
        }
        total
    }
}

/// Adds one, up to the greatest number.
pub(crate) fn add_one(number: &mut u64) {
    *number = number.saturating_add(1);
}
