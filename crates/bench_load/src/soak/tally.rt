//! What callers have met with.
ghost use Rattle.std.specs.Prelude.{◌↔◌, IsTrue};

use crate::soak::made::{Made, add_one};
use crate::soak::stamp::Stamp;
use moka_common::error::OutOfMemory;

/// The calls of one caller or of several, and what came of them.
#[derive(Clone, Copy, Debug, PartialEq, Eq)]
pub struct Tally {
    pub made: Made,
    /// Values that were found.
    pub hits: u64,
    /// Pairs of snapshots.
    pub pairs: u64,
    /// Calls refused for want of memory.
    pub refusals: u64,
    /// Values, found or in a snapshot, that named another key.
    pub wrong_values: u64,
    /// Keys that a snapshot gave twice, or that were none of the soak's.
    pub wrong_keys: u64,
    /// Policies that weren't as they were set.
    pub wrong_policies: u64,
    /// The greatest weight that was told.
    pub heaviest: u64,
}

impl Tally {
    ghost use Rattle.bench_load.specs.Sound.{HasNoFault};

    /// No call.
    pub const NOTHING: Tally = Tally {
        made: Made::NONE,
        hits: 0,
        pairs: 0,
        refusals: 0,
        wrong_values: 0,
        wrong_keys: 0,
        wrong_policies: 0,
        heaviest: 0,
    };

    /// Notes what was found of a key.
    pub fn note_found(&mut self, key: u64, found: Result<Option<Stamp>, OutOfMemory>) {
        match found {
            Ok(Some(stamp)) => {
                add_one(&mut self.hits);
                self.note_value(key, stamp);
            }
            Ok(None) => {}
            Err(_) => add_one(&mut self.refusals),
        }
    }

    /// A value that came with a key.
    pub fn note_value(&mut self, key: u64, stamp: Stamp) {
        if stamp.key != key {
            add_one(&mut self.wrong_values);
        }
    }

    /// A pair of a snapshot, and whether its key came for the first time.
    pub fn note_pair(&mut self, key: u64, stamp: Stamp, is_first: bool) {
        add_one(&mut self.pairs);
        self.note_value(key, stamp);
        if !is_first {
            add_one(&mut self.wrong_keys);
        }
    }

    /// Returns `true` if nothing was wrong.
    pub fn has_no_fault(&self) -> bool
        ensures { IsTrue result ↔ HasNoFault self.now }
    {
        self.wrong_values == 0 && self.wrong_keys == 0 && self.wrong_policies == 0
    }

    /// This and that.
    pub fn and(&self, other: &Tally) -> Tally {
        Tally {
            made: self.made.and(&other.made),
            hits: self.hits.saturating_add(other.hits),
            pairs: self.pairs.saturating_add(other.pairs),
            refusals: self.refusals.saturating_add(other.refusals),
            wrong_values: self.wrong_values.saturating_add(other.wrong_values),
            wrong_keys: self.wrong_keys.saturating_add(other.wrong_keys),
            wrong_policies: self.wrong_policies.saturating_add(other.wrong_policies),
            heaviest: self.heaviest.max(other.heaviest),
        }
    }

    /// Each number with its name.
    pub fn rows(&self) -> [(&'static str, u64); 7] {
        [
            ("hits", self.hits),
            ("pairs of snapshots", self.pairs),
            ("refusals", self.refusals),
            ("greatest weight told", self.heaviest),
            ("wrong values", self.wrong_values),
            ("wrong keys", self.wrong_keys),
            ("wrong policies", self.wrong_policies),
        ]
    }
}
