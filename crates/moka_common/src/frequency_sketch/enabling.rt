//! When a cache turns its sketch on, and for how many entries.
ghost use Rattle.std.specs.Prelude.{◌≡◌, ◌-◌, ◌^◌, Bool, min};
ghost use Rattle.moka_common.specs.Enabling.{after_enabling, expected_entries};

use super::{FrequencySketch, sketch_capacity};
use crate::error::OutOfMemory;
use std::alloc::Allocator;

/// The contents of a cache when it asks for its table.
#[derive(Clone, Copy, Debug)]
pub struct Load {
    /// The cache has a weigher.
    pub is_weighed: bool,
    pub entries: usize,
    pub weight: u128,
}

impl<A: Allocator + Clone + Drop> FrequencySketch<A> {
    /// Makes the table, if there is none and the cache is at least half full. It is made for as many entries as the limit lets in. Without memory for it the
    /// sketch stays off, and can be asked for again.
    pub fn enable_if_half_full(&mut self, max_capacity: Option<u64>, load: Load)
        ensures { (refused : Bool) × (self.new ≡ after_enabling max_capacity load refused self.old) }
    {
        let Some(limit) = max_capacity else {
            return;
        };
        if self.table_len() == 0 && load.weight >= u128::from(limit / 2) {
            let _ = self.ensure_capacity(sketch_capacity(expected_entries(limit, load)));
        }
    }
}

impl<A: Allocator + Clone + Drop> FrequencySketch<A> {
    /// Reserves the table that `enable_if_half_full` makes for this limit, if this many entries fill half of it, each with a weight of 1.
    pub fn reserve_if_half_full(
        &mut self,
        max_capacity: Option<u64>,
        entries: usize,
    ) -> Result<(), OutOfMemory>
        ensures { self.new ≡ self.old }
    {
        match max_capacity {
            Some(limit) if 0 < entries && limit / 2 <= entries as u64 => {
                self.reserve(sketch_capacity(limit))
            }
            _ => Ok(()),
        }
    }
}

/// Returns the number of entries that fit at the present mean weight, at most the largest number of 64 bits.
fn expected_entries(limit: u64, load: Load) -> u64
    ensures { result ≡ min (2 ^ 64 - 1) (expected_entries load.is_weighed limit load.entries load.weight) }
{
    if !load.is_weighed {
        return limit;
    }
    if limit == 0 {
        return 0;
    }
    let weight = load.weight.min(u128::from(u64::MAX));
    let entries = load.entries as u128 * weight / u128::from(limit);
    u64::try_from(entries).unwrap_or(u64::MAX)
}
