//! Estimates how often hashes were counted recently, in counters of four bits: admission goes by it.
ghost use Rattle.std.specs.Prelude.{◌≡◌, ◌<◌, ◌≤◌, IsOk, OnOk, OnErr};
ghost use Rattle.moka_common.specs.Sketch.{IsSketch, after_increment, estimate, index_of};
ghost use Rattle.moka_common.specs.SketchCapacity.{after_ensure_capacity, sample_size_for, sketch_capacity, table_len, table_len_for};
ghost use Rattle.moka_common.specs.declared.constants.TheConstants.{DEPTHS, MAX_FREQUENCY, MAX_TABLE_LEN};

use crate::constants::{
    GROUPS_PER_WORD, MAX_SAMPLE_SIZE, MAX_TABLE_LEN, MIN_SKETCH_CAPACITY, SAMPLE_FACTOR,
};
use crate::error::OutOfMemory;
use spare::Spare;
use std::alloc::{Allocator, Global};
use std::marker::Model;

pub(crate) mod aging;
mod cells;
pub mod enabling;
mod spare;

/// Counters for hashes. It has no table, and counts nothing, until `ensure_capacity` makes one.
///
/// A hash has one counter at each of four depths, and its frequency is the least of them: it is counted right, or too high where other hashes
/// count the same four. Once the counts make a sample, every counter is halved, so what was used often long ago gives way to what is used now.
/// `laws` has what follows from the contracts.
///
/// It is Caffeine's `FrequencySketch`, by Ben Manes: the count-min sketch of *TinyLFU: A Highly Efficient Cache Admission Policy*, by Einziger,
/// Friedman and Manes, in 4 bits a counter.
#[derive(Drop)]
pub struct FrequencySketch<A: Allocator + Clone + Drop = Global> {
    /// Groups of four counters, `GROUPS_PER_WORD` a word.
    table: Vec<u16, A>,
    sample_size: u32,
    size: u32,
    /// The memory for the next table, allocated by `reserve`.
    spare: Spare<A>,
}

impl<A: Allocator + Clone + Drop> Model for FrequencySketch<A> {
    ghost use Rattle.std.specs.Prelude.{Option};
    ghost use Rattle.moka_common.specs.Sketch.{Table};
    ghost use Rattle.moka_common.specs.Cells.{unpacked, IsPacked};

    ghost Value = { Option Table };

    ghost view = { λ s. unpacked s.table.items s.sample_size s.size };

    ghost invariant = { λ s. IsPacked s.table.items s.sample_size s.size };
}

impl<A: Allocator + Clone + Drop> FrequencySketch<A> {
    /// Makes a sketch with no table, which keeps the allocator for one. It allocates nothing.
    pub fn default(alloc: A) -> FrequencySketch<A>
        ensures { result ≡ None }
    {
        FrequencySketch {
            table: Vec::new(alloc),
            sample_size: 0,
            size: 0,
            spare: Spare::none(),
        }
    }

    /// Makes a table for `cap` entries, if there is no table as long. It has one word of 8 bytes an entry, rounded up to a power of two, and at most 8 GiB. A
    /// longer table is made anew, with all counts lost, in time linear in its length.
    pub fn ensure_capacity(&mut self, cap: u32) -> Result<(), OutOfMemory>
        ensures ok { OnOk result (self.new ≡ after_ensure_capacity self.old cap) }
        ensures err { OnErr result (self.new ≡ self.old) }
        ensures succeeds { table_len_for cap ≤ table_len self.old → IsOk result }
    {
        let len = wanted_len(cap);
        if len <= self.table_len() {
            return Ok(());
        }

        // The new table comes first: a refusal leaves the old one.
        let alloc = self.table.allocator().clone()?;
        self.table = self.spare.take_or_allocate(alloc, GROUPS_PER_WORD * len)?;
        self.sample_size = wanted_sample_size(cap);
        self.size = 0;
        Ok(())
    }

    /// Allocates the counters of a table for `cap` entries. The next `ensure_capacity` of as many allocates nothing, and takes constant time.
    pub fn reserve(&mut self, cap: u32) -> Result<(), OutOfMemory>
        ensures { self.new ≡ self.old }
    {
        let alloc = self.table.allocator().clone()?;
        self.spare
            .allocate(alloc, GROUPS_PER_WORD * wanted_len(cap))
    }

    /// Estimates how often the hash was counted recently, from 0 to 15. It reads four words, with a multiplication each.
    pub fn frequency(&self, hash: u64) -> u8
        ensures value { result ≡ estimate self.now hash }
        ensures within { result ≤ MAX_FREQUENCY }
    {
        if self.table.is_empty() {
            return 0;
        }
        cells::frequency(&self.table, hash)
    }

    /// Counts the hash. It stores four words, with a multiplication each, whether or not their counters grow: no branch depends on a counter. It
    /// stores every word when the table ages, at most once in half a sample of counts.
    pub fn increment(&mut self, hash: u64)
        ensures step { self.new ≡ after_increment self.old hash }
    {
        if self.table.is_empty() {
            return;
        }
        let groups = self.table.as_mut_slice();
        self.size += u32::from(cells::increment(groups, hash));
        if self.size >= self.sample_size {
            self.size = aging::age_table(groups, self.size);
        }
    }

    /// Returns the number of words of the table, or 0 without a table. It also says what holds of every sketch.
    pub fn table_len(&self) -> usize
        ensures value { result ≡ table_len self.now }
        ensures sketch { IsSketch self.now }
    {
        self.table.len() / GROUPS_PER_WORD
    }

    /// Returns the word that has the hash's counter at this depth. There must be a table: `table_len` is the test.
    pub fn index_of(&self, hash: u64, depth: u8) -> usize
        requires table { 0 < table_len self.now }
        requires depth { depth < DEPTHS }
        ensures value { result ≡ index_of (table_len self.now) hash depth }
        ensures within { result < table_len self.now }
    {
        cells::index_of(self.table_len(), hash, depth as usize)
    }
}

/// Returns the length of the table for a cache of this capacity, in words.
fn wanted_len(cap: u32) -> usize
    ensures value { result ≡ table_len_for cap }
    ensures within { result ≤ MAX_TABLE_LEN }
{
    (cap.min(MAX_TABLE_LEN) as usize).next_power_of_two()
}

/// Returns the number of counts in a sample of a cache of this capacity.
fn wanted_sample_size(cap: u32) -> u32
    ensures { result ≡ sample_size_for cap }
{
    let entries = u64::from(cap.clamp(1, MAX_TABLE_LEN));
    (entries * SAMPLE_FACTOR).min(MAX_SAMPLE_SIZE) as u32
}

/// Returns the capacity to ask of the sketch, for a cache with a limit of `x` entries.
fn sketch_capacity(x: u64) -> u32
    ensures { result ≡ sketch_capacity x }
{
    x.clamp(MIN_SKETCH_CAPACITY, u64::from(u32::MAX)) as u32
}
