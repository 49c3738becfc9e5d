// The counters of a hash in a table's groups, four a group, of which that of depth 0 is in the lowest bits. It stands on what `Cells.antt` says of groups.
ghost use Rattle.std.specs.Prelude.{◌≡◌, ◌<◌, slice_index, nat_lt};
ghost use Rattle.std.specs.Int.{IsPowerOfTwo};
ghost use Rattle.moka_common.specs.Sketch.{cell, estimate_in, grown_at, grows_in, incremented_counters, index_of, position_of};
ghost use Rattle.moka_common.specs.Cells.{counters_of, slot_count};
ghost use Rattle.moka_common.specs.declared.constants.TheConstants.{DEPTHS, MAX_FREQUENCY};

use crate::constants::{COUNTER_BITS, DEPTHS, GROUPS_PER_WORD, MAX_FREQUENCY};

/// A full counter.
const FULL: u16 = MAX_FREQUENCY as u16;

/// The seeds that the depths mix into a hash: those of Caffeine's sketch, large numbers from CityHash and FNV-1a.
const SEEDS: [u64; DEPTHS] = [
    0xc3a5c85c97cb3127,
    0xb492b66fbe98f273,
    0x9ae16a3b2f90404f,
    0xcbf29ce484222325,
];

/// Returns the index of a hash's word at a depth, in a table of `len` words. It multiplies once.
pub fn index_of(len: usize, hash: u64, depth: usize) -> usize
    requires len { IsPowerOfTwo len }
    requires depth { depth < DEPTHS }
    ensures value { result ≡ index_of len hash depth }
    ensures within { result < len }
{
    let seed = SEEDS[depth];
    let mixed = hash.wrapping_add(seed).wrapping_mul(seed);

    // The high half is mixed best, and the mask below keeps low bits alone.
    let spread = mixed.wrapping_add(mixed >> 32);
    (spread & (len as u64 - 1)) as usize
}

/// Returns the least of the hash's counters.
pub fn frequency(groups: &[u16], hash: u64) -> u8
    requires { IsPowerOfTwo (slot_count groups.now) }
    ensures { result ≡ estimate_in (slot_count groups.now) (counters_of groups.now) hash }
{
    let mut least = FULL;
    for depth in 0..DEPTHS {
        least = least.min(counter_at(groups, hash, depth));
    }
    least as u8
}

/// Adds one to each of the hash's counters that is below the most. Returns whether one was.
pub fn increment(groups: &mut [u16], hash: u64) -> bool
    requires { IsPowerOfTwo (slot_count groups.old) }
    ensures counters { counters_of groups.new
        ≡ incremented_counters (slot_count groups.old) (counters_of groups.old) hash }
    ensures grew { result ≡ grows_in (slot_count groups.old) (counters_of groups.old) hash }
{
    let mut grew = false;
    for depth in 0..DEPTHS {
        grew |= grow(groups, hash, depth);
    }
    grew
}

/// Returns the hash's counter at a depth.
fn counter_at(groups: &[u16], hash: u64, depth: usize) -> u16
    requires groups { IsPowerOfTwo (slot_count groups.now) }
    requires depth { depth < DEPTHS }
    ensures { let at = position_of (cell (slot_count groups.now) hash depth) in
        result ≡ slice_index (counters_of groups.now) at }
{
    let word = index_of(groups.len() / GROUPS_PER_WORD, hash, depth);
    let group = groups[GROUPS_PER_WORD * word + (hash % 4) as usize];
    (group >> (COUNTER_BITS * depth)) & FULL
}

/// Adds one to the hash's counter at a depth, if that is below the most. Returns whether it was.
fn grow(groups: &mut [u16], hash: u64, depth: usize) -> bool
    requires groups { IsPowerOfTwo (slot_count groups.old) }
    requires depth { depth < DEPTHS }
    ensures counters { let at = position_of (cell (slot_count groups.old) hash depth) in
        counters_of groups.new ≡ grown_at (counters_of groups.old) at }
    ensures grew { let at = position_of (cell (slot_count groups.old) hash depth) in
        result ≡ nat_lt (slice_index (counters_of groups.old) at) MAX_FREQUENCY }
{
    let word = index_of(groups.len() / GROUPS_PER_WORD, hash, depth);
    let index = GROUPS_PER_WORD * word + (hash % 4) as usize;
    let group = groups[index];
    let shift = COUNTER_BITS * depth;
    let count = (group >> shift) & FULL;
    let grows = count < FULL;
    groups[index] = group + (u16::from(grows) << shift);
    grows
}
