// Aging, which halves every counter of a table, four to a group: `age` in the lanes of vectors, and `age_plain` group by group. Both stand on what
// `Cells.antt` says of groups.
ghost use Rattle.std.specs.Prelude.{◌≡◌, ◌-◌, ◌*◌, ◌/◌, ◌≤◌, length, map, sum};
ghost use Rattle.moka_common.specs.Sketch.{odd_count};
ghost use Rattle.moka_common.specs.Cells.{counters_of, halved_group};
ghost use Rattle.moka_common.specs.declared.constants.TheConstants.{GROUPS_PER_WORD, MAX_TABLE_LEN};
ghost use Rattle.moka_common.specs.declared.frequency_sketch.aging.TheConstants.{BLOCK_LEN};

use std::simd::prelude::*;

/// The lowest bit of each counter.
const LOWEST_BITS: u16 = 0x1111;

/// The low three bits of each counter: what a shift by one leaves of it, without the bit that came from the next.
const HALF_BITS: u16 = 0x7777;

/// The lower counter of each byte.
const LOWER_COUNTERS: u16 = 0x0f0f;

/// The lower byte of a group.
const LOWER_BYTE: u16 = 0x00ff;

/// Groups in a vector, each in a lane.
const LANES: usize = 32;

/// Groups that are aged before their odd counters are added up. A lane counts them in counters of four bits, so it can take 15 groups at most. It takes 12,
/// since the compiler unrolls a loop of 12 steps, and none of 15.
const BLOCK_LEN: usize = 12 * LANES;

/// Ages a table of this size, and returns its new size. It runs at most once in half a sample of counts, so it is kept out of line.
#[cold]
#[inline(never)]
pub fn age_table(groups: &mut [u16], size: u32) -> u32
    requires { length groups.old ≤ GROUPS_PER_WORD * MAX_TABLE_LEN }
    ensures halved { counters_of groups.new ≡ map (λ c. c / 2) (counters_of groups.old) }
    ensures size { result ≡ size / 2 - odd_count (counters_of groups.old) / 4 }
{
    let odd = age(groups);
    aged_size(size, odd)
}

/// Halves every counter, rounded down. Returns how many were odd.
pub fn age(groups: &mut [u16]) -> u64
    requires { length groups.old ≤ GROUPS_PER_WORD * MAX_TABLE_LEN }
    ensures halved { counters_of groups.new ≡ map (λ c. c / 2) (counters_of groups.old) }
    ensures odd { result ≡ odd_count (counters_of groups.old) }
{
    let blocks = groups.len() / BLOCK_LEN;
    let mut odd = 0;
    for block in 0..blocks {
        odd += age_block(&mut groups[BLOCK_LEN * block..BLOCK_LEN * block + BLOCK_LEN]);
    }
    odd + age_block(&mut groups[BLOCK_LEN * blocks..])
}

/// Ages a block, or the rest of a table after the last whole block. It takes chunks of `LANES` groups by vectors, and the rest by the plain loop.
fn age_block(groups: &mut [u16]) -> u64
    requires { length groups.old ≤ BLOCK_LEN }
    ensures halved { groups.new ≡ map halved_group groups.old }
    ensures odd { result ≡ odd_count (counters_of groups.old) }
{
    let chunks = groups.len() / LANES;
    let mut odd = u16x32::splat(0);
    for chunk in 0..chunks {
        // A chunk is read as an array, and stored by its place: no contract could say what is written through `as_chunks_mut`.
        let lanes = u16x32::from_array(groups.as_chunks::<LANES>().0[chunk]);
        odd += lanes & u16x32::splat(LOWEST_BITS);
        let halved = (lanes >> u16x32::splat(1)) & u16x32::splat(HALF_BITS);
        halved.copy_to_slice(&mut groups[LANES * chunk..]);
    }
    sum_of_counters(odd) + age_plain(&mut groups[LANES * chunks..])
}

/// Returns the sum of all counters of a vector.
fn sum_of_counters(groups: u16x32) -> u64
    ensures { result ≡ sum (counters_of groups) }
{
    let counters = u16x32::splat(LOWER_COUNTERS);
    let of_bytes = (groups & counters) + ((groups >> u16x32::splat(4)) & counters);
    let lower = u16x32::splat(LOWER_BYTE);
    let of_groups = (of_bytes & lower) + ((of_bytes >> u16x32::splat(8)) & lower);

    // Four counters of 15 make 60, so the sum of a vector's groups is at most 1,920.
    u64::from(of_groups.reduce_sum())
}

/// Ages a table as `age` does, one group at a time.
pub fn age_plain(groups: &mut [u16]) -> u64
    requires { length groups.old ≤ GROUPS_PER_WORD * MAX_TABLE_LEN }
    ensures groups { groups.new ≡ map halved_group groups.old }
    ensures halved { counters_of groups.new ≡ map (λ c. c / 2) (counters_of groups.old) }
    ensures odd { result ≡ odd_count (counters_of groups.old) }
{
    let mut odd = 0;
    for group in groups.iter_mut() {
        odd += u64::from((*group & LOWEST_BITS).count_ones());
        *group = (*group >> 1) & HALF_BITS;
    }
    odd
}

/// Returns the size once the counters are halved. Four counters make a count, so a fourth of what rounding took away is subtracted too.
pub fn aged_size(size: u32, odd: u64) -> u32
    ensures { result ≡ size / 2 - odd / 4 }
{
    u64::from(size / 2).saturating_sub(odd / 4) as u32
}
