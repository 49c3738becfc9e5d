// A batch of counts and of look-ups of the sketch, or of agings of a table, as a whole call.
ghost use Rattle.std.specs.Prelude.{◌≡◌, ◌*◌, ◌≤◌, ◌≢◌, IfOk, length};
ghost use Rattle.moka_common.specs.declared.constants.TheConstants.{GROUPS_PER_WORD};

use crate::constants::{DONE, IN_LANES, ORDER, OUT_OF_MEMORY, UNKNOWN_KIND, WORD_BY_WORD};
use moka_common::constants::{GROUPS_PER_WORD, MAX_TABLE_LEN};
use moka_common::frequency_sketch::FrequencySketch;
use moka_common::{age, age_plain, aged_size};
use std::alloc::{AllocError, Global};

/// Makes a sketch for `capacity` entries, counts all hashes `counts` times over, and then reads their frequencies `reads` times over. The sum of what
/// was read, modulo 2^64, is in `sum` where the answer is `DONE`.
#[unsafe(no_mangle)]
pub extern "C" fn bench_trace_sketch(
    alloc: Global,
    capacity: u32,
    hashes: &[u64],
    counts: usize,
    reads: usize,
    sum: &mut u64,
) -> u32
    ensures known { result ≤ OUT_OF_MEMORY }
    ensures refused { result ≢ DONE → sum.new ≡ sum.old }
{
    let mut sketch = FrequencySketch::default(alloc);
    if sketch.ensure_capacity(capacity).is_err() {
        return OUT_OF_MEMORY;
    }
    for _ in 0..counts {
        count_all(&mut sketch, hashes);
    }
    let mut total = 0u64;
    for _ in 0..reads {
        total = total.wrapping_add(sum_of(&sketch, hashes));
    }
    *sum = total;
    DONE
}

/// Counts each hash.
fn count_all(sketch: &mut FrequencySketch, hashes: &[u64]) {
    for hash in hashes {
        sketch.increment(*hash);
    }
}

/// The sum of the frequencies of all hashes, modulo 2^64.
fn sum_of(sketch: &FrequencySketch, hashes: &[u64]) -> u64 {
    let mut sum = 0u64;
    for hash in hashes {
        sum = sum.wrapping_add(u64::from(sketch.frequency(*hash)));
    }
    sum
}

/// Makes a table of these words, and ages it `agings` times over. The sizes that follow from how many counters were odd, the first from `u32::MAX`, are
/// summed up by their order in `sum`, modulo 2^64, where the answer is `DONE`.
#[unsafe(no_mangle)]
pub extern "C" fn bench_trace_aging(
    alloc: Global,
    load: u32,
    words: &[u64],
    agings: usize,
    sum: &mut u64,
) -> u32
    ensures known { result ≤ UNKNOWN_KIND }
    ensures refused { result ≢ DONE → sum.new ≡ sum.old }
{
    if load > WORD_BY_WORD || words.len() > MAX_TABLE_LEN as usize {
        return UNKNOWN_KIND;
    }
    let Ok(mut table) = groups_of(alloc, words) else {
        return OUT_OF_MEMORY;
    };
    let table = table.as_mut_slice();
    let mut size = u32::MAX;
    let mut total = 0u64;
    for _ in 0..agings {
        let odd = match load {
            IN_LANES => age(table),
            _ => age_plain(table),
        };
        size = aged_size(size, odd);
        total = total.wrapping_mul(ORDER).wrapping_add(u64::from(size));
    }
    *sum = total;
    DONE
}

/// The groups of these words, of which the first has the lowest bits.
fn groups_of(alloc: Global, words: &[u64]) -> Result<Vec<u16>, AllocError>
    ensures { IfOk result (λ groups. length groups.items ≡ GROUPS_PER_WORD * length words.now) }
{
    let mut groups = vec![in alloc; 0u16; GROUPS_PER_WORD * words.len()]?;
    for (i, group) in groups.iter_mut().enumerate() {
        *group = (words[i / GROUPS_PER_WORD] >> (16 * (i % GROUPS_PER_WORD)) & 0xffff) as u16;
    }
    Ok(groups)
}
