// A load of the index from hashes to ids, or of std's map in its place, as a whole call.
ghost use Rattle.std.specs.Prelude.{◌≡◌, ◌<◌, ◌≤◌, ◌≢◌, ℕ, [], true, length, IfSome};
ghost use Rattle.moka_list.specs.HashIndex.{candidates, is_candidate};

use crate::constants::{DONE, FIND, FIND_AND_REPLACE, OUT_OF_MEMORY, UNKNOWN_KIND};
use crate::hasher::MultiplyState;
use moka_list::hash_index::HashIndex;
use std::alloc::{AllocError, Global};
use std::collections::HashMap;

/// Makes an index over the list of hashes, plays a load on it `rounds` times over, and drops it. A round looks for all of `sought`. The sum of the ids that
/// were found, modulo 2^64, is in `sum` where the answer is `DONE`.
#[unsafe(no_mangle)]
pub extern "C" fn bench_trace_index(
    alloc: Global,
    load: u32,
    hashes: &[u64],
    sought: &[u64],
    rounds: usize,
    sum: &mut u64,
) -> u32
    ensures known { result ≤ UNKNOWN_KIND }
    ensures refused { result ≢ DONE → sum.new ≡ sum.old }
{
    if load > FIND_AND_REPLACE {
        return UNKNOWN_KIND;
    }
    let mut index = HashIndex::new(alloc);
    if index.reset(hashes.len()).is_err() {
        return OUT_OF_MEMORY;
    }
    fill(&mut index, hashes);
    let mut total = 0u64;
    for _ in 0..rounds {
        total = total.wrapping_add(match load {
            FIND => find_all(&index, hashes, sought),
            _ => replace_all(&mut index, hashes, sought),
        });
    }
    *sum = total;
    DONE
}

/// Adds the number of each hash.
fn fill(index: &mut HashIndex, hashes: &[u64])
    requires empty { (hash : ℕ) → candidates index.old hash ≡ [] }
    requires room { length hashes.now ≤ index.old.ids }
{
    for id in 0..hashes.len() {
        index.add(id, hashes[id]);
    }
}

/// The id of a hash.
#[inline]
fn find(index: &HashIndex, hashes: &[u64], hash: u64) -> Option<usize>
    ensures { IfSome result (λ id. is_candidate index.now hash id ≡ true) }
{
    index.find(hash, |id| hashes.get(id) == Some(&hash))
}

/// Looks for each hash, and sums up the ids that are found.
fn find_all(index: &HashIndex, hashes: &[u64], sought: &[u64]) -> u64 {
    let mut sum = 0u64;
    for hash in sought {
        if let Some(id) = find(index, hashes, *hash) {
            sum = sum.wrapping_add(id as u64);
        }
    }
    sum
}

/// Looks for each hash, takes the id that is found out, adds it again, and sums the ids up.
fn replace_all(index: &mut HashIndex, hashes: &[u64], sought: &[u64]) -> u64 {
    let mut sum = 0u64;
    for hash in sought {
        if let Some(id) = find(index, hashes, *hash) {
            index.remove(id, *hash);
            if id < index.ids() {
                index.add(id, *hash);
            }
            sum = sum.wrapping_add(id as u64);
        }
    }
    sum
}

/// `bench_trace_index` by std's map from hashes to ids.
#[unsafe(no_mangle)]
pub extern "C" fn bench_trace_index_by_map(
    alloc: Global,
    load: u32,
    hashes: &[u64],
    sought: &[u64],
    rounds: usize,
    sum: &mut u64,
) -> u32
    ensures known { result ≤ UNKNOWN_KIND }
    ensures refused { result ≢ DONE → sum.new ≡ sum.old }
{
    if load > FIND_AND_REPLACE {
        return UNKNOWN_KIND;
    }
    let Ok(mut map) = map_of(alloc, hashes) else {
        return OUT_OF_MEMORY;
    };
    let mut total = 0u64;
    for _ in 0..rounds {
        total = total.wrapping_add(match load {
            FIND => find_all_by_map(&map, hashes, sought),
            _ => replace_all_by_map(&mut map, hashes, sought),
        });
    }
    *sum = total;
    DONE
}

/// A map from each hash to its number.
fn map_of(alloc: Global, hashes: &[u64]) -> Result<HashMap<u64, u32, MultiplyState>, AllocError> {
    let mut map = HashMap::with_capacity_and_hasher(alloc, hashes.len(), MultiplyState)?;
    for id in 0..hashes.len() {
        if map
            .insert(hashes[id], u32::try_from(id).unwrap_or(u32::MAX))
            .is_err()
        {
            return Err(AllocError);
        }
    }
    Ok(map)
}

/// The id of a hash.
#[inline]
fn find_by_map(map: &HashMap<u64, u32, MultiplyState>, hashes: &[u64], hash: u64) -> Option<u32> {
    let id = *map.get(&hash)?;
    // As `find` does, which reads what the id names to tell it from other candidates.
    if hashes.get(id as usize) == Some(&hash) {
        return Some(id);
    }
    None
}

/// Looks for each hash, and sums up the ids that are found.
fn find_all_by_map(map: &HashMap<u64, u32, MultiplyState>, hashes: &[u64], sought: &[u64]) -> u64 {
    let mut sum = 0u64;
    for hash in sought {
        if let Some(id) = find_by_map(map, hashes, *hash) {
            sum = sum.wrapping_add(u64::from(id));
        }
    }
    sum
}

/// Looks for each hash, takes the id that is found out, adds it again, and sums the ids up.
fn replace_all_by_map(
    map: &mut HashMap<u64, u32, MultiplyState>,
    hashes: &[u64],
    sought: &[u64],
) -> u64 {
    let mut sum = 0u64;
    for hash in sought {
        if let Some(id) = find_by_map(map, hashes, *hash) {
            map.remove(hash);
            let _ = map.insert(*hash, id);
            sum = sum.wrapping_add(u64::from(id));
        }
    }
    sum
}
