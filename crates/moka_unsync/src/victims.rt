// Which entries of main give way to a new one: the size-aware TinyLFU of Caffeine.
ghost use Rattle.std.specs.Prelude.{◌≡◌, ◌<◌, ◌≤◌, ◌-◌, ◌+◌, ◌^◌, ◌⊎◌, Some};
ghost use Rattle.std.specs.List.{IsDistinct};
ghost use Rattle.moka_common.specs.Admission.{outvoted};
ghost use Rattle.moka_common.specs.Prefix.{shortest_prefix};
ghost use Rattle.moka_common.specs.Sketch.{estimate};
ghost use Rattle.moka_unsync_model.specs.Contents.{entry_keys, is_window, main_of, total_weight};
ghost use Rattle.moka_unsync_model.specs.Shares.{main_limit};
ghost use Rattle.moka_unsync_model.specs.Told.{IsAbove};
ghost use Rattle.moka_unsync_model.specs.Window.{victims_of};
ghost use Rattle.moka_store.specs.Store.{entries_of};
ghost use Rattle.moka_unsync.specs.Turns.{counted};

use moka_common::frequency_sketch::FrequencySketch;
use moka_store::store::Store;
use moka_unsync_model::entry::{Entry, Part};
use moka_unsync_model::shares::PartLimits;
use std::alloc::Allocator;

/// Returns the number of LRU entries of main to evict for `new`, or `None` if it is rejected.
#[inline]
pub(crate) fn victim_count<K: Eq + Drop, V: Drop, A: Allocator + Clone + Drop>(
    store: &Store<K, V, A>,
    limit: Option<u64>,
    sketch: &FrequencySketch<A>,
    new: &Entry<K, V>,
) -> Option<usize>
    ensures victims { counted (main_of (entries_of store.now)) result ≡ victims_of limit sketch.now new.now (main_of (entries_of store.now)) }
    ensures above { (result ≡ Some 0) ⊎ IsAbove limit (total_weight (main_of (entries_of store.now)) + new.now.weight) }
{
    let Some(limit) = limit else {
        return Some(0);
    };
    if main_weight(store) + u64::from(new.weight) <= limit {
        return Some(0);
    }
    if u64::from(new.weight) > limit {
        return None;
    }
    victims_outweighed_by(store, sketch, new)
}

/// Returns the number of LRU entries of main to evict for `new`, or `None` if it isn't used more often than all of them together.
fn victims_outweighed_by<K: Eq + Drop, V: Drop, A: Allocator + Clone + Drop>(
    store: &Store<K, V, A>,
    sketch: &FrequencySketch<A>,
    new: &Entry<K, V>,
) -> Option<usize>
    ensures { counted (main_of (entries_of store.now)) result
        ≡ outvoted (λ e. e.weight) (λ e. estimate sketch.now e.hash) (estimate sketch.now new.now.hash)
        (shortest_prefix (λ e. e.weight) new.now.weight (main_of (entries_of store.now))) }
{
    let candidate = sketch.frequency(new.hash);
    if candidate == 0 {
        return None;
    }
    if let Some(id) = store.front() {
        let victim = store.get(id);
        // Nearly always main's first entry is heavy enough alone.
        if 0 < new.weight && new.weight <= victim.weight && !is_windowed(victim) {
            if candidate <= sketch.frequency(victim.hash) {
                return None;
            }
            return Some(1);
        }
    }
    several_outweighed_by(store, sketch, new, candidate)
}

/// Does what `victims_outweighed_by` does for any number of victims. `candidate` is the new entry's frequency.
#[cold]
#[inline(never)]
fn several_outweighed_by<K: Eq + Drop, V: Drop, A: Allocator + Clone + Drop>(
    store: &Store<K, V, A>,
    sketch: &FrequencySketch<A>,
    new: &Entry<K, V>,
    candidate: u8,
) -> Option<usize>
    requires { candidate ≡ estimate sketch.now new.now.hash }
    ensures { counted (main_of (entries_of store.now)) result
        ≡ outvoted (λ e. e.weight) (λ e. estimate sketch.now e.hash) (estimate sketch.now new.now.hash)
        (shortest_prefix (λ e. e.weight) new.now.weight (main_of (entries_of store.now))) }
{
    let mut shortfall = new.weight;
    let mut victims_frequency = 0;
    let mut count = 0;
    let mut entries = store.iter();
    // The candidate's frequency is at most 15, so few votes are read before they are as many.
    while victims_frequency < candidate {
        if shortfall == 0 {
            return Some(count);
        }
        let Some(victim) = entries.next() else {
            return None;
        };
        if is_windowed(victim) {
            // Main ends here.
            return None;
        }
        victims_frequency += sketch.frequency(victim.hash);
        shortfall = shortfall.saturating_sub(victim.weight);
        count += 1;
    }
    None
}

/// Returns the total weight of main's entries.
#[inline(always)]
pub(crate) fn main_weight<K: Eq + Drop, V: Drop, A: Allocator + Clone + Drop>(
    store: &Store<K, V, A>,
) -> u64
    ensures value { result ≡ total_weight (main_of (entries_of store.now)) }
    ensures small { result + (2 ^ 32 - 1) < 2 ^ 64 }
    ensures once { IsDistinct K.eq (entry_keys (entries_of store.now)) }
{
    store.weight() - store.window_weight()
}

/// Returns the weight limit of main.
#[inline(always)]
pub(crate) fn main_limit(limits: &PartLimits) -> u64
    ensures { result ≡ main_limit limits.now }
{
    limits.all.saturating_sub(limits.window)
}

/// Returns `true` if an entry is in the window.
#[inline(always)]
pub(crate) fn is_windowed<K: Drop, V: Drop>(entry: &Entry<K, V>) -> bool
    ensures { result ≡ is_window entry.now.part }
{
    matches!(entry.part, Part::Window)
}
