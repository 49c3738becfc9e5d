// Admission of new entries by TinyLFU, size-aware as in Caffeine. A new entry first enters the window, if there is one; entries that leave the window are
// the candidates for main.
ghost use Rattle.std.specs.Prelude.{◌≡◌, ◌<◌, ◌≤◌, ◌-◌, ◌+◌, ◌++◌, ◌∷◌, [], IfSome, None, Some, false, is_some, length, option_map};
ghost use Rattle.moka_unsync_model.specs.Contents.{entry_at, main_of, total_weight, window_of, writes_without};
ghost use Rattle.moka_unsync_model.specs.declared.entry.Entry.{Entry as EntryValue};
ghost use Rattle.moka_unsync_model.specs.declared.entry.Part.TheVariants.{Probation, Window};
ghost use Rattle.moka_unsync_model.specs.Insert.{after_admission, after_arrival, after_entering, after_entering_judged, after_entry};
ghost use Rattle.moka_unsync_model.specs.Shares.{main_limit};
ghost use Rattle.moka_unsync_model.specs.Told.{IsAbove, TellsPut, TellsWhatLeft};
ghost use Rattle.moka_unsync_model.specs.declared.listener.Cause.TheVariants.{Size};
ghost use Rattle.moka_unsync_model.specs.Cleanup.{least_recent};
ghost use Rattle.moka_unsync_model.specs.Window.{after_candidate, after_candidates, after_judgements, after_judging, excess, victims_of};
ghost use Rattle.moka_store.specs.Store.{Continues, IsFrontOf, KeepsSettings, contents_of, entries_of};
ghost use Rattle.moka_unsync.specs.Turns.{WindowStands, after_eviction_of};

use crate::leaving::{evict, leave, main_front};
use crate::memory::{Memory, remember};
use crate::victims::{main_limit, victim_count};
use moka_common::frequency_sketch::FrequencySketch;
use moka_list::chain::NodeId;
use moka_store::store::Store;
use moka_unsync_model::entry::{Entry, Part};
use moka_unsync_model::listener::{Cause, Listener};
use moka_unsync_model::shares::PartLimits;
use std::alloc::Allocator;

/// Stores a new entry in place of its victims in main, or gives it to the listener if it is rejected, and notes the verdict. Returns `true` if it was stored.
pub(crate) fn admit<K: Eq + Drop, V: Drop, A: Allocator + Clone + Drop, L: Listener<K, V>>(
    store: &mut Store<K, V, A>,
    limit: Option<u64>,
    sketch: &FrequencySketch<A>,
    new: Entry<K, V>,
    memory: &mut Option<Memory<A>>,
    listener: &mut L,
) -> bool
    requires room { length store.old.nodes < store.old.capacity }
    requires absent { entry_at K.eq new.key (entries_of store.old) ≡ None }
    ensures value { result ≡ is_some (victims_of limit sketch.now new (main_of (entries_of store.old))) }
    ensures step { contents_of store.new ≡ after_admission K.eq store.old.keeps_writes new
        (victims_of limit sketch.now new (main_of (entries_of store.old))) (contents_of store.old) }
    ensures kept { KeepsSettings store.old store.new }
    ensures memory { memory.new
        ≡ option_map (λ m. after_judging m new.hash (victims_of limit sketch.now new (main_of (entries_of store.old)))) memory.old }
    ensures told { TellsPut L.hears limit result new (entries_of store.old) (entries_of store.new) listener.old listener.new }
{
    let count = victim_count(store, limit, sketch, &new);
    remember(memory, store, new.hash, count);
    let Some(count) = count else {
        let Entry { key, value, .. } = new;
        listener.removed(key, value, Cause::Rejected);
        return false;
    };
    enter_for(store, count, new, listener);
    true
}

/// Evicts `count` LRU entries of main and stores the new one in the last one's node.
#[inline(always)]
fn enter_for<K: Eq + Drop, V: Drop, A: Allocator + Clone + Drop, L: Listener<K, V>>(
    store: &mut Store<K, V, A>,
    count: usize,
    new: Entry<K, V>,
    listener: &mut L,
)
    requires room { length store.old.nodes < store.old.capacity }
    requires absent { entry_at K.eq new.key (entries_of store.old) ≡ None }
    ensures step { contents_of store.new ≡ after_arrival K.eq store.old.keeps_writes new (after_eviction_of K.eq count (contents_of store.old)) }
    ensures kept { KeepsSettings store.old store.new }
    ensures stands { WindowStands store.old store.new }
    ensures told { TellsWhatLeft L.hears Size (λ e. 0 < count) (new ∷ entries_of store.old) (entries_of store.new) listener.old listener.new }
{
    if count == 0 {
        store.push(new);
        return;
    }
    evict(store, count - 1, listener);
    match main_front(store) {
        Some(id) => {
            let Entry { key, value, .. } = store.replace(id, new);
            listener.removed(key, value, Cause::Size);
        }
        None => store.push(new),
    }
}

/// Stores a new entry in the window. Then the window's least recently used entries move to main if they are admitted there, or leave the store, until its
/// weight is within its share. Returns the part in which the new entry was stored.
#[inline(always)]
pub(crate) fn insert_into_window<
    K: Eq + Drop,
    V: Drop,
    A: Allocator + Clone + Drop,
    L: Listener<K, V>,
>(
    store: &mut Store<K, V, A>,
    limits: &PartLimits,
    sketch: &FrequencySketch<A>,
    mut new: Entry<K, V>,
    memory: &mut Option<Memory<A>>,
    listener: &mut L,
) -> Option<Part>
    requires room { length store.old.nodes < store.old.capacity }
    requires absent { entry_at K.eq new.key (entries_of store.old) ≡ None }
    requires unwritten { writes_without K.eq new.key store.old.written ≡ store.old.written }
    requires probation { new.part ≡ Probation }
    ensures value { result ≡ option_map (λ e. e.part) (entry_at K.eq new.key (entries_of store.new)) }
    ensures step { contents_of store.new ≡ after_entering K.eq store.old.keeps_writes limits.now sketch.now new (contents_of store.old) }
    ensures kept { KeepsSettings store.old store.new }
    ensures memory { memory.new
        ≡ option_map (after_entering_judged K.eq store.old.keeps_writes limits.now sketch.now new (contents_of store.old)) memory.old }
    ensures told { TellsPut L.hears (Some (main_limit limits.now)) (is_some result) new (entries_of store.old) (entries_of store.new) listener.old
        listener.new }
{
    let enough = excess(store, limits, new.weight);
    if enough == 0 {
        new.part = Part::Window;
        store.push(new);
        return Some(Part::Window);
    }
    match last_candidate(store, enough) {
        Some(id) => {
            new.part = Part::Window;
            admit_or_evict_last(store, limits, sketch, id, new, memory, listener);
            Some(Part::Window)
        }
        None => insert_and_drain(store, limits, sketch, enough, new, memory, listener),
    }
}

/// Returns the window's least recently used entry if it alone weighs `enough` or more.
#[inline(always)]
fn last_candidate<K: Eq + Drop, V: Drop, A: Allocator + Clone + Drop>(
    store: &Store<K, V, A>,
    enough: u64,
) -> Option<NodeId>
    ensures { IfSome result (λ id. (front : IsFrontOf K.eq Window store.now id) × (enough ≤ front.entry.weight)) }
{
    let id = store.front_of(Part::Window)?;
    if u64::from(store.get(id).weight) < enough {
        return None;
    }
    Some(id)
}

/// Does what `insert_into_window` does if several entries are judged, or the new one is. The weight that has to leave the window is `enough`.
#[cold]
#[inline(never)]
fn insert_and_drain<K: Eq + Drop, V: Drop, A: Allocator + Clone + Drop, L: Listener<K, V>>(
    store: &mut Store<K, V, A>,
    limits: &PartLimits,
    sketch: &FrequencySketch<A>,
    enough: u64,
    mut new: Entry<K, V>,
    memory: &mut Option<Memory<A>>,
    listener: &mut L,
) -> Option<Part>
    requires room { length store.old.nodes < store.old.capacity }
    requires absent { entry_at K.eq new.key (entries_of store.old) ≡ None }
    requires unwritten { writes_without K.eq new.key store.old.written ≡ store.old.written }
    requires probation { new.part ≡ Probation }
    requires enough { enough ≡ excess limits.now (entries_of store.old ++ record new { part = Window } ∷ []) }
    ensures value { result ≡ option_map (λ e. e.part) (entry_at K.eq new.key (entries_of store.new)) }
    ensures step { contents_of store.new ≡ after_entering K.eq store.old.keeps_writes limits.now sketch.now new (contents_of store.old) }
    ensures kept { KeepsSettings store.old store.new }
    ensures memory { memory.new
        ≡ option_map (after_entering_judged K.eq store.old.keeps_writes limits.now sketch.now new (contents_of store.old)) memory.old }
    ensures told { TellsPut L.hears (Some (main_limit limits.now)) (is_some result) new (entries_of store.old) (entries_of store.new) listener.old
        listener.new }
{
    if drain_window(store, limits, sketch, enough, memory, listener) > 0 {
        // The new entry is the last candidate, so it comes to main or leaves without having stood in the window.
        let limit = Some(main_limit(limits));
        return admit(store, limit, sketch, new, memory, listener).then_some(Part::Probation);
    }
    new.part = Part::Window;
    store.push(new);
    Some(Part::Window)
}

/// Returns the weight that has to leave the window once an entry of this weight is in it.
#[inline(always)]
fn excess<K: Eq + Drop, V: Drop, A: Allocator + Clone + Drop>(
    store: &Store<K, V, A>,
    limits: &PartLimits,
    weight: u32,
) -> u64
    ensures { (new : EntryValue K V) → new.part ≡ Window → new.weight ≡ weight → result ≡ excess limits.now (entries_of store.now ++ new ∷ []) }
{
    let all = store.weight() + u64::from(weight);
    let window = store.window_weight() + u64::from(weight);
    let above_share = window.saturating_sub(limits.window);
    above_share.max(all.saturating_sub(limits.all))
}

/// Judges the window's entries, least recently used first, until `enough` weight has left the window. Returns the weight that is still missing then.
fn drain_window<K: Eq + Drop, V: Drop, A: Allocator + Clone + Drop, L: Listener<K, V>>(
    store: &mut Store<K, V, A>,
    limits: &PartLimits,
    sketch: &FrequencySketch<A>,
    enough: u64,
    memory: &mut Option<Memory<A>>,
    listener: &mut L,
) -> u64
    ensures value { result ≡ enough - total_weight (least_recent enough (window_of (entries_of store.old))) }
    ensures step { contents_of store.new ≡ after_candidates K.eq limits.now sketch.now (least_recent enough (window_of (entries_of store.old)))
        (contents_of store.old) }
    ensures kept { Continues store.old store.new }
    ensures memory { memory.new ≡ option_map (after_judgements K.eq limits.now sketch.now (least_recent enough (window_of (entries_of store.old)))
        (contents_of store.old)) memory.old }
    ensures told { TellsWhatLeft L.hears Size (λ e. IsAbove (Some (main_limit limits.now)) (total_weight (entries_of store.old)))
        (entries_of store.old) (entries_of store.new) listener.old listener.new }
{
    let mut shortfall = enough;
    while shortfall > 0 {
        let Some(id) = store.front_of(Part::Window) else {
            return shortfall;
        };
        shortfall = shortfall.saturating_sub(u64::from(store.get(id).weight));
        admit_or_evict(store, limits, sketch, id, memory, listener);
    }
    shortfall
}

/// Judges the window's least recently used entry: it moves to main in place of its victims, or leaves.
fn admit_or_evict<K: Eq + Drop, V: Drop, A: Allocator + Clone + Drop, L: Listener<K, V>>(
    store: &mut Store<K, V, A>,
    limits: &PartLimits,
    sketch: &FrequencySketch<A>,
    id: NodeId,
    memory: &mut Option<Memory<A>>,
    listener: &mut L,
)
    requires { IsFrontOf K.eq Window store.old id }
    ensures step { (front : IsFrontOf K.eq Window store.old id)
        × (contents_of store.new ≡ after_candidate K.eq limits.now sketch.now (contents_of store.old) front.entry)
        × (window_of (entries_of store.new) ≡ front.rest)
        × (memory.new ≡ option_map (λ m. after_judging m front.entry.hash
        (victims_of (Some (main_limit limits.now)) sketch.now front.entry (main_of (entries_of store.old)))) memory.old) }
    ensures kept { Continues store.old store.new }
    ensures told { TellsWhatLeft L.hears Size (λ e. IsAbove (Some (main_limit limits.now)) (total_weight (entries_of store.old)))
        (entries_of store.old) (entries_of store.new) listener.old listener.new }
{
    let candidate = store.get(id);
    let count = victim_count(store, Some(main_limit(limits)), sketch, candidate);
    remember(memory, store, candidate.hash, count);
    match count {
        Some(count) => {
            evict(store, count, listener);
            store.move_to_probation(id);
        }
        None => leave(store, id, Cause::Size, listener),
    }
}

/// Does what `admit_or_evict` does, and stores a new entry in the window, in the node of an entry that leaves, if one does.
#[inline(always)]
fn admit_or_evict_last<K: Eq + Drop, V: Drop, A: Allocator + Clone + Drop, L: Listener<K, V>>(
    store: &mut Store<K, V, A>,
    limits: &PartLimits,
    sketch: &FrequencySketch<A>,
    id: NodeId,
    new: Entry<K, V>,
    memory: &mut Option<Memory<A>>,
    listener: &mut L,
)
    requires room { length store.old.nodes < store.old.capacity }
    requires absent { entry_at K.eq new.key (entries_of store.old) ≡ None }
    requires window { new.part ≡ Window }
    requires front { IsFrontOf K.eq Window store.old id }
    ensures step { (front : IsFrontOf K.eq Window store.old id)
        × (contents_of store.new
        ≡ after_entry K.eq store.old.keeps_writes new (after_candidate K.eq limits.now sketch.now (contents_of store.old) front.entry))
        × (memory.new ≡ option_map (λ m. after_judging m front.entry.hash
        (victims_of (Some (main_limit limits.now)) sketch.now front.entry (main_of (entries_of store.old)))) memory.old) }
    ensures kept { KeepsSettings store.old store.new }
    ensures told { TellsWhatLeft L.hears Size (λ e. IsAbove (Some (main_limit limits.now)) (total_weight (entries_of store.old) + new.weight))
        (new ∷ entries_of store.old) (entries_of store.new) listener.old listener.new }
{
    let candidate = store.get(id);
    let count = victim_count(store, Some(main_limit(limits)), sketch, candidate);
    remember(memory, store, candidate.hash, count);
    match count {
        Some(count) => {
            enter_for(store, count, new, listener);
            store.move_to_probation(id);
        }
        None => {
            let Entry { key, value, .. } = store.replace(id, new);
            listener.removed(key, value, Cause::Size);
        }
    }
}
