// Removals that the owner asks for: of a key, of all entries, of those that a predicate chooses, and of the expired ones.
ghost use Rattle.std.specs.Prelude.{◌≡◌, ◌++◌, ⊤, Bool, List, map, option_to_list, true};
ghost use Rattle.std.specs.List.Sorted.{IsPermutation};
ghost use Rattle.moka_unsync_model.specs.Cleanup.{is_expired};
ghost use Rattle.moka_unsync_model.specs.Contents.{after_leaving, entry_keys, entry_where, except, no_contents};
ghost use Rattle.moka_unsync_model.specs.Invalidate.{AnswersInTurn, chosen};
ghost use Rattle.moka_unsync_model.specs.Told.{TellsTaken, TellsWhatLeft};
ghost use Rattle.moka_unsync_model.specs.declared.listener.Cause.TheVariants.{Expired, Explicit};
ghost use Rattle.moka_store.specs.Store.{Continues, HasHash, contents_of, entries_of};

use crate::cleanup::Bounds;
use crate::leaving::leave;
use moka_common::lookup::Lookup;
use moka_common::time::Instant;
use moka_store::store::Store;
use moka_unsync_model::entry::Entry;
use moka_unsync_model::listener::{Cause, Listener};
use std::alloc::Allocator;
use std::hash::Hash;

/// Removes the entry of the key that the probe stands for, if there is one, and gives it to the listener. Its cause is that it expired, if it did, or else
/// that it was removed. The hash is the probe's.
pub(crate) fn remove_notifying<
    K: Eq + Hash + Drop,
    V: Drop,
    A: Allocator + Clone + Drop,
    Q: Lookup<K>,
    L: Listener<K, V>,
>(store: &mut Store<K, V, A>, bounds: &Bounds, probe: Q, hash: u64, now: Instant, listener: &mut L)
    requires { HasHash (Q.stands_for probe) store.old hash }
    ensures step { contents_of store.new ≡ except (Q.stands_for probe) (contents_of store.old) }
    ensures kept { Continues store.old store.new }
    ensures told { TellsTaken L.hears bounds.now now Explicit (entry_where (Q.stands_for probe) (entries_of store.old)) listener.old listener.new }
{
    if let Some(entry) = remove(store, probe, hash) {
        let cause = bounds.cause_at(&entry, now, Cause::Explicit);
        let Entry { key, value, .. } = entry;
        listener.removed(key, value, cause);
    }
}

/// Takes out the entry of the key that the probe stands for, expired or not, if there is one. The hash is the probe's.
pub(crate) fn remove<K: Eq + Hash + Drop, V: Drop, A: Allocator + Clone + Drop, Q: Lookup<K>>(
    store: &mut Store<K, V, A>,
    probe: Q,
    hash: u64,
) -> Option<Entry<K, V>>
    requires { HasHash (Q.stands_for probe) store.old hash }
    ensures value { result ≡ entry_where (Q.stands_for probe) (entries_of store.old) }
    ensures left { IsPermutation (entries_of store.old) (option_to_list result ++ entries_of store.new) }
    ensures step { contents_of store.new ≡ except (Q.stands_for probe) (contents_of store.old) }
    ensures kept { Continues store.old store.new }
{
    let id = store.find(probe, hash)?;
    Some(store.take(id))
}

/// Removes all entries.
pub(crate) fn clear<K: Eq + Drop, V: Drop, A: Allocator + Clone + Drop, L: Listener<K, V>>(
    store: &mut Store<K, V, A>,
    listener: &mut L,
)
    ensures step { contents_of store.new ≡ no_contents }
    ensures kept { Continues store.old store.new }
    ensures told { TellsWhatLeft L.hears Explicit (λ e. ⊤) (entries_of store.old) (entries_of store.new) listener.old listener.new }
{
    while let Some(id) = store.front() {
        leave(store, id, Cause::Explicit, listener);
    }
}

/// Removes the entries for which the predicate returns `true`. It is called once for each entry, in order of use.
pub(crate) fn remove_where<
    K: Eq + Drop,
    V: Drop,
    A: Allocator + Clone + Drop,
    F: FnMut(&K, &V) -> bool,
    L: Listener<K, V>,
>(store: &mut Store<K, V, A>, mut predicate: F, listener: &mut L)
    requires { F.IsAlwaysCallable predicate }
    ensures step { (answers : List Bool) × AnswersInTurn F.step predicate (entries_of store.old) answers
        × (contents_of store.new ≡ after_leaving K.eq (entry_keys (chosen answers (entries_of store.old))) (contents_of store.old)) }
    ensures kept { Continues store.old store.new }
    ensures told { TellsWhatLeft L.hears Explicit (λ e. ⊤) (entries_of store.old) (entries_of store.new) listener.old listener.new }
{
    let mut here = store.front();
    while let Some(id) = here {
        here = store.next(id);
        let entry = store.get(id);
        if predicate(&entry.key, &entry.value) {
            leave(store, id, Cause::Explicit, listener);
        }
    }
}

/// Removes all expired entries. It looks at each entry, unless the cache has no duration.
pub(crate) fn remove_expired<K: Eq + Drop, V: Drop, A: Allocator + Clone + Drop, L: Listener<K, V>>(
    store: &mut Store<K, V, A>,
    bounds: &Bounds,
    now: Instant,
    listener: &mut L,
)
    ensures step { contents_of store.new
        ≡ after_leaving K.eq (entry_keys (chosen (map (is_expired bounds.now now) (entries_of store.old)) (entries_of store.old)))
        (contents_of store.old) }
    ensures kept { Continues store.old store.new }
    ensures told { TellsWhatLeft L.hears Expired (λ e. is_expired bounds.now now e ≡ true) (entries_of store.old) (entries_of store.new)
        listener.old listener.new }
{
    if !bounds.has_duration() {
        return;
    }
    let mut next = store.front();
    while let Some(id) = next {
        next = store.next(id);
        if bounds.is_expired(store.get(id), now) {
            leave(store, id, Cause::Expired, listener);
        }
    }
}
