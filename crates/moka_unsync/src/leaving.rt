// How entries leave: the listener gets them.
ghost use Rattle.std.specs.Prelude.{◌≡◌, ◌<◌, ◌+◌, ⊤, ℕ, [], IfSome, IsNone, IsSome, Some, false, nat_eq};
ghost use Rattle.std.specs.Map.{lookup};
ghost use Rattle.moka_unsync_model.specs.Contents.{after_leaving, entry_keys, is_window, main_of};
ghost use Rattle.moka_unsync_model.specs.Cleanup.{least_recent};
ghost use Rattle.moka_unsync_model.specs.Window.{after_displacing};
ghost use Rattle.moka_unsync_model.specs.Told.{TellsWhatLeft};
ghost use Rattle.moka_unsync_model.specs.declared.listener.Cause.TheVariants.{Size};
ghost use Rattle.moka_store.specs.Store.{Continues, IsFront, Removes, contents_of, entries_of};
ghost use Rattle.moka_unsync.specs.Turns.{IsTurn, WindowStands, after_eviction_of};

use crate::memory::Memory;
use crate::victims::is_windowed;
use moka_list::chain::NodeId;
use moka_store::store::Store;
use moka_unsync_model::entry::Entry;
use moka_unsync_model::listener::{Cause, Listener};
use std::alloc::Allocator;

/// Removes an entry and gives it to the listener.
#[inline(always)]
pub(crate) fn leave<K: Eq + Drop, V: Drop, A: Allocator + Clone + Drop, L: Listener<K, V>>(
    store: &mut Store<K, V, A>,
    id: NodeId,
    cause: Cause,
    listener: &mut L,
)
    requires { IsSome (lookup (nat_eq id) store.old.nodes) }
    ensures step { Removes K.eq store.old id store.new }
    ensures told { TellsWhatLeft L.hears cause (λ e. lookup (nat_eq id) store.old.nodes ≡ Some e) (entries_of store.old) (entries_of store.new)
        listener.old listener.new }
{
    let Entry { key, value, .. } = store.take(id);
    listener.removed(key, value, cause);
}

/// Evicts `count` LRU entries of main.
#[inline(always)]
pub(crate) fn evict<K: Eq + Drop, V: Drop, A: Allocator + Clone + Drop, L: Listener<K, V>>(
    store: &mut Store<K, V, A>,
    count: usize,
    listener: &mut L,
)
    ensures step { (more : ℕ) → after_eviction_of K.eq (count + more) (contents_of store.old) ≡ after_eviction_of K.eq more (contents_of store.new) }
    ensures kept { Continues store.old store.new }
    ensures stands { WindowStands store.old store.new }
    ensures told { TellsWhatLeft L.hears Size (λ e. 0 < count) (entries_of store.old) (entries_of store.new) listener.old listener.new }
{
    let mut left = count;
    while left > 0 && evict_front(store, listener) {
        left -= 1;
    }
}

/// Evicts main's least recently used entry, if there is one.
fn evict_front<K: Eq + Drop, V: Drop, A: Allocator + Clone + Drop, L: Listener<K, V>>(
    store: &mut Store<K, V, A>,
    listener: &mut L,
) -> bool
    ensures turn { IsTurn (after_eviction_of K.eq)
        result (contents_of store.old) (contents_of store.new) }
    ensures kept { Continues store.old store.new }
    ensures stands { WindowStands store.old store.new }
    ensures told { TellsWhatLeft L.hears Size (λ e. ⊤) (entries_of store.old) (entries_of store.new) listener.old listener.new }
{
    let Some(id) = main_front(store) else {
        return false;
    };
    leave(store, id, Cause::Size, listener);
    true
}

/// Evicts main's least recently used entries until they have made up `enough` weight. They are noted as displaced.
pub(crate) fn give_up<K: Eq + Drop, V: Drop, A: Allocator + Clone + Drop, L: Listener<K, V>>(
    store: &mut Store<K, V, A>,
    enough: u64,
    memory: &mut Memory<A>,
    listener: &mut L,
)
    ensures step { contents_of store.new
        ≡ after_leaving K.eq (entry_keys (least_recent enough (main_of (entries_of store.old)))) (contents_of store.old) }
    ensures memory { memory.new ≡ after_displacing memory.old (least_recent enough (main_of (entries_of store.old))) }
    ensures kept { Continues store.old store.new }
    ensures told { TellsWhatLeft L.hears Size (λ e. 0 < enough) (entries_of store.old) (entries_of store.new) listener.old listener.new }
{
    let mut shortfall = enough;
    while shortfall > 0 {
        let Some(id) = main_front(store) else {
            return;
        };
        let entry = store.get(id);
        memory.displace(entry.hash);
        shortfall = shortfall.saturating_sub(u64::from(entry.weight));
        leave(store, id, Cause::Size, listener);
    }
}

/// Returns the node of main's least recently used entry.
#[inline(always)]
pub(crate) fn main_front<K: Eq + Drop, V: Drop, A: Allocator + Clone + Drop>(
    store: &Store<K, V, A>,
) -> Option<NodeId>
    ensures found { IfSome result (λ id. (front : IsFront K.eq store.now id) × (is_window front.entry.part ≡ false)) }
    ensures absent { IsNone result → main_of (entries_of store.now) ≡ [] }
{
    let id = store.front()?;
    if is_windowed(store.get(id)) {
        return None;
    }
    Some(id)
}
