// Steps from one entry of a store to the next.
ghost use Rattle.std.specs.Prelude.{◌≡◌, option_copied};
ghost use Rattle.moka_unsync_model.specs.Iterate.{entries_behind, first_unexpired};
ghost use Rattle.moka_store.specs.Store.{HasHash, entries_of};

use crate::cleanup::Bounds;
use moka_common::time::Instant;
use moka_store::store::Store;
use moka_unsync_model::entry::Entry;
use std::alloc::Allocator;
use std::hash::Hash;

/// Returns the first live entry after that of the key. The hash is the key's.
pub(crate) fn next_unexpired<'a, K: Eq + Hash + Drop, V: Drop, A: Allocator + Clone + Drop>(
    store: &'a Store<K, V, A>,
    bounds: &Bounds,
    key: &K,
    hash: u64,
    now: Instant,
) -> Option<&'a Entry<K, V>>
    requires { HasHash (K.eq key.now) store.now hash }
    ensures { option_copied result ≡ first_unexpired bounds.now now (entries_behind K.eq key.now (entries_of store.now)) }
{
    let mut here = store.next(store.find(key, hash)?);
    while let Some(id) = here {
        let entry = store.get(id);
        if !bounds.is_expired(entry, now) {
            return Some(entry);
        }
        here = store.next(id);
    }
    None
}
