// The iterators over a cache's entries.
ghost use Rattle.std.specs.Prelude.{◌≡◌, ◌<◌, ◌^◌, length};
ghost use Rattle.std.specs.Iterator.{at_most};
ghost use Rattle.std.specs.Map.Iter.{TakesFirst, deref_pair};
ghost use Rattle.moka_unsync_model.specs.Iterate.{unexpired_pairs};

use crate::cache::Cache;
use crate::cleanup::Bounds;
use moka_common::time::Instant;
use moka_list::chain::Iter as Nodes;
use moka_unsync_model::entry::Entry;
use std::alloc::{Allocator, Global};
use std::fmt::{Debug, Formatter, Result, Write};
use std::hash::{BuildHasher, Hash};
use std::marker::Model;

/// An iterator over all entries of a cache, with what it keeps of each.
pub type Entries<'a, K, V, A = Global> = Nodes<'a, Entry<K, V>, A>;

impl<
    K: Eq + Hash + Drop,
    V: Drop,
    S: BuildHasher + Drop,
    W: Drop,
    A: Allocator + Clone + Drop,
> Cache<K, V, S, W, A> {
    /// Returns an iterator over all stored entries, expired ones too, in the order of `iter`: each with its part, weight, last use and deadline. It doesn't
    /// count as an access, and takes no memory.
    ///
    /// It is for a look into a cache, and for one that is saved and filled again: see `moka_examples/src/saved.rt`.
    pub fn entries(&self) -> Entries<'_, K, V, A>
        ensures value { result ≡ self.now.contents.entries }
        ensures fits { length result < 2 ^ 32 }
    {
        self.store.iter()
    }
}

/// An iterator over a cache's unexpired entries, in order of use, least recently used first. A contract sees the pairs that are left.
///
/// A step takes constant time for each entry that it passes, and takes no memory.
///
/// ```
/// let _ = cache.get(&0, now);
/// let mut pairs = cache.iter(now);
/// let first = pairs.next().map(|(key, _value)| *key);
/// ```
#[derive(Drop)]
pub struct Iter<'a, K: Drop, V: Drop, A: Allocator = Global> {
    entries: Nodes<'a, Entry<K, V>, A>,
    bounds: &'a Bounds,
    now: Instant,
}

impl<'a, K: Drop, V: Drop, A: Allocator> Model for Iter<'a, K, V, A> {
    ghost use Rattle.std.specs.Prelude.{List};
    ghost use Rattle.moka_unsync_model.specs.Iterate.{unexpired_pairs};

    ghost Value = { List (K × V) };

    ghost view = { λ it. unexpired_pairs it.bounds.now it.now it.entries };
}

impl<'a, K: Drop, V: Drop, A: Allocator> Iter<'a, K, V, A> {
    /// Makes an iterator over the entries that are unexpired at a moment.
    pub(crate) fn new(entries: Nodes<'a, Entry<K, V>, A>, bounds: &'a Bounds, now: Instant) -> Self
        ensures { result ≡ unexpired_pairs bounds.now now entries.entry }
    {
        Iter {
            entries,
            bounds,
            now,
        }
    }
}

impl<'a, K: Drop, V: Drop, A: Allocator> Iterator for Iter<'a, K, V, A> {
    type Item = (&'a K, &'a V);

    ghost next_gives = { TakesFirst deref_pair };

    ghost remaining = { λ it. at_most (length it) };

    fn next(&mut self) -> Option<(&'a K, &'a V)> {
        while let Some(entry) = self.entries.next() {
            if !self.bounds.is_expired(entry, self.now) {
                return Some((&entry.key, &entry.value));
            }
        }
        None
    }
}

/// Shows the policy and the moment: the entries that are left can't be shown without taking them.
impl<'a, K: Drop, V: Drop, A: Allocator> Debug for Iter<'a, K, V, A> {
    fn fmt<T: Write>(&self, f: &mut Formatter<T>) -> Result {
        f.debug_struct("Iter")
            .field("policy", &self.bounds.policy())
            .field("now", &self.now)
            .finish_non_exhaustive()
    }
}
