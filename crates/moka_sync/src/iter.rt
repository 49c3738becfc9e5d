//! A snapshot of a cache.
ghost use Rattle.std.specs.Prelude.{◌≡◌, length};
ghost use Rattle.std.specs.Iterator.{at_most};
ghost use Rattle.std.specs.Map.Iter.{TakesFirst};

use crate::mapref::EntryRef;
use moka_common::shared::Shared;
use std::alloc::{Allocator, Global};
use std::collections::VecDeque;
use std::fmt::{Debug, Formatter, Result, Write};
use std::marker::Model;

/// The pairs of a snapshot that are still to come. It holds no lock. A contract sees their list.
///
/// ```
/// let mut pairs = Vec::new(alloc);
/// for entry in squares.iter(rt, now)? {
///     pairs.push(pair_of(&entry))?;
/// }
/// ```
///
/// Here `squares` is a cache whose pair rule is that each value is its key's square, so each pair in the vector is a number and its square, and no number
/// comes twice. The cache may be used meanwhile: what is inserted after `iter` doesn't come, and what leaves after it still does.
#[derive(Drop)]
pub struct Iter<K: Drop, V: Drop, A: Allocator + Drop = Global> {
    pairs: VecDeque<(Shared<K, A>, Shared<V, A>), A>,
}

impl<K: Drop, V: Drop, A: Allocator + Drop> Model for Iter<K, V, A> {
    ghost use Rattle.std.specs.Prelude.{List};

    ghost Value = { List (K × V) };

    ghost view = { λ it. it.pairs.items };
}

impl<K: Drop, V: Drop, A: Allocator + Drop> Iter<K, V, A> {
    /// Makes an iterator over the pairs of a vector.
    pub(crate) fn new(pairs: Vec<(Shared<K, A>, Shared<V, A>), A>) -> Self
        ensures { result ≡ pairs.items }
    {
        Iter {
            pairs: VecDeque::from(pairs),
        }
    }
}

impl<K: Drop, V: Drop, A: Allocator + Drop> Iterator for Iter<K, V, A> {
    type Item = EntryRef<K, V, A>;

    ghost next_gives = { TakesFirst (λ pair. pair) };

    ghost remaining = { λ it. at_most (length it) };

    fn next(&mut self) -> Option<EntryRef<K, V, A>> {
        let (key, value) = self.pairs.pop_front()?;
        Some(EntryRef::new(key, value))
    }
}

/// Shows the pairs that are left.
impl<K: Debug + Drop, V: Debug + Drop, A: Allocator + Drop> Debug for Iter<K, V, A> {
    fn fmt<T: Write>(&self, f: &mut Formatter<T>) -> Result {
        let mut map = f.debug_map();
        for (key, value) in self.pairs.iter() {
            map.entry(key.get(), value.get());
        }
        map.finish()
    }
}
