// The iterator of a `Chain`.
ghost use Rattle.std.specs.Prelude.{length};
ghost use Rattle.std.specs.Iterator.{at_most};
ghost use Rattle.std.specs.Map.Iter.{TakesFirst, deref};

use crate::chain::links::LinkTable;
use slab::Slab;
use std::alloc::{Allocator, Global};
use std::marker::Model;

/// An iterator over the elements of a `Chain`, from front to back. A contract sees the elements that are left.
#[derive(Drop)]
pub struct Iter<'a, T, A: Allocator = Global> {
    pub(crate) slots: &'a Slab<T, A>,
    pub(crate) links: &'a LinkTable<A>,
    pub(crate) next: u32,
    pub(crate) left: usize,
}

impl<'a, T, A: Allocator> Model for Iter<'a, T, A> {
    ghost use Rattle.std.specs.Prelude.{◌≡◌, List, length};
    ghost use Rattle.std.specs.Map.{values_of};
    ghost use Rattle.moka_list.specs.Chained.{AreLinked, walk};

    ghost Value = { List T };

    ghost view = { λ it. values_of (walk it.slots.now it.links.now it.left it.next) };

    ghost invariant = { λ it. AreLinked it.slots.now it.links.now × (length (walk it.slots.now it.links.now it.left it.next) ≡ it.left) };
}

impl<'a, T, A: Allocator> Iterator for Iter<'a, T, A> {
    type Item = &'a T;

    ghost next_gives = { TakesFirst deref };

    ghost remaining = { λ it. at_most (length it) };

    fn next(&mut self) -> Option<&'a T> {
        if self.left == 0 {
            return None;
        }
        let (slots, links, id) = (self.slots, self.links, self.next as usize);
        self.left -= 1;
        self.next = links.links[id].next;
        Some(&slots[id])
    }
}
