// The iterator of a `Deque`.
ghost use Rattle.std.specs.Prelude.{length};
ghost use Rattle.std.specs.Iterator.{at_most};
ghost use Rattle.std.specs.Map.Iter.{TakesFirst, deref};

use crate::deque::linked::Linked;
use std::alloc::{Allocator, Global};
use std::marker::Model;

/// An iterator over the elements of a `Deque`, from front to back. A contract sees the elements that are left.
#[derive(Drop)]
pub struct Iter<'a, T, A: Allocator = Global> {
    pub(crate) list: &'a Linked<T, A>,
    pub(crate) next: Option<usize>,
}

impl<'a, T, A: Allocator> Model for Iter<'a, T, A> {
    ghost use Rattle.std.specs.Prelude.{List, IfSome};
    ghost use Rattle.std.specs.Map.{values_of};
    ghost use Rattle.moka_list.specs.Nodes.{IsIn};
    ghost use Rattle.moka_list.specs.Nodes.{items_from};
    ghost use Rattle.moka_list.specs.Nodes.{AreApart};

    ghost Value = { List T };

    ghost view = { λ it. values_of (items_from it.next it.list.now.items) };

    ghost invariant = { λ it. AreApart it.list.now.items × IfSome it.next (λ id. IsIn it.list.now.items id) };
}

impl<'a, T, A: Allocator> Iterator for Iter<'a, T, A> {
    type Item = &'a T;

    ghost next_gives = { TakesFirst deref };

    ghost remaining = { λ it. at_most (length it) };

    fn next(&mut self) -> Option<&'a T> {
        let (list, id) = (self.list, self.next?);
        self.next = list.next(id);
        Some(list.get(id))
    }
}
