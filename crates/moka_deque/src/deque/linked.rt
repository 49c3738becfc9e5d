// A list of nodes. Contracts see the node ids with their elements. It has no nodes until one is reserved.
ghost use Rattle.std.specs.Prelude.{◌≡◌, ℕ, ◌+◌, ◌<◌, ◌≤◌, [], ◌↔◌, nat_eq, length, IsTrue, IsOk, OnOk, Some, is_some, true};
ghost use Rattle.std.specs.Borrow.{sem};
ghost use Rattle.std.specs.Map.{lookup, values_of};
ghost use Rattle.moka_list.specs.Nodes.{IsIn, first_id, next_id, moved_to_back};
ghost use Rattle.moka_deque.specs.Linked.{EndsWith, Pushes, Unlinks};
ghost use Rattle.moka_list.specs.Nodes.{AreApart};
ghost use Rattle.moka_deque.specs.Slots.{AreTied, shown_if};

use crate::deque::iter::Iter;
use crate::deque::nodes::Nodes;
use std::alloc::{AllocError, Allocator, Global};
use std::marker::Model;
use std::mem::replace;

pub(crate) struct Linked<T, A: Allocator = Global> {
    // The nodes and the table of them have copies of it.
    alloc: A,
    nodes: Option<Nodes<T, A>>,
}

impl<T, A: Allocator> Model for Linked<T, A> {
    ghost use Rattle.moka_deque.specs.Linked.{Linked as Items};
    ghost use Rattle.moka_deque.specs.Slots.{AreTied, shown_if};

    ghost Value = { Items T };

    ghost view = { λ l. shown_if l.nodes };

    ghost invariant = { λ l. AreTied l.nodes };
}

impl<T, A: Allocator> Linked<T, A> {
    ghost use Rattle.moka_deque.specs.Lends.{lends_linked};

    pub(crate) fn new(alloc: A) -> Linked<T, A>
        ensures items { result.items ≡ [] }
        ensures room { result.room ≡ 0 }
    {
        Linked { alloc, nodes: None }
    }

    pub(crate) fn len(&self) -> usize
        ensures len { result ≡ length self.now.items }
        ensures apart { AreApart self.now.items }
    {
        match &self.nodes {
            Some(nodes) => nodes.len(),
            None => 0,
        }
    }

    pub(crate) fn reserve(&mut self, additional: usize) -> Result<(), AllocError>
    where
        A: Clone,
        ensures ok { OnOk result (additional ≤ self.new.room) }
        ensures succeeds { additional ≤ self.old.room → IsOk result }
        ensures items { self.new.items ≡ self.old.items }
        ensures had_room { additional ≤ self.old.room → self.new ≡ self.old }
        ensures room { self.old.room ≤ self.new.room }
    {
        if additional == 0 {
            return Ok(());
        }
        make_nodes(&mut self.nodes, &self.alloc)?;
        match &mut self.nodes {
            Some(nodes) => nodes.reserve(additional),
            None => unreachable!(),
        }
    }

    pub(crate) fn reserve_exact(&mut self, additional: usize) -> Result<(), AllocError>
    where
        A: Clone,
        ensures ok { OnOk result (additional ≤ self.new.room) }
        ensures succeeds { additional ≤ self.old.room → IsOk result }
        ensures items { self.new.items ≡ self.old.items }
        ensures had_room { additional ≤ self.old.room → self.new ≡ self.old }
        ensures room { self.old.room ≤ self.new.room }
    {
        if additional == 0 {
            return Ok(());
        }
        make_nodes(&mut self.nodes, &self.alloc)?;
        match &mut self.nodes {
            Some(nodes) => nodes.reserve_exact(additional),
            None => unreachable!(),
        }
    }

    pub(crate) fn capacity(&self) -> usize
        ensures value { result ≡ length self.now.items + self.now.room }
        ensures bound { (id : ℕ) → IsIn self.now.items id → id < result }
    {
        match &self.nodes {
            Some(nodes) => nodes.capacity(),
            None => 0,
        }
    }

    pub(crate) fn contains(&self, id: usize) -> bool
        ensures { IsTrue result ↔ IsIn self.now.items id }
    {
        match &self.nodes {
            Some(nodes) => nodes.contains(id),
            None => false,
        }
    }

    pub(crate) fn first(&self) -> Option<usize>
        ensures { result ≡ first_id self.now.items }
    {
        match &self.nodes {
            Some(nodes) => nodes.first(),
            None => None,
        }
    }

    pub(crate) fn last(&self) -> Option<usize>
        ensures { EndsWith self.now.items result }
    {
        match &self.nodes {
            Some(nodes) => nodes.last(),
            None => None,
        }
    }

    pub(crate) fn next(&self, id: usize) -> Option<usize>
        requires { IsIn self.now.items id }
        ensures { result ≡ next_id id self.now.items }
    {
        match &self.nodes {
            Some(nodes) => nodes.next(id),
            None => unreachable!(),
        }
    }

    pub(crate) fn get(&self, id: usize) -> &T
        requires { IsIn self.now.items id }
        ensures { lookup (nat_eq id) self.now.items ≡ Some result.now }
    {
        match &self.nodes {
            Some(nodes) => nodes.element(id),
            None => unreachable!(),
        }
    }

    pub(crate) fn get_mut(&mut self, id: usize) -> &mut T
        requires { IsIn self.old.items id }
        ensures* lends { sem 𝓛 (lends_linked T.row A.row A.Allocator self.entry id result) }
        ensures value { lookup (nat_eq id) self.old.items ≡ Some result.now }
    {
        match &mut self.nodes {
            Some(nodes) => nodes.element_mut(id),
            None => unreachable!(),
        }
    }

    pub(crate) fn push_reserved(&mut self, element: T) -> usize
        requires { 0 < self.old.room }
        ensures step { Pushes self.old self.new result element }
    {
        match &mut self.nodes {
            Some(nodes) => nodes.push_reserved(element),
            None => unreachable!(),
        }
    }

    pub(crate) fn unlink(&mut self, id: usize) -> T
        requires { IsIn self.old.items id }
        ensures step { Unlinks self.old self.new id result }
    {
        match &mut self.nodes {
            Some(nodes) => nodes.unlink(id),
            None => unreachable!(),
        }
    }

    pub(crate) fn move_to_back(&mut self, id: usize)
        requires { IsIn self.old.items id }
        ensures items { self.new.items ≡ moved_to_back id self.old.items }
        ensures room { self.new.room ≡ self.old.room }
        ensures apart { AreApart self.old.items }
    {
        match &mut self.nodes {
            Some(nodes) => nodes.move_to_back(id),
            None => unreachable!(),
        }
    }

    pub(crate) fn iter(&self) -> Iter<'_, T, A>
        ensures { result ≡ values_of self.now.items }
    {
        // No node comes twice, which `len` says.
        let _ = self.len();
        Iter {
            list: self,
            next: self.first(),
        }
    }
}

impl<T: Drop, A: Allocator> Drop for Linked<T, A> {
    fn drop(self) {
        let Linked { alloc: _, nodes } = self;
        if let Some(nodes) = nodes {
            nodes.free();
        }
    }
}

// Nodes, where there are none yet.
fn make_nodes<T, A: Allocator + Clone>(
    nodes: &mut Option<Nodes<T, A>>,
    alloc: &A,
) -> Result<(), AllocError>
    requires { AreTied nodes.old }
    ensures tied { AreTied nodes.new }
    ensures same { shown_if nodes.new ≡ shown_if nodes.old }
    ensures made { OnOk result (is_some nodes.new ≡ true) }
    ensures had { is_some nodes.old ≡ true → IsOk result }
{
    if nodes.is_some() {
        return Ok(());
    }
    let made = Nodes::new(alloc.clone()?, alloc.clone()?)?;
    match replace(nodes, Some(made)) {
        None => {}
        Some(_) => unreachable!(),
    }
    Ok(())
}
