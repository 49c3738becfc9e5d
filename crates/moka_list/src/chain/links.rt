// The links of a chain's nodes, eight bytes a node, in a table of their own.
//
// `NONE` stands for the place before the first node and behind the last, so that the ends need no cases: its next node is the first, and its previous
// one the last. A node that is not in the chain has no neighbours.
ghost use Rattle.std.specs.Prelude.{◌≡◌, ℕ, ◌<◌, ◌≤◌, length, OnOk};
ghost use Rattle.moka_list.specs.Links.{IsNumbered, IsPlace, Lengthened, LinkedBack, LinkedBefore, Unlinked, next_at, prev_at, reserved};

use std::alloc::{AllocError, Allocator, Global};

/// No node.
pub(crate) const NONE: u32 = u32::MAX;

/// The neighbours of a node.
#[derive(Clone, Copy, Drop)]
pub(crate) struct Links {
    pub(crate) next: u32,
    pub(crate) prev: u32,
}

/// Those of a node that is not in the chain.
const APART: Links = Links {
    next: NONE,
    prev: NONE,
};

/// The links of all nodes, by their ids.
#[derive(Drop)]
pub(crate) struct LinkTable<A: Allocator = Global> {
    pub(crate) links: Vec<Links, A>,
    pub(crate) first: u32,
    pub(crate) last: u32,
}

impl<A: Allocator> LinkTable<A> {
    /// Makes a table for no node.
    pub(crate) fn new(alloc: A) -> Self
        ensures next { (id : ℕ) → next_at result id ≡ NONE }
        ensures prev { (id : ℕ) → prev_at result id ≡ NONE }
        ensures reserved { reserved result ≡ 0 }
        ensures first { result.first ≡ NONE }
    {
        LinkTable {
            links: Vec::new(alloc),
            first: NONE,
            last: NONE,
        }
    }

    /// Returns the number of nodes that there is memory for.
    pub(crate) fn capacity(&self) -> usize
        ensures { result ≡ reserved self.now }
    {
        self.links.capacity().min(NONE as usize)
    }

    /// Reserves memory for the links of `len` nodes in all. The links themselves are made by `cover`, so no call makes many.
    pub(crate) fn reserve(&mut self, len: usize) -> Result<(), AllocError>
        requires { IsNumbered self.old }
        ensures ok { OnOk result (len ≤ reserved self.new) }
        ensures more { reserved self.old ≤ reserved self.new }
        ensures step { Lengthened self.old self.new }
    {
        if len <= self.capacity() {
            return Ok(());
        }
        if len > NONE as usize {
            return Err(AllocError);
        }
        self.links
            .reserve_exact(len.saturating_sub(self.links.len()))
    }

    /// Makes links for the nodes up to this one, which there is memory for. New nodes have no neighbours.
    #[inline]
    pub(crate) fn cover(&mut self, id: usize)
        requires numbered { IsNumbered self.old }
        requires room { id < reserved self.old }
        ensures here { id < length self.new.links.items }
        ensures reserved { reserved self.new ≡ reserved self.old }
        ensures step { Lengthened self.old self.new }
    {
        while self.links.len() <= id {
            self.links.push_reserved(APART);
        }
    }

    /// Takes a node out: its neighbours are linked to one another.
    pub(crate) fn unlink(&mut self, id: usize)
        requires numbered { IsNumbered self.old }
        requires here { id < length self.old.links.items }
        ensures step { IsPlace self.old (prev_at self.old id) → IsPlace self.old (next_at self.old id) → Unlinked self.old self.new id }
        ensures len { length self.new.links.items ≡ length self.old.links.items }
        ensures reserved { reserved self.new ≡ reserved self.old }
    {
        let links = self.links.as_mut_slice();
        let Links { next, prev } = links[id];
        if (prev as usize) < links.len() {
            links[prev as usize].next = next;
        } else {
            self.first = next;
        }
        if (next as usize) < links.len() {
            links[next as usize].prev = prev;
        } else {
            self.last = prev;
        }
        links[id] = APART;
    }

    /// Puts a node, which has no neighbours, after the last.
    pub(crate) fn link_back(&mut self, id: usize)
        requires numbered { IsNumbered self.old }
        requires here { id < length self.old.links.items }
        ensures step { IsPlace self.old self.old.last → LinkedBack self.old self.new id }
        ensures len { length self.new.links.items ≡ length self.old.links.items }
        ensures reserved { reserved self.new ≡ reserved self.old }
    {
        let last = self.last;
        let links = self.links.as_mut_slice();
        links[id] = Links {
            next: NONE,
            prev: last,
        };
        if (last as usize) < links.len() {
            links[last as usize].next = id as u32;
        } else {
            self.first = id as u32;
        }
        self.last = id as u32;
    }

    /// Puts a node, which has no neighbours, right before another one.
    pub(crate) fn link_before(&mut self, id: usize, behind: usize)
        requires numbered { IsNumbered self.old }
        requires here { id < length self.old.links.items }
        requires behind_here { behind < length self.old.links.items }
        ensures step { IsPlace self.old (prev_at self.old behind) → LinkedBefore self.old self.new id behind }
        ensures len { length self.new.links.items ≡ length self.old.links.items }
        ensures reserved { reserved self.new ≡ reserved self.old }
    {
        let links = self.links.as_mut_slice();
        let prev = links[behind].prev;
        links[id] = Links {
            next: behind as u32,
            prev,
        };
        if (prev as usize) < links.len() {
            links[prev as usize].next = id as u32;
        } else {
            self.first = id as u32;
        }
        links[behind].prev = id as u32;
    }
}
