//! A list of ids whose elements another list keeps: the same elements in another order.
ghost use Rattle.std.specs.Prelude.{◌≡◌, ◌<◌, ◌≤◌, [], ◌∷◌, ◌++◌, false, true, IsOk, OnOk};
ghost use Rattle.moka_list.specs.IdList.{first_of, ids_without, is_listed};

use crate::chain::NodeId;
use crate::chain::links::LinkTable;
use moka_common::error::OutOfMemory;
use std::alloc::{Allocator, Global};
use std::marker::Model;

/// A list of ids, in an order of its own. Every call takes constant time, but for the memory that `reserve` asks for: eight bytes an id.
#[derive(Drop)]
pub struct IdList<A: Allocator = Global> {
    links: LinkTable<A>,
    len: usize,
}

impl<A: Allocator> Model for IdList<A> {
    ghost use Rattle.moka_list.specs.IdList.{IdList as Listed};
    ghost use Rattle.moka_list.specs.Links.{reserved};
    ghost use Rattle.moka_list.specs.Listing.{IsListing, ids_of};

    ghost Value = { Listed };

    ghost view = { λ l. record { ids = ids_of l.links l.len; capacity = reserved l.links } };

    ghost invariant = { λ l. IsListing l.links (ids_of l.links l.len) };
}

impl<A: Allocator> IdList<A> {
    /// Makes an empty list, which allocates nothing.
    pub fn new(alloc: A) -> Self
        ensures ids { result.ids ≡ [] }
        ensures capacity { result.capacity ≡ 0 }
    {
        IdList {
            links: LinkTable::new(alloc),
            len: 0,
        }
    }

    /// Reserves capacity for all ids below `capacity`. If memory is refused, the list is as it was.
    pub fn reserve(&mut self, capacity: usize) -> Result<(), OutOfMemory>
        ensures ok { OnOk result (capacity ≤ self.new.capacity) }
        ensures had_room { capacity ≤ self.old.capacity → IsOk result × (self.new ≡ self.old) }
        ensures more { self.old.capacity ≤ self.new.capacity }
        ensures ids { self.new.ids ≡ self.old.ids }
    {
        if capacity <= self.links.capacity() {
            return Ok(());
        }
        match self.links.reserve(capacity) {
            Ok(()) => Ok(()),
            Err(_) => Err(OutOfMemory),
        }
    }

    /// Returns the id at the front.
    pub fn front(&self) -> Option<NodeId>
        ensures { result ≡ first_of self.now.ids }
    {
        if self.len == 0 {
            return None;
        }
        Some(NodeId {
            number: self.links.first as usize,
        })
    }

    /// Adds an id at the back, which isn't in the list and is below the capacity. It allocates nothing.
    pub fn push_back(&mut self, id: NodeId)
        requires room { id < self.old.capacity }
        requires absent { is_listed self.old.ids id ≡ false }
        ensures ids { self.new.ids ≡ self.old.ids ++ id ∷ [] }
        ensures capacity { self.new.capacity ≡ self.old.capacity }
    {
        self.links.cover(id.number);
        self.links.link_back(id.number);
        self.len += 1;
    }

    /// Removes an id, which must be in the list.
    pub fn remove(&mut self, id: NodeId)
        requires { is_listed self.old.ids id ≡ true }
        ensures ids { self.new.ids ≡ ids_without id self.old.ids }
        ensures capacity { self.new.capacity ≡ self.old.capacity }
    {
        self.links.unlink(id.number);
        self.len -= 1;
    }

    /// Moves an id to the back, which must be in the list.
    pub fn move_to_back(&mut self, id: NodeId)
        requires { is_listed self.old.ids id ≡ true }
        ensures ids { self.new.ids ≡ ids_without id self.old.ids ++ id ∷ [] }
        ensures capacity { self.new.capacity ≡ self.old.capacity }
    {
        self.links.unlink(id.number);
        self.links.link_back(id.number);
    }
}
