//! A list whose links lie apart from its elements, for an owner that moves nodes often: a move touches eight bytes at each of five nodes at most, and no
//! element. It has no cursor.
ghost use Rattle.std.specs.Prelude.{◌≡◌, ◌≢◌, ℕ, ◌+◌, ◌<◌, ◌≤◌, ◌-◌, ◌^◌, [], ◌∷◌, ◌++◌, ◌↔◌, nat_eq, length, IsTrue, IsOk, OnOk, Some, None};
ghost use Rattle.std.specs.Borrow.{sem};
ghost use Rattle.std.specs.List.{IsDistinct};
ghost use Rattle.std.specs.Map.{lookup, keys_of, remove_entry, values_of};
ghost use Rattle.moka_list.specs.Chain.{moved_before};
ghost use Rattle.moka_list.specs.Nodes.{IsIn, first_id, moved_to_back, next_id};

mod ids;
mod iter;
mod links;

pub use ids::IdList;
pub use iter::Iter;
use links::{LinkTable, NONE};
use moka_common::error::OutOfMemory;
use slab::Slab;
use std::alloc::{AllocError, Allocator, Global};
use std::marker::Model;

/// The name of a node of one list. Once the node has left the list, a later node may get the same name.
#[derive(Clone, Copy, Debug, PartialEq, Eq)]
pub struct NodeId {
    pub(crate) number: usize,
}

impl Model for NodeId {
    ghost use Rattle.std.specs.Prelude.{ℕ};

    ghost Value = { ℕ };

    ghost view = { λ id. id.number };

    ghost inverse = { λ n. record { number = n } };
}

impl NodeId {
    /// Returns the number of the node, for an owner that keeps its ids as numbers.
    pub fn number(self) -> usize
        ensures { result ≡ self }
    {
        self.number
    }

    /// Returns the id with this number.
    pub fn from_number(number: usize) -> NodeId
        ensures { result ≡ number }
    {
        NodeId { number }
    }
}

/// A list of elements under ids, at most as many as 32 bits number.
///
/// Every call takes constant time, but for the memory that `reserve_exact` asks for. A node takes at most 16 bytes beside its element.
#[derive(Drop)]
pub struct Chain<T, A: Allocator = Global> {
    slots: Slab<T, A>,
    links: LinkTable<A>,
}

impl<T, A: Allocator> Model for Chain<T, A> {
    ghost use Rattle.std.specs.Prelude.{◌-◌};
    ghost use Rattle.slab.specs.Slab.{slab_len};
    ghost use Rattle.moka_list.specs.Chain.{Chain as Items};
    ghost use Rattle.moka_list.specs.Chained.{IsChained, capacity_of, items_of};

    ghost Value = { Items T };

    ghost view = { λ c. record {
      items = items_of c.slots c.links;
      room = capacity_of c.slots c.links - slab_len c.slots;
      capacity = capacity_of c.slots c.links;
      ids = c.slots.capacity;
    } };

    ghost invariant = { λ c. IsChained c.slots c.links (items_of c.slots c.links) };
}

impl<T, A: Allocator> Chain<T, A> {
    ghost use Rattle.moka_list.specs.ChainLends.{lends_element};

    /// Makes an empty chain, which allocates nothing. It takes an allocator for its elements and one for their links.
    pub fn new(elements: A, links: A) -> Self
        ensures items { result.items ≡ [] }
        ensures room { result.room ≡ 0 }
        ensures capacity { result.capacity ≡ 0 }
        ensures ids { result.ids ≡ 0 }
    {
        Chain {
            slots: Slab::new(elements),
            links: LinkTable::new(links),
        }
    }

    /// Returns the number of elements.
    pub fn len(&self) -> usize
        ensures len { result ≡ length self.now.items }

        // What holds of every chain: no node comes twice, and there is room for the rest of the capacity.
        ensures distinct { IsDistinct nat_eq (keys_of self.now.items) }
        ensures room { self.now.room ≡ self.now.capacity - length self.now.items }
    {
        self.slots.len()
    }

    /// Reserves capacity for `additional` more elements when there is none. If that is refused, there may be less capacity than before.
    pub fn reserve_exact(&mut self, additional: usize) -> Result<(), OutOfMemory>
        ensures ok { OnOk result (additional ≤ self.new.room) }
        ensures holds_all { OnOk result (length self.new.items + additional ≤ self.new.capacity) }
        ensures had_room { length self.old.items + additional ≤ self.old.capacity → IsOk result × (self.new ≡ self.old) }
        ensures items { self.new.items ≡ self.old.items }
    {
        if self.has_room_for(additional) {
            return Ok(());
        }
        match self.grow(additional) {
            Ok(()) => Ok(()),
            Err(_) => Err(OutOfMemory),
        }
    }

    /// Reserves capacity for `additional` more elements when there is none. Links come first, so a refusal leaves the capacity as it was.
    fn grow(&mut self, additional: usize) -> Result<(), AllocError>
        ensures ok { OnOk result (additional ≤ self.new.room) }
        ensures holds_all { OnOk result (length self.new.items + additional ≤ self.new.capacity) }
        ensures items { self.new.items ≡ self.old.items }
    {
        self.links
            .reserve(self.slots.len().saturating_add(additional))?;
        self.slots.reserve_exact(additional)?;

        // What was reserved may be more than was asked for.
        self.links.reserve(self.slots.capacity())
    }

    /// Returns `true` if `additional` more elements fit.
    fn has_room_for(&self, additional: usize) -> bool
        ensures holds_all { IsTrue result ↔ length self.now.items + additional ≤ self.now.capacity }
        ensures room { IsTrue result → additional ≤ self.now.room }
    {
        let (len, capacity) = (self.slots.len(), self.slots.capacity());
        if capacity > self.links.capacity() {
            return len == 0 && additional == 0;
        }
        additional <= capacity - len
    }

    /// Returns the number of elements that fit with no allocation, those that are there included. All ids are below it.
    pub fn capacity(&self) -> usize
        ensures value { result ≡ self.now.ids }
        ensures holds_all { self.now.capacity ≤ result }
        ensures room { length self.now.items + self.now.room ≤ result }
        ensures bound { (id : ℕ) → IsIn self.now.items id → id < result }
    {
        self.slots.capacity()
    }

    /// Returns the number of elements that fit with no allocation, those in the chain among them. It is below 2^32.
    pub fn fits(&self) -> usize
        ensures value { result ≡ self.now.capacity }
        ensures few { result < 2 ^ 32 }
        ensures room { self.now.room ≡ self.now.capacity - length self.now.items }
    {
        let capacity = self.slots.capacity();
        if capacity > self.links.capacity() {
            return 0;
        }
        capacity
    }

    /// Returns `true` if the node is in the chain.
    pub fn contains(&self, id: NodeId) -> bool
        ensures { IsTrue result ↔ IsIn self.now.items id }
    {
        self.slots.contains(id.number)
    }

    /// Returns the element of the node, which must be in the chain: `contains` is the test.
    pub fn get(&self, id: NodeId) -> &T
        requires { IsIn self.now.items id }
        ensures { lookup (nat_eq id) self.now.items ≡ Some result.now }
    {
        &self.slots[id.number]
    }

    /// Returns the element of the node for writing. The node must be in the chain: `contains` is the test.
    pub fn get_mut(&mut self, id: NodeId) -> &mut T
        requires { IsIn self.old.items id }
        ensures* writes_back { sem 𝓛 (lends_element T.row A.row A.Allocator self.entry id result) }
        ensures value { lookup (nat_eq id) self.old.items ≡ Some result.now }
    {
        &mut self.slots[id.number]
    }

    /// Returns the node at the front.
    pub fn front(&self) -> Option<NodeId>
        ensures { result ≡ first_id self.now.items }
    {
        let first = self.links.first;
        if first == NONE {
            return None;
        }
        Some(NodeId {
            number: first as usize,
        })
    }

    /// Returns the node after this one, which must be in the chain: `contains` is the test.
    pub fn next(&self, id: NodeId) -> Option<NodeId>
        requires { IsIn self.now.items id }
        ensures { result ≡ next_id id self.now.items }
    {
        let next = self.links.links[id.number].next;
        if next == NONE {
            return None;
        }
        Some(NodeId {
            number: next as usize,
        })
    }

    /// Puts the element at the back, in room that was reserved. It allocates nothing.
    pub fn push_reserved(&mut self, element: T) -> NodeId
        requires { 0 < self.old.room }
        ensures items { self.new.items ≡ self.old.items ++ (result, element) ∷ [] }
        ensures new_id { lookup (nat_eq result) self.old.items ≡ None }
        ensures room { self.old.room ≡ self.new.room + 1 }
        ensures unchanged { self.new ≡ record self.old { items = self.new.items; room = self.new.room } }

        // Its id is below the capacity.
        ensures below { result < length self.new.items + self.new.room }
    {
        let id = self.slots.insert_reserved(element);
        self.links.cover(id);
        self.links.link_back(id);
        NodeId { number: id }
    }

    /// Takes out the node, which must be in the chain: `contains` tells.
    pub fn unlink(&mut self, id: NodeId) -> T
        requires { IsIn self.old.items id }
        ensures value { lookup (nat_eq id) self.old.items ≡ Some result }
        ensures items { self.new.items ≡ remove_entry (nat_eq id) self.old.items }
        ensures room { self.old.room ≤ self.new.room }
        ensures room_after { self.new.room ≤ self.old.room + 1 }
        ensures room_left { self.new.room ≡ self.new.capacity - length self.new.items }
        ensures unchanged { self.new ≡ record self.old { items = self.new.items; room = self.new.room } }
    {
        let element = self.slots.remove(id.number);
        self.links.unlink(id.number);
        element
    }

    /// Moves the node to the back. The node must be in the chain, which `contains` tells.
    #[inline]
    pub fn move_to_back(&mut self, id: NodeId)
        requires { IsIn self.old.items id }
        ensures items { self.new.items ≡ moved_to_back id self.old.items }
        ensures room { self.new.room ≡ self.old.room }
        ensures unchanged { self.new ≡ record self.old { items = self.new.items } }
    {
        self.links.unlink(id.number);
        self.links.link_back(id.number);
    }

    /// Moves the node to right before the node `next`, in constant time. No other node moves. Both must be in the chain, which `contains` tells, and be two
    /// nodes, which `!=` tells.
    #[inline]
    pub fn move_before(&mut self, id: NodeId, next: NodeId)
        requires here { IsIn self.old.items id }
        requires next { IsIn self.old.items next }
        requires apart { id ≢ next }
        ensures items { self.new.items ≡ moved_before id next self.old.items }
        ensures room { self.new.room ≡ self.old.room }
        ensures unchanged { self.new ≡ record self.old { items = self.new.items } }
    {
        if self.links.links[id.number].next as usize == next.number {
            // It stands there already.
            return;
        }
        self.links.unlink(id.number);
        self.links.link_before(id.number, next.number);
    }

    /// Returns an iterator over the elements from front to back.
    pub fn iter(&self) -> Iter<'_, T, A>
        ensures { result ≡ values_of self.now.items }
    {
        Iter {
            slots: &self.slots,
            links: &self.links,
            next: self.links.first,
            left: self.slots.len(),
        }
    }
}
