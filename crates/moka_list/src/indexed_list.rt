//! A list whose elements are found by their hash: a chain with an index beside it.
ghost use Rattle.std.specs.Prelude.{◌≡◌, ℕ, ◌+◌, ◌<◌, ◌≤◌, [], ◌∷◌, ◌++◌, ◌↔◌, nat_eq, length};
ghost use Rattle.std.specs.Prelude.{IfSome, IsNone, IsOk, IsSome, IsTrue, None, OnOk, Some};
ghost use Rattle.std.specs.Fn.{FnOnceReturnsAtMut, FnReturnsAt};
ghost use Rattle.std.specs.List.{IsDistinct};
ghost use Rattle.std.specs.Map.{lookup, keys_of, remove_entry, set_value};
ghost use Rattle.moka_list.specs.IndexedList.{NonePasses, Passes};
ghost use Rattle.moka_list.specs.Nodes.{IsIn, first_id, moved_to_back, next_id};

use crate::chain::{Chain, NodeId};
use crate::growing_index::GrowingIndex;
use crate::indexing::{make_room, move_some};
use moka_common::error::OutOfMemory;
use moka_common::hash::Hashed;
use std::alloc::{AllocError, Allocator, Global};
use std::marker::Model;

/// A list of elements under ids, which finds an element by its hash.
///
/// Every call takes constant time, a search or a change on average, but for the memory that `reserve_exact` asks for.
#[derive(Drop)]
pub struct IndexedList<T: Hashed, A: Allocator = Global> {
    list: Chain<T, A>,
    index: GrowingIndex<A>,
}

impl<T: Hashed, A: Allocator> Model for IndexedList<T, A> {
    ghost use Rattle.std.specs.Prelude.{length, nat_eq};
    ghost use Rattle.std.specs.List.{IsDistinct};
    ghost use Rattle.std.specs.Map.{keys_of};
    ghost use Rattle.moka_list.specs.IndexedList.{IndexedList as Items};
    ghost use Rattle.moka_list.specs.Indexed.{IsIndexed, room_beside};

    ghost Value = { Items T };

    ghost view = { λ l. record {
      items = l.list.items;
      room = room_beside (length l.list.items) l.list.room l.index.ids;
      ids = l.index.ids;
    } };

    ghost invariant = { λ l. IsDistinct nat_eq (keys_of l.list.items) × IsIndexed T.hash_of l.list.items l.index };
}

impl<T: Hashed, A: Allocator> IndexedList<T, A> {
    /// Makes an empty list, which allocates nothing. It takes an allocator for its elements, one for their links and two for the tables of its index.
    pub fn new(elements: A, links: A, index: A, smaller: A) -> Self
        ensures { result ≡ record { items = []; room = 0; ids = 0 } }
    {
        IndexedList {
            list: Chain::new(elements, links),
            index: GrowingIndex::new(index, smaller),
        }
    }

    /// Returns the number of elements.
    pub fn len(&self) -> usize
        ensures len { result ≡ length self.now.items }

        // What holds of every list: no node comes twice.
        ensures distinct { IsDistinct nat_eq (keys_of self.now.items) }
    {
        self.list.len()
    }

    /// Returns a number that all ids are below, those of the elements that fit with no allocation among them.
    pub fn capacity(&self) -> usize
        ensures { (id : ℕ) → IsIn self.now.items id → id < result }
    {
        self.list.capacity()
    }

    /// Returns a number that all ids are below, also those of the elements that fit with no allocation: the length of a table by ids.
    pub fn ids(&self) -> usize
        ensures { result ≡ self.now.ids }
    {
        self.index.ids()
    }

    /// Returns the number of elements that fit with no allocation.
    pub fn room(&self) -> usize
        ensures { result ≡ self.now.room }
    {
        let len = self.list.len();
        let room = self.list.fits().saturating_sub(len);
        if room <= self.index.ids().saturating_sub(len) {
            return room;
        }
        0
    }

    /// Reserves capacity for `additional` more elements, if there is less.
    #[inline]
    pub fn reserve_exact(&mut self, additional: usize) -> Result<(), OutOfMemory>
        ensures ok { OnOk result (additional ≤ self.new.room) }
        ensures had_room { additional ≤ self.old.room → IsOk result × (self.new ≡ self.old) }
        ensures items { self.new.items ≡ self.old.items }
    {
        if additional <= self.room() {
            return Ok(());
        }
        self.grow(additional)
    }

    /// Reserves capacity for `additional` more elements. The index grows first, so a refusal of its memory leaves the list as it was.
    #[cold]
    fn grow(&mut self, additional: usize) -> Result<(), OutOfMemory>
        ensures ok { OnOk result (additional ≤ self.new.room) }
        ensures items { self.new.items ≡ self.old.items }
    {
        let (len, capacity) = (self.list.len(), self.list.capacity());
        let needed = len.saturating_add(additional);
        make_room(&mut self.index, &self.list, capacity.max(needed))?;
        self.list.reserve_exact(additional)?;

        // More may have been reserved than was asked for.
        make_room(&mut self.index, &self.list, self.list.capacity())
    }

    /// Returns the node of an element of this hash that passes the test.
    #[inline]
    pub fn find<F: Fn(&T) -> bool>(&self, hash: u64, eq: F) -> Option<NodeId>
        requires { F.IsAlwaysCallable eq }
        ensures found { IfSome result (λ id. Passes (FnReturnsAt F.Fn eq) self.now.items id) }
        ensures absent { IsNone result → NonePasses (FnReturnsAt F.Fn eq) T.hash_of hash self.now.items }
    {
        let list = &self.list;
        let is_sought = |number|
            requires { IsSome (lookup (nat_eq number) list.now.items) × F.IsAlwaysCallable eq }
            ensures { IfSome (lookup (nat_eq number) list.entry.now.items) (λ e. FnReturnsAt F.Fn eq e result) }
        { eq(list.get(NodeId::from_number(number))) };
        let number = self.index.find(hash, is_sought)?;
        Some(NodeId::from_number(number))
    }

    /// Returns `true` if the node is in the list.
    pub fn contains(&self, id: NodeId) -> bool
        ensures { IsTrue result ↔ IsIn self.now.items id }
    {
        self.list.contains(id)
    }

    /// Returns the element of the node, which must be in the list: `contains` tells.
    pub fn get(&self, id: NodeId) -> &T
        requires { IsIn self.now.items id }
        ensures { lookup (nat_eq id) self.now.items ≡ Some result.now }
    {
        self.list.get(id)
    }

    /// Changes the element of the node, which must be in the list, and leaves its hash as it is.
    #[inline]
    pub fn update<F: FnOnce(&mut T)>(&mut self, id: NodeId, change: F)
        requires here { IsIn self.old.items id }
        requires callable { F.IsAlwaysCallable change }
        requires keeps_hash { (old new : T) → FnOnceReturnsAtMut F.FnOnce change old tt new → T.hash_of new ≡ T.hash_of old }
        ensures { (old : T) × (new : T) × (lookup (nat_eq id) self.old.items ≡ Some old) × FnOnceReturnsAtMut F.FnOnce change old tt new
            × (self.new ≡ record self.old { items = set_value (nat_eq id) self.old.items new }) }
    {
        change(self.list.get_mut(id));
    }

    /// Returns the node at the front.
    pub fn front(&self) -> Option<NodeId>
        ensures { result ≡ first_id self.now.items }
    {
        self.list.front()
    }

    /// Returns the node after this one, which must be in the list: `contains` tells.
    pub fn next(&self, id: NodeId) -> Option<NodeId>
        requires { IsIn self.now.items id }
        ensures { result ≡ next_id id self.now.items }
    {
        self.list.next(id)
    }

    /// Puts the element at the back, in room that was reserved. It allocates nothing.
    pub fn push_reserved(&mut self, element: T) -> NodeId
        requires { 0 < self.old.room }
        ensures items { self.new.items ≡ self.old.items ++ (result, element) ∷ [] }
        ensures new_id { lookup (nat_eq result) self.old.items ≡ None }
        ensures room { self.old.room ≡ self.new.room + 1 }
        ensures below { result < self.old.ids }
        ensures ids { self.new.ids ≡ self.old.ids }
    {
        let hash = element.hash();
        let id = self.list.push_reserved(element);
        self.index.add(id.number(), hash);
        move_some(&mut self.index, &self.list);
        id
    }

    /// Takes out the node, which must be in the list: `contains` tells. Its room stays.
    pub fn remove(&mut self, id: NodeId) -> T
        requires { IsIn self.old.items id }
        ensures value { lookup (nat_eq id) self.old.items ≡ Some result }
        ensures items { self.new.items ≡ remove_entry (nat_eq id) self.old.items }
        ensures room { self.old.room ≤ self.new.room }
        ensures ids { self.new.ids ≡ self.old.ids }
    {
        let element = self.list.unlink(id);
        self.index.remove(id.number(), element.hash());
        element
    }

    /// Moves the node to the back. The node must be in the list, which `contains` tells.
    #[inline]
    pub fn move_to_back(&mut self, id: NodeId)
        requires { IsIn self.old.items id }
        ensures { self.new ≡ record self.old { items = moved_to_back id self.old.items } }
    {
        self.list.move_to_back(id);
    }
}
