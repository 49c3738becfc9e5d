//! Lists whose nodes are named by small ids, with a cursor that steps through them. Each node is a block of its own.
ghost use Rattle.std.specs.Prelude.{◌≡◌, ℕ, ◌+◌, ◌-◌, ◌<◌, ◌≤◌, ◌==◌, [], ◌∷◌, ◌++◌, ◌↔◌, nat_eq, length, slice_get, IsTrue};
ghost use Rattle.std.specs.Prelude.{IsOk, IfOk, OnOk, IfErr, OnErr, IfSome, IsNone, None, Some, option_copied};
ghost use Rattle.std.specs.Borrow.{sem};
ghost use Rattle.std.specs.List.{IsDistinct};
ghost use Rattle.std.specs.Map.{lookup, keys_of, values_of};
ghost use Rattle.moka_deque.specs.Deque.{number_of, CursorIsIn, lent_by_step, stepped};
ghost use Rattle.moka_list.specs.Nodes.{IsIn, first_id, next_id};
ghost use Rattle.moka_deque.specs.Deque.{after_unlink, after_pop_front, after_move_to_back, after_move_front_to_back};

mod cursor;
mod iter;
mod linked;
mod nodes;

pub use cursor::Cursor;
use cursor::{advanced, entered, pass};
pub use iter::Iter;
use linked::Linked;
use moka_common::error::OutOfMemory;
pub use moka_list::chain::NodeId;
use std::alloc::{Allocator, Global};
use std::marker::Model;

/// Which of a cache's lists it is.
#[derive(Clone, Copy, Debug, PartialEq, Eq)]
pub enum CacheRegion {
    Window = 0,
    MainProbation = 1,
    MainProtected = 2,
    Other = 3,
}

impl CacheRegion {
    /// Returns the region with this number.
    pub fn from_number(number: usize) -> Option<CacheRegion>
        ensures found { IfSome result (λ region. number_of region ≡ number) }
        ensures absent { IsNone result ↔ (3 < number) }
    {
        match number {
            0 => Some(CacheRegion::Window),
            1 => Some(CacheRegion::MainProbation),
            2 => Some(CacheRegion::MainProtected),
            3 => Some(CacheRegion::Other),
            _ => None,
        }
    }

    /// Returns `true` if the region has this number.
    pub fn is_number(self, number: usize) -> bool
        ensures { result ≡ (number_of self == number) }
    {
        self as usize == number
    }
}

/// A list of elements with a cursor.
///
/// Every call takes constant time, but for the memory that a `push_back` without reserved room or a `reserve` asks for. Dropping the list drops
/// its elements from front to back. An element stays where it is until its node leaves. A node takes at most 48 bytes beside its element, and what the
/// allocator keeps of a block.
pub struct Deque<T, A: Allocator = Global> {
    list: Linked<T, A>,
    cursor: Cursor,
    region: CacheRegion,
}

impl<T, A: Allocator> Model for Deque<T, A> {
    ghost use Rattle.moka_deque.specs.Deque.{Deque as Items, CursorIsIn};

    ghost Value = { Items T };

    ghost view = { λ d. record {
      items = d.list.items;
      cursor = d.cursor;
      room = d.list.room;
      region = d.region;
    } };

    ghost invariant = { λ d. CursorIsIn d.list.items d.cursor };
}

impl<T, A: Allocator> Deque<T, A> {
    ghost use Rattle.moka_deque.specs.DequeLends.{ends_as, lends_element};

    /// Makes an empty list, which allocates nothing.
    pub fn new(alloc: A, region: CacheRegion) -> Deque<T, A>
        ensures items { result.items ≡ [] }
        ensures cursor { result.cursor ≡ Cursor.Start }
        ensures room { result.room ≡ 0 }
        ensures region { result.region ≡ region }
    {
        Deque {
            list: Linked::new(alloc),
            cursor: Cursor::Start,
            region,
        }
    }

    /// Returns the region that the list was made for.
    pub fn region(&self) -> CacheRegion
        ensures { result ≡ self.now.region }
    {
        self.region
    }

    /// Returns the number of elements.
    pub fn len(&self) -> usize
        ensures len { result ≡ length self.now.items }

        // What holds of every list: no node comes twice, and the cursor is in it.
        ensures distinct { IsDistinct nat_eq (keys_of self.now.items) }
        ensures cursor { CursorIsIn self.now.items self.now.cursor }
    {
        self.list.len()
    }

    /// Returns `true` if the list has no element.
    pub fn is_empty(&self) -> bool
        ensures { result ≡ (length self.now.items == 0) }
    {
        self.len() == 0
    }

    /// Makes room for `additional` more elements, so that as many calls of `push_back` need no memory. It moves no element.
    pub fn reserve(&mut self, additional: usize) -> Result<(), OutOfMemory>
    where
        A: Clone,
        ensures ok { OnOk result (additional ≤ self.new.room) }
        ensures succeeds { additional ≤ self.old.room → IsOk result }
        ensures had_room { additional ≤ self.old.room → self.new ≡ self.old }
        ensures room { self.old.room ≤ self.new.room }
        ensures unchanged { self.new ≡ record self.old { room = self.new.room } }
    {
        match self.list.reserve(additional) {
            Ok(()) => Ok(()),
            Err(_) => Err(OutOfMemory),
        }
    }

    /// Reserves capacity for `additional` more elements and no more, where `reserve` may make the table of slots larger so that it seldom grows.
    pub fn reserve_exact(&mut self, additional: usize) -> Result<(), OutOfMemory>
    where
        A: Clone,
        ensures ok { OnOk result (additional ≤ self.new.room) }
        ensures succeeds { additional ≤ self.old.room → IsOk result }
        ensures had_room { additional ≤ self.old.room → self.new ≡ self.old }
        ensures room { self.old.room ≤ self.new.room }
        ensures unchanged { self.new ≡ record self.old { room = self.new.room } }
    {
        match self.list.reserve_exact(additional) {
            Ok(()) => Ok(()),
            Err(_) => Err(OutOfMemory),
        }
    }

    /// Returns the number of elements that fit with no allocation, those in the list among them. All ids are below it.
    pub fn capacity(&self) -> usize
        ensures value { result ≡ length self.now.items + self.now.room }
        ensures bound { (id : ℕ) → IsIn self.now.items id → id < result }
    {
        self.list.capacity()
    }

    /// Puts the element at the back, or hands it back if memory is refused. It allocates only if no capacity is reserved.
    #[inline]
    pub fn push_back(&mut self, element: T) -> Result<NodeId, T>
    where
        A: Clone,
        ensures ok { IfOk result (λ id. self.new.items ≡ self.old.items ++ (id, element) ∷ []) }
        ensures new_id { IfOk result (λ id. lookup (nat_eq id) self.old.items ≡ None) }
        ensures unchanged { self.new ≡ record self.old { items = self.new.items; room = self.new.room } }

        // It is refused only if there is no capacity, and then nothing changes but that there may be more.
        ensures succeeds { 0 < self.old.room → IsOk result }
        ensures err { OnErr result (self.new ≡ record self.old { room = self.new.room }) }
        ensures value_returned { IfErr result (λ back. back ≡ element) }
        ensures room { self.old.room ≤ self.new.room + 1 }
        ensures room_stays { OnErr result (self.old.room ≤ self.new.room) }
    {
        if self.list.reserve(1).is_err() {
            return Err(element);
        }
        Ok(self.push_reserved(element))
    }

    /// Puts the element at the back, in room that was reserved. It allocates nothing.
    #[inline]
    pub fn push_reserved(&mut self, element: T) -> NodeId
        requires { 0 < self.old.room }
        ensures items { self.new.items ≡ self.old.items ++ (result, element) ∷ [] }
        ensures new_id { lookup (nat_eq result) self.old.items ≡ None }
        ensures unchanged { self.new ≡ record self.old { items = self.new.items; room = self.new.room } }
        ensures room { self.old.room ≡ self.new.room + 1 }

        // Its id is below the capacity.
        ensures below { result < length self.new.items + self.new.room }
    {
        let number = self.list.push_reserved(element);
        NodeId::from_number(number)
    }

    /// Returns `true` if the node is in the list.
    pub fn contains(&self, id: NodeId) -> bool
        ensures { IsTrue result ↔ IsIn self.now.items id }
    {
        self.list.contains(id.number())
    }

    /// Returns the element at the front.
    pub fn peek_front(&self) -> Option<&T>
        ensures { option_copied result ≡ slice_get (values_of self.now.items) 0 }
    {
        let id = self.list.first()?;
        Some(self.list.get(id))
    }

    /// Returns the element at the back.
    pub fn peek_back(&self) -> Option<&T>
        ensures { option_copied result
            ≡ slice_get (values_of self.now.items) (length self.now.items - 1) }
    {
        let id = self.list.last()?;
        Some(self.list.get(id))
    }

    /// Returns the node at the front.
    pub fn front(&self) -> Option<NodeId>
        ensures { result ≡ first_id self.now.items }
    {
        let number = self.list.first()?;
        Some(NodeId::from_number(number))
    }

    /// Returns the node after this one, which must be in the list: `contains` is the test.
    pub fn next(&self, id: NodeId) -> Option<NodeId>
        requires { IsIn self.now.items id }
        ensures { result ≡ next_id id self.now.items }
    {
        let number = self.list.next(id.number())?;
        Some(NodeId::from_number(number))
    }

    /// Returns the element of the node, which must be in the list: `contains` is the test.
    pub fn get(&self, id: NodeId) -> &T
        requires { IsIn self.now.items id }
        ensures { lookup (nat_eq id) self.now.items ≡ Some result.now }
    {
        self.list.get(id.number())
    }

    /// Returns the element of the node for writing. The node must be in the list: `contains` is the test.
    pub fn get_mut(&mut self, id: NodeId) -> &mut T
        requires { IsIn self.old.items id }
        ensures* writes_back { sem 𝓛 (lends_element T.row A.row A.Allocator self.entry id result) }
        ensures value { lookup (nat_eq id) self.old.items ≡ Some result.now }
    {
        self.list.get_mut(id.number())
    }

    /// Takes out the first node. A cursor at it advances first.
    pub fn pop_front(&mut self) -> Option<T>
        ensures value { result ≡ slice_get (values_of self.old.items) 0 }
        ensures step { self.new ≡ after_pop_front self.old }
    {
        let first = self.list.first()?;
        pass(&mut self.cursor, &self.list, first);
        Some(self.list.unlink(first))
    }

    /// Moves the node to the back. A cursor at it doesn't follow. The node must be in the list: `contains` is the test.
    pub fn move_to_back(&mut self, id: NodeId)
        requires { IsIn self.old.items id }
        ensures { self.new ≡ after_move_to_back id self.old }
    {
        let number = id.number();
        if self.list.next(number).is_none() {
            return;
        }
        pass(&mut self.cursor, &self.list, number);
        self.list.move_to_back(number);
    }

    /// Moves the first node to the back, if there is one.
    pub fn move_front_to_back(&mut self)
        ensures { self.new ≡ after_move_front_to_back self.old }
    {
        if let Some(id) = self.front() {
            self.move_to_back(id);
        }
    }

    /// Takes out the node, which must be in the list: `contains` tells. A cursor at it advances first.
    pub fn unlink(&mut self, id: NodeId) -> T
        requires { IsIn self.old.items id }
        ensures value { lookup (nat_eq id) self.old.items ≡ Some result }
        ensures step { self.new ≡ after_unlink id self.old }
    {
        let number = id.number();
        pass(&mut self.cursor, &self.list, number);
        self.list.unlink(number)
    }

    /// Unlinks a node and drops its element.
    pub fn unlink_and_drop(&mut self, id: NodeId)
    where
        T: Drop,
        requires { IsIn self.old.items id }
        ensures step { self.new ≡ after_unlink id self.old }
    {
        drop(self.unlink(id));
    }

    /// Lends the element at the cursor, and advances the cursor. From the start it goes to the front first; past the back it gives `None` once,
    /// and starts again.
    pub fn step(&mut self) -> Option<&T>
        ensures* step { sem 𝓛 (ends_as T.row A.row A.Allocator self.entry (stepped self.old)) }
        ensures value { option_copied result ≡ lent_by_step self.old }
    {
        let here = entered(&self.list, self.cursor);
        self.cursor = advanced(&self.list, here);
        match here {
            Cursor::At(id) => Some(self.list.get(id)),
            _ => None,
        }
    }

    /// Puts the cursor at the start.
    pub fn reset_cursor(&mut self)
        ensures { self.new ≡ record self.old { cursor = Cursor.Start } }
    {
        self.cursor = Cursor::Start;
    }

    /// Returns an iterator over the elements from front to back. It leaves the cursor as it is.
    pub fn iter(&self) -> Iter<'_, T, A>
        ensures { result ≡ values_of self.now.items }
    {
        self.list.iter()
    }
}

impl<T: Drop, A: Allocator> Drop for Deque<T, A> {
    fn drop(self) {
        let Deque {
            list: _,
            cursor: _,
            region: _,
        } = self;
    }
}
