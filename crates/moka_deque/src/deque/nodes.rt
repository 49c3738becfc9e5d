// The nodes of a list. Each is a block of its own, in the list or spare, and keeps its id and a slot in the table of nodes as long as it lives.
ghost use Rattle.std.specs.Prelude.{◌≡◌, ℕ, ◌+◌, ◌-◌, ◌<◌, ◌≤◌, [], ◌∷◌, ◌++◌, ◌↔◌, nat_eq, length, IsTrue, IsOk, IfOk, OnOk, OnErr, Some};
ghost use Rattle.std.specs.Borrow.{sem};
ghost use Rattle.std.specs.Map.{lookup};
ghost use Rattle.slab.specs.Slab.{ContainsKey, HasRoomFor, Updates, get, slab_len};
ghost use Rattle.moka_list.specs.Nodes.{AreApart, IsIn, first_id, next_id, moved_to_back};
ghost use Rattle.moka_deque.specs.Lends.{lends_element, lends_value};
ghost use Rattle.moka_deque.specs.Linked.{EndsWith, Pushes, Unlinks};
ghost use Rattle.moka_deque.specs.RawNodes.{IsAt, AtNode, linked};
ghost use Rattle.moka_deque.specs.Slots.{AreEnds, Follows, HasFollower, IsFirst, IsLast, IsPlaced, IsTied, items_of, live_at, nodes_of, room_of, shown};
ghost use Rattle.moka_deque.specs.declared.deque.nodes.Slot.{Slot};

use crate::raw::{Detached, List, NodePtr, Spare, allocate, deallocate, deallocate_blank};
use slab::Slab;
use std::alloc::{AllocError, Allocator, Global};

// Where a node lies, and whether it is in the list.
#[derive(Drop)]
pub(crate) struct Slot<T, A> {
    pub(crate) node: NodePtr<usize, T, A>,
    pub(crate) live: bool,
}

// The list with the blocks at its two ends.
pub(crate) struct Ends<T, A: Allocator> {
    pub(crate) head: NodePtr<usize, T, A>,
    pub(crate) tail: NodePtr<usize, T, A>,
    pub(crate) list: List<usize, T, A>,
}

impl<T, A: Allocator> Ends<T, A> {
    // The ends of an empty list.
    fn new(alloc: &A) -> Result<Ends<T, A>, AllocError>
        ensures ends { IfOk result (λ ends. AreEnds alloc.now ends) }
        ensures empty { IfOk result (λ ends. ends.list.nodes ≡ []) }
    {
        let head = allocate(alloc)?;
        let tail = match allocate(alloc) {
            Ok(tail) => tail,
            Err(error) => {
                deallocate_blank(alloc, head);
                return Err(error);
            }
        };
        let (head_block, head) = head.placed();
        let (tail_block, tail) = tail.placed();
        Ok(Ends {
            head,
            tail,
            list: List::new(head_block, tail_block),
        })
    }

    // The id of the first node.
    fn first(&self) -> usize
        requires ends { AreEnds self.now.list.alloc self.now }
        requires found { 0 < length self.now.list.nodes }
        ensures { IsFirst self.now.list.nodes result }
    {
        let node = self.list.next(self.head);
        let (id, _) = self.list.entry(node);
        *id
    }

    // The id of the last node.
    fn last(&self) -> usize
        requires ends { AreEnds self.now.list.alloc self.now }
        requires found { 0 < length self.now.list.nodes }
        ensures { IsLast self.now.list.nodes result }
    {
        let node = self.list.prev(self.tail);
        let (id, _) = self.list.entry(node);
        *id
    }

    // The id of the node behind this one.
    fn after(&self, node: NodePtr<usize, T, A>) -> usize
        requires { HasFollower self.now.list.nodes node.ptr }
        ensures { Follows self.now.list.nodes node.ptr result }
    {
        let after = self.list.next(node);
        let (id, _) = self.list.entry(after);
        *id
    }

    fn value_mut(&mut self, node: NodePtr<usize, T, A>) -> &mut T
        requires { IsAt self.old.list.nodes node.ptr }
        ensures* lends { sem 𝓛 (lends_value T.row A.row A.Allocator self.entry node.ptr result) }
        ensures value { AtNode self.old.list.nodes node.ptr (λ _ n _. result.now ≡ n.element) }
    {
        self.list.element_mut(node)
    }

    // Takes the node out.
    fn take_out(&mut self, node: NodePtr<usize, T, A>) -> Detached<usize, T, A>
        requires { IsAt self.old.list.nodes node.ptr }
        ensures ends { (alloc : A) → AreEnds alloc self.old → AreEnds alloc self.new × (result.alloc ≡ alloc) }
        ensures nodes { AtNode self.old.list.nodes node.ptr (λ xs n ys. (self.new.list.nodes ≡ xs ++ ys) × (n ≡ linked result.ptr result.id result.element)) }
    {
        self.list.detach(node)
    }

    // Links the node in at the back, and tells its id.
    fn put_last(&mut self, node: Detached<usize, T, A>) -> usize
        requires { AreEnds node.alloc self.old }
        ensures ends { AreEnds node.alloc self.new }
        ensures nodes { self.new.list.nodes ≡ self.old.list.nodes ++ linked node.ptr node.id node.element ∷ [] }
        ensures id { result ≡ node.id }
    {
        self.list.attach_last(self.tail, node);
        self.last()
    }

    // Frees the two blocks of an empty list.
    fn free(self, alloc: &A)
        requires ends { AreEnds alloc.now self }
        requires empty { self.list.nodes ≡ [] }
    {
        let Ends { head, tail, list } = self;
        let (head, tail) = list.into_ends(head, tail);
        deallocate_blank(alloc, head);
        deallocate_blank(alloc, tail);
    }
}

pub(crate) struct Nodes<T, A: Allocator = Global> {
    pub(crate) slots: Slab<Slot<T, A>, A>,
    pub(crate) ends: Ends<T, A>,
    pub(crate) spare: Spare<usize, T, A>,
    pub(crate) len: usize,
    pub(crate) alloc: A,
}

impl<T, A: Allocator> Nodes<T, A> {
    // No node yet, but the blocks at both ends.
    pub(crate) fn new(alloc: A, slots_alloc: A) -> Result<Nodes<T, A>, AllocError>
        ensures tied { IfOk result (λ nodes. IsTied nodes) }
        ensures items { IfOk result (λ nodes. items_of nodes ≡ []) }
        ensures room { IfOk result (λ nodes. room_of nodes ≡ 0) }
    {
        let ends = Ends::new(&alloc)?;
        let spare = Spare::new(&alloc);
        Ok(Nodes {
            slots: Slab::new(slots_alloc),
            ends,
            spare,
            len: 0,
            alloc,
        })
    }

    pub(crate) fn len(&self) -> usize
        requires { IsTied self.now }
        ensures len { result ≡ length (items_of self.now) }
        ensures apart { AreApart (items_of self.now) }
    {
        self.len
    }

    pub(crate) fn capacity(&self) -> usize
        requires { IsTied self.now }
        ensures value { result ≡ length (items_of self.now) + room_of self.now }
        ensures bound { (id : ℕ) → IsIn (items_of self.now) id → id < result }
    {
        self.slots.len()
    }

    pub(crate) fn contains(&self, id: usize) -> bool
        requires { IsTied self.now }
        ensures { IsTrue result ↔ IsIn (items_of self.now) id }
    {
        match self.slots.get(id) {
            Some(slot) => slot.live,
            None => false,
        }
    }

    // Where the node lies.
    fn node(&self, id: usize) -> NodePtr<usize, T, A>
        requires tied { IsTied self.now }
        requires found { IsIn (items_of self.now) id }
        ensures placed { IsPlaced (nodes_of self.now) id result.ptr }
        ensures slot { get self.now.slots id ≡ Some (live_at result.ptr) }
    {
        self.slots[id].node
    }

    pub(crate) fn first(&self) -> Option<usize>
        requires { IsTied self.now }
        ensures { result ≡ first_id (items_of self.now) }
    {
        if self.len == 0 {
            return None;
        }
        Some(self.ends.first())
    }

    pub(crate) fn last(&self) -> Option<usize>
        requires { IsTied self.now }
        ensures { EndsWith (items_of self.now) result }
    {
        if self.len == 0 {
            return None;
        }
        Some(self.ends.last())
    }

    pub(crate) fn next(&self, id: usize) -> Option<usize>
        requires tied { IsTied self.now }
        requires found { IsIn (items_of self.now) id }
        ensures { result ≡ next_id id (items_of self.now) }
    {
        let node = self.node(id);
        if self.ends.last() == id {
            return None;
        }
        Some(self.ends.after(node))
    }

    pub(crate) fn element(&self, id: usize) -> &T
        requires tied { IsTied self.now }
        requires found { IsIn (items_of self.now) id }
        ensures { lookup (nat_eq id) (items_of self.now) ≡ Some result.now }
    {
        let node = self.node(id);
        let (_, element) = self.ends.list.entry(node);
        element
    }

    pub(crate) fn element_mut(&mut self, id: usize) -> &mut T
        requires tied { IsTied self.old }
        requires found { IsIn (items_of self.old) id }
        ensures* lends { sem 𝓛 (lends_element T.row A.row A.Allocator self.entry id result) }
        ensures value { lookup (nat_eq id) (items_of self.old) ≡ Some result.now }
    {
        let node = self.node(id);
        self.ends.value_mut(node)
    }

    // A spare node goes to the back.
    pub(crate) fn push_reserved(&mut self, element: T) -> usize
        requires tied { IsTied self.old }
        requires room { 0 < room_of self.old }
        ensures tied { IsTied self.new }
        ensures step { Pushes (shown self.old) (shown self.new) result element }
    {
        prove!(self.len < self.slots.len());
        let node = self.spare.pop().fill(element);
        let id = self.ends.put_last(node);
        mark(&mut self.slots, id, true);
        self.len += 1;
        id
    }

    // The node becomes a spare one.
    pub(crate) fn unlink(&mut self, id: usize) -> T
        requires tied { IsTied self.old }
        requires found { IsIn (items_of self.old) id }
        ensures tied { IsTied self.new }
        ensures step { Unlinks (shown self.old) (shown self.new) id result }
    {
        let node = self.node(id);
        let (element, room) = self.ends.take_out(node).take();
        self.spare.push(room);
        mark(&mut self.slots, id, false);
        self.len -= 1;
        element
    }

    pub(crate) fn move_to_back(&mut self, id: usize)
        requires tied { IsTied self.old }
        requires found { IsIn (items_of self.old) id }
        ensures tied { IsTied self.new }
        ensures items { items_of self.new ≡ moved_to_back id (items_of self.old) }
        ensures apart { AreApart (items_of self.old) }
        ensures room { room_of self.new ≡ room_of self.old }
    {
        let node = self.node(id);
        let node = self.ends.take_out(node);
        let _id = self.ends.put_last(node);
    }

    pub(crate) fn reserve(&mut self, additional: usize) -> Result<(), AllocError>
        requires { IsTied self.old }
        ensures tied { IsTied self.new }
        ensures ok { OnOk result (additional ≤ room_of self.new) }
        ensures succeeds { additional ≤ room_of self.old → IsOk result }
        ensures items { items_of self.new ≡ items_of self.old }
        ensures had_room { additional ≤ room_of self.old → self.new ≡ self.old }
        ensures room { room_of self.old ≤ room_of self.new }
    {
        let missing = self.missing(additional);
        if missing == 0 {
            return Ok(());
        }
        self.slots.reserve(missing)?;
        self.make_spares(missing)
    }

    pub(crate) fn reserve_exact(&mut self, additional: usize) -> Result<(), AllocError>
        requires { IsTied self.old }
        ensures tied { IsTied self.new }
        ensures ok { OnOk result (additional ≤ room_of self.new) }
        ensures succeeds { additional ≤ room_of self.old → IsOk result }
        ensures items { items_of self.new ≡ items_of self.old }
        ensures had_room { additional ≤ room_of self.old → self.new ≡ self.old }
        ensures room { room_of self.old ≤ room_of self.new }
    {
        let missing = self.missing(additional);
        if missing == 0 {
            return Ok(());
        }
        self.slots.reserve_exact(missing)?;
        self.make_spares(missing)
    }

    // How many spare nodes are missing for `additional` more elements.
    fn missing(&self, additional: usize) -> usize
        requires { IsTied self.now }
        ensures { result ≡ additional - room_of self.now }
    {
        additional.saturating_sub(self.slots.len() - self.len)
    }

    // Makes `count` spare nodes. If one is refused, those before it stay.
    fn make_spares(&mut self, count: usize) -> Result<(), AllocError>
        requires tied { IsTied self.old }
        requires slots { HasRoomFor self.old.slots count }
        ensures tied { IsTied self.new }
        ensures items { items_of self.new ≡ items_of self.old }
        ensures ok { OnOk result (room_of self.new ≡ room_of self.old + count) }
        ensures room { room_of self.old ≤ room_of self.new }
    {
        for _ in 0..count {
            self.make_spare()?;
        }
        Ok(())
    }

    // Makes a spare node, with a slot of its own. Its id is the number of nodes before it, so all ids are below the number of nodes.
    fn make_spare(&mut self) -> Result<(), AllocError>
        requires tied { IsTied self.old }
        requires slots { HasRoomFor self.old.slots 1 }
        ensures tied { IsTied self.new }
        ensures items { items_of self.new ≡ items_of self.old }
        ensures ok { OnOk result (room_of self.new ≡ room_of self.old + 1) }
        ensures err { OnErr result (self.new ≡ self.old) }
        ensures len { OnOk result (slab_len self.new.slots ≡ slab_len self.old.slots + 1) }
        ensures capacity { self.new.slots.capacity ≡ self.old.slots.capacity }
    {
        // It never is another: a slab that nothing was removed from gives its keys out in order, which no contract of it says.
        if self.slots.vacant_key() != self.slots.len() {
            return Err(AllocError);
        }
        let (blank, node) = allocate(&self.alloc)?.placed();
        let id = self.slots.insert_reserved(Slot { node, live: false });
        self.spare.push(blank.name(id));
        Ok(())
    }

    // Drops the elements from front to back, and frees the blocks: those of the spare nodes, as all are then, and those at the ends.
    pub(crate) fn free(mut self)
    where
        T: Drop,
        requires { IsTied self }
    {
        while let Some(id) = self.first() {
            drop(self.unlink(id));
        }
        let Nodes {
            slots,
            ends,
            spare,
            len: _,
            alloc,
        } = self;
        free_spares(&alloc, spare, slots.len());
        ends.free(&alloc);
    }
}

// Notes whether the node is in the list.
fn mark<T, A: Allocator>(slots: &mut Slab<Slot<T, A>, A>, id: usize, live: bool)
    requires { ContainsKey slots.old id }
    ensures slots { (s : Slot T A) → get slots.old id ≡ Some s → Updates slots.old slots.new id (Some (record s { live = live })) }
    ensures len { slab_len slots.new ≡ slab_len slots.old }
{
    let slot = &mut slots[id];
    slot.live = live;
}

// Frees the spare nodes.
fn free_spares<T, A: Allocator>(alloc: &A, mut spare: Spare<usize, T, A>, count: usize)
    requires alloc { spare.alloc ≡ alloc.now }
    requires all { count ≡ length spare.rest }
{
    for _ in 0..count {
        deallocate(alloc, spare.pop());
    }
}
