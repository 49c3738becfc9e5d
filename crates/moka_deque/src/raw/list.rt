// A list of nodes between two blocks, linked both ways, as `raw.rt` says who owns what. Its holder has the addresses.
ghost use Rattle.std.specs.Prelude.{◌≡◌, List as Seq, [], ◌∷◌, ◌++◌};
ghost use Rattle.std.specs.Borrow.{sem};
ghost use Rattle.std.specs.Coded.{prop_coded};
ghost use denote.RawPtr.{Ptr};
ghost use Rattle.lru.specs.Linked.{IsApart, IsApart-prop, HasNext, HasPrev};
ghost use Rattle.moka_deque.specs.RawNodes.{Linked, linked, ring, IsAt, AtNode};
ghost use Rattle.moka_deque.specs.RawOwnership.{list_owns, list_lent};

use crate::raw::block::{Blank, Detached, Node, NodePtr};
use std::alloc::Allocator;
use std::marker::{Model, PhantomData, Send, Sync};
use std::ptr;

/// Owns all that lies in memory between the two ends, and has no bytes of its own. A node is reached by its address alone.
pub(crate) struct List<K, V, A: Allocator> {
    mark: PhantomData<*mut Node<K, V, A>>,
    ghost head: { Ptr },
    ghost tail: { Ptr },
    ghost nodes: { Seq (Linked K V) },
    ghost alloc: { A },
    ghost apart: { IsApart (ring head nodes tail) } by { prop_coded (IsApart-prop (ring head nodes tail)) },
}

impl<K, V, A: Allocator> Model for List<K, V, A> {
    ghost also_owns = { λ l. list_owns K.row V.row (A.dealloc_token l.alloc) l.head l.nodes l.tail };

    ghost also_shares = { λ l _ κ. list_lent K.row V.row l.head l.nodes l.tail κ };
}

unsafe impl<K: Send, V: Send, A: Allocator + Send> Send for List<K, V, A> {}

unsafe impl<K: Sync, V: Sync, A: Allocator> Sync for List<K, V, A> {}

impl<K, V, A: Allocator> List<K, V, A> {
    ghost use Rattle.moka_deque.specs.RawLends.{lends_element_at};

    /// Reads the link to the node or end behind this one.
    pub(crate) fn next(&self, node: NodePtr<K, V, A>) -> NodePtr<K, V, A>
        requires { (after : Ptr) × HasNext (ring self.now.head self.now.nodes self.now.tail) node.ptr after }
        ensures { (after : Ptr) → HasNext (ring self.now.head self.now.nodes self.now.tail) node.ptr after → result.ptr ≡ after }
    {
        let ptr = unsafe { (*node.ptr).next };
        NodePtr { ptr }
    }

    /// Reads the link to the node or end before this one.
    pub(crate) fn prev(&self, node: NodePtr<K, V, A>) -> NodePtr<K, V, A>
        requires { (before : Ptr) × HasPrev (ring self.now.head self.now.nodes self.now.tail) node.ptr before }
        ensures { (before : Ptr) → HasPrev (ring self.now.head self.now.nodes self.now.tail) node.ptr before → result.ptr ≡ before }
    {
        let ptr = unsafe { (*node.ptr).prev };
        NodePtr { ptr }
    }

    /// Shows the id and the element.
    pub(crate) fn entry(&self, node: NodePtr<K, V, A>) -> (&K, &V)
        requires { IsAt self.now.nodes node.ptr }
        ensures { AtNode self.now.nodes node.ptr (λ _ n _. (result.0.now ≡ n.id) × (result.1.now ≡ n.element)) }
    {
        unsafe { (&(*node.ptr).id, &(*node.ptr).element) }
    }

    /// Lends the element.
    pub(crate) fn element_mut(&mut self, node: NodePtr<K, V, A>) -> &mut V
        requires { IsAt self.old.nodes node.ptr }
        ensures* writes_back { sem 𝓛 (lends_element_at K.row V.row A.row A.Allocator self.entry node.ptr result) }
        ensures value { AtNode self.old.nodes node.ptr (λ _ n _. result.now ≡ n.element) }
    {
        unsafe { &mut (*node.ptr).element }
    }

    /// Makes this node the last.
    pub(crate) fn attach_last(&mut self, tail: NodePtr<K, V, A>, node: Detached<K, V, A>)
        requires { (tail.ptr ≡ self.old.tail) × (node.alloc ≡ self.old.alloc) }
        ensures ends { (self.new.head ≡ self.old.head) × (self.new.tail ≡ self.old.tail) × (self.new.alloc ≡ self.old.alloc) }
        ensures nodes { self.new.nodes ≡ self.old.nodes ++ linked node.ptr node.id node.element ∷ [] }
    {
        let NodePtr { ptr: end } = tail;
        let Detached { ptr: added } = node;
        unsafe {
            let last = (*end).prev;
            (*added).prev = last;
            (*added).next = end;
            (*last).next = added;
            (*end).prev = added;
        }
    }

    /// Takes the node out: those on both sides of it become neighbours.
    pub(crate) fn detach(&mut self, node: NodePtr<K, V, A>) -> Detached<K, V, A>
        requires { IsAt self.old.nodes node.ptr }
        ensures ends { (self.new.head ≡ self.old.head) × (self.new.tail ≡ self.old.tail) × (self.new.alloc ≡ self.old.alloc) × (result.alloc ≡ self.old.alloc) }
        ensures nodes { AtNode self.old.nodes node.ptr (λ xs n ys. (self.new.nodes ≡ xs ++ ys) × (n ≡ linked result.ptr result.id result.element)) }
    {
        let NodePtr { ptr } = node;
        unsafe {
            let before = (*ptr).prev;
            let after = (*ptr).next;
            (*before).next = after;
            (*after).prev = before;
        }
        Detached { ptr }
    }

    /// Links two blocks to one another: a list with no nodes.
    pub(crate) fn new(head: Blank<K, V, A>, tail: Blank<K, V, A>) -> List<K, V, A>
        requires { tail.alloc ≡ head.alloc }
        ensures { (result.head ≡ head.ptr) × (result.tail ≡ tail.ptr) × (result.nodes ≡ []) × (result.alloc ≡ head.alloc) }
    {
        let Blank { ptr: front } = head;
        let Blank { ptr: back } = tail;
        unsafe {
            (*front).next = back;
            (*back).prev = front;
            (*front).prev = ptr::null_mut();
            (*back).next = ptr::null_mut();
        }
        List { mark: PhantomData }
    }

    /// Gives up a list with no nodes for the two blocks.
    pub(crate) fn into_ends(
        self,
        head: NodePtr<K, V, A>,
        tail: NodePtr<K, V, A>,
    ) -> (Blank<K, V, A>, Blank<K, V, A>)
        requires { (head.ptr ≡ self.head) × (tail.ptr ≡ self.tail) × (self.nodes ≡ []) }
        ensures { (result.0.alloc ≡ self.alloc) × (result.1.alloc ≡ self.alloc) }
    {
        let List { mark: _ } = self;
        (Blank { ptr: head.ptr }, Blank { ptr: tail.ptr })
    }
}
