// The spare nodes, in a chain through their `next` pointers.
ghost use Rattle.std.specs.Prelude.{◌≡◌, ◌<◌, List as Seq, [], ◌∷◌, length};
ghost use denote.RawPtr.{Ptr};
ghost use Rattle.moka_deque.specs.RawNodes.{spares};
ghost use Rattle.moka_deque.specs.RawOwnership.{chain_owns};
ghost use base.Fml.{ftrue};

use crate::raw::block::{Node, SpareNode};
use std::alloc::Allocator;
use std::marker::{Model, Send, Sync};
use std::ptr;

/// The owner of the spare nodes.
pub(crate) struct Spare<K, V, A: Allocator> {
    first: *mut Node<K, V, A>,
    ghost rest: { Seq (K × Ptr) },
    ghost alloc: { A },
}

impl<K, V, A: Allocator> Model for Spare<K, V, A> {
    ghost also_owns = { λ s. chain_owns K.row V.row (A.dealloc_token s.alloc) s.first s.rest };

    ghost also_shares = { λ _ _ _. ftrue };
}

unsafe impl<K: Send, V: Send, A: Allocator + Send> Send for Spare<K, V, A> {}

// A `&` to it reaches no node.
unsafe impl<K, V, A: Allocator> Sync for Spare<K, V, A> {}

impl<K, V, A: Allocator> Spare<K, V, A> {
    /// Makes a list of no spare nodes, which go back to this allocator.
    pub(crate) fn new(_alloc: &A) -> Spare<K, V, A>
        ensures { (result.rest ≡ []) × (result.alloc ≡ _alloc.now) }
    {
        Spare {
            first: ptr::null_mut(),
        }
    }

    /// Puts the node before the others.
    pub(crate) fn push(&mut self, room: SpareNode<K, V, A>)
        requires { room.alloc ≡ self.old.alloc }
        ensures { (spares self.new.first self.new.rest ≡ (room.ptr, room.id) ∷ spares self.old.first self.old.rest) × (self.new.alloc ≡ self.old.alloc) }
    {
        let SpareNode { ptr } = room;
        unsafe {
            (*ptr).next = self.first;
        }
        self.first = ptr;
    }

    /// Takes the first node out.
    pub(crate) fn pop(&mut self) -> SpareNode<K, V, A>
        requires { 0 < length self.old.rest }
        ensures { (spares self.old.first self.old.rest ≡ (result.ptr, result.id) ∷ spares self.new.first self.new.rest) × (self.new.alloc ≡ self.old.alloc)
            × (result.alloc ≡ self.old.alloc) }
    {
        let ptr = self.first;
        self.first = unsafe { (*ptr).next };
        SpareNode { ptr }
    }
}

// It frees nothing: its holder takes each node out first.
impl<K, V, A: Allocator> Drop for Spare<K, V, A> {
    fn drop(self) {
        let Spare { first: _ } = self;
    }
}
