// The block of one node, and the values that stand for who owns which part of it.
ghost use Rattle.std.specs.Prelude.{◌≡◌, ℕ, IfOk, ⊤};
ghost use denote.RawPtr.{Ptr};
ghost use Rattle.moka_deque.specs.RawOwnership.{blank_owns, spare_owns, detached_owns};

use std::alloc::{AllocError, Allocator};
use std::marker::{Model, Send, Sync};
use std::mem::{align_of, size_of};

/// A node: K is its id, and V its element. The two blocks at the ends hold neither.
pub(crate) struct Node<K, V, A> {
    pub(crate) prev: *mut Node<K, V, A>,
    pub(crate) next: *mut Node<K, V, A>,
    pub(crate) id: K,
    pub(crate) element: V,
}

/// The address of a node, of which it owns nothing.
pub(crate) struct NodePtr<K, V, A> {
    pub(crate) ptr: *mut Node<K, V, A>,
}

impl<K, V, A> Clone for NodePtr<K, V, A> {
    ghost is_clone = { λ x y. y ≡ x };

    ghost is_infallible = { λ _. ⊤ };

    fn clone(&self) -> Result<NodePtr<K, V, A>, AllocError> {
        Ok(*self)
    }
}

impl<K, V, A> Copy for NodePtr<K, V, A> {}

unsafe impl<K, V, A> Send for NodePtr<K, V, A> {}

unsafe impl<K, V, A> Sync for NodePtr<K, V, A> {}

/// A block with nothing in it, and the right to free it.
pub(crate) struct Blank<K, V, A: Allocator> {
    pub(crate) ptr: *mut Node<K, V, A>,
    ghost alloc: { A },
}

impl<K, V, A: Allocator> Model for Blank<K, V, A> {
    ghost also_owns = { λ r. blank_owns K.row V.row (A.dealloc_token r.alloc) r.ptr };
}

/// A spare node that is not in the chain: it has its id, and nothing else in it.
pub(crate) struct SpareNode<K, V, A: Allocator> {
    pub(crate) ptr: *mut Node<K, V, A>,
    ghost id: { K },
    ghost alloc: { A },
}

impl<K, V, A: Allocator> Model for SpareNode<K, V, A> {
    ghost also_owns = { λ r. spare_owns K.row V.row (A.dealloc_token r.alloc) r.ptr r.id };
}

/// A node with its id and element that is not in the list.
pub(crate) struct Detached<K, V, A: Allocator> {
    pub(crate) ptr: *mut Node<K, V, A>,
    ghost id: { K },
    ghost element: { V },
    ghost alloc: { A },
}

impl<K, V, A: Allocator> Model for Detached<K, V, A> {
    ghost also_owns = { λ d. detached_owns K.row V.row (A.dealloc_token d.alloc) d.ptr d.id d.element };
}

/// Allocates a block.
pub(crate) fn allocate<K, V, A: Allocator>(alloc: &A) -> Result<Blank<K, V, A>, AllocError>
    ensures { IfOk result (λ r. r.alloc ≡ alloc.now) }
{
    match alloc.allocate(size_of::<Node<K, V, A>>(), align_of::<Node<K, V, A>>()) {
        Ok(block) => Ok(Blank {
            ptr: block as *mut Node<K, V, A>,
        }),
        Err(error) => Err(error),
    }
}

/// Gives the block of a spare node back.
pub(crate) fn deallocate<K, V, A: Allocator>(alloc: &A, node: SpareNode<K, V, A>)
    requires { node.alloc ≡ alloc.now }
{
    let SpareNode { ptr } = node;
    unsafe {
        alloc.deallocate(
            ptr as *mut u8,
            size_of::<Node<K, V, A>>(),
            align_of::<Node<K, V, A>>(),
        );
    }
}

/// Gives an empty block back.
pub(crate) fn deallocate_blank<K, V, A: Allocator>(alloc: &A, blank: Blank<K, V, A>)
    requires { blank.alloc ≡ alloc.now }
{
    let Blank { ptr } = blank;
    unsafe {
        alloc.deallocate(
            ptr as *mut u8,
            size_of::<Node<K, V, A>>(),
            align_of::<Node<K, V, A>>(),
        );
    }
}

impl<K, V, A: Allocator> Blank<K, V, A> {
    /// Writes the id, which the node keeps from then on.
    pub(crate) fn name(self, id: K) -> SpareNode<K, V, A>
        ensures { (result.ptr ≡ self.ptr) × (result.id ≡ id) × (result.alloc ≡ self.alloc) }
    {
        let Blank { ptr } = self;
        unsafe {
            (&raw mut (*ptr).id).write(id);
        }
        SpareNode { ptr }
    }

    /// Returns the block with its address.
    pub(crate) fn placed(self) -> (Blank<K, V, A>, NodePtr<K, V, A>)
        ensures { (result.0 ≡ self) × (result.1.ptr ≡ self.ptr) }
    {
        let Blank { ptr } = self;
        (Blank { ptr }, NodePtr { ptr })
    }
}

impl<K, V, A: Allocator> SpareNode<K, V, A> {
    /// Moves an element in.
    pub(crate) fn fill(self, element: V) -> Detached<K, V, A>
        ensures { (result.ptr ≡ self.ptr) × (result.id ≡ self.id) × (result.element ≡ element) × (result.alloc ≡ self.alloc) }
    {
        let SpareNode { ptr } = self;
        unsafe {
            (&raw mut (*ptr).element).write(element);
        }
        Detached { ptr }
    }
}

impl<K, V, A: Allocator> Detached<K, V, A> {
    /// Moves the element out.
    pub(crate) fn take(self) -> (V, SpareNode<K, V, A>)
        ensures { (result.0 ≡ self.element) × (result.1.ptr ≡ self.ptr) × (result.1.id ≡ self.id) × (result.1.alloc ≡ self.alloc) }
    {
        let Detached { ptr } = self;
        let element = unsafe { (&raw const (*ptr).element).read() };
        (element, SpareNode { ptr })
    }
}
