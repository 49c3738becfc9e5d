// The nodes of a `Deque`, in blocks of their own: in a list that is linked both ways by raw pointers, between a block at each end, or in a chain of spare ones.
// No other file of the list has a raw pointer, and the functions of these three are proved by hand.
//
// | Value | Owns |
// |---|---|
// | `NodePtr` | nothing: it says where a node lies |
// | `Blank` | a block with nothing in it, and the right to free it |
// | `SpareNode` | a node that is neither in the list nor in the chain: its id, room for an element and for links, and the right to free it |
// | `Detached` | a node that is not in the list: its id and its element, room for links, and the right to free it |
// | `List` | the blocks at both ends, and each node between them with its id and its element; all links; the right to free each block |
// | `Spare` | each node of the chain: its id, the link to the next, room for an element, and the right to free it |
//
// The right to free a block goes with it. It is the allocator's token, and that the fields, once they are empty, make up the whole block (`freeing_owns`,
// `specs/RawOwnership.antt`).

mod block;
mod list;
mod spare;

pub(crate) use block::{
    Blank, Detached, NodePtr, SpareNode, allocate, deallocate, deallocate_blank,
};
pub(crate) use list::List;
pub(crate) use spare::Spare;
