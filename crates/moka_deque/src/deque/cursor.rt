// Where a list's cursor stands, and where it goes.
ghost use Rattle.std.specs.Prelude.{◌≡◌};
ghost use Rattle.moka_deque.specs.Deque.{CursorIsIn, cursor_at, entered, advanced, passed};

use crate::deque::linked::Linked;
use std::alloc::Allocator;

/// The place of a list's cursor: before the first node, at a node, or past the last. Contracts name it; no call takes or gives one.
#[derive(Clone, Copy, Debug, PartialEq, Eq)]
pub enum Cursor {
    Start,
    At(usize),
    Done,
}

// The cursor at this node, or past the last if there is none.
pub(crate) fn cursor_at(node: Option<usize>) -> Cursor
    ensures { result ≡ cursor_at node }
{
    match node {
        Some(id) => Cursor::At(id),
        None => Cursor::Done,
    }
}

// The cursor as a step looks through it: at the first node, where it stood before it.
pub(crate) fn entered<T, A: Allocator>(list: &Linked<T, A>, cursor: Cursor) -> Cursor
    ensures { result ≡ entered list.now.items cursor }
{
    match (cursor, list.first()) {
        (Cursor::Start, Some(id)) => Cursor::At(id),
        _ => cursor,
    }
}

// The cursor one place further.
pub(crate) fn advanced<T, A: Allocator>(list: &Linked<T, A>, cursor: Cursor) -> Cursor
    requires { CursorIsIn list.now.items cursor }
    ensures { result ≡ advanced list.now.items cursor }
{
    match cursor {
        Cursor::At(id) => cursor_at(list.next(id)),
        _ => Cursor::Start,
    }
}

// Advances a cursor that is at the node `id`, which is about to leave its place.
pub(crate) fn pass<T, A: Allocator>(cursor: &mut Cursor, list: &Linked<T, A>, id: usize)
    requires { CursorIsIn list.now.items cursor.old }
    ensures { cursor.new ≡ passed id list.now.items cursor.old }
{
    if let Cursor::At(at) = *cursor {
        if at == id {
            *cursor = advanced(list, *cursor);
        }
    }
}
