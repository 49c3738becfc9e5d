//! One work played again and again, with another request refused each time.
use crate::heap::RefusingHeap;
use crate::refusals::Refusals;
use std::alloc::{AllocError, Allocator, Global};

/// Why `for_each_refusal` stopped, and at which refusals.
#[derive(PartialEq, Eq, Debug, Drop)]
pub enum PlayError<E> {
    /// There is no memory for the counts.
    OutOfMemory,
    /// The work failed.
    Failed {
        refusals: Refusals,
        error: E,
    },
    /// The work is over, and blocks are still held.
    Held {
        refusals: Refusals,
        blocks: u64,
        bytes: u64,
    },
    /// The last play of a round met a refusal too.
    Endless {
        refusals: Refusals,
    },
}

/// Plays a work with each of its requests refused in turn, and returns how many plays met a refusal.
///
/// In the first round only the nth request of a play is refused, in the second all later ones too. A round ends with the first play
/// that meets no refusal, and has at most `bound` plays. After each play nothing may be held.
pub fn for_each_refusal<B: Allocator, E: Drop, F: FnMut(&RefusingHeap<B>) -> Result<(), E>>(
    inner: B,
    alloc: Global,
    bound: u64,
    mut work: F,
) -> Result<u64, PlayError<E>>
    requires { (state : F) (heap : _) → F.pre state heap }
{
    let Ok(heap) = RefusingHeap::new(inner, alloc, Refusals::Never) else {
        return Err(PlayError::OutOfMemory);
    };
    let once = round(&heap, bound, Refusals::Once, &mut work)?;
    let from = round(&heap, bound, Refusals::From, &mut work)?;
    Ok(once.saturating_add(from))
}

/// Plays until a play meets no refusal, and returns the number of those before it.
fn round<B, E, F, R>(
    heap: &RefusingHeap<B>,
    bound: u64,
    refusals: R,
    work: &mut F,
) -> Result<u64, PlayError<E>>
where
    B: Allocator,
    E: Drop,
    F: FnMut(&RefusingHeap<B>) -> Result<(), E>,
    R: Fn(u64) -> Refusals,
    requires callable { (state : F) (heap : _) → F.pre state heap }
    requires constructor { R.IsAlwaysCallable refusals }
{
    for earlier in 0..bound {
        if !play(heap, refusals(earlier + 1), work)? {
            return Ok(earlier);
        }
    }
    Err(PlayError::Endless {
        refusals: refusals(bound),
    })
}

/// Plays once, and returns `true` if the play meets a refusal.
fn play<B, E, F>(
    heap: &RefusingHeap<B>,
    refusals: Refusals,
    work: &mut F,
) -> Result<bool, PlayError<E>>
where
    B: Allocator,
    E: Drop,
    F: FnMut(&RefusingHeap<B>) -> Result<(), E>,
    requires { (state : F) (heap : _) → F.pre state heap }
{
    heap.refuse(refusals);
    if let Err(error) = work(heap) {
        return Err(PlayError::Failed { refusals, error });
    }
    match (heap.held_blocks(), heap.held_bytes()) {
        (0, 0) => Ok(heap.refused() != 0),
        (blocks, bytes) => Err(PlayError::Held {
            refusals,
            blocks,
            bytes,
        }),
    }
}
