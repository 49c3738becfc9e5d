//! Growth of an index beside the list whose nodes it finds.
ghost use Rattle.std.specs.Prelude.{◌≡◌, ◌+◌, ◌<◌, ◌≤◌, IsOk, OnOk};
ghost use Rattle.moka_list.specs.Indexed.{IsIndexed};

use crate::chain::{Chain, NodeId};
use crate::growing_index::GrowingIndex;
use moka_common::error::OutOfMemory;
use moka_common::hash::Hashed;
use std::alloc::Allocator;

/// The number of ids that an insert moves: after a growth by a quarter the smaller table is gone before the larger one is full.
const BATCH: usize = 8;

/// Grows an index to take ids below `ids`. The ids of all nodes stay in the smaller table; `move_some` moves them. If some are still in an even smaller one,
/// they are moved first.
pub fn make_room<T: Hashed, A: Allocator>(
    index: &mut GrowingIndex<A>,
    list: &Chain<T, A>,
    ids: usize,
) -> Result<(), OutOfMemory>
    requires indexed { IsIndexed T.hash_of list.now.items index.old }
    ensures indexed { IsIndexed T.hash_of list.now.items index.new }
    ensures room { OnOk result (ids ≤ index.new.ids) }
    ensures had_room { ids ≤ index.old.ids → IsOk result × (index.new ≡ index.old) }
    ensures ids { index.old.ids ≤ index.new.ids }
{
    if ids <= index.ids() {
        return Ok(());
    }
    while 0 < index.left() {
        move_one(index, list);
    }
    index.grow(ids)
}

/// Moves some ids to the larger table, if any are left.
#[inline(always)]
pub fn move_some<T: Hashed, A: Allocator>(index: &mut GrowingIndex<A>, list: &Chain<T, A>)
    requires indexed { IsIndexed T.hash_of list.now.items index.old }
    ensures indexed { IsIndexed T.hash_of list.now.items index.new }
    ensures ids { index.new.ids ≡ index.old.ids }
{
    if 0 < index.left() {
        move_batch(index, list);
    }
}

#[inline(never)]
fn move_batch<T: Hashed, A: Allocator>(index: &mut GrowingIndex<A>, list: &Chain<T, A>)
    requires indexed { IsIndexed T.hash_of list.now.items index.old }
    ensures indexed { IsIndexed T.hash_of list.now.items index.new }
    ensures ids { index.new.ids ≡ index.old.ids }
{
    let mut moved = 0;
    while moved < BATCH && 0 < index.left() {
        move_one(index, list);
        moved += 1;
    }
}

/// Moves the next id to the larger table, if it is in the list.
fn move_one<T: Hashed, A: Allocator>(index: &mut GrowingIndex<A>, list: &Chain<T, A>)
    requires left { 0 < index.old.left }
    requires indexed { IsIndexed T.hash_of list.now.items index.old }
    ensures indexed { IsIndexed T.hash_of list.now.items index.new }
    ensures ids { index.new.ids ≡ index.old.ids }
    ensures step { index.new.left + 1 ≡ index.old.left }
{
    let id = NodeId::from_number(index.next());
    if list.contains(id) {
        index.move_next(list.get(id).hash());
    } else {
        index.pass_next();
    }
}
