// The table of an index.
ghost use Rattle.std.specs.Prelude.{◌≡◌, ◌≢◌, ℕ, ◌+◌, ◌*◌, ◌^◌, ◌<◌, ◌≤◌, true, length, replicate};
ghost use Rattle.std.specs.Vec.{vec_capacity};
ghost use Rattle.moka_list.specs.HashIndex.{group_at, home_group, slots_with};
ghost use Rattle.moka_list.specs.Probed.{AreShaped, CountsWay, FREE, IsUnder, id_at, is_free, steps};
ghost use Rattle.moka_list.specs.declared.constants.TheConstants.{SLOTS};

use crate::group::{Group, after, probe_of};
use std::alloc::Allocator;

/// Makes a table of `len` groups without ids, in capacity that was reserved.
pub(crate) fn fill_free<A: Allocator>(groups: &mut Vec<Group, A>, len: usize)
    requires { len ≤ vec_capacity groups.old }
    ensures { groups.new.items ≡ replicate len FREE }
{
    groups.clear();
    groups.resize(len, Group::free()).unwrap();
}

/// Returns the first free slot from the group `home` on, round and round: its group, the group's distance, and the slot there.
pub(crate) fn first_free(groups: &[Group], home: usize) -> (usize, usize, usize)
    requires inside { home < length groups.now }
    requires small { length groups.now < 2 ^ 32 }
    requires shaped { AreShaped groups.now }
    requires room { (at : ℕ) × (at < length groups.now) × (slots_with (group_at groups.now at) 0 ≢ 0) }
    ensures inside { (result.0 < length groups.now) × (result.2 < SLOTS) }
    ensures distance { result.1 ≡ steps (length groups.now) home result.0 }
    ensures free { is_free groups.now (result.0 * SLOTS + result.2) ≡ true }
{
    let mut at = home;
    let mut distance = 0;
    loop {
        let free = groups[at].free_slots();
        if free != 0 {
            return (at, distance, free.trailing_zeros() as usize);
        }
        at = after(groups.len(), at);
        distance += 1;
    }
}

/// Returns the home of `hash`, and the slot of its `id`: the group, the group's distance, and the slot there.
pub(crate) fn slot_of(groups: &[Group], hash: u64, id: u32) -> (usize, usize, usize, usize)
    requires small { length groups.now < 2 ^ 32 }
    requires shaped { AreShaped groups.now }
    requires stands { (cell : ℕ) × IsUnder groups.now hash cell × (id_at groups.now cell ≡ id) }
    ensures home { result.0 ≡ home_group (length groups.now) hash }
    ensures inside { (result.1 < length groups.now) × (result.3 < SLOTS) }
    ensures distance { result.2 ≡ steps (length groups.now) result.0 result.1 }
    ensures under { IsUnder groups.now hash (result.1 * SLOTS + result.3) }
    ensures is { id_at groups.now (result.1 * SLOTS + result.3) ≡ id }
{
    let (home, tag) = probe_of(groups.len(), hash);
    let mut at = home;
    let mut distance = 0;
    loop {
        if let Some(slot) = groups[at].slot_of(tag, distance, id) {
            return (home, at, distance, slot);
        }
        at = after(groups.len(), at);
        distance += 1;
    }
}

/// Counts an id at the `distance` groups that it passed, from `home` on.
pub(crate) fn count<A: Allocator>(groups: &mut Vec<Group, A>, home: usize, distance: usize)
    requires inside { home < length groups.old.items }
    requires near { distance < length groups.old.items }
    requires small { length groups.old.items < 2 ^ 32 }
    requires fits { (at : ℕ) → (group_at groups.old.items at).passed + 1 < 2 ^ 32 }
    ensures { CountsWay groups.old.items home distance groups.new.items }
{
    let mut at = home;
    let mut step = 0;
    while step < distance {
        groups[at].passed += 1;
        at = after(groups.len(), at);
        step += 1;
    }
}

/// Takes the counts of an id back at the `distance` groups that it passed, from `home` on.
pub(crate) fn take_back<A: Allocator>(groups: &mut Vec<Group, A>, home: usize, distance: usize)
    requires inside { home < length groups.old.items }
    requires near { distance < length groups.old.items }
    requires small { length groups.old.items < 2 ^ 32 }
    requires counted { (at : ℕ) → at < length groups.old.items → steps (length groups.old.items) home at < distance
        → 0 < (group_at groups.old.items at).passed }
    ensures { CountsWay groups.new.items home distance groups.old.items }
{
    let mut at = home;
    let mut step = 0;
    while step < distance {
        groups[at].passed -= 1;
        at = after(groups.len(), at);
        step += 1;
    }
}
