// A load of the list, as a whole call.
ghost use Rattle.std.specs.Prelude.{◌≡◌, ◌≤◌, ◌≢◌};

use crate::constants::{
    DONE, FILL_AND_EMPTY, MOVE, ORDER, OUT_OF_MEMORY, TAKE_TURNS, UNKNOWN_KIND,
};
use moka_deque::deque::{CacheRegion, Deque, NodeId};
use std::alloc::Global;

/// Makes a list with room for `nodes` elements, plays a load on it `rounds` times over, and drops it. A load of moves goes through all of `picks`,
/// which are numbers of nodes; the others take as many turns as there is room for elements. What was met is summed up in `sum`, modulo 2^64, where
/// the answer is `DONE`.
#[unsafe(no_mangle)]
pub extern "C" fn bench_trace_list(
    alloc: Global,
    load: u32,
    nodes: usize,
    picks: &[usize],
    rounds: usize,
    sum: &mut u64,
) -> u32
    ensures known { result ≤ UNKNOWN_KIND }
    ensures refused { result ≢ DONE → sum.new ≡ sum.old }
{
    if load > TAKE_TURNS {
        return UNKNOWN_KIND;
    }
    let mut list = Deque::new(alloc, CacheRegion::Other);
    if list.reserve_exact(nodes).is_err() {
        return OUT_OF_MEMORY;
    }
    if load != FILL_AND_EMPTY {
        fill(&mut list, nodes);
    }
    let mut total = 0u64;
    for _ in 0..rounds {
        total = total.wrapping_add(match load {
            MOVE => move_all(&mut list, picks),
            FILL_AND_EMPTY => fill_and_empty(&mut list, nodes),
            _ => take_turns(&mut list, nodes),
        });
    }
    *sum = total.wrapping_add(in_order(&list));
    DONE
}

/// Puts the numbers below this one into the list. There is room for them, or those stay out for which there is no memory.
fn fill(list: &mut Deque<u64>, nodes: usize) {
    for number in 0..nodes {
        let _ = list.push_back(number as u64);
    }
}

/// Moves each picked node to the back, and says how many there were.
fn move_all(list: &mut Deque<u64>, picks: &[usize]) -> u64 {
    let mut moved = 0u64;
    for pick in picks {
        let id = NodeId::from_number(*pick);
        if list.contains(id) {
            list.move_to_back(id);
            moved = moved.wrapping_add(1);
        }
    }
    moved
}

/// Fills the list, takes as many elements out from the front, and sums them up.
fn fill_and_empty(list: &mut Deque<u64>, nodes: usize) -> u64 {
    fill(list, nodes);
    let mut sum = 0u64;
    for _ in 0..nodes {
        if let Some(element) = list.pop_front() {
            sum = sum.wrapping_add(element);
        }
    }
    sum
}

/// Takes the first element out and puts it in at the back, `turns` times, and sums them up.
fn take_turns(list: &mut Deque<u64>, turns: usize) -> u64 {
    let mut sum = 0u64;
    for _ in 0..turns {
        if let Some(element) = list.pop_front() {
            sum = sum.wrapping_add(element);
            let _ = list.push_back(element);
        }
    }
    sum
}

/// A sum of the elements that depends on their order.
fn in_order(list: &Deque<u64>) -> u64 {
    let mut sum = 0u64;
    for element in list.iter() {
        sum = sum.wrapping_mul(ORDER).wrapping_add(*element);
    }
    sum
}
