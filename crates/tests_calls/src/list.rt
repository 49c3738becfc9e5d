// The list, with each of its requests refused in turn.
use moka_deque::deque::{CacheRegion, Deque};
use std::alloc::Global;
use std::test::Fail;
use tests_heap::{Refusals, RefusingHeap, for_each_refusal};

/// More plays than any work here has requests.
const BOUND: u64 = 200;

type Heap = RefusingHeap<Global>;

type List<'a> = Deque<u64, &'a Heap>;

/// A call of a list.
#[derive(Clone, Copy)]
enum Ask {
    Push(u64),
    Reserve(usize),
    ReserveExact(usize),
    Pop,
}

/// Makes the call, and returns `true` if it is done. A push that is not done hands its element back.
fn is_done(list: &mut List, ask: Ask) -> bool {
    match ask {
        Ask::Push(number) => match list.push_back(number) {
            Ok(_) => true,
            Err(back) => back != number,
        },
        Ask::Reserve(room) => list.reserve(room).is_ok(),
        Ask::ReserveExact(room) => list.reserve_exact(room).is_ok(),
        Ask::Pop => {
            let _ = list.pop_front();
            true
        }
    }
}

/// Room before and behind, pushes within room and beyond, and nodes that are spare again.
const ASKS: [Ask; 11] = [
    Ask::Push(3),
    Ask::Push(1),
    Ask::Reserve(2),
    Ask::Push(4),
    Ask::Push(1),
    Ask::Push(5),
    Ask::ReserveExact(7),
    Ask::Pop,
    Ask::Push(9),
    Ask::Pop,
    Ask::Reserve(20),
];

/// The length, the last element, and where the cursor is, which takes a step.
fn picture_of(list: &mut List) -> (usize, Option<u64>, Option<u64>) {
    let length = list.len();
    let last = list.peek_back().copied();
    (length, last, list.step().copied())
}

/// Asks a list, and a twin with all memory for what it has done.
fn ask_all(ample: &Heap, heap: &Heap) -> Result<(), &'static str> {
    let mut list = Deque::new(heap, CacheRegion::Other);
    let mut twin = Deque::new(ample, CacheRegion::Other);
    let mut is_right = true;
    for ask in &ASKS {
        let before = heap.refused();
        let done = is_done(&mut list, *ask);
        if done {
            is_done(&mut twin, *ask);
        }
        let pictures = (done, picture_of(&mut list));
        is_right &= pictures == (heap.refused() == before, picture_of(&mut twin));
    }
    let are_whole = heap.refused() > 0 || list.iter().eq(&[4, 1, 5, 9]);
    if is_right && are_whole && list.iter().eq(twin.iter()) {
        Ok(())
    } else {
        Err("what is refused is not done, and all else is")
    }
}

#[test]
fn a_list_is_as_before_where_it_is_refused(rt: HostRuntime) -> Result<(), Fail> {
    let ample = RefusingHeap::new(rt.alloc(), rt.alloc(), Refusals::Never)?;
    let plays = for_each_refusal(rt.alloc(), rt.alloc(), BOUND, |heap| ask_all(&ample, heap))?;
    assert_eq!(rt; plays, 60);
    Ok(())
}

// Three requests are for tables, and the others for a node each.
#[test]
fn a_refused_reserve_keeps_the_nodes_that_it_got(rt: HostRuntime) -> Result<(), Fail> {
    let heap = RefusingHeap::new(rt.alloc(), rt.alloc(), Refusals::From(8))?;
    let mut list: List = Deque::new(&heap, CacheRegion::Other);
    let is_refused = list.reserve_exact(9).is_err();
    assert_eq!(rt; (is_refused, list.capacity()), (true, 4));
    Ok(())
}
