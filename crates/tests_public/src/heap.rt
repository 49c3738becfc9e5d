// What a heap refuses and counts, and what a play finds.
use crate::plays::Heap;
use std::rc::Rc;
use std::sync::Arc;
use std::test::Fail;
use tests_heap::{PlayError, Refusals, RefusingHeap, for_each_refusal};

/// More plays than any work here has requests.
const BOUND: u64 = 50;

/// Returns `true` if a list gets a block for its first item, and one for all three.
fn is_listed(heap: &Heap) -> bool {
    let Ok(mut items) = Vec::with_capacity(heap, 1) else {
        return false;
    };
    items.push(1u64).is_ok() && items.push(2).is_ok() && items.push(3).is_ok()
}

/// A box, an `Rc`, an `Arc` and a list have to be there where nothing was refused, and only there.
fn are_refused(heap: &Heap) -> Result<(), &'static str> {
    let are_there = [
        Box::new(heap, 1u64).is_ok(),
        Rc::new(heap, 1u64).is_ok(),
        Arc::new(heap, 1u64).is_ok(),
        is_listed(heap),
    ];
    if (are_there == [true; 4]) == (heap.refused() == 0) {
        Ok(())
    } else {
        Err("a refusal has to be seen")
    }
}

#[test]
fn each_request_of_the_owners_is_refused(rt: HostRuntime) -> Result<(), Fail> {
    let plays = for_each_refusal(rt.alloc(), rt.alloc(), BOUND, |heap| are_refused(heap))?;
    assert_eq!(rt; plays, 10);
    let end = for_each_refusal(rt.alloc(), rt.alloc(), 3, |heap| are_refused(heap));
    let refusals = Refusals::Once(3);
    assert_eq!(rt; end, Err(PlayError::Endless { refusals }));
    Ok(())
}

/// Refusals, and a digit for each of six requests that says which are refused.
const CASES: [(Refusals, u64); 6] = [
    (Refusals::Never, 0b000000),
    (Refusals::Once(1), 0b100000),
    (Refusals::Once(3), 0b001000),
    (Refusals::From(3), 0b001111),
    (Refusals::Every(2), 0b010101),
    (Refusals::Every(0), 0b000000),
];

/// Which of six requests are refused, as a digit each.
fn refusals_of_six(heap: &Heap) -> u64 {
    let mut found = 0u64;
    for _ in 0..6 {
        found = found << 1 | u64::from(Box::new(heap, 1u64).is_err());
    }
    found
}

#[test]
fn a_heap_refuses_what_it_is_told(rt: HostRuntime) -> Result<(), Fail> {
    let heap = RefusingHeap::new(rt.alloc(), rt.alloc(), Refusals::Never)?;
    for (refusals, want) in &CASES {
        heap.refuse(*refusals);
        let found = (refusals_of_six(&heap), heap.asked(), heap.refused());
        assert_eq!(rt;
            found,
            (*want, 6, u64::from(want.count_ones())),
            "of {refusals:?}"
        );
    }
    Ok(())
}

#[test]
fn a_block_that_a_work_keeps_is_named(rt: HostRuntime) -> Result<(), Fail> {
    let mut kept = None;
    let end = for_each_refusal(rt.alloc(), rt.alloc(), BOUND, |heap| {
        let heap = heap.clone().map_err(|_| "no clone")?;
        kept = Box::new(heap, 1u64).ok();
        Ok::<(), &'static str>(())
    });
    assert_eq!(rt;
        end,
        Err(PlayError::Held {
            refusals: Refusals::Once(2),
            blocks: 1,
            bytes: 8
        })
    );
    Ok(())
}
