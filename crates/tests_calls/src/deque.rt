// The list: where its cursor goes, at a large size, and the order of drops, of which no clause says.
use moka_deque::deque::{CacheRegion, Deque};
use std::alloc::Global;
use std::cell::RefCell;
use std::test::Fail;

/// The next four steps of a list's cursor.
fn steps(list: &mut Deque<char>) -> [Option<char>; 4] {
    let mut steps = [None; 4];
    for step in steps.iter_mut() {
        *step = list.step().copied();
    }
    steps
}

/// Returns the steps in a list. It is empty first, then has three elements; then the second moves behind the cursor to the back, and the one at the cursor
/// leaves.
fn walks(list: &mut Deque<char>) -> Result<[[Option<char>; 4]; 4], char> {
    let empty = steps(list);
    list.push_back('a')?;
    let (b, c) = (list.push_back('b')?, list.push_back('c')?);
    let whole = steps(list);
    let _ = list.step();
    if list.contains(b) {
        list.move_to_back(b);
    }
    let moved = steps(list);
    if list.contains(c) {
        list.unlink(c);
    }
    Ok([empty, whole, moved, steps(list)])
}

/// The orders, worked by hand. At its end the cursor goes to the first element.
const ORDERS: [[Option<char>; 4]; 4] = [
    [None; 4],
    [Some('a'), Some('b'), Some('c'), None],
    [Some('c'), Some('b'), None, Some('a')],
    [Some('b'), None, Some('a'), Some('b')],
];

#[test]
fn the_cursor_steps_past_moves_and_removals(rt: HostRuntime) {
    let mut list = Deque::new(rt.alloc(), CacheRegion::MainProbation);
    assert_eq!(rt; walks(&mut list), Ok(ORDERS));
}

/// The length of a list to which the numbers below this one were added, and its two ends.
fn length_and_ends(alloc: Global, end: u32) -> (usize, [Option<u32>; 2]) {
    let mut list = Deque::new(alloc, CacheRegion::Window);
    for number in 0..end {
        let _ = list.push_back(number);
    }
    let ends = [list.peek_front().copied(), list.peek_back().copied()];
    (list.len(), ends)
}

#[test]
fn a_list_takes_a_hundred_thousand_nodes(rt: HostRuntime) {
    let wanted = (100_000, [Some(0), Some(99_999)]);
    assert_eq!(rt; length_and_ends(rt.alloc(), 100_000), wanted);
}

// Writes its number down when it is dropped.
struct Noted<'a> {
    number: u32,
    notes: &'a RefCell<Vec<u32>>,
}

impl Drop for Noted<'_> {
    fn drop(self) {
        let Noted { number, notes } = self;
        if let Ok(mut numbers) = notes.try_borrow_mut() {
            let _ = numbers.push(number);
        }
    }
}

/// Adds elements with these numbers to a list, unlinks and moves some, and drops the list. The fifth takes the place of the first.
fn fill_and_drop(alloc: Global, notes: &RefCell<Vec<u32>>, numbers: &[u32]) {
    let mut list = Deque::new(alloc, CacheRegion::Window);
    for number in numbers {
        if list.len() == 4 {
            drop(list.pop_front());
        }
        let number = *number;
        let _ = list.push_back(Noted { number, notes });
    }
    list.move_front_to_back();
}

#[test]
fn elements_are_dropped_from_front_to_back(rt: HostRuntime) {
    let notes = RefCell::new(Vec::new(rt.alloc()));
    fill_and_drop(rt.alloc(), &notes, &[3, 1, 4, 2, 5]);
    assert_eq!(rt; notes.into_inner().as_slice(), [3, 4, 2, 5, 1].as_slice());
}
