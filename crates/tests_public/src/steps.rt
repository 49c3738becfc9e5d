// Lists of steps of a core, with each of their requests refused in turn, and hits, which make no request.
use crate::plays::{BOUND, Heap, HeapShared, Play, at, check, pair};
use mini_moka::common::{FixedState, UnitWeight};
use mini_moka::sync::engine::{Call, Core, Event, Reply, Rows};
use std::test::Fail;
use tests_heap::{Refusals, RefusingHeap, for_each_refusal};

type HeapCore<'a> = Core<u64, u64, FixedState, UnitWeight, &'a Heap>;

type HeapEvent<'a> = Event<HeapShared<'a>, HeapShared<'a>>;

type HeapReply<'a> = Reply<HeapShared<'a>, Rows<u64, u64, &'a Heap>>;

/// Returns the steps of an insert by one caller and a get by another, who push and forget their pending operations. It is `None` if memory is refused.
fn events(heap: &Heap) -> Option<Vec<HeapEvent<'_>, &Heap>> {
    let now = at(0);
    let (key, value) = pair(heap, 1, 7)?;
    let again = key.try_clone().ok()?;
    let events = vec![in heap;
        Event::Insert {
            caller: 1,
            key,
            value,
            now
        },
        Event::Get {
            caller: 2,
            key: again,
            now
        },
        Event::Push { caller: 1 },
        Event::Forget { caller: 2 },
    ];
    events.ok()
}

/// Returns a letter for a reply: done, found with its value 7, absent, not possible or refused.
fn letter(reply: &HeapReply) -> char {
    match reply {
        Reply::Done => 'd',
        Reply::Found(Some(value)) if *value.get() == 7 => 'f',
        Reply::Found(None) => 'a',
        Reply::NotPossible => 'n',
        Reply::OutOfMemory => 'o',
        _ => '?',
    }
}

/// The replies in letters.
fn letters_of(replies: &[HeapReply]) -> [char; 4] {
    let mut letters = ['-'; 4];
    for (place, reply) in letters.iter_mut().zip(replies) {
        *place = letter(reply);
    }
    letters
}

/// An insert that is refused leaves nothing to find and nothing pending.
const RUNS: [[char; 4]; 2] = [['d', 'f', 'd', 'd'], ['o', 'a', 'n', 'd']];

/// A list of steps on a new core. Where it is refused no step was taken: what the get has pending would be there.
fn run_all(heap: &Heap) -> Play {
    let Ok(mut core) = Core::new(heap, FixedState::new()) else {
        return check(heap.refused() == 1, "a core");
    };
    let Some(events) = events(heap) else {
        return Ok(());
    };
    let Ok(replies) = core.run(events) else {
        return check(core.is_at_rest(), "a list that is refused");
    };
    let letters = letters_of(&replies);
    let is_whole = letters == RUNS[0] || heap.refused() > 0;
    check(is_whole && RUNS.contains(&letters), "the replies")
}

#[test]
fn a_list_of_steps_is_refused_before_the_first(rt: HostRuntime) -> Result<(), Fail> {
    let plays = for_each_refusal(rt.alloc(), rt.alloc(), BOUND, |heap| run_all(heap))?;
    assert_eq!(rt; plays, 24);
    Ok(())
}

/// Returns `true` if a whole get finds key 1.
fn is_hit(core: &mut HeapCore) -> bool {
    if !core.is_at_rest() {
        return false;
    }
    matches!(core.get(&1, at(0)), Reply::Found(Some(_)))
}

/// Makes one whole call, if nothing is under way. Returns its reply.
fn call_at_rest<'a>(
    core: &mut HeapCore<'a>,
    call: Call<HeapShared<'a>, HeapShared<'a>>,
) -> Option<HeapReply<'a>> {
    if !core.is_at_rest() {
        return None;
    }
    Some(core.call(call))
}

/// Returns how many of three hundred gets are hits, with several maintenances among them, and how many requests they make.
fn requests_of_hits(heap: &Heap) -> (u64, u64) {
    let Ok(mut core) = Core::new(heap, FixedState::new()) else {
        return (0, 0);
    };
    let now = at(0);
    if let Some((key, value)) = pair(heap, 1, 7) {
        let _ = call_at_rest(&mut core, Call::Insert { key, value, now });
        let _ = call_at_rest(&mut core, Call::Sync { now });
    }
    heap.refuse(Refusals::From(1));
    let mut hits = 0u64;
    for _ in 0..300 {
        hits = hits.saturating_add(u64::from(is_hit(&mut core)));
    }
    (hits, heap.asked())
}

#[test]
fn a_hit_takes_no_memory(rt: HostRuntime) -> Result<(), Fail> {
    let heap = RefusingHeap::new(rt.alloc(), rt.alloc(), Refusals::Never)?;
    assert_eq!(rt; requests_of_hits(&heap), (300, 0));
    Ok(())
}
