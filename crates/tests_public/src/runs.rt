// Lists of calls and recorded calls, with each of their requests refused in turn.
use crate::plays::{BOUND, Heap, HeapShared, Play, at, check, pair};
use mini_moka::common::{FixedState, OutOfMemory, UnitWeight};
use mini_moka::sync::engine::{Call, Core, Reply, Rows};
use mini_moka::sync::recorded::{CallPass, NotRecorded, Record, Recorded};
use mini_moka::unsync;
use std::rc::Rc;
use std::test::Fail;
use tests_heap::for_each_refusal;

type HeapCache<'a> = unsync::Cache<u64, Rc<u64, &'a Heap>, FixedState, UnitWeight, &'a Heap>;

/// Insert, get and count, for key 0 and for key 1, or nothing where memory for the list is refused.
fn call_list(heap: &Heap) -> Option<Vec<unsync::Call<u64, u64, &Heap>, &Heap>> {
    let now = at(0);
    let (value, other) = (Rc::new(heap, 7).ok()?, Rc::new(heap, 7).ok()?);
    let calls = vec![in heap;
        unsync::Call::Insert { key: 0, value, now },
        unsync::Call::Get { key: 0, now },
        unsync::Call::EntryCount,
        unsync::Call::Insert {
            key: 1,
            value: other,
            now
        },
        unsync::Call::Get { key: 1, now },
        unsync::Call::EntryCount,
    ];
    calls.ok()
}

/// Returns a letter for a reply: done, found with its value 7, absent, a number or refused.
fn letter(reply: &unsync::Reply<u64, &Heap>) -> char {
    match reply {
        unsync::Reply::Done => 'd',
        unsync::Reply::Found(Some(value)) if **value == 7 => 'f',
        unsync::Reply::Found(None) => 'a',
        unsync::Reply::Number(0) => '0',
        unsync::Reply::Number(1) => '1',
        unsync::Reply::Number(2) => '2',
        unsync::Reply::OutOfMemory => 'o',
        _ => '?',
    }
}

/// The replies to these calls, in letters, and the entries afterwards.
const RUNS: [([char; 6], u64); 5] = [
    (['d', 'f', '1', 'd', 'f', '2'], 2),
    (['o', 'a', '0', 'd', 'f', '1'], 1),
    (['d', 'f', '1', 'o', 'a', '1'], 1),
    (['o', 'a', '0', 'o', 'a', '0'], 0),
    (['-'; 6], 0),
];

/// The replies in letters.
fn letters_of(replies: &[unsync::Reply<u64, &Heap>]) -> [char; 6] {
    let mut letters = ['-'; 6];
    for (place, reply) in letters.iter_mut().zip(replies) {
        *place = letter(reply);
    }
    letters
}

/// A list of calls on an empty cache. Where it is refused, there are no replies and no entries.
fn run_calls(heap: &Heap) -> Play {
    let Some(calls) = call_list(heap) else {
        return Ok(());
    };
    let Ok(mut cache) = HeapCache::new(heap, 10) else {
        return Err("a build takes memory");
    };
    let mut letters = ['-'; 6];
    if let Ok(replies) = unsync::run(heap, &mut cache, calls) {
        letters = letters_of(&replies);
    }
    let run = (letters, cache.entry_count());
    let is_whole = run == RUNS[0] || heap.refused() > 0;
    check(
        is_whole && RUNS.contains(&run),
        "the replies and the entries",
    )
}

#[test]
fn a_list_of_calls_is_refused_before_the_first(rt: HostRuntime) -> Result<(), Fail> {
    let plays = for_each_refusal(rt.alloc(), rt.alloc(), BOUND, |heap| run_calls(heap))?;
    assert_eq!(rt; plays, 18);
    Ok(())
}

/// A recording cache with its passes.
type Opened<'a> = (
    Recorded<u64, u64, FixedState, UnitWeight, UnitWeight, &'a Heap>,
    Vec<CallPass, &'a Heap>,
);

/// A cache is opened whole, and closed with its passes, or is not opened.
fn open_and_close(heap: &Heap) -> Play {
    let Ok(core) = Core::new(heap, FixedState::new()) else {
        return Ok(());
    };
    let opened: Result<Opened, OutOfMemory> = Recorded::open(heap, core, 3);
    match opened {
        Ok((cache, passes)) => check(cache.close(passes).is_ok(), "closed with all its passes"),
        Err(_) => check(heap.refused() > 0, "a refusal without a reason"),
    }
}

#[test]
fn a_recording_cache_is_opened_whole_or_not(rt: HostRuntime) -> Result<(), Fail> {
    let plays = for_each_refusal(rt.alloc(), rt.alloc(), BOUND, |heap| open_and_close(heap))?;
    assert_eq!(rt; plays, 14);
    Ok(())
}

type HeapRecord<'a> = Record<u64, u64, FixedState, UnitWeight, &'a Heap>;

type HeapReply<'a> = Reply<HeapShared<'a>, Rows<u64, u64, &'a Heap>>;

/// Returns a letter for a reply: done, found with its value 7, absent or refused.
fn core_letter(reply: &HeapReply) -> char {
    match reply {
        Reply::Done => 'd',
        Reply::Found(Some(value)) if *value.get() == 7 => 'f',
        Reply::Found(None) => 'a',
        Reply::OutOfMemory => 'o',
        _ => '?',
    }
}

/// Returns a letter for the answer to a call, or a dash if it isn't recorded.
fn answer_of<'a>(kept: &mut HeapRecord<'a>, call: Call<HeapShared<'a>, HeapShared<'a>>) -> char {
    match kept.apply(call) {
        Ok(answer) => core_letter(&answer),
        Err(NotRecorded) => '-',
    }
}

/// Returns the letters for an insert and a get of a key, with dashes if memory for key and value is refused.
fn insert_and_get<'a>(heap: &'a Heap, kept: &mut HeapRecord<'a>, key: u64) -> [char; 2] {
    let now = at(0);
    let (Some((key, value)), Some((again, _))) = (pair(heap, key, 7), pair(heap, key, 7)) else {
        return ['-'; 2];
    };
    let inserted = answer_of(kept, Call::Insert { key, value, now });
    [inserted, answer_of(kept, Call::Get { key: again, now })]
}

/// The answers that were written down.
fn written(kept: &HeapRecord) -> [char; 6] {
    let mut letters = ['-'; 6];
    for (place, made) in letters.iter_mut().zip(kept.calls()) {
        *place = core_letter(&made.reply);
    }
    letters
}

/// The allowed answers to an insert and a get: a call that isn't recorded isn't made, and what is refused isn't there.
const ANSWERS: [[char; 2]; 6] = [
    ['d', 'f'],
    ['d', '-'],
    ['o', 'a'],
    ['o', '-'],
    ['-', 'a'],
    ['-', '-'],
];

/// The answers in turn, without dashes.
fn made(all: &[[char; 2]; 3]) -> [char; 6] {
    let mut letters = ['-'; 6];
    let mut places = letters.iter_mut();
    for answers in all {
        for letter in answers {
            if *letter != '-' {
                if let Some(place) = places.next() {
                    *place = *letter;
                }
            }
        }
    }
    letters
}

/// Inserts and gets of three keys, each written down with its answer or not made.
fn record_all(heap: &Heap) -> Play {
    let Ok(core) = Core::new(heap, FixedState::new()) else {
        return Ok(());
    };
    let mut kept = Record::new(heap, core);
    let mut all = [['-'; 2]; 3];
    for (key, answers) in all.iter_mut().enumerate() {
        *answers = insert_and_get(heap, &mut kept, key as u64);
    }
    check(written(&kept) == made(&all), "the record has the answers")?;
    let are_whole = all == [['d', 'f']; 3] || heap.refused() > 0;
    check(are_whole && are_allowed(&all), "the answers")
}

/// Returns `true` if each key is answered as allowed.
fn are_allowed(all: &[[char; 2]; 3]) -> bool {
    all.iter().all(|answers| ANSWERS.contains(answers))
}

#[test]
fn a_call_is_recorded_as_it_was_made_or_not_made(rt: HostRuntime) -> Result<(), Fail> {
    let plays = for_each_refusal(rt.alloc(), rt.alloc(), BOUND, |heap| record_all(heap))?;
    assert_eq!(rt; plays, 50);
    Ok(())
}
