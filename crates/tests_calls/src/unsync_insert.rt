// Inserts and modifications of the cache for one thread: how often the weigher is asked, when the sketch's table is asked for, and what takes no memory.
ghost use Rattle.std.specs.Prelude.{⊤};

use moka_common::hash::FixedState;
use moka_common::time::Instant;
use moka_common::weigh::{UnitWeight, Weigh};
use moka_unsync::builder::CacheBuilder;
use moka_unsync::cache::Cache;
use std::alloc::Global;
use std::cell::Cell;
use std::test::Fail;
use tests_heap::{Refusals, RefusingHeap, for_each_refusal};

/// More plays than any work here has requests.
const BOUND: u64 = 200;

type Heap = RefusingHeap<Global>;

fn start() -> Instant {
    Instant::from_nanos(0)
}

/// Weighs each entry 1, and counts how often it is asked.
#[derive(Drop)]
struct Counting<'a> {
    asked: &'a Cell<u64>,
}

impl Weigh<u64, u64> for Counting<'_> {
    ghost ready = { λ _. ⊤ };

    ghost weighs = { λ _ _ _ _ _. ⊤ };

    fn weigh(&mut self, _key: &u64, _value: &u64) -> u32 {
        self.asked.set(self.asked.get().wrapping_add(1));
        1
    }
}

/// A call with this key.
#[derive(Clone, Copy)]
enum Call {
    Insert(u64),
    Modify(u64),
    Get(u64),
}

/// A cache by such a weigher.
type Counted<'a, 'h> = Cache<u64, u64, FixedState, Counting<'a>, &'h Heap>;

/// Makes a call. How many inserts are taken, and modifications made.
fn make(cache: &mut Counted, call: Call) -> u64 {
    match call {
        Call::Insert(key) => u64::from(cache.insert(key, 1, start()).is_ok()),
        Call::Modify(key) => {
            let doubled = |value: &mut u64| *value = value.wrapping_mul(2);
            u64::from(cache.modify(&key, start(), doubled))
        }
        Call::Get(key) => {
            let _ = cache.get(&key, start());
            0
        }
    }
}

/// The keys in order of use, as a digit each.
fn digits_of(cache: &Counted) -> u64 {
    let mut digits = 0u64;
    for (key, _) in cache.iter(start()) {
        digits = digits.wrapping_mul(10).wrapping_add(*key);
    }
    digits
}

/// The picture of a play: inserts that were taken, calls of the weigher, and the digits of the keys.
type Picture = (u64, u64, u64);

/// Makes calls on a cache with this limit and this room from the start, or none where it is not built.
fn seen(heap: &Heap, limit: u64, room: usize, calls: &[Call]) -> Option<Picture> {
    let asked = Cell::new(0);
    let builder = CacheBuilder::new(heap, limit).initial_capacity(room);
    let Ok(mut cache) = builder.weigher(Counting { asked: &asked }).build() else {
        return None;
    };
    let mut taken = 0u64;
    for call in calls {
        taken = taken.saturating_add(make(&mut cache, *call));
    }
    Some((taken, asked.get(), digits_of(&cache)))
}

/// New keys and updates at growths, and a key that is rejected.
const INSERTS: [Call; 6] = [
    Call::Insert(0),
    Call::Insert(0),
    Call::Insert(1),
    Call::Insert(1),
    Call::Insert(9),
    Call::Insert(0),
];

fn insert_all(heap: &Heap) -> Result<(), &'static str> {
    let Some((taken, asked, _)) = seen(heap, 2, 0, &INSERTS) else {
        return Err("a build takes memory");
    };
    if asked == taken && (heap.refused() > 0 || taken == 6) {
        Ok(())
    } else {
        Err("how often the weigher is asked")
    }
}

#[test]
fn the_weigher_is_asked_once_for_each_insert_that_is_taken(rt: HostRuntime) -> Result<(), Fail> {
    let plays = for_each_refusal(rt.alloc(), rt.alloc(), BOUND, |heap| insert_all(heap))?;
    assert_eq!(rt; plays, 16);
    Ok(())
}

/// Two keys that are modified, and one that isn't there.
const MODIFICATIONS: [Call; 5] = [
    Call::Insert(0),
    Call::Insert(1),
    Call::Modify(0),
    Call::Modify(9),
    Call::Modify(0),
];

fn modify_all(heap: &Heap) -> Result<(), &'static str> {
    match seen(heap, 2, 2, &MODIFICATIONS) {
        None => Err("a build takes memory"),
        Some((4, 4, 10)) => Ok(()),
        Some(_) => Err("what is modified, weighed and left in order of use"),
    }
}

#[test]
fn a_modification_is_weighed_once_and_is_a_use(rt: HostRuntime) -> Result<(), Fail> {
    let heap = RefusingHeap::new(rt.alloc(), rt.alloc(), Refusals::Never)?;
    assert_eq!(rt; modify_all(&heap), Ok(()));
    Ok(())
}

/// Returns how often a full cache asks for memory as its values are modified.
fn requests_of_modifications(heap: &Heap) -> Option<u64> {
    let mut cache: Cache<u64, u64, FixedState, UnitWeight, _> = CacheBuilder::new(heap, 10)
        .build()
        .ok()?;
    for key in 0..10u64 {
        cache.insert(key, 1, start()).ok()?;
    }
    let full = heap.asked();
    for key in 0..11u64 {
        let modified = cache.modify(&key, start(), |value: &mut u64| *value = 2);
        if modified != (key < 10) {
            return None;
        }
    }
    heap.asked().checked_sub(full)
}

#[test]
fn a_modification_takes_no_memory(rt: HostRuntime) -> Result<(), Fail> {
    let heap = RefusingHeap::new(rt.alloc(), rt.alloc(), Refusals::Never)?;
    assert_eq!(rt; requests_of_modifications(&heap), Some(0));
    Ok(())
}

/// Fills a cache with a limit of four, and inserts two keys more. One was asked for when two entries were there, the other when it was full.
const FILL: [Call; 12] = [
    Call::Insert(0),
    Call::Insert(1),
    Call::Get(7),
    Call::Get(7),
    Call::Get(7),
    Call::Insert(2),
    Call::Insert(3),
    Call::Insert(7),
    Call::Get(8),
    Call::Get(8),
    Call::Get(8),
    Call::Insert(8),
];

/// The table is asked for at key 1, and where it is refused at keys 2 and 3. The gets before it is there count for nothing. A build ends at a refusal.
fn fill_with_table(heap: &Heap) -> Result<(), &'static str> {
    let Some((_, _, digits)) = seen(heap, 4, 5, &FILL) else {
        return Ok(());
    };
    let want = match heap.refused() {
        0 => 2378,
        1 => 1238,
        _ => 123,
    };
    if digits == want {
        Ok(())
    } else {
        Err("which keys were admitted")
    }
}

#[test]
fn a_refused_table_is_asked_for_at_the_next_new_entry(rt: HostRuntime) -> Result<(), Fail> {
    let plays = for_each_refusal(rt.alloc(), rt.alloc(), BOUND, |heap| fill_with_table(heap))?;
    // Three requests of the build, and the table.
    assert_eq!(rt; plays, 8);
    Ok(())
}

/// Returns how many of a thousand keys a cache with this capacity takes without memory. Every second one is invalidated.
fn taken_without_memory(heap: &Heap, limit: u64, room: usize) -> Option<u64> {
    let mut cache: Cache<u64, u64, FixedState, UnitWeight, _> = CacheBuilder::new(heap, limit)
        .initial_capacity(room)
        .build()
        .ok()?;
    heap.refuse(Refusals::From(1));
    let mut taken = 1000;
    for key in 0..1000u64 {
        if cache.insert(key, 1, start()).is_err() {
            taken = key;
            break;
        }
        if key % 2 == 0 {
            cache.invalidate(&key, start());
        }
    }
    heap.refuse(Refusals::Never);
    Some(taken)
}

// With the limit as initial capacity no insert takes memory. Without a limit the 43rd key would be the 22nd entry.
#[test]
fn room_from_the_start_is_for_as_many_entries(rt: HostRuntime) -> Result<(), Fail> {
    let heap = RefusingHeap::new(rt.alloc(), rt.alloc(), Refusals::Never)?;
    let taken = [
        taken_without_memory(&heap, 10, 10),
        taken_without_memory(&heap, u64::MAX, 20),
    ];
    assert_eq!(rt; taken, [Some(1000), Some(42)]);
    Ok(())
}

/// Returns how often a cache with a limit of ten asks for memory when it is built, and from then until it is full.
fn requests_of(heap: &Heap, room: usize) -> Option<(u64, u64)> {
    let before = heap.asked();
    let mut cache: Cache<u64, u64, FixedState, UnitWeight, _> = CacheBuilder::new(heap, 10)
        .initial_capacity(room)
        .build()
        .ok()?;
    let built = heap.asked();
    for key in 0..10u64 {
        cache.insert(key, 1, start()).ok()?;
    }
    let full = heap.asked();
    Some((built.checked_sub(before)?, full.checked_sub(built)?))
}

// From half of the limit on the counters are allocated with the three blocks of the room. Else they are once the cache is half full. A growth takes three.
#[test]
fn a_cache_built_for_half_of_its_limit_has_its_counters(rt: HostRuntime) -> Result<(), Fail> {
    let heap = RefusingHeap::new(rt.alloc(), rt.alloc(), Refusals::Never)?;
    let requests = [10, 5, 4].map(|room| requests_of(&heap, room));
    assert_eq!(rt; requests, [Some((4, 0)), Some((4, 3)), Some((3, 4))]);
    Ok(())
}

/// Returns the bytes that a cache with a limit of a thousand holds once three thousand keys were inserted.
fn held_when_full(heap: &Heap, room: usize) -> Option<u64> {
    let mut cache: Cache<u64, u64, FixedState, UnitWeight, _> = CacheBuilder::new(heap, 1000)
        .initial_capacity(room)
        .build()
        .ok()?;
    for key in 0..3000u64 {
        cache.insert(key, 1, start()).ok()?;
    }
    Some(heap.held_bytes())
}

// A cache that grows stops at its limit and one more.
#[test]
fn a_grown_cache_takes_no_more_memory_than_its_limit_needs(rt: HostRuntime) -> Result<(), Fail> {
    let heap = RefusingHeap::new(rt.alloc(), rt.alloc(), Refusals::Never)?;
    let grown = held_when_full(&heap, 0);
    let reserved = held_when_full(&heap, 1000);
    assert!(rt; grown.is_some());
    assert_eq!(rt; grown, reserved);
    Ok(())
}

/// Returns how often a cache asks for memory as it takes four thousand entries that weigh nothing.
fn requests_of_weightless(heap: &Heap) -> Option<u64> {
    let builder = CacheBuilder::new(heap, 10).weigher(|_: &u64, _: &u64| 0u32);
    let mut cache = builder.build().ok()?;
    for key in 0..4000u64 {
        cache.insert(key, 1, start()).ok()?;
    }
    Some(heap.asked())
}

// A cache of weights may have more entries than its limit, so it doubles beyond it too.
#[test]
fn a_weighed_cache_doubles_its_memory_beyond_its_limit(rt: HostRuntime) -> Result<(), Fail> {
    let heap = RefusingHeap::new(rt.alloc(), rt.alloc(), Refusals::Never)?;
    let Some(requests) = requests_of_weightless(&heap) else {
        return Err("an insert is refused")?;
    };
    assert!(rt; requests < 60, "{requests} requests");
    Ok(())
}
