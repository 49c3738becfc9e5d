// The cache for one thread: its texts, the predicate of an invalidation, a removal of expired entries, and a long run of calls.
use moka_common::error::{BuildError, OutOfMemory};
use moka_common::time::Instant;
use moka_unsync::builder::CacheBuilder;
use moka_unsync::cache::Cache;
use moka_unsync::runs::{Call, Reply, run};
use std::alloc::Global;
use std::rc::Rc;
use std::test::Fail;
use std::time::Duration;

fn start() -> Instant {
    Instant::from_nanos(0)
}

/// Reasons for no cache, with their texts.
const REASONS: [(BuildError, &str); 6] = [
    (
        BuildError::TimeToLiveTooLong,
        "time_to_live is longer than 1000 years",
    ),
    (
        BuildError::TimeToIdleTooLong,
        "time_to_idle is longer than 1000 years",
    ),
    (BuildError::WindowShareTooLarge, "window_share is above 100"),
    (
        BuildError::ProtectedShareTooLarge,
        "protected_share is above 100",
    ),
    (
        BuildError::CapacityTooLarge,
        "initial_capacity is too large",
    ),
    (BuildError::OutOfMemory, "out of memory"),
];

#[test]
fn reasons_for_no_cache_have_their_texts(rt: HostRuntime) -> Result<(), Fail> {
    for (error, text) in &REASONS {
        assert_eq!(rt; error.to_string(rt.alloc())?.as_str(), *text);
    }
    Ok(())
}

/// The keys 0 to 3 with themselves for values, of which 0 was used last.
fn four_keys(alloc: Global) -> Result<Cache<u64, u64>, Fail> {
    let mut cache: Cache<u64, u64> = Cache::new(alloc, 10)?;
    for key in 0..4 {
        cache.insert(key, key, start())?;
    }
    let _ = cache.get(&0, start());
    Ok(cache)
}

/// A cache and an iterator over it show their entries. Debug is no call with a moment, so it shows what is expired by now as well.
#[test]
fn the_debug_text_has_every_stored_entry(rt: HostRuntime) -> Result<(), Fail> {
    let cache = four_keys(rt.alloc())?;
    let text = format!(in rt.alloc(); "{cache:?} {:?}", cache.iter(start()))?;
    assert!(rt; text.as_str().starts_with("{1: 1, 2: 2, 3: 3, 0: 0} "));
    assert!(rt; text.as_str().ends_with("now: Instant { nanos: 0 }, .. }"));
    Ok(())
}

#[test]
fn what_is_set_is_shown(rt: HostRuntime) -> Result<(), Fail> {
    let builder: CacheBuilder<u64, u64> = CacheBuilder::new(rt.alloc(), 3);
    let now = start();
    let call: Call<u64, u64> = Call::Get { key: 7, now };
    let reply: Reply<u64> = Reply::Number(1);
    let text = format!(in rt.alloc(); "{builder:?} {call:?} {reply:?}")?;
    let shown =
        "CacheBuilder { max_capacity: Some(3), time_to_live: None, time_to_idle: None, initial_capacity: 0, window_share: 1, protected_share: 0, adaptive: false, is_weighed: false } Get { key: 7, now: Instant { nanos: 0 } } Number(1)";
    assert!(rt; text.as_str() == shown);
    Ok(())
}

/// Invalidates the keys 1 and 3. Each digit of the answer is a key that the predicate was asked of.
fn invalidate_odd_keys(cache: &mut Cache<u64, u64>) -> u64 {
    let mut asked = 0u64;
    cache.invalidate_entries_if(|key: &u64, _value: &u64| {
        asked = asked.wrapping_mul(10).wrapping_add(*key);
        *key % 2 == 1
    });
    asked
}

#[test]
fn a_predicate_is_asked_once_of_each_entry_in_order_of_use(rt: HostRuntime) -> Result<(), Fail> {
    let mut cache = four_keys(rt.alloc())?;
    let asked = invalidate_odd_keys(&mut cache);
    assert_eq!(rt;
        (asked, cache.entry_count(), cache.weighted_size()),
        (1230, 2, 2)
    );
    Ok(())
}

/// Writes a key at 100 seconds and 150 others at 0, which stand behind it in the orders of writing and of use. Returns how many entries there are at 50
/// seconds, once a key was asked for and once the expired entries are removed.
fn counts_around_a_removal(builder: CacheBuilder<u64, u64>) -> Result<(u64, u64), Fail> {
    let mut cache = builder.build()?;
    cache.insert(150, 150, Instant::from_secs(100))?;
    for key in 0..150 {
        cache.insert(key, key, start())?;
    }
    let now = Instant::from_secs(50);
    let _ = cache.contains_key(&150, now);
    let before = cache.entry_count();
    cache.remove_expired(now);
    Ok((before, cache.entry_count()))
}

// More than a batch of expired entries stand behind an unexpired one, so other calls leave them.
#[test]
fn all_expired_entries_leave_at_once(rt: HostRuntime) -> Result<(), Fail> {
    let ten = Duration::from_secs(10);
    let live = CacheBuilder::default(rt.alloc()).time_to_live(ten);
    assert_eq!(rt; counts_around_a_removal(live)?, (151, 1));
    let idle = CacheBuilder::default(rt.alloc()).time_to_idle(ten);
    assert_eq!(rt; counts_around_a_removal(idle)?, (151, 1));
    Ok(())
}

#[test]
fn without_a_duration_no_entry_is_expired(rt: HostRuntime) -> Result<(), Fail> {
    let mut cache = four_keys(rt.alloc())?;
    cache.remove_expired(Instant::from_nanos(u64::MAX));
    assert_eq!(rt; cache.entry_count(), 4);
    Ok(())
}

/// Inserts of the keys below this number, each removed at once and then looked up.
fn calls_of(alloc: Global, number: u64) -> Result<Vec<Call<u64, u64>>, OutOfMemory> {
    let now = start();
    let mut calls = Vec::new(alloc);
    for key in 0..number {
        let Ok(value) = Rc::new(alloc, key) else {
            return Err(OutOfMemory);
        };
        calls.push(Call::Insert { key, value, now })?;
        calls.push(Call::Remove { key, now })?;
        calls.push(Call::Get { key, now })?;
    }
    Ok(calls)
}

/// Returns `true` if a reply is that of the call at this place.
fn is_of_place(place: usize, reply: &Reply<u64>) -> bool {
    match reply {
        Reply::Done => place % 3 == 0,
        Reply::Found(Some(value)) => place % 3 == 1 && **value == (place / 3) as u64,
        Reply::Found(None) => place % 3 == 2,
        _ => false,
    }
}

#[test]
fn a_run_makes_two_thousand_calls(rt: HostRuntime) -> Result<(), Fail> {
    let calls = calls_of(rt.alloc(), 700)?;
    let mut cache: Cache<u64, Rc<u64>> = Cache::new(rt.alloc(), 10)?;
    let replies = run(rt.alloc(), &mut cache, calls)?;
    let mut are_well = true;
    for (place, reply) in replies.iter().enumerate() {
        are_well &= is_of_place(place, reply);
    }
    assert_eq!(rt; (replies.len(), are_well), (2100, true));
    Ok(())
}

/// Returns five calls. They get or insert 5 at key 1, 6 there, and 7 at key 2, then look at key 2 and count.
fn gets_or_inserts(alloc: Global) -> Result<Vec<Call<u64, u64>>, OutOfMemory> {
    let now = start();
    let mut calls = Vec::new(alloc);
    for (key, number) in [(1, 5), (1, 6), (2, 7)] {
        let Ok(value) = Rc::new(alloc, number) else {
            return Err(OutOfMemory);
        };
        calls.push(Call::GetOrInsert { key, value, now })?;
    }
    calls.push(Call::Peek { key: 2, now })?;
    calls.push(Call::EntryCount)?;
    Ok(calls)
}

/// A reply as a number: the value that is found, 100 more than a count, 200 and 201 for a truth, 300 without a time to live, and 1000 for any other.
fn told(reply: &Reply<u64>) -> u64 {
    match reply {
        Reply::Found(Some(value)) => **value,
        Reply::Number(number) => number.saturating_add(100),
        Reply::Bool(answer) => 200 + u64::from(*answer),
        Reply::NoTimeToLive => 300,
        _ => 1000,
    }
}

// There is room for one entry. Key 2 is asked for as often as key 1, so its entry is rejected; the reply is the value that was to be inserted.
#[test]
fn a_run_gets_or_inserts(rt: HostRuntime) -> Result<(), Fail> {
    let calls = gets_or_inserts(rt.alloc())?;
    let mut cache: Cache<u64, Rc<u64>> = Cache::new(rt.alloc(), 1)?;
    let replies = run(rt.alloc(), &mut cache, calls)?;
    let mut numbers = [0u64; 5];
    for (place, reply) in numbers.iter_mut().zip(&replies) {
        *place = told(reply);
    }
    assert_eq!(rt; (replies.len(), numbers), (5, [5, 5, 7, 1000, 101]));
    Ok(())
}

/// Returns calls on key 1 with a time to live of its own: two inserts, a modification and looks at it, a removal of expired entries, and a modification.
fn timed_calls(alloc: Global) -> Result<Vec<Call<u64, u64>>, OutOfMemory> {
    let (key, early, late) = (1, Instant::from_secs(1), Instant::from_secs(30));
    let mut calls = Vec::new(alloc);
    for (seconds, number) in [(5, 5), (2, 6)] {
        let Ok(value) = Rc::new(alloc, number) else {
            return Err(OutOfMemory);
        };
        let time_to_live = Duration::from_secs(seconds);
        calls.push(Call::InsertWithTimeToLive {
            key,
            value,
            time_to_live,
            now: start(),
        })?;
    }
    calls.push(Call::Get { key, now: early })?;
    for (now, number) in [(early, 7), (late, 8)] {
        let Ok(value) = Rc::new(alloc, number) else {
            return Err(OutOfMemory);
        };
        calls.push(Call::Modify { key, value, now })?;
        let now = Instant::from_secs(5);
        calls.push(Call::Get { key, now })?;
        calls.push(Call::RemoveExpired { now: late })?;
        calls.push(Call::EntryCount)?;
    }
    Ok(calls)
}

/// The replies to these calls as numbers.
fn timed_replies(alloc: Global, time_to_live: Option<Duration>) -> Result<[u64; 11], Fail> {
    let mut builder = CacheBuilder::new(alloc, 10);
    if let Some(duration) = time_to_live {
        builder = builder.time_to_live(duration);
    }
    let mut cache: Cache<u64, Rc<u64>> = builder.build()?;
    let replies = run(alloc, &mut cache, timed_calls(alloc)?)?;
    let mut numbers = [0u64; 11];
    for (place, reply) in numbers.iter_mut().zip(&replies) {
        *place = told(reply);
    }
    Ok(numbers)
}

// The second insert's 2 seconds end before 5, but the modification gives the entry the cache's 20. At 30 it is gone, so the second one finds nothing.
#[test]
fn a_run_inserts_for_a_time_and_modifies(rt: HostRuntime) -> Result<(), Fail> {
    let timed = timed_replies(rt.alloc(), Some(Duration::from_secs(20)))?;
    assert_eq!(rt;
        timed,
        [1000, 1000, 6, 201, 7, 1000, 100, 200, 1000, 1000, 100]
    );
    let untimed = timed_replies(rt.alloc(), None)?;
    assert_eq!(rt;
        untimed,
        [300, 300, 1000, 200, 1000, 1000, 100, 200, 1000, 1000, 100]
    );
    Ok(())
}
