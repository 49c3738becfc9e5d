// The examples for one thread.
use mini_moka::Error;
use mini_moka::common::time::Instant;
use mini_moka::unsync::{Cache, Call};
use moka_examples::calling::{is_found_after, minute_cache, take_out};
use moka_examples::pages::Pages;
use moka_examples::probes::{ServerRef, count_request, forget_server, role_of};
use moka_examples::saved::{restore, save};
use moka_examples::uses::{
    count_after_calls, count_visit, counts_of_what_left, found_within_ten_seconds, half_of,
    least_recently_used, left_of_64, millis_after_noon, remember, square_of_seven, weight_in_bytes,
};
use std::alloc::Global;
use std::rc::Rc;
use std::test::Fail;
use std::time::Clock;

// What is remembered is found; a text is found until its time is over; what is invalidated is gone; the first pair is of the least recently used entry; a list
// of calls is made in turn; a text weighs its bytes; a square is made and found; and entries leave for each cause.
#[test]
fn examples_for_one_thread_give_what_they_say(rt: HostRuntime) -> Result<(), Fail> {
    let alloc = rt.alloc();
    let found = (
        remember(alloc, 7, 1)?,
        found_within_ten_seconds(alloc)?,
        left_of_64(alloc)?,
    );
    let others = (least_recently_used(alloc)?, count_after_calls(alloc)?);
    let weight = weight_in_bytes(alloc, String::from_str(alloc, "alice")?)?;
    assert_eq!(rt; found, (Some(1), (true, false), (true, true, 31)));
    assert_eq!(rt; (others, weight), ((Some(1), Some(1)), 5));
    assert_eq!(rt; square_of_seven(alloc)?, [49, 49]);
    assert_eq!(rt; half_of(alloc, 8)?, (Some(4), Some(4)));
    assert_eq!(rt; half_of(alloc, 9)?, (None, None));
    assert_eq!(rt; counts_of_what_left(alloc)?, [1, 1, 1, 1, 1]);
    assert_eq!(rt; millis_after_noon(), 43_201_500);
    Ok(())
}

/// Returns if a page is found that was put, and if one that wasn't.
fn pages_found(alloc: Global, clock: &impl Clock) -> Result<[bool; 2], Error> {
    let mut pages = Pages::open(alloc, clock)?;
    pages.put(clock, 7, String::from_str(alloc, "alice")?)?;
    Ok([
        pages.text(clock, 7)?.is_some(),
        pages.text(clock, 8)?.is_some(),
    ])
}

#[test]
fn a_page_is_found_by_a_running_clock(rt: HostRuntime) -> Result<(), Fail> {
    assert_eq!(rt; pages_found(rt.alloc(), &rt)?, [true, false]);
    Ok(())
}

// Requests to the same port of another host, and to another port of the same host, are counted apart.
#[test]
fn a_probe_finds_what_its_key_finds(rt: HostRuntime) -> Result<(), Fail> {
    let (alloc, now) = (rt.alloc(), Instant::from_secs(0));
    let mut requests = Cache::new(alloc, 100)?;
    let (one, other) = (
        ServerRef {
            host: "one",
            port: 80,
        },
        ServerRef {
            host: "one",
            port: 81,
        },
    );
    let third = ServerRef {
        host: "two",
        port: 80,
    };
    let mut counts = [0; 5];
    for (count, server) in counts.iter_mut().zip([one, one, other, third, one]) {
        *count = count_request(alloc, &mut requests, server, now)?;
    }
    assert_eq!(rt; role_of(alloc, "alice")?, (Some(7), None));
    assert_eq!(rt; counts, [1, 2, 1, 1, 3]);
    let forgotten = (
        forget_server(&mut requests, one, now),
        forget_server(&mut requests, one, now),
    );
    assert_eq!(rt; forgotten, (Some(3), None));
    assert_eq!(rt; requests.entry_count(), 2);
    Ok(())
}

/// Returns `true` if what a list of calls wrote is found.
fn is_written(alloc: Global) -> Result<bool, Error> {
    let now = Instant::from_secs(0);
    let value = Rc::new(alloc, 10)?;
    let calls = vec![in alloc; Call::Insert { key: 7, value, now }]?;
    let mut cache: Cache<u64, Rc<u32>> = Cache::new(alloc, 100)?;
    Ok(is_found_after(alloc, &mut cache, calls, &7, now)?)
}

/// Returns if what is taken out was there, and if it is there once more.
fn taken_twice(alloc: Global) -> Result<[bool; 2], Error> {
    let now = Instant::from_nanos(0);
    let mut cache: Cache<u64, u32> = minute_cache(alloc, 10)?;
    cache.insert(7, 1, now)?;
    Ok([take_out(&mut cache, &7, now), take_out(&mut cache, &7, now)])
}

#[test]
fn what_was_written_is_found_and_taken_out_once(rt: HostRuntime) -> Result<(), Fail> {
    let found = (is_written(rt.alloc())?, taken_twice(rt.alloc())?);
    assert_eq!(rt; found, (true, [true, false]));
    Ok(())
}

/// Sixty pairs in a cache for a hundred, of which some were asked for.
fn asked(alloc: Global, now: Instant) -> Result<Cache<u64, u64>, Error> {
    let mut cache = Cache::new(alloc, 100)?;
    for key in 0..60u64 {
        cache.insert(key, key.saturating_mul(key), now)?;
    }
    for key in [7, 3, 7, 50] {
        let _ = cache.get(&key, now);
    }
    Ok(cache)
}

// The other cache saves the same lines: it has the same pairs in the same order, and their popularity.
#[test]
fn a_cache_is_saved_and_filled_again(rt: HostRuntime) -> Result<(), Fail> {
    let (alloc, now) = (rt.alloc(), Instant::from_secs(0));
    let cache = asked(alloc, now)?;
    let text = save(alloc, &cache)?;
    assert!(rt; text.ends_with("3 9 1\n7 49 2\n50 2500 1\n59 3481 0\n"));
    let mut other = Cache::new(alloc, 100)?;
    assert_eq!(rt; restore(&mut other, &text, now)?, 60);
    assert!(rt; save(alloc, &other)?.as_str() == text.as_str());
    let mut third = Cache::new(alloc, 100)?;
    let number = restore(&mut third, "1 2 3\n4 5\n6 7 8\n", now)?;
    assert_eq!(rt; (number, third.entry_count()), (1, 1));
    Ok(())
}

#[test]
fn visits_are_counted_in_place(rt: HostRuntime) -> Result<(), Fail> {
    let now = Instant::from_secs(0);
    let mut visits = Cache::new(rt.alloc(), 100)?;
    for page in [7, 8, 7, 7] {
        count_visit(&mut visits, page, now)?;
    }
    let counts = [7, 8].map(|page| visits.peek(&page, now).copied());
    assert_eq!(rt; counts, [Some(3), Some(1)]);
    Ok(())
}
