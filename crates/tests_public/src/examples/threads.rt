// The examples of the cache that threads share.
use mini_moka::Error;
use mini_moka::common::FixedState;
use mini_moka::common::time::Instant;
use mini_moka::sync::Cache;
use mini_moka::sync::housekeeper::Housekeeper;
use moka_examples::audit::{is_replayed, new_core, record_of_threads};
use moka_examples::board::announced_to_threads;
use moka_examples::calling::empty_if_due;
use moka_examples::configuration::configured_by_threads;
use moka_examples::metrics::watched_while_filled;
use moka_examples::shared::{
    IsSquare, charged_in_bytes, counted_twice, counts_of_a_session, key_and_length, some_square,
    square, square_by_threads, squares_below, there_within_ten_seconds,
};
use std::sync::Wait;
use std::test::Fail;

// Sixteen threads share a cache; a clone is the same cache; a shared text is there until its time is over, and weighs its bytes.
#[test]
fn examples_of_a_shared_cache_give_what_they_say(rt: HostRuntime) -> Result<(), Fail> {
    let alloc = rt.alloc();
    let found = (
        square_by_threads(rt, alloc)?,
        counted_twice(&rt, alloc)?,
        there_within_ten_seconds(&rt, alloc)?,
    );
    let charged = charged_in_bytes(&rt, alloc, String::from_str(alloc, "alice")?)?;
    assert_eq!(rt; (found, charged), (((1240, 16), (2, 2), (true, false)), 5));
    Ok(())
}

#[test]
fn a_session_counts_what_leaves(rt: HostRuntime) -> Result<(), Fail> {
    assert_eq!(rt; counts_of_a_session(&rt, rt.alloc())?, (1, 1));
    Ok(())
}

// Two readers were told of the second version of a setting, so neither finds the first.
#[test]
fn readers_find_the_version_that_they_were_told_of(rt: HostRuntime) -> Result<(), Fail> {
    assert_eq!(rt; configured_by_threads(rt, rt.alloc())?, 22);
    Ok(())
}

// Two readers were told of a notice and of the withdrawal of an older one.
#[test]
fn readers_find_the_notice_that_was_not_withdrawn(rt: HostRuntime) -> Result<(), Fail> {
    assert_eq!(rt; announced_to_threads(rt, rt.alloc())?, (22, None));
    Ok(())
}

/// A pair of a cache of squares before it is asked for the square of 7, that square twice, and a pair then.
fn squares_of_seven<R: Wait>(
    rt: &R,
    squares: &Cache<u32, u64, FixedState, IsSquare>,
) -> Result<(Option<(u32, u64)>, [u64; 2], Option<(u32, u64)>), Error> {
    let now = Instant::from_secs(0);
    let before = some_square(rt, squares, now)?;
    let both = [square(rt, squares, 7, now)?, square(rt, squares, 7, now)?];
    Ok((before, both, some_square(rt, squares, now)?))
}

#[test]
fn a_square_is_found_again(rt: HostRuntime) -> Result<(), Fail> {
    let squares = Cache::builder(rt.alloc()).pair_rule::<IsSquare>().build()?;
    let found = squares_of_seven(&rt, &squares)?;
    assert_eq!(rt; found, (None, [49, 49], Some((7, 49))));
    Ok(())
}

#[test]
fn a_snapshot_gives_all_squares_of_the_cache(rt: HostRuntime) -> Result<(), Fail> {
    let mut pairs = squares_below(&rt, rt.alloc(), 4)?;
    pairs.sort_unstable_by_key(|pair| pair.0);
    assert!(rt; pairs.as_slice() == [(0, 0), (1, 1), (2, 4), (3, 9)].as_slice());
    Ok(())
}

/// The key of the entry that comes of an insert, and the length of its text.
fn entry_read<R: Wait>(
    rt: &R,
    cache: &Cache<u64, String>,
    text: String,
) -> Result<(u64, usize), Error> {
    let now = Instant::from_secs(0);
    cache.insert(rt, 7, text, now)?;
    match cache.iter(rt, now)?.next() {
        Some(entry) => Ok(key_and_length(&entry)),
        None => Ok((0, 0)),
    }
}

#[test]
fn an_entry_reads_as_its_text(rt: HostRuntime) -> Result<(), Fail> {
    let text = String::from_str(rt.alloc(), "alice")?;
    let cache: Cache<u64, String> = Cache::new(rt.alloc(), 10)?;
    let read = entry_read(&rt, &cache, text)?;
    assert_eq!(rt; read, (7, 5));
    Ok(())
}

/// Returns if a log is emptied at this second, and its length then.
fn emptied_at(keeper: &Housekeeper, log: &mut Vec<u32>, second: u64) -> (bool, usize) {
    let now = Instant::from_secs(second);
    let is_emptied = empty_if_due(keeper, log.len(), now, || log.clear());
    (is_emptied, log.len())
}

#[test]
fn a_log_is_emptied_at_its_length_or_after_half_a_second(rt: HostRuntime) -> Result<(), Fail> {
    let keeper = Housekeeper::default();
    let mut log = vec![in rt.alloc(); 7; 9]?;
    assert_eq!(rt; emptied_at(&keeper, &mut log, 9), (false, 9));
    log.push(7)?;
    assert_eq!(rt; emptied_at(&keeper, &mut log, 9), (true, 0));
    log.push(8)?;
    let emptied = [
        emptied_at(&keeper, &mut log, 9),
        emptied_at(&keeper, &mut log, 10),
    ];
    assert_eq!(rt; emptied, [(false, 1), (true, 0)]);
    Ok(())
}

#[test]
fn no_counts_are_torn_or_go_back(rt: HostRuntime) -> Result<(), Fail> {
    let (most, last) = watched_while_filled(rt, rt.alloc(), 10_000)?;
    assert!(rt; most.is_some_and(|most| most <= 100));
    assert_eq!(rt; last, 100);
    Ok(())
}

#[test]
fn what_four_threads_were_answered_is_replayed(rt: HostRuntime) -> Result<(), Fail> {
    let record = record_of_threads(rt, rt.alloc(), 4)?;
    assert_eq!(rt; record.calls().len(), 400);
    assert!(rt; is_replayed(rt.alloc(), new_core(rt.alloc())?, &record)?);
    Ok(())
}
