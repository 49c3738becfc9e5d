// What the core is made of, called as a caller of the library does.
use moka_common::error::InsertError;
use moka_queues::logs::{LoggedRead, NO_READ, ReadLog};
use moka_sync_model::operation::Read;
use std::test::Fail;

/// Errors with their texts.
const ERRORS: [(InsertError, &str); 2] = [
    (InsertError::OutOfMemory, "out of memory"),
    (InsertError::TicketsUsedUp, "tickets used up"),
];

#[test]
fn errors_have_their_texts(rt: HostRuntime) -> Result<(), Fail> {
    for (error, text) in &ERRORS {
        assert_eq!(rt; error.to_string(rt.alloc())?.as_str(), *text);
    }
    Ok(())
}

/// Returns how many misses a log takes if offered one more than it holds, and how many are then taken into all but three places.
fn filled(reads: &mut ReadLog) -> (u64, usize) {
    let mut count = 0u64;
    for hash in 0..385u64 {
        if reads.push(Read::Miss { hash }).is_ok() {
            count = count.saturating_add(1);
        }
    }
    let mut taken = [NO_READ; 381];
    (count, reads.take_first(400, &mut taken))
}

/// Returns the hints of the first six reads of a log. Three without a hint were pushed, and then three with the hints 1, 2 and 3.
fn hints(reads: &mut ReadLog) -> [usize; 6] {
    for hint in 1..4 {
        let read = Read::Miss { hash: 9 };
        let _ = reads.push_logged(LoggedRead { read, hint });
    }
    let mut rest = [NO_READ; 6];
    reads.take_first(6, &mut rest);
    [
        rest[0].hint,
        rest[1].hint,
        rest[2].hint,
        rest[3].hint,
        rest[4].hint,
        rest[5].hint,
    ]
}

// No contract speaks of hints. A read has its own wherever it lies in the ring.
#[test]
fn logs_hold_384_operations(rt: HostRuntime) -> Result<(), Fail> {
    let mut reads = ReadLog::new(rt.alloc())?;
    assert_eq!(rt; filled(&mut reads), (384, 381));
    assert_eq!(rt; hints(&mut reads), [0, 0, 0, 1, 2, 3]);
    assert_eq!(rt; reads.len(), 0);
    Ok(())
}
