// When a maintenance is due, and who runs it.
use moka_common::time::Instant;
use moka_locks::housekeeper::Housekeeper;
use std::test::Fail;

fn at(nanos: u64) -> Instant {
    Instant::from_nanos(nanos)
}

/// Returns if a maintenance is due before any was run: by reads, by writes, and by five operations with a flush point of five.
fn dues(keeper: &Housekeeper) -> [bool; 4] {
    [
        keeper.should_apply_reads(63, at(9)),
        keeper.should_apply_reads(64, at(9)),
        keeper.should_apply_writes(63, at(u64::MAX)),
        keeper.should_apply(5, 5, at(0)),
    ]
}

/// Returns if one is run at this moment, and if another is due by time a nanosecond before its moment, and then.
fn run_and_dues(keeper: &Housekeeper, run: u64, due: u64) -> [bool; 5] {
    let (early, due) = (at(due.saturating_sub(1)), at(due));
    [
        keeper.try_sync(at(run), || {}),
        keeper.should_apply_reads(0, early),
        keeper.should_apply_writes(0, early),
        keeper.should_apply_reads(0, due),
        keeper.should_apply_writes(0, due),
    ]
}

// The due moment stays at the last there is.
#[test]
fn a_maintenance_is_due_by_its_log_or_by_time(rt: HostRuntime) {
    let keeper = Housekeeper::default();
    assert_eq!(rt; dues(&keeper), [false, true, false, true]);
    let wanted = [true, false, false, true, true];
    assert_eq!(rt; run_and_dues(&keeper, 0, 500_000_000), wanted);
    assert_eq!(rt; run_and_dues(&keeper, u64::MAX - 1, u64::MAX), wanted);
}

#[test]
fn one_caller_at_a_time_runs_the_maintenance(rt: HostRuntime) -> Result<(), Fail> {
    let keeper = Housekeeper::default();
    let mut runs = 0;
    let mut second = true;
    let first = keeper.try_sync(at(7), || {
        second = keeper.try_sync(at(7), || {});
        runs = 1;
    });
    assert_eq!(rt; (first, second, runs), (true, false, 1));
    assert!(rt; keeper.try_sync(at(7), || {}));
    Ok(())
}
