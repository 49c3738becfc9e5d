// A recording cache: what it answers, and with which passes it is closed.
use moka_common::hash::FixedState;
use moka_common::shared::Shared;
use moka_common::time::Instant;
use moka_core::engine::Core;
use moka_record::pass::{CallPass, CloseError};
use moka_record::recorded::Recorded;
use moka_sync_model::call::Call;
use moka_sync_model::event::Reply;
use std::alloc::Global;
use std::sync::Wait;
use std::test::Fail;

/// A recording cache without a limit, and its one pass.
fn open(alloc: Global) -> Result<(Recorded<u64, u64>, Vec<CallPass>), Fail> {
    let core: Core<u64, u64> = Core::new(alloc, FixedState::new())?;
    if !core.is_new() {
        return Err("a new core".into());
    }
    Ok(Recorded::open(alloc, core, 1)?)
}

/// Returns if an insert of key 7 is recorded and done, and if a get is recorded and finds it.
fn insert_and_get<R: Wait>(
    rt: &R,
    alloc: Global,
    cache: &Recorded<u64, u64>,
    pass: &mut CallPass,
) -> Result<[bool; 2], Fail> {
    let now = Instant::from_nanos(0);
    let (key, value) = (Shared::new(alloc, 7)?, Shared::new(alloc, 1)?);
    let get = Call::Get {
        key: key.try_clone()?,
        now,
    };
    let inserted = cache.call(rt, pass, Call::Insert { key, value, now });
    let is_done = matches!(inserted, Ok(Reply::Done));
    match cache.call(rt, pass, get) {
        Ok(Reply::Found(Some(found))) => Ok([is_done, *found.get() == 1]),
        _ => Ok([is_done, false]),
    }
}

// What was recorded is compared in `tests_public`.
#[test]
fn a_recording_cache_knows_its_passes(rt: HostRuntime) -> Result<(), Fail> {
    let (cache, mut passes) = open(rt.alloc())?;
    let (other, _) = open(rt.alloc())?;
    for pass in passes.iter_mut() {
        let answers = [
            insert_and_get(&rt, rt.alloc(), &cache, pass)?,
            insert_and_get(&rt, rt.alloc(), &other, pass)?,
        ];
        assert_eq!(rt; (answers, pass.made()), ([[true; 2], [false; 2]], 2));
    }
    assert!(rt; matches!(other.close(passes), Err(CloseError::StrangePass)));
    let missing = Vec::new(rt.alloc());
    assert!(rt; matches!(cache.close(missing), Err(CloseError::PassMissing)));
    Ok(())
}
