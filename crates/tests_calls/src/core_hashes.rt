// How often a call of the core hashes its key: no contract says.
use crate::hashers::CountingState;
use moka_common::shared::Shared;
use moka_common::time::Instant;
use moka_core::engine::Core;
use moka_sync_model::call::Call;
use std::alloc::{AllocError, Global};
use std::cell::Cell;
use std::test::Fail;

/// A whole call of key 7, or a maintenance. A borrowing get needs no key that is shared.
#[derive(Clone, Copy, Debug)]
enum Kind {
    BorrowingGet,
    Insert,
    Contains,
    Invalidate,
    Sync,
}

/// Makes a whole call on a core at rest.
fn make(
    alloc: Global,
    core: &mut Core<u64, u64, CountingState>,
    kind: Kind,
) -> Result<(), AllocError> {
    let now = Instant::from_nanos(0);
    let key = Shared::new(alloc, 7)?;
    if !core.is_at_rest() {
        return Err(AllocError);
    }
    let call = match kind {
        Kind::BorrowingGet => {
            core.get(&7, now);
            return Ok(());
        }
        Kind::Insert => Call::Insert {
            value: key.try_clone()?,
            key,
            now,
        },
        Kind::Contains => Call::Contains { key, now },
        Kind::Invalidate => Call::Invalidate { key, now },
        Kind::Sync => Call::Sync { now },
    };
    core.call(call);
    Ok(())
}

/// A miss, a new key, an update, and then the key that is there; and a miss. A maintenance hashes none, though it applies all of these.
const HASHES: [(Kind, u64); 8] = [
    (Kind::BorrowingGet, 1),
    (Kind::Insert, 1),
    (Kind::Insert, 1),
    (Kind::BorrowingGet, 1),
    (Kind::Contains, 1),
    (Kind::Invalidate, 1),
    (Kind::Contains, 1),
    (Kind::Sync, 0),
];

#[test]
fn a_call_hashes_its_key_once(rt: HostRuntime) -> Result<(), Fail> {
    let asked = Cell::new(0);
    let mut core = Core::new(rt.alloc(), CountingState { asked: &asked })?;
    for (kind, hashes) in &HASHES {
        let before = asked.get();
        make(rt.alloc(), &mut core, *kind)?;
        assert_eq!(rt; asked.get().wrapping_sub(before), *hashes, "by {kind:?}");
    }
    Ok(())
}
