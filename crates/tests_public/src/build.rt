// Each way to build a cache: with each of its requests refused in turn, with more room than there can be, and the room that is made.
use crate::plays::{BOUND, Heap, Play, check};
use mini_moka::common::{BuildError, FixedState};
use mini_moka::sync::CountPass;
use mini_moka::sync::engine::Core;
use mini_moka::{sync, unsync};
use std::test::Fail;
use tests_heap::{Refusals, RefusingHeap, for_each_refusal};

/// A way to build a cache with a limit of ten.
#[derive(Clone, Copy)]
enum Way {
    UnsyncNew,
    UnsyncBuild,
    UnsyncHasher,
    SyncNew,
    SyncBuild,
    SyncHasher,
    SyncCounted,
    Core,
    CoreNew,
}

/// The reason why it isn't built, and the bytes that it holds if it is.
type Outcome = (Option<BuildError>, u64);

fn unsync_built(heap: &Heap, way: Way, room: usize) -> Outcome {
    let builder = unsync::CacheBuilder::new(heap, 10).initial_capacity(room);
    let built: Result<unsync::Cache<u64, u64, _, _, &Heap>, BuildError> = match way {
        Way::UnsyncNew => unsync::Cache::new(heap, 10),
        Way::UnsyncBuild => builder.build(),
        _ => builder.build_with_hasher(FixedState::new()),
    };
    let held = heap.held_bytes();
    (built.err(), held)
}

fn sync_built(heap: &Heap, way: Way, room: usize) -> Outcome {
    let builder = sync::CacheBuilder::new(heap, 10).initial_capacity(room);
    let built: Result<sync::Cache<u64, u64, _, _, _, &Heap>, BuildError> = match way {
        Way::SyncNew => sync::Cache::new(heap, 10),
        Way::SyncBuild => builder.build(),
        _ => builder.build_with_hasher(FixedState::new()),
    };
    let held = heap.held_bytes();
    (built.err(), held)
}

fn counted_built(heap: &Heap, room: usize) -> Outcome {
    let builder = sync::CacheBuilder::new(heap, 10).initial_capacity(room);
    let built: Result<(sync::Cache<u64, u64, _, _, _, &Heap>, CountPass), BuildError> =
        builder.build_counted(FixedState::new());
    let held = heap.held_bytes();
    (built.err(), held)
}

fn core_built(heap: &Heap, way: Way, room: usize) -> Outcome {
    let builder = sync::CacheBuilder::new(heap, 10).initial_capacity(room);
    let built: Result<Core<u64, u64, _, _, &Heap>, BuildError> = match way {
        Way::Core => builder.build_core(FixedState::new()),
        _ => Core::new(heap, FixedState::new()),
    };
    let held = heap.held_bytes();
    (built.err(), held)
}

fn built(heap: &Heap, way: Way, room: usize) -> Outcome {
    match way {
        Way::UnsyncNew | Way::UnsyncBuild | Way::UnsyncHasher => unsync_built(heap, way, room),
        Way::SyncNew | Way::SyncBuild | Way::SyncHasher => sync_built(heap, way, room),
        Way::SyncCounted => counted_built(heap, room),
        Way::Core | Way::CoreNew => core_built(heap, way, room),
    }
}

/// A build is refused by its name where memory was refused, and only there.
fn build(heap: &Heap, way: Way) -> Play {
    let (error, _) = built(heap, way, 5);
    let refusal = if heap.refused() == 0 {
        None
    } else {
        Some(BuildError::OutOfMemory)
    };
    check(error == refusal, "a build's answer")
}

const WAYS: [Way; 9] = [
    Way::UnsyncNew,
    Way::UnsyncBuild,
    Way::UnsyncHasher,
    Way::SyncNew,
    Way::SyncBuild,
    Way::SyncHasher,
    Way::SyncCounted,
    Way::Core,
    Way::CoreNew,
];

/// Plays of each way that meet a refusal: two for each request.
const REFUSALS: [u64; 9] = [0, 8, 8, 86, 86, 86, 94, 74, 10];

#[test]
fn each_request_of_a_build_is_refused(rt: HostRuntime) -> Result<(), Fail> {
    let mut refusals = [0; 9];
    for (plays, way) in refusals.iter_mut().zip(&WAYS) {
        *plays = for_each_refusal(rt.alloc(), rt.alloc(), BOUND, |heap| build(heap, *way))?;
    }
    assert_eq!(rt; refusals, REFUSALS);
    Ok(())
}

// An entry of a shared cache and its place in the index take more than 64 bytes.
#[test]
fn room_from_the_start_is_made_or_refused_by_name(rt: HostRuntime) -> Result<(), Fail> {
    let heap = RefusingHeap::new(rt.alloc(), rt.alloc(), Refusals::Never)?;
    let errors = [
        built(&heap, Way::UnsyncBuild, usize::MAX).0,
        built(&heap, Way::SyncBuild, usize::MAX).0,
    ];
    let wanted = [
        Some(BuildError::OutOfMemory),
        Some(BuildError::CapacityTooLarge),
    ];
    let (least, more) = (
        built(&heap, Way::SyncBuild, 0).1,
        built(&heap, Way::SyncBuild, 16_000).1,
    );
    let is_made = more.saturating_sub(least) >= 16_000 * 64;
    assert_eq!(rt; (errors, is_made, heap.held_bytes()), (wanted, true, 0));
    Ok(())
}
