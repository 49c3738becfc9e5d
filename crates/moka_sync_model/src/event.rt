//! The atomic steps of the cache that threads share: what callers do, and the turns of its maintenance.
use crate::phase::Phase;
use moka_common::time::Instant;

/// One atomic step. `K` and `V` are what the cache keeps of a key and of a value: shared pointers, of which contracts see the value.
#[derive(Drop)]
pub enum Event<K: Drop, V: Drop> {
    /// Puts the pair into the map. An upsert is pending then.
    Insert {
        caller: u32,
        key: K,
        value: V,
        now: Instant,
    },
    /// Finds the unexpired entry of a key. A hit or a miss is pending then.
    Get {
        caller: u32,
        key: K,
        now: Instant,
    },
    /// Asks whether there is one, and leaves nothing behind.
    Contains {
        key: K,
        now: Instant,
    },
    /// Takes the entry of a key out of the map. A removal is pending then, if there was one.
    Invalidate {
        caller: u32,
        key: K,
        now: Instant,
    },
    /// An invalidation that answers the entry's value if it is live.
    Take {
        caller: u32,
        key: K,
        now: Instant,
    },
    /// Hides all entries from before this moment.
    InvalidateAll {
        now: Instant,
    },
    /// Puts the pending operation into its log.
    Push {
        caller: u32,
    },
    /// Drops the pending read.
    Forget {
        caller: u32,
    },
    /// Copies the unexpired pairs of a shard.
    Copy {
        shard: usize,
        now: Instant,
    },
    /// Begins a maintenance.
    Begin {
        now: Instant,
    },
    /// Goes on with it, by one step.
    Turn,
    /// Asks what is charged.
    Counts,
}

/// The reply to a step. `R` is what holds the pairs of a copy.
#[derive(Drop)]
pub enum Reply<V: Drop, R: Drop> {
    Done,
    Found(Option<V>),
    Bool(bool),
    /// The read log was full, and the pending read is dropped.
    Discarded,
    Rows(R),
    /// The phase of the maintenance then.
    At(Phase),
    Counts { count: usize, weight: u128 },
    /// The step can't happen now, and nothing has changed.
    NotPossible,
    /// Memory was refused, and nothing has changed.
    OutOfMemory,
    /// The key's shard has given out all its ticket numbers, or too many upserts of its entry are outstanding; nothing has changed.
    TicketsUsedUp,
}
