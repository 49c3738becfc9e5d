//! Why a call fails that makes what it inserts, or inserts it with a time to live of its own.
use thiserror::Error;

/// Why `try_get_or_insert_with` returns no value. Nothing was inserted.
#[derive(Debug, PartialEq, Eq, Drop)]
pub enum TryInsertError<E: Drop> {
    /// The error of `make`.
    Make(E),
    /// Memory was refused, for the clone or for room.
    OutOfMemory,
}

/// Why an insert with a time to live of its own is refused. Nothing was inserted.
#[derive(Clone, Copy, Debug, PartialEq, Eq, Error)]
pub enum TimedInsertError {
    /// The cache has no time to live, so its entries have no deadlines.
    #[error("the cache has no time to live")]
    NoTimeToLive,
    #[error("out of memory")]
    OutOfMemory,
}
