//! The limits of the cache that threads share.

/// Shards of the map. A key's shard is its hash modulo this number, so that callers of different keys seldom meet at one lock.
pub const SHARDS: usize = 16;

/// The ticket number that is never given out. A shard that has come to it takes no new entry, so that no number comes twice.
pub const NO_TICKET: u64 = u64::MAX;

/// Upserts of an entry that can be outstanding. An insert that would be one more is refused, so that none is forgotten.
pub const MAX_OUTSTANDING: u64 = u64::MAX;

/// The node hint of an entry that isn't charged yet, or whose node's number has more than 32 bits.
pub const NO_HINT: u32 = u32::MAX;

/// Operations in a log that make a maintenance due, or another round of it: enough of them to be worth its locks.
pub const FLUSH_POINT: usize = 64;

/// Rounds of a maintenance at most, so that it ends while callers go on to push.
pub const MAX_ROUNDS: usize = 5;

/// Operations that the read log holds: a flush point for each round, and one more to be filled meanwhile. A read beyond is dropped.
pub const READ_LOG_SIZE: usize = FLUSH_POINT * (MAX_ROUNDS + 1);

/// Operations that the write log holds, by the same count. A write beyond waits.
pub const WRITE_LOG_SIZE: usize = FLUSH_POINT * (MAX_ROUNDS + 1);

/// Most turns of the expiry of an order, or of the eviction, in one maintenance. It bounds the time that a call spends on entries that it doesn't ask for. It
/// is larger than that of the cache for one thread, since fewer calls do it.
pub const SYNC_BATCH_SIZE: usize = 500;

/// Absent entries in a row that end a scan, so that it ends while many invalidations are on their way.
pub const MAX_ABSENT: usize = 6;

/// Nanoseconds from a maintenance to the next that is due by time alone: half a second.
pub const SYNC_INTERVAL: u64 = 500_000_000;

/// The caller of whole calls on a core that has no locks.
pub const CALLER: u32 = 0;
