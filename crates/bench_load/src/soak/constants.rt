//! What a soak is made of.

/// Threads that share the cache. On most machines some of them are stopped in the middle of a call while others go on.
pub const CALLERS: u64 = 8;

/// Number of keys. It is below `SYNC_BATCH_SIZE`, so that one maintenance of a cache that nobody else calls removes all that is expired or above the limit.
pub const KEYS: u64 = 400;

/// Largest weight of a value. The least is 0.
pub const HEAVIEST: u32 = 7;

/// The weight limit: a quarter of the average weight of all keys together.
pub const LIMIT: u64 = 350;

/// How long an entry lives, in milliseconds. A call is a millisecond, so some entries are written again before, and others are not.
pub const TIME_TO_LIVE: u64 = 4_000;

/// How long an entry lives unused, in milliseconds.
pub const TIME_TO_IDLE: u64 = 1_500;

/// Calls that a caller makes between two looks at the shared clock, so that its own lines seldom wait for that one.
pub const CALLS_A_LOOK: u64 = 64;

/// One call in this many is made at a moment that may be far from the clock.
pub const JUMPS: u64 = 16;

/// Largest distance of such a moment, in milliseconds, forward or back. It is above the time to idle, and twice of it is above the time to live.
pub const FAR: u64 = 3_000;

/// The shares of the kinds of calls are numbers of calls among this many.
pub const OUT_OF: u64 = 20_000;

/// Number of segments of a cache of segments. Two threads seldom find them all free.
pub const SEGMENTS: usize = 4;

/// Pairs that the cache is filled with in the end. They fit whatever they weigh, also if a segment has half as many again as its share.
pub const FILLED: u64 = LIMIT / HEAVIEST as u64 * 2 / 3;
