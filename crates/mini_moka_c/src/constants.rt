//! The statuses that calls answer, and the number that sets no limit.

/// The call was made.
pub const DONE: u32 = 0;
/// The call was made, and the key has no unexpired entry.
pub const ABSENT: u32 = 1;
/// The handle is closed: no call but to open it changes anything.
pub const CLOSED: u32 = 2;
/// The handle is open already, and stays as it was.
pub const ALREADY_OPEN: u32 = 3;
/// Memory was refused, and the cache has all entries that it had.
pub const OUT_OF_MEMORY: u32 = 4;
/// The handle keeps numbers and the call is one of bytes, or the other way round: nothing was done.
pub const OTHER_KIND: u32 = 5;
/// The buffer is shorter than the value that was found. The value's length is written.
pub const TOO_SHORT: u32 = 6;
/// No walk was begun, or a call that may change the cache was made since.
pub const CHANGED: u32 = 7;
/// A time to live or to idle is 0, so no entry would ever be found: nothing was done.
pub const ZERO_DURATION: u32 = 8;
/// The call was made, and the admission policy did not let the new entry in.
pub const REJECTED: u32 = 9;
/// A share is above 100 percent: nothing was done.
pub const SHARE_TOO_LARGE: u32 = 10;
/// The cache has no time to live, so no entry can have its own: nothing was done.
pub const NO_TIME_TO_LIVE: u32 = 11;

/// The capacity or the duration of a cache that has none. No clock reaches it: as nanoseconds it is more than 584 years.
pub const UNLIMITED: u64 = u64::MAX;
