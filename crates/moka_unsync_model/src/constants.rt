//! The limits of the single-thread cache.

/// Most entries that one call removes for a reason that isn't its own, as expiry. It bounds the time that a call spends on entries that it doesn't ask for.
pub const EVICTION_BATCH_SIZE: usize = 100;

/// The window's share of a limit in hundredths, if none is set. W-TinyLFU and Caffeine begin with it too: new entries need little space until it is known which
/// are used again. A limit of which that is nothing has no window.
pub const WINDOW_SHARE: u8 = 1;

/// Protected's part of main in hundredths if nothing else is set: main is one list then, as without it. Caffeine has 80.
pub const PROTECTED_SHARE: u8 = 0;

/// Protected's part of main in hundredths if the window adapts, as in Caffeine.
pub const ADAPTIVE_PROTECTED_SHARE: u8 = 80;

/// The most that a window which adapts may have of a limit, in hundredths. Caffeine has 80, too.
pub const MOST_WINDOW_SHARE: u8 = 80;

/// A window that adapts ignores a demand of up to this part of the limit. So it stays as it is while demand only comes and goes.
pub const DEMAND_SLACK: u64 = 64;

/// A table of tags has a slot for so many words of the sketch's table: half a byte an entry for both tables.
pub const WORDS_A_TAG: usize = 8;

/// The least number of slots of a table of tags.
pub const LEAST_TAGS: usize = 8;
