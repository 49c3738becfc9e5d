//! The limits of what the caches are set to, and of the sketch, each with its reason.

/// The longest duration that a builder accepts, in seconds: 1000 years of 365 days.
pub const LONGEST_DURATION_SECS: u64 = 1000 * 365 * 24 * 3600;

/// The weight of an entry in a cache without a weigher, so that its capacity is a number of entries.
pub const UNIT_WEIGHT: u32 = 1;

/// Bits of a counter of the sketch. A key that is used more than 15 times in a sample is used often, and need not be told from others.
pub const COUNTER_BITS: usize = 4;

/// The most that a counter holds in its bits.
pub const MAX_FREQUENCY: u8 = 15;

/// Counters in a word of 64 bits.
pub const COUNTERS_PER_WORD: usize = 16;

/// Counters of a hash, one a depth, and counters in a group of 16 bits.
pub const DEPTHS: usize = 4;

/// Groups in a word. A hash's residue modulo 4 chooses one.
pub const GROUPS_PER_WORD: usize = 4;

/// The longest table, in words: as in the original, the power of two that half of `i32::MAX` is rounded up to.
pub const MAX_TABLE_LEN: u32 = 1 << 30;

/// Counts in a sample, for each entry of the capacity. After a sample the table ages.
pub const SAMPLE_FACTOR: u64 = 10;

/// The largest sample: `i32::MAX`, as in the original.
pub const MAX_SAMPLE_SIZE: u64 = 2_147_483_647;

/// The least capacity that a cache asks for, as in the original: in a smaller table too many hashes share their counters.
pub const MIN_SKETCH_CAPACITY: u64 = 128;
