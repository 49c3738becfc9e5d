//! The constants of the index, each with its reason.

/// The most ids that an index can have room for. A table of this room has fewer than 2^32 slots, so that an id and the count of a group fit
/// in 32 bits.
pub const MAX_IDS: usize = 2_000_000_000;

/// The multiplier that spreads hashes over the table: 2^64 over the golden ratio, which spreads numbers that follow one another evenly (Knuth's Fibonacci
/// hashing). It is odd, so that hashes that differ in their highest bits alone stay different.
pub const SPREAD: u64 = 0x9E37_79B9_7F4A_7C15;

/// The ids that a group has slots for: as many as fit in a cache line with their tags and distances.
pub const SLOTS: usize = 10;

/// The ids for each group of a full table. With half of the slots free, few groups are full.
pub const SHARE: usize = 5;

/// The distance of an id that stands this many groups after its home, or more: distances have 8 bits.
pub const FAR: usize = 255;
