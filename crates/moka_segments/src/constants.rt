//! Numbers of segments.

/// Number of segments of a cache that has enough entries. More threads than this seldom run at once, and each segment costs a lock and a sketch.
pub const USUAL_SEGMENTS: u64 = 64;

/// Fewest entries of the limit in a segment, if the number of segments isn't set. With fewer a segment has no window, and its admission guesses.
pub const ENTRIES_OF_A_SEGMENT: u64 = 100;

/// Largest number of segments: the high half of a hash tells the segment.
pub const MOST_SEGMENTS: usize = 4_294_967_296;
