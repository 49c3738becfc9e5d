// The numbers of the hasher.

/// The hasher's multiplier: an odd number of 64 bits, so that no two words of a key have one hash.
pub(crate) const MULTIPLIER: u64 = 0x517C_C1B7_2722_0A95;

/// How far the hasher rotates before it mixes a word in, so that the order of words counts.
pub(crate) const ROTATION: u32 = 5;
