//! The numbers by which a caller in C names what it wants and what became of it, and those of the hasher.

/// The capacity or the duration of a cache that has none.
pub const UNLIMITED: u64 = u64::MAX;

/// An operation that looks its key up.
pub const GET: u32 = 0;
/// An operation that inserts its key and value; where the key has an entry, that is an update.
pub const INSERT: u32 = 1;
/// An operation that looks its key up, and where it isn't found, inserts it.
pub const READ_THROUGH: u32 = 2;
/// An operation that looks its key up, and then inserts it.
pub const GET_AND_INSERT: u32 = 3;
/// An operation that removes its key's entry, and then inserts it.
pub const REMOVE_AND_INSERT: u32 = 4;

/// A load of a list: elements picked by number are looked for, and moved to the back.
pub const MOVE: u32 = 0;
/// A load of a list: it is filled, and emptied from the front.
pub const FILL_AND_EMPTY: u32 = 1;
/// A load of a full list: its first element leaves, and one enters at the back.
pub const TAKE_TURNS: u32 = 2;

/// A load of agings of a sketch's table: as a sketch ages it.
pub const IN_LANES: u32 = 0;
/// A load of agings of a sketch's table: by the plain loop.
pub const WORD_BY_WORD: u32 = 1;

/// A load of an index: ids are found by their hashes.
pub const FIND: u32 = 0;
/// A load of an index: ids are found by their hashes, taken out, and added again.
pub const FIND_AND_REPLACE: u32 = 1;

/// Every operation was made.
pub const DONE: u32 = 0;
/// Memory was refused.
pub const OUT_OF_MEMORY: u32 = 1;
/// An operation is of no kind that there is, or a load, or a table is too long. What came before it was made.
pub const UNKNOWN_KIND: u32 = 2;
/// A share is above 100. Nothing was made.
pub const SHARE_TOO_LARGE: u32 = 3;

/// The hasher's multiplier. It is an odd number of 64 bits, so that no two words of a key have one hash.
pub(crate) const MULTIPLIER: u64 = 0x517C_C1B7_2722_0A95;

/// How far the hasher rotates before it mixes a word in, so that the order of words counts.
pub(crate) const ROTATION: u32 = 5;

/// Multiplier of the sum of a list, or of sizes, before its next element is added, so that the order counts.
pub(crate) const ORDER: u64 = 31;
