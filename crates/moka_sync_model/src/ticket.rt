//! What tells one stay of a key in the map from another.

/// The hash of the key, and a number that the hash's shard gives out once. The hash finds the shard, and in it the entry; the number
/// tells whether it is that one.
#[derive(Clone, Copy, Debug, PartialEq, Eq)]
pub struct Ticket {
    pub hash: u64,
    pub number: u64,
}
