//! One shard of the map of the cache that threads share.
#![tactic(auto)]

pub mod rule;
pub mod shard;
