//! The locks of a cache that threads share: for each shard, for each log and for the maintenance, and the steps of one caller by them.
#![tactic(auto)]

pub mod account;
pub mod housekeeper;
mod idle;
pub mod inner;
pub mod laws;
pub mod locked;
pub mod moments;
mod running;
pub mod shards;
