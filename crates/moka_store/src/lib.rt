//! The entries of the cache for one thread.
#![tactic(auto)]

mod parts;
pub mod store;
