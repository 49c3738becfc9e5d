//! The maintenance of the cache that threads share, one turn at a time.
#![tactic(auto)]

pub mod maintenance;
