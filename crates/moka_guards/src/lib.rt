//! Logs behind locks, the backoff of a thread that waits for a lock, and counts that are published without one.
#![tactic(auto)]

pub mod counts;
mod in_memory;
pub mod laws;
pub mod logs;
pub mod published_rule;
pub mod queue;
pub mod waiting;
