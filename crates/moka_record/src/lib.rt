//! A record of the calls on the cache that threads share, made by one thread, or by many that each have a pass.
#![tactic(auto)]

mod counted;
pub mod pass;
pub mod record;
pub mod recorded;
pub mod rule;
