//! The replies to scripts, by their mode.
#![tactic(auto)]

pub mod core_lines;
mod first_core;
pub mod keys;
pub mod recorded;
pub mod reply;
pub mod sketch;
pub mod stored;
pub mod unsync;
