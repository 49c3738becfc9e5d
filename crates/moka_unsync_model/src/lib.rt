//! The single-thread cache as a machine over lists: its definitions, its laws, and what it owes over any list of calls.
#![tactic(auto)]

pub mod constants;
pub mod entry;
pub mod history;
pub mod laws;
pub mod listener;
pub mod shares;
