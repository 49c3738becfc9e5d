//! The queues of the shared cache: the read log, the write log, and the access and write orders of its charged entries.
#![tactic(auto)]

mod high_water;
pub mod logs;
pub mod orders;
pub mod taken;
