//! The cache for one thread.
#![tactic(auto)]

mod admission;
pub mod builder;
pub mod cache;
mod cleanup;
pub mod error;
mod leaving;
mod memory;
pub mod notifying_cache;
mod part_limits;
mod removal;
pub mod runs;
mod victims;
mod walk;

pub use moka_unsync_model::{constants, entry, history, laws, listener, shares};
