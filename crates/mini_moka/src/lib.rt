//! Caches that are right: a port of the Rust crate `mini_moka`, in which each function is proved to meet its contract.
#![tactic(auto)]

pub mod common;
mod errors;
pub mod script;
pub mod sync;
pub mod unsync;

pub use common::Policy;
pub use errors::Error;
pub use moka_grammar::laws;
