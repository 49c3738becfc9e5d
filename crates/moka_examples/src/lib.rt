//! The examples of the docs, and callers whose contracts name `mini_moka` alone: proved. `tests_public` runs them.
#![tactic(auto)]

pub mod audit;
pub mod board;
pub mod calling;
pub mod configuration;
pub mod metrics;
pub mod pages;
pub mod probes;
pub mod saved;
pub mod shared;
pub mod uses;
