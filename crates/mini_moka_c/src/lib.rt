//! The single-thread cache as a library for C: keys and values are bytes of any length, or numbers, and a handle keeps a cache between calls.
//! `include/mini_moka.h` has the declarations. Each call returns a status; none aborts.
#![tactic(auto)]

mod any;
mod bytes;
pub mod cache;
pub mod constants;
mod drain;
mod handle;
pub mod inserted;
pub mod key;
pub mod number_cache;
mod numbers;
pub mod removed;
pub mod seed;
mod settings;
pub mod statistics;
pub mod steps;
pub mod value;
mod walk;
pub mod weight;
