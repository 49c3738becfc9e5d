//! What both caches share: moments, policy and limits, errors, hash states, weighers, shared pointers, and the frequency sketch.
#![tactic(auto)]

pub mod constants;
pub mod error;
pub mod frequency_sketch;
pub mod hash;
pub mod laws;
pub mod limits;
pub mod lookup;
pub mod policy;
pub mod settings;
pub mod shared;
pub mod time;
pub mod weigh;

// For tests and the benchmark, which age tables of their own. A sketch ages by itself.
pub use frequency_sketch::aging::{age, age_plain, aged_size};
