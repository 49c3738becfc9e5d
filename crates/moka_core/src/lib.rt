//! The shared cache without locks: a core that takes atomic steps and makes whole calls.
#![tactic(auto)]

pub mod engine;
pub mod machine;
pub mod map;
pub mod pending;
pub mod rows;
pub mod step_laws;
