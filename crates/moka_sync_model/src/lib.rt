//! The shared cache as a machine: the data and definitions of its steps, its laws over every interleaving, and whole calls over any cache that takes
//! such steps.
#![tactic(auto)]

pub mod call;
pub mod constants;
pub mod entry;
pub mod event;
pub mod housekeeper;
pub mod laws;
pub mod operation;
pub mod phase;
pub mod progress;
pub mod published;
pub mod settings;
pub mod steps;
pub mod ticket;
pub mod weigh;
