//! The history of a shard of the shared cache: what each holding of its lock did, and what a value that is found or missing then means.
#![tactic(auto)]

pub mod laws;
