//! The cache that threads share: its builder, its calls, each a whole call over the steps of one caller, and its snapshot.
#![tactic(auto)]

pub mod builder;
pub mod cache;
pub mod iter;
pub mod mapref;
pub mod note;
pub mod own;
pub mod session;
mod stored;
