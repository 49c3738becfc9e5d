//! A cache that threads share, of segments: each is a whole single-thread cache behind a lock, and a ghost history notes every visit to it.
#![tactic(auto)]

pub mod account;
mod all;
mod assemble;
pub mod builder;
pub mod cache;
mod call;
pub mod constants;
pub mod error;
mod invalidate_if;
mod iter;
mod make;
mod modify;
pub mod note;
pub mod notifying_cache;
pub mod own;
pub mod owners;
pub mod plan;
mod probe;
pub mod rule;
pub mod session;
pub mod shared;
mod sweep;
mod visit;
pub mod weigher;
