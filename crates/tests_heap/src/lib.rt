//! A heap for tests that refuses the requests which a test chooses.
#![tactic(auto)]

pub mod heap;
pub mod plays;
pub mod refusals;
mod tally;

pub use heap::RefusingHeap;
pub use plays::{PlayError, for_each_refusal};
pub use refusals::Refusals;
