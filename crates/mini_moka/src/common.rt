//! What the caches share.
pub use moka_common::error::{BuildError, InsertError, OutOfMemory};
pub use moka_common::hash::FixedState;
pub use moka_common::lookup::Lookup;
pub use moka_common::policy::Policy;
pub use moka_common::shared::Shared;
pub use moka_common::weigh::{UnitWeight, Weigh};
pub use moka_common::{constants, frequency_sketch, laws, settings, time};
pub use moka_deque::deque;
