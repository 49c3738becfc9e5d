//! The caches that threads share.
pub mod engine;
pub mod recorded;
pub mod segmented;

pub use moka_core::step_laws;
pub use moka_guards::counts::CountPass;
pub use moka_guards::laws as count_laws;
pub use moka_locks::housekeeper;
pub use moka_segments::cache::SegmentedCache;
pub use moka_shard::rule::{AnyPair, PairRule};
pub use moka_sync::builder::CacheBuilder;
pub use moka_sync::cache::{Cache, ConcurrentCacheExt};
pub use moka_sync::iter::Iter;
pub use moka_sync::mapref::EntryRef;
pub use moka_sync::note::Note;
pub use moka_sync::own;
pub use moka_sync::session::Session;
pub use moka_sync_model::published::Published;
pub use moka_sync_model::{constants, laws, steps};
