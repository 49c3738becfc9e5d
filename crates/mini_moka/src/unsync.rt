//! The cache for one thread.
pub use moka_unsync::builder::{CacheBuilder, NotifyingBuilder};
pub use moka_unsync::cache::{Cache, Entries, Iter};
pub use moka_unsync::entry::{Entry, Part};
pub use moka_unsync::error::{TimedInsertError, TryInsertError};
pub use moka_unsync::listener::{Cause, Listener, NoListener, Statistics};
pub use moka_unsync::notifying_cache::NotifyingCache;
pub use moka_unsync::runs::{Call, Reply, run};
pub use moka_unsync::shares::Shares;
pub use moka_unsync::{constants, history, laws};
