//! What goes with `SegmentedCache`: its builder, sessions, listeners, rules and weighers, and what is proved of two threads.
pub use moka_segments::builder::{CacheBuilder, NotifyingBuilder};
pub use moka_segments::error::BuildError;
pub use moka_segments::note::Note;
pub use moka_segments::notifying_cache::NotifyingCache;
pub use moka_segments::own::{both, learn_and_read, tell_and_read, write_and_read};
pub use moka_segments::owners::Owners;
pub use moka_segments::rule::{Rule, Unruled};
pub use moka_segments::session::{NotifyingSession, Session};
pub use moka_segments::weigher::Weighing;
pub use moka_unsync::error::{TimedInsertError, TryInsertError};
pub use moka_unsync::listener::{Cause, Listener, NoListener, Statistics};
