//! The cache without its locks: a core that takes atomic steps and whole calls, and what these are as data.
pub use moka_core::engine::Core;
pub use moka_core::rows::Rows;
pub use moka_sync_model::call::Call;
pub use moka_sync_model::event::{Event, Reply};
pub use moka_sync_model::operation::{Operation, Read, Write};
pub use moka_sync_model::phase::{Phase, Phase as Place};
pub use moka_sync_model::progress::{Candidate, Tally, Work};
pub use moka_sync_model::ticket::Ticket;
pub use moka_sync_model::weigh::WeighShared;
