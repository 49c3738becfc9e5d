//! The errors of a cache of segments.
use thiserror::Error;

/// Why a cache of segments isn't built.
#[derive(Clone, Copy, Debug, PartialEq, Eq, Error)]
pub enum BuildError {
    /// A setting is refused that the cache for one thread refuses too, or memory is.
    #[error("{0}")]
    Cache(moka_common::error::BuildError),
    /// The number of segments is 0 or above 2^32.
    #[error("num_segments is 0 or above 4294967296")]
    NumSegments,
}
