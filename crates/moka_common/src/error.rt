//! The errors of the caches and their parts.
ghost use Rattle.std.specs.Prelude.{◌≡◌};
ghost use Rattle.moka_common.specs.declared.error.BuildError.TheVariants as build_error;

use std::alloc::{AllocError, AllocFailed};
use std::fmt;
use thiserror::Error;

/// Memory was refused. What was called is as it was before the call.
#[derive(Clone, Copy, Debug, PartialEq, Eq, Error)]
#[error("out of memory")]
pub struct OutOfMemory;

impl From<AllocError> for OutOfMemory {
    fn from(_error: AllocError) -> OutOfMemory {
        OutOfMemory
    }
}

impl<T: Drop> From<AllocFailed<T>> for OutOfMemory {
    fn from(_error: AllocFailed<T>) -> OutOfMemory {
        OutOfMemory
    }
}

/// Why a cache isn't built. The variants are tested in this order.
#[derive(Clone, Copy, Debug, PartialEq, Eq)]
pub enum BuildError {
    TimeToLiveTooLong,
    TimeToIdleTooLong,
    /// Not of `sync::Cache`, as the next: more than 100 in 100.
    WindowShareTooLarge,
    ProtectedShareTooLarge,
    /// Of the shared cache alone: `initial_capacity` and a log's room together pass `usize::MAX`.
    CapacityTooLarge,
    OutOfMemory,
}

impl BuildError {
    ghost use Rattle.moka_common.specs.Error.{build_error_text};

    /// Returns the reason in words, which `Display` writes.
    pub fn text(self) -> &'static str
        ensures { result.now ≡ build_error_text self }
    {
        match self {
            BuildError::TimeToLiveTooLong => "time_to_live is longer than 1000 years",
            BuildError::TimeToIdleTooLong => "time_to_idle is longer than 1000 years",
            BuildError::WindowShareTooLarge => "window_share is above 100",
            BuildError::ProtectedShareTooLarge => "protected_share is above 100",
            BuildError::CapacityTooLarge => "initial_capacity is too large",
            BuildError::OutOfMemory => "out of memory",
        }
    }
}

impl fmt::Display for BuildError {
    ghost use Rattle.std.specs.Prelude.{Some};
    ghost use Rattle.moka_common.specs.Error.{build_error_text};

    ghost output = { λ error. Some (build_error_text error) };

    fn fmt<W: fmt::Write>(&self, f: &mut fmt::Formatter<W>) -> fmt::Result {
        f.write_str(self.text())
    }
}

impl std::error::Error for BuildError {}

impl From<AllocError> for BuildError {
    ghost from_gives = { λ _ error. error ≡ build_error.OutOfMemory };

    fn from(_error: AllocError) -> BuildError {
        BuildError::OutOfMemory
    }
}

impl<T: Drop> From<AllocFailed<T>> for BuildError {
    ghost from_gives = { λ _ error. error ≡ build_error.OutOfMemory };

    fn from(_error: AllocFailed<T>) -> BuildError {
        BuildError::OutOfMemory
    }
}

impl From<OutOfMemory> for BuildError {
    ghost from_gives = { λ _ error. error ≡ build_error.OutOfMemory };

    fn from(_error: OutOfMemory) -> BuildError {
        BuildError::OutOfMemory
    }
}

/// Why an insert is refused. The cache is as it was before the call.
#[derive(Clone, Copy, Debug, PartialEq, Eq, Error)]
pub enum InsertError {
    #[error("out of memory")]
    OutOfMemory,
    /// Of the shared cache alone: the key's shard has given out all its ticket numbers.
    #[error("tickets used up")]
    TicketsUsedUp,
}
