//! Why a soak isn't run to its end.
ghost use Rattle.std.specs.Prelude.{◌≡◌};
ghost use Rattle.bench_load.specs.declared.soak.errors.SoakError.TheVariants as variant;

use moka_common::error::{BuildError, InsertError, OutOfMemory};
use moka_segments::error::BuildError as SegmentsError;
use std::alloc::{AllocError, AllocFailed};
use std::{fmt, io};

/// Why a soak isn't run to its end. Refusals while its threads run are no reason: they are counted.
#[derive(Clone, Copy, Debug, PartialEq, Eq)]
pub enum SoakError {
    OutOfMemory,
    /// The cache isn't built.
    Build(BuildError),
    /// The cache of segments isn't built.
    Segments(SegmentsError),
    /// The cache isn't filled in the end.
    Insert(InsertError),
    /// A thread isn't started.
    NoThread,
}

impl fmt::Display for SoakError {
    fn fmt<W: fmt::Write>(&self, f: &mut fmt::Formatter<W>) -> fmt::Result {
        match self {
            SoakError::OutOfMemory => f.write_str("out of memory"),
            SoakError::Build(error) => write!(f, "{error}"),
            SoakError::Segments(error) => write!(f, "{error}"),
            SoakError::Insert(error) => write!(f, "{error}"),
            SoakError::NoThread => f.write_str("no thread"),
        }
    }
}

impl std::error::Error for SoakError {}

impl From<AllocError> for SoakError {
    ghost from_gives = { λ _ error. error ≡ variant.OutOfMemory };

    fn from(_error: AllocError) -> SoakError {
        SoakError::OutOfMemory
    }
}

impl<T: Drop> From<AllocFailed<T>> for SoakError {
    ghost from_gives = { λ _ error. error ≡ variant.OutOfMemory };

    fn from(_error: AllocFailed<T>) -> SoakError {
        SoakError::OutOfMemory
    }
}

impl From<BuildError> for SoakError {
    ghost from_gives = { λ cause error. error ≡ variant.Build cause };

    fn from(cause: BuildError) -> SoakError {
        SoakError::Build(cause)
    }
}

impl From<SegmentsError> for SoakError {
    ghost from_gives = { λ cause error. error ≡ variant.Segments cause };

    fn from(cause: SegmentsError) -> SoakError {
        SoakError::Segments(cause)
    }
}

impl From<InsertError> for SoakError {
    ghost from_gives = { λ cause error. error ≡ variant.Insert cause };

    fn from(cause: InsertError) -> SoakError {
        SoakError::Insert(cause)
    }
}

impl From<OutOfMemory> for SoakError {
    ghost from_gives = { λ _ error. error ≡ variant.OutOfMemory };

    fn from(_error: OutOfMemory) -> SoakError {
        SoakError::OutOfMemory
    }
}

/// Starting a thread has this error alone.
impl From<io::Error> for SoakError {
    ghost from_gives = { λ _ error. error ≡ variant.NoThread };

    fn from(_error: io::Error) -> SoakError {
        SoakError::NoThread
    }
}
