//! Why the program ends before its input does.
use crate::soak::errors::SoakError;
use moka_common::error::{BuildError, InsertError, OutOfMemory};
use moka_segments::error::BuildError as SegmentsError;
use std::alloc::{AllocError, AllocFailed};
use std::io;
use thiserror::Error;

/// Why the program ends before its input does.
#[derive(Clone, Copy, Debug, PartialEq, Eq, Error)]
pub enum PlayError {
    /// The line of this number, counted from 1, is no request, or comes before what it needs.
    #[error("bad line {0}")]
    BadLine(u64),
    #[error("out of memory")]
    OutOfMemory,
    /// A cache isn't built.
    #[error(transparent)]
    Build(BuildError),
    /// A cache of segments isn't built.
    #[error(transparent)]
    Segments(SegmentsError),
    /// An insert is refused.
    #[error(transparent)]
    Insert(InsertError),
    /// The system refused a stream, the clock or a new thread.
    #[error("the system refused a call: {0}")]
    System(io::ErrorKind),
    /// A soak doesn't start its threads.
    #[error("no thread")]
    NoThread,
    /// A soak isn't sound. Its report was written.
    #[error("not sound")]
    NotSound,
}

impl PlayError {
    /// The program's status: 2 for bad input, and 1 for all else.
    pub fn status(self) -> u8 {
        match self {
            PlayError::BadLine(_) => 2,
            _ => 1,
        }
    }
}

impl From<AllocError> for PlayError {
    fn from(_error: AllocError) -> PlayError {
        PlayError::OutOfMemory
    }
}

impl<T: Drop> From<AllocFailed<T>> for PlayError {
    fn from(_error: AllocFailed<T>) -> PlayError {
        PlayError::OutOfMemory
    }
}

impl From<OutOfMemory> for PlayError {
    fn from(_error: OutOfMemory) -> PlayError {
        PlayError::OutOfMemory
    }
}

impl From<BuildError> for PlayError {
    fn from(error: BuildError) -> PlayError {
        PlayError::Build(error)
    }
}

impl From<SegmentsError> for PlayError {
    fn from(error: SegmentsError) -> PlayError {
        PlayError::Segments(error)
    }
}

impl From<InsertError> for PlayError {
    fn from(error: InsertError) -> PlayError {
        PlayError::Insert(error)
    }
}

impl From<io::Error> for PlayError {
    fn from(error: io::Error) -> PlayError {
        PlayError::System(error.kind())
    }
}

impl From<SoakError> for PlayError {
    fn from(error: SoakError) -> PlayError {
        match error {
            SoakError::OutOfMemory => PlayError::OutOfMemory,
            SoakError::Build(error) => PlayError::Build(error),
            SoakError::Segments(error) => PlayError::Segments(error),
            SoakError::Insert(error) => PlayError::Insert(error),
            SoakError::NoThread => PlayError::NoThread,
        }
    }
}
