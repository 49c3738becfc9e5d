// The one error that each error of the library becomes by `?`.
ghost use Rattle.std.specs.Prelude.{◌≡◌};
ghost use Rattle.std.specs.IoError.{error_kind};
ghost use Rattle.mini_moka.specs.declared.errors.Error.TheVariants as variant;

use crate::script::ScriptError;
use moka_common::error::{BuildError, InsertError, OutOfMemory};
use moka_grammar::parser::ParseError;
use moka_grammar::streams::{Fault, ReadError};
use moka_record::pass::CloseError;
use moka_record::record::NotRecorded;
use moka_segments::error::BuildError as SegmentsError;
use moka_unsync::error::TimedInsertError;
use std::alloc::{AllocError, AllocFailed};
use std::io;

/// Any error of the library, for callers who only pass errors up. Each error, the allocator's and the system's among them, becomes this one by `?`.
#[derive(Clone, Copy, Debug, PartialEq, Eq, thiserror::Error)]
pub enum Error {
    #[error("out of memory")]
    OutOfMemory,
    /// A cache isn't built.
    #[error(transparent)]
    Build(BuildError),
    /// A cache of segments isn't built.
    #[error(transparent)]
    Segments(SegmentsError),
    /// An insert is refused.
    #[error(transparent)]
    Insert(InsertError),
    /// An insert with a time to live of its own is refused.
    #[error(transparent)]
    TimedInsert(TimedInsertError),
    /// A call isn't written down, and wasn't made.
    #[error(transparent)]
    NotRecorded(NotRecorded),
    /// A recording cache gives no record.
    #[error(transparent)]
    Close(CloseError),
    /// A stream refused a call.
    #[error(transparent)]
    Fault(Fault),
    /// A source isn't read to its end.
    #[error(transparent)]
    Read(ReadError),
    /// Bytes aren't a script.
    #[error(transparent)]
    Parse(ParseError),
    /// A run of a script is broken off.
    #[error(transparent)]
    Script(ScriptError),
    /// The system refused a call, as one of the clock that a caller asks for its moments.
    #[error("{0}")]
    Io(io::ErrorKind),
}

impl From<AllocError> for Error {
    ghost from_gives = { λ _ error. error ≡ variant.OutOfMemory };

    fn from(_error: AllocError) -> Error {
        Error::OutOfMemory
    }
}

impl<T: Drop> From<AllocFailed<T>> for Error {
    ghost from_gives = { λ _ error. error ≡ variant.OutOfMemory };

    fn from(_error: AllocFailed<T>) -> Error {
        Error::OutOfMemory
    }
}

impl From<OutOfMemory> for Error {
    ghost from_gives = { λ _ error. error ≡ variant.OutOfMemory };

    fn from(_error: OutOfMemory) -> Error {
        Error::OutOfMemory
    }
}

impl From<BuildError> for Error {
    ghost from_gives = { λ cause error. error ≡ variant.Build cause };

    fn from(cause: BuildError) -> Error {
        Error::Build(cause)
    }
}

impl From<SegmentsError> for Error {
    ghost from_gives = { λ cause error. error ≡ variant.Segments cause };

    fn from(cause: SegmentsError) -> Error {
        Error::Segments(cause)
    }
}

impl From<InsertError> for Error {
    ghost from_gives = { λ cause error. error ≡ variant.Insert cause };

    fn from(cause: InsertError) -> Error {
        Error::Insert(cause)
    }
}

impl From<TimedInsertError> for Error {
    ghost from_gives = { λ cause error. error ≡ variant.TimedInsert cause };

    fn from(cause: TimedInsertError) -> Error {
        Error::TimedInsert(cause)
    }
}

impl From<NotRecorded> for Error {
    ghost from_gives = { λ cause error. error ≡ variant.NotRecorded cause };

    fn from(cause: NotRecorded) -> Error {
        Error::NotRecorded(cause)
    }
}

impl From<CloseError> for Error {
    ghost from_gives = { λ cause error. error ≡ variant.Close cause };

    fn from(cause: CloseError) -> Error {
        Error::Close(cause)
    }
}

impl From<Fault> for Error {
    ghost from_gives = { λ cause error. error ≡ variant.Fault cause };

    fn from(cause: Fault) -> Error {
        Error::Fault(cause)
    }
}

impl From<ReadError> for Error {
    ghost from_gives = { λ cause error. error ≡ variant.Read cause };

    fn from(cause: ReadError) -> Error {
        Error::Read(cause)
    }
}

impl From<ParseError> for Error {
    ghost from_gives = { λ cause error. error ≡ variant.Parse cause };

    fn from(cause: ParseError) -> Error {
        Error::Parse(cause)
    }
}

impl From<ScriptError> for Error {
    ghost from_gives = { λ cause error. error ≡ variant.Script cause };

    fn from(cause: ScriptError) -> Error {
        Error::Script(cause)
    }
}

impl From<io::Error> for Error {
    ghost from_gives = { λ cause error. error ≡ variant.Io (error_kind cause) };

    fn from(cause: io::Error) -> Error {
        Error::Io(cause.kind())
    }
}
