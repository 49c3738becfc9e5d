//! Streams of bytes. Each has a flag, for proofs alone, that a refused call sets and nothing else does: so a contract can say that an error was
//! the stream's.
ghost use Rattle.std.specs.Prelude.{◌≡◌, ◌<◌, ◌||◌, length, is_err, IfOk, OnOk, OnErr, IfSome, List, ℕ, Bool, Option};
ghost use Rattle.std.specs.Io.{ReadsAtMost, WritesAtMost};
ghost use Rattle.std.specs.Io.KnownBytes.{ReadConsumes, WriteAppends, Appends, IsAtEnd};
ghost use Rattle.moka_grammar.specs.Streams.{AppendsBeginning, is_refused};
ghost use Rattle.moka_grammar.specs.declared.streams.ReadError.TheVariants as read_error;

use std::alloc::{AllocError, Allocator};
use thiserror::Error;

mod from_read;
mod from_write;

pub use from_read::FromRead;
pub use from_write::FromWrite;

/// Bytes that one read asks for: a page, so that a script takes few calls and the buffer little of the stack.
const READ_SIZE: usize = 4096;

/// A stream refused to be read or written.
#[derive(Clone, Copy, Debug, PartialEq, Eq, Error)]
#[error("the stream refused a call")]
pub struct Fault;

/// Why a source isn't read to its end.
#[derive(Clone, Copy, Debug, PartialEq, Eq, Error)]
pub enum ReadError {
    #[error("the source refused to be read")]
    Read,
    #[error("out of memory")]
    OutOfMemory,
}

impl From<Fault> for ReadError {
    ghost from_gives = { λ _ error. error ≡ read_error.Read };

    fn from(_fault: Fault) -> ReadError {
        ReadError::Read
    }
}

impl From<AllocError> for ReadError {
    ghost from_gives = { λ _ error. error ≡ read_error.OutOfMemory };

    fn from(_error: AllocError) -> ReadError {
        ReadError::OutOfMemory
    }
}

/// A source of bytes.
pub trait Source {
    // What is left, where that is known.
    ghost remaining: { Self → Option (List ℕ) };
    // Whether a call was refused.
    ghost failed: { Self → Bool };

    /// Puts some of what is left into the front of the buffer, and says how many bytes.
    fn read(&mut self, buffer: &mut [u8]) -> Result<usize, Fault>
        ensures bound { ReadsAtMost result buffer.new }
        ensures bytes { ReadConsumes (remaining self.old) (remaining self.new) result buffer.new }
        ensures failed { failed self.new ≡ (failed self.old || is_err result) };
}

/// A sink of bytes.
pub trait Sink {
    // What was written, where that is known.
    ghost contents: { Self → Option (List ℕ) };
    // Whether a call was refused.
    ghost failed: { Self → Bool };

    /// Takes a beginning of the bytes, and says how long it is.
    fn write(&mut self, bytes: &[u8]) -> Result<usize, Fault>
        ensures bound { WritesAtMost result bytes.now }
        ensures bytes { WriteAppends (contents self.old) (contents self.new) result bytes.now }
        ensures failed { failed self.new ≡ (failed self.old || is_err result) }
        ensures some { IfOk result (λ count. 0 < length bytes.now → 0 < count) };
}

/// Reads all that the source has left, however it comes in pieces. What was read before an error is lost.
pub fn read_all<A: Allocator + Clone + Drop, S: Source>(
    alloc: A,
    source: &mut S,
) -> Result<Vec<u8, A>, ReadError>
    ensures ok { IfOk result (λ all. IfSome (S.remaining source.old) (λ bytes. all.items ≡ bytes)) }
    ensures at_end { OnOk result (IsAtEnd (S.remaining source.new)) }
    ensures failed { S.failed source.new ≡ (S.failed source.old || is_refused result) }
{
    let mut bytes = Vec::new(alloc);
    let mut buffer = [0u8; READ_SIZE];
    loop {
        let count = source.read(&mut buffer)?;
        if count == 0 {
            return Ok(bytes);
        }
        bytes.extend_from_slice(&buffer[..count])?;
    }
}

/// Writes all of the bytes, in as many pieces as the sink takes. At an error a beginning of them is written.
pub fn write_all<K: Sink>(sink: &mut K, bytes: &[u8]) -> Result<(), Fault>
    ensures ok { OnOk result (Appends (K.contents sink.old) (K.contents sink.new) bytes.now) }
    ensures err { OnErr result
        (AppendsBeginning (K.contents sink.old) (K.contents sink.new) bytes.now) }
    ensures failed { K.failed sink.new ≡ (K.failed sink.old || is_err result) }
{
    let mut rest = bytes;
    while !rest.is_empty() {
        let count = sink.write(rest)?;
        let (_, after) = rest.split_at(count);
        rest = after;
    }
    Ok(())
}
