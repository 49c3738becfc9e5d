// How a script ends, and what a row says of it.
use crate::wanted::LineError;
use mini_moka::script::{End, ScriptError};
use std::alloc::Allocator;
use std::fmt;

/// How a script ends.
#[derive(Clone, Copy, Debug, PartialEq, Eq)]
pub enum Ending {
    /// The replies were written.
    Done,
    /// The first bad line, counted from 1, was written.
    BadLine(u64),
    /// The run was broken off.
    Failed(ScriptError),
}

impl Ending {
    /// The ending that a row names: `done`, `bad line` and its number, or `out of memory`.
    pub fn parse(text: &str) -> Result<Ending, LineError> {
        if text == "done" {
            return Ok(Ending::Done);
        }
        if text == "out of memory" {
            return Ok(Ending::Failed(ScriptError::OutOfMemory));
        }
        let Some(number) = text.strip_prefix("bad line ") else {
            return Err(LineError::NotRead);
        };
        match number.parse() {
            Ok(number) => Ok(Ending::BadLine(number)),
            Err(_) => Err(LineError::NotRead),
        }
    }

    /// How this run has ended.
    pub fn of<A: Allocator + Clone + Drop>(ended: Result<End<A>, ScriptError>) -> Ending {
        match ended {
            Ok(End::BadLine(number)) => Ending::BadLine(number),
            Ok(End::Done | End::Locked(_)) => Ending::Done,
            Err(error) => Ending::Failed(error),
        }
    }
}

impl fmt::Display for Ending {
    fn fmt<W: fmt::Write>(&self, f: &mut fmt::Formatter<W>) -> fmt::Result {
        match self {
            Ending::Done => f.write_str("done"),
            Ending::BadLine(number) => write!(f, "bad line {number}"),
            Ending::Failed(error) => write!(f, "{error}"),
        }
    }
}
