//! Scripts: requests to a cache as lines of text, and the streams that bring them and take the replies.
mod locked;
mod runner;

pub use locked::LockedScript;
pub use moka_grammar::line::{
    CacheHeader, CacheOptions, CoreLine, CoreRequest, Header, Line, Mode, Request, Script,
    SketchLine, Span,
};
pub use moka_grammar::parser::{ParseError, parse};
pub use moka_grammar::reason::{BadLine, reason};
pub use moka_grammar::streams::{
    Fault, FromRead, FromWrite, ReadError, Sink, Source, read_all, write_all,
};
pub use moka_grammar::text::{LONGEST_TEXT, Text, is_text};
pub use runner::{End, ScriptError, run, run_locked, status_of};
