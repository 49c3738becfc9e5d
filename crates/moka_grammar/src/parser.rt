//! From bytes to a script, or to the number of its first bad line.
ghost use Rattle.std.specs.Prelude.{◌≡◌, ◌+◌, ◌==◌, ℕ, [], option_map, position, IfOk};
ghost use Rattle.moka_grammar.specs.Spelling.{line_feed};
ghost use Rattle.moka_grammar.specs.Grammar.{IsScript, IsBadAt};
ghost use Rattle.moka_grammar.specs.Parsed.{script_of};
ghost use Rattle.moka_grammar.specs.Reading.{Gives, GivesFirst, Reads, StopsAfter, line_in, cut, line_at};
ghost use Rattle.moka_grammar.specs.declared.parser.ParseError.TheVariants as parse_error;

use crate::line::{Header, Script};
use crate::parser::from_words::FromWords;
use crate::words::{LineError, words_of};
use std::alloc::{AllocError, AllocFailed, Allocator};
use thiserror::Error;

mod core_lines;
mod from_words;
mod header;
mod lines;
mod options;
mod sketch;

/// Why bytes aren't read as a script.
#[derive(Clone, Copy, Debug, PartialEq, Eq, Error)]
pub enum ParseError {
    /// The first bad line, counted from 1.
    #[error("bad line {0}")]
    BadLine(u64),
    #[error("out of memory")]
    OutOfMemory,
}

impl From<AllocError> for ParseError {
    ghost from_gives = { λ _ error. error ≡ parse_error.OutOfMemory };

    fn from(_error: AllocError) -> ParseError {
        ParseError::OutOfMemory
    }
}

impl<T: Drop> From<AllocFailed<T>> for ParseError {
    ghost from_gives = { λ _ error. error ≡ parse_error.OutOfMemory };

    fn from(_error: AllocFailed<T>) -> ParseError {
        ParseError::OutOfMemory
    }
}

/// Parses the script of these bytes. The time is linear in their number.
pub fn parse<A: Allocator + Clone + Drop>(alloc: A, bytes: &[u8]) -> Result<Script<A>, ParseError>
    ensures found { IfOk result (λ script. IsScript bytes.now (script_of script)) }
    ensures bad { (n : ℕ) → result ≡ Err (ParseError.BadLine n) → IsBadAt bytes.now n }
{
    let (header, body) = match line_at(alloc.clone()?, (), bytes) {
        Ok(first) => first,
        Err(LineError::Bad) => return Err(ParseError::BadLine(1)),
        Err(LineError::OutOfMemory) => return Err(ParseError::OutOfMemory),
    };
    match header {
        Header::Cache(header) => {
            let lines = lines_of(alloc, header, body)?;
            Ok(Script::Cache { header, lines })
        }
        Header::Core(options) => {
            let lines = lines_of(alloc, options, body)?;
            Ok(Script::Core { options, lines })
        }
        Header::Sketch { cap } => {
            let lines = lines_of(alloc, (), body)?;
            Ok(Script::Sketch { cap, lines })
        }
    }
}

/// Parses the lines of one kind.
fn lines_of<A: Allocator + Clone + Drop, C: Copy, L: FromWords<A, C>>(
    alloc: A,
    context: C,
    body: &[u8],
) -> Result<Vec<L, A>, ParseError>
    ensures found { IfOk result (λ lines. Reads (L.reading context) body.now lines.items []) }
    ensures bad { (n : ℕ) → result ≡ Err (ParseError.BadLine n) →
        (count : ℕ) × (n ≡ count + 2) × StopsAfter (L.reading context) body.now count }
{
    let mut lines = Vec::new(alloc.clone()?);
    let mut rest = body;
    while !rest.is_empty() {
        match line_at(alloc.clone()?, context, rest) {
            Ok((line, after)) => {
                lines.push(line)?;
                rest = after;
            }
            // The header is line 1, so the first of these is line 2.
            Err(LineError::Bad) => return Err(ParseError::BadLine(lines.len() as u64 + 2)),
            Err(LineError::OutOfMemory) => return Err(ParseError::OutOfMemory),
        }
    }
    Ok(lines)
}

/// Returns the first line of the bytes, and what is behind it.
#[tactic(auto, unfolding(crate::specs::Reading::line_at))]
fn line_at<A: Allocator + Clone + Drop, C: Copy, L: FromWords<A, C>>(
    alloc: A,
    context: C,
    bytes: &[u8],
) -> Result<(L, &[u8]), LineError>
    ensures { GivesFirst result (line_at (L.reading context) bytes.now) }
{
    let Some((line, rest)) = cut(bytes) else {
        return Err(LineError::Bad);
    };
    let line = line_in(alloc, context, line)?;
    Ok((line, rest))
}

fn cut(bytes: &[u8]) -> Option<(&[u8], &[u8])>
    ensures { option_map (λ parts. (parts.0.now, parts.1.now)) result ≡ cut bytes.now }
{
    let end = line_end(bytes)?;
    let (line, rest) = bytes.split_at(end);
    let (_, rest) = rest.split_at(1);
    Some((line, rest))
}

fn line_end(bytes: &[u8]) -> Option<usize>
    ensures { result ≡ position (λ b. b == line_feed) bytes.now }
{
    bytes.iter().position(|byte| *byte == b'\n')
}

fn line_in<A: Allocator + Clone + Drop, C: Copy, L: FromWords<A, C>>(
    alloc: A,
    context: C,
    line: &[u8],
) -> Result<L, LineError>
    ensures { Gives result (line_in (L.reading context) line.now) }
{
    let words = words_of(alloc.clone()?, line)?;
    L::from_words(alloc, context, words.as_slice())
}
