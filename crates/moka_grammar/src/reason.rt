//! What is wrong with a bad line, for people. The parser says only which line is the first bad one.
use crate::words::number_of;

/// A fault of a bad line. `text` returns it in words.
#[derive(Clone, Copy, Debug, PartialEq, Eq)]
pub enum BadLine {
    /// The script has no such line, as an empty one has none.
    Missing,
    NoLineFeed,
    CarriageReturn,
    Spaces,
    Mode,
    Settings,
    Moment,
    Request,
    Words,
}

impl BadLine {
    /// Returns the reason in words.
    pub fn text(self) -> &'static str {
        match self {
            BadLine::Missing => "there is no line: a script begins with a mode, as `unsync max 3`",
            BadLine::NoLineFeed => "the line doesn't end with a line feed",
            BadLine::CarriageReturn =>
                "the line has a carriage return: lines end with a line feed alone",
            BadLine::Spaces => "words are separated by one space each, with none at either end",
            BadLine::Mode => "the first word is no mode: unsync, sync, recorded, core or sketch",
            BadLine::Settings => "after the mode come settings, in this order and at most once: \
                max N, live DURATION, idle DURATION, weighed, of unsync adaptive, and of recorded and core tickets N; after sketch comes a number",
            BadLine::Moment => "the line doesn't begin with a moment, a number of nanoseconds",
            BadLine::Request => "the mode has no such call",
            BadLine::Words => "the call takes other words, or a number or a value is malformed",
        }
    }
}

/// Returns what is wrong with a line of a script, counted from 1, that the parser found bad. The time is linear in the bytes.
pub fn reason(script: &[u8], number: u64) -> BadLine {
    let Ok(number) = usize::try_from(number) else {
        return BadLine::Missing;
    };
    let mode = word(line(script, 1).unwrap_or(&[]), 0);
    let Some(bad) = line(script, number) else {
        return BadLine::Missing;
    };
    if bad.is_empty() && script.is_empty() {
        return BadLine::Missing;
    }
    if line(script, number.saturating_add(1)).is_none() {
        return BadLine::NoLineFeed;
    }
    if bad.contains(&b'\r') {
        return BadLine::CarriageReturn;
    }
    if bad.split(|byte| *byte == b' ').any(|word| word.is_empty()) {
        return BadLine::Spaces;
    }
    if number <= 1 {
        return header_reason(mode);
    }
    line_reason(mode, bad)
}

fn header_reason(mode: &[u8]) -> BadLine {
    if is_cache(mode) || mode == b"sketch".as_slice() {
        BadLine::Settings
    } else {
        BadLine::Mode
    }
}

fn line_reason(mode: &[u8], bad: &[u8]) -> BadLine {
    if mode == b"sketch".as_slice() {
        return request_reason(is_of_sketch(word(bad, 0)));
    }
    if number_of(word(bad, 0)).is_err() {
        return BadLine::Moment;
    }
    let request = word(bad, 1);
    if mode == b"core".as_slice() {
        return request_reason(is_of_core(request));
    }
    request_reason(is_of_cache(mode, request))
}

fn request_reason(is_known: bool) -> BadLine {
    if is_known {
        BadLine::Words
    } else {
        BadLine::Request
    }
}

/// Returns a line, counted from 1, without its line feed. Behind the last line feed there is one more, which may be empty.
fn line(script: &[u8], number: usize) -> Option<&[u8]> {
    script
        .split(|byte| *byte == b'\n')
        .nth(number.saturating_sub(1))
}

/// Returns a word of a line, counted from 0, or an empty one.
fn word(line: &[u8], index: usize) -> &[u8] {
    line.split(|byte| *byte == b' ').nth(index).unwrap_or(&[])
}

fn is_cache(mode: &[u8]) -> bool {
    mode == b"unsync".as_slice()
        || mode == b"sync".as_slice()
        || mode == b"recorded".as_slice()
        || mode == b"core".as_slice()
}

/// Returns `true` if a mode of whole calls has the request.
fn is_of_cache(mode: &[u8], request: &[u8]) -> bool {
    let is_unsync = mode == b"unsync".as_slice();
    let is_recorded = mode == b"recorded".as_slice();
    is_of_all(request)
        || is_unsync && request == b"modify".as_slice()
        || is_unsync && request == b"expire".as_slice()
        || is_unsync && request == b"drop-if".as_slice()
        || !is_unsync && request == b"sync".as_slice()
        || !is_recorded && (request == b"iter".as_slice() || request == b"policy".as_slice())
}

fn is_of_core(request: &[u8]) -> bool {
    is_of_all(request)
        || request == b"push".as_slice()
        || request == b"forget".as_slice()
        || request == b"begin".as_slice()
        || request == b"turn".as_slice()
        || request == b"rest".as_slice()
        || request == b"sync".as_slice()
        || request == b"iter".as_slice()
}

/// Returns `true` if each mode but `sketch` has the request.
fn is_of_all(request: &[u8]) -> bool {
    request == b"insert".as_slice()
        || request == b"get".as_slice()
        || request == b"has".as_slice()
        || request == b"invalidate".as_slice()
        || request == b"remove".as_slice()
        || request == b"clear".as_slice()
        || request == b"count".as_slice()
        || request == b"weight".as_slice()
}

fn is_of_sketch(request: &[u8]) -> bool {
    request == b"inc".as_slice()
        || request == b"freq".as_slice()
        || request == b"index".as_slice()
        || request == b"len".as_slice()
        || request == b"ensure".as_slice()
}
