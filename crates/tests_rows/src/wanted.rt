// What the lines of a row ask for: a script, its replies, how it ends, and the requests for memory that are refused meanwhile.
use crate::ending::Ending;
use std::alloc::{AllocError, Global};
use std::fmt;
use tests_heap::Refusals;

/// Separates a line of a script from its reply.
const ARROW: &str = " -> ";

/// Separates how often a line is played from the line.
const TIMES: &str = " times ";

/// Separates the lines of a script that are repeated together.
const AND: &str = "; ";

/// The beginning of a line that says how the script ends.
const ENDS: &str = "ends with ";

/// The beginning of a line that names the request for memory that is refused.
const REFUSES: &str = "refuses request ";

/// The beginning and the end of a line that names the first of the requests that are refused.
const REFUSES_FROM: (&str, &str) = ("refuses requests from ", " on");

/// The beginning of a line that says how the plays end in which each request is refused in turn.
const REFUSES_EACH: &str = "refuses each request: ";

/// Why a line of a row isn't read.
#[derive(Clone, Copy, Debug, PartialEq, Eq)]
pub enum LineError {
    NotRead,
    OutOfMemory,
}

impl fmt::Display for LineError {
    fn fmt<W: fmt::Write>(&self, f: &mut fmt::Formatter<W>) -> fmt::Result {
        f.write_str(match self {
            LineError::NotRead => "not a line of a row",
            LineError::OutOfMemory => "out of memory",
        })
    }
}

impl std::error::Error for LineError {}

impl From<AllocError> for LineError {
    fn from(_error: AllocError) -> LineError {
        LineError::OutOfMemory
    }
}

/// A script, the replies that it must get, and how it must end.
#[derive(Drop)]
pub struct Wanted {
    pub script: String,
    pub replies: String,
    pub ending: Ending,
    /// The requests for memory that are refused while the script runs.
    pub refusals: Refusals,
    /// Number of plays that end in each way with each request refused in turn, or nothing if the script isn't played so.
    pub in_turn: String,
    /// True if any replies will do, as for a script in quotes.
    pub is_open: bool,
}

impl Wanted {
    /// A script without lines.
    pub fn new(alloc: Global) -> Wanted {
        Wanted {
            script: String::new(alloc),
            replies: String::new(alloc),
            ending: Ending::Done,
            refusals: Refusals::Never,
            in_turn: String::new(alloc),
            is_open: false,
        }
    }

    /// The whole script that a line has in quotes, of which only the ending is wanted.
    pub fn quoted(alloc: Global, line: &str) -> Result<Wanted, LineError> {
        let Some((script, ending)) = line.split_once("\" -> ") else {
            return Err(LineError::NotRead);
        };
        let Some(script) = script.strip_prefix("\"") else {
            return Err(LineError::NotRead);
        };
        let mut wanted = Wanted::new(alloc);
        push_unescaped(&mut wanted.script, script)?;
        wanted.ending = Ending::parse(ending)?;
        wanted.is_open = true;
        Ok(wanted)
    }

    /// Returns what must be written: the replies, a bad line, or nothing if the run is broken off.
    pub fn text(&self, alloc: Global) -> Result<String, AllocError> {
        match self.ending {
            Ending::Done => String::from_str(alloc, &self.replies),
            Ending::BadLine(number) => format!(in alloc; "bad line {number}\n"),
            Ending::Failed(_) => Ok(String::new(alloc)),
        }
    }

    /// Adds a line of the row: lines of the script with their replies, how the script ends, or which requests for memory are refused.
    pub fn add(&mut self, alloc: Global, line: &str) -> Result<(), LineError> {
        if let Some(ending) = line.strip_prefix(ENDS) {
            self.ending = Ending::parse(ending)?;
            return Ok(());
        }
        if let Some(counts) = line.strip_prefix(REFUSES_EACH) {
            return Ok(self.in_turn.push_str(counts)?);
        }
        if let Some(refusals) = refusals_of(line)? {
            self.refusals = refusals;
            return Ok(());
        }
        let (times, lines) = repeated(line);
        for number in 0..times {
            for line in lines.split(AND) {
                self.add_call(alloc, line, number)?;
            }
        }
        Ok(())
    }

    /// Adds a line of the script, and its reply, if it has one.
    fn add_call(&mut self, alloc: Global, line: &str, number: u64) -> Result<(), AllocError> {
        let Some((call, reply)) = line.split_once(ARROW) else {
            return push_numbered(alloc, &mut self.script, line, number);
        };
        push_numbered(alloc, &mut self.script, call, number)?;
        push_numbered(alloc, &mut self.replies, reply, number)
    }
}

/// The refused requests that a line names, if it names some.
fn refusals_of(line: &str) -> Result<Option<Refusals>, LineError> {
    if let Some(number) = line.strip_prefix(REFUSES) {
        return Ok(Some(Refusals::Once(number_of(number)?)));
    }
    let (before, behind) = REFUSES_FROM;
    let Some(rest) = line.strip_prefix(before) else {
        return Ok(None);
    };
    match rest.strip_suffix(behind) {
        Some(number) => Ok(Some(Refusals::From(number_of(number)?))),
        None => Err(LineError::NotRead),
    }
}

/// A number of a request, from 1 on.
fn number_of(text: &str) -> Result<u64, LineError> {
    match text.parse() {
        Ok(number) if number > 0 => Ok(number),
        _ => Err(LineError::NotRead),
    }
}

/// How often a line is meant, and the line.
fn repeated(line: &str) -> (u64, &str) {
    let Some((times, rest)) = line.split_once(TIMES) else {
        return (1, line);
    };
    match times.parse() {
        Ok(times) => (times, rest),
        Err(_) => (1, line),
    }
}

/// Adds a line in which `#` is a number, and `#*` with digits behind it the product of both.
fn push_numbered(
    alloc: Global,
    text: &mut String,
    line: &str,
    number: u64,
) -> Result<(), AllocError> {
    for (place, part) in line.split("#").enumerate() {
        if place == 0 {
            text.push_str(part)?;
            continue;
        }
        let (factor, rest) = factor_of(part);
        let number = format!(in alloc; "{}", number.wrapping_mul(factor))?;
        text.push_str(&number)?;
        text.push_str(rest)?;
    }
    text.push_str("\n")
}

/// The factor that a text begins with, or 1, and what is behind it.
fn factor_of(text: &str) -> (u64, &str) {
    let Some(behind) = text.strip_prefix("*") else {
        return (1, text);
    };
    let (digits, rest) = match behind.split_once(" ") {
        Some((digits, _)) => behind.split_at(digits.len()),
        None => (behind, ""),
    };
    match digits.parse() {
        Ok(factor) => (factor, rest),
        Err(_) => (1, text),
    }
}

/// Adds a text in which a line feed, a carriage return, a tab and a zero are `\n`, `\r`, `\t` and `\0`.
fn push_unescaped(text: &mut String, escaped: &str) -> Result<(), LineError> {
    for (place, part) in escaped.split("\\").enumerate() {
        if place == 0 {
            text.push_str(part)?;
            continue;
        }
        let (meant, rest) = unescaped(part)?;
        text.push_str(meant)?;
        text.push_str(rest)?;
    }
    Ok(())
}

/// Returns what the letter at the beginning of a text stands for, and what is behind it.
fn unescaped(text: &str) -> Result<(&'static str, &str), LineError> {
    for (letter, meant) in [("n", "\n"), ("r", "\r"), ("t", "\t"), ("0", "\0")] {
        if let Some(rest) = text.strip_prefix(letter) {
            return Ok((meant, rest));
        }
    }
    Err(LineError::NotRead)
}
