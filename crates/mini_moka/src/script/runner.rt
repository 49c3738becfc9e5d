// A whole run: from the bytes of a script to the bytes of its replies.
ghost use Rattle.std.specs.Prelude.{◌≡◌, ◌≢◌, ◌↔◌, true, false, IfOk, ℕ, List};
ghost use Rattle.moka_script.specs.Reply.{bad_line};
ghost use Rattle.std.specs.List.{AllByRecursion};
ghost use Rattle.moka_grammar.specs.Grammar.{CacheScript, IsScript};
ghost use Rattle.moka_grammar.specs.Lines.{LineFits};
ghost use Rattle.mini_moka.specs.ScriptRun.{EndsSo, IsRunOf, status_of};
ghost use Rattle.mini_moka.specs.declared.script.runner.ScriptError.TheVariants as script_error;

use crate::script::locked::{LockedScript, locked_replies};
use moka_common::error::OutOfMemory;
use moka_grammar::line::{CacheHeader, Line, Mode, Script};
use moka_grammar::parser::{ParseError, parse};
use moka_grammar::streams::{Fault, ReadError, Sink, Source, read_all, write_all};
use moka_grammar::text::Text;
use moka_script::core_lines::core_replies;
use moka_script::recorded::recorded_replies;
use moka_script::sketch::sketch_replies;
use moka_script::unsync::unsync_replies;
use std::alloc::{AllocError, Allocator, Global};
use std::fmt;
use std::sync::Wait;

/// The end of a run of a script whose streams and memory serve.
#[derive(Drop)]
pub enum End<A: Allocator + Clone + Drop = Global> {
    /// The replies were written, a line for each line of the script, or that its cache is refused.
    Done,
    /// The input is no script. Its first bad line, counted from 1, was written, and no call was made.
    BadLine(u64),
    /// The input is a script of the cache with locks, whose calls may wait. Nothing was written: it is for `run_locked`.
    Locked(LockedScript<A>),
}

/// Why a run of a script is broken off.
#[derive(Clone, Copy, Debug, PartialEq, Eq)]
pub enum ScriptError {
    /// The source refused to be read. Nothing was written.
    Read,
    /// The sink refused to be written. A beginning of the text was written.
    Write,
    /// Memory was refused. Nothing was written.
    OutOfMemory,
}

impl ScriptError {
    ghost use Rattle.mini_moka.specs.ScriptRun.{script_error_text};

    /// Returns the reason in words, which `Display` writes, and the program to standard error.
    pub fn text(self) -> &'static str
        ensures { result.now ≡ script_error_text self }
    {
        match self {
            ScriptError::Read => "read fault",
            ScriptError::Write => "write fault",
            ScriptError::OutOfMemory => "out of memory",
        }
    }
}

impl fmt::Display for ScriptError {
    ghost use Rattle.std.specs.Prelude.{Some};
    ghost use Rattle.mini_moka.specs.ScriptRun.{script_error_text};

    ghost output = { λ error. Some (script_error_text error) };

    fn fmt<W: fmt::Write>(&self, f: &mut fmt::Formatter<W>) -> fmt::Result {
        f.write_str(self.text())
    }
}

impl std::error::Error for ScriptError {}

/// Returns a program's exit status. It is 0 if the replies were written, 2 if the input is no script, and 1 after a fault or if the script is still to be run.
pub fn status_of<A: Allocator + Clone + Drop>(ended: Result<End<A>, ScriptError>) -> u8
    ensures { result ≡ status_of ended }
{
    match ended {
        Ok(End::Done) => 0,
        Ok(End::BadLine(_)) => 2,
        Ok(End::Locked(_)) | Err(_) => 1,
    }
}

impl From<ReadError> for ScriptError {
    ghost from_gives = { λ error given. MatchRead error (given ≡ script_error.Read) (given ≡ script_error.OutOfMemory) };

    ghost use Rattle.moka_grammar.specs.Streams.{MatchRead};

    fn from(error: ReadError) -> ScriptError {
        match error {
            ReadError::Read => ScriptError::Read,
            ReadError::OutOfMemory => ScriptError::OutOfMemory,
        }
    }
}

impl From<Fault> for ScriptError {
    ghost from_gives = { λ _ given. given ≡ script_error.Write };

    fn from(_fault: Fault) -> ScriptError {
        ScriptError::Write
    }
}

impl From<OutOfMemory> for ScriptError {
    ghost from_gives = { λ _ given. given ≡ script_error.OutOfMemory };

    fn from(_error: OutOfMemory) -> ScriptError {
        ScriptError::OutOfMemory
    }
}

impl From<AllocError> for ScriptError {
    ghost from_gives = { λ _ given. given ≡ script_error.OutOfMemory };

    fn from(_error: AllocError) -> ScriptError {
        ScriptError::OutOfMemory
    }
}

/// Reads a whole script, makes its calls in turn on a cache, a core or a sketch of its own, and writes the replies.
///
/// The first line is answered by `ready`. If it asks for a cache with a duration that is too long, `refused` and the reason are
/// all that is written, and no call is made. In a script of a cache an accepted insert is answered by `ok`, a get by `some` and
/// the value or by `none`, a `has` by `true` or `false`, `count` and `weight` by a number, and `policy` by the limits, each with
/// its name; in a sketch script `inc` and `ensure` by `ok`, and the others by a number. In a script of a core a turn is answered
/// by `at` and the place after it, a push by `ok` or `discarded`, and a step that can't happen by `not possible`. A call that was
/// refused is answered by `refused memory` or `refused tickets`. If a line is bad, `bad line` and its number are all that is
/// written. A script of the cache with locks is handed back, and nothing is written. The time is linear in the bytes, but for what the
/// calls of a cache or a core take and the counts of an `inc`.
pub fn run<A: Allocator + Clone + Drop, I: Source, O: Sink>(
    alloc: A,
    source: &mut I,
    sink: &mut O,
) -> Result<End<A>, ScriptError>
    requires source { I.failed source.old ≡ false }
    requires sink { O.failed sink.old ≡ false }
    ensures ends { EndsSo A (I.remaining source.old) result
        (O.contents sink.old) (O.contents sink.new) }
    ensures read { (result ≡ Err ScriptError.Read) ↔ (I.failed source.new ≡ true) }
    ensures write { (result ≡ Err ScriptError.Write) ↔ (O.failed sink.new ≡ true) }
{
    let bytes = read_all(alloc.clone()?, source)?;
    let (end, text) = output_of(alloc, &bytes)?;
    write_all(sink, &text)?;
    Ok(end)
}

/// Makes the calls of a script in turn on a cache with locks, and writes the replies as `run` does. A call waits where another thread has its lock, and
/// here no other thread has one.
///
/// What a call is answered is shown by tests: the contracts of a cache with locks say nothing of what it holds.
pub fn run_locked<A: Allocator + Clone + Drop, R: Wait, O: Sink>(
    alloc: A,
    rt: &R,
    script: LockedScript<A>,
    sink: &mut O,
) -> Result<End<A>, ScriptError>
    requires sink { O.failed sink.old ≡ false }
    ensures done { IfOk result (λ end. end ≡ End.Done) }
    ensures read { result ≢ Err ScriptError.Read }
    ensures write { (result ≡ Err ScriptError.Write) ↔ (O.failed sink.new ≡ true) }
{
    let replies = locked_replies(alloc, rt, script)?;
    write_all(sink, &replies)?;
    Ok(End::Done)
}

/// Returns how a run of the bytes ends, and the text that it writes.
fn output_of<A: Allocator + Clone + Drop>(
    alloc: A,
    bytes: &[u8],
) -> Result<(End<A>, Vec<u8, A>), OutOfMemory>
    ensures { IfOk result (λ output. IsRunOf A bytes.now output.0 output.1.items) }
{
    match parse(alloc.clone()?, bytes) {
        Ok(Script::Cache { header, lines }) => cache_output(alloc, header, lines),
        Ok(Script::Core { options, lines }) => {
            let text = core_replies(alloc, options, lines)?;
            Ok((End::Done, text))
        }
        Ok(Script::Sketch { cap, lines }) => {
            let text = sketch_replies(alloc, cap, lines)?;
            Ok((End::Done, text))
        }
        Err(ParseError::BadLine(number)) => {
            let text = bad_line(alloc, number)?;
            Ok((End::BadLine(number), text))
        }
        Err(ParseError::OutOfMemory) => Err(OutOfMemory),
    }
}

/// Returns how a run of the calls to a cache ends, by their mode, and the text that it writes.
fn cache_output<A: Allocator + Clone + Drop>(
    alloc: A,
    header: CacheHeader,
    lines: Vec<Line<Text<A>>, A>,
) -> Result<(End<A>, Vec<u8, A>), OutOfMemory>
    requires { AllByRecursion (LineFits header) lines.items }
    ensures { IfOk result (λ output. (bytes : List ℕ) → IsScript bytes (CacheScript header lines.items)
        → IsRunOf A bytes output.0 output.1.items) }
{
    match header.mode {
        Mode::Recorded => {
            let text = recorded_replies(alloc, header, lines)?;
            Ok((End::Done, text))
        }
        Mode::Sync => {
            let script = LockedScript::new(header, lines);
            Ok((End::Locked(script), Vec::new(alloc)))
        }
        Mode::Unsync => {
            let text = unsync_replies(alloc, header, lines)?;
            Ok((End::Done, text))
        }
    }
}

fn bad_line<A: Allocator + Clone + Drop>(alloc: A, number: u64) -> Result<Vec<u8, A>, AllocError>
    ensures { IfOk result (λ text. text.items ≡ bad_line number) }
{
    let text = format!(in alloc; "bad line {number}\n")?;
    Ok(text.into_bytes())
}
