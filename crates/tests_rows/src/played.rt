// Rows that are played: how many, and which differ.
use crate::ending::Ending;
use crate::in_turn::difference_in_turn;
use crate::row::{RowLine, line_of};
use crate::wanted::Wanted;
use anyhow::{Context, Result, bail};
use mini_moka::script::{End, FromRead, FromWrite, run, run_locked};
use std::alloc::{AllocError, Global};
use std::io::Eprint;
use std::sync::Wait;
use tests_heap::RefusingHeap;

/// Number of rows played, of lines of their scripts, and of rows that differ.
#[derive(Clone, Copy, Default)]
pub struct Played {
    pub rows: u64,
    pub lines: u64,
    pub differ: u64,
}

impl Played {
    /// Adds what was played of another file.
    pub fn add(&mut self, other: Played) {
        self.rows = self.rows.saturating_add(other.rows);
        self.lines = self.lines.saturating_add(other.lines);
        self.differ = self.differ.saturating_add(other.differ);
    }

    /// Plays the row of a block of lines, if it has one.
    pub fn play_block<R: Eprint + Wait>(
        &mut self,
        rt: &R,
        alloc: Global,
        file: &str,
        block: &str,
    ) -> Result<()> {
        let mut name = None;
        let mut wanted = Wanted::new(alloc);
        for line in block.lines() {
            match line_of(line) {
                RowLine::Skipped => {}
                RowLine::Name(text) if name.is_none() => name = Some(text),
                RowLine::Text(text) if text.starts_with("\"") => {
                    let quoted = Wanted::quoted(alloc, text).context(format_args!(
                        "{file}: {line}"
                    ))?;
                    self.play(rt, alloc, file, name.unwrap_or(text), &quoted)?;
                }
                RowLine::Text(text) if name.is_some() => wanted
                    .add(alloc, text)
                    .context(format_args!("{file}: {line}"))?,
                _ => bail!("{file}: not a line of a row: {line}"),
            }
        }
        let Some(name) = name else {
            return Ok(());
        };
        self.rows = self.rows.saturating_add(1);
        if wanted.script.is_empty() {
            return Ok(());
        }
        if wanted.ending != Ending::Done && !wanted.replies.is_empty() {
            bail!(
                "{file}: {name}: a script that ends with {} has no replies",
                wanted.ending
            );
        }
        self.play(rt, alloc, file, name, &wanted)
    }

    /// Plays a script, and says on standard error where it differs.
    fn play<R: Eprint + Wait>(
        &mut self,
        rt: &R,
        alloc: Global,
        file: &str,
        name: &str,
        wanted: &Wanted,
    ) -> Result<()> {
        let lines = wanted.script.lines().count() as u64;
        self.lines = self.lines.saturating_add(lines);
        if let Some(difference) = difference(rt, alloc, wanted)? {
            self.differ = self.differ.saturating_add(1);
            eprintln!(rt; "{file}: {name}: {difference}")?;
        }
        Ok(())
    }
}

/// How a run of the script ends, and what it writes. The script's memory is that of the heap.
pub fn outcome_of(
    rt: &impl Wait,
    alloc: Global,
    heap: &RefusingHeap<Global>,
    script: &str,
) -> (Ending, Vec<u8>) {
    let mut source = FromRead::new(script.as_bytes());
    let mut sink = FromWrite::new(Vec::new(alloc));
    let ended = match run(heap, &mut source, &mut sink) {
        Ok(End::Locked(script)) => run_locked(heap, rt, script, &mut sink),
        ended => ended,
    };
    (Ending::of(ended), sink.into_inner())
}

/// Runs a script, and returns what differs, in words.
fn difference(rt: &impl Wait, alloc: Global, wanted: &Wanted) -> Result<Option<String>> {
    let heap = RefusingHeap::new(alloc, alloc, wanted.refusals)?;
    let (ending, written) = outcome_of(rt, alloc, &heap, &wanted.script);
    if ending != wanted.ending {
        let text = format!(in alloc; "it ended with {ending}, not with {}", wanted.ending)?;
        return Ok(Some(text));
    }
    if heap.held_blocks() > 0 {
        let text = format!(in alloc; "it gave back all memory but {} blocks", heap.held_blocks())?;
        return Ok(Some(text));
    }
    if ending == Ending::Done && wanted.is_open {
        return Ok(None);
    }
    let written = String::from_utf8(written)?;
    let text = wanted.text(alloc)?;
    let difference = first_difference(alloc, &wanted.script, &written, &text)?;
    if difference.is_some() || wanted.in_turn.is_empty() {
        return Ok(difference);
    }
    Ok(difference_in_turn(rt, alloc, &wanted.script, &wanted.in_turn)?)
}

/// The first line of a script whose reply is another, with both replies.
fn first_other<'a>(
    script: &'a str,
    written: &'a str,
    wanted: &'a str,
) -> Option<(&'a str, &'a str, &'a str)> {
    for ((line, reply), want) in script.lines().zip(written.lines()).zip(wanted.lines()) {
        if reply != want {
            return Some((line, reply, want));
        }
    }
    None
}

/// In words, the first line of a script whose reply is not the wanted one.
fn first_difference(
    alloc: Global,
    script: &str,
    written: &str,
    wanted: &str,
) -> Result<Option<String>, AllocError> {
    if written == wanted {
        return Ok(None);
    }
    let text = match first_other(script, written, wanted) {
        Some((line, reply, want)) => format!(in alloc; "{line}: {reply}, not {want}")?,
        None => {
            let (found, expected) = (written.lines().count(), wanted.lines().count());
            format!(in alloc; "{found} replies, not {expected}")?
        }
    };
    Ok(Some(text))
}
