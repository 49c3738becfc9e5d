// A script that is played again with each of its requests for memory refused in turn: a line that is refused has to be as if it was not there.
use crate::ending::Ending;
use crate::played::outcome_of;
use mini_moka::script::ScriptError;
use std::alloc::{AllocError, Global};
use std::sync::Wait;
use tests_heap::{Refusals, RefusingHeap, for_each_refusal};

/// More plays than any script here has requests.
const BOUND: u64 = 5000;

/// Number of plays that end in each way.
#[derive(Clone, Copy, Default)]
struct Counts {
    broken_off: u64,
    whole: u64,
    refused: u64,
    with_less: u64,
}

/// How a play ends.
#[derive(Clone, Copy)]
enum PlayEnd {
    /// The run is broken off, and nothing is written.
    BrokenOff,
    /// Each line is answered as with all memory.
    Whole,
    /// Some lines are refused by name, and the others are answered as in the script without these.
    Refused,
    /// Others have less in the cache besides, since an entry is gone whose node was refused.
    WithLess,
}

impl Counts {
    /// Counts a play.
    fn add(&mut self, end: PlayEnd) {
        let count = match end {
            PlayEnd::BrokenOff => &mut self.broken_off,
            PlayEnd::Whole => &mut self.whole,
            PlayEnd::Refused => &mut self.refused,
            PlayEnd::WithLess => &mut self.with_less,
        };
        *count = count.saturating_add(1);
    }

    /// The counts in words.
    fn text(self, alloc: Global) -> Result<String, AllocError> {
        format!(in alloc;
            "{} broken off, {} whole, {} refused, {} with less",
            self.broken_off, self.whole, self.refused, self.with_less
        )
    }
}

/// How the plays of a script end, in words, if not so as wanted.
pub fn difference_in_turn(
    rt: &impl Wait,
    alloc: Global,
    script: &str,
    wanted: &str,
) -> Result<Option<String>, AllocError> {
    let mut counts = Counts::default();
    let ended = for_each_refusal(alloc, alloc, BOUND, |heap| {
        counts.add(play(rt, alloc, heap, script)?);
        Ok::<(), &'static str>(())
    });
    let text = match ended {
        Ok(_) => counts.text(alloc)?,
        Err(error) => format!(in alloc; "{error:?}")?,
    };
    if text.as_str() == wanted {
        return Ok(None);
    }
    Ok(Some(format!(in alloc; "with each request refused: {text}")?))
}

/// The replies of a script on a heap, or nothing where its run is broken off for want of memory.
fn replies_of(
    rt: &impl Wait,
    alloc: Global,
    heap: &RefusingHeap<Global>,
    script: &str,
) -> Result<Option<String>, &'static str> {
    let (ending, written) = outcome_of(rt, alloc, heap, script);
    let text = String::from_utf8(written).map_err(|_| "replies are a text")?;
    match ending {
        Ending::Done if text.lines().count() == script.lines().count() => Ok(Some(text)),
        Ending::Failed(ScriptError::OutOfMemory) if text.is_empty() => Ok(None),
        _ => Err("how a run ends"),
    }
}

/// Plays a script.
fn play(
    rt: &impl Wait,
    alloc: Global,
    heap: &RefusingHeap<Global>,
    script: &str,
) -> Result<PlayEnd, &'static str> {
    let Some(text) = replies_of(rt, alloc, heap, script)? else {
        return Ok(PlayEnd::BrokenOff);
    };
    let kept = Kept::new(alloc, script, &text).map_err(|_| "the other lines")?;
    let ample = RefusingHeap::new(alloc, alloc, Refusals::Never).map_err(|_| "another heap")?;
    let Some(wanted) = replies_of(rt, alloc, &ample, &kept.script)? else {
        return Err("a run with all memory");
    };
    kept.explained(&wanted, heap.refused())
}

/// The lines of a script that were not refused by name, with their replies.
#[derive(Drop)]
struct Kept {
    script: String,
    replies: String,
    /// Number of the others.
    refused: u64,
}

impl Kept {
    fn new(alloc: Global, script: &str, replies: &str) -> Result<Kept, AllocError> {
        let mut kept = Kept {
            script: String::new(alloc),
            replies: String::new(alloc),
            refused: 0,
        };
        for (line, reply) in script.lines().zip(replies.lines()) {
            if reply == "refused memory" {
                kept.refused = kept.refused.saturating_add(1);
            } else {
                push_line(&mut kept.script, line)?;
                push_line(&mut kept.replies, reply)?;
            }
        }
        Ok(kept)
    }

    /// How the play of these ends, whose replies with all memory are the wanted ones. Less may be there only where a request was refused that no
    /// reply names.
    fn explained(&self, wanted: &str, refused: u64) -> Result<PlayEnd, &'static str> {
        if !counts_agree(&self.replies) {
            return Err("a count is not that of the pairs");
        }
        if self.replies.as_str() == wanted {
            return Ok(if self.refused == 0 {
                PlayEnd::Whole
            } else {
                PlayEnd::Refused
            });
        }
        let mut pairs = self.replies.lines().zip(wanted.lines());
        if refused > self.refused
            && pairs.all(|(reply, want)| reply == want || has_less(reply, want))
        {
            return Ok(PlayEnd::WithLess);
        }
        Err("a reply that no refusal explains")
    }
}

/// Adds a line to a text.
fn push_line(text: &mut String, line: &str) -> Result<(), AllocError> {
    text.push_str(line)?;
    text.push_str("\n")
}

/// Returns `true` if a reply is the wanted one with less in the cache. An entry that is gone isn't found, listed or counted, and its removal leaves nothing to
/// push.
fn has_less(reply: &str, wanted: &str) -> bool {
    match (reply.parse::<u64>(), wanted.parse::<u64>()) {
        (Ok(number), Ok(most)) => number < most,
        _ => match reply {
            "none" => wanted.starts_with("some "),
            "false" => wanted == "true",
            "not possible" => wanted == "ok",
            "empty" => pairs_in(wanted).is_some(),
            _ => reply.split(" ").all(|pair| pair.contains("=")
                && wanted.split(" ").any(|own| own == pair)),
        },
    }
}

/// Returns `true` if each number right behind a list of pairs is their number.
fn counts_agree(replies: &str) -> bool {
    let mut pairs = None;
    for reply in replies.lines() {
        if let (Some(count), Ok(number)) = (pairs, reply.parse::<u64>()) {
            if count != number {
                return false;
            }
        }
        pairs = pairs_in(reply);
    }
    true
}

/// Returns the number of pairs that a reply lists, if it is a list of pairs.
fn pairs_in(reply: &str) -> Option<u64> {
    if reply == "empty" {
        return Some(0);
    }
    if reply.contains("=") {
        return Some(reply.split(" ").count() as u64);
    }
    None
}
