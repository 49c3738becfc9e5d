//! Replies, and how they are written.
ghost use Rattle.std.specs.Prelude.{◌≡◌, ◌≢◌, IfOk, [], ◌∷◌, ◌++◌, OnOk, codes, option_copied, option_map};
ghost use Rattle.std.specs.Duration.{as_nanos};
ghost use Rattle.std.specs.Fmt.{decimal};
ghost use Rattle.std.specs.List.{flat_map};
ghost use Rattle.moka_grammar.specs.Spelling.{line_feed, space};
ghost use Rattle.moka_script.specs.Reply.{Found, Refused, limit_words, nanos_words, pair_words, pairs_words, phase_word, policy_words, reply_line};
ghost use Rattle.moka_script.specs.ReplyValue.{pairs_of, reply_of};

use crate::stored::Stored;
use moka_common::error::{BuildError, OutOfMemory};
use moka_common::policy::Policy;
use moka_grammar::text::Text;
use moka_sync_model::phase::Phase;
use std::alloc::{AllocError, Allocator};
use std::time::Duration;

/// The reply on a line. Texts and pairs are borrowed.
#[derive(Drop)]
pub enum ReplyValue<'a> {
    /// The cache or sketch of a first line is there.
    Ready,
    /// The cache of a first line isn't built.
    Refused(BuildError),
    Done,
    Found(Option<&'a [u8]>),
    Truth(bool),
    Number(u128),
    /// Keys with their texts.
    Pairs(&'a [(u64, &'a [u8])]),
    Limits(&'a Policy),
    OutOfMemory,
    TicketsUsedUp,
    /// An insert with a time to live of its own, in a cache without one.
    NoTimeToLive,
    /// A read for which there was no room in its log.
    Discarded,
    /// The phase of a maintenance.
    At(Phase),
    NotPossible,
}

/// Returns the reply to a get that found this.
pub(crate) fn found<A: Allocator + Clone + Drop>(stored: Option<&Stored<Text<A>>>) -> ReplyValue<'_>
    ensures { reply_of result ≡ Found (option_map (λ s. s.text) (option_copied stored.entry)) }
{
    match stored {
        Some(stored) => ReplyValue::Found(Some(stored.text.as_bytes())),
        None => ReplyValue::Found(None),
    }
}

/// Returns the line that says why there is no cache. Without memory for the cache there is none for the run.
pub fn refusal<A: Allocator + Clone + Drop>(
    alloc: A,
    error: BuildError,
) -> Result<Vec<u8, A>, OutOfMemory>
    ensures { IfOk result (λ text. (error ≢ BuildError.OutOfMemory) × (text.items ≡ reply_line (Refused error))) }
{
    if error == BuildError::OutOfMemory {
        return Err(OutOfMemory);
    }
    let mut text = Vec::new(alloc);
    push_reply(&mut text, ReplyValue::Refused(error))?;
    Ok(text)
}

/// Adds the line of a reply to the text.
pub fn push_reply<A: Allocator + Clone + Drop>(
    text: &mut Vec<u8, A>,
    reply: ReplyValue<'_>,
) -> Result<(), AllocError>
    ensures { OnOk result (text.new.items ≡ text.old.items ++ reply_line (reply_of reply.entry)) }
{
    match reply {
        ReplyValue::Ready => text.extend_from_slice(b"ready\n"),
        ReplyValue::Refused(error) => push_refused(text, error),
        ReplyValue::Done => text.extend_from_slice(b"ok\n"),
        ReplyValue::Found(Some(found)) => push_found(text, found),
        ReplyValue::Found(None) => text.extend_from_slice(b"none\n"),
        ReplyValue::Truth(true) => text.extend_from_slice(b"true\n"),
        ReplyValue::Truth(false) => text.extend_from_slice(b"false\n"),
        ReplyValue::Number(number) => push_number(text, number),
        ReplyValue::Pairs(pairs) => push_pairs(text, pairs),
        ReplyValue::Limits(policy) => push_policy(text, *policy),
        ReplyValue::OutOfMemory => text.extend_from_slice(b"refused memory\n"),
        ReplyValue::TicketsUsedUp => text.extend_from_slice(b"refused tickets\n"),
        ReplyValue::NoTimeToLive => text.extend_from_slice(b"refused time-to-live\n"),
        ReplyValue::Discarded => text.extend_from_slice(b"discarded\n"),
        ReplyValue::At(phase) => push_phase(text, phase),
        ReplyValue::NotPossible => text.extend_from_slice(b"not possible\n"),
    }
}

fn push_refused<A: Allocator + Clone + Drop>(
    text: &mut Vec<u8, A>,
    error: BuildError,
) -> Result<(), AllocError>
    ensures { OnOk result (text.new.items ≡ text.old.items ++ reply_line (Refused error)) }
{
    text.extend_from_slice(b"refused ")?;
    text.extend_from_slice(error.text().as_bytes())?;
    text.extend_from_slice(b"\n")
}

fn push_found<A: Allocator + Clone + Drop>(
    text: &mut Vec<u8, A>,
    found: &[u8],
) -> Result<(), AllocError>
    ensures { OnOk result (text.new.items ≡ text.old.items ++ (codes "some " ++ found.now ++ line_feed ∷ [])) }
{
    text.extend_from_slice(b"some ")?;
    text.extend_from_slice(found)?;
    text.extend_from_slice(b"\n")
}

fn push_phase<A: Allocator + Clone + Drop>(
    text: &mut Vec<u8, A>,
    phase: Phase,
) -> Result<(), AllocError>
    ensures { OnOk result (text.new.items ≡ text.old.items ++ (codes "at " ++ phase_word phase ++ line_feed ∷ [])) }
{
    text.extend_from_slice(b"at ")?;
    text.extend_from_slice(phase_word(phase).as_bytes())?;
    text.extend_from_slice(b"\n")
}

/// Returns the name of a phase.
fn phase_word(phase: Phase) -> &'static str
    ensures { result.now ≡ phase_word phase }
{
    match phase {
        Phase::Idle => "idle",
        Phase::ReadCount => "read-count",
        Phase::Reads => "reads",
        Phase::ReadApply => "read-apply",
        Phase::WriteCount => "write-count",
        Phase::Writes => "writes",
        Phase::Apply => "apply",
        Phase::Scan => "scan",
        Phase::Removing => "removing",
        Phase::Enter => "enter",
        Phase::Sketch => "sketch",
        Phase::MoreReads => "more-reads",
        Phase::MoreWrites => "more-writes",
        Phase::ExpireWrite => "expire-write",
        Phase::ExpireAccess => "expire-access",
        Phase::Evict => "evict",
        Phase::Publish => "publish",
    }
}

fn push_number<A: Allocator + Clone + Drop>(
    text: &mut Vec<u8, A>,
    number: u128,
) -> Result<(), AllocError>
    ensures { OnOk result (text.new.items ≡ text.old.items ++ (decimal number ++ line_feed ∷ [])) }
{
    let alloc = text.allocator().clone()?;
    let line = format!(in alloc; "{number}\n")?;
    text.extend_from_slice(line.as_bytes())
}

fn push_pairs<A: Allocator + Clone + Drop>(
    text: &mut Vec<u8, A>,
    pairs: &[(u64, &[u8])],
) -> Result<(), AllocError>
    ensures { OnOk result (text.new.items ≡ text.old.items ++ (pairs_words (pairs_of pairs.now) ++ line_feed ∷ [])) }
{
    let Some(((key, value), more)) = pairs.split_first() else {
        return text.extend_from_slice(b"empty\n");
    };
    push_pair(text, *key, value)?;
    push_more_pairs(text, more)?;
    text.extend_from_slice(b"\n")
}

/// Adds further pairs, with a space before each.
fn push_more_pairs<A: Allocator + Clone + Drop>(
    text: &mut Vec<u8, A>,
    pairs: &[(u64, &[u8])],
) -> Result<(), AllocError>
    ensures { OnOk result (text.new.items
        ≡ text.old.items ++ flat_map (λ pair. space ∷ pair_words pair) (pairs_of pairs.now)) }
{
    for (key, value) in pairs {
        text.extend_from_slice(b" ")?;
        push_pair(text, *key, value)?;
    }
    Ok(())
}

fn push_pair<A: Allocator + Clone + Drop>(
    text: &mut Vec<u8, A>,
    key: u64,
    value: &[u8],
) -> Result<(), AllocError>
    ensures { OnOk result (text.new.items ≡ text.old.items ++ (decimal key ++ codes "=" ++ value.now)) }
{
    let alloc = text.allocator().clone()?;
    let front = format!(in alloc; "{key}=")?;
    text.extend_from_slice(front.as_bytes())?;
    text.extend_from_slice(value)
}

fn push_policy<A: Allocator + Clone + Drop>(
    text: &mut Vec<u8, A>,
    policy: Policy,
) -> Result<(), AllocError>
    ensures { OnOk result (text.new.items ≡ text.old.items ++ (policy_words policy ++ line_feed ∷ [])) }
{
    text.extend_from_slice(b"max ")?;
    push_limit(text, policy.max_capacity())?;
    text.extend_from_slice(b" live ")?;
    push_nanos(text, policy.time_to_live())?;
    text.extend_from_slice(b" idle ")?;
    push_nanos(text, policy.time_to_idle())?;
    text.extend_from_slice(b"\n")
}

fn push_limit<A: Allocator + Clone + Drop>(
    text: &mut Vec<u8, A>,
    limit: Option<u64>,
) -> Result<(), AllocError>
    ensures { OnOk result (text.new.items ≡ text.old.items ++ limit_words limit) }
{
    match limit {
        Some(limit) => {
            let alloc = text.allocator().clone()?;
            let word = format!(in alloc; "{limit}")?;
            text.extend_from_slice(word.as_bytes())
        }
        None => text.extend_from_slice(b"-"),
    }
}

fn push_nanos<A: Allocator + Clone + Drop>(
    text: &mut Vec<u8, A>,
    duration: Option<Duration>,
) -> Result<(), AllocError>
    ensures { OnOk result (text.new.items ≡ text.old.items ++ nanos_words (option_map as_nanos duration)) }
{
    match duration {
        Some(duration) => {
            let alloc = text.allocator().clone()?;
            let nanos = duration.as_nanos();
            let word = format!(in alloc; "{nanos}ns")?;
            text.extend_from_slice(word.as_bytes())
        }
        None => text.extend_from_slice(b"-"),
    }
}
