//! The replies to a script that builds a cache for one thread: its calls, made on that cache.
ghost use Rattle.std.specs.Prelude.{◌≡◌, ◌++◌, ℕ, List, false, IfOk, OnOk, IsTrue, map};
ghost use Rattle.std.specs.List.{AllByRecursion};
ghost use Rattle.moka_unsync.specs.Insert.{Modifies};
ghost use Rattle.moka_unsync.specs.Invalidate.{after_invalidate_if};
ghost use Rattle.moka_grammar.specs.Lines.{allows, LineFits};
ghost use Rattle.moka_script.specs.Reply.{Ready, Reply as Told, reply_line};
ghost use Rattle.moka_script.specs.ReplyValue.{pairs_of, reply_of};
ghost use Rattle.moka_script.specs.ScriptKeys.{script_keys};
ghost use Rattle.moka_script.specs.ScriptWeighers.{AnswersLine, AnswersStored};
ghost use Rattle.moka_script.specs.Stored.{stored_weighs};
ghost use Rattle.moka_script.specs.UnsyncRun.{AreUnsyncReplies, AreUnsyncReplyLines, HasLimits, IsAnswered, TellsInsert, have_text, shares_of};

use crate::keys::KeyState;
use crate::reply::{ReplyValue, found, push_reply, refusal};
use crate::stored::{Stored, StoredWeight, stored_text};
use moka_common::error::OutOfMemory;
use moka_common::time::Instant;
use moka_common::weigh::{UnitWeight, Weigh};
use moka_grammar::line::{CacheHeader, CacheOptions, Line, Mode, Request, Span};
use moka_grammar::text::Text;
use moka_unsync::builder::CacheBuilder;
use moka_unsync::cache::{Cache, Iter};
use moka_unsync::error::TimedInsertError;
use std::alloc::{AllocError, Allocator};

/// A builder of caches that a script's calls are made on.
type ScriptBuilder<A> = CacheBuilder<u64, Stored<Text<A>>, UnitWeight, A>;

/// A cache that a script's calls are made on.
type ScriptCache<W, A> = Cache<u64, Stored<Text<A>>, KeyState, W, A>;

/// Builds a cache with the settings, makes the calls of the lines in turn on it, and writes the replies. If the settings are
/// refused, that is all that is written.
#[tactic(auto, using(crate::proofs::UnsyncRunLemmas::fair_shares))]
pub fn unsync_replies<A: Allocator + Clone + Drop>(
    alloc: A,
    header: CacheHeader,
    lines: Vec<Line<Text<A>>, A>,
) -> Result<Vec<u8, A>, OutOfMemory>
    requires mode { header.mode ≡ Mode.Unsync }
    requires lines { AllByRecursion (LineFits header) lines.items }
    ensures { IfOk result (λ text. AreUnsyncReplyLines header.options lines.items text.items) }
{
    let builder = builder_of(alloc.clone()?, header.options);
    if header.options.weighed {
        return match builder.weigher(StoredWeight).build_with_hasher(KeyState) {
            Ok(mut cache) => replies_of(alloc, &mut cache, lines),
            Err(error) => refusal(alloc, error),
        };
    }
    match builder.build_with_hasher(KeyState) {
        Ok(mut cache) => replies_of(alloc, &mut cache, lines),
        Err(error) => refusal(alloc, error),
    }
}

/// Makes a builder with the limits of the settings.
fn builder_of<A: Allocator + Clone + Drop>(alloc: A, options: CacheOptions) -> ScriptBuilder<A>
    ensures limits { HasLimits result.policy options }
    ensures weighed { result.is_weighed ≡ false }
    ensures shares { result.shares ≡ shares_of options }
{
    let mut builder = CacheBuilder::default(alloc);
    if let Some(max) = options.max {
        builder = builder.max_capacity(max);
    }
    if let Some(live) = options.live {
        builder = builder.time_to_live(live.to_duration());
    }
    if let Some(idle) = options.idle {
        builder = builder.time_to_idle(idle.to_duration());
    }
    if options.adaptive {
        builder = builder.adaptive();
    }
    builder
}

/// Makes the calls of the lines in turn on the cache, and writes the replies.
fn replies_of<A: Allocator + Clone + Drop, W: Weigh<u64, Stored<Text<A>>>>(
    alloc: A,
    cache: &mut ScriptCache<W, A>,
    lines: Vec<Line<Text<A>>, A>,
) -> Result<Vec<u8, A>, OutOfMemory>
    requires ready { W.ready cache.old.weigher }
    requires weighs { AllByRecursion (AnswersLine W.weighs) lines.items }
    requires allowed { AllByRecursion (λ line. IsTrue (allows Mode.Unsync line.request)) lines.items }
    ensures { IfOk result (λ text. (replies : List ℕ) × AreUnsyncReplies cache.old lines.items replies
        × (text.items ≡ reply_line Ready ++ replies)) }
{
    let mut text = Vec::new(alloc);
    push_reply(&mut text, ReplyValue::Ready)?;
    for line in lines {
        reply_to(cache, &mut text, line)?;
    }
    Ok(text)
}

/// Makes the call of a line, and adds the line of its reply to the text.
fn reply_to<A: Allocator + Clone + Drop, W: Weigh<u64, Stored<Text<A>>>>(
    cache: &mut ScriptCache<W, A>,
    text: &mut Vec<u8, A>,
    line: Line<Text<A>>,
) -> Result<(), AllocError>
    requires ready { W.ready cache.old.weigher }
    requires weighs { AnswersLine W.weighs line }
    requires allowed { IsTrue (allows Mode.Unsync line.request) }
    ensures step { OnOk result ((reply : Told) × IsAnswered cache.old line.now line.request reply cache.new
        × (text.new.items ≡ text.old.items ++ reply_line reply)) }
    ensures ready { W.ready cache.new.weigher }
{
    let now = Instant::from_nanos(line.now);
    match line.request {
        Request::Insert {
            key,
            text: value,
            weight,
            live,
        } => {
            let stored = stored_text(value, weight);
            let reply = insert(cache, key, stored, live, now);
            push_reply(text, reply)
        }
        Request::Modify {
            key,
            text: value,
            weight,
        } => {
            let stored = stored_text(value, weight);
            let there = modify(cache, key, stored, now);
            push_reply(text, ReplyValue::Truth(there))
        }
        Request::Get { key } => push_reply(text, found(cache.get(&key, now))),
        Request::ContainsKey { key } => {
            push_reply(text, ReplyValue::Truth(cache.contains_key(&key, now)))
        }
        Request::Invalidate { key } => {
            cache.invalidate(&key, now);
            push_reply(text, ReplyValue::Done)
        }
        Request::Remove { key } => match cache.remove(&key, now) {
            Some(stored) => push_reply(text, ReplyValue::Found(Some(stored.text.as_bytes()))),
            None => push_reply(text, ReplyValue::Found(None)),
        },
        Request::InvalidateAll => {
            cache.invalidate_all();
            push_reply(text, ReplyValue::Done)
        }
        Request::RemoveExpired => {
            cache.remove_expired(now);
            push_reply(text, ReplyValue::Done)
        }
        Request::InvalidateIf { text: gone } => {
            invalidate_if(cache, &gone);
            push_reply(text, ReplyValue::Done)
        }
        Request::Sync => unreachable!(),
        Request::Iter => {
            let pairs = pairs_of(text.allocator().clone()?, cache.iter(now))?;
            push_reply(text, ReplyValue::Pairs(&pairs))
        }
        Request::EntryCount => push_reply(text, ReplyValue::Number(cache.entry_count() as u128)),
        Request::WeightedSize => push_reply(
            text,
            ReplyValue::Number(cache.weighted_size() as u128),
        ),
        Request::Policy => {
            let policy = cache.policy();
            push_reply(text, ReplyValue::Limits(&policy))
        }
    }
}

/// Makes an insert, with its own time to live if the line has one, and returns the reply.
fn insert<A: Allocator + Clone + Drop, W: Weigh<u64, Stored<Text<A>>>>(
    cache: &mut ScriptCache<W, A>,
    key: u64,
    stored: Stored<Text<A>>,
    live: Option<Span>,
    now: Instant,
) -> ReplyValue<'static>
    requires ready { W.ready cache.old.weigher }
    requires weighs { AnswersStored W.weighs key stored }
    ensures step { TellsInsert cache.old key stored live now (reply_of result) cache.new }
    ensures ready { W.ready cache.new.weigher }
{
    let Some(live) = live else {
        return match cache.insert(key, stored, now) {
            Ok(()) => ReplyValue::Done,
            Err(_) => ReplyValue::OutOfMemory,
        };
    };
    match cache.insert_with_time_to_live(key, stored, live.to_duration(), now) {
        Ok(()) => ReplyValue::Done,
        Err(TimedInsertError::NoTimeToLive) => ReplyValue::NoTimeToLive,
        Err(TimedInsertError::OutOfMemory) => ReplyValue::OutOfMemory,
    }
}

/// Changes what is stored at the key, and returns `true`, or `false` if the key has no entry.
fn modify<A: Allocator + Clone + Drop, W: Weigh<u64, Stored<Text<A>>>>(
    cache: &mut ScriptCache<W, A>,
    key: u64,
    stored: Stored<Text<A>>,
    now: Instant,
) -> bool
    requires ready { W.ready cache.old.weigher }
    requires weighs { AnswersStored W.weighs key stored }
    ensures step { Modifies script_keys stored_weighs (λ _ new. new ≡ stored) result cache.old key now cache.new }
    ensures ready { W.ready cache.new.weigher }
{
    cache.modify(&key, now, |value: &mut Stored<Text<A>>| *value = stored)
}

/// Returns the pairs of an iterator, each a key and its text.
fn pairs_of<'a, A: Allocator + Clone + Drop>(
    alloc: A,
    entries: Iter<'a, u64, Stored<Text<A>>, A>,
) -> Result<Vec<(u64, &'a [u8]), A>, AllocError>
    ensures { IfOk result (λ pairs. pairs_of pairs.items ≡ map (λ p. (p.0, p.1.text)) entries.entry) }
{
    let mut pairs = Vec::new(alloc);
    for (key, value) in entries {
        pairs.push((*key, value.text.as_bytes()))?;
    }
    Ok(pairs)
}

/// Removes the entries whose text is this one.
fn invalidate_if<A: Allocator + Clone + Drop, W: Weigh<u64, Stored<Text<A>>>>(
    cache: &mut ScriptCache<W, A>,
    text: &Text<A>,
)
    ensures step { cache.new ≡ after_invalidate_if script_keys cache.old (have_text text.now cache.old.contents.entries) }
{
    let gone = text.as_bytes();
    cache.invalidate_entries_if(|_key, value| value.text.as_bytes() == gone);
}
