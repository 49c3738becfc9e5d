// A script of the cache with locks, and the replies to it: its calls, made on that cache by one thread.
ghost use Rattle.std.specs.Prelude.{◌≡◌, IsTrue};
ghost use Rattle.std.specs.List.{AllByRecursion};
ghost use Rattle.moka_grammar.specs.Lines.{allows, LineFits};

use moka_common::error::{InsertError, OutOfMemory};
use moka_common::time::Instant;
use moka_common::weigh::UnitWeight;
use moka_grammar::line::{CacheHeader, CacheOptions, Line, Mode, Request};
use moka_grammar::text::Text;
use moka_script::keys::KeyState;
use moka_script::reply::{ReplyValue, push_reply, refusal};
use moka_script::stored::{Stored, StoredWeight, stored_text};
use moka_shard::rule::AnyPair;
use moka_sync::builder::CacheBuilder;
use moka_sync::cache::{Cache, ConcurrentCacheExt};
use moka_sync::iter::Iter;
use moka_sync::mapref::EntryRef;
use moka_sync_model::weigh::WeighShared;
use std::alloc::{AllocError, Allocator, Global};
use std::marker::Model;
use std::sync::Wait;

/// A script of calls to the cache that threads share, with its locks. A contract sees its settings and its lines.
#[derive(Drop)]
pub struct LockedScript<A: Allocator + Clone + Drop = Global> {
    options: CacheOptions,
    lines: Vec<Line<Text<A>>, A>,
}

impl<A: Allocator + Clone + Drop> Model for LockedScript<A> {
    ghost use Rattle.std.specs.Prelude.{IsTrue};
    ghost use Rattle.std.specs.List.{AllByRecursion};
    ghost use Rattle.moka_grammar.specs.Lines.{allows};
    ghost use Rattle.moka_grammar.specs.declared.line.Mode.TheVariants as mode;
    ghost use Rattle.mini_moka.specs.LockedScript.{LockedScript as LockedScriptValue};

    ghost Value = { LockedScriptValue };

    ghost view = { λ script. record { options = script.options; lines = script.lines.items } };

    ghost invariant = { λ script. AllByRecursion (λ line. IsTrue (allows mode.Sync line.request)) script.lines.items };
}

impl<A: Allocator + Clone + Drop> LockedScript<A> {
    /// Makes the script of this header and these lines.
    pub(super) fn new(header: CacheHeader, lines: Vec<Line<Text<A>>, A>) -> LockedScript<A>
        requires mode { header.mode ≡ Mode.Sync }
        requires lines { AllByRecursion (LineFits header) lines.items }
        ensures options { result.options ≡ header.options }
        ensures lines { result.lines ≡ lines.items }
    {
        LockedScript {
            options: header.options,
            lines,
        }
    }
}

/// A builder of caches that a script's calls are made on.
type ScriptBuilder<A> = CacheBuilder<u64, Stored<Text<A>>, UnitWeight, A>;

/// A cache that a script's calls are made on.
type ScriptCache<W, A> = Cache<u64, Stored<Text<A>>, KeyState, AnyPair, W, A>;

/// Builds a cache with the settings, makes the calls of the lines in turn on it, and writes the replies. If the settings are
/// refused, that is all that is written.
pub(super) fn locked_replies<A: Allocator + Clone + Drop, R: Wait>(
    alloc: A,
    rt: &R,
    script: LockedScript<A>,
) -> Result<Vec<u8, A>, OutOfMemory> {
    let builder = builder_of(alloc.clone()?, script.options);
    if script.options.weighed {
        return match builder.weigher(StoredWeight).build_with_hasher(KeyState) {
            Ok(cache) => replies_of(alloc, rt, &cache, script.lines),
            Err(error) => refusal(alloc, error),
        };
    }
    match builder.build_with_hasher(KeyState) {
        Ok(cache) => replies_of(alloc, rt, &cache, script.lines),
        Err(error) => refusal(alloc, error),
    }
}

/// Makes a builder with the limits of the settings.
fn builder_of<A: Allocator + Clone + Drop>(alloc: A, options: CacheOptions) -> ScriptBuilder<A> {
    let mut builder = CacheBuilder::default(alloc);
    if let Some(max) = options.max {
        builder = builder.max_capacity(max);
    }
    if let Some(live) = options.live {
        builder = builder.time_to_live(live.to_duration());
    }
    if let Some(idle) = options.idle {
        builder = builder.time_to_idle(idle.to_duration());
    }
    builder
}

/// Makes the calls of the lines in turn on the cache, and writes the replies.
fn replies_of<A: Allocator + Clone + Drop, R: Wait, W: WeighShared<u64, Stored<Text<A>>>>(
    alloc: A,
    rt: &R,
    cache: &ScriptCache<W, A>,
    lines: Vec<Line<Text<A>>, A>,
) -> Result<Vec<u8, A>, OutOfMemory>
    requires ready { W.ready cache.now.weigher }
    requires allowed { AllByRecursion (λ line. IsTrue (allows Mode.Sync line.request)) lines.items }
{
    let mut text = Vec::new(alloc);
    push_reply(&mut text, ReplyValue::Ready)?;
    for line in lines {
        reply_to(rt, cache, &mut text, line)?;
    }
    Ok(text)
}

/// Makes the call of a line, and adds the line of its reply to the text.
fn reply_to<A: Allocator + Clone + Drop, R: Wait, W: WeighShared<u64, Stored<Text<A>>>>(
    rt: &R,
    cache: &ScriptCache<W, A>,
    text: &mut Vec<u8, A>,
    line: Line<Text<A>>,
) -> Result<(), AllocError>
    requires ready { W.ready cache.now.weigher }
    requires allowed { IsTrue (allows Mode.Sync line.request) }
{
    let now = Instant::from_nanos(line.now);
    match line.request {
        // Lines of this mode have no time to live of their own.
        Request::Insert {
            key,
            text: value,
            weight,
            ..
        } => {
            let inserted = cache.insert(rt, key, stored_text(value, weight), now);
            push_reply(text, told(inserted))
        }
        Request::Get { key } => tell_found(text, cache.get(rt, &key, now)),
        Request::ContainsKey { key } => push_reply(
            text,
            ReplyValue::Truth(cache.contains_key(rt, &key, now)),
        ),
        Request::Invalidate { key } => {
            cache.invalidate(rt, &key, now);
            push_reply(text, ReplyValue::Done)
        }
        Request::Remove { key } => tell_found(text, cache.remove(rt, &key, now)),
        Request::InvalidateAll => {
            cache.invalidate_all(now);
            push_reply(text, ReplyValue::Done)
        }
        Request::Modify { .. } | Request::RemoveExpired | Request::InvalidateIf { .. } =>
            unreachable!(),
        Request::Sync => {
            cache.sync(rt, now);
            push_reply(text, ReplyValue::Done)
        }
        Request::Iter => match cache.iter(rt, now) {
            Ok(entries) => list(text, entries),
            Err(_) => push_reply(text, ReplyValue::OutOfMemory),
        },
        Request::EntryCount => push_reply(text, ReplyValue::Number(cache.entry_count() as u128)),
        Request::WeightedSize => push_reply(
            text,
            ReplyValue::Number(cache.weighted_size() as u128),
        ),
        Request::Policy => push_reply(text, ReplyValue::Limits(&cache.policy())),
    }
}

/// Adds the line of a value that was found, or removed, to the text.
fn tell_found<A: Allocator + Clone + Drop>(
    text: &mut Vec<u8, A>,
    found: Result<Option<Stored<Text<A>>>, OutOfMemory>,
) -> Result<(), AllocError> {
    match found {
        Ok(Some(stored)) => push_reply(text, ReplyValue::Found(Some(stored.text.as_bytes()))),
        Ok(None) => push_reply(text, ReplyValue::Found(None)),
        Err(_) => push_reply(text, ReplyValue::OutOfMemory),
    }
}

/// Adds the line of the pairs that a snapshot gives, by rising key, to the text.
fn list<A: Allocator + Clone + Drop>(
    text: &mut Vec<u8, A>,
    entries: Iter<u64, Stored<Text<A>>, A>,
) -> Result<(), AllocError> {
    let alloc = text.allocator().clone()?;
    let entries: Vec<EntryRef<u64, Stored<Text<A>>, A>, A> = entries.collect(alloc)?;
    let mut pairs = pairs_of(text.allocator().clone()?, &entries)?;
    pairs.sort_unstable_by_key(|pair| pair.0);
    push_reply(text, ReplyValue::Pairs(&pairs))
}

/// Returns the keys of the entries with the texts of their values.
fn pairs_of<'a, A: Allocator + Clone + Drop>(
    alloc: A,
    entries: &'a [EntryRef<u64, Stored<Text<A>>, A>],
) -> Result<Vec<(u64, &'a [u8]), A>, AllocError> {
    let mut pairs = Vec::new(alloc);
    for entry in entries {
        pairs.push((*entry.key(), entry.value().text.as_bytes()))?;
    }
    Ok(pairs)
}

/// Returns the reply to an insert.
fn told(inserted: Result<(), InsertError>) -> ReplyValue<'static> {
    match inserted {
        Ok(()) => ReplyValue::Done,
        Err(InsertError::TicketsUsedUp) => ReplyValue::TicketsUsedUp,
        Err(InsertError::OutOfMemory) => ReplyValue::OutOfMemory,
    }
}
