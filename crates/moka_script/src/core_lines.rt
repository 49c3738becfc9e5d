//! The replies to a core script: its steps, taken on the core of the cache that threads share.
ghost use Rattle.std.specs.Prelude.{◌≡◌, ◌++◌, ◌-◌, ◌^◌, ℕ, List, IfOk, OnOk, map, min};
ghost use Rattle.std.specs.List.{flat_map, list_any};
ghost use Rattle.moka_sync_model.specs.declared.event.Event.TheVariants as event;
ghost use Rattle.moka_sync_model.specs.declared.event.Reply.TheVariants as answer;
ghost use Rattle.moka_sync_model.specs.Run.{Happens};
ghost use Rattle.moka_script.specs.CoreRun.{AreCoreReplyLines, AreReplies, Does, Syncs, action_at, copies, is_refused, pairs_in, told, told_if};
ghost use Rattle.moka_script.specs.Reply.{Ready, Reply as Told, reply_line};
ghost use Rattle.moka_script.specs.ReplyValue.{pairs_of, reply_of};
ghost use Rattle.moka_script.specs.ScriptKeys.{script_keys};

use crate::first_core::{ScriptCore, first_core};
use crate::reply::{ReplyValue, push_reply, refusal};
use crate::stored::{Stored, StoredWeight, stored_text};
use moka_common::error::OutOfMemory;
use moka_common::shared::Shared;
use moka_common::time::Instant;
use moka_common::weigh::UnitWeight;
use moka_core::rows::Rows;
use moka_grammar::line::{CacheOptions, CoreLine, CoreRequest};
use moka_grammar::text::Text;
use moka_sync_model::constants::SHARDS;
use moka_sync_model::event::{Event, Reply};
use moka_sync_model::weigh::WeighShared;
use std::alloc::{AllocError, Allocator};

/// A step of a line.
type ScriptEvent<A> = Event<Shared<u64, A>, Shared<Stored<Text<A>>, A>>;

/// The reply to a step.
type ScriptReply<A> = Reply<Shared<Stored<Text<A>>, A>, Rows<u64, Stored<Text<A>>, A>>;

/// The action of a line. `E` is how a step is held.
#[derive(Drop)]
enum Action<E: Drop> {
    /// One step.
    Step(E),
    /// Turns, until no maintenance is under way.
    Rest,
    /// A whole maintenance.
    Sync(Instant),
    /// A copy of each shard.
    Iterate(Instant),
    /// The number of charged entries.
    Count,
    /// The charged weight.
    Weigh,
}

/// Builds a core with the settings, takes the steps of the lines in turn on it, and writes the replies. If the settings are
/// refused, that is all that is written.
pub fn core_replies<A: Allocator + Clone + Drop>(
    alloc: A,
    options: CacheOptions,
    lines: Vec<CoreLine<Text<A>>, A>,
) -> Result<Vec<u8, A>, OutOfMemory>
    ensures { IfOk result (λ text. AreCoreReplyLines options lines.items text.items) }
{
    if options.weighed {
        return match first_core(alloc.clone()?, options, StoredWeight) {
            Ok(mut core) => replies_of(alloc, &mut core, lines),
            Err(error) => refusal(alloc, error),
        };
    }
    match first_core(alloc.clone()?, options, UnitWeight) {
        Ok(mut core) => replies_of(alloc, &mut core, lines),
        Err(error) => refusal(alloc, error),
    }
}

/// Takes the steps of the lines in turn on the core, and writes the replies.
fn replies_of<A: Allocator + Clone + Drop, W: WeighShared<u64, Stored<Text<A>>>>(
    alloc: A,
    core: &mut ScriptCore<W, A>,
    lines: Vec<CoreLine<Text<A>>, A>,
) -> Result<Vec<u8, A>, OutOfMemory>
    requires ready { W.ready core.old.weigher }
    ensures { IfOk result (λ text. (replies : List ℕ)
        × AreReplies (W.weighs core.old.weigher) core.old.state lines.items replies
        × (text.items ≡ reply_line Ready ++ replies)) }
{
    let mut text = Vec::new(alloc.clone()?);
    push_reply(&mut text, ReplyValue::Ready)?;
    for line in lines {
        reply_to(alloc.clone()?, core, &mut text, line)?;
    }
    Ok(text)
}

/// Does what a line asks for, and adds the line of its reply to the text.
fn reply_to<A: Allocator + Clone + Drop, W: WeighShared<u64, Stored<Text<A>>>>(
    alloc: A,
    core: &mut ScriptCore<W, A>,
    text: &mut Vec<u8, A>,
    line: CoreLine<Text<A>>,
) -> Result<(), OutOfMemory>
    requires ready { W.ready core.old.weigher }
    ensures step { OnOk result ((reply : Told)
        × Does (W.weighs core.old.weigher) core.old.state (action_at line.now line.request) reply core.new.state
        × (text.new.items ≡ text.old.items ++ reply_line reply)) }
    ensures weigher { core.new.weigher ≡ core.old.weigher }
{
    match action_of(alloc.clone()?, line)? {
        Action::Step(event) => {
            let answer = step(alloc, core, event)?;
            push_reply(text, told(&answer))?;
        }
        Action::Rest => push_reply(text, told_if(core.finish()))?,
        Action::Sync(now) => {
            let done = sync(alloc, core, now)?;
            push_reply(text, told_if(done))?;
        }
        Action::Iterate(now) => list(alloc, core, text, now)?,
        Action::Count => {
            let (count, _) = charged(alloc, core)?;
            push_reply(text, ReplyValue::Number(count as u128))?;
        }
        Action::Weigh => {
            let (_, weight) = charged(alloc, core)?;
            push_reply(text, ReplyValue::Number(told_weight(weight)))?;
        }
    }
    Ok(())
}

/// Returns the action of a line.
fn action_of<A: Allocator + Clone + Drop>(
    alloc: A,
    line: CoreLine<Text<A>>,
) -> Result<Action<ScriptEvent<A>>, OutOfMemory>
    ensures { IfOk result (λ action. action ≡ action_at line.now line.request) }
{
    let now = Instant::from_nanos(line.now);
    Ok(match line.request {
        CoreRequest::Insert {
            caller,
            key,
            text,
            weight,
        } => {
            let key = Shared::new(alloc.clone()?, key)?;
            let value = Shared::new(alloc, stored_text(text, weight))?;
            Action::Step(Event::Insert {
                caller,
                key,
                value,
                now,
            })
        }
        CoreRequest::Get { caller, key } => {
            let key = Shared::new(alloc, key)?;
            Action::Step(Event::Get { caller, key, now })
        }
        CoreRequest::ContainsKey { key } => {
            let key = Shared::new(alloc, key)?;
            Action::Step(Event::Contains { key, now })
        }
        CoreRequest::Invalidate { caller, key } => {
            let key = Shared::new(alloc, key)?;
            Action::Step(Event::Invalidate { caller, key, now })
        }
        CoreRequest::Remove { caller, key } => {
            let key = Shared::new(alloc, key)?;
            Action::Step(Event::Take { caller, key, now })
        }
        CoreRequest::InvalidateAll => Action::Step(Event::InvalidateAll { now }),
        CoreRequest::Push { caller } => Action::Step(Event::Push { caller }),
        CoreRequest::Forget { caller } => Action::Step(Event::Forget { caller }),
        CoreRequest::Begin => Action::Step(Event::Begin { now }),
        CoreRequest::Turn => Action::Step(Event::Turn),
        CoreRequest::Rest => Action::Rest,
        CoreRequest::Sync => Action::Sync(now),
        CoreRequest::Iter => Action::Iterate(now),
        CoreRequest::EntryCount => Action::Count,
        CoreRequest::WeightedSize => Action::Weigh,
    })
}

/// Takes one step.
fn step<A: Allocator + Clone + Drop, W: WeighShared<u64, Stored<Text<A>>>>(
    alloc: A,
    core: &mut ScriptCore<W, A>,
    event: ScriptEvent<A>,
) -> Result<ScriptReply<A>, OutOfMemory>
    requires ready { W.ready core.old.weigher }
    ensures step { IfOk result (λ reply. Happens script_keys (W.weighs core.old.weigher)
        core.old.state event reply core.new.state) }
    ensures weigher { core.new.weigher ≡ core.old.weigher }
{
    let events = vec![in alloc; event]?;
    let mut replies = core.run(events)?;
    match replies.pop() {
        Some(reply) => Ok(reply),
        None => unreachable!(),
    }
}

/// Runs a whole maintenance. Returns whether it could begin.
fn sync<A: Allocator + Clone + Drop, W: WeighShared<u64, Stored<Text<A>>>>(
    alloc: A,
    core: &mut ScriptCore<W, A>,
    now: Instant,
) -> Result<bool, OutOfMemory>
    requires ready { W.ready core.old.weigher }
    ensures step { IfOk result (λ done. Syncs (W.weighs core.old.weigher) core.old.state now done core.new.state) }
    ensures weigher { core.new.weigher ≡ core.old.weigher }
{
    let reply = step(alloc, core, Event::Begin { now })?;
    if let Reply::NotPossible = reply {
        return Ok(false);
    }
    Ok(core.finish())
}

/// Returns the charged count and the charged weight.
fn charged<A: Allocator + Clone + Drop, W: WeighShared<u64, Stored<Text<A>>>>(
    alloc: A,
    core: &mut ScriptCore<W, A>,
) -> Result<(usize, u128), OutOfMemory>
    requires ready { W.ready core.old.weigher }
    ensures step { IfOk result (λ charged. Happens script_keys (W.weighs core.old.weigher)
        core.old.state event.Counts (answer.Counts charged.0 charged.1) core.new.state) }
    ensures weigher { core.new.weigher ≡ core.old.weigher }
{
    match step(alloc, core, Event::Counts)? {
        Reply::Counts { count, weight } => Ok((count, weight)),
        _ => unreachable!(),
    }
}

/// Copies all shards, and adds the line of their pairs, or that a copy was refused, to the text.
fn list<A: Allocator + Clone + Drop, W: WeighShared<u64, Stored<Text<A>>>>(
    alloc: A,
    core: &mut ScriptCore<W, A>,
    text: &mut Vec<u8, A>,
    now: Instant,
) -> Result<(), OutOfMemory>
    requires ready { W.ready core.old.weigher }
    ensures step { OnOk result ((reply : Told)
        × Does (W.weighs core.old.weigher) core.old.state (Action.Iterate now) reply core.new.state
        × (text.new.items ≡ text.old.items ++ reply_line reply)) }
    ensures weigher { core.new.weigher ≡ core.old.weigher }
{
    let events = copies(alloc.clone()?, now)?;
    let replies = core.run(events)?;
    if are_refused(&replies) {
        push_reply(text, ReplyValue::OutOfMemory)?;
        return Ok(());
    }
    let mut pairs = pairs_of(alloc, &replies)?;
    pairs.sort_unstable_by_key(|pair| pair.0);
    push_reply(text, ReplyValue::Pairs(&pairs))?;
    Ok(())
}

/// Returns the steps that copy all shards.
fn copies<A: Allocator + Clone + Drop>(
    alloc: A,
    now: Instant,
) -> Result<Vec<ScriptEvent<A>, A>, AllocError>
    ensures { IfOk result (λ events. events.items ≡ copies now) }
{
    let mut events = Vec::new(alloc);
    for shard in 0..SHARDS {
        events.push(Event::Copy { shard, now })?;
    }
    Ok(events)
}

/// Returns `true` if a copy was refused.
fn are_refused<A: Allocator + Clone + Drop>(replies: &[ScriptReply<A>]) -> bool
    ensures { result ≡ list_any is_refused replies.now }
{
    replies.iter().any(|reply| !matches!(reply, Reply::Rows(_)))
}

/// Returns the keys of all copies with their texts.
fn pairs_of<'a, A: Allocator + Clone + Drop>(
    alloc: A,
    replies: &'a [ScriptReply<A>],
) -> Result<Vec<(u64, &'a [u8]), A>, AllocError>
    ensures { IfOk result (λ pairs. pairs_of pairs.items ≡ flat_map pairs_in replies.now) }
{
    let mut pairs = Vec::new(alloc);
    for reply in replies {
        for (key, value) in rows_of(reply) {
            pairs.push((*key.get(), value.get().text.as_bytes()))?;
        }
    }
    Ok(pairs)
}

/// Returns the pairs of a copy.
fn rows_of<A: Allocator + Clone + Drop>(
    reply: &ScriptReply<A>,
) -> &[(Shared<u64, A>, Shared<Stored<Text<A>>, A>)]
    ensures { map (λ p. (p.0, p.1.text)) result.now ≡ pairs_in reply.now }
{
    match reply {
        Reply::Rows(rows) => rows.as_slice(),
        _ => &[],
    }
}

/// Returns what a line writes for the reply to a step. No step of a line is answered by pairs or counts: `list` writes copies, and `charged` counts.
fn told<A: Allocator + Clone + Drop>(reply: &ScriptReply<A>) -> ReplyValue<'_>
    ensures { reply_of result ≡ told reply.now }
{
    match reply {
        Reply::Done => ReplyValue::Done,
        Reply::Found(Some(stored)) => ReplyValue::Found(Some(stored.get().text.as_bytes())),
        Reply::Found(None) => ReplyValue::Found(None),
        Reply::Bool(truth) => ReplyValue::Truth(*truth),
        Reply::Discarded => ReplyValue::Discarded,
        Reply::At(phase) => ReplyValue::At(*phase),
        Reply::NotPossible => ReplyValue::NotPossible,
        Reply::TicketsUsedUp => ReplyValue::TicketsUsedUp,
        Reply::OutOfMemory | Reply::Rows(_) | Reply::Counts { .. } => ReplyValue::OutOfMemory,
    }
}

/// Returns the weight that is written: at most the largest number of 64 bits.
fn told_weight(weight: u128) -> u128
    ensures { result ≡ min weight (2 ^ 64 - 1) }
{
    let largest = u64::MAX as u128;
    if largest < weight { largest } else { weight }
}

/// Returns what a line writes if there was something to do, or not.
fn told_if(done: bool) -> ReplyValue<'static>
    ensures { reply_of result ≡ told_if done }
{
    if done {
        ReplyValue::Done
    } else {
        ReplyValue::NotPossible
    }
}
