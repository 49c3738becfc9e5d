//! The replies to a recorded script: its calls, made on a cache that keeps a record of them.
ghost use Rattle.std.specs.Prelude.{◌≡◌, ◌++◌, ℕ, List, Some, IfOk, OnOk, IsTrue};
ghost use Rattle.std.specs.List.{AllByRecursion};
ghost use Rattle.moka_sync_model.specs.CoreState.{IsNew};
ghost use Rattle.moka_grammar.specs.Lines.{allows, LineFits};
ghost use Rattle.moka_record.specs.Record.{IsAnswer, new_record};
ghost use Rattle.moka_script.specs.RecordedRun.{AreRecordedReplyLines, AreReplies, IsAnswered, asked_of, call_at, told};
ghost use Rattle.moka_script.specs.Reply.{Ready, Reply as Told, reply_line};
ghost use Rattle.moka_script.specs.ReplyValue.{reply_of};

use crate::first_core::{ScriptCore, first_core};
use crate::keys::KeyState;
use crate::reply::{ReplyValue, push_reply, refusal};
use crate::stored::{Stored, StoredWeight, stored_text};
use moka_common::error::OutOfMemory;
use moka_common::shared::Shared;
use moka_common::time::Instant;
use moka_common::weigh::UnitWeight;
use moka_grammar::line::{CacheHeader, Line, Mode, Request};
use moka_grammar::text::Text;
use moka_record::record::{Answer, NotRecorded, Record, SharedCall};
use moka_sync_model::call::Call;
use moka_sync_model::event::Reply;
use moka_sync_model::weigh::WeighShared;
use std::alloc::Allocator;

/// A cache that a script's calls are made on, with its record.
type ScriptRecord<W, A> = Record<u64, Stored<Text<A>>, KeyState, W, A>;

/// A call of a line.
type ScriptCall<A> = SharedCall<u64, Stored<Text<A>>, A>;

/// The answer to a call.
type ScriptAnswer<A> = Answer<u64, Stored<Text<A>>, A>;

/// Which of the numbers that were published last a line asks for.
#[derive(Clone, Copy, Debug, PartialEq, Eq)]
enum Asked {
    Count,
    Weight,
}

/// Builds a cache with the settings, makes the calls of the lines in turn on it, and writes the replies. If the settings are
/// refused, that is all that is written.
pub fn recorded_replies<A: Allocator + Clone + Drop>(
    alloc: A,
    header: CacheHeader,
    lines: Vec<Line<Text<A>>, A>,
) -> Result<Vec<u8, A>, OutOfMemory>
    requires mode { header.mode ≡ Mode.Recorded }
    requires lines { AllByRecursion (LineFits header) lines.items }
    ensures { IfOk result (λ text. AreRecordedReplyLines A header.options lines.items text.items) }
{
    if header.options.weighed {
        return match first_core(alloc.clone()?, header.options, StoredWeight) {
            Ok(core) => replies_of(alloc, core, lines),
            Err(error) => refusal(alloc, error),
        };
    }
    match first_core(alloc.clone()?, header.options, UnitWeight) {
        Ok(core) => replies_of(alloc, core, lines),
        Err(error) => refusal(alloc, error),
    }
}

/// Makes the calls of the lines in turn on a cache with this core, with a record of them, and writes the replies.
fn replies_of<A: Allocator + Clone + Drop, W: WeighShared<u64, Stored<Text<A>>>>(
    alloc: A,
    core: ScriptCore<W, A>,
    lines: Vec<Line<Text<A>>, A>,
) -> Result<Vec<u8, A>, OutOfMemory>
    requires ready { W.ready core.weigher }
    requires new { IsNew core.state }
    requires allowed { AllByRecursion (λ line. IsTrue (allows Mode.Recorded line.request)) lines.items }
    ensures { IfOk result (λ text. (replies : List ℕ)
        × AreReplies A (W.weighs core.weigher) (new_record core.state) lines.items replies
        × (text.items ≡ reply_line Ready ++ replies)) }
{
    let mut cache = Record::new(alloc.clone()?, core);
    replies_on(alloc, &mut cache, lines)
}

/// Makes the calls of the lines in turn on the cache, and writes the replies.
fn replies_on<A: Allocator + Clone + Drop, W: WeighShared<u64, Stored<Text<A>>>>(
    alloc: A,
    cache: &mut ScriptRecord<W, A>,
    lines: Vec<Line<Text<A>>, A>,
) -> Result<Vec<u8, A>, OutOfMemory>
    requires ready { W.ready cache.old.weigher }
    requires allowed { AllByRecursion (λ line. IsTrue (allows Mode.Recorded line.request)) lines.items }
    ensures { IfOk result (λ text. (replies : List ℕ)
        × AreReplies A (W.weighs cache.old.weigher) cache.old.state lines.items replies
        × (text.items ≡ reply_line Ready ++ replies)) }
{
    let mut text = Vec::new(alloc.clone()?);
    push_reply(&mut text, ReplyValue::Ready)?;
    for line in lines {
        reply_to(alloc.clone()?, cache, &mut text, line)?;
    }
    Ok(text)
}

/// Makes the call of a line, and adds the line of its reply to the text.
fn reply_to<A: Allocator + Clone + Drop, W: WeighShared<u64, Stored<Text<A>>>>(
    alloc: A,
    cache: &mut ScriptRecord<W, A>,
    text: &mut Vec<u8, A>,
    line: Line<Text<A>>,
) -> Result<(), OutOfMemory>
    requires ready { W.ready cache.old.weigher }
    requires allowed { IsTrue (allows Mode.Recorded line.request) }
    ensures step { OnOk result ((reply : Told)
        × IsAnswered A (W.weighs cache.old.weigher) cache.old.state line.now line.request reply cache.new.state
        × (text.new.items ≡ text.old.items ++ reply_line reply)) }
    ensures weigher { cache.new.weigher ≡ cache.old.weigher }
{
    let asked = asked_of(&line.request);
    let call = call_at(alloc, line)?;
    let answer = cache.apply(call);
    push_reply(text, told(asked, &answer))?;
    Ok(())
}

/// Returns the number that a line asks for, if it asks for one.
fn asked_of<T>(request: &Request<T>) -> Asked
    ensures { result ≡ asked_of request.now }
{
    match request {
        Request::WeightedSize => Asked::Weight,
        _ => Asked::Count,
    }
}

/// Returns what a line writes for the answer of a record.
fn told<A: Allocator + Clone + Drop>(
    asked: Asked,
    answer: &Result<ScriptAnswer<A>, NotRecorded>,
) -> ReplyValue<'_>
    requires { IfOk answer.now IsAnswer }
    ensures { reply_of result ≡ told asked answer.now }
{
    match answer {
        Ok(Reply::Done) => ReplyValue::Done,
        Ok(Reply::Found(Some(stored))) => ReplyValue::Found(Some(stored.get().text.as_bytes())),
        Ok(Reply::Found(None)) => ReplyValue::Found(None),
        Ok(Reply::Bool(truth)) => ReplyValue::Truth(*truth),
        Ok(Reply::Counts { count, weight }) => match asked {
            Asked::Count => ReplyValue::Number(*count as u128),
            Asked::Weight => ReplyValue::Number(*weight),
        },
        Ok(Reply::TicketsUsedUp) => ReplyValue::TicketsUsedUp,
        Ok(Reply::OutOfMemory) | Err(_) => ReplyValue::OutOfMemory,
        Ok(Reply::Discarded | Reply::Rows(_) | Reply::At(_) | Reply::NotPossible) => unreachable!(),
    }
}

/// Returns the call that a line asks for.
fn call_at<A: Allocator + Clone + Drop>(
    alloc: A,
    line: Line<Text<A>>,
) -> Result<ScriptCall<A>, OutOfMemory>
    requires { IsTrue (allows Mode.Recorded line.request) }
    ensures { IfOk result (λ call. call_at line.now line.request ≡ Some call) }
{
    let now = Instant::from_nanos(line.now);
    match line.request {
        // Lines of this mode have no time to live of their own.
        Request::Insert {
            key,
            text,
            weight,
            ..
        } => {
            let key = Shared::new(alloc.clone()?, key)?;
            let value = Shared::new(alloc, stored_text(text, weight))?;
            Ok(Call::Insert { key, value, now })
        }
        Request::Get { key } => {
            let key = Shared::new(alloc, key)?;
            Ok(Call::Get { key, now })
        }
        Request::ContainsKey { key } => {
            let key = Shared::new(alloc, key)?;
            Ok(Call::Contains { key, now })
        }
        Request::Invalidate { key } => {
            let key = Shared::new(alloc, key)?;
            Ok(Call::Invalidate { key, now })
        }
        Request::Remove { key } => {
            let key = Shared::new(alloc, key)?;
            Ok(Call::Remove { key, now })
        }
        Request::InvalidateAll => Ok(Call::InvalidateAll { now }),
        Request::Sync => Ok(Call::Sync { now }),
        Request::EntryCount | Request::WeightedSize => Ok(Call::Counts),
        Request::Modify { .. }
        | Request::RemoveExpired
        | Request::InvalidateIf { .. }
        | Request::Iter
        | Request::Policy => unreachable!(),
    }
}
