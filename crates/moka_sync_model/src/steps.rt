//! Whole calls over any cache that takes their atomic steps: the core, or one behind locks.
ghost use Rattle.std.specs.Prelude.{◌≡◌, ℕ, Bool, true, false};
ghost use Rattle.moka_sync_model.specs.declared.event.Event.{Event as StepEvent};
ghost use Rattle.moka_sync_model.specs.Reply.{Reply as StepReply};
ghost use Rattle.moka_sync_model.specs.WholeCall.{Log, CallsContains, CallsInsert, CallsInvalidate, CallsInvalidateAll};
ghost use Rattle.moka_sync_model.specs.WholeCall.{CallsSync, Maintains, MaintainsIfDue, PushesRead, PushesWrite, Turns};
ghost use Rattle.moka_sync_model.specs.Steps.{ARead, AWrite, AnswersGet, AnswersRemove, Caller, Takes, TakesTurns, at_rest, get_reply, goes_on};
ghost use Rattle.moka_sync_model.specs.Steps.{handed_by, insert_reply, left_by_get, left_by_insert, left_by_invalidate, left_by_push, left_by_take};
ghost use Rattle.moka_sync_model.specs.Steps.{log_of, maintaining, pends, pends_by, read_reply, write_reply};

use crate::constants::CALLER;
use crate::event::{Event, Reply};
use crate::phase::Phase;
use moka_common::error::{InsertError, OutOfMemory};
use moka_common::shared::Shared;
use moka_common::time::Instant;
use std::alloc::Allocator;
use std::sync::Wait;

/// Which log a call looks at before it pushes to it.
#[derive(Clone, Copy, Debug, PartialEq, Eq)]
pub enum WhichLog {
    Reads,
    Writes,
}

/// The end of a pending read.
#[derive(Clone, Copy, Debug, PartialEq, Eq)]
pub enum ReadPush {
    Pushed,
    /// The read log was full, and the read is dropped.
    Discarded,
}

/// The end of a pending write.
#[derive(Clone, Copy, Debug, PartialEq, Eq)]
pub enum WritePush {
    Pushed,
    /// The write log is full, and the write is still pending.
    Full,
}

/// The atomic steps of one caller on a cache, one method each. Between two of them other callers of the same cache may take steps of theirs.
///
/// An implementer says by ghosts what its steps may reply and leave (`allowed`), what a look at a log and at the time decides (`decides`), what the
/// caller has under way (`caller`), and which pairs it takes (`accepts`). A method that waits for a lock takes the runtime; it promises what it
/// says only if it returns.
pub trait Steps<K: Drop, V: Drop, A: Allocator + Drop> {
    // What a step may reply to an event, and leave.
    ghost allowed: { Self → StepEvent K V → StepReply K V → Self → Type 0 };

    // What a look at a log at a moment may decide, and leave.
    ghost decides: { Self → Log → ℕ → Bool → Self → Type 0 };

    // What the caller has under way.
    ghost caller: { Self → Caller };

    // The pair may be inserted.
    ghost accepts: { Self → K → V → Type 0 };

    /// The key as it stores it: as a rule a shared pointer, so that a step takes it whole and makes none under a lock.
    type Key: Drop;

    /// The value as it stores it.
    type Value: Drop;

    // The key that is stored so.
    ghost key_of: { Self.Key → K };

    // The value that is.
    ghost value_of: { Self.Value → V };

    /// Puts the pair into the map. A write is pending then, unless it was refused.
    fn insert<R: Wait>(
        &mut self,
        rt: &R,
        key: Self::Key,
        value: Self::Value,
        now: Instant,
    ) -> Result<(), InsertError>
        requires accepts { accepts self.old (key_of key) (value_of value) }
        requires rest { caller self.old ≡ at_rest }
        ensures step { allowed self.old (Event.Insert CALLER (key_of key) (value_of value) now) (insert_reply result) self.new }
        ensures caller { caller self.new ≡ pends (left_by_insert result) };

    /// Finds the unexpired value of a key. A read is pending then, unless it was refused.
    fn get<R: Wait>(
        &mut self,
        rt: &R,
        key: &K,
        now: Instant,
    ) -> Result<Option<Shared<V, A>>, OutOfMemory>
        requires { caller self.old ≡ at_rest }
        ensures step { allowed self.old (Event.Get CALLER key.now now) (get_reply result) self.new }
        ensures caller { caller self.new ≡ pends (left_by_get result) };

    /// Looks if a key has an unexpired value.
    fn contains_key<R: Wait>(&mut self, rt: &R, key: &K, now: Instant) -> bool
        ensures step { allowed self.old (Event.Contains key.now now) (Reply.Bool result) self.new }
        ensures caller { caller self.new ≡ caller self.old };

    /// Takes the entry of a key out of the map, and says whether there was one: a write is pending then.
    fn invalidate<R: Wait>(&mut self, rt: &R, key: &K, now: Instant) -> bool
        requires { caller self.old ≡ at_rest }
        ensures step { allowed self.old (Event.Invalidate CALLER key.now now) Reply.Done self.new }
        ensures caller { caller self.new ≡ pends (left_by_invalidate result) };

    /// Hides all entries from before this moment.
    fn invalidate_all(&mut self, now: Instant)
        ensures step { allowed self.old (Event.InvalidateAll now) Reply.Done self.new }
        ensures caller { caller self.new ≡ caller self.old };

    /// Puts the pending read into its log.
    fn push_read<R: Wait>(&mut self, rt: &R) -> ReadPush
        requires { caller self.old ≡ pends ARead }
        ensures step { allowed self.old (Event.Push CALLER) (read_reply result) self.new }
        ensures caller { caller self.new ≡ at_rest };

    /// Puts the pending write into its log, if that isn't full.
    fn push_write<R: Wait>(&mut self, rt: &R) -> WritePush
        requires { caller self.old ≡ pends AWrite }
        ensures step { allowed self.old (Event.Push CALLER) (write_reply result) self.new }
        ensures caller { caller self.new ≡ pends (left_by_push result) };

    /// Drops the pending read.
    fn forget(&mut self)
        requires { caller self.old ≡ pends ARead }
        ensures step { allowed self.old (Event.Forget CALLER) Reply.Done self.new }
        ensures caller { caller self.new ≡ at_rest };

    /// Returns `true` if the caller is to run a maintenance at once. One is due by this log's length or by time then, and nobody else runs one. The cache may
    /// answer `false` to others until the caller's maintenance has ended.
    fn decide(&mut self, log: WhichLog, now: Instant) -> bool
        requires { (caller self.old).is_maintaining ≡ false }
        ensures decision { decides self.old (log_of log) now result self.new }
        ensures caller { caller self.new ≡ caller self.old };

    /// Begins a maintenance, which is the caller's until its last turn.
    fn begin<R: Wait>(&mut self, rt: &R, now: Instant)
        requires { (caller self.old).is_maintaining ≡ false }
        ensures step { allowed self.old (Event.Begin now) Reply.Done self.new }
        ensures caller { caller self.new ≡ maintaining true (caller self.old) };

    /// Goes on with the caller's maintenance by one turn, or by several that follow each other at once, and says where it is then. At `Idle` it has
    /// ended.
    fn turn<R: Wait>(&mut self, rt: &R) -> Phase
        requires { (caller self.old).is_maintaining ≡ true }
        ensures turns { TakesTurns allowed result self.old self.new }
        ensures caller { caller self.new ≡ maintaining (goes_on result) (caller self.old) };
}

/// The steps of a cache that can also take an entry out and hand its value back. What it hands back is the implementer's to say: what it has stored of
/// the value, or a clone that is made before the entry leaves.
pub trait TakingSteps<K: Drop, V: Drop, A: Allocator + Drop>: Steps<K, V, A> {
    /// The value as it is handed back.
    type Taken: Drop;

    // That is handed back for this value.
    ghost is_taken: { V → Self.Taken → Type 0 };

    // To hand this value back is never refused.
    ghost is_sure: { V → Type 0 };

    /// Takes the entry of a key out of the map. It hands the value back where that is unexpired, and says whether there was an entry: a write is pending
    /// then. If it is refused, the entry stays.
    fn take<R: Wait>(
        &mut self,
        rt: &R,
        key: &K,
        now: Instant,
    ) -> Result<(Option<Self::Taken>, bool), OutOfMemory>
        requires { Self.caller self.old ≡ at_rest }
        ensures step { Takes Self.allowed Self.decides Self.caller is_taken is_sure key.now now (handed_by result) self.old self.new }
        ensures caller { Self.caller self.new ≡ pends (left_by_take result) };
}

/// Puts a pair into the cache; a pair of an equal key gives way. It is refused for want of memory, or if the key's shard has given out all its
/// tickets, and then the cache takes no other step.
pub fn insert<K: Drop, V: Drop, A: Allocator + Drop, T: Steps<K, V, A>, R: Wait>(
    rt: &R,
    steps: &mut T,
    key: T::Key,
    value: T::Value,
    now: Instant,
) -> Result<(), InsertError>
    requires accepts { T.accepts steps.old (T.key_of key) (T.value_of value) }
    requires rest { T.caller steps.old ≡ at_rest }
    ensures call { CallsInsert T.allowed T.decides (pends_by T.caller) CALLER (T.key_of key) (T.value_of value) now (insert_reply result) steps.old steps.new }
    ensures rest { T.caller steps.new ≡ at_rest }
{
    steps.insert(rt, key, value, now)?;
    push_write(rt, steps, now);
    Ok(())
}

/// Returns a clone of a key's unexpired value, made while no lock is held. If memory for the look-up is refused, nothing follows. If it is refused for the
/// clone, the cache forgets the get.
pub fn get<K: Drop, V: Clone, A: Allocator + Drop, T: Steps<K, V, A>, R: Wait>(
    rt: &R,
    steps: &mut T,
    key: &K,
    now: Instant,
) -> Result<Option<V>, OutOfMemory>
    requires { T.caller steps.old ≡ at_rest }
    ensures call { AnswersGet T.allowed T.decides T.caller V.is_clone V.is_infallible key.now now result steps.old steps.new }
    ensures rest { T.caller steps.new ≡ at_rest }
{
    let mut found = None;
    if let Some(value) = steps.get(rt, key, now)? {
        let copy: Result<_, _> = value.get().clone();
        // Others count the value too: it is let go of before the log is seen to, which may take a maintenance.
        drop(value);
        let Ok(copy) = copy else {
            steps.forget();
            return Err(OutOfMemory);
        };
        found = Some(copy);
    }
    push_read(rt, steps, now);
    Ok(found)
}

/// Looks if a key has an unexpired value. It leaves nothing behind.
pub fn contains_key<K: Drop, V: Drop, A: Allocator + Drop, T: Steps<K, V, A>, R: Wait>(
    rt: &R,
    steps: &mut T,
    key: &K,
    now: Instant,
) -> bool
    ensures call { CallsContains T.allowed T.decides (pends_by T.caller) CALLER key.now now (Reply.Bool result) steps.old steps.new }
    ensures rest { T.caller steps.new ≡ T.caller steps.old }
{
    steps.contains_key(rt, key, now)
}

/// Takes the pair of a key out of the cache.
pub fn invalidate<K: Drop, V: Drop, A: Allocator + Drop, T: Steps<K, V, A>, R: Wait>(
    rt: &R,
    steps: &mut T,
    key: &K,
    now: Instant,
)
    requires { T.caller steps.old ≡ at_rest }
    ensures call { CallsInvalidate T.allowed T.decides (pends_by T.caller) CALLER key.now now Reply.Done steps.old steps.new }
    ensures rest { T.caller steps.new ≡ at_rest }
{
    if steps.invalidate(rt, key, now) {
        push_write(rt, steps, now);
    }
}

/// Takes the pair of a key out of the cache, and hands its value back if that is unexpired. If memory for that is refused, the cache takes no
/// other step.
pub fn remove<K: Drop, V: Drop, A: Allocator + Drop, T: TakingSteps<K, V, A>, R: Wait>(
    rt: &R,
    steps: &mut T,
    key: &K,
    now: Instant,
) -> Result<Option<T::Taken>, OutOfMemory>
    requires { T.caller steps.old ≡ at_rest }
    ensures call { AnswersRemove T.allowed T.decides T.caller T.is_taken T.is_sure key.now now result steps.old steps.new }
    ensures rest { T.caller steps.new ≡ at_rest }
{
    let (handed, has_left) = steps.take(rt, key, now)?;
    if has_left {
        push_write(rt, steps, now);
    }
    Ok(handed)
}

/// Hides all pairs from before this moment.
pub fn invalidate_all<K: Drop, V: Drop, A: Allocator + Drop, T: Steps<K, V, A>>(
    steps: &mut T,
    now: Instant,
)
    ensures call { CallsInvalidateAll T.allowed T.decides (pends_by T.caller) CALLER now Reply.Done steps.old steps.new }
    ensures rest { T.caller steps.new ≡ T.caller steps.old }
{
    steps.invalidate_all(now);
}

/// Runs a whole maintenance, whether or not one is due.
pub fn sync<K: Drop, V: Drop, A: Allocator + Drop, T: Steps<K, V, A>, R: Wait>(
    rt: &R,
    steps: &mut T,
    now: Instant,
)
    requires { T.caller steps.old ≡ at_rest }
    ensures call { CallsSync T.allowed T.decides (pends_by T.caller) CALLER now Reply.Done steps.old steps.new }
    ensures rest { T.caller steps.new ≡ at_rest }
{
    maintain(rt, steps, now);
}

/// Runs a maintenance if one is due, and then pushes the pending read to its log.
#[inline(always)]
fn push_read<K: Drop, V: Drop, A: Allocator + Drop, T: Steps<K, V, A>, R: Wait>(
    rt: &R,
    steps: &mut T,
    now: Instant,
)
    requires { T.caller steps.old ≡ pends ARead }
    ensures call { PushesRead T.allowed T.decides (pends_by T.caller) CALLER now steps.old steps.new }
    ensures rest { T.caller steps.new ≡ at_rest }
{
    maintain_if_due(rt, steps, WhichLog::Reads, now);
    let _ = steps.push_read(rt);
}

/// Runs a maintenance if one is due, and then pushes the pending write to its log, and does both again while the log is full.
fn push_write<K: Drop, V: Drop, A: Allocator + Drop, T: Steps<K, V, A>, R: Wait>(
    rt: &R,
    steps: &mut T,
    now: Instant,
)
    requires { T.caller steps.old ≡ pends AWrite }
    ensures call { PushesWrite T.allowed T.decides (pends_by T.caller) CALLER now steps.old steps.new }
    ensures rest { T.caller steps.new ≡ at_rest }
{
    for _ in rt.forever() {
        maintain_if_due(rt, steps, WhichLog::Writes, now);
        if let WritePush::Pushed = steps.push_write(rt) {
            return;
        }
    }
    unreachable!()
}

/// Runs a whole maintenance if the cache decides that the caller is to run one.
#[inline(always)]
fn maintain_if_due<K: Drop, V: Drop, A: Allocator + Drop, T: Steps<K, V, A>, R: Wait>(
    rt: &R,
    steps: &mut T,
    log: WhichLog,
    now: Instant,
)
    requires { (T.caller steps.old).is_maintaining ≡ false }
    ensures call { MaintainsIfDue T.allowed T.decides (pends_by T.caller) CALLER (log_of log) now steps.old steps.new }
    ensures caller { T.caller steps.new ≡ T.caller steps.old }
{
    if steps.decide(log, now) {
        maintain(rt, steps, now);
    }
}

/// Runs a whole maintenance.
#[cold]
#[inline(never)]
fn maintain<K: Drop, V: Drop, A: Allocator + Drop, T: Steps<K, V, A>, R: Wait>(
    rt: &R,
    steps: &mut T,
    now: Instant,
)
    requires { (T.caller steps.old).is_maintaining ≡ false }
    ensures call { Maintains T.allowed T.decides (pends_by T.caller) CALLER now steps.old steps.new }
    ensures caller { T.caller steps.new ≡ T.caller steps.old }
{
    steps.begin(rt, now);
    finish(rt, steps);
}

/// Turns until the caller's maintenance has ended.
fn finish<K: Drop, V: Drop, A: Allocator + Drop, T: Steps<K, V, A>, R: Wait>(rt: &R, steps: &mut T)
    requires { (T.caller steps.old).is_maintaining ≡ true }
    ensures turns { Turns T.allowed T.decides (pends_by T.caller) CALLER steps.old steps.new }
    ensures caller { T.caller steps.new ≡ maintaining false (T.caller steps.old) }
{
    for _ in rt.forever() {
        if let Phase::Idle = steps.turn(rt) {
            return;
        }
    }
    unreachable!()
}
