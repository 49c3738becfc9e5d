//! Calls as data, and lists of them made in turn.
ghost use Rattle.std.specs.Prelude.{◌≡◌, List, option_copied, IfOk, OnErr};
ghost use Rattle.moka_common.specs.Keys.{keys_by};
ghost use Rattle.moka_unsync.specs.Runs.{AreServed, IsServed, TellsFound};
ghost use Rattle.moka_unsync_model.specs.Step.{Answer, Request, Runs};

use crate::cache::Cache;
use crate::error::TimedInsertError;
use moka_common::error::OutOfMemory;
use moka_common::time::Instant;
use moka_common::weigh::Weigh;
use std::alloc::{Allocator, Global};
use std::hash::{BuildHasher, Hash};
use std::rc::Rc;
use std::time::Duration;

/// A call of a cache, which `run` makes. A value is shared, so that a reply can have it beside the cache.
#[derive(Debug, Drop)]
pub enum Call<K: Drop, V: Drop, A: Allocator + Drop = Global> {
    Get {
        key: K,
        now: Instant,
    },
    Peek {
        key: K,
        now: Instant,
    },
    Contains {
        key: K,
        now: Instant,
    },
    Insert {
        key: K,
        value: Rc<V, A>,
        now: Instant,
    },
    InsertWithTimeToLive {
        key: K,
        value: Rc<V, A>,
        time_to_live: Duration,
        now: Instant,
    },
    /// As `modify` with a function that puts this value in place of the key's. The reply is `Bool(true)` if the key has one, else `Bool(false)`.
    Modify {
        key: K,
        value: Rc<V, A>,
        now: Instant,
    },
    /// As `get_or_insert_with`: the value is what is inserted if the key has none.
    GetOrInsert {
        key: K,
        value: Rc<V, A>,
        now: Instant,
    },
    Invalidate {
        key: K,
        now: Instant,
    },
    /// The reply has the value as the cache had it: no owner is added.
    Remove {
        key: K,
        now: Instant,
    },
    InvalidateAll,
    RemoveExpired {
        now: Instant,
    },
    EntryCount,
    WeightedSize,
}

/// The reply to a call of `run`.
#[derive(Debug, Drop)]
pub enum Reply<V: Drop, A: Allocator + Drop = Global> {
    Found(Option<Rc<V, A>>),
    Bool(bool),
    Done,
    Number(u64),
    /// The cache has no time to live, so an insert with one of its own changed nothing.
    NoTimeToLive,
    /// Memory was refused, for an insert or for one more owner of a value. A refused insert changes nothing but the capacity. If a `get`, `peek` or
    /// `get_or_insert_with` can't share its value, the look-up is done and nothing is inserted.
    OutOfMemory,
}

/// Makes the calls in turn, and returns their replies. If memory for the replies is refused, no call was made.
///
/// It takes the time of the calls, and memory for one reply a call.
///
/// ```
/// let value = Rc::new(alloc, 10)?;
/// let calls = vec![in alloc;
///     unsync::Call::Insert { key: 7, value, now },
///     unsync::Call::Get { key: 7, now },
///     unsync::Call::EntryCount,
/// ]?;
/// let mut cache: Cache<u64, Rc<u32>> = Cache::new(alloc, 100)?;
/// let replies = unsync::run(alloc, &mut cache, calls)?;
/// ```
pub fn run<
    K: Eq + Hash + Drop,
    V: Drop,
    S: BuildHasher + Drop,
    W: Weigh<K, Rc<V, A>>,
    A: Allocator + Clone + Drop,
>(
    alloc: A,
    cache: &mut Cache<K, Rc<V, A>, S, W, A>,
    calls: Vec<Call<K, V, A>, A>,
) -> Result<Vec<Reply<V, A>, A>, OutOfMemory>
    requires ready { W.ready cache.old.weigher }
    ensures ok { IfOk result (λ replies. (requests : List (Request K (Rc V A))) × (answers : List (Answer K (Rc V A)))
        × Runs (keys_by K.Hash S.BuildHasher S.Hasher.Hasher) W.weighs cache.old requests answers cache.new
        × AreServed calls.items requests answers replies.items) }
    ensures err { OnErr result (cache.new ≡ cache.old) }
    ensures ready { W.ready cache.new.weigher }
{
    let mut replies = Vec::with_capacity(alloc, calls.len())?;
    for call in calls {
        replies.push_reserved(reply_to(cache, call));
    }
    Ok(replies)
}

/// Makes a call and returns its reply.
fn reply_to<
    K: Eq + Hash + Drop,
    V: Drop,
    S: BuildHasher + Drop,
    W: Weigh<K, Rc<V, A>>,
    A: Allocator + Clone + Drop,
>(cache: &mut Cache<K, Rc<V, A>, S, W, A>, call: Call<K, V, A>) -> Reply<V, A>
    requires ready { W.ready cache.old.weigher }
    ensures step { (asked : List (Request K (Rc V A))) × (answers : List (Answer K (Rc V A)))
        × Runs (keys_by K.Hash S.BuildHasher S.Hasher.Hasher) W.weighs cache.old asked answers cache.new
        × IsServed call asked answers result }
    ensures ready { W.ready cache.new.weigher }
{
    match call {
        Call::Get { key, now } => try_clone(cache.get(&key, now)),
        Call::Peek { key, now } => try_clone(cache.peek(&key, now)),
        Call::Contains { key, now } => Reply::Bool(cache.contains_key(&key, now)),
        Call::Insert { key, value, now } => match cache.insert(key, value, now) {
            Ok(()) => Reply::Done,
            Err(_) => Reply::OutOfMemory,
        },
        Call::InsertWithTimeToLive {
            key,
            value,
            time_to_live,
            now,
        } => match cache.insert_with_time_to_live(key, value, time_to_live, now) {
            Ok(()) => Reply::Done,
            Err(TimedInsertError::NoTimeToLive) => Reply::NoTimeToLive,
            Err(TimedInsertError::OutOfMemory) => Reply::OutOfMemory,
        },
        Call::Modify { key, value, now } => {
            Reply::Bool(cache.modify(&key, now, |old: &mut Rc<V, A>| *old = value))
        }
        Call::GetOrInsert { key, value, now } => {
            match cache.get_or_insert_with(key, now, || value) {
                Ok(copy) => Reply::Found(Some(copy)),
                Err(_) => Reply::OutOfMemory,
            }
        }
        Call::Invalidate { key, now } => {
            cache.invalidate(&key, now);
            Reply::Done
        }
        Call::Remove { key, now } => Reply::Found(cache.remove(&key, now)),
        Call::InvalidateAll => {
            cache.invalidate_all();
            Reply::Done
        }
        Call::RemoveExpired { now } => {
            cache.remove_expired(now);
            Reply::Done
        }
        Call::EntryCount => Reply::Number(cache.entry_count()),
        Call::WeightedSize => Reply::Number(cache.weighted_size()),
    }
}

/// Makes one more owner of what was found.
fn try_clone<V: Drop, A: Allocator + Drop>(found: Option<&Rc<V, A>>) -> Reply<V, A>
    ensures { TellsFound (option_copied found.entry) result }
{
    match found {
        Some(value) => match Rc::clone(value) {
            Ok(copy) => Reply::Found(Some(copy)),
            Err(_) => Reply::OutOfMemory,
        },
        None => Reply::Found(None),
    }
}
