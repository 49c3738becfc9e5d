//! Notices that one thread writes and withdraws, and others read, in the cache with logs.
ghost use Rattle.std.specs.Prelude.{◌≡◌, ◌≤◌, IfOk};
ghost use Rattle.mini_moka.specs.Common.Keys.{keys_by};
ghost use Rattle.mini_moka.specs.Sync.History.{place_of};
ghost use Rattle.mini_moka.specs.Sync.Moments.{Appends, latest};
ghost use Rattle.mini_moka.specs.Sync.Own.{FindsFromNote};
ghost use Rattle.mini_moka.specs.Segmented.Visits.{at};

use mini_moka::Error;
use mini_moka::common::time::Instant;
use mini_moka::common::{FixedState, OutOfMemory};
use mini_moka::sync::engine::WeighShared;
use mini_moka::sync::own::learn_and_read;
use mini_moka::sync::{AnyPair, Cache, Note, PairRule, Session};
use std::alloc::Global;
use std::hash::{BuildHasher, Hash};
use std::sync::Wait;
use std::thread::{Builder, Threads};

/// A session of a board of numbers.
type Seat = Session<u64, u64>;

/// A note of what a session of it has seen.
type Seen = Note<u64, u64, FixedState, AnyPair, Global>;

/// Withdraws all notices from before a moment, writes one, and returns a note of both for the readers.
pub fn announce<R: Wait>(
    rt: &R,
    writer: &mut Seat,
    notice: (u64, u64),
    now: Instant,
) -> Result<Seen, Error>
    ensures same { writer.new.cache ≡ writer.old.cache }
    ensures note { IfOk result (λ note. note.id ≡ writer.old.cache.id) }
    ensures withdrawn { IfOk result (λ note. Appends writer.old.moments now note.moments) }
{
    let (board, text) = notice;
    writer.invalidate_all(now);
    writer.insert(rt, board, text, now)?;
    Ok(writer.note())
}

/// Takes in a note, and reads a notice. What it finds is the value last written in a history that goes on from the note: what the reader was told of, or a
/// later one. Nothing is found that was withdrawn before the note was made.
pub fn read_announced<
    K: Eq + Hash + Drop,
    V: Clone + Drop,
    S: BuildHasher + Drop,
    P: PairRule<K, V>,
    W: WeighShared<K, V>,
    R: Wait,
>(
    rt: &R,
    reader: &mut Session<K, V, S, P, W>,
    note: Note<K, V, S, P, Global>,
    board: &K,
    now: Instant,
) -> Result<Option<V>, OutOfMemory>
    requires { note.id ≡ reader.old.cache.id }
    ensures found { IfOk result (λ found. FindsFromNote (keys_by K.Hash S.BuildHasher S.Hasher.Hasher) reader.old.cache.settings V.is_clone
        (at note.seen (place_of (keys_by K.Hash S.BuildHasher S.Hasher.Hasher) reader.old.cache.settings board.now)) board.now now
        (latest reader.new.moments) found) }
    ensures hidden { latest note.moments ≤ latest reader.new.moments }
{
    match learn_and_read(rt, reader, note, board, now) {
        Some(found) => Ok(found),
        None => Err(OutOfMemory),
    }
}

/// Reads a notice, in a thread and its caller, that a writer has told them of. Returns the sum of what they find, and what is left of an older notice.
pub fn announced_to_threads<R: Wait + Threads + Copy + Send + 'static>(
    rt: R,
    alloc: Global,
) -> Result<(u64, Option<u64>), Error> {
    let cache: Cache<u64, u64> = Cache::new(alloc, 100)?;
    let mut writer = cache.session()?;
    writer.insert(&rt, 6, 1, Instant::from_secs(0))?;
    let now = Instant::from_secs(1);
    let note = announce(&rt, &mut writer, (7, 11), now)?;
    let again = writer.note();
    let mut reader = cache.session()?;
    let mut other = cache.session()?;
    let reads = move ||
        requires { note.id ≡ reader.cache.id }
    { read_announced(&rt, &mut reader, note, &7, now) };
    let thread = Builder::new().spawn(&rt, reads)?;
    let found = read_announced(&rt, &mut other, again, &7, now)?;
    let by_thread = thread.join(&rt)?;
    let sum = by_thread.unwrap_or(0).saturating_add(found.unwrap_or(0));
    Ok((sum, other.get(&rt, &6, now)?))
}
