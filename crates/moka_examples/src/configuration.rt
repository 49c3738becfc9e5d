//! A configuration that one thread writes and others read, in a cache of segments.
ghost use Rattle.std.specs.Prelude.{◌≡◌, IfOk, ⊤};
ghost use Rattle.mini_moka.specs.Common.Keys.{keys_by};
ghost use Rattle.mini_moka.specs.Segmented.Plan.{place_of};
ghost use Rattle.mini_moka.specs.Segmented.Tells.{FindsFromNote};
ghost use Rattle.mini_moka.specs.Segmented.Visits.{at, owner};

use mini_moka::Error;
use mini_moka::common::time::Instant;
use mini_moka::common::{FixedState, OutOfMemory, UnitWeight};
use mini_moka::sync::SegmentedCache;
use mini_moka::sync::segmented::{Note, Rule, Session, Weighing, learn_and_read};
use std::alloc::Global;
use std::hash::{BuildHasher, Hash};
use std::sync::Wait;
use std::thread::{Builder, Threads};

/// The rule of a configuration: the first owner alone writes it.
#[derive(Drop)]
pub struct OneWriter;

impl<K: Eq, V> Rule<K, V> for OneWriter {
    ghost rules = { record { holds = λ key value. ⊤; owns = λ by key. by ≡ owner 0 } };

    ghost agree = { record { holds = λ key other value same is. tt; owns = λ by key other same is. is } };
}

/// A session of a configuration of numbers.
type Seat = Session<u64, u64, FixedState, UnitWeight, OneWriter>;

/// A note of what a session of it has seen.
type Seen = Note<u64, u64, FixedState, UnitWeight>;

/// Writes two versions of a setting, and returns a note of that for the readers. The prover refuses a session that may not write.
pub fn publish<R: Wait>(
    rt: &R,
    writer: &mut Seat,
    setting: u64,
    versions: (u64, u64),
    now: Instant,
) -> Result<Seen, Error>
    requires { writer.old.knows.by ≡ owner 0 }
    ensures same { writer.new.cache ≡ writer.old.cache }
    ensures note { IfOk result (λ note. note.id ≡ writer.old.cache.id) }
{
    let (first, second) = versions;
    writer.insert(rt, setting, first, now)?;
    writer.insert(rt, setting, second, now)?;
    Ok(writer.note())
}

/// Takes in a note, and reads a setting. What it finds is the value last written in a history that goes on from the note: what the reader was told of, or a
/// later version.
pub fn read_told<
    K: Eq + Hash + Drop,
    V: Clone + Drop,
    S: BuildHasher + Drop,
    W: Weighing<K, V>,
    P: Rule<K, V>,
    R: Wait,
>(
    rt: &R,
    reader: &mut Session<K, V, S, W, P>,
    note: Note<K, V, S, W>,
    setting: &K,
    now: Instant,
) -> Result<Option<V>, OutOfMemory>
    requires { note.id ≡ reader.old.cache.id }
    ensures { IfOk result (λ found. FindsFromNote (keys_by K.Hash S.BuildHasher S.Hasher.Hasher) W.weighs P.rules reader.old.cache.plan V.is_clone
        (at note.seen (place_of reader.old.cache.plan (keys_by K.Hash S.BuildHasher S.Hasher.Hasher) setting.now)) setting.now now found) }
{
    match learn_and_read(rt, reader, note, setting, now) {
        Some(found) => Ok(found),
        None => Err(OutOfMemory),
    }
}

/// Reads a setting, in a thread and its caller, that a writer has told them of. Returns the sum of what they find.
pub fn configured_by_threads<R: Wait + Threads + Copy + Send + 'static>(
    rt: R,
    alloc: Global,
) -> Result<u64, Error> {
    let now = Instant::from_secs(0);
    let builder = SegmentedCache::<u64, u64>::builder(alloc)
        .max_capacity(100)
        .rule::<OneWriter>();
    let (cache, mut owners) = builder.build_owned(FixedState::default())?;
    let mut writer = owners.session()?;
    let note = publish(&rt, &mut writer, 7, (10, 11), now)?;
    let again = writer.note();
    let mut reader = cache.session()?;
    let mut other = cache.session()?;
    let reads = move ||
        requires { note.id ≡ reader.cache.id }
    { read_told(&rt, &mut reader, note, &7, now) };
    let thread = Builder::new().spawn(&rt, reads)?;
    let found = read_told(&rt, &mut other, again, &7, now)?;
    let by_thread = thread.join(&rt)?;
    Ok(by_thread.unwrap_or(0).saturating_add(found.unwrap_or(0)))
}
