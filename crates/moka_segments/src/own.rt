//! Laws of what sessions find of their own, however the threads' turns fall.
ghost use Rattle.std.specs.Prelude.{◌≡◌, IfSome};
ghost use Rattle.moka_common.specs.Keys.{keys_by};
ghost use Rattle.moka_segments.specs.Plan.{place_of};
ghost use Rattle.moka_segments.specs.Tells.{FindsFromNote, FindsOwn, FindsTold};
ghost use Rattle.moka_row.specs.Visits.{at};

use crate::note::Note;
use crate::rule::Rule;
use crate::session::Session;
use crate::weigher::Weighing;
use moka_common::time::Instant;
use std::hash::{BuildHasher, Hash};
use std::sync::Wait;
use std::thread::{Threads, join};

/// Writes a value at a key, and reads the key. If a value is found, it is that one, unless a visit of another thread between the two wrote, invalidated or
/// removed the key. If the session is the only one that may write the key, nothing can. It returns `None` if memory was refused.
pub fn write_and_read<
    K: Eq + Hash + Copy,
    V: Copy,
    S: BuildHasher + Drop,
    W: Weighing<K, V>,
    P: Rule<K, V>,
    R: Wait,
>(rt: &R, me: &mut Session<K, V, S, W, P>, key: K, value: V, now: Instant) -> Option<Option<V>>
    requires { P.rules.holds key value × P.rules.owns me.old.knows.by key }
    ensures same { me.new.cache ≡ me.old.cache }
    ensures found { IfSome result (λ found. FindsOwn (keys_by K.Hash S.BuildHasher S.Hasher.Hasher) W.weighs P.rules me.old.cache.plan
        V.is_clone me.old.knows key value found me.new.knows) }
{
    let Ok(()) = me.insert(rt, key, value, now) else {
        return None;
    };
    let Ok(found) = me.get(rt, &key, now) else {
        return None;
    };
    Some(found)
}

/// Writes a value at a key by one session, tells another, and reads the key by that one. If a value is found, it is that one, unless a visit after the write
/// wrote, invalidated or removed the key. It returns `None` if memory was refused.
pub fn tell_and_read<
    K: Eq + Hash + Copy,
    V: Copy,
    S: BuildHasher + Drop,
    W: Weighing<K, V>,
    P: Rule<K, V>,
    R: Wait,
>(
    rt: &R,
    writer: &mut Session<K, V, S, W, P>,
    reader: &mut Session<K, V, S, W, P>,
    key: K,
    value: V,
    now: Instant,
) -> Option<Option<V>>
    requires cache { reader.old.cache ≡ writer.old.cache }
    requires rules { P.rules.holds key value × P.rules.owns writer.old.knows.by key }
    ensures found { IfSome result (λ found. FindsTold (keys_by K.Hash S.BuildHasher S.Hasher.Hasher) W.weighs P.rules writer.old.cache.plan
        V.is_clone reader.old.knows.by writer.old.knows.by key value found reader.new.knows) }
{
    let Ok(()) = writer.insert(rt, key, value, now) else {
        return None;
    };
    reader.learn(writer.note());
    let Ok(found) = reader.get(rt, &key, now) else {
        return None;
    };
    Some(found)
}

/// Takes in a note of what another session has seen, and reads a key. If a value is found, it is the one last written in a history that goes on from the
/// note. It returns `None` if memory was refused.
pub fn learn_and_read<
    K: Eq + Hash + Drop,
    V: Clone + Drop,
    S: BuildHasher + Drop,
    W: Weighing<K, V>,
    P: Rule<K, V>,
    R: Wait,
>(
    rt: &R,
    me: &mut Session<K, V, S, W, P>,
    note: Note<K, V, S, W>,
    key: &K,
    now: Instant,
) -> Option<Option<V>>
    requires { note.id ≡ me.old.cache.id }
    ensures same { me.new.cache ≡ me.old.cache }
    ensures found { IfSome result (λ found. FindsFromNote (keys_by K.Hash S.BuildHasher S.Hasher.Hasher) W.weighs P.rules me.old.cache.plan V.is_clone
        (at note.seen (place_of me.old.cache.plan (keys_by K.Hash S.BuildHasher S.Hasher.Hasher) key.now)) key.now now found) }
{
    me.learn(note);
    let Ok(found) = me.get(rt, key, now) else {
        return None;
    };
    Some(found)
}

/// Shares a cache between two threads, each of which writes a key by its session and reads it. Whatever the schedule, a value that one finds is what it
/// wrote, unless a visit between its two calls touched its key.
pub fn both<
    K: Eq + Hash + Copy + Send + Sync,
    V: Copy + Send + Sync,
    S: BuildHasher + Drop + Send + Sync,
    W: Weighing<K, V> + Send + Sync,
    P: Rule<K, V> + Send + Sync,
    R: Threads + Wait + Sync,
>(
    rt: &R,
    mut one: Session<K, V, S, W, P>,
    mut other: Session<K, V, S, W, P>,
    a: (K, V),
    b: (K, V),
    now: Instant,
) -> (
    (Option<Option<V>>, Session<K, V, S, W, P>),
    (Option<Option<V>>, Session<K, V, S, W, P>),
)
where
    S::Hasher: Send + Sync,
    requires one { P.rules.holds a.0 a.1 × P.rules.owns one.knows.by a.0 }
    requires other { P.rules.holds b.0 b.1 × P.rules.owns other.knows.by b.0 }
    ensures one { IfSome result.0.0 (λ found. FindsOwn (keys_by K.Hash S.BuildHasher S.Hasher.Hasher) W.weighs P.rules one.cache.plan
        V.is_clone one.knows a.0 a.1 found result.0.1.knows) }
    ensures other { IfSome result.1.0 (λ found. FindsOwn (keys_by K.Hash S.BuildHasher S.Hasher.Hasher) W.weighs P.rules other.cache.plan
        V.is_clone other.knows b.0 b.1 found result.1.1.knows) }
{
    join(
        rt,
        move || -> (Option<Option<V>>, Session<K, V, S, W, P>)
            requires { P.rules.holds a.0 a.1 × P.rules.owns one.knows.by a.0 }
            ensures { IfSome result.0 (λ found. FindsOwn (keys_by K.Hash S.BuildHasher S.Hasher.Hasher) W.weighs P.rules one.cache.plan
                V.is_clone one.knows a.0 a.1 found result.1.knows) }
        {
            let found = write_and_read(rt, &mut one, a.0, a.1, now);
            (found, one)
        },
        move || -> (Option<Option<V>>, Session<K, V, S, W, P>)
            requires { P.rules.holds b.0 b.1 × P.rules.owns other.knows.by b.0 }
            ensures { IfSome result.0 (λ found. FindsOwn (keys_by K.Hash S.BuildHasher S.Hasher.Hasher) W.weighs P.rules other.cache.plan
                V.is_clone other.knows b.0 b.1 found result.1.knows) }
        {
            let found = write_and_read(rt, &mut other, b.0, b.1, now);
            (found, other)
        },
    )
}
