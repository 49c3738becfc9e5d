//! Laws of sessions, for any order of the threads' calls: a session finds its own write, and one that it has learned of, and nothing that it has hidden.
ghost use Rattle.std.specs.Prelude.{◌≡◌, ◌≤◌, IfSome};
ghost use Rattle.moka_common.specs.Keys.{keys_by};
ghost use Rattle.moka_locks.specs.History.{place_of};
ghost use Rattle.moka_locks.specs.Moments.{latest};
ghost use Rattle.moka_sync.specs.Own.{FindsFromNote, FindsOwn, FindsSince, StaysHidden};
ghost use Rattle.moka_row.specs.Visits.{at};

use crate::note::Note;
use crate::session::Session;
use moka_common::time::Instant;
use moka_shard::rule::PairRule;
use moka_sync_model::weigh::WeighShared;
use std::alloc::Allocator;
use std::hash::{BuildHasher, Hash};
use std::sync::Wait;

/// Writes a value at a key, and reads the key. If a value is found, it is that one, unless a visit of another thread between the two wrote, invalidated or
/// removed the key. It returns `None` if an insert or a clone was refused.
pub fn write_and_read<
    K: Eq + Hash + Copy,
    V: Copy,
    S: BuildHasher + Drop,
    P: PairRule<K, V>,
    W: WeighShared<K, V>,
    A: Allocator + Clone + Drop,
    R: Wait,
>(rt: &R, me: &mut Session<K, V, S, P, W, A>, key: K, value: V, now: Instant) -> Option<Option<V>>
    requires ruled { P.holds key value }
    requires ready { W.ready me.old.cache.weigher }
    ensures same { me.new.cache ≡ me.old.cache }
    ensures found { IfSome result (λ found. FindsOwn (keys_by K.Hash S.BuildHasher S.Hasher.Hasher) me.old.cache.settings V.is_clone me.old.knows key value
        found me.new.knows) }
{
    let Ok(()) = me.insert(rt, key, value, now) else {
        return None;
    };
    let Ok(found) = me.get(rt, &key, now) else {
        return None;
    };
    Some(found)
}

/// Takes in a note of what another session has seen, and reads a key. If a value is found, it is the one last written in a history that goes on from the
/// note, and none that an invalidation hides of which the note tells. It returns `None` if memory was refused.
pub fn learn_and_read<
    K: Eq + Hash + Drop,
    V: Clone,
    S: BuildHasher + Drop,
    P: PairRule<K, V>,
    W: WeighShared<K, V>,
    A: Allocator + Clone + Drop,
    R: Wait,
>(
    rt: &R,
    me: &mut Session<K, V, S, P, W, A>,
    note: Note<K, V, S, P, A>,
    key: &K,
    now: Instant,
) -> Option<Option<V>>
    requires { note.id ≡ me.old.cache.id }
    ensures same { me.new.cache ≡ me.old.cache }
    ensures found { IfSome result (λ found. FindsFromNote (keys_by K.Hash S.BuildHasher S.Hasher.Hasher) me.old.cache.settings V.is_clone
        (at note.seen (place_of (keys_by K.Hash S.BuildHasher S.Hasher.Hasher) me.old.cache.settings key.now)) key.now now
        (latest me.new.moments) found) }
    ensures hidden { latest note.moments ≤ latest me.new.moments }
{
    me.learn(note);
    let Ok(found) = me.get(rt, key, now) else {
        return None;
    };
    Some(found)
}

/// Hides all from before a moment, and reads a key. If a value is found, it was last written at this moment or later, and not used last before it. Nor does
/// anybody find an older one whose call comes later at the key's shard. It returns `None` if memory was refused.
pub fn invalidate_and_read<
    K: Eq + Hash + Drop,
    V: Clone,
    S: BuildHasher + Drop,
    P: PairRule<K, V>,
    W: WeighShared<K, V>,
    A: Allocator + Clone + Drop,
    R: Wait,
>(
    rt: &R,
    me: &mut Session<K, V, S, P, W, A>,
    moment: Instant,
    key: &K,
    now: Instant,
) -> Option<Option<V>>
    ensures same { me.new.cache ≡ me.old.cache }
    ensures found { IfSome result (λ found. FindsSince (keys_by K.Hash S.BuildHasher S.Hasher.Hasher) me.old.cache.settings V.is_clone moment key.now
        found me.new.knows) }
    ensures stays { StaysHidden (keys_by K.Hash S.BuildHasher S.Hasher.Hasher) me.old.cache.settings V.is_clone moment
        (place_of (keys_by K.Hash S.BuildHasher S.Hasher.Hasher) me.old.cache.settings key.now)
        (at me.new.knows.seen (place_of (keys_by K.Hash S.BuildHasher S.Hasher.Hasher) me.old.cache.settings key.now)) }
{
    me.invalidate_all(moment);
    let Ok(found) = me.get(rt, key, now) else {
        return None;
    };
    Some(found)
}
