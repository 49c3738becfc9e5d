//! Notes of what a session has seen.
use crate::account::Caller;
use crate::weigher::Weighing;
use std::hash::{BuildHasher, Hash};
use std::marker::Model;

/// A note of what a session has seen, which may cross threads: a session that takes it in (`Session::learn`) goes on from that history. A clause sees
/// which cache it is of, and of each segment a history.
#[derive(Drop)]
pub struct Note<K: Eq + Hash + Drop, V: Drop, S: BuildHasher + Drop, W: Weighing<K, V>> {
    pub(crate) teller: Caller<K, V, S, W>,
}

impl<K: Eq + Hash + Drop, V: Drop, S: BuildHasher + Drop, W: Weighing<K, V>> Model
    for Note<K, V, S, W> {
    ghost use Rattle.std.specs.Prelude.{◌≡◌, []};
    ghost use Rattle.moka_segments.specs.Session.{Note as NoteValue};

    ghost Value = { NoteValue K V S W };

    ghost view = { λ n. record { id = n.teller.table_id; seen = n.teller.me.0.seen } };

    ghost invariant = { λ n. n.teller.me.1 ≡ [] };
}
