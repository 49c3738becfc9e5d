//! Notes of what a session has seen.
use moka_locks::account::Caller;
use moka_shard::rule::PairRule;
use std::alloc::Allocator;
use std::hash::{BuildHasher, Hash};
use std::marker::Model;

/// A note of what a session has seen, which may cross threads: a session that takes it in (`Session::learn`) goes on from that history. A clause sees which
/// cache it is of, of each shard a history, and the moments of the invalidations of all that the session had seen.
#[derive(Drop)]
pub struct Note<
    K: Eq + Hash + Drop,
    V: Drop,
    S: BuildHasher + Drop,
    P: PairRule<K, V>,
    A: Allocator + Clone + Drop,
> {
    pub(crate) teller: Caller<K, V, S, P, A>,
}

impl<
    K: Eq + Hash + Drop,
    V: Drop,
    S: BuildHasher + Drop,
    P: PairRule<K, V>,
    A: Allocator + Clone + Drop,
> Model for Note<K, V, S, P, A> {
    ghost use Rattle.std.specs.Prelude.{◌≡◌, []};
    ghost use Rattle.moka_sync.specs.Session.{Note as NoteValue};

    ghost Value = { NoteValue K V S };

    ghost view = { λ n. record {
      id = record { shards = n.teller.shards.table_id; moments = n.teller.moments.table_id };
      seen = n.teller.shards.me.0.seen;
      moments = n.teller.moments.me.0.seen;
    } };

    ghost invariant = { λ n. (n.teller.shards.me.1 ≡ []) × (n.teller.moments.me.1 ≡ []) };
}
