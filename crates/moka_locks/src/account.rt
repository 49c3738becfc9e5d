//! The account of a shard: it is what the steps of its history lead to.
use crate::moments::{Moments, Witness};
use moka_row::row::{Account, Row, RowTable, Visitor};
use moka_shard::rule::PairRule;
use moka_shard::shard::Shard;
use moka_sync_model::settings::Settings;
use std::alloc::Allocator;
use std::hash::{BuildHasher, Hash};
use std::marker::{Model, PhantomData};

/// A shard in its slot, with a seat of its own at the moments of the invalidations of all. Whoever has the lock hides no less than those before.
#[derive(Drop)]
pub struct Kept<T: Drop> {
    pub(crate) shard: T,
    pub(crate) witness: Witness,
}

/// What the shards of a cache are made by: the settings, and the moments of the invalidations of all.
#[derive(Drop)]
pub struct Plan<S: Drop, A: Allocator + Drop> {
    pub(crate) settings: Settings<S, A>,
    pub(crate) moments: Moments<A>,
}

impl<S: Drop, A: Allocator + Drop> Model for Plan<S, A> {
    ghost use Rattle.moka_locks.specs.Cache.{Plan as PlanValue};

    ghost Value = { PlanValue S };

    ghost view = { λ p. record { settings = p.settings; moments = p.moments.table.shared.table_id } };
}

/// The steps of a visit, which it leaves in the history. No value of it is made.
pub struct Visit<K, V, S> {
    of: PhantomData<(K, V, S)>,
}

impl<K, V, S> Model for Visit<K, V, S> {
    ghost use Rattle.std.specs.Prelude.{List, []};
    ghost use Rattle.moka_history.specs.Steps.{Step};

    ghost Value = { List (Step K V S) };

    ghost view = { λ _. [] };
}

/// A shard is what the steps of its history lead to, and its seat has seen each moment by which they hide.
pub struct OneHistory;

impl<
    K: Eq + Hash + Drop,
    V: Drop,
    S: BuildHasher + Drop,
    P: PairRule<K, V>,
    A: Allocator + Clone + Drop,
> Account<Kept<Shard<K, V, S, P, A>>, Visit<K, V, S>, Plan<S, A>> for OneHistory {
    ghost use Rattle.moka_common.specs.Keys.{keys_by};
    ghost use Rattle.moka_locks.specs.History.{IsKeptBy};

    ghost holds = { λ plan i log kept. IsKeptBy
        (keys_by (record { eq = K.eq; hash_input = K.hash_input }) S.BuildHasher S.Hasher.Hasher) plan i log kept };
}

/// The shards as threads see them.
pub type ShardRow<K, V, S, P, A> = Row<
    Kept<Shard<K, V, S, P, A>>,
    Visit<K, V, S>,
    Plan<S, A>,
    OneHistory,
>;

/// The shards with their memory.
pub type ShardTable<K, V, S, P, A> = RowTable<
    Kept<Shard<K, V, S, P, A>>,
    Visit<K, V, S>,
    Plan<S, A>,
    OneHistory,
    A,
>;

/// A seat at the shards.
pub type ShardSeat<K, V, S, P, A> = Visitor<Kept<Shard<K, V, S, P, A>>, Visit<K, V, S>, Plan<S, A>>;

/// A caller's seats: at the shards, and at the moments of the invalidations of all.
#[derive(Drop)]
pub struct Caller<
    K: Eq + Hash + Drop,
    V: Drop,
    S: BuildHasher + Drop,
    P: PairRule<K, V>,
    A: Allocator + Clone + Drop,
> {
    pub shards: ShardSeat<K, V, S, P, A>,
    pub moments: Witness,
}
