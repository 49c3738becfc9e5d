//! The account of a segment: its cache is what the calls of its history lead to.
use crate::plan::Plan;
use crate::rule::Rule;
use crate::weigher::{Asks, Weighing};
use moka_row::row::{Account, Row, RowTable, Visitor};
use moka_unsync::cache::Cache;
use std::hash::{BuildHasher, Hash};
use std::marker::{Model, PhantomData};

/// The calls of a visit, which it leaves in the history. No value of it is made.
pub struct Visit<K, V, S, W> {
    of: PhantomData<(K, V, S, W)>,
}

impl<K, V, S, W> Model for Visit<K, V, S, W> {
    ghost use Rattle.std.specs.Prelude.{List, []};
    ghost use Rattle.moka_unsync_model.specs.History.{Transition};

    ghost Value = { List (Transition K V S W) };

    ghost view = { λ _. [] };
}

/// A segment's cache is what the calls of its history lead to.
pub struct OneHistory<P> {
    of: PhantomData<P>,
}

impl<K: Eq + Hash + Drop, V: Drop, S: BuildHasher + Drop, W: Weighing<K, V>, P: Rule<K, V>> Account<
    Cache<K, V, S, Asks<W>>,
    Visit<K, V, S, W>,
    Plan<S>,
> for OneHistory<P> {
    ghost use Rattle.moka_common.specs.Keys.{keys_by};
    ghost use Rattle.moka_segments.specs.History.{IsAccount};

    ghost holds = { λ plan i log cache. IsAccount
        (keys_by (record { eq = K.eq; hash_input = K.hash_input }) S.BuildHasher S.Hasher.Hasher)
        W.weighs P.rules W.ready plan i log cache };
}

/// The segments as threads see them.
pub type Segments<K, V, S, W, P> = Row<
    Cache<K, V, S, Asks<W>>,
    Visit<K, V, S, W>,
    Plan<S>,
    OneHistory<P>,
>;

/// The segments with their memory.
pub type SegmentTable<K, V, S, W, P> = RowTable<
    Cache<K, V, S, Asks<W>>,
    Visit<K, V, S, W>,
    Plan<S>,
    OneHistory<P>,
>;

/// A caller's seat at the segments.
pub type Caller<K, V, S, W> = Visitor<Cache<K, V, S, Asks<W>>, Visit<K, V, S, W>, Plan<S>>;
