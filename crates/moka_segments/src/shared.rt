//! The part that all clones and sessions of a cache share.
ghost use Rattle.std.specs.Prelude.{◌≡◌};
ghost use Rattle.moka_segments.specs.Plan.{IsSized};

use crate::account::SegmentTable;
use crate::plan::Plan;
use crate::rule::Rule;
use crate::weigher::Weighing;
use std::hash::{BuildHasher, Hash};

/// The segments, and how they are cut.
#[derive(Drop)]
pub struct Shared<
    K: Eq + Hash + Drop,
    V: Drop,
    S: BuildHasher + Drop,
    W: Weighing<K, V>,
    P: Rule<K, V>,
> {
    pub(crate) plan: Plan<S>,
    pub(crate) table: SegmentTable<K, V, S, W, P>,
    pub ghost planned: { table.shared.key ≡ plan },
    pub ghost sized: { IsSized plan table.shared.table_id },
}
