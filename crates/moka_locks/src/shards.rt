//! The shards of a cache, each behind a lock that keeps the history of what was done under it.
ghost use Rattle.std.specs.Prelude.{◌≡◌, ◌≤◌, ℕ, [], IfOk, vec_len};
ghost use Rattle.moka_common.specs.Keys.{keys_by};
ghost use Rattle.moka_locks.specs.Cache.{plan_by};
ghost use Rattle.moka_locks.specs.History.{AreShards, IsSized};
ghost use Rattle.moka_row.specs.Visits.{IsPlace, guest, newcomer};
ghost use Rattle.moka_sync_model.specs.declared.constants.TheConstants.{SHARDS};
ghost use Rattle.moka_sync_model.specs.Ticket.{shard_of};

mod calls;
mod turns;

use crate::account::{Caller, Kept, Plan, ShardSeat, ShardTable};
use crate::moments::Moments;
use moka_common::error::OutOfMemory;
use moka_common::time::Instant;
use moka_row::row::{come, open};
use moka_shard::rule::PairRule;
use moka_shard::shard::Shard;
use moka_sync_model::constants::SHARDS;
use moka_sync_model::settings::Settings;
use std::alloc::Allocator;
use std::hash::{BuildHasher, Hash};

/// The shards, and what the steps on them need: the settings, and the moments of the invalidations of all, which hide older entries.
#[derive(Drop)]
pub struct Shards<
    K: Eq + Hash + Drop,
    V: Drop,
    S: BuildHasher + Drop,
    P: PairRule<K, V>,
    A: Allocator + Clone + Drop,
> {
    pub(crate) settings: Settings<S, A>,
    pub(crate) moments: Moments<A>,
    pub(crate) table: ShardTable<K, V, S, P, A>,
    pub ghost planned: { table.shared.key ≡ plan_by settings moments.table.shared.table_id },
    pub ghost sized: { IsSized table.shared.table_id },
}

impl<
    K: Eq + Hash + Drop,
    V: Drop,
    S: BuildHasher + Drop,
    P: PairRule<K, V>,
    A: Allocator + Clone + Drop,
> Shards<K, V, S, P, A> {
    /// Makes the shards of a new cache, with capacity for `capacity` entries in each.
    pub(crate) fn new(
        alloc: &A,
        settings: Settings<S, A>,
        capacity: usize,
    ) -> Result<Self, OutOfMemory>
        ensures { IfOk result (λ shards. shards.settings ≡ settings) }
    {
        let again = alloc.clone()?;
        let moments = Moments::new(alloc.clone()?)?;
        let shards = empty_shards(alloc, &settings, &moments, capacity)?;
        Shards::open(again, Plan { settings, moments }, shards)
    }

    /// Puts new shards behind locks.
    fn open(
        alloc: A,
        plan: Plan<S, A>,
        shards: Vec<Kept<Shard<K, V, S, P, A>>, A>,
    ) -> Result<Self, OutOfMemory>
        requires shards { AreShards (keys_by K.Hash S.BuildHasher S.Hasher.Hasher) plan shards.items }
        requires count { vec_len shards ≡ SHARDS }
        ensures { IfOk result (λ shards. shards.settings ≡ plan.settings) }
    {
        let (table, dealer) = open(alloc, shards, &plan)?;
        drop(dealer);
        let Plan { settings, moments } = plan;
        Ok(Shards {
            settings,
            moments,
            table,
        })
    }

    /// Returns a seat at the shards for a new guest, who has seen nothing and made no visit.
    #[inline]
    pub(crate) fn new_seat(&self) -> ShardSeat<K, V, S, P, A>
        ensures table { result.table_id ≡ self.now.table.shared.table_id }
        ensures new { (seat : ℕ) × (result.me ≡ (newcomer self.now.table.shared.key (guest seat), [])) }
    {
        come(&self.table.shared)
    }

    /// Returns the seats of a new guest, who has made no visit.
    #[inline]
    pub(crate) fn come(&self) -> Caller<K, V, S, P, A>
        ensures table { result.shards.table_id ≡ self.now.table.shared.table_id }
        ensures new { (seat : ℕ) × (result.shards.me ≡ (newcomer self.now.table.shared.key (guest seat), [])) }
        ensures moments { (result.moments.table_id ≡ self.now.moments.table.shared.table_id) × (result.moments.me.1 ≡ []) }
    {
        let (_latest, moments) = self.moments.come();
        Caller {
            shards: self.new_seat(),
            moments,
        }
    }

    /// Returns the hash of a key.
    #[inline]
    pub(crate) fn hash_of(&self, key: &K) -> u64
        ensures { result ≡ (keys_by K.Hash S.BuildHasher S.Hasher.Hasher).hash_of self.now.settings.hash_state key.now }
    {
        self.settings.hash_state().get().hash_one(key)
    }

    /// Returns the number of the shard that a hash belongs to.
    #[inline]
    fn place(&self, hash: u64) -> usize
        ensures value { result ≡ shard_of hash }
        ensures inside { IsPlace self.now.table.shared.table_id result }
    {
        (hash % SHARDS as u64) as usize
    }

    /// Returns the moment of the last invalidation of all; older entries are hidden. An entry is tested by one that is loaded while the lock of its shard is
    /// held: then it sees each invalidation that had ended when the entry was written.
    pub(crate) fn valid_after(&self) -> Instant {
        self.moments.come().0
    }

    /// Returns the moment of the last invalidation of all, or `before` if that is later.
    fn valid_after_since(&self, before: Instant) -> Instant
        ensures { before ≤ result }
    {
        self.valid_after().max(before)
    }
}

/// Makes the shards of a new cache, with capacity for `capacity` entries in each, and a seat at the moments for each.
fn empty_shards<
    K: Eq + Hash + Drop,
    V: Drop,
    S: BuildHasher + Drop,
    P: PairRule<K, V>,
    A: Allocator + Clone + Drop,
>(
    alloc: &A,
    settings: &Settings<S, A>,
    moments: &Moments<A>,
    capacity: usize,
) -> Result<Vec<Kept<Shard<K, V, S, P, A>>, A>, OutOfMemory>
    ensures shards { IfOk result (λ shards. AreShards (keys_by K.Hash S.BuildHasher S.Hasher.Hasher)
        (plan_by settings.now moments.now.table.shared.table_id) shards.items) }
    ensures count { IfOk result (λ shards. vec_len shards ≡ SHARDS) }
{
    let mut shards = Vec::with_capacity(alloc.clone()?, SHARDS)?;
    for number in 0..SHARDS {
        let hash_state = settings.hash_state().try_clone()?;
        let shard = Shard::new(alloc.clone()?, number, 0, capacity, hash_state)?;
        let (_latest, witness) = moments.come();
        shards.push(Kept { shard, witness })?;
    }
    Ok(shards)
}
