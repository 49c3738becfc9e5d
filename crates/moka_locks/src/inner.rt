//! What all clones of a cache share: its shards, its logs and its maintenance, each behind a lock, and some words.
ghost use Rattle.std.specs.Prelude.{◌≡◌, ◌<◌, ◌+◌, ◌++◌, [], ◌∷◌, ℕ, List, Some, map, IfOk, IfSome, OnOk};
ghost use Rattle.moka_sync_model.specs.declared.constants.TheConstants.{SHARDS};
ghost use Rattle.moka_common.specs.Keys.{keys_by};
ghost use Rattle.moka_locks.specs.Cache.{CacheId, new_cache, plan_of};
ghost use Rattle.moka_locks.specs.Charged.{counts_of};
ghost use Rattle.moka_guards.specs.Log.{IsChain, IsSuffix};
ghost use Rattle.moka_sync_model.specs.Published.{opening};
ghost use Rattle.moka_locks.specs.History.{place_of};
ghost use Rattle.moka_locks.specs.Moments.{GoesOn, seeing};
ghost use Rattle.moka_row.specs.Kept.{Hears};
ghost use Rattle.moka_row.specs.Visits.{guest, newcomer, note_of};
ghost use Rattle.moka_locks.specs.Snapshot.{CopiesShard, IsSnapshot};
ghost use Rattle.moka_shard.specs.Rule.{PairsMeet};
ghost use Rattle.std.specs.List.{All, IsDistinct};
ghost use Rattle.moka_common.specs.Settings.{keeps_writes};
ghost use Rattle.moka_sync_model.specs.Phase.{Idle};
ghost use Rattle.moka_locks.specs.SameTickets.{AtWork, IsOrdered, just_begun};

mod assemble;
mod turns;

use crate::account::Caller;
use crate::housekeeper::Housekeeper;
use crate::idle::IdleMaintenance;
use crate::inner::assemble::{counts_of, logs_and_maintenance};
use crate::running::RunningMaintenance;
use crate::shards::Shards;
use crossbeam_utils::CachePadded;
use moka_common::error::OutOfMemory;
use moka_common::shared::Shared;
use moka_common::time::Instant;
use moka_guards::counts::{CountPass, Counts, Publisher};
use moka_guards::logs::Logs;
use moka_row::seats;
use moka_shard::rule::PairRule;
use moka_sync_model::constants::SHARDS;
use moka_sync_model::published::Published;
use moka_sync_model::settings::{CoreParts, Settings};
use std::alloc::Allocator;
use std::hash::{BuildHasher, Hash};
use std::marker::Model;
use std::sync::atomic::{AtomicU64, Ordering};
use std::sync::{Mutex, Wait};

/// The locks of a cache, and what lies beside them. Each lock lies on lines of its own.
#[derive(Drop)]
pub struct Inner<
    K: Eq + Hash + Drop,
    V: Drop,
    S: BuildHasher + Drop,
    P: PairRule<K, V>,
    W: Drop,
    A: Allocator + Clone + Drop,
> {
    pub(crate) shards: Shards<K, V, S, P, A>,
    pub(crate) weigher: W,
    alloc: A,
    pub(crate) logs: Logs<A>,
    /// Nothing while a maintenance is under way: then whoever runs it has the lock.
    maintenance: CachePadded<Mutex<Option<IdleMaintenance<A>>>>,
    pub(crate) housekeeper: CachePadded<Housekeeper>,
    /// Number of charged entries when a maintenance last ended.
    entry_count: AtomicU64,
    /// Their weight, at most `u64::MAX`.
    weighted_size: AtomicU64,
    /// The cell with both, if somebody loads them together.
    counts: Option<Counts<A>>,
}

impl<
    K: Eq + Hash + Drop,
    V: Drop,
    S: BuildHasher + Drop,
    P: PairRule<K, V>,
    W: Drop,
    A: Allocator + Clone + Drop,
> Model for Inner<K, V, S, P, W, A> {
    ghost use Rattle.moka_locks.specs.Cache.{Cache};

    ghost Value = { Cache S W };

    ghost view = { λ i. record {
      settings = i.shards.settings;
      weigher = i.weigher;
      counted = i.counts;
      id = record { shards = i.shards.table.shared.table_id; moments = i.shards.moments.table.shared.table_id };
    } };
}

impl<
    K: Eq + Hash + Drop,
    V: Drop,
    S: BuildHasher + Drop,
    P: PairRule<K, V>,
    W: Drop,
    A: Allocator + Clone + Drop,
> Inner<K, V, S, P, W, A> {
    /// Makes a cache of these parts, on which nothing has been done, with its publisher, if there is one.
    pub fn new(
        alloc: A,
        parts: CoreParts<S, W>,
        publisher: Option<Publisher<A>>,
    ) -> Result<Self, OutOfMemory>
        requires { IfSome publisher (λ p. p.published ≡ opening ∷ []) }
        ensures { IfOk result (λ inner. (id : CacheId) × (inner ≡ new_cache
            (record { hash_state = parts.hash_state; policy = parts.policy; is_weighed = parts.is_weighed }) parts.weigher (counts_of publisher) id)) }
    {
        let counts = counts_of(&publisher)?;
        let hash_state = Shared::new(alloc.clone()?, parts.hash_state)?;
        let settings = Settings::new(hash_state, parts.policy, parts.is_weighed);
        let keeps_writes = settings.limits().has_time_to_live();
        let shards = Shards::new(&alloc, settings, parts.capacity)?;
        let (logs, working) = logs_and_maintenance(&alloc)?;
        let maintenance = IdleMaintenance {
            working,
            publisher,
            keeps_writes,
        };
        Ok(Inner {
            shards,
            weigher: parts.weigher,
            logs,
            maintenance: CachePadded::new(Mutex::new(Some(maintenance))),
            housekeeper: CachePadded::new(Housekeeper::default()),
            entry_count: AtomicU64::new(0),
            weighted_size: AtomicU64::new(0),
            counts,
            alloc,
        })
    }

    /// Returns the settings.
    pub fn settings(&self) -> &Settings<S, A>
        ensures { result.now ≡ self.now.settings }
    {
        &self.shards.settings
    }

    /// Returns the allocator.
    pub fn alloc(&self) -> &A {
        &self.alloc
    }

    /// Returns the seats of a new guest, who has made no visit.
    pub fn come(&self) -> Caller<K, V, S, P, A>
        ensures table { result.shards.table_id ≡ self.now.id.shards }
        ensures new { (seat : ℕ) × (result.shards.me ≡ (newcomer (plan_of self.now) (guest seat), [])) }
        ensures moments { (result.moments.table_id ≡ self.now.id.moments) × (result.moments.me.1 ≡ []) }
    {
        self.shards.come()
    }

    /// Returns a note of what a caller has seen so far.
    pub fn note(&self, caller: &mut Caller<K, V, S, P, A>) -> Caller<K, V, S, P, A>
        requires table { caller.old.shards.table_id ≡ self.now.id.shards }
        requires moments { caller.old.moments.table_id ≡ self.now.id.moments }
        ensures shards { (caller.new.shards.table_id ≡ caller.old.shards.table_id) × (caller.new.shards.me ≡ caller.old.shards.me) }
        ensures moments { (caller.new.moments.table_id ≡ caller.old.moments.table_id) × (caller.new.moments.me ≡ caller.old.moments.me) }
        ensures table { (result.shards.table_id ≡ self.now.id.shards) × (result.moments.table_id ≡ self.now.id.moments) }
        ensures note { result.shards.me ≡ (note_of caller.old.shards.me.0, []) }
        ensures seen { result.moments.me ≡ (seeing caller.old.moments.me.0.seen, []) }
    {
        let moments = self.shards.moments.note(&mut caller.moments);
        Caller {
            shards: seats::note(&self.shards.table.shared, &mut caller.shards),
            moments,
        }
    }

    /// Tells a caller what a note says: the histories that it knows go on from those too, and so do the moments.
    pub fn learn(&self, caller: &mut Caller<K, V, S, P, A>, note: Caller<K, V, S, P, A>)
        requires table { caller.old.shards.table_id ≡ self.now.id.shards }
        requires moments { caller.old.moments.table_id ≡ self.now.id.moments }
        requires note { (note.shards.table_id ≡ self.now.id.shards) × (note.shards.me.1 ≡ []) }
        requires seen { (note.moments.table_id ≡ self.now.id.moments) × (note.moments.me.1 ≡ []) }
        ensures shards { (caller.new.shards.table_id ≡ caller.old.shards.table_id) × (caller.new.shards.me.1 ≡ caller.old.shards.me.1) }
        ensures moments { (caller.new.moments.table_id ≡ caller.old.moments.table_id) × (caller.new.moments.me.1 ≡ caller.old.moments.me.1) }
        ensures told { Hears caller.old.shards.me.0 note.shards.me.0.seen caller.new.shards.me.0 }
        ensures goes_on { GoesOn caller.old.moments.me.0.seen caller.new.moments.me.0.seen }
        ensures learns { GoesOn note.moments.me.0.seen caller.new.moments.me.0.seen }
    {
        let Caller { shards, moments } = note;
        seats::learn(&self.shards.table.shared, &mut caller.shards, shards);
        let ours = &self.shards.moments;
        ours.learn(&mut caller.moments, moments);
    }

    /// Returns the live pairs of a shard, shared, by a visit of a guest.
    fn pairs<R: Wait>(
        &self,
        rt: &R,
        number: usize,
        alloc: A,
        now: Instant,
    ) -> Result<Vec<(Shared<K, A>, Shared<V, A>), A>, OutOfMemory>
        requires { number < SHARDS }
        ensures ruled { IfOk result (λ pairs. PairsMeet P.holds pairs.items) }
        ensures once { IfOk result (λ pairs. IsDistinct K.eq (map (λ p. p.0) pairs.items)) }
        ensures own { IfOk result (λ pairs.
            All (λ p. place_of (keys_by K.Hash S.BuildHasher S.Hasher.Hasher) self.now.settings p.0 ≡ number) pairs.items) }
        ensures copies { IfOk result (λ pairs. CopiesShard (keys_by K.Hash S.BuildHasher S.Hasher.Hasher) (plan_of self.now) now number pairs.items) }
    {
        let mut guest = self.shards.new_seat();
        let pairs = self.shards.pairs(rt, &mut guest, number, alloc, now);
        drop(guest);
        pairs
    }

    /// Shares the live pairs of a shard, and adds them to those of the shards before it.
    pub fn copy<R: Wait>(
        &self,
        rt: &R,
        number: usize,
        now: Instant,
        pairs: &mut Vec<(Shared<K, A>, Shared<V, A>), A>,
    ) -> Result<(), OutOfMemory>
        requires below { number < SHARDS }
        requires snapshot { IsSnapshot (keys_by K.Hash S.BuildHasher S.Hasher.Hasher) (plan_of self.now) now P.holds number pairs.old.items }
        ensures snapshot { OnOk result (IsSnapshot (keys_by K.Hash S.BuildHasher S.Hasher.Hasher) (plan_of self.now) now P.holds (number + 1)
            pairs.new.items) }
    {
        let alloc = self.alloc.clone()?;
        let copied = self.pairs(rt, number, alloc, now)?;
        append(pairs, copied)
    }

    /// Returns the number of charged entries when a maintenance last ended.
    pub fn entry_count(&self) -> u64 {
        self.entry_count.load(Ordering::Acquire)
    }

    /// Returns the weight of the charged entries when a maintenance last ended, at most `u64::MAX`.
    pub fn weighted_size(&self) -> u64 {
        self.weighted_size.load(Ordering::Acquire)
    }

    /// Returns the counts that were published last, which the pass has then seen.
    pub fn published<R: Wait>(&self, rt: &R, pass: &mut CountPass) -> Published
        requires { self.now.counted ≡ Some pass.old.counts }
        ensures counts { pass.new.counts ≡ pass.old.counts }
        ensures newest { (older : List _) × (pass.new.seen ≡ result ∷ older) }
        ensures seen { IsSuffix pass.old.seen pass.new.seen }
        ensures chain { IsChain pass.new.seen }
    {
        match &self.counts {
            Some(counts) => counts.load(rt, pass),
            None => unreachable!(),
        }
    }

    /// Returns one more pass, which has seen what this one has.
    pub fn split(&self, pass: &mut CountPass) -> CountPass
        requires { self.now.counted ≡ Some pass.old.counts }
        ensures { (pass.new ≡ pass.old) × (result ≡ pass.old) }
    {
        match &self.counts {
            Some(counts) => counts.split(pass),
            None => unreachable!(),
        }
    }

    /// Begins a maintenance, once nobody else runs one.
    pub(crate) fn begin<R: Wait>(&self, rt: &R, now: Instant) -> RunningMaintenance<'_, A>
        ensures begun { (w : AtWork) × (w.keeps_writes ≡ keeps_writes self.now.settings.policy) × (w.working.maintenance.phase ≡ Idle)
            × (result ≡ just_begun now w) }
        ensures ordered { IsOrdered result }
    {
        let keeps_writes = self.settings().limits().has_time_to_live();
        RunningMaintenance::begin(rt, &self.maintenance, keeps_writes, now)
    }

    /// Writes the counts of a maintenance that has ended into their words.
    pub(crate) fn publish(&self, published: Published) {
        self.entry_count.store(published.count, Ordering::Release);
        self.weighted_size
            .store(published.weight, Ordering::Release);
    }
}

/// Adds the pairs of a shard to those of the shards before it.
fn append<K: Drop, V: Drop, A: Allocator + Clone + Drop>(
    pairs: &mut Vec<(Shared<K, A>, Shared<V, A>), A>,
    copied: Vec<(Shared<K, A>, Shared<V, A>), A>,
) -> Result<(), OutOfMemory>
    ensures { OnOk result (pairs.new.items ≡ pairs.old.items ++ copied.items) }
{
    for (key, value) in copied {
        pairs.push((key, value))?;
    }
    Ok(())
}
