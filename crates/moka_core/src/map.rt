//! The map of the core: its shards, and the settings by whose hash state keys find theirs.
ghost use Rattle.std.specs.Prelude.{◌≡◌, ◌≢◌, ◌<◌, ◌↔◌, ℕ, Bool, IsTrue, slice_index, false, [], map};
ghost use Rattle.std.specs.Prelude.{replicate, IfOk, OnOk, IsSome, IsErr, is_some, option_map};
ghost use Rattle.moka_common.specs.Keys.{keys_by};
ghost use Rattle.moka_sync_model.specs.declared.constants.TheConstants.{SHARDS};
ghost use Rattle.moka_sync_model.specs.Entry.{entry_at, touched};
ghost use Rattle.moka_sync_model.specs.Turn.Plan.{Becomes, after_change};
ghost use Rattle.moka_shard.specs.Shard.{entries_in, state_of, unexpired};
ghost use Rattle.moka_sync_model.specs.Parts.{NeedsShard, entries_of, need_of};
ghost use Rattle.moka_sync_model.specs.Turn.Turn.{turn_at};
ghost use Rattle.moka_sync_model.specs.declared.operation.Write.TheVariants.{Upsert};
ghost use Rattle.moka_queues.specs.LoggedReads.{reads_of};
ghost use Rattle.moka_maintenance.specs.Taken.{IsScan, TakesWrite, having_taken_write};
ghost use Rattle.moka_core.specs.MapTurn.{TurnsOnMap, touched_by};
ghost use Rattle.std.specs.List.{All, fold};
ghost use Rattle.moka_core.specs.MapState.{IsInserted, IsInvalidated, IsNewMap, pairs_in};
ghost use Rattle.moka_core.specs.Shards.{AreOwn, IsAsBuilt, started, states_of};

use crate::rows::Rows;
use moka_common::error::{InsertError, OutOfMemory};
use moka_common::hash::FixedState;
use moka_common::shared::Shared;
use moka_common::time::Instant;
use moka_maintenance::maintenance::Maintenance;
use moka_queues::logs::LoggedRead;
use moka_shard::rule::AnyPair;
use moka_shard::shard::Shard;
use moka_sync_model::constants::SHARDS;
use moka_sync_model::operation::Read;
use moka_sync_model::settings::Settings;
use moka_sync_model::ticket::Ticket;
use moka_sync_model::weigh::WeighShared;
use std::alloc::{Allocator, Global};
use std::hash::{BuildHasher, Hash};
use std::marker::Model;

/// The entries of a core.
#[derive(Drop)]
pub struct Map<
    K: Eq + Hash + Drop,
    V: Drop,
    S: BuildHasher + Drop = FixedState,
    A: Allocator + Clone + Drop = Global,
> {
    settings: Settings<S, A>,
    shards: Vec<Shard<K, V, S, AnyPair, A>, A>,
}

impl<K: Eq + Hash + Drop, V: Drop, S: BuildHasher + Drop, A: Allocator + Clone + Drop> Model
    for Map<K, V, S, A> {
    ghost use Rattle.moka_common.specs.Keys.{keys_by};
    ghost use Rattle.moka_core.specs.MapState.{MapState};
    ghost use Rattle.moka_core.specs.Shards.{AreOwn, map_in, states_of};

    ghost Value = { MapState K V S };

    ghost view = { λ m. map_in m.settings (states_of m.shards.items) };

    ghost invariant = { λ m. AreOwn
        (keys_by (record { eq = K.eq; hash_input = K.hash_input }) S.BuildHasher S.Hasher.Hasher)
        m.settings.hash_state (states_of m.shards.items) };
}

impl<K: Eq + Hash + Drop, V: Drop, S: BuildHasher + Drop, A: Allocator + Clone + Drop> Map<
    K,
    V,
    S,
    A,
> {
    /// Makes a map with no entries and capacity for `capacity` of them in each shard.
    pub fn new(alloc: A, settings: Settings<S, A>, capacity: usize) -> Result<Self, OutOfMemory>
        ensures { IfOk result (λ map. map ≡ record { settings = settings; entries = []; next_numbers = replicate SHARDS 0 }) }
    {
        let shards = shards_as_built(alloc, settings.hash_state(), capacity)?;
        Ok(Map { settings, shards })
    }

    pub fn settings(&self) -> &Settings<S, A>
        ensures { result.now ≡ self.now.settings }
    {
        &self.settings
    }

    /// Returns the number of the next ticket of the first shard.
    pub fn first_ticket(&self) -> u64
        ensures { result ≡ slice_index self.now.next_numbers 0 }
    {
        self.shards[0].next_number()
    }

    /// Returns `true` if there is no entry, and each shard gives out this number next.
    pub fn is_new(&self, first: u64) -> bool
        ensures { IsTrue result ↔ IsNewMap first self.now }
    {
        are_as_built(&self.shards, first)
    }

    /// Sets the number of each shard's next ticket. There must be no entry.
    pub fn start_at(&mut self, first: u64)
        requires { self.old.entries ≡ [] }
        ensures { self.new ≡ record self.old { next_numbers = replicate SHARDS first } }
    {
        start_all_at(&mut self.shards, first);
    }

    /// Returns the hash of a key.
    pub fn hash_of(&self, key: &K) -> u64
        ensures { result ≡ (keys_by K.Hash S.BuildHasher S.Hasher.Hasher).hash_of self.now.settings.hash_state key.now }
    {
        self.settings.hash_state().get().hash_one(key)
    }

    /// Returns `true` if a key has a live entry.
    pub fn contains_key(&self, key: &K, valid_after: Instant, now: Instant) -> bool
        ensures { result ≡ is_some (unexpired self.now.settings valid_after now (entry_at K.eq key.now self.now.entries)) }
    {
        let hash = self.hash_of(key);
        let shard = &self.shards[(hash % SHARDS as u64) as usize];
        shard.contains_key(key, hash, &self.settings, valid_after, now)
    }

    /// Returns the value of a key's live entry, shared, its ticket, and the slot in which it may be found again.
    #[inline(always)]
    pub fn get(
        &self,
        key: &K,
        hash: u64,
        valid_after: Instant,
        now: Instant,
    ) -> Result<(Option<(Shared<V, A>, Ticket)>, usize), OutOfMemory>
        requires { hash ≡ (keys_by K.Hash S.BuildHasher S.Hasher.Hasher).hash_of self.now.settings.hash_state key.now }
        ensures value { IfOk result (λ found. found.0 ≡ option_map (λ e. (e.value, e.ticket))
            (unexpired self.now.settings valid_after now (entry_at K.eq key.now self.now.entries))) }
        ensures refused { IsErr result → IsSome (unexpired self.now.settings valid_after now (entry_at K.eq key.now self.now.entries)) }
    {
        let shard = &self.shards[(hash % SHARDS as u64) as usize];
        shard.get(key, hash, &self.settings, valid_after, now)
    }

    /// Puts the value at the key. Returns the entry's ticket.
    pub fn insert<W: WeighShared<K, V>>(
        &mut self,
        key: Shared<K, A>,
        value: Shared<V, A>,
        weigher: &W,
        now: Instant,
    ) -> Result<Ticket, InsertError>
        requires ready { W.ready weigher.now }
        ensures step { (weight : ℕ) × (refused : Bool) × OnOk result (W.weighs weigher.now key value weight)
            × IsInserted self.old ((keys_by K.Hash S.BuildHasher S.Hasher.Hasher).hash_of self.old.settings.hash_state key)
            key value weight now refused (entry_at K.eq key self.old.entries) result self.new }
    {
        let hash = self.hash_of(key.get());
        let shard = &mut self.shards[(hash % SHARDS as u64) as usize];
        shard.insert(hash, key, value, weigher, now)
    }

    /// Returns the live pairs of a shard, shared. It allocates only if there are any.
    pub fn copy(
        &self,
        alloc: &A,
        shard: usize,
        valid_after: Instant,
        now: Instant,
    ) -> Result<Rows<K, V, A>, OutOfMemory>
        requires { shard < SHARDS }
        ensures value { IfOk result (λ rows. rows ≡ pairs_in self.now shard valid_after now) }
        ensures refused { IsErr result → pairs_in self.now shard valid_after now ≢ [] }
    {
        let shard = &self.shards[shard];
        if !shard.has_pairs(&self.settings, valid_after, now) {
            return Ok(Rows::none());
        }
        let pairs = shard.pairs(alloc.clone()?, &self.settings, valid_after, now)?;
        Ok(Rows::new(pairs))
    }

    /// Removes the entry of a key. Returns its ticket.
    pub fn invalidate(&mut self, key: &K) -> Option<Ticket>
        ensures step { IsInvalidated self.old (entry_at K.eq key.now self.old.entries) result self.new }
    {
        let hash = self.hash_of(key);
        let shard = &mut self.shards[(hash % SHARDS as u64) as usize];
        shard.invalidate(key, hash)
    }

    /// Removes the entry of a key as `invalidate` does, and returns its value if it is live.
    pub fn take(
        &mut self,
        key: &K,
        valid_after: Instant,
        now: Instant,
    ) -> (Option<Shared<V, A>>, Option<Ticket>)
        ensures value { result.0 ≡ option_map (λ e. e.value)
            (unexpired self.old.settings valid_after now (entry_at K.eq key.now self.old.entries)) }
        ensures step { IsInvalidated self.old (entry_at K.eq key.now self.old.entries) result.1 self.new }
    {
        let hash = self.hash_of(key);
        let shard = &mut self.shards[(hash % SHARDS as u64) as usize];
        shard.take(key, hash, &self.settings, valid_after, now)
    }
}

impl<K: Eq + Hash + Drop, V: Drop, S: BuildHasher + Drop, A: Allocator + Clone + Drop> Map<
    K,
    V,
    S,
    A,
> {
    /// Takes a turn of the maintenance that needs the entry of a ticket.
    pub fn turn(&mut self, maintenance: &mut Maintenance<A>, ticket: Ticket, valid_after: Instant)
        requires { need_of (turn_at {K = K} {V = V} self.old.settings valid_after false maintenance.old.phase maintenance.old) ≡ NeedsShard ticket }
        ensures { (refused : Bool) × TurnsOnMap self.old self.new valid_after refused maintenance.old maintenance.new }
    {
        let shard = &mut self.shards[(ticket.hash % SHARDS as u64) as usize];
        shard.turn(maintenance, ticket, &self.settings, valid_after);
    }

    /// Takes a turn of a scan that needs the entry of a ticket.
    #[inline(always)]
    pub fn turn_of_scan(&mut self, maintenance: &mut Maintenance<A>, ticket: Ticket)
        requires scans { IsScan maintenance.old.phase }
        requires need { (valid_after : ℕ)
            × (need_of (turn_at {K = K} {V = V} self.old.settings valid_after false maintenance.old.phase maintenance.old) ≡ NeedsShard ticket) }
        ensures { (valid_after : ℕ)
            → need_of (turn_at {K = K} {V = V} self.old.settings valid_after false maintenance.old.phase maintenance.old) ≡ NeedsShard ticket
            → TurnsOnMap self.old self.new valid_after false maintenance.old maintenance.new }
    {
        let shard = &mut self.shards[(ticket.hash % SHARDS as u64) as usize];
        shard.scan(maintenance, ticket);
    }

    /// Touches the entry of a hit, if there is one, looking in a slot first. Returns a hint for its node.
    #[inline(always)]
    fn touch(&mut self, read: Read, slot: usize) -> usize
        ensures { self.new ≡ record self.old { entries = touched_by self.old.entries read } }
    {
        match read {
            Read::Hit { ticket, moment } => self.touch_entry(ticket, slot, moment),
            Read::Miss { .. } => 0,
        }
    }

    /// Touches the entry of a ticket, and returns a hint for its node.
    #[inline(always)]
    fn touch_entry(&mut self, ticket: Ticket, slot: usize, moment: Instant) -> usize
        ensures { self.new ≡ record self.old { entries = after_change ticket (Becomes (touched moment)) self.old.entries } }
    {
        let shard = &mut self.shards[(ticket.hash % SHARDS as u64) as usize];
        shard.touch(ticket, slot, moment)
    }

    /// Touches the entries of hits, one after another. Each read's hint is then that of its node.
    pub fn touch_all(&mut self, reads: &mut [LoggedRead])
        ensures entries { self.new ≡ record self.old { entries = fold touched_by self.old.entries (reads_of reads.old) } }
        ensures reads { reads_of reads.new ≡ reads_of reads.old }
    {
        for logged in reads.iter_mut() {
            logged.hint = self.touch(logged.read, logged.hint);
        }
    }

    /// Applies an upsert that the maintenance has just taken from its log.
    #[inline(always)]
    pub fn turn_with_upsert(&mut self, maintenance: &mut Maintenance<A>, ticket: Ticket)
        requires { TakesWrite maintenance.old }
        ensures { (refused : Bool) × ((valid_after : ℕ)
            → TurnsOnMap self.old self.new valid_after refused (having_taken_write (Upsert ticket) maintenance.old) maintenance.new) }
    {
        let shard = &mut self.shards[(ticket.hash % SHARDS as u64) as usize];
        shard.apply_upsert(maintenance, ticket, &self.settings);
    }
}

/// Makes all shards of a new map, with capacity for `capacity` entries in each.
fn shards_as_built<
    K: Eq + Hash + Drop,
    V: Drop,
    S: BuildHasher + Drop,
    A: Allocator + Clone + Drop,
>(
    alloc: A,
    hash_state: &Shared<S, A>,
    capacity: usize,
) -> Result<Vec<Shard<K, V, S, AnyPair, A>, A>, OutOfMemory>
    ensures own { IfOk result (λ shards.
        AreOwn (keys_by K.Hash S.BuildHasher S.Hasher.Hasher) hash_state.now (states_of shards.items)) }
    ensures empty { IfOk result (λ shards. entries_of (states_of shards.items) ≡ []) }
    ensures numbers { IfOk result (λ shards. map (λ s. s.next_number) (states_of shards.items) ≡ replicate SHARDS 0) }
{
    let mut shards = Vec::with_capacity(alloc.clone()?, SHARDS)?;
    for number in 0..SHARDS {
        let shard = Shard::new(alloc.clone()?, number, 0, capacity, hash_state.try_clone()?)?;
        shards.push(shard)?;
    }
    Ok(shards)
}

/// Sets the number of each shard's next ticket.
fn start_all_at<K: Eq + Hash + Drop, V: Drop, S: BuildHasher + Drop, A: Allocator + Clone + Drop>(
    shards: &mut Vec<Shard<K, V, S, AnyPair, A>, A>,
    first: u64,
)
    requires { All (λ shard. entries_in shard.slots ≡ []) shards.old.items }
    ensures { shards.new.items ≡ map (started first) shards.old.items }
{
    for shard in shards.iter_mut() {
        shard.start_at(first);
    }
}

/// Returns `true` if no shard has an entry, and each gives out this number next.
fn are_as_built<K: Eq + Hash + Drop, V: Drop, S: BuildHasher + Drop, A: Allocator + Clone + Drop>(
    shards: &[Shard<K, V, S, AnyPair, A>],
    number: u64,
) -> bool
    ensures { IsTrue result ↔ All (λ shard. IsAsBuilt number (state_of shard)) shards.now }
{
    for shard in shards {
        if shard.len() > 0 {
            return false;
        }
        if shard.next_number() != number {
            return false;
        }
    }
    true
}
