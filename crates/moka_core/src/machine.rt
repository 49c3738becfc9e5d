//! What takes one atomic step at a time: the map, the logs, what is pending and the maintenance, each by itself.
ghost use Rattle.std.specs.Prelude.{◌≡◌, ◌↔◌, [], replicate, IsTrue, slice_index, IfOk};
ghost use Rattle.moka_core.specs.Machine.{IsUntouched};
ghost use Rattle.moka_sync_model.specs.CoreCall.{IsAtRest};
ghost use Rattle.moka_sync_model.specs.CoreState.{IsNew, new_core, new_maintenance};

mod calls;
mod run;
mod steps;

use crate::map::Map;
use crate::pending::PendingOperations;
use moka_common::error::OutOfMemory;
use moka_common::policy::Policy;
use moka_common::shared::Shared;
use moka_common::time::Instant;
use moka_maintenance::maintenance::Maintenance;
use moka_queues::logs::{ReadLog, WriteLog};
use moka_sync_model::constants::SHARDS;
use moka_sync_model::phase::Phase;
use moka_sync_model::settings::{CoreParts, Settings};
use std::alloc::Allocator;
use std::hash::{BuildHasher, Hash};
use std::marker::Model;

/// The parts of a core.
#[derive(Drop)]
pub struct Machine<
    K: Eq + Hash + Drop,
    V: Drop,
    S: BuildHasher + Drop,
    W: Drop,
    A: Allocator + Clone + Drop,
> {
    map: Map<K, V, S, A>,
    weigher: W,
    valid_after: Instant,
    read_log: ReadLog<A>,
    write_log: WriteLog<A>,
    pending: PendingOperations<A>,
    maintenance: Maintenance<A>,
    sync_after: Option<Instant>,
    alloc: A,
}

impl<
    K: Eq + Hash + Drop,
    V: Drop,
    S: BuildHasher + Drop,
    W: Drop,
    A: Allocator + Clone + Drop,
> Model for Machine<K, V, S, W, A> {
    ghost use Rattle.moka_core.specs.Machine.{Machine as MachineValue};

    ghost Value = { MachineValue K V S W };

    ghost view = { λ c. record {
      state = record {
        settings = c.map.settings;
        entries = c.map.entries;
        next_numbers = c.map.next_numbers;
        valid_after = c.valid_after;
        read_log = c.read_log;
        write_log = c.write_log;
        pending = c.pending.operations;
        maintenance = c.maintenance;
        sync_after = c.sync_after;
      };
      weigher = c.weigher;
      room = c.pending.room;
    } };
}

impl<
    K: Eq + Hash + Drop,
    V: Drop,
    S: BuildHasher + Drop,
    W: Drop,
    A: Allocator + Clone + Drop,
> Machine<K, V, S, W, A> {
    /// Makes a machine of these parts, on which nothing has been done.
    pub fn from_parts(alloc: A, parts: CoreParts<S, W>) -> Result<Self, OutOfMemory>
        ensures state { IfOk result (λ machine. machine.state ≡ new_core
            (record { hash_state = parts.hash_state; policy = parts.policy; is_weighed = parts.is_weighed }) 0) }
        ensures weigher { IfOk result (λ machine. machine.weigher ≡ parts.weigher) }
    {
        let (read_log, write_log) = empty_logs(&alloc)?;
        let (pending, maintenance) = nothing_under_way(&alloc)?;
        let CoreParts {
            hash_state,
            policy,
            is_weighed,
            weigher,
            capacity,
        } = parts;
        let map = empty_map(&alloc, hash_state, policy, is_weighed, capacity)?;
        Ok(Machine {
            map,
            weigher,
            valid_after: Instant::from_nanos(0),
            read_log,
            write_log,
            pending,
            maintenance,
            sync_after: None,
            alloc,
        })
    }

    /// Returns the number of the next ticket of the first shard.
    pub fn first_ticket(&self) -> u64
        ensures { result ≡ slice_index self.now.state.next_numbers 0 }
    {
        self.map.first_ticket()
    }

    /// Sets the number of each shard's next ticket. There must be no entry.
    pub fn start_at(&mut self, first: u64)
        requires { self.old.state.entries ≡ [] }
        ensures { self.new ≡ record self.old { state = record self.old.state { next_numbers = replicate SHARDS first } } }
    {
        self.map.start_at(first);
    }

    /// Returns `true` if nothing has been done with it.
    pub fn is_new(&self) -> bool
        ensures { IsTrue result ↔ IsNew self.now.state }
    {
        if !self.is_untouched() {
            return false;
        }
        self.map.is_new(self.map.first_ticket())
    }

    /// Returns `true` if nothing has been done with it, but for its map.
    fn is_untouched(&self) -> bool
        ensures { IsTrue result ↔ IsUntouched self.now.state }
    {
        if self.valid_after.nanos() > 0 || self.sync_after.is_some() {
            return false;
        }
        if self.read_log.len() > 0 || self.write_log.len() > 0 {
            return false;
        }
        self.pending.is_empty() && self.maintenance.is_new()
    }

    /// Returns `true` if nothing is under way.
    pub fn is_at_rest(&self) -> bool
        ensures { IsTrue result ↔ IsAtRest self.now.state }
    {
        self.pending.is_empty() && self.maintenance.phase() == Phase::Idle
    }
}

/// Makes a map without entries, with capacity for `capacity` of them in each shard.
fn empty_map<K: Eq + Hash + Drop, V: Drop, S: BuildHasher + Drop, A: Allocator + Clone + Drop>(
    alloc: &A,
    hash_state: S,
    policy: Policy,
    is_weighed: bool,
    capacity: usize,
) -> Result<Map<K, V, S, A>, OutOfMemory>
    ensures { IfOk result (λ map. map ≡ record {
      settings = record { hash_state = hash_state; policy = policy; is_weighed = is_weighed };
      entries = [];
      next_numbers = replicate SHARDS 0;
    }) }
{
    let hash_state = Shared::new(alloc.clone()?, hash_state)?;
    let settings = Settings::new(hash_state, policy, is_weighed);
    Ok(Map::new(alloc.clone()?, settings, capacity)?)
}

/// Makes both logs, empty.
fn empty_logs<A: Allocator + Clone + Drop>(
    alloc: &A,
) -> Result<(ReadLog<A>, WriteLog<A>), OutOfMemory>
    ensures { IfOk result (λ logs. (logs.0 ≡ []) × (logs.1 ≡ [])) }
{
    let read_log = ReadLog::new(alloc.clone()?)?;
    let write_log = WriteLog::new(alloc.clone()?)?;
    Ok((read_log, write_log))
}

/// Makes pending operations with capacity for one caller's, and an idle maintenance.
fn nothing_under_way<A: Allocator + Clone + Drop>(
    alloc: &A,
) -> Result<(PendingOperations<A>, Maintenance<A>), OutOfMemory>
    ensures { IfOk result (λ parts. (parts.0 ≡ record { operations = []; room = 1 }) × (parts.1 ≡ new_maintenance)) }
{
    let pending = PendingOperations::new(alloc.clone()?)?;
    let maintenance = Maintenance::new(alloc.clone()?)?;
    Ok((pending, maintenance))
}
