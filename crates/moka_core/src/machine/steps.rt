// The atomic steps: each changes the map, or what is pending, or a log, or the maintenance.
ghost use Rattle.std.specs.Prelude.{◌≡◌, Bool, IfErr, IfOk, OnErr};
ghost use Rattle.moka_common.specs.Keys.{keys_by};
ghost use Rattle.moka_core.specs.Machine.{FindsFor, InsertsFor, KeepsAllButMap, KeepsRoom, RefusesFor, RefusesInsertFor, RemovesFor, TakesFor};
ghost use Rattle.moka_core.specs.Machine.{refusal_reply};
ghost use Rattle.moka_core.specs.Pending.{HasRoomFor};
ghost use Rattle.moka_sync_model.specs.Run.{Happens};
ghost use Rattle.moka_sync_model.specs.Turn.Turn.{after_turn};

use crate::machine::Machine;
use crate::rows::Rows;
use moka_common::error::{InsertError, OutOfMemory};
use moka_common::shared::Shared;
use moka_common::time::Instant;
use moka_maintenance::maintenance::Need;
use moka_queues::logs::LoggedRead;
use moka_sync_model::constants::SHARDS;
use moka_sync_model::event::{Event, Reply};
use moka_sync_model::operation::{Operation, Read, Write};
use moka_sync_model::phase::Phase;
use moka_sync_model::weigh::WeighShared;
use std::alloc::Allocator;
use std::hash::{BuildHasher, Hash};

impl<
    K: Eq + Hash + Drop,
    V: Drop,
    S: BuildHasher + Drop,
    W: WeighShared<K, V>,
    A: Allocator + Clone + Drop,
> Machine<K, V, S, W, A> {
    /// Inserts for a caller.
    pub fn insert(
        &mut self,
        caller: u32,
        key: Shared<K, A>,
        value: Shared<V, A>,
        now: Instant,
    ) -> Reply<Shared<V, A>, Rows<K, V, A>>
        requires ready { W.ready self.old.weigher }
        requires room { HasRoomFor caller self.old.room }
        ensures step { Happens (keys_by K.Hash S.BuildHasher S.Hasher.Hasher) (W.weighs self.old.weigher)
            self.old.state (Event.Insert caller key value now) result self.new.state }
        ensures kept { KeepsRoom self.old self.new }
    {
        if self.pending.of(caller).is_some() {
            return Reply::NotPossible;
        }
        match self.insert_into_map(key, value, now) {
            Ok(write) => {
                self.pending.put(caller, Operation::Writing(write));
                Reply::Done
            }
            Err(error) => refusal(error),
        }
    }

    /// Inserts into the map for a caller who has nothing pending, and returns the write that it leaves pending.
    pub(super) fn insert_into_map(
        &mut self,
        key: Shared<K, A>,
        value: Shared<V, A>,
        now: Instant,
    ) -> Result<Write, InsertError>
        requires ready { W.ready self.old.weigher }
        ensures inserted { IfOk result (InsertsFor (keys_by K.Hash S.BuildHasher S.Hasher.Hasher) (W.weighs self.old.weigher)
            self.old.state self.new.state key value now) }
        ensures refused { IfErr result (RefusesInsertFor (keys_by K.Hash S.BuildHasher S.Hasher.Hasher) (W.weighs self.old.weigher)
            self.old.state self.new.state key value now) }
        ensures kept { KeepsAllButMap self.old self.new }
    {
        let ticket = self.map.insert(key, value, &self.weigher, now)?;
        Ok(Write::Upsert { ticket })
    }

    /// Looks a key up for a caller.
    pub fn get(&mut self, caller: u32, key: &K, now: Instant) -> Reply<Shared<V, A>, Rows<K, V, A>>
        requires room { HasRoomFor caller self.old.room }
        ensures step { Happens (keys_by K.Hash S.BuildHasher S.Hasher.Hasher) (W.weighs self.old.weigher)
            self.old.state (Event.Get caller key.now now) result self.new.state }
        ensures kept { KeepsRoom self.old self.new }
    {
        if self.pending.of(caller).is_some() {
            return Reply::NotPossible;
        }
        let Ok((found, logged)) = self.look_up(key, now) else {
            return Reply::OutOfMemory;
        };
        self.pending.put(caller, Operation::Reading(logged.read));
        Reply::Found(found)
    }

    /// Looks a key up for a caller who has nothing pending, and returns the read that it leaves pending.
    #[inline(always)]
    pub(super) fn look_up(
        &self,
        key: &K,
        now: Instant,
    ) -> Result<(Option<Shared<V, A>>, LoggedRead), OutOfMemory>
        ensures found { IfOk result (λ found. FindsFor (keys_by K.Hash S.BuildHasher S.Hasher.Hasher) (W.weighs self.now.weigher)
            self.now.state key.now now found.0 found.1.read) }
        ensures refused { OnErr result (RefusesFor (keys_by K.Hash S.BuildHasher S.Hasher.Hasher) (W.weighs self.now.weigher)
            self.now.state key.now now) }
    {
        let hash = self.map.hash_of(key);
        let (found, hint) = self.map.get(key, hash, self.valid_after, now)?;
        match found {
            Some((value, ticket)) => {
                let read = Read::Hit {
                    ticket,
                    moment: now,
                };
                Ok((Some(value), LoggedRead { read, hint }))
            }
            None => {
                let read = Read::Miss { hash };
                Ok((None, LoggedRead { read, hint }))
            }
        }
    }

    /// Replies `true` if a key has a live entry.
    pub fn contains_key(&self, key: &K, now: Instant) -> Reply<Shared<V, A>, Rows<K, V, A>>
        ensures step { Happens (keys_by K.Hash S.BuildHasher S.Hasher.Hasher) (W.weighs self.now.weigher)
            self.now.state (Event.Contains key.now now) result self.now.state }
    {
        Reply::Bool(self.map.contains_key(key, self.valid_after, now))
    }

    /// Invalidates a key for a caller.
    pub fn invalidate(
        &mut self,
        caller: u32,
        key: &K,
        now: Instant,
    ) -> Reply<Shared<V, A>, Rows<K, V, A>>
        requires room { HasRoomFor caller self.old.room }
        ensures step { Happens (keys_by K.Hash S.BuildHasher S.Hasher.Hasher) (W.weighs self.old.weigher)
            self.old.state (Event.Invalidate caller key.now now) result self.new.state }
        ensures kept { KeepsRoom self.old self.new }
    {
        if self.pending.of(caller).is_some() {
            return Reply::NotPossible;
        }
        let Some(write) = self.remove_from_map(key) else {
            return Reply::Done;
        };
        self.pending.put(caller, Operation::Writing(write));
        Reply::Done
    }

    /// Invalidates a key for a caller who has nothing pending, and returns the write that it leaves pending, if there was an entry.
    pub(super) fn remove_from_map(&mut self, key: &K) -> Option<Write>
        ensures taken { TakesFor (keys_by K.Hash S.BuildHasher S.Hasher.Hasher) (W.weighs self.old.weigher)
            self.old.state self.new.state key.now result }
        ensures kept { KeepsAllButMap self.old self.new }
    {
        let ticket = self.map.invalidate(key)?;
        Some(Write::Remove { ticket })
    }

    /// Removes a key for a caller, and replies with its live value.
    pub fn take(&mut self, caller: u32, key: &K, now: Instant) -> Reply<Shared<V, A>, Rows<K, V, A>>
        requires room { HasRoomFor caller self.old.room }
        ensures step { Happens (keys_by K.Hash S.BuildHasher S.Hasher.Hasher) (W.weighs self.old.weigher)
            self.old.state (Event.Take caller key.now now) result self.new.state }
        ensures kept { KeepsRoom self.old self.new }
    {
        if self.pending.of(caller).is_some() {
            return Reply::NotPossible;
        }
        let (found, write) = self.remove_value(key, now);
        let Some(write) = write else {
            return Reply::Found(found);
        };
        self.pending.put(caller, Operation::Writing(write));
        Reply::Found(found)
    }

    /// Removes a key for a caller who has nothing pending. It returns the key's live value, and the write that it leaves pending if there was an entry.
    pub(super) fn remove_value(
        &mut self,
        key: &K,
        now: Instant,
    ) -> (Option<Shared<V, A>>, Option<Write>)
        ensures taken { RemovesFor (keys_by K.Hash S.BuildHasher S.Hasher.Hasher) (W.weighs self.old.weigher)
            self.old.state self.new.state key.now now result.0 result.1 }
        ensures kept { KeepsAllButMap self.old self.new }
    {
        let (found, ticket) = self.map.take(key, self.valid_after, now);
        let Some(ticket) = ticket else {
            return (found, None);
        };
        (found, Some(Write::Remove { ticket }))
    }

    /// Hides all entries that were last written, or last read, before a moment.
    pub fn invalidate_all(&mut self, now: Instant) -> Reply<Shared<V, A>, Rows<K, V, A>>
        ensures step { Happens (keys_by K.Hash S.BuildHasher S.Hasher.Hasher) (W.weighs self.old.weigher)
            self.old.state (Event.InvalidateAll now) result self.new.state }
        ensures kept { KeepsRoom self.old self.new }
    {
        if self.valid_after < now {
            self.valid_after = now;
        }
        Reply::Done
    }

    /// Puts what a caller has pending into its log.
    pub fn push(&mut self, caller: u32) -> Reply<Shared<V, A>, Rows<K, V, A>>
        ensures step { Happens (keys_by K.Hash S.BuildHasher S.Hasher.Hasher) (W.weighs self.old.weigher)
            self.old.state (Event.Push caller) result self.new.state }
        ensures kept { KeepsRoom self.old self.new }
    {
        match self.pending.of(caller) {
            None => Reply::NotPossible,
            Some(Operation::Reading(read)) => {
                let _ = self.pending.take(caller);
                match self.read_log.push(read) {
                    Ok(()) => Reply::Done,
                    Err(_) => Reply::Discarded,
                }
            }
            Some(Operation::Writing(write)) => {
                if self.write_log.push(write).is_err() {
                    return Reply::NotPossible;
                }
                let _ = self.pending.take(caller);
                Reply::Done
            }
        }
    }

    /// Drops the read that a caller has pending.
    pub fn forget(&mut self, caller: u32) -> Reply<Shared<V, A>, Rows<K, V, A>>
        ensures step { Happens (keys_by K.Hash S.BuildHasher S.Hasher.Hasher) (W.weighs self.old.weigher)
            self.old.state (Event.Forget caller) result self.new.state }
        ensures kept { KeepsRoom self.old self.new }
    {
        let Some(Operation::Reading(_)) = self.pending.of(caller) else {
            return Reply::NotPossible;
        };
        let _ = self.pending.take(caller);
        Reply::Done
    }

    /// Copies the live pairs of a shard.
    pub(super) fn copy(&self, shard: usize, now: Instant) -> Reply<Shared<V, A>, Rows<K, V, A>>
        ensures step { Happens (keys_by K.Hash S.BuildHasher S.Hasher.Hasher) (W.weighs self.now.weigher)
            self.now.state (Event.Copy shard now) result self.now.state }
    {
        if shard >= SHARDS {
            return Reply::NotPossible;
        }
        match self.map.copy(&self.alloc, shard, self.valid_after, now) {
            Ok(rows) => Reply::Rows(rows),
            Err(_) => Reply::OutOfMemory,
        }
    }

    /// Begins a maintenance, unless one is under way.
    pub fn begin(&mut self, now: Instant) -> Reply<Shared<V, A>, Rows<K, V, A>>
        ensures step { Happens (keys_by K.Hash S.BuildHasher S.Hasher.Hasher) (W.weighs self.old.weigher)
            self.old.state (Event.Begin now) result self.new.state }
        ensures kept { KeepsRoom self.old self.new }
    {
        if self.maintenance.phase() != Phase::Idle {
            return Reply::NotPossible;
        }
        self.maintenance.begin(now);
        Reply::Done
    }

    /// Takes a turn of the maintenance, if one is under way.
    pub fn turn(&mut self) -> Reply<Shared<V, A>, Rows<K, V, A>>
        ensures step { Happens (keys_by K.Hash S.BuildHasher S.Hasher.Hasher) (W.weighs self.old.weigher)
            self.old.state Event.Turn result self.new.state }
        ensures kept { KeepsRoom self.old self.new }
    {
        if let Phase::Idle = self.maintenance.phase() {
            return Reply::NotPossible;
        }
        self.take_turn();
        Reply::At(self.maintenance.phase())
    }

    /// Takes one turn of the maintenance, with what it needs.
    pub(super) fn take_turn(&mut self)
        ensures turn { (refused : Bool) × (self.new.state ≡ after_turn refused self.old.state) }
        ensures kept { KeepsRoom self.old self.new }
    {
        if let Some(ticket) = self.maintenance.need_to_scan::<K, V, S>() {
            self.map.turn_of_scan(&mut self.maintenance, ticket);
            return;
        }
        let settings = self.map.settings();
        match self.maintenance.need::<K, V, S>(settings, self.valid_after) {
            Need::Nothing => self.maintenance.turn_alone::<K, V, S>(settings),
            Need::Reads => self
                .maintenance
                .turn_with_reads::<K, V, S>(&mut self.read_log),
            Need::Writes => self
                .maintenance
                .turn_with_writes::<K, V, S>(&mut self.write_log),
            Need::Entry(ticket) => {
                self.map
                    .turn(&mut self.maintenance, ticket, self.valid_after)
            }
        }
    }

    /// Returns the number of charged entries and their weight.
    pub(super) fn counts(&self) -> Reply<Shared<V, A>, Rows<K, V, A>>
        ensures step { Happens (keys_by K.Hash S.BuildHasher S.Hasher.Hasher) (W.weighs self.now.weigher)
            self.now.state Event.Counts result self.now.state }
    {
        Reply::Counts {
            count: self.maintenance.count(),
            weight: self.maintenance.charged_weight(),
        }
    }
}

/// Returns the reply to an insert that was refused.
pub(super) fn refusal<K: Drop, V: Drop, A: Allocator + Drop>(
    error: InsertError,
) -> Reply<Shared<V, A>, Rows<K, V, A>>
    ensures { result ≡ refusal_reply error }
{
    match error {
        InsertError::OutOfMemory => Reply::OutOfMemory,
        InsertError::TicketsUsedUp => Reply::TicketsUsedUp,
    }
}
