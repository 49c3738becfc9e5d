// The calls that change a shard.
ghost use Rattle.std.specs.Prelude.{◌≡◌, ◌≤◌, ℕ, Bool, false, [], Some, None, IfSome, IfOk, OnOk, OnErr};
ghost use Rattle.std.specs.Prelude.{IsNone, IsSome, option_map, option_copied};
ghost use Rattle.slab.specs.Slab.{HasRoomFor};
ghost use Rattle.moka_common.specs.Keys.{keys_by};
ghost use Rattle.moka_list.specs.HashIndex.{candidates};
ghost use Rattle.moka_sync_model.specs.EntryChange.{change_of};
ghost use Rattle.moka_sync_model.specs.Entry.{entry_at, entry_of};
ghost use Rattle.moka_sync_model.specs.Parts.{IsValidShard};
ghost use Rattle.moka_sync_model.specs.Reply.{IsHanded};
ghost use Rattle.moka_sync_model.specs.Ticket.{shard_of};
ghost use Rattle.moka_sync_model.specs.declared.entry.EntryChange.TheVariants.{Touched};
ghost use Rattle.moka_sync_model.specs.declared.ticket.Ticket.{Ticket};
ghost use Rattle.moka_sync_model.specs.Turn.Plan.{after_change};
ghost use Rattle.moka_shard.specs.Permitted.{IsPermitted};
ghost use Rattle.moka_shard.specs.Shard.{entries_in, entry_found, entry_in, state_of, unexpired};
ghost use Rattle.moka_shard.specs.ShardStep.{IsInsert, IsInvalidation};
ghost use Rattle.moka_shard.specs.ShardTake.{IsTakeBy, counted_value};
ghost use Rattle.moka_shard.specs.Slots.{IsIndexed};

use crate::rule::PairRule;
use crate::shard::Shard;
use moka_common::error::{InsertError, OutOfMemory};
use moka_common::shared::Shared;
use moka_common::time::Instant;
use moka_list::hash_index::HashIndex;
use moka_sync_model::constants::{MAX_OUTSTANDING, NO_TICKET};
use moka_sync_model::entry::{Entry, EntryChange, node_hint_of};
use moka_sync_model::settings::Settings;
use moka_sync_model::ticket::Ticket;
use moka_sync_model::weigh::WeighShared;
use slab::Slab;
use std::alloc::Allocator;
use std::hash::{BuildHasher, Hash};

/// Fewest entries that a growth adds, so that a small shard seldom grows.
const MIN_GROWTH: usize = 4;

impl<
    K: Eq + Hash + Drop,
    V: Drop,
    S: BuildHasher + Drop,
    P: PairRule<K, V>,
    A: Allocator + Clone + Drop,
> Shard<K, V, S, P, A> {
    /// Puts the value at the key, and returns the entry's ticket. The hash is the key's. An equal key that is there stays, with its ticket. Memory is reserved
    /// before the weigher is asked, so a refused insert doesn't ask it.
    pub fn insert<W: WeighShared<K, V>>(
        &mut self,
        hash: u64,
        key: Shared<K, A>,
        value: Shared<V, A>,
        weigher: &W,
        now: Instant,
    ) -> Result<Ticket, InsertError>
        requires hashed { hash ≡ (keys_by K.Hash S.BuildHasher S.Hasher.Hasher).hash_of self.old.hash_state key }
        requires here { shard_of hash ≡ self.old.number }
        requires ruled { P.holds key value }
        requires ready { W.ready weigher.now }
        ensures step { (weight : ℕ) × (refused : Bool) × OnOk result (W.weighs weigher.now key value weight)
            × IsInsert (state_of self.old) hash key value weight now refused
            (entry_at K.eq key (entries_in self.old.slots)) result (state_of self.new) }
        ensures valid { IsValidShard (keys_by K.Hash S.BuildHasher S.Hasher.Hasher) (state_of self.new) }
    {
        match self.find(key.get(), hash) {
            Some(slot) => self.update(slot, key, value, weigher, now),
            None => self.add(hash, key, value, weigher, now),
        }
    }

    /// Replaces the value of a key's entry, in the slot in which it was found. Returns its ticket. It is refused if no more of its upserts can be counted.
    pub fn update<W: WeighShared<K, V>>(
        &mut self,
        slot: usize,
        key: Shared<K, A>,
        value: Shared<V, A>,
        weigher: &W,
        now: Instant,
    ) -> Result<Ticket, InsertError>
        requires found { IsSome (entry_in self.old.slots slot) }
        requires same { entry_in self.old.slots slot ≡ entry_at K.eq key (entries_in self.old.slots) }
        requires ruled { P.holds key value }
        requires ready { W.ready weigher.now }
        ensures step { (weight : ℕ) × OnOk result (W.weighs weigher.now key value weight)
            × IsInsert (state_of self.old) 0 key value weight now false (entry_in self.old.slots slot) result (state_of self.new) }
        ensures valid { IsValidShard (keys_by K.Hash S.BuildHasher S.Hasher.Hasher) (state_of self.new) }
    {
        let entry = &mut self.slots[slot];
        if entry.outstanding() == MAX_OUTSTANDING {
            return Err(InsertError::TicketsUsedUp);
        }
        let weight = weigher.weigh(key.get(), value.get());
        entry.update(value, weight, now);
        Ok(entry.ticket())
    }

    /// Adds the entry of a key that has none, and returns its ticket. Memory is reserved before the weigher is asked.
    pub fn add<W: WeighShared<K, V>>(
        &mut self,
        hash: u64,
        key: Shared<K, A>,
        value: Shared<V, A>,
        weigher: &W,
        now: Instant,
    ) -> Result<Ticket, InsertError>
        requires absent { entry_at K.eq key (entries_in self.old.slots) ≡ None }
        requires hashed { hash ≡ (keys_by K.Hash S.BuildHasher S.Hasher.Hasher).hash_of self.old.hash_state key }
        requires here { shard_of hash ≡ self.old.number }
        requires ruled { P.holds key value }
        requires ready { W.ready weigher.now }
        ensures step { (weight : ℕ) × (refused : Bool) × OnOk result (W.weighs weigher.now key value weight)
            × IsInsert (state_of self.old) hash key value weight now refused None result (state_of self.new) }
        ensures valid { IsValidShard (keys_by K.Hash S.BuildHasher S.Hasher.Hasher) (state_of self.new) }
    {
        if self.next_number == NO_TICKET {
            return Err(InsertError::TicketsUsedUp);
        }
        if make_room(&mut self.slots, &mut self.index).is_err() {
            return Err(InsertError::OutOfMemory);
        }
        let weight = weigher.weigh(key.get(), value.get());
        let ticket = Ticket {
            hash,
            number: self.next_number,
        };
        let entry = Entry::new(key, value, weight, now, ticket);
        let slot = self.slots.insert_reserved(entry);
        self.index.add(slot, hash);
        self.next_number += 1;
        Ok(ticket)
    }

    /// Removes the entry of a key, found by its hash. Returns its ticket.
    pub fn invalidate(&mut self, key: &K, hash: u64) -> Option<Ticket>
        ensures permitted { IsPermitted (keys_by K.Hash S.BuildHasher S.Hasher.Hasher) P.holds (state_of self.old) }
        ensures step { hash ≡ (keys_by K.Hash S.BuildHasher S.Hasher.Hasher).hash_of self.old.hash_state key.now
            → IsInvalidation (state_of self.old) (entry_at K.eq key.now (entries_in self.old.slots)) result (state_of self.new) }

        // What is found is the key's, whatever the hash is.
        ensures found { IfSome result (λ t.
            IsInvalidation (state_of self.old) (entry_at K.eq key.now (entries_in self.old.slots)) (Some t) (state_of self.new)) }
        ensures none { IsNone result → self.new ≡ self.old }
        ensures valid { IsValidShard (keys_by K.Hash S.BuildHasher S.Hasher.Hasher) (state_of self.new) }
    {
        let slot = self.find(key, hash)?;
        let (_, ticket) = self.remove(slot);
        Some(ticket)
    }

    /// Removes the entry of a key as `invalidate` does, and returns its value if it is live.
    pub fn take(
        &mut self,
        key: &K,
        hash: u64,
        settings: &Settings<S, A>,
        valid_after: Instant,
        now: Instant,
    ) -> (Option<Shared<V, A>>, Option<Ticket>)
        requires { hash ≡ (keys_by K.Hash S.BuildHasher S.Hasher.Hasher).hash_of self.old.hash_state key.now }
        ensures value { result.0 ≡ option_map (λ e. e.value)
            (unexpired settings.now valid_after now (entry_at K.eq key.now (entries_in self.old.slots))) }
        ensures step { IsInvalidation (state_of self.old) (entry_at K.eq key.now (entries_in self.old.slots)) result.1 (state_of self.new) }
        ensures valid { IsValidShard (keys_by K.Hash S.BuildHasher S.Hasher.Hasher) (state_of self.new) }
    {
        let Some(slot) = self.find(key, hash) else {
            return (None, None);
        };
        let is_live = self
            .unexpired(Some(slot), settings, valid_after, now)
            .is_some();
        let (value, ticket) = self.remove(slot);
        if !is_live {
            return (None, Some(ticket));
        }
        (Some(value), Some(ticket))
    }

    /// Removes the entry in a slot, and returns its value and its ticket.
    fn remove(&mut self, slot: usize) -> (Shared<V, A>, Ticket)
        requires { IsSome (entry_in self.old.slots slot) }
        ensures value { option_map (λ e. e.value) (entry_in self.old.slots slot) ≡ Some result.0 }
        ensures step { IsInvalidation (state_of self.old) (entry_in self.old.slots slot) (Some result.1) (state_of self.new) }
        ensures valid { IsValidShard (keys_by K.Hash S.BuildHasher S.Hasher.Hasher) (state_of self.new) }
    {
        let entry = self.slots.remove(slot);
        let ticket = entry.ticket();
        self.index.remove(slot, ticket.hash);
        (entry.into_value(), ticket)
    }

    /// Records that the entry of a ticket, if there is one, was used at a moment. Looks into `slot` first, where the caller has found it before. Returns the
    /// entry's node hint, or `NO_HINT`.
    pub fn touch(&mut self, ticket: Ticket, slot: usize, moment: Instant) -> usize
        ensures step { state_of self.new ≡ record (state_of self.old) {
          entries = after_change ticket (change_of (Touched moment)) (entries_in self.old.slots);
        } }
        ensures valid { IsValidShard (keys_by K.Hash S.BuildHasher S.Hasher.Hasher) (state_of self.new) }
    {
        let slot = self.find_ticket_at(ticket, slot);
        let hint = node_hint_of(self.entry(slot));
        self.change(slot, EntryChange::Touched(moment));
        hint
    }

    /// Makes this change to the entry in a slot, if a search has found one.
    pub fn change(&mut self, slot: Option<usize>, change: EntryChange)
        requires found { IfSome slot (λ s. IsSome (entry_in self.old.slots s)) }
        ensures step { (t : Ticket) → entry_found self.old.slots slot ≡ entry_of t (entries_in self.old.slots)
            → state_of self.new ≡ record (state_of self.old) { entries = after_change t (change_of change) (entries_in self.old.slots) } }
        ensures valid { IsValidShard (keys_by K.Hash S.BuildHasher S.Hasher.Hasher) (state_of self.old)
            → IsValidShard (keys_by K.Hash S.BuildHasher S.Hasher.Hasher) (state_of self.new) }
    {
        let Some(slot) = slot else {
            return;
        };
        match change {
            EntryChange::Stays => {}
            EntryChange::Touched(moment) => self.slots[slot].touch(moment),
            EntryChange::UpsertDone => self.slots[slot].finish_upsert(),
            EntryChange::Leaves => {
                self.remove(slot);
            }
        }
    }
}

impl<
    K: Eq + Hash + Drop,
    V: Clone,
    S: BuildHasher + Drop,
    P: PairRule<K, V>,
    A: Allocator + Clone + Drop,
> Shard<K, V, S, P, A> {
    /// Removes the entry of a key, found by its hash, and returns its ticket and a clone of its value if it is live. The clone is made before the entry leaves,
    /// so a refused clone changes nothing.
    pub fn take_clone(
        &mut self,
        key: &K,
        hash: u64,
        settings: &Settings<S, A>,
        valid_after: Instant,
        now: Instant,
    ) -> Result<(Option<V>, Option<Ticket>), OutOfMemory>
        ensures permitted { IsPermitted (keys_by K.Hash S.BuildHasher S.Hasher.Hasher) P.holds (state_of self.old) }
        ensures step { IfOk result (λ taken. IsTakeBy (keys_by K.Hash S.BuildHasher S.Hasher.Hasher) P.holds V.is_clone settings.now valid_after
            (state_of self.old) hash key.now now taken.0 taken.1 (state_of self.new)) }
        ensures refused { OnErr result ((self.new ≡ self.old) × ((value : V) × (¬ (V.is_infallible value))
            × (counted_value settings.now valid_after now (entry_at K.eq key.now (entries_in self.old.slots)) ≡ Some value))) }
        ensures valid { IsValidShard (keys_by K.Hash S.BuildHasher S.Hasher.Hasher) (state_of self.new) }
    {
        let Some(slot) = self.find(key, hash) else {
            return Ok((None, None));
        };
        let copy = try_clone_of(self.unexpired(Some(slot), settings, valid_after, now))?;
        let (_, ticket) = self.remove(slot);
        Ok((copy, Some(ticket)))
    }
}

/// Returns a clone of the value of an entry, if there is one.
fn try_clone_of<K: Drop, V: Clone, A: Allocator + Drop>(
    entry: Option<&Entry<K, V, A>>,
) -> Result<Option<V>, OutOfMemory>
    ensures ok { IfOk result (IsHanded V.is_clone (option_map (λ e. e.value) (option_copied entry.entry))) }
    ensures refused { OnErr result ((it : V) × (¬ (V.is_infallible it)) × (option_map (λ e. e.value) (option_copied entry.entry) ≡ Some it)) }
{
    match entry {
        Some(entry) => Ok(Some(entry.value().get().clone()?)),
        None => Ok(None),
    }
}

/// Reserves capacity for one more entry, in the slots and in the index. If there is none, capacity grows by a quarter, and by 4 at least.
fn make_room<K: Drop, V: Drop, A: Allocator + Clone + Drop>(
    slots: &mut Slab<Entry<K, V, A>, A>,
    index: &mut HashIndex<A>,
) -> Result<(), OutOfMemory>
    requires indexed { IsIndexed slots.old.slots index.old }
    ensures indexed { IsIndexed slots.new.slots index.new }
    ensures unchanged { slots.new.slots ≡ slots.old.slots }
    ensures room { OnOk result (HasRoomFor slots.new 1) }
    ensures ids { OnOk result (slots.new.capacity ≤ index.new.ids) }
{
    if slots.len() == slots.capacity() {
        slots.reserve_exact((slots.capacity() / 4).max(MIN_GROWTH))?;
    }
    let ids = slots.capacity();
    if index.ids() < ids {
        index.reset(ids)?;
        add_all(index, slots);
    }
    Ok(())
}

/// Adds all slots that have an entry to an index that has none.
fn add_all<K: Drop, V: Drop, A: Allocator + Clone + Drop>(
    index: &mut HashIndex<A>,
    slots: &Slab<Entry<K, V, A>, A>,
)
    requires bound { slots.now.capacity ≤ index.old.ids }
    requires empty { (hash : ℕ) → candidates index.old hash ≡ [] }
    ensures indexed { IsIndexed slots.now.slots index.new }
    ensures ids { index.new.ids ≡ index.old.ids }
{
    for slot in 0..slots.capacity() {
        if let Some(entry) = slots.get(slot) {
            index.add(slot, entry.ticket().hash);
        }
    }
}
