//! One shard of the map: the entries whose hashes belong to it, in the slots of a slab, found by the hashes of their keys.
ghost use Rattle.std.specs.Prelude.{◌≡◌, ◌≢◌, ◌↔◌, ◌==◌, ◌&&◌, [], IfSome, IfOk};
ghost use Rattle.std.specs.Prelude.{IsSome, IsErr, IsTrue, IsFalse, is_some, length, map, option_map, option_copied};
ghost use Rattle.std.specs.List.{IsDistinct};
ghost use Rattle.moka_common.specs.Keys.{keys_by};
ghost use Rattle.moka_sync_model.specs.Entry.{entry_at, entry_of};
ghost use Rattle.moka_sync_model.specs.Parts.{IsValidShard};
ghost use Rattle.moka_sync_model.specs.Ticket.{same_ticket, shard_of};
ghost use Rattle.moka_shard.specs.Permitted.{IsPermitted};
ghost use Rattle.moka_shard.specs.Rule.{PairsMeet};
ghost use Rattle.moka_shard.specs.Shard.{entries_in, entry_found, entry_in, state_of, unexpired};
ghost use Rattle.moka_shard.specs.ShardStep.{pairs_at};

mod changes;
mod turns;

use crate::rule::PairRule;
use moka_common::error::OutOfMemory;
use moka_common::shared::Shared;
use moka_common::time::Instant;
use moka_list::hash_index::HashIndex;
use moka_sync_model::constants::SHARDS;
use moka_sync_model::entry::Entry;
use moka_sync_model::settings::Settings;
use moka_sync_model::ticket::Ticket;
use slab::Slab;
use std::alloc::{Allocator, Global};
use std::hash::{BuildHasher, Hash};
use std::marker::{Model, PhantomData};

/// One shard of the map, whose pairs meet the rule. It gives out the ticket numbers of its entries.
#[derive(Drop)]
pub struct Shard<
    K: Eq + Hash + Drop,
    V: Drop,
    S: BuildHasher + Drop,
    P: PairRule<K, V>,
    A: Allocator + Clone + Drop = Global,
> {
    number: usize,
    next_number: u64,
    slots: Slab<Entry<K, V, A>, A>,
    index: HashIndex<A>,
    hash_state: Shared<S, A>,
    rule: PhantomData<P>,
}

impl<
    K: Eq + Hash + Drop,
    V: Drop,
    S: BuildHasher + Drop,
    P: PairRule<K, V>,
    A: Allocator + Clone + Drop,
> Model for Shard<K, V, S, P, A> {
    ghost use Rattle.moka_common.specs.Keys.{keys_by};
    ghost use Rattle.moka_shard.specs.Rule.{AllMeet};
    ghost use Rattle.moka_shard.specs.Shard.{Shard as ShardValue, entries_in};
    ghost use Rattle.moka_shard.specs.Slots.{AreSlots, IsIndexed};

    ghost Value = { ShardValue K V S };

    ghost view = { λ s. record {
      number = s.number;
      next_number = s.next_number;
      slots = s.slots.slots;
      hash_state = s.hash_state;
    } };

    ghost invariant = { λ s. AreSlots
        (keys_by (record { eq = K.eq; hash_input = K.hash_input }) S.BuildHasher S.Hasher.Hasher)
        s.hash_state s.number s.next_number s.slots.slots × IsIndexed s.slots.slots s.index
        × AllMeet P.holds (entries_in s.slots.slots) };
}

impl<
    K: Eq + Hash + Drop,
    V: Drop,
    S: BuildHasher + Drop,
    P: PairRule<K, V>,
    A: Allocator + Clone + Drop,
> Shard<K, V, S, P, A> {
    /// Makes a shard with no entries and capacity for `capacity` of them, which gives out the ticket numbers from `next_number` on.
    pub fn new(
        alloc: A,
        number: usize,
        next_number: u64,
        capacity: usize,
        hash_state: Shared<S, A>,
    ) -> Result<Self, OutOfMemory>
        ensures state { IfOk result (λ shard. state_of shard ≡
            record { number = number; next_number = next_number; entries = []; hash_state = hash_state }) }
        ensures valid { IfOk result (λ shard. IsValidShard (keys_by K.Hash S.BuildHasher S.Hasher.Hasher) (state_of shard)) }
    {
        let slots = Slab::with_capacity(alloc.clone()?, capacity)?;
        let mut index = HashIndex::new(alloc);
        index.reset(slots.capacity())?;
        Ok(Shard {
            number,
            next_number,
            slots,
            index,
            hash_state,
            rule: PhantomData,
        })
    }

    /// Returns the number of entries.
    pub fn len(&self) -> usize
        ensures len { result ≡ length (state_of self.now).entries }

        // What holds of every shard: keys and tickets come once, and each entry belongs here.
        ensures valid { IsValidShard (keys_by K.Hash S.BuildHasher S.Hasher.Hasher) (state_of self.now) }
    {
        self.slots.len()
    }

    /// Returns the number of the next new entry's ticket.
    pub fn next_number(&self) -> u64
        ensures { result ≡ self.now.next_number }
    {
        self.next_number
    }

    /// Sets the number of the next ticket. There must be no entry.
    pub fn start_at(&mut self, next_number: u64)
        requires { entries_in self.old.slots ≡ [] }
        ensures { self.new ≡ record self.old { next_number = next_number } }
    {
        self.next_number = next_number;
    }

    /// Returns the hash of a key.
    pub fn hash_of(&self, key: &K) -> u64
        ensures { result ≡ (keys_by K.Hash S.BuildHasher S.Hasher.Hasher).hash_of self.now.hash_state key.now }
    {
        self.hash_state.get().hash_one(key)
    }

    /// Returns `true` if keys of this hash belong to this shard.
    pub fn owns(&self, hash: u64) -> bool
        ensures { IsTrue result ↔ shard_of hash ≡ self.now.number }
    {
        (hash % SHARDS as u64) as usize == self.number
    }

    /// Returns the slot of the entry of a key, by its hash. A wrong `hash` may miss, but never finds another key.
    pub fn find(&self, key: &K, hash: u64) -> Option<usize>
        ensures value { hash ≡ (keys_by K.Hash S.BuildHasher S.Hasher.Hasher).hash_of self.now.hash_state key.now
            → entry_found self.now.slots result ≡ entry_at K.eq key.now (entries_in self.now.slots) }
        ensures found { IfSome result (λ slot. IsSome (entry_in self.now.slots slot)) }
        ensures same { IfSome result (λ slot. entry_in self.now.slots slot ≡ entry_at K.eq key.now (entries_in self.now.slots)) }
        ensures permitted { IsPermitted (keys_by K.Hash S.BuildHasher S.Hasher.Hasher) P.holds (state_of self.now) }
    {
        let slots = &self.slots;
        let is_sought = |slot|
            requires { IsSome (entry_in slots.now.slots slot) }
            ensures { IfSome (entry_in slots.entry.now.slots slot)
                (λ e. result ≡ ((e.ticket.hash == hash) && K.eq key.entry.now e.key)) }
        {
            let entry = &slots[slot];
            entry.ticket().hash == hash && *key == *entry.key().get()
        };
        self.index.find(hash, is_sought)
    }

    /// Returns the slot of the entry of a ticket.
    pub fn find_ticket(&self, ticket: Ticket) -> Option<usize>
        ensures value { entry_found self.now.slots result ≡ entry_of ticket (entries_in self.now.slots) }
        ensures found { IfSome result (λ slot. IsSome (entry_in self.now.slots slot)) }
        ensures valid { IsValidShard (keys_by K.Hash S.BuildHasher S.Hasher.Hasher) (state_of self.now) }
    {
        let slots = &self.slots;
        let is_sought = |slot|
            requires { IsSome (entry_in slots.now.slots slot) }
            ensures { IfSome (entry_in slots.entry.now.slots slot) (λ e. result ≡ same_ticket e.ticket ticket) }
        { slots[slot].ticket() == ticket };
        self.index.find(ticket.hash, is_sought)
    }

    /// Returns the slot of the entry of a ticket, looking first at `slot`, in which the caller has found it before. A right one spares the
    /// look-up in the index.
    fn find_ticket_at(&self, ticket: Ticket, slot: usize) -> Option<usize>
        ensures value { entry_found self.now.slots result ≡ entry_of ticket (entries_in self.now.slots) }
        ensures found { IfSome result (λ slot. IsSome (entry_in self.now.slots slot)) }
        ensures valid { IsValidShard (keys_by K.Hash S.BuildHasher S.Hasher.Hasher) (state_of self.now) }
    {
        if let Some(entry) = self.slots.get(slot) {
            if entry.ticket() == ticket {
                return Some(slot);
            }
        }
        self.find_ticket(ticket)
    }

    /// Returns the entry in a slot, if a search has found one.
    pub fn entry(&self, slot: Option<usize>) -> Option<&Entry<K, V, A>>
        ensures { option_copied result ≡ entry_found self.now.slots slot }
    {
        self.slots.get(slot?)
    }

    /// Returns the weight of the entry in a slot, if a search has found one.
    pub fn weight(&self, slot: Option<usize>) -> Option<u32>
        ensures { result ≡ option_map (λ e. e.weight) (entry_found self.now.slots slot) }
    {
        Some(self.entry(slot)?.weight())
    }

    /// Returns the entry in a slot, if a search has found one and it is live.
    fn unexpired(
        &self,
        slot: Option<usize>,
        settings: &Settings<S, A>,
        valid_after: Instant,
        now: Instant,
    ) -> Option<&Entry<K, V, A>>
        ensures { option_copied result ≡ unexpired settings.now valid_after now (entry_found self.now.slots slot) }
    {
        let entry = self.entry(slot)?;
        if entry.is_expired(settings, valid_after, now) {
            return None;
        }
        Some(entry)
    }

    /// Returns `true` if a key has a live entry. It is found by the hash.
    pub fn contains_key(
        &self,
        key: &K,
        hash: u64,
        settings: &Settings<S, A>,
        valid_after: Instant,
        now: Instant,
    ) -> bool
        ensures permitted { IsPermitted (keys_by K.Hash S.BuildHasher S.Hasher.Hasher) P.holds (state_of self.now) }
        ensures value { hash ≡ (keys_by K.Hash S.BuildHasher S.Hasher.Hasher).hash_of self.now.hash_state key.now
            → result ≡ is_some (unexpired settings.now valid_after now (entry_at K.eq key.now (entries_in self.now.slots))) }

        // What is found is the key's, whatever the hash is.
        ensures found { IsTrue result
            → IsTrue (is_some (unexpired settings.now valid_after now (entry_at K.eq key.now (entries_in self.now.slots)))) }
    {
        let slot = self.find(key, hash);
        self.unexpired(slot, settings, valid_after, now).is_some()
    }

    /// Returns the value of a key's live entry, shared, its ticket, and the slot in which it may be found again. It is found by the hash.
    #[inline(always)]
    pub fn get(
        &self,
        key: &K,
        hash: u64,
        settings: &Settings<S, A>,
        valid_after: Instant,
        now: Instant,
    ) -> Result<(Option<(Shared<V, A>, Ticket)>, usize), OutOfMemory>
        ensures permitted { IsPermitted (keys_by K.Hash S.BuildHasher S.Hasher.Hasher) P.holds (state_of self.now) }
        ensures ruled { IfOk result (λ found. IfSome found.0 (λ f. P.holds key.now f.0)) }
        ensures value { hash ≡ (keys_by K.Hash S.BuildHasher S.Hasher.Hasher).hash_of self.now.hash_state key.now
            → IfOk result (λ found. found.0 ≡ option_map (λ e. (e.value, e.ticket))
            (unexpired settings.now valid_after now (entry_at K.eq key.now (entries_in self.now.slots)))) }

        // What is found is the key's, whatever the hash is.
        ensures found { IfOk result (λ found. IsSome found.0 → found.0 ≡ option_map (λ e. (e.value, e.ticket))
            (unexpired settings.now valid_after now (entry_at K.eq key.now (entries_in self.now.slots)))) }

        // Only a copy can be refused.
        ensures refused { IsErr result →
            IsSome (unexpired settings.now valid_after now (entry_at K.eq key.now (entries_in self.now.slots))) }
    {
        let slot = self.find(key, hash);
        let hint = slot.unwrap_or(0);
        let Some(entry) = self.unexpired(slot, settings, valid_after, now) else {
            return Ok((None, hint));
        };
        let value = entry.value().try_clone()?;
        Ok((Some((value, entry.ticket())), hint))
    }

    /// Returns `true` if the shard has a live pair.
    pub fn has_pairs(&self, settings: &Settings<S, A>, valid_after: Instant, now: Instant) -> bool
        ensures some { IsTrue result → pairs_at settings.now valid_after now (state_of self.now) ≢ [] }
        ensures none { IsFalse result → pairs_at settings.now valid_after now (state_of self.now) ≡ [] }
    {
        for (_, entry) in self.slots.iter() {
            if !entry.is_expired(settings, valid_after, now) {
                return true;
            }
        }
        false
    }

    /// Returns the live pairs, shared.
    pub fn pairs(
        &self,
        alloc: A,
        settings: &Settings<S, A>,
        valid_after: Instant,
        now: Instant,
    ) -> Result<Vec<(Shared<K, A>, Shared<V, A>), A>, OutOfMemory>
        ensures permitted { IsPermitted (keys_by K.Hash S.BuildHasher S.Hasher.Hasher) P.holds (state_of self.now) }
        ensures ruled { IfOk result (λ pairs. PairsMeet P.holds pairs.items) }
        ensures once { IfOk result (λ pairs. IsDistinct K.eq (map (λ p. p.0) pairs.items)) }
        ensures value { IfOk result (λ pairs. pairs.items ≡ pairs_at settings.now valid_after now (state_of self.now)) }

        // Only where there are any can it be refused.
        ensures refused { IsErr result → pairs_at settings.now valid_after now (state_of self.now) ≢ [] }
    {
        let mut pairs = Vec::new(alloc);
        for (_, entry) in self.slots.iter() {
            if !entry.is_expired(settings, valid_after, now) {
                pairs.push((entry.key().try_clone()?, entry.value().try_clone()?))?;
            }
        }
        Ok(pairs)
    }
}
