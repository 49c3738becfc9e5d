//! The entries of a cache: one list in order of use with its three parts, one in order of writing, and an index by hash. Only this module finds, adds,
//! changes and removes entries.
ghost use Rattle.std.specs.Prelude.{◌≡◌, ◌≤◌, ◌<◌, ◌+◌, ◌-◌, ◌^◌, ◌++◌, ◌==◌, ◌&&◌, ℕ, [], length, nat_eq};
ghost use Rattle.std.specs.Prelude.{IfOk, IfSome, IsNone, IsOk, IsSome, None, OnOk, Some, option_map};
ghost use Rattle.std.specs.List.{IsDistinct};
ghost use Rattle.std.specs.Map.{keys_of, lookup};
ghost use Rattle.moka_list.specs.Nodes.{first_id, next_id};
ghost use Rattle.moka_common.specs.Settings.{keeps_writes};
ghost use Rattle.moka_unsync_model.specs.Contents.{InOrder, balanced, entry_at, entry_keys, entry_where, no_contents, total_weight, window_of};
ghost use Rattle.moka_unsync_model.specs.Contents.{writes_except};
ghost use Rattle.moka_unsync_model.specs.declared.entry.Part.TheVariants.{Probation};
ghost use Rattle.moka_store.specs.Nodes.{start_of};
ghost use Rattle.moka_store.specs.Store.{AreCandidates, Continues, Enters, HasHash, IsFound, IsFront, IsFrontOf, IsOldest, Promotes, Removes, Replaces};
ghost use Rattle.moka_store.specs.Store.{StaysInProbation, Updates, Uses};
ghost use Rattle.moka_store.specs.Store.{contents_of, entries_of, is_of, those_of};

mod modify;

use crate::parts::{
    Marks, Weights, add_write, attach, balance, is_of, may_be_protected, remove_write, rewrite,
    used_part, write_again,
};
pub use modify::Moments;
use moka_common::error::OutOfMemory;
use moka_common::lookup::Lookup;
use moka_common::policy::Policy;
use moka_common::time::Instant;
use moka_list::chain::{Chain, IdList, Iter, NodeId};
use moka_list::constants::MAX_IDS;
use moka_list::growing_index::{Candidates, GrowingIndex};
use moka_list::indexing::{make_room, move_some};
use moka_unsync_model::entry::{Entry, Part};
use std::alloc::{AllocError, Allocator, Global};
use std::hash::Hash;
use std::marker::Model;
use std::mem::replace;

/// The entries of a cache. A look-up, an insert, a use and a removal take constant time on average.
#[derive(Drop)]
pub struct Store<K: Eq + Drop, V: Drop, A: Allocator + Clone + Drop = Global> {
    // Probation, protected and the window, one after another, each in order of use.
    entries: Chain<Entry<K, V>, A>,
    marks: Marks,
    weights: Weights,
    // The weight limit of protected.
    protected_limit: u64,
    // The same nodes in order of writing, where that is kept.
    writes: IdList<A>,
    keeps_writes: bool,
    index: GrowingIndex<A>,
    // Entries that fit with no allocation.
    ready: usize,
}

impl<K: Eq + Drop, V: Drop, A: Allocator + Clone + Drop> Model for Store<K, V, A> {
    ghost use Rattle.moka_store.specs.Store.{Store as StoreState};
    ghost use Rattle.moka_store.specs.Room.{HasRoom};
    ghost use Rattle.moka_store.specs.Nodes.{IsStored, written_under};

    ghost Value = { StoreState K V };

    ghost view = { λ s. record {
      nodes = s.entries.items;
      written = written_under s.entries.items s.writes.ids;
      keeps_writes = s.keeps_writes;
      protected_limit = s.protected_limit;
      capacity = s.ready;
    } };

    ghost invariant = { λ s. IsStored K.eq s.keeps_writes s.entries.items s.marks s.writes.ids s.weights s.index
        × HasRoom s.keeps_writes s.ready s.entries s.writes s.index };
}

impl<K: Eq + Drop, V: Drop, A: Allocator + Clone + Drop> Store<K, V, A> {
    /// Makes an empty store, which allocates nothing. It keeps the order of writing if the policy has a time to live.
    pub fn new(alloc: A, policy: Policy, protected_limit: u64) -> Result<Self, AllocError>
        ensures { IfOk result (λ store. store ≡ record {
          nodes = [];
          written = [];
          keeps_writes = keeps_writes policy;
          protected_limit = protected_limit;
          capacity = 0;
        }) }
    {
        Ok(Store {
            entries: Chain::new(alloc.clone()?, alloc.clone()?),
            marks: Marks::none(),
            weights: Weights::none(),
            protected_limit,
            writes: IdList::new(alloc.clone()?),
            keeps_writes: policy.time_to_live().is_some(),
            index: GrowingIndex::new(alloc.clone()?, alloc),
            ready: 0,
        })
    }

    /// Reserves capacity for `additional` more entries, doubling up to `most` or up to the most ids of an index.
    #[inline(always)]
    pub fn reserve(&mut self, additional: usize, most: usize) -> Result<(), OutOfMemory>
        ensures ok { OnOk result (length self.new.nodes + additional ≤ self.new.capacity) }
        ensures had_room { length self.old.nodes + additional ≤ self.old.capacity → IsOk result × (self.new ≡ self.old) }
        ensures unchanged { self.new ≡ record self.old { capacity = self.new.capacity } }
    {
        if self.entries.len().saturating_add(additional) <= self.ready {
            return Ok(());
        }
        self.grow(additional, most)
    }

    /// Grows to this capacity. The index grows first, so a refusal of its memory leaves the lists as they were.
    #[cold]
    #[inline(never)]
    fn grow(&mut self, additional: usize, most: usize) -> Result<(), OutOfMemory>
        ensures ok { OnOk result (length self.new.nodes + additional ≤ self.new.capacity) }
        ensures unchanged { self.new ≡ record self.old { capacity = self.new.capacity } }
    {
        let (len, ids) = (self.entries.len(), self.entries.capacity());
        self.ready = 0;
        let needed = len.saturating_add(additional);
        if needed > ids {
            let target = needed.max(most.min(ids.saturating_mul(2)).min(MAX_IDS));
            make_room(&mut self.index, &self.entries, target)?;
            self.entries.reserve_exact(additional.max(target - len))?;
        } else {
            self.entries.reserve_exact(additional)?;
        }
        let ids = self.entries.capacity();
        make_room(&mut self.index, &self.entries, ids)?;
        if self.keeps_writes {
            self.writes.reserve(ids)?;
        }
        self.ready = self.entries.fits();
        Ok(())
    }

    /// Returns the number of entries.
    pub fn len(&self) -> usize
        ensures { result ≡ length self.now.nodes }
    {
        self.entries.len()
    }

    /// Returns the total weight of all entries. It also says that no key stands twice.
    pub fn weight(&self) -> u64
        ensures value { result ≡ total_weight (entries_of self.now) }
        ensures small { result + (2 ^ 32 - 1) < 2 ^ 64 }
        ensures once { IsDistinct K.eq (entry_keys (entries_of self.now)) }
    {
        self.weights.all
    }

    /// Returns the total weight of the window's entries.
    pub fn window_weight(&self) -> u64
        ensures value { result ≡ total_weight (window_of (entries_of self.now)) }
        ensures part { result ≤ total_weight (entries_of self.now) }
    {
        self.weights.window
    }

    /// Begins a search: the ids of the nodes that may have this hash. A call that has other work to do begins early, so that memory answers meanwhile.
    #[inline(always)]
    pub fn candidates(&self, hash: u64) -> Candidates<'_, A>
        ensures { AreCandidates self.now hash result }
    {
        self.index.candidates(hash)
    }

    /// Ends a search: finds the node of the key that the probe stands for among the candidates of its hash.
    #[inline(always)]
    pub fn find_among<Q: Lookup<K>>(
        &self,
        candidates: Candidates<'_, A>,
        probe: Q,
        hash: u64,
    ) -> Option<NodeId>
    where
        K: Hash,
        requires candidates { AreCandidates self.now hash candidates }
        requires hashed { HasHash (Q.stands_for probe) self.now hash }
        ensures found { IfSome result (λ id. IsFound (Q.stands_for probe) self.now id) }
        ensures absent { IsNone result → entry_where (Q.stands_for probe) (entries_of self.now) ≡ None }
        ensures unwritten { IsNone result → writes_except (Q.stands_for probe) self.now.written ≡ self.now.written }
    {
        let entries = &self.entries;
        let is_sought = |number|
            requires { IsSome (lookup (nat_eq number) entries.now.items) }
            ensures { IfSome (lookup (nat_eq number) entries.entry.now.items)
                (λ e. result ≡ ((e.hash == hash) && Q.stands_for probe e.key)) }
        {
            let entry = entries.get(NodeId::from_number(number));
            entry.hash == hash && probe.stands_for(&entry.key)
        };
        let number = candidates.find(is_sought)?;
        Some(NodeId::from_number(number))
    }

    /// Finds the node of the key that the probe stands for. The hash is the probe's.
    #[inline(always)]
    pub fn find<Q: Lookup<K>>(&self, probe: Q, hash: u64) -> Option<NodeId>
    where
        K: Hash,
        requires { HasHash (Q.stands_for probe) self.now hash }
        ensures found { IfSome result (λ id. IsFound (Q.stands_for probe) self.now id) }
        ensures absent { IsNone result → entry_where (Q.stands_for probe) (entries_of self.now) ≡ None }
        ensures unwritten { IsNone result → writes_except (Q.stands_for probe) self.now.written ≡ self.now.written }
    {
        self.find_among(self.candidates(hash), probe, hash)
    }

    /// Returns the entry of a node.
    #[inline(always)]
    pub fn get(&self, id: NodeId) -> &Entry<K, V>
        requires { IsSome (lookup (nat_eq id) self.now.nodes) }
        ensures { lookup (nat_eq id) self.now.nodes ≡ Some result.now }
    {
        self.entries.get(id)
    }

    /// Iterates over the entries of probation, then protected, then the window, each least recently used first.
    pub fn iter(&self) -> Iter<'_, Entry<K, V>, A>
        ensures value { result ≡ entries_of self.now }
        ensures few { length result < 2 ^ 32 }
        ensures order { InOrder Probation (entries_of self.now) }
    {
        self.entries.iter()
    }

    /// Returns the node of the first entry: main's least recently used one, if main isn't empty.
    pub fn front(&self) -> Option<NodeId>
        ensures found { IfSome result (λ id. IsFront K.eq self.now id) }
        ensures absent { IsNone result → contents_of self.now ≡ no_contents }
        ensures first { result ≡ first_id self.now.nodes }
        ensures order { InOrder Probation (entries_of self.now) }
    {
        self.entries.front()
    }

    /// Returns the node of the least recently used entry of a part.
    pub fn front_of(&self, part: Part) -> Option<NodeId>
        ensures found { IfSome result (λ id. IsFrontOf K.eq part self.now id) }
        ensures absent { IsNone result → those_of part (entries_of self.now) ≡ [] }
    {
        let id = self.start_of(part)?;
        if is_of(part, self.entries.get(id).part) {
            Some(id)
        } else {
            None
        }
    }

    /// Returns the first node of a part, or a node of another part or none if it is empty.
    fn start_of(&self, part: Part) -> Option<NodeId>
        ensures { result ≡ start_of part self.now.nodes }
    {
        match part {
            Part::Probation => self.entries.front(),
            Part::Protected => self.marks.late,
            Part::Window => self.marks.window,
        }
    }

    /// Returns the node after this one.
    pub fn next(&self, id: NodeId) -> Option<NodeId>
        requires { IsSome (lookup (nat_eq id) self.now.nodes) }
        ensures value { result ≡ next_id id self.now.nodes }
        ensures distinct { IsDistinct nat_eq (keys_of self.now.nodes) }
        ensures once { IsDistinct K.eq (entry_keys (entries_of self.now)) }
    {
        self.entries.next(id)
    }

    /// Returns the node of the least recently written entry.
    pub fn oldest_write(&self) -> Option<NodeId>
        ensures found { IfSome result (λ id. IsOldest K.eq self.now id) }
        ensures absent { IsNone result → self.now.written ≡ [] }
    {
        self.writes.front()
    }

    /// Records an access: the entry becomes the most recently used one of its part. An entry of main moves to protected if it is no heavier than protected's
    /// limit; protected's least recently used entries move back to probation until it is within that.
    #[inline(always)]
    pub fn touch(&mut self, id: NodeId, now: Instant)
        requires { IsSome (lookup (nat_eq id) self.old.nodes) }
        ensures { Uses K.eq self.old id now self.new }
    {
        let entry = self.entries.get(id);
        if is_of(entry.part, Part::Probation)
            && !may_be_protected(self.protected_limit, entry.weight)
        {
            self.use_in_probation(id, now);
        } else {
            self.use_anywhere(id, now);
        }
    }

    /// Does what `touch` does for an entry that stays in probation. No mark stands at it, and its part weighs the same.
    #[inline(always)]
    fn use_in_probation(&mut self, id: NodeId, now: Instant)
        requires stays { StaysInProbation self.old id }
        ensures { Uses K.eq self.old id now self.new }
    {
        let entry = self.entries.get_mut(id);
        entry.accessed = now;
        attach(&mut self.entries, &mut self.marks, id, Part::Probation);
        balance(
            &mut self.entries,
            &mut self.marks,
            &mut self.weights,
            self.protected_limit,
        );
    }

    /// Does what `touch` does for any entry.
    #[inline(always)]
    fn use_anywhere(&mut self, id: NodeId, now: Instant)
        requires { IsSome (lookup (nat_eq id) self.old.nodes) }
        ensures { Uses K.eq self.old id now self.new }
    {
        self.marks.pass(&self.entries, id);
        let entry = self.entries.get_mut(id);
        let (part, weight) = (entry.part, entry.weight);
        let used = used_part(self.protected_limit, part, weight);
        entry.accessed = now;
        entry.part = used;
        self.weights.shift(part, used, weight);
        attach(&mut self.entries, &mut self.marks, id, used);
        balance(
            &mut self.entries,
            &mut self.marks,
            &mut self.weights,
            self.protected_limit,
        );
    }

    /// Sets the weight limit of protected. Its least recently used entries move back to probation until it is within that, which is O(1) per entry moved.
    pub fn limit_protected(&mut self, limit: u64)
        ensures step { contents_of self.new ≡ record (contents_of self.old) { entries = balanced limit (entries_of self.old) } }
        ensures kept { Continues (record self.old { protected_limit = limit }) self.new }
    {
        self.protected_limit = limit;
        balance(&mut self.entries, &mut self.marks, &mut self.weights, limit);
    }

    /// Replaces an entry's value, weight and moments, and keeps its key. That is an access, as in `touch`, and a write. Returns the other key and the old
    /// value.
    pub fn update(&mut self, id: NodeId, update: Entry<K, V>) -> (K, V)
        requires { IsSome (lookup (nat_eq id) self.old.nodes) }
        ensures value { option_map (λ e. e.value) (lookup (nat_eq id) self.old.nodes) ≡ Some result.1 }
        ensures key { result.0 ≡ update.key }
        ensures step { Updates K.eq self.old id update self.new }
    {
        self.marks.pass(&self.entries, id);
        let entry = self.entries.get_mut(id);
        let used = used_part(self.protected_limit, entry.part, update.weight);
        self.weights.take(entry.part, entry.weight);
        self.weights.add(used, update.weight);
        let left = rewrite(entry, used, update);
        attach(&mut self.entries, &mut self.marks, id, used);
        balance(
            &mut self.entries,
            &mut self.marks,
            &mut self.weights,
            self.protected_limit,
        );
        write_again(&mut self.writes, self.keeps_writes, id);
        left
    }

    /// Moves an entry to probation, as its most recently used one. That is no write.
    #[inline]
    pub fn move_to_probation(&mut self, id: NodeId)
        requires { IsSome (lookup (nat_eq id) self.old.nodes) }
        ensures { Promotes K.eq self.old id self.new }
    {
        self.marks.pass(&self.entries, id);
        let entry = self.entries.get_mut(id);
        let (part, weight) = (entry.part, entry.weight);
        entry.part = Part::Probation;
        self.weights.shift(part, Part::Probation, weight);
        attach(&mut self.entries, &mut self.marks, id, Part::Probation);
    }

    /// Adds an entry as the most recent of its part and in the order of writing. There must be capacity, and no entry of its key.
    #[inline]
    pub fn push(&mut self, entry: Entry<K, V>)
        requires room { length self.old.nodes < self.old.capacity }
        requires absent { entry_at K.eq entry.key (entries_of self.old) ≡ None }
        ensures { Enters K.eq self.old entry self.new }
    {
        let (hash, part) = (entry.hash, entry.part);
        self.weights.add(part, entry.weight);
        let id = self.entries.push_reserved(entry);
        attach(&mut self.entries, &mut self.marks, id, part);
        add_write(&mut self.writes, self.keeps_writes, id);
        self.index.add(id.number(), hash);
        move_some(&mut self.index, &self.entries);
    }

    /// Removes an entry, returns it, and adds another in its node, as `take` and `push` would. It spares the allocation of a node and half of the relinking.
    /// There must be no entry of the new key.
    #[inline(always)]
    pub fn replace(&mut self, id: NodeId, entry: Entry<K, V>) -> Entry<K, V>
        requires stands { IsSome (lookup (nat_eq id) self.old.nodes) }
        requires absent { entry_at K.eq entry.key (entries_of self.old) ≡ None }
        ensures value { lookup (nat_eq id) self.old.nodes ≡ Some result }
        ensures step { Replaces K.eq self.old id entry self.new }
    {
        let (hash, part) = (entry.hash, entry.part);
        self.marks.pass(&self.entries, id);
        let gone = self.entries.get_mut(id);
        self.index.remove(id.number(), gone.hash);
        self.weights.take(gone.part, gone.weight);
        self.weights.add(part, entry.weight);
        let gone = replace(gone, entry);
        attach(&mut self.entries, &mut self.marks, id, part);
        write_again(&mut self.writes, self.keeps_writes, id);
        self.index.add(id.number(), hash);
        move_some(&mut self.index, &self.entries);
        gone
    }

    /// Removes an entry and returns it.
    pub fn take(&mut self, id: NodeId) -> Entry<K, V>
        requires { IsSome (lookup (nat_eq id) self.old.nodes) }
        ensures value { lookup (nat_eq id) self.old.nodes ≡ Some result }
        ensures step { Removes K.eq self.old id self.new }
    {
        self.marks.pass(&self.entries, id);
        let entry = self.entries.unlink(id);
        self.weights.take(entry.part, entry.weight);
        remove_write(&mut self.writes, self.keeps_writes, id);
        self.index.remove(id.number(), entry.hash);
        entry
    }
}
