//! An index from hashes to ids, by open addressing over groups of ten slots. It keeps eight bits of each hash beside the id, so that its
//! owner, which has the hash and the key of each id, is seldom asked in vain.
ghost use Rattle.std.specs.Prelude.{◌≡◌, ℕ, ◌<◌, ◌≤◌, [], false, true, max, IsFalse, IsOk, IsTrue, OnOk, OnErr};
ghost use Rattle.std.specs.Iterator.{YieldsFirst};
ghost use Rattle.moka_list.specs.HashIndex.{candidates, is_candidate, Adds, FindsFirst, Removes};
ghost use Rattle.moka_list.specs.IdList.{is_listed};

use crate::constants::{FAR, MAX_IDS, SHARE};
use crate::group::{Group, after, groups_of, probe_of};
use crate::table::{count, fill_free, first_free, slot_of, take_back};
use moka_common::error::OutOfMemory;
use std::alloc::{Allocator, Global};
use std::marker::Model;

/// An index from hashes to ids.
///
/// The table has a group of ten slots for every five ids. An id stands in the first group with a free slot, from its hash's home on, and
/// each group that it passed counts it. A search ends at a group that no id has passed, or after one round.
#[derive(Drop)]
pub struct HashIndex<A: Allocator = Global> {
    groups: Vec<Group, A>,
    ids: usize,
    /// Since the last `reset`, an id was put `FAR` groups from its home or more. No group counts it, so each search goes all the way round.
    far: bool,
}

impl<A: Allocator> Model for HashIndex<A> {
    ghost use Rattle.moka_list.specs.HashIndex.{HashIndex as Index};
    ghost use Rattle.moka_list.specs.Probed.{IsProbed};

    ghost Value = { Index };

    ghost view = { λ index. record { groups = index.groups.items; ids = index.ids; far = index.far } };

    ghost invariant = { λ index. IsProbed index.groups.items index.ids index.far };
}

impl<A: Allocator> HashIndex<A> {
    /// Makes an index without capacity, which allocates nothing.
    pub fn new(alloc: A) -> Self
        ensures empty { (hash : ℕ) → candidates result hash ≡ [] }
        ensures ids { result.ids ≡ 0 }
    {
        HashIndex {
            groups: Vec::new(alloc),
            ids: 0,
            far: false,
        }
    }

    /// Returns the number that ids must be below to be added.
    pub fn ids(&self) -> usize
        ensures value { result ≡ self.now.ids }

        // What holds of every index.
        ensures below { (hash id : ℕ) → is_candidate self.now hash id ≡ true → id < result }
    {
        self.ids
    }

    /// Forgets all ids, and makes room for those below `ids`. The owner adds its ids again: it has their hashes, of which the index keeps
    /// only a part.
    ///
    /// This is the only call that takes memory, and only for more room than there was: about 13 bytes an id. It is refused for more than
    /// `MAX_IDS` ids.
    pub fn reset(&mut self, ids: usize) -> Result<(), OutOfMemory>
        ensures empty { OnOk result ((hash : ℕ) → candidates self.new hash ≡ []) }
        ensures room { OnOk result (self.new.ids ≡ max self.old.ids ids) }
        ensures succeeds { ids ≤ self.old.ids → IsOk result }
        ensures err { OnErr result (self.new ≡ self.old) }
    {
        let len = self.groups.len();
        if ids <= self.ids {
            fill_free(&mut self.groups, len);
            self.far = false;
            return Ok(());
        }
        if ids > MAX_IDS {
            return Err(OutOfMemory);
        }
        let longer = groups_of(ids);
        self.groups.reserve_exact(longer.saturating_sub(len))?;
        fill_free(&mut self.groups, longer);
        self.ids = ids;
        self.far = false;
        Ok(())
    }

    /// Returns the first candidate of a hash that passes the test. The owner tests whether what the id names has the hash, and is what it looks for.
    #[inline(always)]
    pub fn find<F: Fn(usize) -> bool>(&self, hash: u64, eq: F) -> Option<usize>
        requires { (id : ℕ) → is_candidate self.now hash id ≡ true → F.pre eq id }
        ensures { FindsFirst (F.post eq) (candidates self.now hash) result }
    {
        self.candidates(hash).find(eq)
    }

    /// Makes room for ids below `ids` if the table is long enough for them, and returns whether there is room.
    pub fn stretch(&mut self, ids: usize) -> bool
        ensures same { self.new ≡ record self.old { ids = self.new.ids } }
        ensures more { self.old.ids ≤ self.new.ids }
        ensures room { IsTrue result → ids ≤ self.new.ids }
        ensures full { IsFalse result → self.new ≡ self.old }
    {
        if ids <= self.ids {
            return true;
        }
        if ids / SHARE >= self.groups.len() {
            return false;
        }
        self.ids = ids;
        true
    }

    /// Forgets all ids, and frees the memory.
    pub fn clear(&mut self)
        ensures empty { (hash : ℕ) → candidates self.new hash ≡ [] }
        ensures ids { self.new.ids ≡ 0 }
    {
        self.groups.clear();
        self.groups.shrink_to_fit();
        self.ids = 0;
        self.far = false;
    }

    /// Begins a search: the ids that may have this hash.
    #[inline(always)]
    pub fn candidates(&self, hash: u64) -> Candidates<'_>
        ensures { result ≡ candidates self.now hash }
    {
        let len = self.groups.len();
        let (at, tag) = probe_of(len, hash);
        let found = match self.groups.get(at) {
            Some(group) => group.slots_of(tag, 0),
            None => 0,
        };
        Candidates {
            groups: &self.groups,
            at,
            tag,
            distance: 0,
            far: self.far,
            found,
            left: len.saturating_sub(1),
        }
    }

    /// Adds an id, which is a candidate of no hash, under its hash. Takes constant time on average.
    pub fn add(&mut self, id: usize, hash: u64)
        requires room { id < self.old.ids }
        requires absent { (other : ℕ) → is_candidate self.old other id ≡ false }
        ensures step { Adds self.old id hash self.new }
    {
        let (home, tag) = probe_of(self.groups.len(), hash);
        let (at, distance, slot) = first_free(&self.groups, home);
        self.groups[at].put(slot, tag, distance, id as u32);
        if distance < FAR {
            count(&mut self.groups, home, distance);
        } else {
            self.far = true;
        }
    }

    /// Removes an id, which is a candidate of this hash. Takes constant time on average.
    pub fn remove(&mut self, id: usize, hash: u64)
        requires { is_candidate self.old hash id ≡ true }
        ensures step { Removes self.old id self.new }
    {
        let (home, at, distance, slot) = slot_of(&self.groups, hash, id as u32);
        self.groups[at].clear(slot);
        if distance < FAR {
            take_back(&mut self.groups, home, distance);
        }
    }
}

/// A search that has begun. A contract sees the candidates that are left.
#[derive(Drop)]
pub struct Candidates<'a> {
    pub(crate) groups: &'a [Group],
    pub(crate) at: usize,
    pub(crate) tag: u8,
    /// The number of groups from the home to this one.
    pub(crate) distance: usize,
    pub(crate) far: bool,
    /// The slots of this group that are left, as bits.
    pub(crate) found: u64,
    /// The number of groups that are left after this one.
    pub(crate) left: usize,
}

impl<'a> Model for Candidates<'a> {
    ghost use Rattle.std.specs.Prelude.{◌≡◌, ℕ, List, ◌+◌, ◌^◌, ◌<◌, ◌≤◌, length};
    ghost use Rattle.moka_list.specs.HashIndex.{rest_of};

    ghost Value = { List ℕ };

    ghost view = { λ it. rest_of it.groups.now it.tag it.far it.left it.distance it.at it.found };

    ghost invariant = { λ it. (it.found < 1024) × (length it.groups.now ≤ it.at → (it.found ≡ 0) × (it.left ≡ 0)) × (it.distance + it.left < 2 ^ 64) };
}

impl<'a> Candidates<'a> {
    /// Ends the search: returns the first candidate that passes the test.
    #[inline(always)]
    pub fn find<F: Fn(usize) -> bool>(mut self, eq: F) -> Option<usize>
        requires { (id : ℕ) → is_listed self id ≡ true → F.pre eq id }
        ensures { FindsFirst (F.post eq) self.entry result }
    {
        while let Some(id) = self.next() {
            if eq(id) {
                return Some(id);
            }
        }
        None
    }

    /// Takes the next candidate.
    #[inline(always)]
    pub(crate) fn next(&mut self) -> Option<usize>
        ensures { YieldsFirst (λ ids. ids) self.old result self.new }
    {
        while let Some(group) = self.groups.get(self.at) {
            if self.found != 0 {
                let slot = self.found.trailing_zeros() as usize;
                self.found -= 1 << slot;
                return Some(group.ids[slot] as usize);
            }
            // A search ends at a group that no id has passed. If `far`, some ids may be counted by no group, so none ends early.
            if self.left == 0 || !self.far && group.passed == 0 {
                return None;
            }
            self.left -= 1;
            self.distance += 1;
            self.at = after(self.groups.len(), self.at);
            self.found = self.groups[self.at].slots_of(self.tag, self.distance);
        }
        None
    }
}
