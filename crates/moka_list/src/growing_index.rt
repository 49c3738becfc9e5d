//! An index that grows in steps: its owner moves a few ids to the larger table with each insert, and no call moves all of them.
ghost use Rattle.std.specs.Prelude.{◌≡◌, ℕ, ◌+◌, ◌<◌, ◌≤◌, [], false, true, filter, nat_le, OnErr, OnOk};
ghost use Rattle.moka_list.specs.GrowingIndex.{Adds, KeepsAll, Removes, candidates, is_candidate};
ghost use Rattle.moka_list.specs.HashIndex.{FindsFirst, candidates as table_candidates};
ghost use Rattle.moka_list.specs.IdList.{is_listed};
ghost use Rattle.moka_list.specs.Moving.{Passes, is_smaller};

use crate::hash_index::{Candidates as TableCandidates, HashIndex};
use moka_common::error::OutOfMemory;
use std::alloc::{Allocator, Global};
use std::marker::Model;
use std::mem::swap;

/// An index from hashes to ids whose table is replaced by a larger one in steps.
///
/// After a growth the ids still stand in the smaller table. The owner moves them in the order of their numbers, so the number of an id tells its table. A
/// search looks into both tables while there are two.
#[derive(Drop)]
pub struct GrowingIndex<A: Allocator = Global> {
    table: HashIndex<A>,
    // Without ids and memory, but for the time after a growth. Then it has those from `next` on; what it has of others doesn't count.
    smaller: HashIndex<A>,
    next: usize,
}

impl<A: Allocator> Model for GrowingIndex<A> {
    ghost use Rattle.std.specs.Prelude.{◌-◌};
    ghost use Rattle.moka_list.specs.GrowingIndex.{GrowingIndex as Index};
    ghost use Rattle.moka_list.specs.Moving.{IsMoving};

    ghost Value = { Index };

    ghost view = { λ index. record {
      table = index.table;
      smaller = index.smaller;
      ids = index.table.ids;
      left = index.smaller.ids - index.next;
      next = index.next;
    } };

    ghost invariant = { λ index. IsMoving index.table index.smaller index.next };
}

impl<A: Allocator> GrowingIndex<A> {
    /// Makes an index without capacity, which allocates nothing. It takes an allocator for each of the two tables that there may be.
    pub fn new(alloc: A, other: A) -> Self
        ensures empty { (hash : ℕ) → candidates result hash ≡ [] }
        ensures ids { result.ids ≡ 0 }
    {
        GrowingIndex {
            table: HashIndex::new(alloc),
            smaller: HashIndex::new(other),
            next: 0,
        }
    }

    /// Returns the number that ids must be below to be added.
    pub fn ids(&self) -> usize
        ensures { result ≡ self.now.ids }
    {
        self.table.ids()
    }

    /// Returns the number of ids that are still to be moved to the larger table.
    #[inline(always)]
    pub fn left(&self) -> usize
        ensures { result ≡ self.now.left }
    {
        self.smaller.ids() - self.next
    }

    /// Returns the id that is to be moved next.
    pub fn next(&self) -> usize
        ensures { result ≡ self.now.next }
    {
        self.next
    }

    /// Makes room for ids below `ids`, if there is less. No ids may be left to move; if the index gets a larger table, those of the other are left then.
    ///
    /// This is the only call that takes memory, about 13 bytes an id. It is refused for more than `MAX_IDS` ids.
    pub fn grow(&mut self, ids: usize) -> Result<(), OutOfMemory>
        requires { self.old.left ≡ 0 }
        ensures kept { KeepsAll self.old self.new }
        ensures room { OnOk result (ids ≤ self.new.ids) }
        ensures more { self.old.ids ≤ self.new.ids }
        ensures err { OnErr result (self.new ≡ self.old) }
    {
        if ids <= self.table.ids() || self.table.stretch(ids) {
            return Ok(());
        }
        swap(&mut self.table, &mut self.smaller);
        match self.table.reset(ids) {
            Ok(()) => {
                self.next = 0;
                Ok(())
            }
            Err(error) => {
                swap(&mut self.table, &mut self.smaller);
                Err(error)
            }
        }
    }

    /// Moves the next id to the larger table, under its hash. After the last one it frees the smaller table.
    pub fn move_next(&mut self, hash: u64)
        requires { 0 < self.old.left }
        ensures step { Adds self.old self.old.next hash self.new }
        ensures left { self.new.left + 1 ≡ self.old.left }
    {
        self.table.add(self.next, hash);
        self.next = pass(&mut self.smaller, self.next);
    }

    /// Passes the next id, which is a candidate of no hash.
    pub fn pass_next(&mut self)
        requires left { 0 < self.old.left }
        requires absent { (hash : ℕ) → is_candidate self.old hash self.old.next ≡ false }
        ensures kept { KeepsAll self.old self.new }
        ensures ids { self.new.ids ≡ self.old.ids }
        ensures left { self.new.left + 1 ≡ self.old.left }
    {
        self.next = pass(&mut self.smaller, self.next);
    }

    /// Begins a search: the ids that may have this hash.
    #[inline(always)]
    pub fn candidates(&self, hash: u64) -> Candidates<'_, A>
        ensures { result ≡ candidates self.now hash }
    {
        Candidates {
            first: self.table.candidates(hash),
            smaller: &self.smaller,
            next: self.next,
            hash,
        }
    }

    /// Returns the first candidate of a hash that passes the test. The owner tests whether what the id names has the hash, and is what it looks for.
    #[inline(always)]
    pub fn find<F: Fn(usize) -> bool>(&self, hash: u64, eq: F) -> Option<usize>
        requires { (id : ℕ) → is_candidate self.now hash id ≡ true → F.pre eq id }
        ensures { FindsFirst (F.post eq) (candidates self.now hash) result }
    {
        self.candidates(hash).find(eq)
    }

    /// Adds an id, which is a candidate of no hash, under its hash. Takes constant time on average.
    pub fn add(&mut self, id: usize, hash: u64)
        requires room { id < self.old.ids }
        requires absent { (other : ℕ) → is_candidate self.old other id ≡ false }
        ensures step { Adds self.old id hash self.new }
    {
        if self.is_smaller(id) {
            self.smaller.add(id, hash);
        } else {
            self.table.add(id, hash);
        }
    }

    /// Removes an id, which is a candidate of this hash. Takes constant time on average.
    pub fn remove(&mut self, id: usize, hash: u64)
        requires { is_candidate self.old hash id ≡ true }
        ensures step { Removes self.old id self.new }
    {
        if self.is_smaller(id) {
            self.smaller.remove(id, hash);
        } else {
            self.table.remove(id, hash);
        }
    }

    /// Returns `true` if the id belongs in the smaller table.
    fn is_smaller(&self, id: usize) -> bool
        ensures { result ≡ is_smaller self.now.next self.now.smaller.ids id }
    {
        self.next <= id && id < self.smaller.ids()
    }
}

/// Returns the id after `next` of a smaller table, whose ids from there on are left. After the last one it frees the table and returns 0.
fn pass<A: Allocator>(smaller: &mut HashIndex<A>, next: usize) -> usize
    requires { next < smaller.old.ids }
    ensures { Passes smaller.old next result smaller.new }
{
    let ids = smaller.ids();
    let after = next + 1;
    if after == ids {
        smaller.clear();
        return 0;
    }
    after
}

/// A search that has begun. A contract sees the candidates.
#[derive(Drop)]
pub struct Candidates<'a, A: Allocator = Global> {
    first: TableCandidates<'a>,
    smaller: &'a HashIndex<A>,
    next: usize,
    hash: u64,
}

impl<'a, A: Allocator> Model for Candidates<'a, A> {
    ghost use Rattle.std.specs.Prelude.{ℕ, List, ◌++◌, filter, nat_le};
    ghost use Rattle.moka_list.specs.HashIndex.{candidates};

    ghost Value = { List ℕ };

    ghost view = { λ it. it.first ++ filter (nat_le it.next) (candidates it.smaller.now it.hash) };
}

impl<'a, A: Allocator> Candidates<'a, A> {
    /// Ends the search: returns the first candidate that passes the test.
    #[inline(always)]
    pub fn find<F: Fn(usize) -> bool>(self, eq: F) -> Option<usize>
        requires { (id : ℕ) → is_listed self id ≡ true → F.pre eq id }
        ensures { FindsFirst (F.post eq) self.entry result }
    {
        let Candidates {
            mut first,
            smaller,
            next,
            hash,
        } = self;
        while let Some(id) = first.next() {
            if eq(id) {
                return Some(id);
            }
        }
        if smaller.ids() == 0 {
            return None;
        }
        find_from(smaller, next, hash, eq)
    }
}

/// Searches a table for an id from `next` on that passes the test. Most searches end before this, so it is no part of them.
#[cold]
#[inline(never)]
fn find_from<A: Allocator, F: Fn(usize) -> bool>(
    table: &HashIndex<A>,
    next: usize,
    hash: u64,
    eq: F,
) -> Option<usize>
    requires { (id : ℕ) → is_listed (filter (nat_le next) (table_candidates table.now hash)) id ≡ true → F.pre eq id }
    ensures { FindsFirst (F.post eq) (filter (nat_le next) (table_candidates table.now hash)) result }
{
    let mut left = table.candidates(hash);
    while let Some(id) = left.next() {
        if next <= id && eq(id) {
            return Some(id);
        }
    }
    None
}
