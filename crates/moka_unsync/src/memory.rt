// What a cache whose window adapts remembers of the entries that left it, and how large a window that asks for.
ghost use Rattle.std.specs.Prelude.{◌≡◌, ◌<◌, ◌≤◌, ◌⊎◌, ◌^◌, Bool, IfOk, fold, false, length, map, option_map, take};
ghost use Rattle.moka_store.specs.Store.{entries_of};
ghost use Rattle.moka_unsync_model.specs.Contents.{main_of};
ghost use Rattle.moka_unsync_model.specs.Memory.{after_coming, after_note, after_taking, demand_after, extra_at, is_noted, made_tables, most_extra};
ghost use Rattle.moka_unsync_model.specs.Memory.{new_tags, slack_of, slot_of};
ghost use Rattle.moka_unsync_model.specs.Memory.{tag_of};
ghost use Rattle.moka_unsync_model.specs.Window.{after_judging};
ghost use Rattle.moka_unsync.specs.Cached.{beside};
ghost use Rattle.moka_unsync.specs.Turns.{counted};

use crate::part_limits::{most_extra, slack_of};
use crate::victims::is_windowed;
use moka_common::error::OutOfMemory;
use moka_store::store::Store;
use moka_unsync_model::constants::{LEAST_TAGS, WORDS_A_TAG};
use moka_unsync_model::entry::Entry;
use moka_unsync_model::shares::Shares;
use std::alloc::{Allocator, Global};
use std::marker::Model;

/// Tags of the last entries that left, each in its hash's slot.
#[derive(Drop)]
struct Tags<A: Allocator + Clone + Drop = Global> {
    // 0 in a slot without a tag.
    slots: Vec<u16, A>,
    // The slot that is cleared next.
    hand: usize,
}

impl<A: Allocator + Clone + Drop> Model for Tags<A> {
    ghost use Rattle.std.specs.Prelude.{◌≡◌, ◌<◌, ◌⊎◌, length};
    ghost use Rattle.moka_unsync_model.specs.Memory.{Tags as TagsState};

    ghost Value = { TagsState };

    ghost view = { λ t. record { slots = t.slots.items; hand = t.hand } };

    ghost invariant = { λ t. (length t.slots.items ≡ 0) ⊎ (t.hand < length t.slots.items) };
}

impl<A: Allocator + Clone + Drop> Tags<A> {
    /// Makes a table without slots, which allocates nothing.
    fn none(alloc: A) -> Self
        ensures { result ≡ new_tags 0 }
    {
        Tags {
            slots: Vec::new(alloc),
            hand: 0,
        }
    }

    /// Makes a table of so many empty slots.
    fn new(alloc: A, count: usize) -> Result<Self, OutOfMemory>
        ensures { IfOk result (λ tags. tags ≡ new_tags count) }
    {
        Ok(Tags {
            slots: vec![in alloc; 0; count]?,
            hand: 0,
        })
    }

    /// Returns the slot of a hash.
    #[inline(always)]
    fn slot_of(&self, hash: u64) -> usize
        requires { 0 < length self.now.slots }
        ensures value { result ≡ slot_of self.now hash }
        ensures within { result < length self.now.slots }
    {
        ((hash >> 20) % self.slots.len() as u64) as usize
    }

    /// Notes a hash. The next slot is cleared first, so no tag stays for more notes than there are slots.
    fn note(&mut self, hash: u64)
        ensures { self.new ≡ after_note self.old hash }
    {
        let count = self.slots.len();
        if count == 0 {
            return;
        }
        let slot = self.slot_of(hash);
        self.slots[self.hand] = 0;
        self.slots[slot] = tag_of(hash);
        self.hand = if self.hand + 1 == count {
            0
        } else {
            self.hand + 1
        };
    }

    /// Returns `true` if a hash was noted, and notes it no more.
    fn take(&mut self, hash: u64) -> bool
        ensures value { result ≡ is_noted self.old hash }
        ensures step { self.new ≡ after_taking self.old hash }
    {
        if self.slots.is_empty() {
            return false;
        }
        let slot = self.slot_of(hash);
        if self.slots[slot] != tag_of(hash) {
            return false;
        }
        self.slots[slot] = 0;
        true
    }
}

/// Returns the tag of a hash: its highest fifteen bits, and never 0.
#[inline(always)]
fn tag_of(hash: u64) -> u16
    ensures value { result ≡ tag_of hash }
{
    ((hash >> 49) * 2 + 1) as u16
}

/// The candidates that were rejected, the entries that main gave up for others, and the weight that the window asks for, in halves.
#[derive(Drop)]
pub(crate) struct Memory<A: Allocator + Clone + Drop = Global> {
    rejected: Tags<A>,
    displaced: Tags<A>,
    demand: u128,
}

impl<A: Allocator + Clone + Drop> Model for Memory<A> {
    ghost use Rattle.std.specs.Prelude.{◌≤◌, ◌^◌};
    ghost use Rattle.moka_unsync_model.specs.Memory.{Memory as MemoryState};

    ghost Value = { MemoryState };

    ghost view = { λ m. record { rejected = m.rejected; displaced = m.displaced; demand = m.demand } };

    ghost invariant = { λ m. m.demand ≤ 2 ^ 66 };
}

impl<A: Allocator + Clone + Drop> Memory<A> {
    /// Makes a memory of nothing, which allocates nothing.
    pub(crate) fn new(alloc: A) -> Result<Self, OutOfMemory>
        ensures { IfOk result (λ memory. memory ≡ record { rejected = new_tags 0; displaced = new_tags 0; demand = 0 }) }
    {
        Ok(Memory {
            rejected: Tags::none(alloc.clone()?),
            displaced: Tags::none(alloc),
            demand: 0,
        })
    }

    /// Counts a new entry: the window asks for more if it was recently rejected, and for less if main recently gave it up.
    pub(crate) fn come(&mut self, shares: Shares, limit: u64, hash: u64, weight: u32)
        requires window { shares.window ≤ 100 }
        ensures { self.new ≡ record (after_coming hash self.old) { demand = demand_after shares limit self.old hash weight } }
    {
        let was_rejected = self.rejected.take(hash);
        let was_displaced = self.displaced.take(hash);
        let weight = u128::from(weight);
        if was_rejected {
            let most = 2 * (u128::from(most_extra(shares, limit)) + u128::from(slack_of(limit)));
            let more = self.demand + 2 * weight;
            self.demand = more - more.saturating_sub(most);
        } else if was_displaced {
            self.demand = self.demand.saturating_sub(3 * weight);
        }
    }

    /// Returns the weight that the window gets beyond its share.
    pub(crate) fn extra(&self, shares: Shares, limit: u64) -> u64
        requires window { shares.window ≤ 100 }
        ensures value { result ≡ extra_at shares limit self.now.demand }
        ensures within { result ≤ most_extra shares limit }
    {
        let wanted = (self.demand / 2).saturating_sub(u128::from(slack_of(limit)));
        if wanted == 0 {
            return 0;
        }
        let most = u128::from(most_extra(shares, limit));
        (wanted - wanted.saturating_sub(most)) as u64
    }

    /// Notes an entry that main gives up.
    #[inline(always)]
    pub(crate) fn displace(&mut self, hash: u64)
        ensures { self.new ≡ record self.old { displaced = after_note self.old.displaced hash } }
    {
        self.displaced.note(hash);
    }

    /// Notes a candidate that was rejected, or main's `count` entries that give way to it.
    fn judge<K: Eq + Drop, V: Drop>(
        &mut self,
        store: &Store<K, V, A>,
        hash: u64,
        count: Option<usize>,
    )
        ensures { self.new ≡ after_judging self.old hash (counted (main_of (entries_of store.now)) count) }
    {
        match count {
            Some(count) => note_front(&mut self.displaced, store, count),
            None => self.rejected.note(hash),
        }
    }

    /// Makes tables beside a sketch of so many words. If memory refuses one, there are none.
    pub(crate) fn make_tables(&mut self, words: usize)
        ensures { (refused : Bool) × (self.new ≡ made_tables refused words self.old) }
    {
        let count = (words / WORDS_A_TAG).max(LEAST_TAGS);
        if let Ok((rejected, displaced)) = self.tables(count) {
            self.rejected = rejected;
            self.displaced = displaced;
        }
    }

    /// Makes two tables of so many slots.
    fn tables(&self, count: usize) -> Result<(Tags<A>, Tags<A>), OutOfMemory>
        ensures { IfOk result (λ tables. (tables.0 ≡ new_tags count) × (tables.1 ≡ new_tags count)) }
    {
        let alloc = self.rejected.slots.allocator();
        let rejected = Tags::new(alloc.clone()?, count)?;
        let displaced = Tags::new(alloc.clone()?, count)?;
        Ok((rejected, displaced))
    }
}

/// Notes main's `count` least recently used entries.
fn note_front<K: Eq + Drop, V: Drop, A: Allocator + Clone + Drop>(
    tags: &mut Tags<A>,
    store: &Store<K, V, A>,
    count: usize,
)
    ensures { tags.new ≡ fold after_note tags.old (map (λ e. e.hash) (take count (main_of (entries_of store.now)))) }
{
    let mut left = count;
    let mut entries = store.iter();
    while left > 0 {
        let Some(entry) = entries.next() else {
            return;
        };
        if is_windowed(entry) {
            // Main ends here.
            return;
        }
        tags.note(entry.hash);
        left -= 1;
    }
}

/// Makes the tables beside a sketch of so many words, if the cache adapts and the sketch has any.
pub(crate) fn make_tables<A: Allocator + Clone + Drop>(memory: &mut Option<Memory<A>>, words: usize)
    ensures { (refused : Bool) × (memory.new ≡ beside refused words memory.old) }
{
    if words == 0 {
        return;
    }
    if let Some(memory) = memory {
        memory.make_tables(words);
    }
}

/// Counts a new entry, if the cache adapts.
#[inline(always)]
pub(crate) fn come<K: Drop, V: Drop, A: Allocator + Clone + Drop>(
    memory: &mut Option<Memory<A>>,
    shares: Shares,
    limit: u64,
    new: &Entry<K, V>,
)
    requires window { shares.window ≤ 100 }
    ensures { memory.new
        ≡ option_map (λ m. record (after_coming new.now.hash m) { demand = demand_after shares limit m new.now.hash new.now.weight }) memory.old }
{
    if let Some(memory) = memory {
        memory.come(shares, limit, new.hash, new.weight);
    }
}

/// Notes a verdict, if the cache adapts: the candidate's hash if it is rejected, or those of its victims, which are main's `count` first entries.
#[inline(always)]
pub(crate) fn remember<K: Eq + Drop, V: Drop, A: Allocator + Clone + Drop>(
    memory: &mut Option<Memory<A>>,
    store: &Store<K, V, A>,
    hash: u64,
    count: Option<usize>,
)
    ensures { memory.new ≡ option_map (λ m. after_judging m hash (counted (main_of (entries_of store.now)) count)) memory.old }
{
    if let Some(memory) = memory {
        memory.judge(store, hash, count);
    }
}
