//! What the map keeps of a key, and what becomes of it.
ghost use Rattle.std.specs.Prelude.{◌≡◌, ◌<◌, ◌+◌, ◌^◌};
ghost use Rattle.moka_sync_model.specs.CoreState.{is_expired};
ghost use Rattle.moka_sync_model.specs.Entry.{touched, updated, with_upsert_done};

use crate::constants::{MAX_OUTSTANDING, NO_HINT};
use crate::settings::Settings;
use crate::ticket::Ticket;
use moka_common::shared::Shared;
use moka_common::time::Instant;
use std::alloc::{Allocator, Global};
use std::cell::Cell;
use std::marker::Model;

/// A key with its value and what the cache keeps of them. The hash of the key is its ticket's.
#[derive(Drop)]
pub struct Entry<K: Drop, V: Drop, A: Allocator + Drop = Global> {
    key: Shared<K, A>,
    value: Shared<V, A>,
    weight: u32,
    /// The likely number of its node in the maintenance, or `NO_HINT`.
    node_hint: Cell<u32>,
    accessed: Instant,
    modified: Instant,
    ticket: Ticket,
    outstanding: u64,
}

impl<K: Drop, V: Drop, A: Allocator + Drop> Model for Entry<K, V, A> {
    ghost use Rattle.moka_sync_model.specs.Entry.{Entry as EntryState};

    ghost Value = { EntryState K V };

    ghost view = { λ e. record {
      key = e.key;
      value = e.value;
      weight = e.weight;
      accessed = e.accessed;
      modified = e.modified;
      ticket = e.ticket;
      outstanding = e.outstanding;
    } };
}

/// The change that a turn makes of the entry that it has looked at.
#[derive(Clone, Copy, Debug)]
pub enum EntryChange {
    /// Nothing, or there is no entry.
    Stays,
    /// It was accessed at this moment, or later.
    Touched(Instant),
    /// One upsert of it fewer is outstanding.
    UpsertDone,
    Leaves,
}

impl<K: Drop, V: Drop, A: Allocator + Drop> Entry<K, V, A> {
    /// Makes the entry of a key that wasn't there. Its upsert is outstanding.
    pub fn new(
        key: Shared<K, A>,
        value: Shared<V, A>,
        weight: u32,
        now: Instant,
        ticket: Ticket,
    ) -> Self
        ensures { result ≡ record {
          key = key;
          value = value;
          weight = weight;
          accessed = now;
          modified = now;
          ticket = ticket;
          outstanding = 1;
        } }
    {
        Entry {
            key,
            value,
            weight,
            node_hint: Cell::new(NO_HINT),
            accessed: now,
            modified: now,
            ticket,
            outstanding: 1,
        }
    }

    /// Returns the stored key, which may be shared further.
    pub fn key(&self) -> &Shared<K, A>
        ensures { result.now ≡ self.now.key }
    {
        &self.key
    }

    /// Returns the stored value, which may be shared further.
    pub fn value(&self) -> &Shared<V, A>
        ensures { result.now ≡ self.now.value }
    {
        &self.value
    }

    /// Ends the entry, and returns its value.
    pub fn into_value(self) -> Shared<V, A>
        ensures { result ≡ self.value }
    {
        self.value
    }

    #[inline]
    pub fn weight(&self) -> u32
        ensures value { result ≡ self.now.weight }
        ensures small { result < 2 ^ 32 }
    {
        self.weight
    }

    /// Returns the moment of the last read or write that is known.
    #[inline]
    pub fn accessed(&self) -> Instant
        ensures { result ≡ self.now.accessed }
    {
        self.accessed
    }

    /// Returns the moment of the last write.
    #[inline]
    pub fn modified(&self) -> Instant
        ensures { result ≡ self.now.modified }
    {
        self.modified
    }

    #[inline]
    pub fn ticket(&self) -> Ticket
        ensures { result ≡ self.now.ticket }
    {
        self.ticket
    }

    /// Returns the number of the node where the maintenance looks for its charge first. No contract speaks of it.
    #[inline]
    pub fn node_hint(&self) -> usize {
        self.node_hint.get() as usize
    }

    /// Sets the number that `node_hint` returns, if it has 32 bits.
    #[inline]
    pub fn set_node_hint(&self, node: usize) {
        self.node_hint.set(u32::try_from(node).unwrap_or(NO_HINT));
    }

    /// Returns the number of its upserts that the maintenance has not done.
    #[inline]
    pub fn outstanding(&self) -> u64
        ensures { result ≡ self.now.outstanding }
    {
        self.outstanding
    }

    /// Returns `true` if it isn't live: it was idle too long, has lived too long, or is from before the last invalidation of all.
    pub fn is_expired<S: Drop>(
        &self,
        settings: &Settings<S, A>,
        valid_after: Instant,
        now: Instant,
    ) -> bool
        ensures { result ≡ is_expired settings.now valid_after now self.now }
    {
        let limits = settings.limits();
        limits.is_idle(self.accessed, now)
            || limits.is_past_ttl(self.modified, now)
            || self.accessed < valid_after
            || self.modified < valid_after
    }

    /// Takes what a later insert of an equal key brings, and keeps its key and its ticket. One upsert more is outstanding, for which there must
    /// be room in the count.
    pub fn update(&mut self, value: Shared<V, A>, weight: u32, now: Instant)
        requires room { self.old.outstanding < MAX_OUTSTANDING }
        ensures { self.new ≡ updated value weight now self.old }
    {
        self.value = value;
        self.weight = weight;
        self.accessed = now;
        self.modified = now;
        self.outstanding += 1;
    }

    /// Sets the moment of the last access, unless that is later already.
    pub fn touch(&mut self, moment: Instant)
        ensures { self.new ≡ touched moment self.old }
    {
        if self.accessed < moment {
            self.accessed = moment;
        }
    }

    /// Counts one outstanding upsert fewer.
    pub fn finish_upsert(&mut self)
        ensures { self.new ≡ with_upsert_done self.old }
    {
        self.outstanding = self.outstanding.saturating_sub(1);
    }
}

/// Returns the hint of an entry, or `NO_HINT`.
pub fn node_hint_of<K: Drop, V: Drop, A: Allocator + Drop>(
    found: Option<&Entry<K, V, A>>,
) -> usize {
    match found {
        Some(entry) => entry.node_hint(),
        None => NO_HINT as usize,
    }
}
