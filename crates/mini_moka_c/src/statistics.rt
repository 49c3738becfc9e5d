//! Counts of calls, and of the entries that leave.
ghost use Rattle.std.specs.Prelude.{◌≡◌, true, false};
ghost use Rattle.mini_moka_c.specs.Statistics.{no_statistics, with_get, with_insert, with_one, with_removal};

use moka_unsync_model::listener::Cause;

/// Counts of calls since the cache was made, and of what left it. Each stays at `u64::MAX` once it has reached that.
#[repr(C)]
#[derive(Clone, Copy, Drop)]
pub struct Statistics {
    /// Gets that found a value.
    pub hits: u64,
    /// Gets that found none.
    pub misses: u64,
    /// Inserts that weren't refused memory: of new entries, let in or not, and updates.
    pub inserts: u64,
    /// Inserts that gave a key another value.
    pub updates: u64,
    /// New entries that the admission policy did not let in.
    pub rejections: u64,
    /// Entries that left for the capacity.
    pub evictions: u64,
    /// Expired entries that left.
    pub expirations: u64,
    /// Entries that a call removed.
    pub removals: u64,
}

impl Statistics {
    /// Makes statistics of which each count is 0.
    pub fn none() -> Statistics
        ensures { result ≡ no_statistics }
    {
        Statistics {
            hits: 0,
            misses: 0,
            inserts: 0,
            updates: 0,
            rejections: 0,
            evictions: 0,
            expirations: 0,
            removals: 0,
        }
    }

    /// Counts a get.
    pub(crate) fn count_get(&mut self, is_hit: bool)
        ensures { self.new ≡ with_get is_hit self.old }
    {
        if is_hit {
            self.hits = self.hits.saturating_add(1);
        } else {
            self.misses = self.misses.saturating_add(1);
        }
    }

    /// Counts an insert that wasn't refused memory.
    pub(crate) fn count_insert(&mut self)
        ensures { self.new ≡ with_insert self.old }
    {
        self.inserts = self.inserts.saturating_add(1);
    }

    /// Counts a removal, if it returned a value. Its listener doesn't get that.
    pub(crate) fn count_removal(&mut self, is_found: bool)
        ensures { self.new ≡ with_removal is_found self.old }
    {
        if is_found {
            self.removals = self.removals.saturating_add(1);
        }
    }

    /// Counts an entry that left.
    pub(crate) fn count_leaving(&mut self, cause: Cause)
        ensures { self.new ≡ with_one cause self.old }
    {
        match cause {
            Cause::Size => self.evictions = self.evictions.saturating_add(1),
            Cause::Expired => self.expirations = self.expirations.saturating_add(1),
            Cause::Explicit => self.removals = self.removals.saturating_add(1),
            Cause::Replaced => self.updates = self.updates.saturating_add(1),
            Cause::Rejected => self.rejections = self.rejections.saturating_add(1),
        }
    }
}

/// The counts as C reads them: those of the calls, and of entries that a full queue dropped.
#[repr(C)]
#[derive(Clone, Copy, Drop)]
pub struct Report {
    pub statistics: Statistics,
    /// Entries that left while the queue of removed entries was full.
    pub lost: u64,
}
