//! Listeners, which get the entries that leave a cache.
ghost use Rattle.std.specs.Prelude.{◌≡◌};
ghost use Rattle.moka_unsync_model.specs.Told.{StatisticsCount, counted};

/// Why an entry left a cache, or never entered it.
#[derive(Clone, Copy, Debug, PartialEq, Eq)]
pub enum Cause {
    /// The cache had no room for it.
    Size,
    /// Its time to live or its time to idle had passed. So is one that an insert replaces or a call of its key removes.
    Expired,
    /// A call removed it, before its time had passed or without a moment.
    Explicit,
    /// An insert gave its key another value, before its time had passed.
    Replaced,
    /// It was new, and the admission policy did not let it in.
    Rejected,
}

/// Gets each entry that leaves a cache, within the call in which it leaves.
pub trait Listener<K, V> {
    ghost use Rattle.moka_unsync_model.specs.declared.listener.Cause.{Cause};

    // What the listener is once it has got an entry.
    ghost hears: { Self → K → V → Cause → Self → Type 0 };

    /// Takes an entry that left.
    fn removed(&mut self, key: K, value: V, cause: Cause)
        ensures { hears self.old key value cause self.new };
}

/// Drops each entry that it gets.
#[derive(Clone, Copy, Debug, PartialEq, Eq)]
pub struct NoListener;

impl<K: Drop, V: Drop> Listener<K, V> for NoListener {
    ghost hears = { λ old key value cause new. new ≡ old };

    #[inline(always)]
    fn removed(&mut self, _key: K, _value: V, _cause: Cause) {}
}

/// Counts the entries that it gets, by cause. A count stops at the largest number.
#[derive(Clone, Copy, Debug, Default, PartialEq, Eq)]
pub struct Statistics {
    pub size: u64,
    pub expired: u64,
    pub explicit: u64,
    pub replaced: u64,
    pub rejected: u64,
}

impl<K: Drop, V: Drop> Listener<K, V> for Statistics {
    ghost hears = { λ old key value cause new. new ≡ counted cause old };

    fn removed(&mut self, _key: K, _value: V, cause: Cause) {
        match cause {
            Cause::Size => self.size = self.size.saturating_add(1),
            Cause::Expired => self.expired = self.expired.saturating_add(1),
            Cause::Explicit => self.explicit = self.explicit.saturating_add(1),
            Cause::Replaced => self.replaced = self.replaced.saturating_add(1),
            Cause::Rejected => self.rejected = self.rejected.saturating_add(1),
        }
    }
}

/// `Statistics` counts each entry that it gets. A law is its function's clause: there is no code to call.
pub fn statistics_count_each_entry<K, V>()
    ensures { StatisticsCount K V }
{}
