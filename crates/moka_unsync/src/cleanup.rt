// The work that each call does first: it removes expired entries, by write and then by use, and entries above the limit, in batches.
ghost use Rattle.std.specs.Prelude.{◌≡◌, ◌||◌, ◌+◌, ◌-◌, ◌^◌, ⊤, false, is_some, nat_lt, option_map, true};
ghost use Rattle.std.specs.Duration.{as_nanos};
ghost use Rattle.moka_common.specs.Moment.{deadline_of, is_past};
ghost use Rattle.moka_common.specs.Settings.{live_nanos};
ghost use Rattle.moka_unsync_model.specs.declared.constants.TheConstants.{EVICTION_BATCH_SIZE};
ghost use Rattle.moka_unsync_model.specs.Cleanup.{after_eviction, after_expiry, after_idle_expiry, after_live_expiry, after_cleanup, is_expired};
ghost use Rattle.moka_unsync_model.specs.Deadline.{expiry_of, is_beyond};
ghost use Rattle.moka_unsync_model.specs.Told.{TellsCleanup, TellsWhatLeft, cause_at};
ghost use Rattle.moka_unsync_model.specs.declared.listener.Cause.TheVariants.{Expired, Size};
ghost use Rattle.moka_store.specs.Store.{Continues, contents_of, entries_of, is_of, those_of};
ghost use Rattle.moka_unsync.specs.Turns.{IsTurn, after_idle_of};

use crate::leaving::leave;
use moka_common::limits::Limits;
use moka_common::policy::Policy;
use moka_common::time::Instant;
use moka_store::store::Store;
use moka_unsync_model::constants::EVICTION_BATCH_SIZE;
use moka_unsync_model::entry::{Entry, Part};
use moka_unsync_model::listener::{Cause, Listener};
use std::alloc::Allocator;
use std::marker::Model;
use std::time::Duration;

/// The limits of a cache, with what each call asks of them first. A contract sees the policy alone.
#[derive(Drop)]
pub(crate) struct Bounds {
    limits: Limits,
    // If entries expire.
    expires: bool,
    // The weight limit of all entries, or the largest number if there is none.
    max_weight: u64,
}

impl Model for Bounds {
    ghost use Rattle.moka_common.specs.Policy.{Policy as PolicyState};
    ghost use Rattle.moka_unsync.specs.Cached.{IsBounded};

    ghost Value = { PolicyState };

    ghost view = { λ b. b.limits };

    ghost invariant = { λ b. IsBounded b.limits b.expires b.max_weight };
}

impl Bounds {
    /// Works out the bounds of a policy.
    pub(crate) fn new(policy: Policy) -> Bounds
        ensures { result ≡ policy }
    {
        Bounds {
            limits: Limits::new(policy),
            expires: policy.time_to_live().is_some() || policy.time_to_idle().is_some(),
            max_weight: policy.max_capacity().unwrap_or(u64::MAX),
        }
    }

    /// Returns the policy.
    pub(crate) fn policy(&self) -> Policy
        ensures { result ≡ self.now }
    {
        self.limits.policy()
    }

    /// Returns `true` if entries have a time to live.
    pub(crate) fn has_time_to_live(&self) -> bool
        ensures { result ≡ is_some self.now.time_to_live }
    {
        self.limits.has_time_to_live()
    }

    /// Returns the deadline of an entry that is written then, with its own time to live if it has one.
    #[inline(always)]
    pub(crate) fn deadline(&self, own: Option<Duration>, written: Instant) -> Instant
        ensures { result ≡ deadline_of (live_nanos self.now) (option_map as_nanos own) written }
    {
        self.limits.deadline(own, written)
    }

    /// Returns `true` if the time to live of an entry that is written then, its own or the cache's, ends after the last moment.
    #[inline(always)]
    pub(crate) fn is_beyond(&self, own: Option<Duration>, written: Instant) -> bool
        ensures { result ≡ is_beyond (live_nanos self.now) (option_map as_nanos own) written }
    {
        match (self.limits.policy().time_to_live(), own) {
            (None, _) => false,
            (Some(live), None) => ends_beyond(written, live.as_nanos()),
            (Some(live), Some(own)) => { ends_beyond(written, live.as_nanos().min(own.as_nanos())) }
        }
    }

    /// Returns `true` if the policy has a duration. Without one no entry ever expires.
    pub(crate) fn has_duration(&self) -> bool
        ensures { result ≡ (is_some self.now.time_to_live || is_some self.now.time_to_idle) }
    {
        self.expires
    }

    /// Removes expired entries, and then entries above the limit. `get`, `contains_key`, `insert`, `invalidate` and `remove` do so first.
    #[inline(always)]
    pub(crate) fn clean_up<K: Eq + Drop, V: Drop, A: Allocator + Clone + Drop, L: Listener<K, V>>(
        &self,
        store: &mut Store<K, V, A>,
        now: Instant,
        listener: &mut L,
    )
        ensures step { contents_of store.new ≡ after_cleanup K.eq self.now now (contents_of store.old) }
        ensures kept { Continues store.old store.new }
        ensures told { TellsCleanup L.hears K.eq self.now now (contents_of store.old) listener.old listener.new }
    {
        if self.expires {
            expire(store, &self.limits, now, listener);
        }
        if store.weight() > self.max_weight {
            evict_lru_to(store, self.max_weight, listener);
        }
    }

    /// Returns `true` if an entry is past its time to live or its time to idle.
    #[inline(always)]
    pub(crate) fn is_expired<K: Drop, V: Drop>(&self, entry: &Entry<K, V>, now: Instant) -> bool
        ensures { result ≡ is_expired self.now now entry.now }
    {
        self.expires && is_expired(&self.limits, entry, now)
    }

    /// Returns the cause for which an entry leaves: that it is past a duration, or else the other one.
    #[inline(always)]
    pub(crate) fn cause_at<K: Drop, V: Drop>(
        &self,
        entry: &Entry<K, V>,
        now: Instant,
        other: Cause,
    ) -> Cause
        ensures { result ≡ cause_at self.now now entry.now other }
    {
        if self.is_expired(entry, now) {
            return Cause::Expired;
        }
        other
    }
}

/// Removes a batch by time to live, and a batch of each part by time to idle, if these are set.
fn expire<K: Eq + Drop, V: Drop, A: Allocator + Clone + Drop, L: Listener<K, V>>(
    store: &mut Store<K, V, A>,
    limits: &Limits,
    now: Instant,
    listener: &mut L,
)
    ensures step { contents_of store.new ≡ after_expiry K.eq limits.now now (contents_of store.old) }
    ensures kept { Continues store.old store.new }
    ensures told { TellsWhatLeft L.hears Expired (λ e. is_expired limits.now now e ≡ true) (entries_of store.old) (entries_of store.new)
        listener.old listener.new }
{
    if limits.has_time_to_live() {
        expire_by_write(store, limits, now, listener);
    }
    if limits.has_time_to_idle() {
        expire_by_use(store, limits, now, listener);
    }
}

#[inline(never)]
fn expire_by_write<K: Eq + Drop, V: Drop, A: Allocator + Clone + Drop, L: Listener<K, V>>(
    store: &mut Store<K, V, A>,
    limits: &Limits,
    now: Instant,
    listener: &mut L,
)
    ensures step { contents_of store.new
        ≡ after_live_expiry K.eq limits.now now EVICTION_BATCH_SIZE (contents_of store.old) }
    ensures kept { Continues store.old store.new }
    ensures told { TellsWhatLeft L.hears Expired (λ e. is_expired limits.now now e ≡ true) (entries_of store.old) (entries_of store.new)
        listener.old listener.new }
{
    let mut left = EVICTION_BATCH_SIZE;
    while left > 0 && expire_oldest(store, limits, now, listener) {
        left -= 1;
    }
}

/// Removes the least recently written entry if it is past its time to live.
fn expire_oldest<K: Eq + Drop, V: Drop, A: Allocator + Clone + Drop, L: Listener<K, V>>(
    store: &mut Store<K, V, A>,
    limits: &Limits,
    now: Instant,
    listener: &mut L,
) -> bool
    ensures turn { IsTurn (after_live_expiry K.eq limits.now now)
        result (contents_of store.old) (contents_of store.new) }
    ensures kept { Continues store.old store.new }
    ensures told { TellsWhatLeft L.hears Expired (λ e. is_expired limits.now now e ≡ true) (entries_of store.old) (entries_of store.new)
        listener.old listener.new }
{
    let Some(id) = store.oldest_write() else {
        return false;
    };
    if !is_past(limits, store.get(id), now) {
        return false;
    }
    leave(store, id, Cause::Expired, listener);
    true
}

/// Removes a batch of the window, one of probation and one of protected.
#[inline(never)]
fn expire_by_use<K: Eq + Drop, V: Drop, A: Allocator + Clone + Drop, L: Listener<K, V>>(
    store: &mut Store<K, V, A>,
    limits: &Limits,
    now: Instant,
    listener: &mut L,
)
    ensures step { contents_of store.new
        ≡ after_idle_expiry K.eq limits.now now EVICTION_BATCH_SIZE (contents_of store.old) }
    ensures kept { Continues store.old store.new }
    ensures told { TellsWhatLeft L.hears Expired (λ e. is_expired limits.now now e ≡ true) (entries_of store.old) (entries_of store.new)
        listener.old listener.new }
{
    expire_part(store, Part::Window, limits, now, listener);
    expire_part(store, Part::Probation, limits, now, listener);
    expire_part(store, Part::Protected, limits, now, listener);
}

/// Removes a batch of idle entries of a part.
fn expire_part<K: Eq + Drop, V: Drop, A: Allocator + Clone + Drop, L: Listener<K, V>>(
    store: &mut Store<K, V, A>,
    part: Part,
    limits: &Limits,
    now: Instant,
    listener: &mut L,
)
    ensures step { contents_of store.new
        ≡ after_idle_of K.eq part limits.now now EVICTION_BATCH_SIZE (contents_of store.old) }
    ensures others { (other : _) → is_of other part ≡ false
        → those_of other (entries_of store.new) ≡ those_of other (entries_of store.old) }
    ensures kept { Continues store.old store.new }
    ensures told { TellsWhatLeft L.hears Expired (λ e. is_expired limits.now now e ≡ true) (entries_of store.old) (entries_of store.new)
        listener.old listener.new }
{
    let mut left = EVICTION_BATCH_SIZE;
    while left > 0 && expire_front(store, part, limits, now, listener) {
        left -= 1;
    }
}

/// Removes the least recently used entry of a part if it is past its time to idle.
fn expire_front<K: Eq + Drop, V: Drop, A: Allocator + Clone + Drop, L: Listener<K, V>>(
    store: &mut Store<K, V, A>,
    part: Part,
    limits: &Limits,
    now: Instant,
    listener: &mut L,
) -> bool
    ensures turn { IsTurn (after_idle_of K.eq part limits.now now)
        result (contents_of store.old) (contents_of store.new) }
    ensures others { (other : _) → is_of other part ≡ false
        → those_of other (entries_of store.new) ≡ those_of other (entries_of store.old) }
    ensures kept { Continues store.old store.new }
    ensures told { TellsWhatLeft L.hears Expired (λ e. is_expired limits.now now e ≡ true) (entries_of store.old) (entries_of store.new)
        listener.old listener.new }
{
    let Some(id) = store.front_of(part) else {
        return false;
    };
    if !limits.is_idle(store.get(id).accessed, now) {
        return false;
    }
    leave(store, id, Cause::Expired, listener);
    true
}

/// Removes a batch of the least recently used entries while the weight is above the limit.
#[cold]
#[inline(never)]
fn evict_lru_to<K: Eq + Drop, V: Drop, A: Allocator + Clone + Drop, L: Listener<K, V>>(
    store: &mut Store<K, V, A>,
    limit: u64,
    listener: &mut L,
)
    ensures step { contents_of store.new
        ≡ after_eviction K.eq limit EVICTION_BATCH_SIZE (contents_of store.old) }
    ensures kept { Continues store.old store.new }
    ensures told { TellsWhatLeft L.hears Size (λ e. ⊤) (entries_of store.old) (entries_of store.new) listener.old listener.new }
{
    let mut left = EVICTION_BATCH_SIZE;
    while left > 0 && evict_lru_front(store, limit, listener) {
        left -= 1;
    }
}

/// Removes the least recently used entry if the weight is above the limit.
fn evict_lru_front<K: Eq + Drop, V: Drop, A: Allocator + Clone + Drop, L: Listener<K, V>>(
    store: &mut Store<K, V, A>,
    limit: u64,
    listener: &mut L,
) -> bool
    ensures turn { IsTurn (after_eviction K.eq limit)
        result (contents_of store.old) (contents_of store.new) }
    ensures kept { Continues store.old store.new }
    ensures told { TellsWhatLeft L.hears Size (λ e. ⊤) (entries_of store.old) (entries_of store.new) listener.old listener.new }
{
    if store.weight() <= limit {
        return false;
    }
    let Some(id) = store.front() else {
        return false;
    };
    leave(store, id, Cause::Size, listener);
    true
}

#[inline]
fn is_expired<K: Drop, V: Drop>(limits: &Limits, entry: &Entry<K, V>, now: Instant) -> bool
    ensures { result ≡ is_expired limits.now now entry.now }
{
    is_past(limits, entry, now) || limits.is_idle(entry.accessed, now)
}

/// Returns `true` if the time to live of an entry has ended.
#[inline]
fn is_past<K: Drop, V: Drop>(limits: &Limits, entry: &Entry<K, V>, now: Instant) -> bool
    ensures { result ≡ is_past (live_nanos limits.now) (expiry_of entry.now) now }
{
    limits.has_time_to_live()
        && if entry.outlasts {
            entry.deadline < now
        } else {
            entry.deadline <= now
        }
}

#[inline]
fn ends_beyond(written: Instant, nanos: u128) -> bool
    ensures { result ≡ nat_lt (2 ^ 64 - 1) (written + nanos) }
{
    u128::from(u64::MAX - written.nanos()) < nanos
}
