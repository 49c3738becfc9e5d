//! The steps of one caller on a cache behind locks.
ghost use Rattle.std.specs.Prelude.{◌≡◌, [], ℕ, List, None, IfSome};
ghost use Rattle.moka_common.specs.Settings.{keeps_writes};
ghost use Rattle.moka_sync_model.specs.Phase.{Idle};
ghost use Rattle.moka_locks.specs.Cache.{plan_of};
ghost use Rattle.moka_locks.specs.Locked.{resting_at, running};
ghost use Rattle.moka_row.specs.Visits.{IsIdle, guest, newcomer};
ghost use Rattle.moka_locks.specs.SameTickets.{HasBothOrders};

use crate::account::Caller;
use crate::inner::Inner;
use crate::running::RunningMaintenance;
use moka_common::error::{InsertError, OutOfMemory};
use moka_common::shared::Shared;
use moka_common::time::Instant;
use moka_queues::logs::LoggedRead;
use moka_shard::rule::PairRule;
use moka_sync_model::constants::FLUSH_POINT;
use moka_sync_model::operation::{Read, Write};
use moka_sync_model::phase::Phase;
use moka_sync_model::steps::{ReadPush, Steps, TakingSteps, WhichLog, WritePush};
use moka_sync_model::weigh::WeighShared;
use std::alloc::Allocator;
use std::hash::{BuildHasher, Hash};
use std::marker::Model;
use std::sync::Wait;

/// The operation of a caller that isn't in a log yet.
#[derive(Clone, Copy)]
enum Pending {
    Nothing,
    Read(LoggedRead),
    Write(Write),
}

/// A cache behind its locks, as one caller has it for the time of a call.
pub struct Locked<
    'a,
    K: Eq + Hash + Drop,
    V: Drop,
    S: BuildHasher + Drop,
    P: PairRule<K, V>,
    W: Drop,
    A: Allocator + Clone + Drop,
> {
    inner: &'a Inner<K, V, S, P, W, A>,
    caller: Caller<K, V, S, P, A>,
    pending: Pending,
    /// The maintenance that the caller runs.
    running: Option<RunningMaintenance<'a, A>>,
    /// True if the caller has won the flag: nobody else wins it until the maintenance has ended.
    runs_maintenance: bool,
}

// By hand, and not derived: wherever a call may end, there is one call to prove then, in place of one for each of its parts.
impl<
    'a,
    K: Eq + Hash + Drop,
    V: Drop,
    S: BuildHasher + Drop,
    P: PairRule<K, V>,
    W: Drop,
    A: Allocator + Clone + Drop,
> Drop for Locked<'a, K, V, S, P, W, A> {
    fn drop(self) {
        let Locked {
            inner: _,
            caller: _,
            pending: _,
            running: _,
            runs_maintenance: _,
        } = self;
    }
}

impl<
    'a,
    K: Eq + Hash + Drop,
    V: Drop,
    S: BuildHasher + Drop,
    P: PairRule<K, V>,
    W: Drop,
    A: Allocator + Clone + Drop,
> Model for Locked<'a, K, V, S, P, W, A> {
    ghost use Rattle.std.specs.Prelude.{◌≡◌, [], IfSome, option_map};
    ghost use Rattle.moka_common.specs.Settings.{keeps_writes};
    ghost use Rattle.moka_locks.specs.Cache.{plan_of};
    ghost use Rattle.moka_locks.specs.Locked.{Locked as LockedValue, operation_of};
    ghost use Rattle.moka_locks.specs.SameTickets.{IsOrdered};
    ghost use Rattle.moka_row.specs.Visits.{IsIdle};

    ghost Value = { LockedValue K V S W };

    ghost view = { λ l. record {
      cache = l.inner.now;
      knows = l.caller.shards.me.0;
      moments = l.caller.moments.me.0.seen;
      pending = operation_of l.pending;
      working = option_map (λ r. r.working) l.running;
    } };

    ghost invariant = { λ l. IfSome l.running (λ r. (r.keeps_writes ≡ keeps_writes l.inner.now.settings.policy) × IsOrdered r)
        × (l.caller.shards.table_id ≡ l.inner.now.id.shards) × IsIdle (plan_of l.inner.now) l.caller.shards.me
        × (l.caller.moments.table_id ≡ l.inner.now.id.moments) × (l.caller.moments.me.1 ≡ []) };
}

impl<
    'a,
    K: Eq + Hash + Drop,
    V: Drop,
    S: BuildHasher + Drop,
    P: PairRule<K, V>,
    W: Drop,
    A: Allocator + Clone + Drop,
> Locked<'a, K, V, S, P, W, A> {
    /// Begins a call by a new guest, with nothing under way.
    pub fn new(inner: &'a Inner<K, V, S, P, W, A>) -> Self
        ensures { (seat : ℕ) × (moments : List ℕ) × (result ≡ resting_at inner.now (newcomer (plan_of inner.now) (guest seat)) moments) }
    {
        Locked::by(inner, inner.shards.come())
    }

    /// Begins a call by a caller who has seats, with nothing under way.
    pub fn by(inner: &'a Inner<K, V, S, P, W, A>, caller: Caller<K, V, S, P, A>) -> Self
        requires shards { (caller.shards.table_id ≡ inner.now.id.shards) × IsIdle (plan_of inner.now) caller.shards.me }
        requires moments { (caller.moments.table_id ≡ inner.now.id.moments) × (caller.moments.me.1 ≡ []) }
        ensures { result ≡ resting_at inner.now caller.shards.me.0 caller.moments.me.0.seen }
    {
        Locked {
            inner,
            caller,
            pending: Pending::Nothing,
            running: None,
            runs_maintenance: false,
        }
    }

    /// Ends the call. Returns the caller's seats.
    pub fn into_caller(self) -> Caller<K, V, S, P, A>
        ensures table { result.shards.table_id ≡ self.entry.cache.id.shards }
        ensures idle { IsIdle (plan_of self.entry.cache) result.shards.me }
        ensures knows { result.shards.me.0 ≡ self.entry.knows }
        ensures seat { (result.moments.table_id ≡ self.entry.cache.id.moments) × (result.moments.me.1 ≡ []) }
        ensures moments { result.moments.me.0.seen ≡ self.entry.moments }
    {
        let Locked {
            inner: _,
            caller,
            pending: _,
            running: _,
            runs_maintenance: _,
        } = self;
        caller
    }

    /// Does nothing, and tells a proof that, with a time to live, the maintenance that the caller runs has the same tickets in both orders.
    pub fn has_both_orders(&self)
        ensures { IfSome self.now.working (λ w. HasBothOrders (keeps_writes self.now.cache.settings.policy) w.maintenance.orders) }
    {
        let _ = &self.running;
    }

    /// Writes the counts of the maintenance, which has ended, gives it back, and clears the flag if the caller won it.
    fn end<R: Wait>(&mut self, rt: &R)
        requires { IfSome self.old.working (λ w. w.maintenance.phase ≡ Idle) }
        ensures { self.new ≡ running None self.old }
    {
        let Some(running) = self.running.take() else {
            return;
        };
        let inner = self.inner;
        inner.publish(running.published());
        running.end(rt);
        if self.runs_maintenance {
            self.runs_maintenance = false;
            inner.housekeeper.end();
        }
    }
}

impl<
    'a,
    K: Eq + Hash + Drop,
    V: Drop,
    S: BuildHasher + Drop,
    P: PairRule<K, V>,
    W: WeighShared<K, V>,
    A: Allocator + Clone + Drop,
> Steps<K, V, A> for Locked<'a, K, V, S, P, W, A> {
    ghost use Rattle.moka_common.specs.Keys.{keys_by};
    ghost use Rattle.moka_locks.specs.Locked.{locked_allows, locked_caller, locked_decides};

    ghost allowed = { locked_allows (keys_by (record { eq = K.eq; hash_input = K.hash_input }) S.BuildHasher S.Hasher.Hasher) P.holds W.weighs };

    ghost decides = { locked_decides };

    ghost caller = { locked_caller };

    ghost accepts = { λ locked key value. P.holds key value × W.ready locked.cache.weigher };

    type Key = Shared<K, A>;

    type Value = Shared<V, A>;

    ghost key_of = { λ key. key };

    ghost value_of = { λ value. value };

    fn insert<R: Wait>(
        &mut self,
        rt: &R,
        key: Shared<K, A>,
        value: Shared<V, A>,
        now: Instant,
    ) -> Result<(), InsertError> {
        let inner = self.inner;
        let (shards, weigher) = (&inner.shards, &inner.weigher);
        let ticket = shards.insert(rt, &mut self.caller.shards, key, value, weigher, now)?;
        self.pending = Pending::Write(Write::Upsert { ticket });
        Ok(())
    }

    fn get<R: Wait>(
        &mut self,
        rt: &R,
        key: &K,
        now: Instant,
    ) -> Result<Option<Shared<V, A>>, OutOfMemory> {
        let inner = self.inner;
        let hash = inner.shards.hash_of(key);
        let caller = &mut self.caller;
        let (seat, witness) = (&mut caller.shards, &mut caller.moments);
        let (found, hint) = inner.shards.get(rt, seat, witness, key, hash, now)?;
        let Some((value, ticket)) = found else {
            let read = Read::Miss { hash };
            self.pending = Pending::Read(LoggedRead { read, hint });
            return Ok(None);
        };
        let read = Read::Hit {
            ticket,
            moment: now,
        };
        self.pending = Pending::Read(LoggedRead { read, hint });
        Ok(Some(value))
    }

    fn contains_key<R: Wait>(&mut self, rt: &R, key: &K, now: Instant) -> bool {
        let inner = self.inner;
        let caller = &mut self.caller;
        let (seat, witness) = (&mut caller.shards, &mut caller.moments);
        inner.shards.contains_key(rt, seat, witness, key, now)
    }

    fn invalidate<R: Wait>(&mut self, rt: &R, key: &K, _now: Instant) -> bool {
        let inner = self.inner;
        let left = inner.shards.invalidate(rt, &mut self.caller.shards, key);
        let Some(ticket) = left else {
            return false;
        };
        self.pending = Pending::Write(Write::Remove { ticket });
        true
    }

    fn invalidate_all(&mut self, now: Instant) {
        let inner = self.inner;
        let moments = &inner.shards.moments;
        moments.invalidate(&mut self.caller.moments, now);
    }

    #[inline]
    fn push_read<R: Wait>(&mut self, rt: &R) -> ReadPush {
        let Pending::Read(logged) = self.pending else {
            return ReadPush::Discarded;
        };
        self.pending = Pending::Nothing;
        let inner = self.inner;
        if inner.logs.push_read(rt, logged) {
            ReadPush::Pushed
        } else {
            ReadPush::Discarded
        }
    }

    fn push_write<R: Wait>(&mut self, rt: &R) -> WritePush {
        let Pending::Write(write) = self.pending else {
            return WritePush::Full;
        };
        let inner = self.inner;
        if !inner.logs.push_write(rt, write) {
            return WritePush::Full;
        }
        self.pending = Pending::Nothing;
        WritePush::Pushed
    }

    fn forget(&mut self) {
        self.pending = Pending::Nothing;
    }

    fn decide(&mut self, log: WhichLog, now: Instant) -> bool {
        let inner = self.inner;
        let len = match log {
            WhichLog::Reads => inner.logs.reads(),
            WhichLog::Writes => inner.logs.writes(),
        };
        let housekeeper = &inner.housekeeper;
        self.runs_maintenance = housekeeper.should_apply(len, FLUSH_POINT, now)
            && housekeeper.try_begin(now);
        self.runs_maintenance
    }

    fn begin<R: Wait>(&mut self, rt: &R, now: Instant) {
        let running = self.inner.begin(rt, now);
        drop(self.running.replace(running));
    }

    fn turn<R: Wait>(&mut self, rt: &R) -> Phase {
        let Some(running) = &mut self.running else {
            return Phase::Idle;
        };
        let phase = running.turn(rt, self.inner);
        if let Phase::Idle = phase {
            self.end(rt);
        }
        phase
    }
}

impl<
    'a,
    K: Eq + Hash + Drop,
    V: Clone,
    S: BuildHasher + Drop,
    P: PairRule<K, V>,
    W: WeighShared<K, V>,
    A: Allocator + Clone + Drop,
> TakingSteps<K, V, A> for Locked<'a, K, V, S, P, W, A> {
    type Taken = V;

    ghost is_taken = { V.is_clone };

    ghost is_sure = { V.is_infallible };

    fn take<R: Wait>(
        &mut self,
        rt: &R,
        key: &K,
        now: Instant,
    ) -> Result<(Option<V>, bool), OutOfMemory> {
        let inner = self.inner;
        let caller = &mut self.caller;
        let (seat, witness) = (&mut caller.shards, &mut caller.moments);
        let (handed, ticket) = inner.shards.take(rt, seat, witness, key, now)?;
        let Some(ticket) = ticket else {
            return Ok((handed, false));
        };
        self.pending = Pending::Write(Write::Remove { ticket });
        Ok((handed, true))
    }
}
