//! A cache that keeps a record of its calls. Replayed from a new cache, the record leads to the cache as it is.
ghost use Rattle.std.specs.Prelude.{◌≡◌, Bool, IfOk};
ghost use Rattle.moka_record.specs.Record.{IsAnswer, answer_of};
ghost use Rattle.moka_common.specs.Keys.{keys_by};

use moka_common::hash::FixedState;
use moka_common::shared::Shared;
use moka_common::weigh::UnitWeight;
use moka_core::engine::Core;
use moka_core::rows::Rows;
use moka_sync_model::call::Call;
use moka_sync_model::event::Reply;
use moka_sync_model::weigh::WeighShared;
use std::alloc::{Allocator, Global};
use std::hash::{BuildHasher, Hash};
use std::marker::Model;
use thiserror::Error;

/// A recording cache had no memory to write a call down, and didn't make it.
#[derive(Clone, Copy, Debug, PartialEq, Eq, Error)]
#[error("not recorded")]
pub struct NotRecorded;

/// A call whose key and value are shared, so that it can be kept beside the entry that it makes.
pub type SharedCall<K, V, A = Global> = Call<Shared<K, A>, Shared<V, A>>;

/// The answer to a call, with the value that was found shared.
pub type Answer<K, V, A = Global> = Reply<Shared<V, A>, Rows<K, V, A>>;

/// A call that was made, and the reply that it had.
#[derive(Drop)]
pub struct Made<K: Drop, V: Drop, A: Allocator + Drop = Global> {
    pub call: SharedCall<K, V, A>,
    pub reply: Answer<K, V, A>,
}

/// A cache with the calls that were made on it, in their order.
pub struct Record<
    K: Eq + Hash + Drop,
    V: Drop,
    S: BuildHasher + Drop = FixedState,
    W: Drop = UnitWeight,
    A: Allocator + Clone + Drop = Global,
> {
    core: Core<K, V, S, W, A>,
    first_ticket: u64,
    calls: Vec<Made<K, V, A>, A>,
}

// By hand, and not derived: wherever a record may end, there is one call to prove then, in place of one for each of its parts.
impl<K: Eq + Hash + Drop, V: Drop, S: BuildHasher + Drop, W: Drop, A: Allocator + Clone + Drop> Drop
    for Record<K, V, S, W, A> {
    fn drop(self) {
        let Record {
            core: _,
            first_ticket: _,
            calls: _,
        } = self;
    }
}

impl<
    K: Eq + Hash + Drop,
    V: Drop,
    S: BuildHasher + Drop,
    W: Drop,
    A: Allocator + Clone + Drop,
> Model for Record<K, V, S, W, A> {
    ghost use Rattle.moka_sync_model.specs.CoreCall.{IsAtRest};
    ghost use Rattle.moka_record.specs.Record.{Record as RecordValue};

    ghost Value = { RecordValue K V S W A };

    ghost view = { λ r. record {
      state = record { core = r.core.state; first_ticket = r.first_ticket; calls = r.calls.items };
      weigher = r.core.weigher;
    } };

    ghost invariant = { λ r. IsAtRest r.core.state };
}

impl<
    K: Eq + Hash + Drop,
    V: Drop,
    S: BuildHasher + Drop,
    W: WeighShared<K, V>,
    A: Allocator + Clone + Drop,
> Record<K, V, S, W, A> {
    ghost use Rattle.moka_sync_model.specs.CoreState.{IsNew};
    ghost use Rattle.moka_record.specs.Record.{new_record, Memory, IsApplied};
    ghost use Rattle.moka_record.specs.Replay.{Replays};

    /// Makes a record without calls, of a cache on which nothing has been done: `Core::is_new` is the test.
    pub fn new(alloc: A, core: Core<K, V, S, W, A>) -> Self
        requires new { IsNew core.state }
        ensures state { result.state ≡ new_record core.state }
        ensures weigher { result.weigher ≡ core.weigher }
        ensures replays { Replays (keys_by K.Hash S.BuildHasher S.Hasher.Hasher) (W.weighs result.weigher)
            result.state }
    {
        let first_ticket = core.first_ticket();
        Record {
            core,
            first_ticket,
            calls: Vec::new(alloc),
        }
    }

    /// Makes one call, writes it down with its reply, and answers the reply. It is refused before it acts. Only where the value that was
    /// found can't be shared once more has the call been made and the answer says that memory was refused: the record has the value.
    pub fn apply(&mut self, call: SharedCall<K, V, A>) -> Result<Answer<K, V, A>, NotRecorded>
        requires ready { W.ready self.old.weigher }
        ensures step { (memory : Memory) ×
            IsApplied (keys_by K.Hash S.BuildHasher S.Hasher.Hasher) (W.weighs self.old.weigher)
            self.old.state call memory result self.new.state }
        ensures replays { Replays (keys_by K.Hash S.BuildHasher S.Hasher.Hasher) (W.weighs self.old.weigher) self.old.state
            → Replays (keys_by K.Hash S.BuildHasher S.Hasher.Hasher) (W.weighs self.new.weigher) self.new.state }
        ensures weigher { self.new.weigher ≡ self.old.weigher }
        ensures answer { IfOk result IsAnswer }
    {
        if self.calls.reserve(1).is_err() {
            return Err(NotRecorded);
        }
        let Ok(copy) = call.try_clone() else {
            return Err(NotRecorded);
        };
        let reply = self.core.call(copy);
        let answer = answer_of(&reply);
        self.calls.push_reserved(Made { call, reply });
        Ok(answer)
    }
}

impl<
    K: Eq + Hash + Drop,
    V: Drop,
    S: BuildHasher + Drop,
    W: Drop,
    A: Allocator + Clone + Drop,
> Record<K, V, S, W, A> {
    /// Returns the cache as it is now.
    pub fn core(&self) -> &Core<K, V, S, W, A>
        ensures state { result.now.state ≡ self.now.state.core }
        ensures weigher { result.now.weigher ≡ self.now.weigher }
    {
        &self.core
    }

    /// Returns the calls with their replies, first to last.
    pub fn calls(&self) -> &[Made<K, V, A>]
        ensures { result.now ≡ self.now.state.calls }
    {
        &self.calls
    }

    /// Returns the ticket number that the first new entry of each shard was to get.
    pub fn first_ticket(&self) -> u64
        ensures { result ≡ self.now.state.first_ticket }
    {
        self.first_ticket
    }
}

/// Returns the reply once more, to be answered while the record keeps the first.
fn answer_of<K: Drop, V: Drop, A: Allocator + Drop>(reply: &Answer<K, V, A>) -> Answer<K, V, A>
    requires { IsAnswer reply.now }
    ensures value { (refused : Bool) × (result ≡ answer_of reply.now refused) }
    ensures answer { IsAnswer result }
{
    match reply {
        Reply::Done => Reply::Done,
        Reply::Found(None) => Reply::Found(None),
        Reply::Found(Some(value)) => match value.try_clone() {
            Ok(value) => Reply::Found(Some(value)),
            Err(_) => Reply::OutOfMemory,
        },
        Reply::Bool(truth) => Reply::Bool(*truth),
        Reply::Counts { count, weight } => Reply::Counts {
            count: *count,
            weight: *weight,
        },
        Reply::OutOfMemory => Reply::OutOfMemory,
        Reply::TicketsUsedUp => Reply::TicketsUsedUp,
        Reply::Discarded | Reply::Rows(_) | Reply::At(_) | Reply::NotPossible => unreachable!(),
    }
}
