//! The cache without its locks: a core that takes one atomic step at a time, or makes one whole call.
ghost use Rattle.std.specs.Prelude.{◌≡◌, ◌↔◌, IfErr, IfOk, IsTrue, OnErr, slice_index};
ghost use Rattle.moka_common.specs.Keys.{keys_by};
ghost use Rattle.moka_core.specs.Core.{unlimited};
ghost use Rattle.moka_sync_model.specs.Consistent.{IsConsistent};
ghost use Rattle.moka_sync_model.specs.CoreCall.{Finishes, IsAtRest, IsCall};
ghost use Rattle.moka_sync_model.specs.CoreState.{IsNew, new_core};
ghost use Rattle.moka_sync_model.specs.declared.call.Call.TheVariants as call;
ghost use Rattle.moka_sync_model.specs.Run.{RunsTo};

use crate::machine::Machine;
use crate::rows::Rows;
use moka_common::error::{BuildError, OutOfMemory};
use moka_common::hash::FixedState;
use moka_common::policy::Policy;
use moka_common::shared::Shared;
use moka_common::time::Instant;
use moka_common::weigh::UnitWeight;
use moka_sync_model::call::Call;
use moka_sync_model::event::{Event, Reply};
use moka_sync_model::settings::CoreParts;
use moka_sync_model::weigh::WeighShared;
use std::alloc::{Allocator, Global};
use std::hash::{BuildHasher, Hash};
use std::marker::Model;

/// The cache without its locks.
pub struct Core<
    K: Eq + Hash + Drop,
    V: Drop,
    S: BuildHasher + Drop = FixedState,
    W: Drop = UnitWeight,
    A: Allocator + Clone + Drop = Global,
> {
    machine: Machine<K, V, S, W, A>,
}

// By hand, and not derived: wherever a core may end, there is one call to prove then, in place of one for each of its parts.
impl<K: Eq + Hash + Drop, V: Drop, S: BuildHasher + Drop, W: Drop, A: Allocator + Clone + Drop> Drop
    for Core<K, V, S, W, A> {
    fn drop(self) {
        let Core { machine: _ } = self;
    }
}

impl<
    K: Eq + Hash + Drop,
    V: Drop,
    S: BuildHasher + Drop,
    W: Drop,
    A: Allocator + Clone + Drop,
> Model for Core<K, V, S, W, A> {
    ghost use Rattle.moka_common.specs.Keys.{keys_by};
    ghost use Rattle.moka_core.specs.Core.{Core as CoreValue};
    ghost use Rattle.moka_sync_model.specs.Consistent.{IsConsistent};

    ghost Value = { CoreValue K V S W };

    ghost view = { λ c. record { state = c.machine.state; weigher = c.machine.weigher } };

    ghost invariant = { λ c. IsConsistent
        (keys_by (record { eq = K.eq; hash_input = K.hash_input }) S.BuildHasher S.Hasher.Hasher) c.machine.state };
}

impl<K: Eq + Hash + Drop, V: Drop, S: BuildHasher + Drop, A: Allocator + Clone + Drop> Core<
    K,
    V,
    S,
    UnitWeight,
    A,
> {
    /// Makes a core without limits, whose keys are hashed by this state.
    pub fn new(alloc: A, hash_state: S) -> Result<Self, BuildError>
        ensures ok { IfOk result (λ core. core.state ≡ new_core (unlimited hash_state) 0) }
        ensures err { IfErr result (λ error. error ≡ BuildError.OutOfMemory) }
    {
        let parts = CoreParts {
            hash_state,
            policy: Policy::new(None, None, None),
            is_weighed: false,
            weigher: UnitWeight,
            capacity: 0,
        };
        Ok(Core::from_parts(alloc, parts)?)
    }
}

impl<
    K: Eq + Hash + Drop,
    V: Drop,
    S: BuildHasher + Drop,
    W: Drop,
    A: Allocator + Clone + Drop,
> Core<K, V, S, W, A> {
    /// Makes a core of these parts, on which nothing has been done.
    pub fn from_parts(alloc: A, parts: CoreParts<S, W>) -> Result<Self, OutOfMemory>
        ensures state { IfOk result (λ core. core.state ≡ new_core
            (record { hash_state = parts.hash_state; policy = parts.policy; is_weighed = parts.is_weighed }) 0) }
        ensures weigher { IfOk result (λ core. core.weigher ≡ parts.weigher) }
    {
        Ok(Core {
            machine: Machine::from_parts(alloc, parts)?,
        })
    }

    /// Returns `true` if nothing has been done with it, so that a record of its calls can begin.
    pub fn is_new(&self) -> bool
        ensures { IsTrue result ↔ IsNew self.now.state }
    {
        self.machine.is_new()
    }

    /// Makes the shards of a new core give out ticket numbers from `first` on. It must be new, as `is_new` tells, and stays so.
    pub fn with_first_ticket(mut self, first: u64) -> Self
        requires new { IsNew self.state }
        ensures state { result.state ≡ new_core self.state.settings first }
        ensures weigher { result.weigher ≡ self.weigher }
    {
        self.machine.start_at(first);
        self
    }

    /// Returns the number of the next ticket of the first shard.
    pub fn first_ticket(&self) -> u64
        ensures { result ≡ slice_index self.now.state.next_numbers 0 }
    {
        self.machine.first_ticket()
    }

    /// Returns `true` if nothing is under way: no maintenance, and no operation that a caller has not pushed.
    pub fn is_at_rest(&self) -> bool
        ensures rest { IsTrue result ↔ IsAtRest self.now.state }

        // What holds of every core.
        ensures consistent { IsConsistent (keys_by K.Hash S.BuildHasher S.Hasher.Hasher) self.now.state }
    {
        self.machine.is_at_rest()
    }
}

impl<
    K: Eq + Hash + Drop,
    V: Drop,
    S: BuildHasher + Drop,
    W: WeighShared<K, V>,
    A: Allocator + Clone + Drop,
> Core<K, V, S, W, A> {
    /// Takes the steps in turn, and returns their replies. If memory for the replies, or for what callers may have pending, is refused, no step
    /// was taken; later only an `Insert`, a `Get` or a `Copy` can be refused it.
    ///
    /// It takes the time of the steps, and memory for one reply and one pending operation a step.
    pub fn run(
        &mut self,
        events: Vec<Event<Shared<K, A>, Shared<V, A>>, A>,
    ) -> Result<Vec<Reply<Shared<V, A>, Rows<K, V, A>>, A>, OutOfMemory>
        requires ready { W.ready self.old.weigher }
        ensures ok { IfOk result (λ replies. RunsTo (keys_by K.Hash S.BuildHasher S.Hasher.Hasher) (W.weighs self.old.weigher)
            self.old.state events.items replies.items self.new.state) }
        ensures err { OnErr result (self.new.state ≡ self.old.state) }
        ensures weigher { self.new.weigher ≡ self.old.weigher }

        // What held before, as of every core: the laws of lists of steps begin with it.
        ensures consistent { IsConsistent (keys_by K.Hash S.BuildHasher S.Hasher.Hasher) self.old.state }
    {
        self.machine.run(events)
    }

    /// Makes one whole call of a caller that is alone, and replies to it. Nothing may be under way before, as `is_at_rest` tells, and nothing is afterwards.
    ///
    /// An insert or a get, and an invalidation or a removal that finds its key, runs a maintenance first if 64 operations are in its log, or the last one
    /// that such a call has run is half a second ago. That takes the time of what was put off, of the entries that give way, and of at most 1,500 that are
    /// expired or too many. Any other call but `Sync` takes the time of a look-up.
    pub fn call(
        &mut self,
        call: Call<Shared<K, A>, Shared<V, A>>,
    ) -> Reply<Shared<V, A>, Rows<K, V, A>>
        requires ready { W.ready self.old.weigher }
        requires rest { IsAtRest self.old.state }
        ensures step { IsCall (keys_by K.Hash S.BuildHasher S.Hasher.Hasher) (W.weighs self.old.weigher)
            self.old.state call result self.new.state }
        ensures rest { IsAtRest self.new.state }
        ensures weigher { self.new.weigher ≡ self.old.weigher }
    {
        self.machine.call(call)
    }

    /// Makes the whole call `Get`, as `call` does, by a key that need not be shared.
    #[inline(always)]
    pub fn get(&mut self, key: &K, now: Instant) -> Reply<Shared<V, A>, Rows<K, V, A>>
        requires rest { IsAtRest self.old.state }
        ensures step { IsCall (keys_by K.Hash S.BuildHasher S.Hasher.Hasher) (W.weighs self.old.weigher)
            self.old.state (call.Get key.now now) result self.new.state }
        ensures rest { IsAtRest self.new.state }
        ensures weigher { self.new.weigher ≡ self.old.weigher }
    {
        self.machine.call_get(key, now)
    }

    /// Takes turns until no maintenance is under way. Returns `true` if one was.
    ///
    /// It takes the time of what was put off, of the entries that give way, and of at most 1,500 that are expired or too many.
    pub fn finish(&mut self) -> bool
        ensures step { Finishes (keys_by K.Hash S.BuildHasher S.Hasher.Hasher) (W.weighs self.old.weigher)
            self.old.state result self.new.state }
        ensures weigher { self.new.weigher ≡ self.old.weigher }
    {
        self.machine.end_maintenance()
    }
}
