// Lists of steps.
ghost use Rattle.std.specs.Prelude.{◌≡◌, ◌<◌, IfOk, OnErr};
ghost use Rattle.moka_common.specs.Keys.{keys_by};
ghost use Rattle.moka_core.specs.Machine.{KeepsRoom};
ghost use Rattle.moka_sync_model.specs.Run.{Happens, RunsTo};

use crate::machine::Machine;
use crate::rows::Rows;
use moka_common::error::OutOfMemory;
use moka_common::shared::Shared;
use moka_sync_model::event::{Event, Reply};
use moka_sync_model::weigh::WeighShared;
use std::alloc::Allocator;
use std::hash::{BuildHasher, Hash};

impl<
    K: Eq + Hash + Drop,
    V: Drop,
    S: BuildHasher + Drop,
    W: WeighShared<K, V>,
    A: Allocator + Clone + Drop,
> Machine<K, V, S, W, A> {
    /// Takes one atomic step.
    fn step(
        &mut self,
        event: Event<Shared<K, A>, Shared<V, A>>,
    ) -> Reply<Shared<V, A>, Rows<K, V, A>>
        requires ready { W.ready self.old.weigher }
        requires room { 1 < self.old.room }
        ensures step { Happens (keys_by K.Hash S.BuildHasher S.Hasher.Hasher) (W.weighs self.old.weigher)
            self.old.state event result self.new.state }
        ensures kept { KeepsRoom self.old self.new }
    {
        match event {
            Event::Insert {
                caller,
                key,
                value,
                now,
            } => self.insert(caller, key, value, now),
            Event::Get { caller, key, now } => self.get(caller, key.get(), now),
            Event::Contains { key, now } => self.contains_key(key.get(), now),
            Event::Invalidate { caller, key, now } => self.invalidate(caller, key.get(), now),
            Event::Take { caller, key, now } => self.take(caller, key.get(), now),
            Event::InvalidateAll { now } => self.invalidate_all(now),
            Event::Push { caller } => self.push(caller),
            Event::Forget { caller } => self.forget(caller),
            Event::Copy { shard, now } => self.copy(shard, now),
            Event::Begin { now } => self.begin(now),
            Event::Turn => self.turn(),
            Event::Counts => self.counts(),
        }
    }

    /// Takes the steps in turn, and returns their replies.
    pub fn run(
        &mut self,
        events: Vec<Event<Shared<K, A>, Shared<V, A>>, A>,
    ) -> Result<Vec<Reply<Shared<V, A>, Rows<K, V, A>>, A>, OutOfMemory>
        requires ready { W.ready self.old.weigher }
        ensures ok { IfOk result (λ replies. RunsTo (keys_by K.Hash S.BuildHasher S.Hasher.Hasher) (W.weighs self.old.weigher)
            self.old.state events.items replies.items self.new.state) }
        ensures err { OnErr result (self.new.state ≡ self.old.state) }
        ensures weigher { self.new.weigher ≡ self.old.weigher }
    {
        let mut replies = Vec::with_capacity(self.alloc.clone()?, events.len())?;
        let Ok(()) = self.pending.reserve(events.len()) else {
            return Err(OutOfMemory);
        };
        for event in events {
            replies.push_reserved(self.step(event));
        }
        Ok(replies)
    }
}
