// What lies behind the lock of a recording cache: its record, and how many calls each pass has made.
ghost use Rattle.std.specs.Prelude.{◌≡◌, ◌<◌, ◌+◌, ℕ, length, slice_index, sum_by, IfNone, IfOk, IsTrue, MatchResult};
ghost use Rattle.moka_common.specs.Keys.{keys_by};
ghost use Rattle.moka_sync_model.specs.CoreState.{IsNew};
ghost use Rattle.moka_record.specs.Passes.{made_by};
ghost use Rattle.moka_record.specs.Record.{IsAnswer};
ghost use Rattle.moka_record.specs.Replay.{Replays};

use crate::pass::{CallPass, CloseError, have_all_places, made_by};
use crate::record::{Answer, NotRecorded, Record, SharedCall};
use crate::rule::WeightRule;
use moka_common::error::OutOfMemory;
use moka_core::engine::Core;
use moka_sync_model::weigh::WeighShared;
use std::alloc::{Allocator, Global};
use std::hash::{BuildHasher, Hash};
use std::marker::{Model, PhantomData};

/// A record that replays, and whose length is the number of calls that the passes have made.
#[derive(Drop)]
pub(crate) struct Counted<
    K: Eq + Hash + Drop,
    V: Drop,
    S: BuildHasher + Drop,
    W: Drop,
    Q: WeightRule<K, V>,
    A: Allocator + Clone + Drop = Global,
> {
    record: Record<K, V, S, W, A>,
    made: Vec<u64, A>,
    rule: PhantomData<Q>,
}

impl<
    K: Eq + Hash + Drop,
    V: Drop,
    S: BuildHasher + Drop,
    W: Drop,
    Q: WeightRule<K, V>,
    A: Allocator + Clone + Drop,
> Model for Counted<K, V, S, W, Q, A> {
    ghost use Rattle.std.specs.Prelude.{◌≡◌, length, sum_by};
    ghost use Rattle.moka_common.specs.Keys.{keys_by};
    ghost use Rattle.moka_record.specs.Counted.{Counted as CountedValue};
    ghost use Rattle.moka_record.specs.Replay.{Replays};

    ghost Value = { CountedValue K V S W A };

    ghost view = { λ c. record { kept = c.record; made = c.made.items } };

    ghost invariant = { λ c.
        Replays (keys_by (record { eq = K.eq; hash_input = K.hash_input }) S.BuildHasher S.Hasher.Hasher) Q.weighs c.record.state
        × (sum_by (λ made. made) c.made.items ≡ length c.record.state.calls) };
}

impl<
    K: Eq + Hash + Drop,
    V: Drop,
    S: BuildHasher + Drop,
    W: WeighShared<K, V>,
    Q: WeightRule<K, V>,
    A: Allocator + Clone + Drop,
> Counted<K, V, S, W, Q, A> {
    /// Makes a record without calls, with a count of 0 for each pass.
    pub(crate) fn new(alloc: A, core: Core<K, V, S, W, A>, made: Vec<u64, A>) -> Self
        requires new { IsNew core.state }
        requires none { sum_by (λ made. made) made.items ≡ 0 }
    {
        Counted {
            record: Record::new(alloc, core),
            made,
            rule: PhantomData,
        }
    }

    /// Makes a call for a pass, and writes it down with its reply, which is the answer. A pass that has made another number of calls here than it
    /// says is of another cache, and makes none.
    pub(crate) fn call(
        &mut self,
        pass: &mut CallPass,
        call: SharedCall<K, V, A>,
    ) -> Result<Answer<K, V, A>, NotRecorded>
        requires ready { (weigher : W) → W.ready weigher }
        requires ruled { (weigher : W) (key : K) (value : V) (weight : ℕ) → W.weighs weigher key value weight → Q.weighs key value weight }
        ensures made { MatchResult result (λ _. pass.new ≡ record pass.old { made = pass.old.made + 1 }) (λ _. pass.new ≡ pass.old) }
        ensures answer { IfOk result IsAnswer }
    {
        let Some(made) = pass.made.checked_add(1) else {
            return Err(NotRecorded);
        };
        if !self.is_own(pass) {
            return Err(NotRecorded);
        }
        let answer = self.record.apply(call)?;
        self.made[pass.place] = made;
        pass.made = made;
        Ok(answer)
    }
}

impl<
    K: Eq + Hash + Drop,
    V: Drop,
    S: BuildHasher + Drop,
    W: Drop,
    Q: WeightRule<K, V>,
    A: Allocator + Clone + Drop,
> Counted<K, V, S, W, Q, A> {
    /// Returns the record, if each pass is there once and has made the number of calls that it says.
    pub(crate) fn close(self, passes: &[CallPass]) -> Result<Record<K, V, S, W, A>, CloseError>
        ensures replays { IfOk result (λ kept. Replays (keys_by K.Hash S.BuildHasher S.Hasher.Hasher) Q.weighs kept.state) }
        ensures made { IfOk result (λ kept. length kept.state.calls ≡ made_by passes.now) }
    {
        match self.fault(passes) {
            Some(fault) => Err(fault),
            None => Ok(self.record),
        }
    }

    /// Returns the reason not to give the record out for these passes, if there is one.
    fn fault(&self, passes: &[CallPass]) -> Option<CloseError>
        ensures { IfNone result (length self.now.kept.state.calls ≡ made_by passes.now) }
    {
        if !have_all_places(passes, self.made.len()) {
            return Some(CloseError::PassMissing);
        }
        if passes.len() != self.made.len() || !self.are_own(passes) {
            return Some(CloseError::StrangePass);
        }
        // As many as the counts say, which are the same.
        let Some(made) = made_by(passes) else {
            return Some(CloseError::StrangePass);
        };
        if made != self.record.calls().len() as u64 {
            return Some(CloseError::StrangePass);
        }
        None
    }

    /// Returns `true` if each pass has made as many calls here as it says.
    fn are_own(&self, passes: &[CallPass]) -> bool {
        for pass in passes {
            if !self.is_own(pass) {
                return false;
            }
        }
        true
    }

    /// Returns `true` if a pass has made as many calls here as it says.
    fn is_own(&self, pass: &CallPass) -> bool
        ensures { IsTrue result → (pass.now.place < length self.now.made) × (slice_index self.now.made pass.now.place ≡ pass.now.made) }
    {
        match self.made.get(pass.place) {
            Some(made) => *made == pass.made,
            None => false,
        }
    }
}

/// Makes counts of 0, one for each pass.
pub(crate) fn none_made<A: Allocator>(alloc: A, places: usize) -> Result<Vec<u64, A>, OutOfMemory>
    ensures { IfOk result (λ made. sum_by (λ m. m) made.items ≡ 0) }
{
    let mut made = Vec::with_capacity(alloc, places)?;
    for _ in 0..places {
        made.push(0)?;
    }
    Ok(made)
}
