//! A recording cache that threads share: one lock round a record, and a pass for each caller.
ghost use Rattle.std.specs.Prelude.{◌≡◌, ◌+◌, ℕ, length, sum_by, IfOk, MatchResult};
ghost use Rattle.moka_common.specs.Keys.{keys_by};
ghost use Rattle.moka_sync_model.specs.CoreState.{IsNew};
ghost use Rattle.moka_record.specs.Passes.{made_by, new_passes};
ghost use Rattle.moka_record.specs.Record.{IsAnswer};
ghost use Rattle.moka_record.specs.Replay.{Replays};

use crate::counted::{Counted, none_made};
use crate::pass::{CallPass, CloseError, new_passes};
use crate::record::{Answer, NotRecorded, Record, SharedCall};
use crate::rule::WeightRule;
use moka_common::error::OutOfMemory;
use moka_common::hash::FixedState;
use moka_common::weigh::UnitWeight;
use moka_core::engine::Core;
use moka_sync_model::weigh::WeighShared;
use std::alloc::{Allocator, Global};
use std::hash::{BuildHasher, Hash};
use std::sync::{Mutex, Wait};

/// A cache that writes down each call of any thread with its reply, in the order in which they were made. Once it is closed, its record replays: the
/// calls, made on a new cache in that order, have those replies and lead to the cache as it is.
///
/// A caller has a pass, which counts its calls. The cache is closed with all of them, so that no call is left out of the record unseen.
///
/// All calls go through one lock. It is for audits and tests, where what a cache did is to be known afterwards.
pub struct Recorded<
    K: Eq + Hash + Drop,
    V: Drop,
    S: BuildHasher + Drop = FixedState,
    W: Drop = UnitWeight,
    Q: WeightRule<K, V> = UnitWeight,
    A: Allocator + Clone + Drop = Global,
> {
    counted: Mutex<Counted<K, V, S, W, Q, A>>,
}

// By hand, and not derived: wherever a recording cache may end, there is one call to prove then.
impl<
    K: Eq + Hash + Drop,
    V: Drop,
    S: BuildHasher + Drop,
    W: Drop,
    Q: WeightRule<K, V>,
    A: Allocator + Clone + Drop,
> Drop for Recorded<K, V, S, W, Q, A> {
    fn drop(self) {
        let Recorded { counted: _ } = self;
    }
}

impl<
    K: Eq + Hash + Drop,
    V: Drop,
    S: BuildHasher + Drop,
    W: WeighShared<K, V>,
    Q: WeightRule<K, V>,
    A: Allocator + Clone + Drop,
> Recorded<K, V, S, W, Q, A> {
    /// Makes a recording cache of a core on which nothing has been done, and a pass for each caller.
    pub fn open(
        alloc: A,
        core: Core<K, V, S, W, A>,
        callers: usize,
    ) -> Result<(Self, Vec<CallPass, A>), OutOfMemory>
        requires { IsNew core.state }
        ensures { IfOk result (λ opened. opened.1.items ≡ new_passes callers) }
    {
        let (passes, made) = passes_of(&alloc, callers)?;
        let counted = Mutex::new(Counted::new(alloc, core, made));
        Ok((Recorded { counted }, passes))
    }

    /// Makes one call, writes it down with its reply, and answers the reply; the pass has made one call more then. Where memory for that is refused,
    /// or the pass is of another cache, it does nothing and says that nothing was recorded. Only where the value that was found can't be shared once
    /// more has the call been made and the answer says that memory was refused: the record has the value.
    ///
    /// Whatever its weigher has seen, it may be asked, and what it gives meets the rule.
    pub fn call<R: Wait>(
        &self,
        rt: &R,
        pass: &mut CallPass,
        call: SharedCall<K, V, A>,
    ) -> Result<Answer<K, V, A>, NotRecorded>
        requires ready { (weigher : W) → W.ready weigher }
        requires ruled { (weigher : W) (key : K) (value : V) (weight : ℕ) → W.weighs weigher key value weight → Q.weighs key value weight }
        ensures made { MatchResult result (λ _. pass.new ≡ record pass.old { made = pass.old.made + 1 }) (λ _. pass.new ≡ pass.old) }
        ensures answer { IfOk result IsAnswer }
    {
        self.counted.lock(rt).call(pass, call)
    }
}

impl<
    K: Eq + Hash + Drop,
    V: Drop,
    S: BuildHasher + Drop,
    W: Drop,
    Q: WeightRule<K, V>,
    A: Allocator + Clone + Drop,
> Recorded<K, V, S, W, Q, A> {
    /// Returns the record, whose length is the number of calls that the passes have made. It is refused, and dropped, unless each pass that was given is
    /// there once.
    pub fn close(self, passes: Vec<CallPass, A>) -> Result<Record<K, V, S, W, A>, CloseError>
        ensures replays { IfOk result (λ kept. Replays (keys_by K.Hash S.BuildHasher S.Hasher.Hasher) Q.weighs kept.state) }
        ensures made { IfOk result (λ kept. length kept.state.calls ≡ made_by passes.items) }
    {
        let Recorded { counted } = self;
        counted.into_inner().close(&passes)
    }
}

/// Makes a pass for each caller, and for each a count of the calls that it has made.
fn passes_of<A: Allocator + Clone + Drop>(
    alloc: &A,
    callers: usize,
) -> Result<(Vec<CallPass, A>, Vec<u64, A>), OutOfMemory>
    ensures passes { IfOk result (λ made. made.0.items ≡ new_passes callers) }
    ensures none { IfOk result (λ made. sum_by (λ m. m) made.1.items ≡ 0) }
{
    let passes = new_passes(alloc.clone()?, callers)?;
    let made = none_made(alloc.clone()?, callers)?;
    Ok((passes, made))
}
