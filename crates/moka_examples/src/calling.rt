//! Callers of the public types, each proved to meet a contract of its own, whose words all come from `mini_moka`.
ghost use Rattle.std.specs.Prelude.{◌≡◌, ◌+◌, ◌-◌, ◌^◌, ◌∷◌, [], List, Some, None, Ok, IfOk, IfSome, IsTrue, Bool, false, map, min, reverse, slice_get};
ghost use Rattle.std.specs.List.Sorted.{IsPermutation};
ghost use Rattle.std.specs.Map.{values_of};
ghost use Rattle.mini_moka.specs.Common.Keys.{keys_by};
ghost use Rattle.mini_moka.specs.Common.Weight.{unit_weighs};
ghost use Rattle.mini_moka.specs.Common.Sketch.{after_increment, estimate};
ghost use Rattle.mini_moka.specs.Unsync.CacheState.{new_cache};
ghost use Rattle.mini_moka.specs.Unsync.History.{IsCurrent, Transition, exchanges};
ghost use Rattle.mini_moka.specs.Unsync.Lookup.{is_contained};
ghost use Rattle.mini_moka.specs.Unsync.Runs.{AreServed};
ghost use Rattle.mini_moka.specs.Unsync.Step.{Invalidate};
ghost use Rattle.mini_moka.specs.Unsync.Told.{HearsAll, unplaced};
ghost use Rattle.mini_moka.specs.Unsync.ToldCalls.{TellsInvalidate};
ghost use Rattle.mini_moka.specs.Unsync.Iterate.{pairs_at};
ghost use Rattle.mini_moka.specs.Segmented.Plan.{place_of};
ghost use Rattle.mini_moka.specs.Segmented.Visits.{at};
ghost use Rattle.mini_moka.specs.Sync.Consistent.{IsTrimmed};
ghost use Rattle.mini_moka.specs.Sync.CoreCall.{IsAtRest, IsCall, entries_evicted};
ghost use Rattle.mini_moka.specs.Sync.CoreState.{CoreState};
ghost use Rattle.mini_moka.specs.Sync.Entry.{entry_of};
ghost use Rattle.mini_moka.specs.Sync.LastWritten.{last_written, value_at};
ghost use Rattle.mini_moka.specs.Sync.Phase.{Apply};
ghost use Rattle.mini_moka.specs.Sync.Quiescent.{IsQuiescent};
ghost use Rattle.mini_moka.specs.Sync.Run.{Happening};
ghost use Rattle.mini_moka.specs.Sync.Turn.Plan.{writes_or_on};
ghost use Rattle.mini_moka.specs.Sync.Turn.Turn.{after_turn};
ghost use Rattle.mini_moka.specs.declared.sync.engine.Call.TheVariants.{Sync};
ghost use Rattle.mini_moka.specs.declared.sync.engine.Ticket.{Ticket};
ghost use Rattle.mini_moka.specs.declared.sync.engine.Work.{Work};
ghost use Rattle.mini_moka.specs.declared.sync.engine.Write.TheVariants.{Upsert};
ghost use Rattle.mini_moka.specs.declared.unsync.Cause.TheVariants.{Explicit};
ghost use Rattle.mini_moka.specs.Replay.{Replays};
ghost use Rattle.mini_moka.specs.Grammar.{IsScript};
ghost use Rattle.mini_moka.specs.Parsed.{script_of};
ghost use Rattle.mini_moka.specs.ScriptRun.{EndsSo};

use mini_moka::common::deque::Deque;
use mini_moka::common::frequency_sketch::FrequencySketch;
use mini_moka::common::time::Instant;
use mini_moka::common::{BuildError, OutOfMemory, Policy, Shared, Weigh};
use mini_moka::script::{End, Script, Sink, Source, Text};
use mini_moka::sync::engine::{Call, Core, Event, Reply, WeighShared};
use mini_moka::sync::housekeeper::Housekeeper;
use mini_moka::sync::laws::{
    gets_answer_what_was_last_written, runs_are_happenings, syncs_empty_the_logs,
    upserts_of_left_entries_are_dropped,
};
use mini_moka::sync::recorded::{Answer, NotRecorded, Record, SharedCall};
use mini_moka::sync::segmented::{NotifyingSession, Weighing};
use mini_moka::unsync::history::{hits_are_current, runs_have_a_history};
use mini_moka::unsync::{Cache, Cause, Listener, NotifyingCache};
use mini_moka::{script, unsync};
use std::alloc::Global;
use std::hash::{BuildHasher, Hash};
use std::rc::Rc;
use std::sync::Wait;
use std::time::Duration;

/// Removes the entry of a key, and says whether it was there, unexpired. What was counted stays.
pub fn take_out<K: Eq + Hash + Drop, V: Drop, S: BuildHasher + Drop, W: Drop>(
    cache: &mut Cache<K, V, S, W>,
    key: &K,
    now: Instant,
) -> bool
    ensures value { result
        ≡ is_contained (keys_by K.Hash S.BuildHasher S.Hasher.Hasher) cache.old key.now now }
    ensures counted { cache.new.sketch ≡ cache.old.sketch }
    ensures settings { cache.new.settings ≡ cache.old.settings }
{
    let was_there = cache.contains_key(key, now);
    cache.invalidate(key, now);
    was_there
}

/// Makes a cache whose entries live for a minute.
pub fn minute_cache(alloc: Global, entries: u64) -> Result<Cache<u64, u32>, BuildError>
    ensures { IfOk result (λ cache. cache.settings.policy.max_capacity ≡ Some entries) }
{
    Cache::builder(alloc)
        .max_capacity(entries)
        .time_to_live(Duration::from_secs(60))
        .build()
}

/// Returns the limit of a cache, by its policy.
pub fn limit_of(policy: &Policy) -> Option<u64>
    ensures { result ≡ policy.now.max_capacity }
{
    policy.max_capacity()
}

/// Returns the moment some nanoseconds later, if there is one.
pub fn later(now: Instant, nanos: u64) -> Option<Instant>
    ensures { IfSome result (λ moment. moment ≡ now + nanos) }
{
    let nanos = now.nanos().checked_add(nanos)?;
    Some(Instant::from_nanos(nanos))
}

/// A listener that adds up the values that leave, up to the largest number of 64 bits.
#[derive(Drop)]
pub struct Sum {
    pub total: u64,
}

impl<K: Drop> Listener<K, u64> for Sum {
    ghost hears = { λ old key value cause new. new.total ≡ min (old.total + value) (2 ^ 64 - 1) };

    fn removed(&mut self, _key: K, value: u64, _cause: Cause) {
        self.total = self.total.saturating_add(value);
    }
}

/// Empties a cache. Its listener gets each entry, once.
pub fn empty_out<K: Eq + Hash + Drop, V: Drop, L: Listener<K, V> + Drop>(
    cache: &mut NotifyingCache<K, V, L>,
)
    ensures { (told : _) × HearsAll L.hears Explicit cache.old.listener told cache.new.listener
        × IsPermutation (unplaced cache.old.cache.contents.entries) (unplaced told) }
{
    cache.invalidate_all();
}

/// Forgets a key. The session's listener gets what has expired in the key's segment, and then the key's entry. The session remembers the call.
pub fn forget<
    K: Eq + Hash + Drop,
    V: Drop,
    L: Listener<K, V> + Drop,
    S: BuildHasher + Drop,
    W: Weighing<K, V>,
    R: Wait,
>(rt: &R, session: &mut NotifyingSession<K, V, L, S, W>, key: &K, now: Instant)
    ensures { (call : Transition K V S W) × (call.request ≡ Invalidate key.now now)
        × (at session.new.knows.mine (place_of session.old.cache.plan (keys_by K.Hash S.BuildHasher S.Hasher.Hasher) key.now)
        ≡ (call ∷ []) ∷ at session.old.knows.mine (place_of session.old.cache.plan (keys_by K.Hash S.BuildHasher S.Hasher.Hasher) key.now))
        × TellsInvalidate L.hears (keys_by K.Hash S.BuildHasher S.Hasher.Hasher) call.before now key.now session.old.listener session.new.listener }
{
    session.invalidate(rt, key, now);
}

/// Copies the least recently used unexpired pair.
pub fn first_pair(cache: &Cache<u64, u32>, now: Instant) -> Option<(u64, u32)>
    ensures { result ≡ slice_get (pairs_at cache.now now) 0 }
{
    let (key, value) = cache.iter(now).next()?;
    Some((*key, *value))
}

/// Makes a list of calls on a cache as it was built, and then looks a key up. What is found is what these calls wrote there last, and fresh.
pub fn is_found_after<
    K: Eq + Hash + Drop,
    V: Drop,
    S: BuildHasher + Drop,
    W: Weigh<K, Rc<V>> + Drop,
>(
    alloc: Global,
    cache: &mut Cache<K, Rc<V>, S, W>,
    calls: Vec<unsync::Call<K, V>>,
    key: &K,
    now: Instant,
) -> Result<bool, OutOfMemory>
    requires ready { W.ready cache.old.weigher }
    requires built { cache.old ≡ new_cache cache.old.settings cache.old.shares cache.old.weigher cache.old.capacity }
    ensures { IfOk result (λ found. IsTrue found → (past : List (Transition K (Rc V Global) S W)) × (value : Rc V Global) × (replies : _)
        × AreServed calls.items (reverse (map (λ call. call.request) past)) (reverse (map (λ call. call.answer) past)) replies
        × IsCurrent (keys_by K.Hash S.BuildHasher S.Hasher.Hasher) cache.old.settings.policy now (exchanges past) key.now value) }
{
    let _replies = unsync::run(alloc, cache, calls)?;
    let found = cache.get(key, now).is_some();
    runs_have_a_history::<K, Rc<V>, S, W>();
    hits_are_current::<K, Rc<V>, S, W>();
    Ok(found)
}

/// Counts a use, and estimates how often the hash was used recently.
pub fn count_use(sketch: &mut FrequencySketch, hash: u64) -> u8
    ensures value { result ≡ estimate sketch.new hash }
    ensures step { sketch.new ≡ after_increment sketch.old hash }
{
    sketch.increment(hash);
    sketch.frequency(hash)
}

/// Takes the first element off a list, and puts another at its end, unless memory is refused.
pub fn replace_first<T: Drop>(deque: &mut Deque<T>, element: T) -> Result<Option<T>, T>
    ensures { IfOk result (λ first. first ≡ slice_get (values_of deque.old.items) 0) }
{
    let first = deque.pop_front();
    match deque.push_back(element) {
        Ok(_) => Ok(first),
        Err(element) => Err(element),
    }
}

/// Makes a value with two owners.
pub fn two_owners<T: Drop>(alloc: Global, value: T) -> Result<(Shared<T>, Shared<T>), OutOfMemory>
    ensures { IfOk result (λ pair. (pair.0 ≡ value) × (pair.1 ≡ value)) }
{
    let first = Shared::new(alloc, value)?;
    let second = first.try_clone()?;
    Ok((first, second))
}

/// Makes one call on a core.
pub fn call_on<K: Eq + Hash + Drop, V: Drop, S: BuildHasher + Drop>(
    core: &mut Core<K, V, S>,
    call: SharedCall<K, V>,
) -> Answer<K, V>
    requires rest { IsAtRest core.old.state }
    ensures { IsCall (keys_by K.Hash S.BuildHasher S.Hasher.Hasher) unit_weighs
        core.old.state call result core.new.state }
{
    core.call(call)
}

/// Runs a maintenance on a core. Then both logs are empty, and the charged weight is within the limit, or as many entries were evicted
/// as a maintenance evicts at most.
pub fn settle<K: Eq + Hash + Drop, V: Drop, S: BuildHasher + Drop, W: WeighShared<K, V>>(
    core: &mut Core<K, V, S, W>,
    now: Instant,
) -> Answer<K, V>
    requires ready { W.ready core.old.weigher }
    requires rest { IsAtRest core.old.state }
    ensures empty { IsQuiescent core.new.state }
    ensures trimmed { (sync : IsCall (keys_by K.Hash S.BuildHasher S.Hasher.Hasher) (W.weighs core.old.weigher)
        core.old.state (Sync now) result core.new.state)
        × IsTrimmed core.new.state.settings.policy.max_capacity core.new.state.maintenance.orders
        (entries_evicted (keys_by K.Hash S.BuildHasher S.Hasher.Hasher) (W.weighs core.old.weigher)
        sync.1.begun core.new.state sync.1.turns) }
{
    // What holds of every core.
    let _ = core.is_at_rest();
    let reply = core.call(Call::Sync { now });
    syncs_empty_the_logs::<K, V, S, W>();
    reply
}

/// Takes steps of any callers, in any order, and then looks a key up. What is found is what those steps wrote there last, or what stood there before.
pub fn found_between<K: Eq + Hash + Drop, V: Drop, S: BuildHasher + Drop, W: WeighShared<K, V>>(
    alloc: Global,
    core: &mut Core<K, V, S, W>,
    steps: Vec<Event<Shared<K>, Shared<V>>>,
    key: Shared<K>,
    now: Instant,
) -> Result<Option<Shared<V>>, OutOfMemory>
    requires ready { W.ready core.old.weigher }
    ensures { IfOk result (λ found. IfSome found (λ value. (past : List (Happening K V)) × (map (λ h. h.event) past ≡ steps.items)
        × (last_written K.eq key past (value_at K.eq key core.old.state) ≡ Some value))) }
{
    let _replies = core.run(steps)?;
    let mut look = Vec::with_capacity(alloc, 1)?;
    look.push_reserved(Event::Get {
        caller: u32::MAX,
        key,
        now,
    });
    let mut replies = core.run(look)?;
    runs_are_happenings::<K, V, S, W>();
    gets_answer_what_was_last_written::<K, V, S>();
    match replies.pop() {
        Some(Reply::Found(found)) => Ok(found),
        _ => Ok(None),
    }
}

/// The turn that applies an upsert whose entry has left drops it: nothing changes but the phase, whatever work it has there.
pub fn late_upserts_are_dropped<K: Eq + Hash, V, S: BuildHasher>()
    ensures { (core : CoreState K V S) (work : Work) (t : Ticket) (refused : Bool)
        → core.maintenance.phase ≡ Apply work (Upsert t) → entry_of t core.entries ≡ None
        → after_turn refused core ≡ record core { maintenance = record core.maintenance { phase = writes_or_on work } } }
{
    upserts_of_left_entries_are_dropped::<K, V, S>();
}

/// Empties a log of this length, if it has ten operations or half a second has passed since the last time, unless another caller does. Returns whether it
/// was run.
pub fn empty_if_due<F: FnOnce()>(keeper: &Housekeeper, len: usize, now: Instant, empty: F) -> bool
    requires { F.pre empty }
    ensures { IsTrue result → F.post empty tt }
{
    let is_due = keeper.should_apply(len, 10, now);
    is_due && keeper.try_sync(now, empty)
}

/// Makes one call on a recorded core, whose record still replays if it did.
pub fn record_more<K: Eq + Hash + Drop, V: Drop, S: BuildHasher + Drop>(
    recorded: &mut Record<K, V, S>,
    call: SharedCall<K, V>,
) -> Result<(), NotRecorded>
    ensures { Replays (keys_by K.Hash S.BuildHasher S.Hasher.Hasher) unit_weighs recorded.old.state
        → Replays (keys_by K.Hash S.BuildHasher S.Hasher.Hasher) unit_weighs recorded.new.state }
{
    let _ = recorded.apply(call)?;
    Ok(())
}

/// Reads a script from bytes, or says that they are none.
pub fn script_of(alloc: Global, bytes: &[u8]) -> Option<Script>
    ensures { IfSome result (λ script. IsScript bytes.now (script_of script)) }
{
    script::parse(alloc, bytes).ok()
}

/// Makes a text of bytes, if they are one and memory isn't refused.
pub fn text_of(alloc: Global, bytes: &[u8]) -> Option<Text>
    ensures { IfSome result (λ text. text ≡ bytes.now) }
{
    if !script::is_text(bytes) {
        return None;
    }
    Text::new(alloc, bytes).ok()
}

/// Runs a script, and says whether it ended.
pub fn has_ended<I: Source, O: Sink>(alloc: Global, source: &mut I, sink: &mut O) -> bool
    requires source { I.failed source.old ≡ false }
    requires sink { O.failed sink.old ≡ false }
    ensures { IsTrue result → (end : End Global) × EndsSo Global (I.remaining source.old) (Ok end) (O.contents sink.old) (O.contents sink.new) }
{
    script::run(alloc, source, sink).is_ok()
}
