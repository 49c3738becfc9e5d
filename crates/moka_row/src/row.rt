//! A row of values with a lock each. Who has a lock visits its value, and leaves an entry in the value's history.
ghost use Rattle.std.specs.Prelude.{◌≡◌, ◌*◌, ◌<◌, ℕ, [], ◌∷◌, Option, Some, None, MatchBool, IfOk, ◌≤◌, ◌^◌, vec_len};
ghost use mathlib.Core.Option.{some};
ghost use lib.ListN.{get_elem?};
ghost use Rattle.moka_row.specs.Visits.{IsIdle, IsPlace, Visits};
ghost use Rattle.moka_row.specs.Kept.{Came, Got, Left, Tried};
ghost use Rattle.moka_row.specs.Visits.{after_visit, at, dealer, guest, newcomer, noted};

use atomic_table::{Play, Refused, Seat, Shared, Table, TableRule};
use crossbeam_utils::Backoff;
use std::alloc::{AllocError, Allocator, Global};
use std::marker::{Brand, Model, PhantomData};
use std::sync::Wait;

/// The words of two locks lie 128 bytes apart, so that they share no cache line.
pub const STRIDE: usize = 16;

/// A word that no step changes, 64 bytes from each lock: a new visitor loads it, and takes no line from a lock's holder.
pub const QUIET: usize = 8;

/// Number of pauses, each longer than the one before, that a thread makes at once when it finds a lock held.
const INITIAL_BACKOFF: usize = 4;

/// Number of looks at a lock after those, before a thread sleeps until the lock is given back.
const LOOKS: usize = 64;

/// A fact that ties a value to its history.
pub trait Account<T, E, K> {
    ghost use Rattle.std.specs.Prelude.{List, ℕ};

    ghost holds: { K → ℕ → List (ℕ × E) → T → Type 0 };
}

/// A visitor's knowledge. No value of it is made.
pub struct Known<E, K> {
    plan: K,
    of: PhantomData<E>,
}

impl<E, K> Model for Known<E, K> {
    ghost use Rattle.moka_row.specs.Visits.{Known as KnownState, newcomer};

    ghost Value = { KnownState E K };

    ghost view = { λ s. newcomer s.plan 0 };
}

/// The rule of a row.
pub struct Ruled<P> {
    of: PhantomData<P>,
}

impl<T, E, K, P: Account<T, E, K>> TableRule<T, Known<E, K>, K> for Ruled<P> {
    ghost use Rattle.moka_row.specs.Visits.{dealer};
    ghost use Rattle.moka_row.specs.Kept.{Kept};

    ghost holds = { λ plan s. Kept P.holds plan s };

    ghost first = { λ plan. dealer plan 0 };
}

/// The row as threads see it.
pub type Row<T, E, K, P> = Shared<T, Known<E, K>, K, Ruled<P>>;

/// A visitor, or a seat that tells what one has seen, or that deals out owners' numbers.
pub type Visitor<T, E, K> = Seat<T, Known<E, K>>;

/// A visitor comes.
pub struct Comes;

impl<T, E, K> Play<T, Known<E, K>> for Comes {
    ghost then = { Came };
}

/// A lock is tried.
pub struct Tries<P> {
    of: PhantomData<P>,
}

impl<T, E, K, P: Account<T, E, K>> Play<T, Known<E, K>> for Tries<P> {
    ghost then = { Tried P.holds };
}

/// An entry that a visit leaves in the history. A call with `Brand` has the one that its proof picks, or none.
pub trait Entry<E> {
    ghost use Rattle.std.specs.Prelude.{Option};

    ghost entry: { Option E };
}

impl<E> Entry<E> for Brand {
    ghost use Rattle.std.specs.Prelude.{None};

    ghost entry = { None };
}

/// A lock is given back.
pub struct Leaves<N> {
    of: PhantomData<N>,
}

impl<T, E, K, N: Entry<E>> Play<T, Known<E, K>> for Leaves<N> {
    ghost then = { Left N.entry };
}

/// Returns a new guest, who has seen nothing and made no visit.
pub fn come<T, E, K, P: Account<T, E, K>>(row: &Row<T, E, K, P>) -> Visitor<T, E, K>
    requires { 8 < row.now.table_id.words }
    ensures table { result.table_id ≡ row.now.table_id }
    ensures new { (seat : ℕ) × (result.me ≡ (newcomer row.now.key (guest seat), [])) }
{
    row.load_new_seat::<Comes>(QUIET).1
}

/// Takes the lock if it is free.
#[inline]
pub fn try_lock<T, E, K, P: Account<T, E, K>>(
    row: &Row<T, E, K, P>,
    me: &mut Visitor<T, E, K>,
    i: usize,
) -> bool
    requires table { (me.old.table_id ≡ row.now.table_id) × IsPlace row.now.table_id i }
    requires idle { IsIdle row.now.key me.old.me }
    ensures same { me.new.table_id ≡ me.old.table_id }
    ensures got { MatchBool result (Got P.holds i me.old.me me.new.me) (me.new.me ≡ me.old.me) }
{
    row.compare_exchange::<Tries<P>>(me, i * STRIDE, 0, 1) == 0
}

/// Takes the lock if it is free, and otherwise has the one who gives it back wake a sleeper.
fn try_to_wait<T, E, K, P: Account<T, E, K>>(
    row: &Row<T, E, K, P>,
    me: &mut Visitor<T, E, K>,
    i: usize,
) -> bool
    requires table { (me.old.table_id ≡ row.now.table_id) × IsPlace row.now.table_id i }
    requires idle { IsIdle row.now.key me.old.me }
    ensures same { me.new.table_id ≡ me.old.table_id }
    ensures got { MatchBool result (Got P.holds i me.old.me me.new.me) (me.new.me ≡ me.old.me) }
{
    row.swap::<Tries<P>>(me, i * STRIDE, 2) == 0
}

/// Takes the lock, and waits for it if another has it.
#[inline]
pub fn lock<T, E, K, P: Account<T, E, K>, R: Wait>(
    rt: &R,
    row: &Row<T, E, K, P>,
    me: &mut Visitor<T, E, K>,
    i: usize,
)
    requires table { (me.old.table_id ≡ row.now.table_id) × IsPlace row.now.table_id i }
    requires idle { IsIdle row.now.key me.old.me }
    ensures same { me.new.table_id ≡ me.old.table_id }
    ensures got { Got P.holds i me.old.me me.new.me }
{
    if !try_lock(row, me, i) {
        wait_for(rt, row, me, i);
    }
}

/// Waits for a lock that another has. Each look comes after a longer pause, which soon yields the processor to the holder of the lock, and a thread that still
/// finds it held sleeps: so more threads than processors make progress, and none burns its time slice.
#[cold]
#[inline(never)]
fn wait_for<T, E, K, P: Account<T, E, K>, R: Wait>(
    rt: &R,
    row: &Row<T, E, K, P>,
    me: &mut Visitor<T, E, K>,
    i: usize,
)
    requires table { (me.old.table_id ≡ row.now.table_id) × IsPlace row.now.table_id i }
    requires idle { IsIdle row.now.key me.old.me }
    ensures same { me.new.table_id ≡ me.old.table_id }
    ensures got { Got P.holds i me.old.me me.new.me }
{
    let backoff = pause();
    for _look in 0..LOOKS {
        if row.peek(i * STRIDE) == 0 && try_lock(row, me, i) {
            return;
        }
        backoff.snooze();
    }
    for _sleep in rt.forever() {
        if try_to_wait(row, me, i) {
            return;
        }
        row.park(rt, i * STRIDE, 2);
    }
    unreachable!()
}

/// Makes the first pauses of a wait.
fn pause() -> Backoff {
    let backoff = Backoff::new();
    for _ in 0..INITIAL_BACKOFF {
        backoff.snooze();
    }
    backoff
}

/// Gives the lock back, after a visit that leaves the entry of `N` in the history, or none.
///
/// A call passes `Brand` for `N`, and its proof picks the entry. `_about` takes what the entry names, such as snapshots of the value before and after, since a
/// pick sees the arguments of its call and nothing else.
#[inline]
pub fn leave<X: Drop, T, E, K, P: Account<T, E, K>, N: Entry<E>>(
    row: &Row<T, E, K, P>,
    me: &mut Visitor<T, E, K>,
    i: usize,
    _about: X,
)
    requires table { (me.old.table_id ≡ row.now.table_id) × IsPlace row.now.table_id i }
    requires held { (me.old.me.0.held ≡ Some i) × (me.old.me.0.role ≡ Visits) }
    requires kept { (x : T) × (me.old.me.1 ≡ (i, x) ∷ []) × P.holds row.now.key i (noted me.old.me.0.by N.entry (at me.old.me.0.seen i)) x }
    ensures same { me.new.table_id ≡ me.old.table_id }
    ensures left { me.new.me ≡ (after_visit i N.entry me.old.me.0, []) }
{
    if row.swap::<Leaves<N>>(me, i * STRIDE, 0) == 2 {
        row.wake_one(i * STRIDE);
    }
}

/// A visit that leaves nothing in the history.
pub struct Unsaid;

impl<E> Entry<E> for Unsaid {
    ghost use Rattle.std.specs.Prelude.{None};

    ghost entry = { None };
}

/// Gives the lock back, after a visit that leaves nothing in the history: so the value is still what the history says.
pub fn leave_unsaid<T, E, K, P: Account<T, E, K>>(
    row: &Row<T, E, K, P>,
    me: &mut Visitor<T, E, K>,
    i: usize,
)
    requires table { (me.old.table_id ≡ row.now.table_id) × IsPlace row.now.table_id i }
    requires held { (me.old.me.0.held ≡ Some i) × (me.old.me.0.role ≡ Visits) }
    requires kept { (x : T) × (me.old.me.1 ≡ (i, x) ∷ []) × P.holds row.now.key i (at me.old.me.0.seen i) x }
    ensures same { me.new.table_id ≡ me.old.table_id }
    ensures left { me.new.me ≡ (after_visit i None me.old.me.0, []) }
{
    leave::<_, _, _, _, _, Unsaid>(row, me, i, ());
}

/// A row with its memory.
pub type RowTable<T, E, K, P, A = Global> = Table<T, Known<E, K>, K, Ruled<P>, A>;

/// Opens a row of these values, each with an empty history, and returns it with the seat that deals out the owners' numbers.
///
/// Memory may be refused: for the words of the locks, for the values in their new place, or for a copy of the allocator. The values are dropped then. The row
/// of n values takes 128 n bytes for its locks.
pub fn open<T: Drop, E, K, P: Account<T, E, K>, A: Allocator + Clone + Drop>(
    alloc: A,
    values: Vec<T, A>,
    plan: &K,
) -> Result<(RowTable<T, E, K, P, A>, Visitor<T, E, K>), AllocError>
    requires few { vec_len values ≤ 2 ^ 32 }
    requires begins { (i : ℕ) (x : T) → get_elem? values.items i ≡ some x → P.holds plan.now i [] x }
    ensures table { IfOk result (λ r. (r.0.shared.table_id.slots ≡ vec_len values) × (r.0.shared.table_id.words ≡ vec_len values * 16) ×
        (r.0.shared.key ≡ plan.now)) }
    ensures dealer { IfOk result (λ r. (r.1.table_id ≡ r.0.shared.table_id) × (r.1.me ≡ (dealer plan.now 0, []))) }
{
    let words = vec![in alloc.clone()?; 0u64; values.len() * STRIDE]?;
    match Table::new(alloc, words.as_slice(), values, plan) {
        Ok(opened) => Ok(opened),
        Err(Refused { slots }) => {
            drop(slots);
            Err(AllocError)
        }
    }
}
