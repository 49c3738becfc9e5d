//! A word with the latest moment of an invalidation of all, and the list of these moments, which a proof keeps.
ghost use Rattle.std.specs.Prelude.{◌≡◌, []};
ghost use Rattle.moka_locks.specs.Moments.{Appends, GoesOn, Known as KnownValue, latest, seeing};

use atomic_table::{Join, Play, Seat, Split, Table, TableRule};
use moka_common::time::Instant;
use std::alloc::{AllocError, Allocator, Global};
use std::marker::Model;

/// A seat's knowledge. No value of it is made.
pub struct Known;

impl Model for Known {
    ghost Value = { KnownValue };

    ghost view = { λ _. seeing [] };
}

/// The rule of the moments.
pub struct Ruled;

impl TableRule<(), Known, ()> for Ruled {
    ghost use Rattle.moka_locks.specs.Moments.{IsKept};

    ghost holds = { λ _ s. IsKept s };

    ghost first = { λ _. seeing [] };
}

/// A caller's seat at the moments.
pub type Witness = Seat<(), Known>;

struct Comes;

impl Play<(), Known> for Comes {
    ghost use Rattle.moka_locks.specs.Moments.{Came};

    ghost then = { Came };
}

struct Looks;

impl Play<(), Known> for Looks {
    ghost use Rattle.moka_locks.specs.Moments.{Looked};

    ghost then = { Looked };
}

struct Invalidates;

impl Play<(), Known> for Invalidates {
    ghost use Rattle.moka_locks.specs.Moments.{Invalidated};

    ghost then = { Invalidated };
}

struct Notes;

impl Split<Known> for Notes {
    ghost left = { λ v. v };

    ghost right = { λ v. seeing v.seen };
}

struct Tells;

impl Join<Known> for Tells {
    ghost use Rattle.moka_locks.specs.Moments.{after_telling};

    ghost both = { λ v note. after_telling v note };

    ghost spent = { seeing [] };
}

/// The latest moment of an invalidation of all. What was written or used before it is hidden.
#[derive(Drop)]
pub struct Moments<A: Allocator + Drop = Global> {
    pub(crate) table: Table<(), Known, (), Ruled, A>,
    pub ghost one_word: { table.shared.table_id.words ≡ 1 },
}

impl<A: Allocator + Drop> Moments<A> {
    /// Makes the moments of a new cache: there is none yet.
    pub(crate) fn new(alloc: A) -> Result<Self, AllocError> {
        let (table, _seat) = Table::of_words(alloc, &[0], &())?;
        Ok(Moments { table })
    }

    /// Returns the latest moment, and a seat that has seen it.
    #[inline]
    pub(crate) fn come(&self) -> (Instant, Witness)
        ensures table { result.1.table_id ≡ self.now.table.shared.table_id }
        ensures new { (result.1.me.1 ≡ []) × (result.1.me.0.heard ≡ []) }
        ensures latest { result.0 ≡ latest result.1.me.0.seen }
    {
        let (moment, seat) = self.table.shared.load_new_seat::<Comes>(0);
        (Instant::from_nanos(moment), seat)
    }

    /// Returns the latest moment, which the seat has then seen.
    #[inline]
    pub(crate) fn load(&self, me: &mut Witness) -> Instant
        requires table { me.old.table_id ≡ self.now.table.shared.table_id }
        ensures same { (me.new.table_id ≡ me.old.table_id) × (me.new.me.1 ≡ me.old.me.1) }
        ensures latest { result ≡ latest me.new.me.0.seen }
        ensures goes_on { GoesOn me.old.me.0.seen me.new.me.0.seen }
        ensures spent { me.new.me.0.heard ≡ [] }
    {
        Instant::from_nanos(self.table.shared.load::<Looks>(me, 0))
    }

    /// Makes this moment the latest, unless a later one is.
    pub(crate) fn invalidate(&self, me: &mut Witness, moment: Instant)
        requires table { me.old.table_id ≡ self.now.table.shared.table_id }
        ensures same { (me.new.table_id ≡ me.old.table_id) × (me.new.me.1 ≡ me.old.me.1) }
        ensures seen { Appends me.old.me.0.seen moment me.new.me.0.seen }
        ensures spent { me.new.me.0.heard ≡ [] }
    {
        self.table
            .shared
            .fetch_max::<Invalidates>(me, 0, moment.nanos());
    }

    /// Returns a note of what the seat has seen.
    #[inline]
    pub(crate) fn note(&self, me: &mut Witness) -> Witness
        requires table { me.old.table_id ≡ self.now.table.shared.table_id }
        ensures same { (me.new.table_id ≡ me.old.table_id) × (me.new.me ≡ me.old.me) }
        ensures table { result.table_id ≡ me.old.table_id }
        ensures note { result.me ≡ (seeing me.old.me.0.seen, []) }
    {
        self.table.shared.split_seat::<Notes>(me)
    }

    /// Tells a seat what a note says: the moments that it has seen go on from those too. Returns the latest moment, which the seat has then seen.
    #[inline]
    pub(crate) fn learn(&self, me: &mut Witness, note: Witness) -> Instant
        requires table { me.old.table_id ≡ self.now.table.shared.table_id }
        requires note { (note.table_id ≡ self.now.table.shared.table_id) × (note.me.1 ≡ []) }
        ensures same { (me.new.table_id ≡ me.old.table_id) × (me.new.me.1 ≡ me.old.me.1) }
        ensures goes_on { GoesOn me.old.me.0.seen me.new.me.0.seen }
        ensures learns { GoesOn note.me.0.seen me.new.me.0.seen }
        ensures latest { result ≡ latest me.new.me.0.seen }
    {
        self.table.shared.join_seat::<Tells>(me, note);
        Instant::from_nanos(self.table.shared.load::<Looks>(me, 0))
    }

    /// Returns the latest moment, which both seats have then seen: a caller's, and that of the shard whose lock the caller has. It is four loads of the word.
    #[inline]
    pub(crate) fn load_both(&self, kept: &mut Witness, me: &mut Witness) -> Instant
        requires table { me.old.table_id ≡ self.now.table.shared.table_id }
        requires kept { (kept.old.table_id ≡ self.now.table.shared.table_id) × (kept.old.me.1 ≡ []) }
        ensures same { (me.new.table_id ≡ me.old.table_id) × (me.new.me.1 ≡ me.old.me.1) }
        ensures kept { (kept.new.table_id ≡ kept.old.table_id) × (kept.new.me.1 ≡ []) }
        ensures latest { result ≡ latest me.new.me.0.seen }
        ensures goes_on { GoesOn me.old.me.0.seen me.new.me.0.seen }
        ensures learns { GoesOn kept.old.me.0.seen kept.new.me.0.seen }
        ensures told { result ≡ latest kept.new.me.0.seen }
    {
        let note = self.note(kept);
        let moment = self.learn(me, note);
        *kept = self.note(me);
        moment
    }
}
