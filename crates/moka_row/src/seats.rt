//! Seats made of others: owners by number, and notes of what was seen.
ghost use Rattle.std.specs.Prelude.{◌≡◌, ◌*◌, ◌<◌, []};
ghost use Rattle.moka_row.specs.Visits.{Deals, after_dealing, next_owner, note_of};
ghost use Rattle.moka_row.specs.Kept.{Hears};

use crate::row::{Account, Known, Row, Visitor};
use atomic_table::{Join, Play, Split};

/// Hands out the next owner's number.
pub struct Dealing;

impl<E, K> Split<Known<E, K>> for Dealing {
    ghost use Rattle.moka_row.specs.Visits.{after_dealing, next_owner};

    ghost left = { λ v. after_dealing v };

    ghost right = { λ v. next_owner v };
}

/// Returns the next owner as a visitor that has seen nothing and made no visit. No other visitor has its number.
pub fn deal<T, E, K, P: Account<T, E, K>>(
    row: &Row<T, E, K, P>,
    dealer: &mut Visitor<T, E, K>,
) -> Visitor<T, E, K>
    requires table { (dealer.old.table_id ≡ row.now.table_id) × (0 < row.now.table_id.words) }
    requires deals { dealer.old.me.0.role ≡ Deals }
    ensures same { dealer.new.table_id ≡ dealer.old.table_id }
    ensures dealt { dealer.new.me ≡ (after_dealing dealer.old.me.0, dealer.old.me.1) }
    ensures table { result.table_id ≡ dealer.old.table_id }
    ensures owner { result.me ≡ (next_owner dealer.old.me.0, []) }
{
    row.split_seat::<Dealing>(dealer)
}

/// Copies what was seen.
pub struct Notes;

impl<E, K> Split<Known<E, K>> for Notes {
    ghost use Rattle.moka_row.specs.Visits.{note_of};

    ghost left = { λ v. v };

    ghost right = { λ v. note_of v };
}

/// Returns a note of what the visitor has seen so far.
pub fn note<T, E, K, P: Account<T, E, K>>(
    row: &Row<T, E, K, P>,
    me: &mut Visitor<T, E, K>,
) -> Visitor<T, E, K>
    requires table { (me.old.table_id ≡ row.now.table_id) × (0 < row.now.table_id.words) }
    ensures same { (me.new.table_id ≡ me.old.table_id) × (me.new.me ≡ me.old.me) }
    ensures table { result.table_id ≡ me.old.table_id }
    ensures note { result.me ≡ (note_of me.old.me.0, []) }
{
    row.split_seat::<Notes>(me)
}

/// Tells a visitor what another has seen.
pub struct Telling;

impl<E, K> Join<Known<E, K>> for Telling {
    ghost use Rattle.moka_row.specs.Visits.{after_telling, told};

    ghost both = { λ v note. after_telling v note };

    ghost spent = { told };
}

/// Takes in what was told.
pub struct Hearing;

impl<T, E, K> Play<T, Known<E, K>> for Hearing {
    ghost use Rattle.moka_row.specs.Kept.{Heard};

    ghost then = { Heard };
}

/// Tells the visitor what the note says: its histories go on from those too.
pub fn learn<T, E, K, P: Account<T, E, K>>(
    row: &Row<T, E, K, P>,
    me: &mut Visitor<T, E, K>,
    note: Visitor<T, E, K>,
)
    requires table { (me.old.table_id ≡ row.now.table_id) × (0 < row.now.table_id.words) }
    requires note { (note.table_id ≡ row.now.table_id) × (note.me.1 ≡ []) }
    ensures same { (me.new.table_id ≡ me.old.table_id) × (me.new.me.1 ≡ me.old.me.1) }
    ensures told { Hears me.old.me.0 note.me.0.seen me.new.me.0 }
{
    row.join_seat::<Telling>(me, note);
    row.load::<Hearing>(me, 0);
}
