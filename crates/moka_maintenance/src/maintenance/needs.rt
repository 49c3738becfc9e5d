// The needs of operations and of fronts.
ghost use Rattle.std.specs.Prelude.{◌≡◌};
ghost use Rattle.moka_maintenance.specs.Need.{need_at_front, need_to_read, need_to_write};

use crate::maintenance::Need;
use moka_sync_model::operation::{Read, Write};
use moka_sync_model::ticket::Ticket;

/// Returns what a read needs to be applied.
pub(super) fn need_of_read(read: Read) -> Need
    ensures { result ≡ need_to_read read }
{
    match read {
        Read::Hit { ticket, .. } => Need::Entry(ticket),
        Read::Miss { .. } => Need::Nothing,
    }
}

/// Returns what a write needs to be applied.
pub(super) fn need_of_write(write: Write) -> Need
    ensures { result ≡ need_to_write write }
{
    match write {
        Write::Upsert { ticket } => Need::Entry(ticket),
        Write::Remove { .. } => Need::Nothing,
    }
}

/// Returns what a turn at a front needs: its entry, or nothing if there is none.
pub(super) fn need_of_front(front: Option<Ticket>) -> Need
    ensures { result ≡ need_at_front front }
{
    match front {
        Some(ticket) => Need::Entry(ticket),
        None => Need::Nothing,
    }
}
