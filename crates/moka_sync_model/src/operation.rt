//! What callers leave for the maintenance.
use crate::ticket::Ticket;
use moka_common::time::Instant;

/// The operation of a get: it has found the ticket's entry at a moment, or nothing of this hash.
#[derive(Clone, Copy, Debug)]
pub enum Read {
    Hit { ticket: Ticket, moment: Instant },
    Miss { hash: u64 },
}

/// The operation of a change of the map: an insert has written the ticket's entry, or an invalidation has removed it.
#[derive(Clone, Copy, Debug)]
pub enum Write {
    Upsert { ticket: Ticket },
    Remove { ticket: Ticket },
}

/// The operation that a caller has pending: it isn't in its log yet.
#[derive(Clone, Copy, Debug)]
pub enum Operation {
    Reading(Read),
    Writing(Write),
}
