// Up to which number the tickets of each shard were charged.
ghost use Rattle.std.specs.Prelude.{IsTrue};
ghost use Rattle.moka_sync_model.specs.declared.ticket.Ticket.{Ticket as TicketValue};
ghost use Rattle.moka_queues.specs.HighWater.{IsCovered};

use moka_sync_model::constants::SHARDS;
use moka_sync_model::ticket::Ticket;

/// For each shard its high-water mark: the greatest number of its tickets that were charged. A shard gives out its numbers in order, so the ticket of a
/// new entry is above its mark as a rule, and then it has no node.
#[derive(Drop)]
pub(crate) struct HighWater {
    marks: [u64; SHARDS],
}

impl HighWater {
    /// Makes marks that no ticket with a number above 0 has come to.
    pub(crate) fn new() -> Self {
        HighWater { marks: [0; SHARDS] }
    }

    /// Returns `true` if the ticket is above the mark of its shard.
    pub(crate) fn is_below(&self, ticket: Ticket) -> bool
        ensures { IsTrue result → IsCovered self.now ticket → ⊥ }
    {
        self.marks[(ticket.hash % SHARDS as u64) as usize] < ticket.number
    }

    /// Notes that the ticket is charged.
    pub(crate) fn rise_to(&mut self, ticket: Ticket)
        ensures covers { IsCovered self.new ticket }
        ensures kept { (t : TicketValue) → IsCovered self.old t → IsCovered self.new t }
    {
        let shard = (ticket.hash % SHARDS as u64) as usize;
        if self.marks[shard] < ticket.number {
            self.marks[shard] = ticket.number;
        }
    }
}
