//! What turns of a maintenance behind its lock keep. A law is its function's clause: there is no code to call.
ghost use Rattle.moka_sync_model.specs.CoreState.{new_maintenance};
ghost use Rattle.moka_locks.specs.SameTickets.{HasSameTickets, KeepSameTickets};

/// States that, with a time to live, both orders of a maintenance have the same tickets at the start, and after any turns from there.
pub fn turns_keep_the_same_tickets<K, V, S>()
    ensures new { HasSameTickets new_maintenance.orders }
    ensures turns { KeepSameTickets K V S }
{}
