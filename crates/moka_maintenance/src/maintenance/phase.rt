// The phases of a maintenance, with what it keeps in each.
ghost use Rattle.std.specs.Prelude.{◌≡◌, ℕ, List};
ghost use Rattle.moka_sync_model.specs.Phase.{name_of};
ghost use Rattle.moka_queues.specs.declared.orders.Node.{Node};
ghost use Rattle.moka_maintenance.specs.Held.{phase_of};

use moka_list::chain::NodeId;
use moka_sync_model::operation::{Read, Write};
use moka_sync_model::phase::Phase;
use moka_sync_model::progress::{Candidate, Tally, Work};

/// A scan of the access order from its front. What it has seen is noted in the nodes.
#[derive(Clone, Copy)]
pub(crate) struct Scan {
    pub(crate) candidate: Candidate,
    pub(crate) tally: Tally,
    pub(crate) seen: usize,
    /// The node after those that were seen.
    pub(crate) next: Option<NodeId>,
}

/// The removal of what a scan has seen. At the front of the access order are the skipped nodes, and after them those that are left.
#[derive(Clone, Copy)]
pub(crate) struct Removal {
    pub(crate) candidate: Candidate,
    pub(crate) tally: Tally,
    pub(crate) skipped: usize,
    pub(crate) left: usize,
    /// The node after those that are skipped.
    pub(crate) next: Option<NodeId>,
}

/// The phases of a maintenance, each with what it keeps there.
#[derive(Clone, Copy)]
pub(crate) enum PhaseState {
    Idle,
    ReadCount {
        round: usize,
    },
    Reads {
        work: Work,
    },
    ReadApply {
        work: Work,
        read: Read,
    },
    WriteCount {
        round: usize,
    },
    Writes {
        work: Work,
    },
    Apply {
        work: Work,
        write: Write,
    },
    Scanning {
        work: Work,
        scan: Scan,
    },
    Removing {
        work: Work,
        removal: Removal,
    },
    Enter {
        work: Work,
        candidate: Candidate,
        skipped: usize,
    },
    Sketch {
        round: usize,
    },
    MoreReads {
        round: usize,
    },
    MoreWrites {
        round: usize,
    },
    ExpireWrite {
        turns: usize,
    },
    ExpireAccess {
        turns: usize,
    },
    Evict {
        turns: usize,
    },
    Publish {
        turns: usize,
    },
}

impl PhaseState {
    /// Returns its name.
    pub(crate) fn name(&self) -> Phase
        ensures { (nodes : List (ℕ × Node)) → result ≡ name_of (phase_of nodes self.now) }
    {
        match self {
            PhaseState::Idle => Phase::Idle,
            PhaseState::ReadCount { .. } => Phase::ReadCount,
            PhaseState::Reads { .. } => Phase::Reads,
            PhaseState::ReadApply { .. } => Phase::ReadApply,
            PhaseState::WriteCount { .. } => Phase::WriteCount,
            PhaseState::Writes { .. } => Phase::Writes,
            PhaseState::Apply { .. } => Phase::Apply,
            PhaseState::Scanning { .. } => Phase::Scan,
            PhaseState::Removing { .. } => Phase::Removing,
            PhaseState::Enter { .. } => Phase::Enter,
            PhaseState::Sketch { .. } => Phase::Sketch,
            PhaseState::MoreReads { .. } => Phase::MoreReads,
            PhaseState::MoreWrites { .. } => Phase::MoreWrites,
            PhaseState::ExpireWrite { .. } => Phase::ExpireWrite,
            PhaseState::ExpireAccess { .. } => Phase::ExpireAccess,
            PhaseState::Evict { .. } => Phase::Evict,
            PhaseState::Publish { .. } => Phase::Publish,
        }
    }
}
