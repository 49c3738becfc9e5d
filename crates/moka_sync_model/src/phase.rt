//! The phases of a maintenance.

/// The phases of a maintenance, by their names. A round goes from `ReadCount` to `MoreWrites`; after the last round come two expiries, the
/// eviction, and the counts are published.
#[derive(Clone, Copy, Debug, PartialEq, Eq)]
pub enum Phase {
    /// No maintenance is under way.
    Idle,
    ReadCount,
    Reads,
    ReadApply,
    WriteCount,
    Writes,
    Apply,
    /// The entries that would give way to a candidate are looked at.
    Scan,
    /// They leave for a candidate that is admitted.
    Removing,
    Enter,
    Sketch,
    MoreReads,
    MoreWrites,
    ExpireWrite,
    ExpireAccess,
    Evict,
    Publish,
}
