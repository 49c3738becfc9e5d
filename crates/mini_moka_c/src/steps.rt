//! Walks: their place, and what a step of one comes to.

/// The place of a walk.
#[derive(Clone, Copy, Drop)]
pub enum Walk {
    /// None was begun, or a call has ended it.
    Ended,
    /// Before the first entry.
    AtStart,
    /// Behind the entry whose key was met last.
    Behind,
}

/// The answer of a step of a walk through a cache of bytes.
#[derive(Clone, Copy, Drop)]
pub enum Step {
    /// None was begun, or a call has ended it.
    Ended,
    /// Each entry was met.
    Done,
    /// The lengths of the next entry's key and value.
    Pair { key: usize, value: usize },
}

/// The answer of a step of a walk through a cache of numbers.
#[derive(Clone, Copy, Drop)]
pub enum NumberStep {
    /// None was begun, or a call has ended it.
    Ended,
    /// Each entry was met.
    Done,
    /// The next entry's key and value.
    Pair { key: u64, value: u64 },
}
