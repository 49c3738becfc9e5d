//! The calls of a soak.
use crate::soak::constants::OUT_OF;
use crate::soak::stamp::Stamp;
use moka_common::time::Instant;

/// Which call is made.
#[derive(Clone, Copy, Debug, PartialEq, Eq)]
pub enum Kind {
    Get,
    GetIfPresent,
    ContainsKey,
    Insert,
    Invalidate,
    Remove,
    InvalidateAll,
    Iter,
    Sync,
    Counts,
    Policy,
    Clone,
}

/// A call, with what any kind of call takes.
#[derive(Clone, Copy, Debug, PartialEq, Eq)]
pub struct Call {
    pub kind: Kind,
    pub key: u64,
    /// That of the value which an insert puts in.
    pub number: u32,
    pub now: Instant,
}

impl Call {
    /// The stamp that an insert puts in.
    pub fn stamp(&self) -> Stamp {
        Stamp {
            key: self.key,
            number: self.number,
        }
    }
}

/// Calls of each kind, out of `OUT_OF`. The rest are look-ups. An invalidation of all is seldom, or entries would neither expire nor be too much.
const SHARES: [(Kind, u64); 11] = [
    (Kind::Insert, OUT_OF / 20 * 6),
    (Kind::GetIfPresent, OUT_OF / 10),
    (Kind::ContainsKey, OUT_OF / 10),
    (Kind::Invalidate, OUT_OF / 40),
    (Kind::Remove, OUT_OF / 40),
    (Kind::Counts, OUT_OF / 25),
    (Kind::Policy, OUT_OF / 50),
    (Kind::Clone, OUT_OF / 50),
    (Kind::Sync, OUT_OF / 200),
    (Kind::Iter, OUT_OF / 200),
    (Kind::InvalidateAll, 1),
];

/// The kind that a number below `OUT_OF` draws.
pub(crate) fn kind_of(drawn: u64) -> Kind {
    let mut rest = drawn;
    for (kind, share) in SHARES {
        if rest < share {
            return kind;
        }
        rest -= share;
    }
    Kind::Get
}
