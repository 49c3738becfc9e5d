//! Looks at a cache that nobody else calls any more.
ghost use Rattle.std.specs.Prelude.{◌↔◌, IsTrue};

use crate::soak::constants::{FAR, FILLED, LIMIT, TIME_TO_LIVE};
use crate::soak::draws::Draws;
use crate::soak::errors::SoakError;
use crate::soak::size::Size;
use crate::soak::soaked::{Soaked, left};
use crate::soak::stamp::Stamp;
use moka_common::error::{InsertError, OutOfMemory};
use moka_common::time::Instant;
use std::alloc::Global;
use std::fmt;
use std::sync::Wait;

/// The counts of a settled cache, and a snapshot of the same moment.
#[derive(Clone, Copy, Debug, PartialEq, Eq)]
pub struct Look {
    pub counted: Size,
    pub left: Size,
}

impl Look {
    ghost use Rattle.bench_load.specs.Sound.{AgreesOn, IsCovered};

    /// Returns `true` if no more is left than is counted, within the limit. Less may be left: an entry that is expired leaves behind those before it in its
    /// order, and where moments go back one of those may not be.
    pub fn is_covered(&self) -> bool
        ensures { IsTrue result ↔ IsCovered self.now }
    {
        self.left.is_within(&self.counted) && self.counted.weight <= LIMIT
    }

    /// Returns `true` if what is left is what is counted, and has this number of entries.
    pub fn agrees_on(&self, entries: u64) -> bool
        ensures { IsTrue result ↔ AgreesOn entries self.now }
    {
        self.left == self.counted && self.left.entries == entries
    }
}

impl fmt::Display for Look {
    fn fmt<W: fmt::Write>(&self, f: &mut fmt::Formatter<W>) -> fmt::Result {
        let Look { counted, left } = *self;
        write!(f, "counted {counted}, left {left}")
    }
}

/// The looks in turn.
#[derive(Clone, Copy, Debug, PartialEq, Eq)]
pub struct Looks {
    /// Once all callers have ended, by the clock.
    pub joined: Look,
    /// When whatever they have inserted is expired.
    pub expired: Look,
    /// Filled at that moment, with no more than has room.
    pub filled: Look,
    /// After an invalidation of all.
    pub emptied: Look,
}

impl Looks {
    ghost use Rattle.bench_load.specs.Sound.{AreRight};

    /// Returns `true` if each look is as it must be.
    pub fn are_right(&self) -> bool
        ensures { IsTrue result ↔ AreRight self.now }
    {
        self.joined.is_covered()
            && self.expired.agrees_on(0)
            && self.filled.agrees_on(FILLED)
            && self.emptied.agrees_on(0)
    }
}

/// Looks at a cache whose callers have ended, and which then is filled and emptied. No moment of theirs was later than `millis` by more than `FAR`.
pub(crate) fn final_looks<C: Soaked, R: Wait>(
    rt: &R,
    alloc: Global,
    cache: &C,
    draws: &mut Draws,
    millis: u64,
) -> Result<Looks, SoakError> {
    let joined = look_at(rt, alloc, cache, Instant::from_millis(millis))?;
    let later = millis.saturating_add(FAR + TIME_TO_LIVE);
    let now = Instant::from_millis(later);
    let expired = look_at(rt, alloc, cache, now)?;
    fill(rt, cache, draws, now)?;
    let filled = look_at(rt, alloc, cache, now)?;
    let now = Instant::from_millis(later.saturating_add(1));
    cache.invalidate_all(rt, now);
    let emptied = look_at(rt, alloc, cache, now)?;
    Ok(Looks {
        joined,
        expired,
        filled,
        emptied,
    })
}

/// Settles the cache, and looks at it.
fn look_at<C: Soaked, R: Wait>(
    rt: &R,
    alloc: Global,
    cache: &C,
    now: Instant,
) -> Result<Look, OutOfMemory> {
    cache.settle(rt, now);
    Ok(Look {
        counted: cache.counted(rt),
        left: left(rt, alloc, cache, now)?,
    })
}

/// Inserts the first `FILLED` keys.
fn fill<C: Soaked, R: Wait>(
    rt: &R,
    cache: &C,
    draws: &mut Draws,
    now: Instant,
) -> Result<(), InsertError> {
    for key in 0..FILLED {
        let stamp = Stamp {
            key,
            number: draws.number(),
        };
        cache.insert(rt, stamp, now)?;
    }
    Ok(())
}
