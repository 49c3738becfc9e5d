//! When a call runs a maintenance.
ghost use Rattle.std.specs.Prelude.{◌≡◌};
ghost use Rattle.moka_sync_model.specs.CoreCall.{due_after, is_due};

use crate::constants::SYNC_INTERVAL;
use moka_common::time::Instant;

/// Returns `true` if a maintenance is due in a call that finds `len` operations in its log. It is due from `flush_point` operations on, and from its moment on.
/// There is no such moment before the first maintenance that a call has run.
#[inline]
pub fn is_due(len: usize, flush_point: usize, due: Option<Instant>, now: Instant) -> bool
    ensures { result ≡ is_due len flush_point due now }
{
    if len >= flush_point {
        return true;
    }
    match due {
        Some(due) => due <= now,
        None => false,
    }
}

/// Returns the moment from which on the next maintenance is due by time, if one runs now. It is half a second later, or the last moment.
#[inline]
pub fn due_after(now: Instant) -> Instant
    ensures { result ≡ due_after now }
{
    Instant::from_nanos(now.nanos().saturating_add(SYNC_INTERVAL))
}
