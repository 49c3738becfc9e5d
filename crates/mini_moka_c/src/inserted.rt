//! The answer of an insert.
ghost use Rattle.std.specs.Prelude.{◌≡◌};
ghost use Rattle.mini_moka_c.specs.Inserted.{heard, status_of};

use crate::constants::{DONE, REJECTED};
use moka_unsync_model::listener::Cause;

/// The answer of an insert that wasn't refused memory.
#[derive(Clone, Copy, Drop)]
pub enum Inserted {
    /// The value is in the cache.
    Stored,
    /// The entry is new, and the admission policy did not let it in.
    Rejected,
}

impl Inserted {
    /// Returns the status for C.
    pub(crate) fn status(self) -> u32
        ensures { result ≡ status_of self }
    {
        match self {
            Inserted::Stored => DONE,
            Inserted::Rejected => REJECTED,
        }
    }

    /// Becomes `Rejected` if an entry left for that cause.
    pub(crate) fn hear(&mut self, cause: Cause)
        ensures { self.new ≡ heard cause self.old }
    {
        if let Cause::Rejected = cause {
            *self = Inserted::Rejected;
        }
    }
}
