//! Whole calls on the cache that threads share, each a list of atomic steps.
use moka_common::shared::Shared;
use moka_common::time::Instant;
use std::alloc::{AllocError, Allocator};

/// A call as a caller makes it. `K` and `V` are what the cache keeps of a key and of a value.
#[derive(Drop)]
pub enum Call<K: Drop, V: Drop> {
    Insert { key: K, value: V, now: Instant },
    Get { key: K, now: Instant },
    Contains { key: K, now: Instant },
    Invalidate { key: K, now: Instant },
    /// Removes the entry of a key, and answers its value if it is unexpired.
    Remove { key: K, now: Instant },
    InvalidateAll { now: Instant },
    /// Runs a maintenance to its end.
    Sync { now: Instant },
    /// Asks what was published last.
    Counts,
}

impl<K: Drop, V: Drop, A: Allocator + Drop> Call<Shared<K, A>, Shared<V, A>> {
    ghost use Rattle.std.specs.Prelude.{◌≡◌, IfOk};

    /// Returns the same call, with its key and its value shared.
    pub fn try_clone(&self) -> Result<Self, AllocError>
        ensures { IfOk result (λ call. call ≡ self.now) }
    {
        match self {
            Call::Insert { key, value, now } => {
                let key = key.try_clone()?;
                let value = value.try_clone()?;
                Ok(Call::Insert {
                    key,
                    value,
                    now: *now,
                })
            }
            Call::Get { key, now } => {
                let key = key.try_clone()?;
                Ok(Call::Get { key, now: *now })
            }
            Call::Contains { key, now } => {
                let key = key.try_clone()?;
                Ok(Call::Contains { key, now: *now })
            }
            Call::Invalidate { key, now } => {
                let key = key.try_clone()?;
                Ok(Call::Invalidate { key, now: *now })
            }
            Call::Remove { key, now } => {
                let key = key.try_clone()?;
                Ok(Call::Remove { key, now: *now })
            }
            Call::InvalidateAll { now } => Ok(Call::InvalidateAll { now: *now }),
            Call::Sync { now } => Ok(Call::Sync { now: *now }),
            Call::Counts => Ok(Call::Counts),
        }
    }
}
