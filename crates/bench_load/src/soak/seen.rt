// Which keys a snapshot has given.
use crate::soak::constants::KEYS;
use std::alloc::{AllocError, Global};

/// The keys that the last snapshot has given so far: for each key the number of the snapshot that gave it last.
#[derive(Drop)]
pub(crate) struct Seen {
    snapshots: Vec<u64>,
    /// That of the last snapshot, from 1 on.
    number: u64,
}

impl Seen {
    /// No snapshot has been taken.
    pub(crate) fn new(alloc: Global) -> Result<Seen, AllocError> {
        Ok(Seen {
            snapshots: vec![in alloc; 0u64; KEYS as usize]?,
            number: 0,
        })
    }

    /// Another snapshot gives its keys from here on.
    pub(crate) fn begin(&mut self) {
        self.number = self.number.saturating_add(1);
    }

    /// Returns `true` if the last snapshot gives this key for the first time. A key that is none of the soak's is never so.
    pub(crate) fn is_first(&mut self, key: u64) -> bool {
        let Some(snapshot) = self.snapshots.get_mut(key as usize) else {
            return false;
        };
        if *snapshot == self.number {
            return false;
        }
        *snapshot = self.number;
        true
    }
}
