// Counters that were reserved for a table before it is made.
ghost use Rattle.std.specs.Prelude.{◌≡◌, IfOk, replicate};

use crate::error::OutOfMemory;
use std::alloc::Allocator;
use std::marker::Model;

/// Groups of counters that are all 0, or none.
#[derive(Drop)]
pub(super) struct Spare<A: Allocator + Clone + Drop> {
    groups: Option<Vec<u16, A>>,
}

impl<A: Allocator + Clone + Drop> Model for Spare<A> {
    ghost use Rattle.std.specs.Prelude.{◌≡◌, ⊤, IfSome, length, replicate};

    ghost Value = { ⊤ };

    ghost view = { λ s. tt };

    ghost invariant = { λ s. IfSome s.groups (λ groups. groups.items ≡ replicate (length groups.items) 0) };
}

impl<A: Allocator + Clone + Drop> Spare<A> {
    pub(super) fn none() -> Spare<A> {
        Spare { groups: None }
    }

    /// Allocates so many groups, and keeps them.
    pub(super) fn allocate(&mut self, alloc: A, len: usize) -> Result<(), OutOfMemory> {
        self.groups = Some(vec![in alloc; 0; len]?);
        Ok(())
    }

    /// Returns so many groups: those that it keeps, if they are as many, or else new ones.
    pub(super) fn take_or_allocate(
        &mut self,
        alloc: A,
        len: usize,
    ) -> Result<Vec<u16, A>, OutOfMemory>
        ensures { IfOk result (λ groups. groups.items ≡ replicate len 0) }
    {
        match self.groups.take() {
            Some(groups) if groups.len() == len => Ok(groups),
            _ => Ok(vec![in alloc; 0; len]?),
        }
    }
}
