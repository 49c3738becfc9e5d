//! What callers have left and not pushed to a log yet.
ghost use Rattle.std.specs.Prelude.{◌≡◌, ◌↔◌, IsTrue, ◌<◌, ◌≤◌, ◌+◌, ◌++◌, [], ◌∷◌, nat_eq, length, IfOk, OnOk, IfSome, IfNone, None};
ghost use Rattle.std.specs.Map.{lookup, remove_entry};
ghost use Rattle.moka_core.specs.Pending.{HasRoomFor};
ghost use Rattle.moka_core.specs.PendingPlace.{IsPendingAt};
ghost use Rattle.moka_sync_model.specs.declared.constants.TheConstants.{CALLER};

use moka_common::error::OutOfMemory;
pub use moka_sync_model::operation::Operation;
use std::alloc::{Allocator, Global};
use std::marker::Model;

/// The operations that are pending, at most one a caller.
#[derive(Drop)]
pub struct PendingOperations<A: Allocator + Drop = Global> {
    operations: Vec<(u32, Operation), A>,
}

impl<A: Allocator + Drop> Model for PendingOperations<A> {
    ghost use Rattle.std.specs.Prelude.{◌≡◌, ◌<◌, ◌-◌, nat_eq, None};
    ghost use Rattle.std.specs.Map.{lookup};
    ghost use Rattle.moka_sync_model.specs.declared.constants.TheConstants.{CALLER};
    ghost use Rattle.std.specs.Vec.{vec_capacity, vec_len};
    ghost use Rattle.moka_core.specs.Pending.{Pending};

    ghost Value = { Pending };

    ghost view = { λ p. record { operations = p.operations.items; room = vec_capacity p.operations - vec_len p.operations } };

    ghost invariant = { λ p. lookup (nat_eq CALLER) p.operations.items ≡ None → vec_len p.operations < vec_capacity p.operations };
}

impl<A: Allocator + Drop> PendingOperations<A> {
    /// Makes a list without operations, with capacity for that of the caller of whole calls.
    pub fn new(alloc: A) -> Result<PendingOperations<A>, OutOfMemory>
        ensures { IfOk result (λ pending. pending ≡ record { operations = []; room = 1 }) }
    {
        Ok(PendingOperations {
            operations: Vec::with_capacity(alloc, 1)?,
        })
    }

    /// Reserves capacity for `operations` more of them, beside that for the caller of whole calls.
    pub fn reserve(&mut self, operations: usize) -> Result<(), OutOfMemory>
        ensures ok { OnOk result (operations < self.new.room) }
        ensures unchanged { self.new.operations ≡ self.old.operations }
        ensures kept { self.old.room ≤ self.new.room }
    {
        self.operations.reserve(operations.saturating_add(1))?;
        Ok(())
    }

    /// Returns `true` if nothing is pending.
    pub fn is_empty(&self) -> bool
        ensures { IsTrue result ↔ self.now.operations ≡ [] }
    {
        self.operations.is_empty()
    }

    /// Returns what a caller has pending.
    pub fn of(&self, caller: u32) -> Option<Operation>
        ensures { result ≡ lookup (nat_eq caller) self.now.operations }
    {
        let place = position_of(&self.operations, caller)?;
        Some(self.operations[place].1)
    }

    /// Returns the number of further callers that fit.
    pub fn room(&self) -> usize
        ensures value { result ≡ self.now.room }

        // There is always room for the caller of whole calls.
        ensures kept { lookup (nat_eq CALLER) self.now.operations ≡ None → 0 < result }
    {
        self.operations.capacity() - self.operations.len()
    }

    /// Adds the operation of a caller that has none pending. There must be capacity for it, beside that for the caller of whole calls: `of` and `room` are
    /// the tests.
    pub fn put(&mut self, caller: u32, operation: Operation)
        requires free { lookup (nat_eq caller) self.old.operations ≡ None }
        requires room { HasRoomFor caller self.old.room }
        ensures operations { self.new.operations ≡ self.old.operations ++ (caller, operation) ∷ [] }
        ensures room { self.old.room ≤ self.new.room + 1 }
    {
        self.operations.push_reserved((caller, operation));
    }

    /// Takes what a caller has pending.
    pub fn take(&mut self, caller: u32) -> Option<Operation>
        ensures value { result ≡ lookup (nat_eq caller) self.old.operations }
        ensures operations { self.new.operations ≡ remove_entry (nat_eq caller) self.old.operations }
        ensures room { self.new.room + length self.new.operations ≡ self.old.room + length self.old.operations }
        ensures kept { self.old.room ≤ self.new.room }
    {
        let place = position_of(&self.operations, caller)?;
        Some(self.operations.remove(place).1)
    }
}

/// Returns the position of a caller's operation.
fn position_of(operations: &[(u32, Operation)], caller: u32) -> Option<usize>
    ensures found { IfSome result (IsPendingAt caller operations.now) }
    ensures absent { IfNone result (lookup (nat_eq caller) operations.now ≡ None) }
    ensures nothing { IfNone result (remove_entry (nat_eq caller) operations.now ≡ operations.now) }
{
    for (i, pending) in operations.iter().enumerate() {
        if pending.0 == caller {
            return Some(i);
        }
    }
    None
}
