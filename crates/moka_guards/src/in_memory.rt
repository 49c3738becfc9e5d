//! A proof that the values of a type fit in memory, for calls that ask for it.
ghost use Rattle.std.specs.Prelude.{◌≡◌, IfOk};
ghost use Rattle.std.specs.Mem.{FitsInMemory};

use std::alloc::AllocError;
use std::marker::{Model, PhantomData};
use std::mem::{ManuallyDrop, size_of_val};

/// A type by its name alone.
pub(crate) trait Named: Drop {
    // Each of its values takes fewer than 2^63 bytes.
    ghost fits: { Type 0 };
}

impl<T> Named for PhantomData<T> {
    ghost fits = { FitsInMemory T.row };
}

/// A value without bytes. A proof that has one knows that the values of the type fit in memory.
#[derive(Drop)]
pub(crate) struct InMemory<T>
where
    PhantomData<T>: Named,
{
    of: PhantomData<T>,
}

impl<T> Model for InMemory<T>
where
    PhantomData<T>: Named,
{
    ghost use Rattle.std.specs.Prelude.{⊤};

    ghost Value = { ⊤ };

    ghost view = { λ _. tt };

    ghost invariant = { λ _. ⟦<PhantomData<T> as Named>⟧.fits };
}

impl<T> InMemory<T> {
    /// Makes one. It is refused only for a type of more than 2^63 - 1 bytes, which the compiler knows.
    pub(crate) fn new() -> Result<Self, AllocError>
        ensures { IfOk result (λ _. FitsInMemory T.row) }
    {
        let none: Option<ManuallyDrop<T>> = None;
        if size_of_val(&none) <= isize::MAX as usize {
            Ok(InMemory { of: PhantomData })
        } else {
            Err(AllocError)
        }
    }

    /// Returns another one.
    pub(crate) fn again(&self) -> Self {
        InMemory { of: self.of }
    }

    /// Does nothing, and tells a proof what is known.
    pub(crate) fn tell(&self)
        ensures { FitsInMemory T.row }
    {
        let _of = &self.of;
    }
}
