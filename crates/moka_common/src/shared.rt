//! Shared pointers whose value contracts see.
use std::alloc::{AllocError, AllocFailed, Allocator, Global};
use std::marker::Model;
use std::sync::Arc;

/// A value with several owners, on any thread. A contract sees the value.
#[derive(Drop)]
pub struct Shared<T: Drop, A: Allocator + Drop = Global> {
    inner: Arc<T, A>,
}

impl<T: Drop, A: Allocator + Drop> Model for Shared<T, A> {
    ghost use Rattle.std.specs.Arc.{arc_value};

    ghost Value = { T };

    ghost coded = { T.code };

    ghost view = { λ s. arc_value s.inner };
}

ghost use Rattle.std.specs.Prelude.{◌≡◌, IfOk, IfErr};

impl<T: Drop, A: Allocator + Drop> Shared<T, A> {
    /// Moves the value into memory of its own. A refusal hands it back.
    pub fn new(alloc: A, value: T) -> Result<Shared<T, A>, AllocFailed<T>>
        ensures ok { IfOk result (λ shared. shared ≡ value) }
        ensures value_returned { IfErr result (λ error. error.value ≡ value) }
    {
        Ok(Shared {
            inner: Arc::new(alloc, value)?,
        })
    }

    /// Makes one more owner of the same value. It allocates nothing, and is refused only if there are too many owners to count.
    pub fn try_clone(&self) -> Result<Shared<T, A>, AllocError>
        ensures { IfOk result (λ shared. shared ≡ self.now) }
    {
        Ok(Shared {
            inner: Arc::try_clone(&self.inner)?,
        })
    }

    /// Returns the value.
    pub fn get(&self) -> &T
        ensures { result.now ≡ self.now }
    {
        &self.inner
    }
}
