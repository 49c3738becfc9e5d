//! Values: bytes of any length.
ghost use Rattle.std.specs.Prelude.{◌≡◌, IfOk};

use moka_common::error::OutOfMemory;
use std::alloc::Global;
use std::marker::Model;

/// The bytes of a value, of any length. A contract sees the list of them.
#[derive(Drop)]
pub struct Value {
    pub(crate) bytes: Vec<u8>,
}

impl Model for Value {
    ghost use Rattle.std.specs.Prelude.{List, ℕ};

    ghost Value = { List ℕ };

    ghost view = { λ value. value.bytes.items };
}

impl Value {
    /// Copies these bytes.
    pub fn copy_of(alloc: Global, bytes: &[u8]) -> Result<Value, OutOfMemory>
        ensures { IfOk result (λ copy. copy ≡ bytes.now) }
    {
        Ok(Value {
            bytes: Vec::from_slice(alloc, bytes)?,
        })
    }

    pub fn as_slice(&self) -> &[u8]
        ensures { result.now ≡ self.now }
    {
        self.bytes.as_slice()
    }
}
