//! The pairs that a snapshot gives.
ghost use Rattle.std.specs.Prelude.{◌≡◌};

use moka_common::shared::Shared;
use std::alloc::{Allocator, Global};
use std::marker::Model;
use std::ops::Deref;

/// A key and its value, shared with the cache. It dereferences to the value.
///
/// ```
/// /// The pair of an entry, copied.
/// pub fn pair_of(entry: &EntryRef<u32, u64>) -> (u32, u64)
///     ensures { result ≡ entry.now }
/// {
///     let (key, value) = entry.pair();
///     (*key, *value)
/// }
/// ```
///
/// Methods of the value are called on it, as here `len` of a text:
///
/// ```
/// (*entry.key(), entry.len())
/// ```
///
/// It stays as it is when the key's entry is replaced or leaves: it is one more owner of key and value.
#[derive(Drop)]
pub struct EntryRef<K: Drop, V: Drop, A: Allocator + Drop = Global> {
    key: Shared<K, A>,
    value: Shared<V, A>,
}

impl<K: Drop, V: Drop, A: Allocator + Drop> Model for EntryRef<K, V, A> {
    ghost Value = { K × V };

    ghost view = { λ e. (e.key, e.value) };
}

impl<K: Drop, V: Drop, A: Allocator + Drop> EntryRef<K, V, A> {
    pub(crate) fn new(key: Shared<K, A>, value: Shared<V, A>) -> Self
        ensures { result ≡ (key, value) }
    {
        EntryRef { key, value }
    }

    pub fn key(&self) -> &K
        ensures { result.now ≡ self.now.0 }
    {
        self.key.get()
    }

    pub fn value(&self) -> &V
        ensures { result.now ≡ self.now.1 }
    {
        self.value.get()
    }

    pub fn pair(&self) -> (&K, &V)
        ensures key { result.0.now ≡ self.now.0 }
        ensures value { result.1.now ≡ self.now.1 }
    {
        (self.key(), self.value())
    }
}

impl<K: Drop, V: Drop, A: Allocator + Drop> Deref for EntryRef<K, V, A> {
    type Target = V;

    ghost deref_gives = { λ e value. value ≡ e.1 };

    fn deref(&self) -> &V
        ensures { result.now ≡ self.now.1 }
    {
        self.value()
    }
}
