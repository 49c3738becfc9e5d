//! Keys: bytes of any length.
ghost use Rattle.std.specs.Prelude.{◌≡◌, ◌<◌, [], ◌∷◌, length, nat_eq, IfOk, OnErr, OnOk};
ghost use Rattle.std.specs.Cmp.{partial_equiv_from_equiv};
ghost use Rattle.std.specs.Cmp.Lexicographic.{nat_list_eq_equiv, pointwise};
ghost use Rattle.std.specs.Cmp.Rules.{comparing, hashing};
ghost use Rattle.std.proofs.Common.{rules};

use moka_common::error::OutOfMemory;
use moka_common::lookup::Lookup;
use smallvec::SmallVec;
use std::alloc::Global;
use std::hash::{Hash, Hasher};
use std::marker::Model;

/// The longest key, in bytes, that its entry holds itself. A longer one has a block of memory of its own.
pub const SHORT_KEY: usize = 24;

/// The bytes of a key, of any length. A contract sees the list of them.
///
/// They are hashed by one write, so that a hasher takes them eight at a time.
#[derive(Drop)]
pub struct Key {
    bytes: SmallVec<u8, SHORT_KEY>,
}

impl Model for Key {
    ghost use Rattle.std.specs.Prelude.{List, ℕ};

    ghost Value = { List ℕ };

    ghost view = { λ key. key.bytes.items };
}

impl Key {
    /// Makes a key of no bytes, which allocates nothing.
    pub fn new(alloc: Global) -> Key
        ensures { result ≡ [] }
    {
        Key {
            bytes: SmallVec::new(alloc),
        }
    }

    /// Copies these bytes.
    pub fn copy_of(alloc: Global, bytes: &[u8]) -> Result<Key, OutOfMemory>
        ensures ok { IfOk result (λ copy. copy ≡ bytes.now) }
        ensures short { OnErr result (SHORT_KEY < length bytes.now) }
    {
        Ok(Key {
            bytes: SmallVec::from_slice(alloc, bytes)?,
        })
    }

    /// Replaces the bytes by these. It allocates only for more than `SHORT_KEY` and more than it ever had; where that is refused, it stays as it is.
    pub fn set(&mut self, bytes: &[u8]) -> Result<(), OutOfMemory>
        ensures ok { OnOk result (self.new ≡ bytes.now) }
        ensures err { OnErr result (self.new ≡ self.old) }
        ensures short { OnErr result (SHORT_KEY < length bytes.now) }
    {
        // Most caches have keys of one length.
        if bytes.len() == self.bytes.len() {
            self.bytes.as_mut_slice().copy_from_slice(bytes);
            return Ok(());
        }
        if bytes.len() > self.bytes.capacity() {
            self.bytes
                .reserve(bytes.len().saturating_sub(self.bytes.len()))?;
        }
        self.bytes.clear();
        self.bytes.extend_from_slice(bytes)?;
        Ok(())
    }

    pub fn as_slice(&self) -> &[u8]
        ensures { result.now ≡ self.now }
    {
        self.bytes.as_slice()
    }
}

impl PartialEq for Key {
    ghost eq = { pointwise nat_eq };

    ghost laws = { partial_equiv_from_equiv nat_list_eq_equiv };

    fn eq(&self, other: &Key) -> bool {
        self.as_slice() == other.as_slice()
    }
}

impl Eq for Key {
    ghost laws = { nat_list_eq_equiv };
}

impl Hash for Key {
    ghost hash_input = { λ bytes. bytes ∷ [] };

    ghost respects_eq = { Prim.search (hashing, rules) };

    fn hash<H: Hasher>(&self, state: &mut H) {
        state.write(self.as_slice());
    }
}

/// The bytes of a key that is looked for, which stand for it without a copy.
#[derive(Clone, Copy, PartialEq, Eq)]
pub struct Bytes<'a> {
    pub bytes: &'a [u8],
}

impl<'a> Hash for Bytes<'a> {
    ghost hash_input = { λ probe. probe.bytes.now ∷ [] };

    ghost respects_eq = { Prim.search (comparing, hashing, rules) };

    fn hash<H: Hasher>(&self, state: &mut H) {
        state.write(self.bytes);
    }
}

impl<'a> Lookup<Key> for Bytes<'a> {
    ghost stands_for = { λ probe key. pointwise nat_eq probe.bytes.now key };

    ghost hashes_alike = { Prim.search (comparing, hashing, rules) };

    ghost stands_for_equals = { λ probe x y. nat_list_eq_equiv.congr probe.bytes.now x y };

    fn stands_for(&self, key: &Key) -> bool {
        self.bytes == key.as_slice()
    }
}
