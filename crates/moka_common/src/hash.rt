//! The hash state of a cache that is given none, and elements that keep their hash.
ghost use Rattle.std.specs.Prelude.{◌≡◌, ℕ};

use std::hash::{BuildHasherDefault, FoldHasher};

/// std's default state. Its key is fixed: where strangers choose the keys, hand in a `RandomState` instead.
pub type FixedState = BuildHasherDefault<FoldHasher>;

/// An element that keeps the hash under which an index finds it.
pub trait Hashed {
    ghost hash_of: { Self → ℕ };

    /// Returns the element's hash.
    fn hash(&self) -> u64
        ensures { result ≡ hash_of self.now };
}
