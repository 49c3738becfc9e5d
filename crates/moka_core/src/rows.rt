//! The pairs of a copy.
use moka_common::shared::Shared;
use std::alloc::{Allocator, Global};
use std::marker::Model;

/// Pairs that a cache has shared with its caller. A contract sees a list of them.
#[derive(Drop)]
pub struct Rows<K: Drop, V: Drop, A: Allocator + Drop = Global> {
    pairs: Option<Vec<(Shared<K, A>, Shared<V, A>), A>>,
}

impl<K: Drop, V: Drop, A: Allocator + Drop> Model for Rows<K, V, A> {
    ghost use Rattle.std.specs.Prelude.{List, []};
    ghost use Rattle.std.specs.Option.{option_map_or};

    ghost Value = { List (K × V) };

    ghost view = { λ rows. option_map_or (λ pairs. pairs.items) rows.pairs [] };
}

ghost use Rattle.std.specs.Prelude.{◌≡◌, []};

impl<K: Drop, V: Drop, A: Allocator + Drop> Rows<K, V, A> {
    /// Makes rows without pairs, which allocates nothing.
    pub(crate) fn none() -> Self
        ensures { result ≡ [] }
    {
        Rows { pairs: None }
    }

    pub(crate) fn new(pairs: Vec<(Shared<K, A>, Shared<V, A>), A>) -> Self
        ensures { result ≡ pairs.items }
    {
        Rows { pairs: Some(pairs) }
    }

    /// Returns the pairs as a slice.
    pub fn as_slice(&self) -> &[(Shared<K, A>, Shared<V, A>)]
        ensures { result.now ≡ self.now }
    {
        match &self.pairs {
            Some(pairs) => pairs.as_slice(),
            None => &[],
        }
    }
}
