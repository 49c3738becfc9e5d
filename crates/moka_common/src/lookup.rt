//! What a key is looked up by: the key itself, or something borrowed that stands for it, as a `&str` for a `String`.
ghost use Rattle.std.specs.Prelude.{◌≡◌, ◌&&◌, ◌++◌, Bool, IsTrue};
ghost use Rattle.std.specs.Cmp.{first_so, second_so};
ghost use Rattle.std.proofs.Common.{ap};
ghost use Rattle.std.specs.Cmp.Lexicographic.{pointwise, bytes_decides, lists_equiv, nat_list_eq_equiv};
ghost use Rattle.std.specs.Hash as fed;
ghost use Rattle.std.specs.Hash.{items_Alike};
ghost use Rattle.std.specs.Str.{bytes_eq};
ghost use Rattle.std.specs.String.{string_bytes};
ghost use Rattle.std.specs.Box.{boxed_slice_items, boxed_str_bytes};

use std::alloc::Allocator;
use std::boxed::{BoxedSlice, BoxedStr};
use std::hash::Hash;

/// Something by which a key is looked up, a probe. It hashes as the keys that it stands for, and these are equal to one another.
///
/// A type of one's own that derives `Hash` needs `stands_for` and two laws, which a search finds: see `moka_examples`.
pub trait Lookup<K: Eq + Hash>: Copy + Hash {
    ghost stands_for: { Self → K → Bool };

    /// Returns `true` if it stands for this key.
    fn stands_for(&self, key: &K) -> bool
        ensures { result ≡ stands_for self.now key.now };

    ghost hashes_alike: { (q : Self) (k : K) → IsTrue (stands_for q k) → Self.hash_input q ≡ K.hash_input k };

    ghost stands_for_equals: { (q : Self) (x y : K) → IsTrue (stands_for q x) → stands_for q y ≡ K.eq x y };
}

impl<K: Eq + Hash> Lookup<K> for &K {
    ghost stands_for = { λ q. K.eq q.now };

    ghost hashes_alike = { λ q. K.respects_eq q.now };

    ghost stands_for_equals = { λ q. K.Eq.laws.congr q.now };

    fn stands_for(&self, key: &K) -> bool {
        **self == *key
    }
}

impl<A: Allocator> Lookup<String<A>> for &str {
    ghost stands_for = { λ q k. bytes_eq q.now (string_bytes k) };

    ghost hashes_alike = { λ q k h. ap fed.str ((bytes_decides q.now (string_bytes k)).0 h) };

    ghost stands_for_equals = { λ q x y. nat_list_eq_equiv.congr q.now (string_bytes x) (string_bytes y) };

    fn stands_for(&self, key: &String<A>) -> bool {
        *self == key.as_str()
    }
}

impl<A: Allocator> Lookup<BoxedStr<A>> for &str {
    ghost stands_for = { λ q k. bytes_eq q.now (boxed_str_bytes k) };

    ghost hashes_alike = { λ q k h. ap fed.str ((bytes_decides q.now (boxed_str_bytes k)).0 h) };

    ghost stands_for_equals = { λ q x y. nat_list_eq_equiv.congr q.now (boxed_str_bytes x) (boxed_str_bytes y) };

    fn stands_for(&self, key: &BoxedStr<A>) -> bool {
        *self == key.as_str()
    }
}

impl<T: Eq + Hash, A: Allocator> Lookup<Vec<T, A>> for &[T] {
    ghost stands_for = { λ q k. pointwise T.eq q.now k.items };

    ghost hashes_alike = { λ q k. (items_Alike (record { fed = T.respects_eq })).fed q.now k.items };

    ghost stands_for_equals = { λ q x y. (lists_equiv T.Eq.laws).congr q.now x.items y.items };

    fn stands_for(&self, key: &Vec<T, A>) -> bool {
        *self == key.as_slice()
    }
}

impl<T: Eq + Hash, A: Allocator> Lookup<BoxedSlice<T, A>> for &[T] {
    ghost stands_for = { λ q k. pointwise T.eq q.now (boxed_slice_items k) };

    ghost hashes_alike = { λ q k. (items_Alike (record { fed = T.respects_eq })).fed q.now (boxed_slice_items k) };

    ghost stands_for_equals = { λ q x y. (lists_equiv T.Eq.laws).congr q.now (boxed_slice_items x) (boxed_slice_items y) };

    fn stands_for(&self, key: &BoxedSlice<T, A>) -> bool {
        *self == key.as_slice()
    }
}

// A pair of probes stands for the pairs whose parts they stand for.
impl<A: Eq + Hash, B: Eq + Hash, P: Lookup<A>, Q: Lookup<B>> Lookup<(A, B)> for (P, Q) {
    ghost stands_for = { λ q k. P.stands_for q.0 k.0 && Q.stands_for q.1 k.1 };

    ghost hashes_alike = { λ q k h i. P.hashes_alike q.0 k.0 (first_so _ _ h) i ++ Q.hashes_alike q.1 k.1 (second_so _ _ h) i };

    ghost stands_for_equals = { λ q x y h i.
        P.stands_for_equals q.0 x.0 y.0 (first_so _ _ h) i && Q.stands_for_equals q.1 x.1 y.1 (second_so _ _ h) i };

    fn stands_for(&self, key: &(A, B)) -> bool {
        self.0.stands_for(&key.0) && self.1.stands_for(&key.1)
    }
}
