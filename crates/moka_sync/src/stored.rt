// A pair as a cache stores it.
ghost use Rattle.std.specs.Prelude.{◌≡◌, IfSome};

use moka_common::shared::Shared;
use std::alloc::Allocator;

/// Makes a key and a value as they are stored, unless memory is refused.
pub(crate) fn stored<K: Drop, V: Drop, A: Allocator + Clone + Drop>(
    alloc: &A,
    key: K,
    value: V,
) -> Option<(Shared<K, A>, Shared<V, A>)>
    ensures { IfSome result (λ pair. (pair.0 ≡ key) × (pair.1 ≡ value)) }
{
    let key = Shared::new(alloc.clone().ok()?, key).ok()?;
    let value = Shared::new(alloc.clone().ok()?, value).ok()?;
    Some((key, value))
}
