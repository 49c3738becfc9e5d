// How a cache is shown: as a map of all its entries, expired ones among them that no call has removed yet.
use crate::cache::Cache;
use std::alloc::Allocator;
use std::fmt::{Debug, Formatter, Result, Write};
use std::hash::{BuildHasher, Hash};

impl<
    K: Eq + Hash + Debug + Drop,
    V: Debug + Drop,
    S: BuildHasher + Drop,
    W: Drop,
    A: Allocator + Clone + Drop,
> Debug for Cache<K, V, S, W, A> {
    fn fmt<T: Write>(&self, f: &mut Formatter<T>) -> Result {
        let mut out = f.debug_map();
        for entry in self.store.iter() {
            out.entry(&entry.key, &entry.value);
        }
        out.finish()
    }
}
