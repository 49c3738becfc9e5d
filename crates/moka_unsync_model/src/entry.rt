//! What a cache for one thread keeps of a key.
use moka_common::hash::Hashed;
use moka_common::time::Instant;

/// The part of an entry: the window, or main's protected segment or probation.
#[repr(u8)]
#[derive(Clone, Copy)]
pub enum Part {
    Probation,
    Protected,
    Window,
}

/// A key with its value and what the cache keeps of them: `Cache::entries` lends it, and contracts name it.
#[derive(Drop)]
pub struct Entry<K: Drop, V: Drop> {
    pub key: K,
    pub value: V,
    pub hash: u64,
    pub accessed: Instant,
    pub deadline: Instant,
    pub weight: u32,
    /// It takes bytes beside the weight that are free, as the next. They come last, so that no padding splits the moves of an entry.
    pub part: Part,
    /// True if the entry outlasts the moment of its deadline, which is the last one then: its time to live ends after all moments.
    pub outlasts: bool,
}

impl<K: Drop, V: Drop> Hashed for Entry<K, V> {
    ghost hash_of = { λ entry. entry.hash };

    #[inline(always)]
    fn hash(&self) -> u64 {
        self.hash
    }
}
