// How a builder is shown: by what was set. Its weigher, which may be a closure, is only said to be there.
use crate::builder::CacheBuilder;
use std::alloc::Allocator;
use std::fmt::{Debug, Formatter, Result, Write};

impl<K, V, W: Drop, A: Allocator + Clone + Drop> Debug for CacheBuilder<K, V, W, A> {
    fn fmt<T: Write>(&self, f: &mut Formatter<T>) -> Result {
        f.debug_struct("CacheBuilder")
            .field("max_capacity", &self.policy.max_capacity())
            .field("time_to_live", &self.policy.time_to_live())
            .field("time_to_idle", &self.policy.time_to_idle())
            .field("initial_capacity", &self.initial_capacity)
            .field("window_share", &self.shares.window)
            .field("protected_share", &self.shares.protected)
            .field("adaptive", &self.shares.adapts)
            .field("is_weighed", &self.is_weighed)
            .finish()
    }
}
