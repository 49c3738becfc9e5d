//! How a limit is shared out among the parts of a cache.

/// The window's part of a limit, and protected's of what the window leaves to main, in hundredths; and how far the window has adapted.
#[derive(Clone, Copy, Debug, PartialEq, Eq)]
pub struct Shares {
    pub window: u8,
    pub protected: u8,
    /// True if the window adapts to the calls.
    pub adapts: bool,
    /// The weight that the window has beyond its share now. It is 0 if the window doesn't adapt.
    pub extra: u64,
}

/// The weight limits of all entries, of the window, and of protected.
#[derive(Clone, Copy)]
pub struct PartLimits {
    pub all: u64,
    pub window: u64,
    pub protected: u64,
}
