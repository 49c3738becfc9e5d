//! Which requests a heap refuses.

/// Which requests are refused, counted from 1.
#[derive(Clone, Copy, PartialEq, Eq, Debug, Drop)]
pub enum Refusals {
    /// None.
    Never,
    /// This one and no other.
    Once(u64),
    /// This one and all later ones.
    From(u64),
    /// Each whose number this one divides.
    Every(u64),
}

/// The requests from the first to the last whose number the step divides.
#[derive(Clone, Copy)]
pub(crate) struct Range {
    pub(crate) first: u64,
    pub(crate) last: u64,
    pub(crate) step: u64,
}

impl Refusals {
    pub(crate) fn range(self) -> Range {
        let (first, last, step) = match self {
            Refusals::Never => (1, 0, 1),
            Refusals::Once(nth) => (nth, nth, 1),
            Refusals::From(nth) => (nth, u64::MAX, 1),
            Refusals::Every(nth) => (1, u64::MAX, nth),
        };
        Range { first, last, step }
    }
}

impl Range {
    /// Nothing is divided by 0.
    pub(crate) fn contains(self, request: u64) -> bool {
        self.first <= request && request <= self.last && self.step != 0 && request % self.step == 0
    }
}
