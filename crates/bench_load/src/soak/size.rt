//! How many entries there are, and what they weigh.
ghost use Rattle.std.specs.Prelude.{◌≡◌, ◌≤◌, ◌↔◌, IsTrue};

use std::fmt;

/// A number of entries, and what they weigh together.
#[derive(Clone, Copy, Debug, PartialEq, Eq)]
pub struct Size {
    pub entries: u64,
    pub weight: u64,
}

impl Size {
    /// That of nothing.
    pub const NOTHING: Size = Size {
        entries: 0,
        weight: 0,
    };

    /// With one more entry of this weight.
    pub fn with(self, weight: u32) -> Size {
        Size {
            entries: self.entries.saturating_add(1),
            weight: self.weight.saturating_add(u64::from(weight)),
        }
    }

    /// Returns `true` if neither number is greater than the other's.
    pub fn is_within(&self, other: &Size) -> bool
        ensures { IsTrue result ↔ ((self.now.entries ≤ other.now.entries) × (self.now.weight ≤ other.now.weight)) }
    {
        self.entries <= other.entries && self.weight <= other.weight
    }

    /// Returns `true` if it is the size of nothing.
    pub fn is_nothing(&self) -> bool
        ensures { IsTrue result ↔ ((self.now.entries ≡ 0) × (self.now.weight ≡ 0)) }
    {
        self.entries == 0 && self.weight == 0
    }
}

impl fmt::Display for Size {
    fn fmt<W: fmt::Write>(&self, f: &mut fmt::Formatter<W>) -> fmt::Result {
        let Size { entries, weight } = *self;
        write!(f, "{entries} entries of weight {weight}")
    }
}
