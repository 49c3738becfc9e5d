//! The counts that a maintenance publishes when it ends.
ghost use Rattle.std.specs.Prelude.{◌≡◌, ◌↔◌, IsTrue, [], ◌∷◌};
ghost use Rattle.moka_sync_model.specs.Published.{opening};

use crossbeam_utils::atomic::seq_cell::Words;

/// The counts that a maintenance publishes when it ends.
#[derive(Clone, Copy, Debug, PartialEq, Eq)]
pub struct Published {
    /// Number of publications before it, at most `u64::MAX`.
    pub number: u64,
    /// Number of charged entries.
    pub count: u64,
    /// Their weight, at most `u64::MAX`.
    pub weight: u64,
}

impl Published {
    /// Returns the counts before anything is published.
    pub fn opening() -> Published
        ensures { result ≡ opening }
    {
        Published {
            number: 0,
            count: 0,
            weight: 0,
        }
    }

    /// Returns `true` if nothing has been published.
    pub fn is_opening(&self) -> bool
        ensures { IsTrue result ↔ (self.now ≡ opening) }
    {
        *self == Published::opening()
    }
}

// The three words in which threads share it.
impl Words<3> for Published {
    ghost words = { λ p. p.number ∷ p.count ∷ p.weight ∷ [] };

    fn to_words(self) -> [u64; 3] {
        [self.number, self.count, self.weight]
    }

    fn from_words(bits: &[u64; 3]) -> Published {
        let [number, count, weight] = *bits;
        Published {
            number,
            count,
            weight,
        }
    }
}
