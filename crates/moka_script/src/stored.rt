//! What the cache of a script stores: texts, each with its weight.
ghost use Rattle.std.specs.Prelude.{◌≡◌, ⊤};
ghost use Rattle.moka_script.specs.Stored.{stored_text};

use moka_common::constants::UNIT_WEIGHT;
use moka_common::weigh::Weigh;
use moka_grammar::text::Text;
use moka_sync_model::weigh::WeighShared;

/// A text, and how much it weighs. `T` is how texts are held, as in `Request`.
#[derive(Clone, Drop)]
pub struct Stored<T = Text> {
    pub text: T,
    pub weight: u32,
}

/// Returns what an insert stores: its text, and the weight that its line has. Without one a text weighs `UNIT_WEIGHT`.
pub fn stored_text<T>(text: T, weight: Option<u32>) -> Stored<T>
    ensures { result ≡ stored_text text weight }
{
    Stored {
        text,
        weight: weight.unwrap_or(UNIT_WEIGHT),
    }
}

/// The weigher of a weighed script: it answers the weight that is stored.
#[derive(Clone, Copy, Debug, PartialEq, Eq)]
pub struct StoredWeight;

impl<T> Weigh<u64, Stored<T>> for StoredWeight {
    ghost ready = { λ _. ⊤ };

    ghost weighs = { λ old _ value weight new. (weight ≡ value.weight) × (new ≡ old) };

    fn weigh(&mut self, _key: &u64, value: &Stored<T>) -> u32 {
        value.weight
    }
}

impl<T> WeighShared<u64, Stored<T>> for StoredWeight {
    ghost ready = { λ _. ⊤ };

    ghost weighs = { λ _ _ value weight. weight ≡ value.weight };

    fn weigh(&self, _key: &u64, value: &Stored<T>) -> u32 {
        value.weight
    }
}
