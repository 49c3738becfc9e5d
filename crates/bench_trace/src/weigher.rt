// The weigher of a weighed trace, for a cache of one thread and for one that threads share.
ghost use Rattle.std.specs.Prelude.{◌≡◌, ◌-◌, ◌^◌, ⊤, min};

use moka_common::weigh::Weigh;
use moka_sync_model::weigh::WeighShared;

/// An entry weighs its value.
#[derive(Clone, Copy)]
pub(crate) struct WeighsItsValue;

impl Weigh<u64, u64> for WeighsItsValue {
    ghost ready = { λ _. ⊤ };

    ghost weighs = { λ old _ value weight new. (weight ≡ min value (2 ^ 32 - 1)) × (new ≡ old) };

    fn weigh(&mut self, _key: &u64, value: &u64) -> u32 {
        weight_of(value)
    }
}

impl WeighShared<u64, u64> for WeighsItsValue {
    ghost ready = { λ _. ⊤ };

    ghost weighs = { λ _ _ value weight. weight ≡ min value (2 ^ 32 - 1) };

    fn weigh(&self, _key: &u64, value: &u64) -> u32 {
        weight_of(value)
    }
}

fn weight_of(value: &u64) -> u32
    ensures { result ≡ min value.now (2 ^ 32 - 1) }
{
    u32::try_from(*value).unwrap_or(u32::MAX)
}
