//! What an entry weighs.
ghost use Rattle.std.specs.Prelude.{◌≡◌, ⊤};
ghost use Rattle.mini_moka_c.specs.Weight.{number_weight, weight_of};

use crate::key::Key;
use crate::value::Value;
use moka_common::constants::UNIT_WEIGHT;
use moka_common::weigh::Weigh;

/// Weighs an entry by its bytes of key and value, at most `u32::MAX`, or each entry 1.
#[derive(Clone, Copy, Drop)]
pub enum ByteWeight {
    Entry,
    Bytes,
}

impl Weigh<Key, Value> for ByteWeight {
    ghost ready = { λ _. ⊤ };

    ghost weighs = { λ old key value weight new. (weight ≡ weight_of old key value) × (new ≡ old) };

    fn weigh(&mut self, key: &Key, value: &Value) -> u32 {
        match self {
            ByteWeight::Entry => UNIT_WEIGHT,
            ByteWeight::Bytes => {
                let bytes = key.as_slice().len() as u128 + value.as_slice().len() as u128;
                u32::try_from(bytes).unwrap_or(u32::MAX)
            }
        }
    }
}

/// Weighs an entry of numbers by the upper 32 bits of its value, or each entry 1.
#[derive(Clone, Copy, Drop)]
pub enum NumberWeight {
    Entry,
    Value,
}

impl Weigh<u64, u64> for NumberWeight {
    ghost ready = { λ _. ⊤ };

    ghost weighs = { λ old key value weight new. (weight ≡ number_weight old value) × (new ≡ old) };

    fn weigh(&mut self, _key: &u64, value: &u64) -> u32 {
        match self {
            NumberWeight::Entry => UNIT_WEIGHT,
            NumberWeight::Value => (*value >> 32) as u32,
        }
    }
}
