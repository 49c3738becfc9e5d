//! The values of a soak: each names its key.
ghost use Rattle.std.specs.Prelude.{◌≡◌, ◌+◌, ◌%◌, ⊤};
ghost use Rattle.std.proofs.Common.{subst};
ghost use Rattle.std.proofs.lemmas.Bool.{eqb-true};
ghost use Rattle.bench_load.specs.declared.soak.constants.TheConstants.{HEAVIEST};

use crate::soak::constants::HEAVIEST;
use moka_segments::rule::Rule;
use moka_segments::weigher::Weighing;
use moka_shard::rule::PairRule;
use moka_sync_model::weigh::WeighShared;

/// A value that names the key that it was inserted at. Its number says what it weighs.
#[derive(Clone, Copy, Debug, PartialEq, Eq)]
pub struct Stamp {
    pub key: u64,
    pub number: u32,
}

impl Stamp {
    /// From 0 to `HEAVIEST`.
    pub fn weight(&self) -> u32
        ensures { result ≡ self.now.number % (HEAVIEST + 1) }
    {
        self.number % (HEAVIEST + 1)
    }
}

/// The rule of the pairs of a soak: a value names its key.
#[derive(Drop)]
pub struct NamesItsKey;

impl PairRule<u64, Stamp> for NamesItsKey {
    ghost holds = { λ key stamp. stamp.key ≡ key };

    ghost agrees = { λ key other stamp same is. subst (λ k. stamp.key ≡ k) (eqb-true key other same) is };
}

impl Rule<u64, Stamp> for NamesItsKey {
    ghost rules = { record { holds = λ key stamp. stamp.key ≡ key; owns = λ by key. ⊤ } };

    ghost agree = { record {
      holds = λ key other stamp same is. subst (λ k. stamp.key ≡ k) (eqb-true key other same) is;
      owns = λ by key other same is. tt;
    } };
}

/// Weighs a value by its number, so that an insert at a known key changes the weight as a rule.
#[derive(Clone, Copy, Drop)]
pub struct ByNumber;

impl WeighShared<u64, Stamp> for ByNumber {
    ghost ready = { λ _. ⊤ };

    ghost weighs = { λ _ _ stamp weight. weight ≡ stamp.number % (HEAVIEST + 1) };

    fn weigh(&self, _key: &u64, stamp: &Stamp) -> u32 {
        stamp.weight()
    }
}

impl Weighing<u64, Stamp> for ByNumber {
    ghost ready = { λ _. ⊤ };

    ghost weighs = { λ old _ stamp weight new. (weight ≡ stamp.number % (HEAVIEST + 1)) × (new ≡ old) };

    fn weigh(&mut self, _key: &u64, stamp: &Stamp) -> u32 {
        stamp.weight()
    }
}
