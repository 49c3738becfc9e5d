//! The laws of the crate's definitions, one a function. A law is its function's clause: there is no code to call.
ghost use Rattle.std.specs.Prelude.{◌≡◌};
ghost use Rattle.moka_common.specs.declared.constants.TheConstants.{COUNTERS_PER_WORD, COUNTER_BITS, DEPTHS, LONGEST_DURATION_SECS, MAX_FREQUENCY};
ghost use Rattle.moka_common.specs.declared.constants.TheConstants.{MAX_SAMPLE_SIZE, MAX_TABLE_LEN, MIN_SKETCH_CAPACITY, SAMPLE_FACTOR, UNIT_WEIGHT};
ghost use Rattle.moka_common.specs.Laws.{AgingHalvesSizes, BoundsEstimates, CountingKeepsSketches, CountingKeepsTrueCounts};
ghost use Rattle.moka_common.specs.Laws.{FindsNextPower, GrowingKeepsSketches, GrowingKeepsTrueCounts, ResiduesAreApart};

/// No estimate is above what four bits hold.
pub fn estimates_are_bounded()
    ensures { BoundsEstimates }
{}

/// Counting keeps what holds of every sketch, so a table's size is below its sample in any state that calls reach.
pub fn counting_keeps_sketches()
    ensures { CountingKeepsSketches }
{}

/// Asking for a table keeps what holds of every sketch.
pub fn growing_keeps_sketches()
    ensures { GrowingKeepsSketches }
{}

/// A sketch never counts too little: a hash's true count that is at most its estimate is so again once any hash is counted.
pub fn counting_keeps_true_counts()
    ensures { CountingKeepsTrueCounts }
{}

/// Asking for a table keeps true counts: in a new one nothing is counted yet.
pub fn growing_keeps_true_counts()
    ensures { GrowingKeepsTrueCounts }
{}

/// Aging leaves a size of at most half of the sample, rounded down, so the next aging is that far off.
pub fn aging_halves_sizes()
    ensures { AgingHalvesSizes }
{}

/// Two hashes that differ modulo 4 share no counter, whatever the table.
pub fn residues_are_apart()
    ensures { ResiduesAreApart }
{}

/// The next power of two is the least that is at least the number.
pub fn next_powers_are_least()
    ensures { FindsNextPower }
{}

/// The numbers of the sketch by their digits: definitions name the constants.
pub fn numbers_of_the_sketch()
    ensures counters { (COUNTER_BITS ≡ 4) × (COUNTERS_PER_WORD ≡ 16) × (DEPTHS ≡ 4) }
    ensures frequency { MAX_FREQUENCY ≡ 15 }
    ensures table { (MIN_SKETCH_CAPACITY ≡ 128) × (MAX_TABLE_LEN ≡ 1073741824) }
    ensures sample { (SAMPLE_FACTOR ≡ 10) × (MAX_SAMPLE_SIZE ≡ 2147483647) }
{}

/// The longest duration that a builder accepts, in seconds.
pub fn durations_are_of_1000_years_at_most()
    ensures { LONGEST_DURATION_SECS ≡ 31536000000 }
{}

/// The weight of an entry without a weigher.
pub fn the_unit_weight_is_one()
    ensures { UNIT_WEIGHT ≡ 1 }
{}
