//! What the numbers of published counts mean.
ghost use Rattle.std.specs.Prelude.{◌≡◌, ◌≤◌, ◌+◌, ◌-◌, ◌^◌, ◌∷◌, ◌++◌, List, length, min};
ghost use Rattle.moka_sync_model.specs.declared.published.Published.{Published};
ghost use Rattle.moka_guards.specs.Log.{IsChain};

/// States that the number of published counts is how many publications there have been, theirs included, up to 2^64 - 1. The opening zeros have number 0.
pub fn numbers_count_publications()
    ensures { (newest : Published) (older : List Published) → IsChain (newest ∷ older) → newest.number ≡ min (length older) (2 ^ 64 - 1) }
{}

/// States that if counts have a number greater by `n` than counts seen before, at least `n` publications came after those, their own among them.
pub fn greater_numbers_are_later()
    ensures { (newest seen : Published) (newer older all : List Published) → newest ∷ all ≡ newer ++ seen ∷ older → IsChain (newest ∷ all)
        → IsChain (seen ∷ older) → newest.number ≤ seen.number + length newer }
{}
