// What the words of a line can be read as.
ghost use Rattle.std.specs.Prelude.{ℕ, List, Option, map};
ghost use Rattle.moka_grammar.specs.Reading.{Gives};

use crate::words::LineError;
use std::alloc::Allocator;

/// One kind of lines: headers, or the lines of a mode. `C` is what the header says of them.
pub(crate) trait FromWords<A: Allocator + Clone + Drop, C: Copy>: Drop {
    // What words are read as.
    ghost reading: { C → List (List ℕ) → Option Self };

    /// Returns the line of these words.
    fn from_words(alloc: A, context: C, words: &[&[u8]]) -> Result<Self, LineError>
        ensures { Gives result (reading context (map (λ word. word.now) words.now)) };
}
