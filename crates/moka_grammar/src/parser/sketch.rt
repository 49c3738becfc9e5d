// From the words of a line to what is asked of the sketch.
ghost use Rattle.std.specs.Prelude.{map};
ghost use Rattle.moka_grammar.specs.Reading.{Gives};
ghost use Rattle.moka_grammar.specs.ReadingLines.{sketch_from_words, inc_of, index_at_of};

use crate::line::SketchLine;
use crate::parser::from_words::FromWords;
use crate::words::{LineError, depth_of, no_argument, number_of, times_of, u32_of, u64_of};
use std::alloc::Allocator;

impl<A: Allocator + Clone + Drop> FromWords<A, ()> for SketchLine {
    ghost reading = { λ _. sketch_from_words };

    #[tactic(auto, unfolding(crate::specs::ReadingLines::sketch_from_words))]
    fn from_words(_alloc: A, _context: (), words: &[&[u8]]) -> Result<SketchLine, LineError> {
        let [name, arguments @ ..] = words else {
            return Err(LineError::Bad);
        };
        if *name == b"inc".as_slice() {
            return inc_of(arguments);
        }
        if *name == b"freq".as_slice() {
            let hash = u64_of(arguments)?;
            return Ok(SketchLine::Freq { hash });
        }
        if *name == b"index".as_slice() {
            return index_at_of(arguments);
        }
        if *name == b"len".as_slice() {
            no_argument(arguments)?;
            return Ok(SketchLine::Len);
        }
        if *name == b"ensure".as_slice() {
            let cap = u32_of(arguments)?;
            return Ok(SketchLine::Ensure { cap });
        }
        Err(LineError::Bad)
    }
}

#[tactic(auto, unfolding(crate::specs::ReadingLines::inc_of))]
fn inc_of(arguments: &[&[u8]]) -> Result<SketchLine, LineError>
    ensures { Gives result (inc_of (map (λ word. word.now) arguments.now)) }
{
    let [hash, times] = arguments else {
        return Err(LineError::Bad);
    };
    let hash = number_of(hash)?;
    let times = times_of(times)?;
    Ok(SketchLine::Inc { hash, times })
}

#[tactic(auto, unfolding(crate::specs::ReadingLines::index_at_of))]
fn index_at_of(arguments: &[&[u8]]) -> Result<SketchLine, LineError>
    ensures { Gives result (index_at_of (map (λ word. word.now) arguments.now)) }
{
    let [hash, depth] = arguments else {
        return Err(LineError::Bad);
    };
    let hash = number_of(hash)?;
    let depth = depth_of(depth)?;
    Ok(SketchLine::Index { hash, depth })
}
