// From the words of the first line to a header.
ghost use Rattle.std.specs.Prelude.{map};
ghost use Rattle.moka_grammar.specs.Reading.{Gives};
ghost use Rattle.moka_grammar.specs.ReadingLines.{cache_header_of, header_from_words, mode_of};

use crate::line::{CacheHeader, Header, Mode};
use crate::parser::from_words::FromWords;
use crate::parser::options::options_of;
use crate::words::{LineError, u32_of};
use std::alloc::Allocator;

impl<A: Allocator + Clone + Drop> FromWords<A, ()> for Header {
    ghost reading = { λ _. header_from_words };

    #[tactic(auto, unfolding(crate::specs::ReadingLines::header_from_words))]
    fn from_words(_alloc: A, _context: (), words: &[&[u8]]) -> Result<Header, LineError> {
        let [name, arguments @ ..] = words else {
            return Err(LineError::Bad);
        };
        if *name == b"sketch".as_slice() {
            let cap = u32_of(arguments)?;
            return Ok(Header::Sketch { cap });
        }
        if *name == b"core".as_slice() {
            let options = options_of(arguments)?;
            if options.adaptive {
                return Err(LineError::Bad);
            }
            return Ok(Header::Core(options));
        }
        let mode = mode_of(name)?;
        cache_header_of(mode, arguments)
    }
}

/// Returns the mode of this name.
#[tactic(auto, unfolding(crate::specs::ReadingLines::mode_of))]
fn mode_of(name: &[u8]) -> Result<Mode, LineError>
    ensures { Gives result (mode_of name.now) }
{
    if name == b"recorded".as_slice() {
        return Ok(Mode::Recorded);
    }
    if name == b"sync".as_slice() {
        return Ok(Mode::Sync);
    }
    if name == b"unsync".as_slice() {
        return Ok(Mode::Unsync);
    }
    Err(LineError::Bad)
}

/// Returns the header of a script of calls to a cache of this mode.
#[tactic(auto, unfolding(crate::specs::ReadingLines::cache_header_of))]
fn cache_header_of(mode: Mode, arguments: &[&[u8]]) -> Result<Header, LineError>
    ensures { Gives result (cache_header_of mode (map (λ word. word.now) arguments.now)) }
{
    let options = options_of(arguments)?;
    if !mode.can_have(options) {
        return Err(LineError::Bad);
    }
    Ok(Header::Cache(CacheHeader { mode, options }))
}
