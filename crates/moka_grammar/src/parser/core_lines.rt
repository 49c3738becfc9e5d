// From the words of a line to what is asked of a core, and its moment.
ghost use Rattle.std.specs.Prelude.{map};
ghost use Rattle.moka_grammar.specs.Reading.{Gives};
ghost use Rattle.moka_grammar.specs.ReadingCoreLines.{bare_of, caller_and_key_of, core_from_words, insert_of, request_of};

use crate::line::{CacheOptions, CoreLine, CoreRequest};
use crate::parser::from_words::FromWords;
use crate::parser::lines::weight_of;
use crate::text::Text;
use crate::words::{LineError, no_argument, number_of, small_number_of, text_of, u32_of, u64_of};
use std::alloc::Allocator;

impl<A: Allocator + Clone + Drop> FromWords<A, CacheOptions> for CoreLine<Text<A>> {
    ghost reading = { core_from_words };

    #[tactic(auto, unfolding(crate::specs::ReadingCoreLines::core_from_words))]
    fn from_words(
        alloc: A,
        context: CacheOptions,
        words: &[&[u8]],
    ) -> Result<CoreLine<Text<A>>, LineError> {
        let [now, call, arguments @ ..] = words else {
            return Err(LineError::Bad);
        };
        let now = number_of(now)?;
        let request = request_of(alloc, context, call, arguments)?;
        Ok(CoreLine { now, request })
    }
}

#[tactic(auto, unfolding(crate::specs::ReadingCoreLines::request_of))]
fn request_of<A: Allocator + Clone + Drop>(
    alloc: A,
    options: CacheOptions,
    call: &[u8],
    arguments: &[&[u8]],
) -> Result<CoreRequest<Text<A>>, LineError>
    ensures { Gives result (request_of options call.now (map (λ word. word.now) arguments.now)) }
{
    if call == b"insert".as_slice() {
        return insert_of(alloc, options, arguments);
    }
    if call == b"get".as_slice() {
        let (caller, key) = caller_and_key_of(arguments)?;
        return Ok(CoreRequest::Get { caller, key });
    }
    if call == b"has".as_slice() {
        let key = u64_of(arguments)?;
        return Ok(CoreRequest::ContainsKey { key });
    }
    if call == b"invalidate".as_slice() {
        let (caller, key) = caller_and_key_of(arguments)?;
        return Ok(CoreRequest::Invalidate { caller, key });
    }
    if call == b"remove".as_slice() {
        let (caller, key) = caller_and_key_of(arguments)?;
        return Ok(CoreRequest::Remove { caller, key });
    }
    if call == b"push".as_slice() {
        let caller = u32_of(arguments)?;
        return Ok(CoreRequest::Push { caller });
    }
    if call == b"forget".as_slice() {
        let caller = u32_of(arguments)?;
        return Ok(CoreRequest::Forget { caller });
    }
    bare_of(call, arguments)
}

/// Returns the request of this name, which takes no argument.
#[tactic(auto, unfolding(crate::specs::ReadingCoreLines::bare_of))]
fn bare_of<A: Allocator + Clone + Drop>(
    call: &[u8],
    arguments: &[&[u8]],
) -> Result<CoreRequest<Text<A>>, LineError>
    ensures { Gives result (bare_of call.now (map (λ word. word.now) arguments.now)) }
{
    no_argument(arguments)?;
    if call == b"clear".as_slice() {
        return Ok(CoreRequest::InvalidateAll);
    }
    if call == b"begin".as_slice() {
        return Ok(CoreRequest::Begin);
    }
    if call == b"turn".as_slice() {
        return Ok(CoreRequest::Turn);
    }
    if call == b"rest".as_slice() {
        return Ok(CoreRequest::Rest);
    }
    if call == b"sync".as_slice() {
        return Ok(CoreRequest::Sync);
    }
    if call == b"iter".as_slice() {
        return Ok(CoreRequest::Iter);
    }
    if call == b"count".as_slice() {
        return Ok(CoreRequest::EntryCount);
    }
    if call == b"weight".as_slice() {
        return Ok(CoreRequest::WeightedSize);
    }
    Err(LineError::Bad)
}

#[tactic(auto, unfolding(crate::specs::ReadingCoreLines::insert_of))]
fn insert_of<A: Allocator + Clone + Drop>(
    alloc: A,
    options: CacheOptions,
    arguments: &[&[u8]],
) -> Result<CoreRequest<Text<A>>, LineError>
    ensures { Gives result (insert_of options (map (λ word. word.now) arguments.now)) }
{
    let [caller, key, text, behind @ ..] = arguments else {
        return Err(LineError::Bad);
    };
    let caller = small_number_of(caller)?;
    let key = number_of(key)?;
    let (weight, behind) = weight_of(options, behind)?;
    no_argument(behind)?;
    let text = text_of(alloc, text)?;
    Ok(CoreRequest::Insert {
        caller,
        key,
        text,
        weight,
    })
}

/// Returns a caller, and the key behind it.
#[tactic(auto, unfolding(crate::specs::ReadingCoreLines::caller_and_key_of))]
fn caller_and_key_of(arguments: &[&[u8]]) -> Result<(u32, u64), LineError>
    ensures { Gives result (caller_and_key_of (map (λ word. word.now) arguments.now)) }
{
    let [caller, key] = arguments else {
        return Err(LineError::Bad);
    };
    let caller = small_number_of(caller)?;
    let key = number_of(key)?;
    Ok((caller, key))
}
