// From the words of a line to a request to a cache, and its moment.
ghost use Rattle.std.specs.Prelude.{map};
ghost use Rattle.moka_grammar.specs.Reading.{Gives, GivesLeft};
ghost use Rattle.moka_grammar.specs.ReadingLines.{weight_of, insert_of, modify_of, invalidate_if_of, bare_of, request_of, line_from_words};

use crate::line::{CacheHeader, CacheOptions, Line, Request};
use crate::parser::from_words::FromWords;
use crate::parser::options::span_option;
use crate::text::Text;
use crate::words::{LineError, no_argument, number_of, small_number_of, text_of, u64_of};
use std::alloc::Allocator;

impl<A: Allocator + Clone + Drop> FromWords<A, CacheHeader> for Line<Text<A>> {
    ghost reading = { line_from_words };

    #[tactic(auto, unfolding(crate::specs::ReadingLines::line_from_words))]
    fn from_words(
        alloc: A,
        context: CacheHeader,
        words: &[&[u8]],
    ) -> Result<Line<Text<A>>, LineError> {
        let [now, call, arguments @ ..] = words else {
            return Err(LineError::Bad);
        };
        let now = number_of(now)?;
        let request = request_of(alloc, context.options, call, arguments)?;
        if !context.mode.allows(&request) {
            return Err(LineError::Bad);
        }
        Ok(Line { now, request })
    }
}

#[tactic(auto, unfolding(crate::specs::ReadingLines::request_of))]
fn request_of<A: Allocator + Clone + Drop>(
    alloc: A,
    options: CacheOptions,
    call: &[u8],
    arguments: &[&[u8]],
) -> Result<Request<Text<A>>, LineError>
    ensures { Gives result (request_of options call.now (map (λ word. word.now) arguments.now)) }
{
    if call == b"insert".as_slice() {
        return insert_of(alloc, options, arguments);
    }
    if call == b"get".as_slice() {
        let key = u64_of(arguments)?;
        return Ok(Request::Get { key });
    }
    if call == b"has".as_slice() {
        let key = u64_of(arguments)?;
        return Ok(Request::ContainsKey { key });
    }
    if call == b"invalidate".as_slice() {
        let key = u64_of(arguments)?;
        return Ok(Request::Invalidate { key });
    }
    if call == b"remove".as_slice() {
        let key = u64_of(arguments)?;
        return Ok(Request::Remove { key });
    }
    if call == b"modify".as_slice() {
        return modify_of(alloc, options, arguments);
    }
    if call == b"drop-if".as_slice() {
        return invalidate_if_of(alloc, arguments);
    }
    bare_of(call, arguments)
}

/// Returns the request of this name, which takes no argument.
#[tactic(auto, unfolding(crate::specs::ReadingLines::bare_of))]
fn bare_of<A: Allocator + Clone + Drop>(
    call: &[u8],
    arguments: &[&[u8]],
) -> Result<Request<Text<A>>, LineError>
    ensures { Gives result (bare_of call.now (map (λ word. word.now) arguments.now)) }
{
    no_argument(arguments)?;
    if call == b"clear".as_slice() {
        return Ok(Request::InvalidateAll);
    }
    if call == b"expire".as_slice() {
        return Ok(Request::RemoveExpired);
    }
    if call == b"sync".as_slice() {
        return Ok(Request::Sync);
    }
    if call == b"iter".as_slice() {
        return Ok(Request::Iter);
    }
    if call == b"count".as_slice() {
        return Ok(Request::EntryCount);
    }
    if call == b"weight".as_slice() {
        return Ok(Request::WeightedSize);
    }
    if call == b"policy".as_slice() {
        return Ok(Request::Policy);
    }
    Err(LineError::Bad)
}

#[tactic(auto, unfolding(crate::specs::ReadingLines::insert_of))]
fn insert_of<A: Allocator + Clone + Drop>(
    alloc: A,
    options: CacheOptions,
    arguments: &[&[u8]],
) -> Result<Request<Text<A>>, LineError>
    ensures { Gives result (insert_of options (map (λ word. word.now) arguments.now)) }
{
    let [key, text, behind @ ..] = arguments else {
        return Err(LineError::Bad);
    };
    let key = number_of(key)?;
    let (weight, behind) = weight_of(options, behind)?;
    let (live, behind) = span_option(b"live", behind)?;
    no_argument(behind)?;
    let text = text_of(alloc, text)?;
    Ok(Request::Insert {
        key,
        text,
        weight,
        live,
    })
}

#[tactic(auto, unfolding(crate::specs::ReadingLines::modify_of))]
fn modify_of<A: Allocator + Clone + Drop>(
    alloc: A,
    options: CacheOptions,
    arguments: &[&[u8]],
) -> Result<Request<Text<A>>, LineError>
    ensures { Gives result (modify_of options (map (λ word. word.now) arguments.now)) }
{
    let [key, text, behind @ ..] = arguments else {
        return Err(LineError::Bad);
    };
    let key = number_of(key)?;
    let (weight, behind) = weight_of(options, behind)?;
    no_argument(behind)?;
    let text = text_of(alloc, text)?;
    Ok(Request::Modify { key, text, weight })
}

#[tactic(auto, unfolding(crate::specs::ReadingLines::invalidate_if_of))]
fn invalidate_if_of<A: Allocator + Clone + Drop>(
    alloc: A,
    arguments: &[&[u8]],
) -> Result<Request<Text<A>>, LineError>
    ensures { Gives result (invalidate_if_of (map (λ word. word.now) arguments.now)) }
{
    let [text] = arguments else {
        return Err(LineError::Bad);
    };
    let text = text_of(alloc, text)?;
    Ok(Request::InvalidateIf { text })
}

/// Returns the weight that comes first, if inserts have one, and the words that are left.
#[tactic(auto, unfolding(crate::specs::ReadingLines::weight_of))]
pub(super) fn weight_of<'a>(
    options: CacheOptions,
    arguments: &'a [&'a [u8]],
) -> Result<(Option<u32>, &'a [&'a [u8]]), LineError>
    ensures { GivesLeft result (weight_of options.weighed (map (λ word. word.now) arguments.now)) }
{
    if !options.weighed {
        return Ok((None, arguments));
    }
    let [weight, behind @ ..] = arguments else {
        return Err(LineError::Bad);
    };
    let weight = small_number_of(weight)?;
    Ok((Some(weight), behind))
}
