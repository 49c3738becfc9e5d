// From the words of the first line to the settings of a cache.
ghost use Rattle.std.specs.Prelude.{◌≡◌, map, option_map};
ghost use Rattle.moka_grammar.specs.Reading.{Gives, GivesLeft, number_of};
ghost use Rattle.moka_grammar.specs.ReadingOptions.{front_of, span_of, option_of, flag_of, options_of};

use crate::line::{CacheOptions, Span};
use crate::words::{LineError, no_argument, number_of};

/// Returns the settings that all of the words spell, each at most once and in their order.
#[tactic(auto, unfolding(crate::specs::ReadingOptions::options_of))]
pub(super) fn options_of(arguments: &[&[u8]]) -> Result<CacheOptions, LineError>
    ensures { Gives result (options_of (map (λ word. word.now) arguments.now)) }
{
    let (max, arguments) = number_option(b"max", arguments)?;
    let (live, arguments) = span_option(b"live", arguments)?;
    let (idle, arguments) = span_option(b"idle", arguments)?;
    let (weighed, arguments) = flag_of(b"weighed", arguments);
    let (adaptive, arguments) = flag_of(b"adaptive", arguments);
    let (tickets, arguments) = number_option(b"tickets", arguments)?;
    no_argument(arguments)?;
    Ok(CacheOptions {
        max,
        live,
        idle,
        weighed,
        adaptive,
        tickets,
    })
}

/// Returns the number after this name, if the name comes first, and the words that are left.
#[tactic(auto, unfolding(crate::specs::ReadingOptions::option_of))]
fn number_option<'a>(
    name: &[u8],
    arguments: &'a [&'a [u8]],
) -> Result<(Option<u64>, &'a [&'a [u8]]), LineError>
    ensures { GivesLeft result (option_of name.now number_of (map (λ word. word.now) arguments.now)) }
{
    let [first, value, behind @ ..] = arguments else {
        return Ok((None, arguments));
    };
    if *first != name {
        return Ok((None, arguments));
    }
    let number = number_of(value)?;
    Ok((Some(number), behind))
}

/// Returns the span after this name, if the name comes first, and the words that are left.
#[tactic(auto, unfolding(crate::specs::ReadingOptions::option_of))]
pub(super) fn span_option<'a>(
    name: &[u8],
    arguments: &'a [&'a [u8]],
) -> Result<(Option<Span>, &'a [&'a [u8]]), LineError>
    ensures { GivesLeft result (option_of name.now span_of (map (λ word. word.now) arguments.now)) }
{
    let [first, value, behind @ ..] = arguments else {
        return Ok((None, arguments));
    };
    if *first != name {
        return Ok((None, arguments));
    }
    let span = span_of(value)?;
    Ok((Some(span), behind))
}

/// Returns whether this word comes first, and the words that are left.
#[tactic(auto, unfolding(crate::specs::ReadingOptions::flag_of))]
fn flag_of<'a>(name: &[u8], arguments: &'a [&'a [u8]]) -> (bool, &'a [&'a [u8]])
    ensures { (result.0, map (λ word. word.now) result.1.now) ≡ flag_of name.now (map (λ word. word.now) arguments.now) }
{
    let [word, behind @ ..] = arguments else {
        return (false, arguments);
    };
    if *word == name {
        return (true, behind);
    }
    (false, arguments)
}

/// Returns the span that a word spells: a number, and its unit at once after it.
#[tactic(auto, unfolding(crate::specs::ReadingOptions::span_of))]
fn span_of(word: &[u8]) -> Result<Span, LineError>
    ensures { Gives result (span_of word.now) }
{
    if let Some(count) = front_of(word, b"ns") {
        let count = number_of(count)?;
        return Ok(Span::Nanos(count));
    }
    if let Some(count) = front_of(word, b"s") {
        let count = number_of(count)?;
        return Ok(Span::Seconds(count));
    }
    Err(LineError::Bad)
}

/// Returns what is in front of this end of a word.
#[tactic(auto, unfolding(crate::specs::ReadingOptions::front_of))]
fn front_of<'a>(word: &'a [u8], end: &[u8]) -> Option<&'a [u8]>
    ensures { option_map (λ front. front.now) result ≡ front_of end.now word.now }
{
    word.strip_suffix(end)
}
