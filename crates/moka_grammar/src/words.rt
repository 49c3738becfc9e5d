// The words of a line, and what each can be read as.
ghost use Rattle.std.specs.Prelude.{◌≡◌, ◌==◌, ◌^◌, map, IfOk};
ghost use Rattle.std.specs.Char.{is_ascii_digit};
ghost use Rattle.std.specs.List.{list_all, slice_split};
ghost use Rattle.moka_common.specs.declared.constants.TheConstants.{DEPTHS};
ghost use Rattle.moka_grammar.specs.Spelling.{space};
ghost use Rattle.moka_grammar.specs.Reading.{Gives, number_of, number_below, text_of, has_leading_zero, no_argument, u64_of, u32_of};
ghost use Rattle.moka_grammar.specs.declared.words.LineError.TheVariants as line_error;

use crate::text::{Text, is_text};
use moka_common::constants::DEPTHS;
use std::alloc::{AllocError, Allocator};

/// Why a line isn't read.
#[derive(Clone, Copy, Debug, PartialEq, Eq)]
pub enum LineError {
    Bad,
    OutOfMemory,
}

impl From<AllocError> for LineError {
    ghost from_gives = { λ _ error. error ≡ line_error.OutOfMemory };

    fn from(_error: AllocError) -> LineError {
        LineError::OutOfMemory
    }
}

/// Returns the words of a line, between its spaces.
pub fn words_of<A: Allocator + Clone + Drop>(
    alloc: A,
    line: &[u8],
) -> Result<Vec<&[u8], A>, AllocError>
    ensures { IfOk result (λ words.
        map (λ word. word.now) words.items ≡ slice_split (λ b. b == space) line.now) }
{
    line.split(|byte| *byte == b' ').collect(alloc)
}

fn has_leading_zero(word: &[u8]) -> bool
    ensures { result ≡ has_leading_zero word.now }
{
    word.len() > 1 && word[0] == b'0'
}

fn is_digits(word: &[u8]) -> bool
    ensures { result ≡ list_all is_ascii_digit word.now }
{
    word.iter().all(|byte| byte.is_ascii_digit())
}

/// Returns the number that a word spells. A sign or a leading zero, which `parse` accepts, is refused here.
#[tactic(auto, unfolding(crate::specs::Reading::number_of))]
pub fn number_of(word: &[u8]) -> Result<u64, LineError>
    ensures { Gives result (number_of word.now) }
{
    if has_leading_zero(word) {
        return Err(LineError::Bad);
    }
    if !is_digits(word) {
        return Err(LineError::Bad);
    }
    let Ok(digits) = std::str::from_utf8(word) else {
        return Err(LineError::Bad);
    };
    match digits.parse::<u64>() {
        Ok(number) => Ok(number),
        Err(_) => Err(LineError::Bad),
    }
}

/// Returns the text that a word spells.
pub fn text_of<A: Allocator + Clone + Drop>(alloc: A, word: &[u8]) -> Result<Text<A>, LineError>
    ensures { Gives result (text_of word.now) }
{
    if !is_text(word) {
        return Err(LineError::Bad);
    }
    Ok(Text::new(alloc, word)?)
}

/// Returns the number of 32 bits that a word spells.
#[tactic(auto, unfolding(crate::specs::Reading::number_below))]
pub fn small_number_of(word: &[u8]) -> Result<u32, LineError>
    ensures { Gives result (number_below (2 ^ 32) word.now) }
{
    let number = number_of(word)?;
    let Ok(number) = u32::try_from(number) else {
        return Err(LineError::Bad);
    };
    Ok(number)
}

/// Returns the number that a word spells, as how many times a hash is counted.
#[tactic(auto, unfolding(crate::specs::Reading::number_below))]
pub fn times_of(word: &[u8]) -> Result<u16, LineError>
    ensures { Gives result (number_below (2 ^ 16) word.now) }
{
    let number = number_of(word)?;
    let Ok(times) = u16::try_from(number) else {
        return Err(LineError::Bad);
    };
    Ok(times)
}

/// Returns the number that a word spells, as a depth of the sketch.
#[tactic(auto, unfolding(crate::specs::Reading::number_below))]
pub fn depth_of(word: &[u8]) -> Result<u8, LineError>
    ensures { Gives result (number_below DEPTHS word.now) }
{
    let depth = number_of(word)?;
    if depth < DEPTHS as u64 {
        return Ok(depth as u8);
    }
    Err(LineError::Bad)
}

/// Refuses a call that is given an argument.
#[tactic(auto, unfolding(crate::specs::Reading::no_argument))]
pub fn no_argument(arguments: &[&[u8]]) -> Result<(), LineError>
    ensures { Gives result (no_argument (map (λ word. word.now) arguments.now)) }
{
    if arguments.is_empty() {
        return Ok(());
    }
    Err(LineError::Bad)
}

/// Returns the only argument, a number of 64 bits.
#[tactic(auto, unfolding(crate::specs::Reading::u64_of))]
pub fn u64_of(arguments: &[&[u8]]) -> Result<u64, LineError>
    ensures { Gives result (u64_of (map (λ word. word.now) arguments.now)) }
{
    let [word] = arguments else {
        return Err(LineError::Bad);
    };
    number_of(word)
}

/// Returns the only argument, a number of 32 bits.
#[tactic(auto, unfolding(crate::specs::Reading::u32_of))]
pub fn u32_of(arguments: &[&[u8]]) -> Result<u32, LineError>
    ensures { Gives result (u32_of (map (λ word. word.now) arguments.now)) }
{
    let [word] = arguments else {
        return Err(LineError::Bad);
    };
    small_number_of(word)
}
