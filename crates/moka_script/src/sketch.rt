//! The replies to a sketch script: its calls, made on a frequency sketch that begins with a table.
ghost use Rattle.std.specs.Prelude.{◌≡◌, ◌<◌, Bool, IfOk};
ghost use Rattle.std.specs.Fn.{iterate};
ghost use Rattle.std.specs.List.{AllByRecursion};
ghost use Rattle.moka_common.specs.Sketch.{after_increment};
ghost use Rattle.moka_common.specs.SketchCapacity.{table_len};
ghost use Rattle.moka_grammar.specs.SketchLines.{SketchFits};
ghost use Rattle.moka_script.specs.ReplyValue.{reply_of};
ghost use Rattle.moka_script.specs.SketchRun.{AreSketchReplyLines, after_sketch_line, sketch_reply};

use crate::reply::{ReplyValue, push_reply};
use moka_common::error::OutOfMemory;
use moka_common::frequency_sketch::FrequencySketch;
use moka_grammar::line::SketchLine;
use std::alloc::Allocator;

/// Makes the calls of the lines in turn on a sketch with a table for this capacity, and writes the replies.
pub fn sketch_replies<A: Allocator + Clone + Drop>(
    alloc: A,
    cap: u32,
    lines: Vec<SketchLine, A>,
) -> Result<Vec<u8, A>, OutOfMemory>
    requires { AllByRecursion SketchFits lines.items }
    ensures { IfOk result (λ text. AreSketchReplyLines cap lines.items text.items) }
{
    let mut sketch = FrequencySketch::default(alloc.clone()?);
    sketch.ensure_capacity(cap)?;
    let mut text = Vec::new(alloc);
    push_reply(&mut text, ReplyValue::Ready)?;
    for line in lines {
        let reply = reply_to(&mut sketch, line);
        push_reply(&mut text, reply)?;
    }
    Ok(text)
}

/// Makes the call of a line. There is a table before it and after it.
fn reply_to<A: Allocator + Clone + Drop>(
    sketch: &mut FrequencySketch<A>,
    line: SketchLine,
) -> ReplyValue<'static>
    requires table { 0 < table_len sketch.old }
    requires fits { SketchFits line }
    ensures step { (refused : Bool) × (reply_of result ≡ sketch_reply sketch.old line refused)
        × (sketch.new ≡ after_sketch_line sketch.old line refused) }
    ensures table { 0 < table_len sketch.new }
{
    match line {
        SketchLine::Inc { hash, times } => {
            count(sketch, hash, times);
            ReplyValue::Done
        }
        SketchLine::Freq { hash } => ReplyValue::Number(u128::from(sketch.frequency(hash))),
        SketchLine::Index { hash, depth } => {
            ReplyValue::Number(sketch.index_of(hash, depth) as u128)
        }
        SketchLine::Len => ReplyValue::Number(sketch.table_len() as u128),
        SketchLine::Ensure { cap } => match sketch.ensure_capacity(cap) {
            Ok(()) => ReplyValue::Done,
            Err(_) => ReplyValue::OutOfMemory,
        },
    }
}

/// Counts the hash `times` times.
fn count<A: Allocator + Clone + Drop>(sketch: &mut FrequencySketch<A>, hash: u64, times: u16)
    ensures step { sketch.new ≡ iterate (λ s. after_increment s hash) times sketch.old }
    ensures table { table_len sketch.new ≡ table_len sketch.old }
{
    for _ in 0..times {
        sketch.increment(hash);
    }
}
