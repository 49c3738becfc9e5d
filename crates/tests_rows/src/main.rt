//! Plays files of rows: scripts with the replies that they must get. Names each row whose replies differ, and the line.
//!
//! The arguments are the files. The status is 0 where every row has its replies, 1 where one hasn't, and 2 where a file or one of its lines can't be read.
#![tactic(auto)]

mod ending;
mod in_turn;
mod played;
mod row;
mod wanted;

use crate::played::Played;
use crate::row::blocks_of;
use anyhow::{Context, Result};
use std::alloc::Global;
use std::io::Eprint;
use std::process::ExitCode;
use std::rt::{Env, Files};
use std::sync::Wait;
use std::{env, fs};

/// Plays the rows of a file, and writes a line for it.
fn play_file<R: Files + AllocGlobal + Print + Eprint + Wait>(rt: &R, file: &str) -> Result<Played> {
    let text = fs::read_to_string(rt, file).context(format_args!("{file}"))?;
    let mut played = Played::default();
    for block in blocks_of(&text) {
        played.play_block(rt, rt.alloc(), file, block)?;
    }
    println!(rt; "{file}: {} rows, {} lines", played.rows, played.lines)?;
    Ok(played)
}

/// Plays the files, and writes a line for all of them. Answers how many rows differ.
fn play_files<R: Files + AllocGlobal + Print + Eprint + Wait + Env>(rt: &R) -> Result<u64> {
    let mut whole = Played::default();
    for file in env::args(rt)?.skip(1) {
        whole.add(play_file(rt, file.as_str())?);
    }
    println!(rt;
        "in all: {} rows, {} lines, {} rows that differ",
        whole.rows, whole.lines, whole.differ
    )?;
    Ok(whole.differ)
}

fn main(rt: HostRuntime) -> ExitCode {
    match play_files(&rt) {
        Ok(0) => ExitCode::SUCCESS,
        Ok(_) => ExitCode::from(1),
        Err(error) => {
            // Nobody is left to hear of a fault in telling of the fault.
            let _ = eprintln!(rt; "{error:#}");
            ExitCode::from(2)
        }
    }
}
