//! The grammar of scripts: which bytes are a script and what its lines ask; and streams of bytes whose refusals a contract can name.
#![tactic(auto)]

pub mod laws;
pub mod line;
pub mod parser;
pub mod reason;
pub mod streams;
pub mod text;
mod words;
