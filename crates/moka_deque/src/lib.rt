//! The public list: nodes of their own with raw links, ids for names, and a cursor.
#![tactic(auto)]

pub mod deque;
mod raw;
