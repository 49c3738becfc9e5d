//! A row of values, each behind a lock that is a word of one table, with a history of each.
#![tactic(auto)]

pub mod row;
pub mod seats;
