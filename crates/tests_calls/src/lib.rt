//! Tests of calls that no script makes, of both caches and of the core.
#![tactic(auto)]

#[cfg(test)]
mod adaptive;
#[cfg(test)]
mod chain;
#[cfg(test)]
mod core_hashes;
#[cfg(test)]
mod deadlines;
#[cfg(test)]
mod deque;
#[cfg(test)]
mod engine;
mod hashers;
#[cfg(test)]
mod housekeeper;
#[cfg(test)]
mod list;
#[cfg(test)]
mod listener;
#[cfg(test)]
mod probes;
#[cfg(test)]
mod shared;
#[cfg(test)]
mod shares;
#[cfg(test)]
mod sizes;
#[cfg(test)]
mod sketch;
#[cfg(test)]
mod unsync;
#[cfg(test)]
mod unsync_insert;
#[cfg(test)]
mod unsync_looks;
