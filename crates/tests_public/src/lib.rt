//! Tests through `mini_moka` alone: refused memory, failing streams, hostile callers, texts of errors, and the examples of the docs. Scripts with their
//! replies are rows of `tests_rows`.
#![tactic(auto)]

#[cfg(test)]
mod build;
#[cfg(test)]
mod errors;
#[cfg(test)]
mod examples;
#[cfg(test)]
mod hashers;
#[cfg(test)]
mod heap;
#[cfg(test)]
mod one_hash;
#[cfg(test)]
mod plays;
#[cfg(test)]
mod runs;
#[cfg(test)]
mod scripts;
#[cfg(test)]
mod steps;
#[cfg(test)]
mod streams;
#[cfg(test)]
mod threads;
