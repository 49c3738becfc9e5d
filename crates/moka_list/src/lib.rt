//! Lists whose nodes have ids, with links apart from their elements, and an index from hashes to ids.
#![tactic(auto)]

pub mod chain;
pub mod constants;
pub mod group;
pub mod growing_index;
pub mod hash_index;
pub mod indexed_list;
pub mod indexing;
mod table;
