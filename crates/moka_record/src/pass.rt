//! What a caller of a recording cache has: the right to make calls, and the number of those that it has made.
ghost use Rattle.std.specs.Prelude.{◌≡◌, IfOk, IfSome};
ghost use Rattle.moka_record.specs.Passes.{made_by, new_passes};

use moka_common::error::OutOfMemory;
use std::alloc::Allocator;
use thiserror::Error;

/// A caller's place at a recording cache, with the number of calls that it has made there. Only a cache that is opened gives passes.
#[derive(Debug, PartialEq, Eq, Drop)]
pub struct CallPass {
    pub(crate) place: usize,
    pub(crate) made: u64,
}

impl CallPass {
    /// Returns the number of its calls.
    pub fn made(&self) -> u64
        ensures { result ≡ self.now.made }
    {
        self.made
    }
}

/// Why a recording cache that is closed gives no record.
#[derive(Clone, Copy, Debug, PartialEq, Eq, Error)]
pub enum CloseError {
    /// The pass of a place isn't there.
    #[error("a pass is missing")]
    PassMissing,
    /// All places are there, but a pass comes twice, or is of another cache.
    #[error("a pass is strange")]
    StrangePass,
}

/// Makes passes of the places from 0 on, which have made no call.
pub(crate) fn new_passes<A: Allocator>(
    alloc: A,
    places: usize,
) -> Result<Vec<CallPass, A>, OutOfMemory>
    ensures { IfOk result (λ passes. passes.items ≡ new_passes places) }
{
    let mut passes = Vec::with_capacity(alloc, places)?;
    for place in 0..places {
        passes.push(CallPass { place, made: 0 })?;
    }
    Ok(passes)
}

/// Returns `true` if the passes of all places below this one are there.
pub(crate) fn have_all_places(passes: &[CallPass], places: usize) -> bool {
    for place in 0..places {
        if !has_place(passes, place) {
            return false;
        }
    }
    true
}

/// Returns `true` if the pass of a place is there.
fn has_place(passes: &[CallPass], place: usize) -> bool {
    for pass in passes {
        if pass.place == place {
            return true;
        }
    }
    false
}

/// Returns the number of calls that they have made together, if 64 bits hold it.
pub(crate) fn made_by(passes: &[CallPass]) -> Option<u64>
    ensures { IfSome result (λ made. made ≡ made_by passes.now) }
{
    let mut made = 0u64;
    for pass in passes {
        made = made.checked_add(pass.made)?;
    }
    Some(made)
}
