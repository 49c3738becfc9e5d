// A handle: what C keeps of a cache between its calls. The handle lies in C's memory, and the cache in a box in the library's. Raw pointers are only here
// and in `handle/raw_box.rt`.
//
// | Value | Owns |
// |---|---|
// | `AnyCache` | the cache |
// | `RawBox` | what a box owns: the value at its pointer, and the right to free the block |
// | `Handle`, open | the same, at `AnyCache` |
// | `Handle`, closed | nothing, whatever its pointer is, so a handle of zeros is closed |
//
// Six functions are proved by hand, and that a handle is `Send`. All others are ordinary code over them.
//
// | Function | Does |
// |---|---|
// | `Handle::closed`, `open` | make a handle |
// | `Handle::kept` | lends what an open handle keeps: a call reaches the cache by it, or by `bytes` or `numbers` over it |
// | `Handle::into_raw` | takes a handle apart, for `take` and `put`, by which a handle is closed and opened |
// | `RawBox::of`, `into_box` | take a box apart, and put it together again |

ghost use Rattle.std.specs.Prelude.{◌≡◌, IfErr, IfOk};
ghost use Rattle.std.specs.Option.{MatchOption};
ghost use Rattle.std.specs.declared.option.Option.{Option};
ghost use Rattle.std.specs.declared.option.Option.TheVariants.{None, Some};
ghost use Rattle.std.specs.Borrow.{sem};
ghost use Rattle.std.specs.Box.Ownership.{box_owns};
ghost use Rattle.std.specs.contracts.impls.GlobalAllocator.TheImpl.{ghosts};
ghost use Rattle.mini_moka_c.specs.declared.handle.AnyCache.{AnyCache};
ghost use Rattle.mini_moka_c.specs.contracts.handle.AnyCache.{the_row};
ghost use Rattle.mini_moka_c.specs.Held.{held};

mod raw_box;

use crate::cache::ByteCache;
use crate::constants::{CLOSED, OTHER_KIND};
use crate::number_cache::NumberCache;
use crate::statistics::Report;
use moka_common::time::Instant;
use raw_box::RawBox;
use std::alloc::Global;
use std::marker::Model;
use std::mem::replace;
use std::ptr::null_mut;

/// The cache of a handle: of numbers, or of bytes.
#[derive(Drop)]
pub enum AnyCache {
    Numbers(NumberCache),
    Bytes(ByteCache),
}

impl AnyCache {
    ghost use Rattle.mini_moka_c.specs.Calls.{IsEmptied, IsSwept, count_of, statistics_of, walking, weight_of, window_of};

    /// Removes all entries.
    pub(crate) fn invalidate_all(&mut self)
        ensures { IsEmptied self.old self.new }
    {
        match self {
            AnyCache::Numbers(numbers) => numbers.invalidate_all(),
            AnyCache::Bytes(bytes) => bytes.invalidate_all(),
        }
    }

    /// Removes all expired entries.
    pub(crate) fn remove_expired(&mut self, now: Instant)
        ensures { IsSwept now self.old self.new }
    {
        match self {
            AnyCache::Numbers(numbers) => numbers.remove_expired(now),
            AnyCache::Bytes(bytes) => bytes.remove_expired(now),
        }
    }

    /// Counts the entries.
    pub(crate) fn entry_count(&self) -> u64
        ensures { result ≡ count_of self.now }
    {
        match self {
            AnyCache::Numbers(numbers) => numbers.cache.entry_count(),
            AnyCache::Bytes(bytes) => bytes.cache.entry_count(),
        }
    }

    /// Sums the weights of the entries.
    pub(crate) fn weighted_size(&self) -> u64
        ensures { result ≡ weight_of self.now }
    {
        match self {
            AnyCache::Numbers(numbers) => numbers.cache.weighted_size(),
            AnyCache::Bytes(bytes) => bytes.cache.weighted_size(),
        }
    }

    /// Returns the weight that the window may have now.
    pub(crate) fn window_limit(&self) -> u64
        ensures { result ≡ window_of self.now }
    {
        match self {
            AnyCache::Numbers(numbers) => numbers.cache.window_limit(),
            AnyCache::Bytes(bytes) => bytes.cache.window_limit(),
        }
    }

    /// Begins a walk through the unexpired entries.
    pub(crate) fn begin_walk(&mut self)
        ensures { self.new ≡ walking self.old }
    {
        match self {
            AnyCache::Numbers(numbers) => numbers.begin_walk(),
            AnyCache::Bytes(bytes) => bytes.begin_walk(),
        }
    }

    /// Returns what the calls have met, and how many entries the queue has lost.
    pub(crate) fn statistics(&self) -> Report
        ensures { result ≡ statistics_of self.now }
    {
        match self {
            AnyCache::Numbers(numbers) => numbers.leaving.report(),
            AnyCache::Bytes(bytes) => bytes.leaving.report(),
        }
    }
}

/// A handle on a cache, or on none. C sets it to zeros at first, and then only passes it on: it neither changes nor copies it.
///
/// The pointer has the type of bytes, since a type with a map inside doesn't cross to C.
#[repr(C)]
pub struct Handle {
    at: *mut u8,
    is_open: bool,
    alloc: Global,
    pub ghost value: { Option AnyCache },
}

impl Model for Handle {
    ghost also_owns = { λ h. held h.is_open h.value (box_owns (ghosts.dealloc_token h.alloc) the_row h.at) };
}

impl Handle {
    ghost use Rattle.mini_moka_c.specs.HandleLends.{KeepsNoBytes, KeepsNoNumbers, lends_bytes, lends_kept, lends_numbers};

    /// Makes a closed handle.
    pub fn closed(alloc: Global) -> Handle
        ensures { result.value ≡ None }
    {
        Handle {
            at: null_mut(),
            is_open: false,
            alloc,
        }
    }

    /// Makes an open handle, which keeps what is in the box.
    pub(crate) fn open(raw_box: RawBox<AnyCache, Global>) -> Handle
        ensures { result.value ≡ Some raw_box.value }
    {
        let RawBox { at, alloc } = raw_box;
        Handle {
            at: at as *mut u8,
            is_open: true,
            alloc,
        }
    }

    /// Takes the handle apart, and returns the box of an open one.
    pub(crate) fn into_raw(self) -> Option<RawBox<AnyCache, Global>>
        ensures { MatchOption result (self.value ≡ None) (λ raw_box. self.value ≡ Some raw_box.value) }
    {
        let Handle { at, is_open, alloc } = self;
        if is_open {
            Some(RawBox {
                at: at as *mut AnyCache,
                alloc,
            })
        } else {
            None
        }
    }

    /// Lends what an open handle keeps.
    pub(crate) fn kept(&mut self) -> Option<&mut AnyCache>
        ensures* writes_back { sem 𝓛 (lends_kept self.entry result) }
        ensures value { MatchOption result (self.old.value ≡ None) (λ kept. self.old.value ≡ Some kept.now) }
    {
        if self.is_open {
            Some(unsafe { &mut *(self.at as *mut AnyCache) })
        } else {
            None
        }
    }

    /// Lends the cache of bytes. The error is the status of a call on a handle without one: `CLOSED` or `OTHER_KIND`.
    pub(crate) fn bytes(&mut self) -> Result<&mut ByteCache, u32>
        ensures* writes_back { sem 𝓛 (lends_bytes self.entry result) }
        ensures ok { IfOk result (λ bytes. self.old.value ≡ Some (AnyCache.Bytes bytes.now)) }
        ensures err { IfErr result (KeepsNoBytes self.old.value) }
    {
        match self.kept() {
            Some(AnyCache::Bytes(bytes)) => Ok(bytes),
            Some(AnyCache::Numbers(_)) => Err(OTHER_KIND),
            None => Err(CLOSED),
        }
    }

    /// Lends the cache of numbers. The error is the status of a call on a handle without one: `CLOSED` or `OTHER_KIND`.
    pub(crate) fn numbers(&mut self) -> Result<&mut NumberCache, u32>
        ensures* writes_back { sem 𝓛 (lends_numbers self.entry result) }
        ensures ok { IfOk result (λ numbers. self.old.value ≡ Some (AnyCache.Numbers numbers.now)) }
        ensures err { IfErr result (KeepsNoNumbers self.old.value) }
    {
        match self.kept() {
            Some(AnyCache::Numbers(numbers)) => Ok(numbers),
            Some(AnyCache::Bytes(_)) => Err(OTHER_KIND),
            None => Err(CLOSED),
        }
    }

    /// Closes the handle, and returns what it kept.
    pub(crate) fn take(&mut self, alloc: Global) -> Option<Box<AnyCache>>
        ensures left { self.new.value ≡ None }
        ensures taken { MatchOption result (self.old.value ≡ None) (λ kept. self.old.value ≡ Some kept.value) }
    {
        match replace(self, Handle::closed(alloc)).into_raw() {
            Some(raw_box) => Some(raw_box.into_box()),
            None => None,
        }
    }

    /// Opens the handle with `kept`, and drops what it kept before.
    pub(crate) fn put(&mut self, kept: Box<AnyCache>)
        ensures { self.new.value ≡ Some kept.value }
    {
        if let Some(raw_box) = replace(self, Handle::open(RawBox::of(kept))).into_raw() {
            let _before = raw_box.into_box();
        }
    }
}

/// A handle may go from thread to thread, one call at a time: what it keeps may, and any thread may free the box.
unsafe impl Send for Handle {}
