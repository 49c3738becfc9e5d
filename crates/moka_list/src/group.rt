// A group of slots for ids, and where a hash belongs.
ghost use Rattle.std.specs.Prelude.{◌≡◌, ◌<◌, ◌≤◌, false, min, IfNone, IfSome};
ghost use Rattle.moka_list.specs.HashIndex.{after, groups_of, home_group, slots_of, slots_with, tag_of};
ghost use Rattle.moka_list.specs.Probed.{FREE, HasAt, is_among, with_id, without};
ghost use Rattle.moka_list.specs.declared.constants.TheConstants.{FAR, MAX_IDS, SLOTS};

use crate::constants::{FAR, SHARE, SLOTS, SPREAD};
use std::simd::prelude::*;

/// Ten slots for ids, in 64 bytes.
#[derive(Clone, Copy, Drop)]
pub struct Group {
    /// The tag of each slot, or 0 if it is free, and then the distance of each. A distance is the number of groups from an id's home to this one, or `FAR`.
    pub(crate) marks: [u8; 20],
    /// The number of ids that passed this full group on the way from their home. An id `FAR` groups from its home isn't counted.
    pub(crate) passed: u32,
    pub(crate) ids: [u32; 10],
}

impl Group {
    /// Makes a group without ids.
    pub(crate) fn free() -> Self
        ensures { result ≡ FREE }
    {
        Group {
            marks: [0; 20],
            passed: 0,
            ids: [0; 10],
        }
    }

    /// Returns the free slots, as bits.
    pub(crate) fn free_slots(&self) -> u64
        ensures slots { result ≡ slots_with self.now 0 }
        ensures bound { result < 1024 }
    {
        u8x16::from_slice(&self.marks)
            .simd_eq(u8x16::splat(0))
            .to_bitmask()
            % 1024
    }

    /// Returns the slots with `tag` and `distance`, as bits.
    #[inline(always)]
    pub(crate) fn slots_of(&self, tag: u8, distance: usize) -> u64
        ensures slots { result ≡ slots_of self.now tag (min distance FAR) }
        ensures bound { result < 1024 }
    {
        let distance = distance.min(FAR) as u8;
        let tagged = u8x16::from_slice(&self.marks).simd_eq(u8x16::splat(tag));
        let distant = u8x16::from_slice(&self.marks[4..]).simd_eq(u8x16::splat(distance));
        tagged.to_bitmask() % 1024 & distant.to_bitmask() >> 6
    }

    /// Returns the slot of `id`, if it is here with `tag` and `distance`.
    pub(crate) fn slot_of(&self, tag: u8, distance: usize, id: u32) -> Option<usize>
        ensures some { IfSome result (HasAt self.now tag (min distance FAR) id) }
        ensures none { IfNone result (is_among id (slots_of self.now tag (min distance FAR)) self.now.ids ≡ false) }
    {
        let mut found = self.slots_of(tag, distance);
        while found != 0 {
            let slot = found.trailing_zeros() as usize;
            if self.ids[slot] == id {
                return Some(slot);
            }
            found -= 1 << slot;
        }
        None
    }

    /// Puts `id` at `slot`.
    pub(crate) fn put(&mut self, slot: usize, tag: u8, distance: usize, id: u32)
        requires { slot < SLOTS }
        ensures { self.new ≡ with_id self.old slot tag (min distance FAR) id }
    {
        self.marks[slot] = tag;
        self.marks[SLOTS + slot] = distance.min(FAR) as u8;
        self.ids[slot] = id;
    }

    /// Frees `slot`.
    pub(crate) fn clear(&mut self, slot: usize)
        requires { slot < SLOTS }
        ensures { self.new ≡ without self.old slot }
    {
        self.marks[slot] = 0;
    }
}

/// Returns the number of groups of a table for `ids` ids.
#[inline]
pub(crate) fn groups_of(ids: usize) -> usize
    requires { ids ≤ MAX_IDS }
    ensures { result ≡ groups_of ids }
{
    ids / SHARE + 1
}

/// Returns the group at which a search for `hash` starts, and the tag of `hash`, which is never 0.
#[inline(always)]
pub(crate) fn probe_of(groups: usize, hash: u64) -> (usize, u8)
    ensures home { result.0 ≡ home_group groups hash }
    ensures tag { result.1 ≡ tag_of groups hash }
{
    let spread = u128::from(hash.wrapping_mul(SPREAD)) * groups as u128;
    ((spread >> 64) as usize, ((spread >> 56) % 256).max(1) as u8)
}

/// Returns the group after `at`, round and round.
#[inline]
pub(crate) fn after(groups: usize, at: usize) -> usize
    requires { at < groups }
    ensures is { result ≡ after groups at }
    ensures inside { result < groups }
{
    if at + 1 == groups { 0 } else { at + 1 }
}
