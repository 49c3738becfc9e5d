// The change of an entry's value in place.
ghost use Rattle.std.specs.Prelude.{◌≡◌, ◌<◌, ◌^◌, IsSome, IfSome, nat_eq};
ghost use Rattle.std.specs.Fn.{FnOnceReturnsAtMut, FnOnceTakesAtMut};
ghost use Rattle.std.specs.Map.{lookup};
ghost use Rattle.moka_store.specs.Store.{Modifies};

use crate::parts::{attach, balance, used_part, write_again};
use crate::store::Store;
use moka_common::time::Instant;
use moka_common::weigh::Weigh;
use moka_list::chain::NodeId;
use moka_unsync_model::entry::{Entry, Part};
use std::alloc::Allocator;

/// When an entry was used last, and when it expires: see `Entry`.
#[derive(Clone, Copy)]
pub struct Moments {
    pub accessed: Instant,
    pub deadline: Instant,
    pub outlasts: bool,
}

impl<K: Eq + Drop, V: Drop, A: Allocator + Clone + Drop> Store<K, V, A> {
    /// Changes an entry's value, weighs it under this key, and gives the entry these moments. That is an access and a write, as in `update`.
    pub fn modify<W: Weigh<K, V>, F: FnOnce(&mut V)>(
        &mut self,
        id: NodeId,
        key: &K,
        weigher: &mut W,
        moments: Moments,
        change: F,
    )
        requires stands { IsSome (lookup (nat_eq id) self.old.nodes) }
        requires callable { (value : V) → FnOnceTakesAtMut F.FnOnce change value }
        requires ready { W.ready weigher.old }
        ensures step { Modifies K.eq (λ old new. FnOnceReturnsAtMut F.FnOnce change old tt new) (λ value weight. W.weighs weigher.old key.now value weight
            weigher.new) self.old id moments self.new }
        ensures ready { W.ready weigher.new }
    {
        self.marks.pass(&self.entries, id);
        let entry = self.entries.get_mut(id);
        let (part, before) = (entry.part, entry.weight);
        let weight = changed(entry, key, weigher, change);
        let used = used_part(self.protected_limit, part, weight);
        self.weights.take(part, before);
        self.weights.add(used, weight);
        set(entry, used, weight, moments);
        attach(&mut self.entries, &mut self.marks, id, used);
        balance(
            &mut self.entries,
            &mut self.marks,
            &mut self.weights,
            self.protected_limit,
        );
        write_again(&mut self.writes, self.keeps_writes, id);
    }
}

/// Changes the value of an entry, and returns what it weighs then under this key.
#[inline]
fn changed<K: Drop, V: Drop, W: Weigh<K, V>, F: FnOnce(&mut V)>(
    entry: &mut Entry<K, V>,
    key: &K,
    weigher: &mut W,
    change: F,
) -> u32
    requires callable { FnOnceTakesAtMut F.FnOnce change entry.old.value }
    requires ready { W.ready weigher.old }
    ensures changed { FnOnceReturnsAtMut F.FnOnce change entry.old.value tt entry.new.value }
    ensures rest { entry.new ≡ record entry.old { value = entry.new.value } }
    ensures weighed { W.weighs weigher.old key.now entry.new.value result weigher.new }
    ensures small { result < 2 ^ 32 }
    ensures ready { W.ready weigher.new }
{
    change(&mut entry.value);
    weigher.weigh(key, &entry.value)
}

/// Gives an entry a part, a weight and moments.
#[inline]
fn set<K: Drop, V: Drop>(entry: &mut Entry<K, V>, part: Part, weight: u32, moments: Moments)
    ensures { entry.new ≡ record entry.old {
      part = part;
      weight = weight;
      accessed = moments.accessed;
      deadline = moments.deadline;
      outlasts = moments.outlasts;
    } }
{
    entry.part = part;
    entry.weight = weight;
    entry.accessed = moments.accessed;
    entry.deadline = moments.deadline;
    entry.outlasts = moments.outlasts;
}
