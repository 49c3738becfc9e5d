// The three parts of the list of all entries: the first node of each, and their weights; and the order of writing, which is kept if there is a time to live.
ghost use Rattle.std.specs.Prelude.{◌≡◌, ◌<◌, ◌≤◌, ◌+◌, ◌-◌, ◌^◌, ◌&&◌, None, Some, false, nat_eq, nat_le, nat_lt, true};
ghost use Rattle.moka_list.specs.IdList.{is_listed};
ghost use Rattle.std.specs.Map.{lookup, remove_entry};
ghost use Rattle.moka_list.specs.Nodes.{IsIn, next_id};
ghost use Rattle.moka_unsync_model.specs.declared.entry.Entry.{Entry as EntryValue};
ghost use Rattle.moka_unsync_model.specs.Contents.{is_protected, is_window};
ghost use Rattle.moka_unsync_model.specs.Lookup.{used_part};
ghost use Rattle.moka_store.specs.Store.{is_of};
ghost use Rattle.moka_store.specs.Nodes.{AreMarks, Demotes, IsBalanced, IsLoose, IsParted, behind, latest_node, passed, share, with_mark};
ghost use Rattle.moka_store.specs.Nodes.{write_added, write_last, write_left};

use moka_list::chain::{Chain, IdList, NodeId};
use moka_unsync_model::entry::{Entry, Part};
use std::alloc::Allocator;
use std::mem::replace;

/// Tells if two parts are the same.
#[inline(always)]
pub(crate) fn is_of(part: Part, other: Part) -> bool
    ensures { result ≡ is_of part other }
{
    match (part, other) {
        (Part::Probation, Part::Probation) => true,
        (Part::Protected, Part::Protected) => true,
        (Part::Window, Part::Window) => true,
        _ => false,
    }
}

/// Returns the part of an entry after it was used.
#[inline(always)]
pub(crate) fn used_part(limit: u64, part: Part, weight: u32) -> Part
    ensures { result ≡ used_part limit part weight }
{
    if matches!(part, Part::Window) {
        return Part::Window;
    }
    if may_be_protected(limit, weight) {
        return Part::Protected;
    }
    Part::Probation
}

/// Returns `true` if an entry of this weight fits into protected, whose weight limit this is.
#[inline(always)]
pub(crate) fn may_be_protected(limit: u64, weight: u32) -> bool
    ensures { result ≡ (nat_lt 0 limit && nat_le weight limit) }
{
    0 < limit && u64::from(weight) <= limit
}

/// Replaces an entry's value, weight, moments and part, and keeps its key. Returns the other key and the old value.
#[inline]
pub(crate) fn rewrite<K: Drop, V: Drop>(
    entry: &mut Entry<K, V>,
    part: Part,
    update: Entry<K, V>,
) -> (K, V)
    ensures entry { entry.new ≡ record update { key = entry.old.key; hash = entry.old.hash; part = part } }
    ensures left { result ≡ (update.key, entry.old.value) }
{
    let value = replace(&mut entry.value, update.value);
    entry.weight = update.weight;
    entry.part = part;
    entry.accessed = update.accessed;
    entry.deadline = update.deadline;
    entry.outlasts = update.outlasts;
    (update.key, value)
}

/// The first node after probation, and the first of the window.
#[derive(Drop)]
pub(crate) struct Marks {
    pub(crate) late: Option<NodeId>,
    pub(crate) window: Option<NodeId>,
}

impl Marks {
    /// Makes the marks of an empty list.
    pub(crate) fn none() -> Self
        ensures { result ≡ record { late = None; window = None } }
    {
        Marks {
            late: None,
            window: None,
        }
    }

    /// Moves the marks off a node that is about to leave its place.
    #[inline(always)]
    pub(crate) fn pass<K: Drop, V: Drop, A: Allocator>(
        &mut self,
        entries: &Chain<Entry<K, V>, A>,
        id: NodeId,
    )
        requires here { IsIn entries.now.items id }
        ensures { self.new ≡ record {
          late = passed id (next_id id entries.now.items) self.old.late;
          window = passed id (next_id id entries.now.items) self.old.window;
        } }
    {
        if self.late == Some(id) {
            self.late = entries.next(id);
        }
        if self.window == Some(id) {
            self.window = entries.next(id);
        }
    }

    /// Sets the marks for a node that has become the last of its part. Returns the first node after that part.
    #[inline(always)]
    fn join(&mut self, id: NodeId, part: Part) -> Option<NodeId>
        ensures next { result ≡ behind part self.old }
        ensures marks { self.new ≡ with_mark id part self.old }
    {
        match part {
            Part::Probation => self.late,
            Part::Protected => {
                if self.late == self.window {
                    self.late = Some(id);
                }
                self.window
            }
            Part::Window => {
                if self.late.is_none() {
                    self.late = Some(id);
                }
                if self.window.is_none() {
                    self.window = Some(id);
                }
                None
            }
        }
    }
}

/// Makes a node the last of its part. The marks are those of the other nodes.
#[inline(always)]
pub(crate) fn attach<K: Drop, V: Drop, A: Allocator>(
    entries: &mut Chain<Entry<K, V>, A>,
    marks: &mut Marks,
    id: NodeId,
    part: Part,
)
    requires { IsLoose entries.old.items marks.old id part }
    ensures items { (e : EntryValue K V) → lookup (nat_eq id) entries.old.items ≡ Some e
        → entries.new.items ≡ latest_node (id, e) (remove_entry (nat_eq id) entries.old.items) }
    ensures marks { AreMarks entries.new.items marks.new }
    ensures unchanged { entries.new ≡ record entries.old { items = entries.new.items } }
{
    match marks.join(id, part) {
        Some(next) => entries.move_before(id, next),
        None => {
            // A node at the back stays there.
            if entries.next(id).is_some() {
                entries.move_to_back(id);
            }
        }
    }
}

/// Total weight of all entries, of protected and of the window.
#[derive(Clone, Copy, Drop)]
pub(crate) struct Weights {
    pub(crate) all: u64,
    pub(crate) protected: u64,
    pub(crate) window: u64,
}

impl Weights {
    /// Makes the weights of an empty store.
    pub(crate) fn none() -> Self
        ensures { result ≡ record { all = 0; protected = 0; window = 0 } }
    {
        Weights {
            all: 0,
            protected: 0,
            window: 0,
        }
    }

    /// Adds an entry.
    #[inline(always)]
    pub(crate) fn add(&mut self, part: Part, weight: u32)
        requires fits { weight < 2 ^ 32 → self.old.all + weight < 2 ^ 64 }
        requires protected { self.old.protected ≤ self.old.all }
        requires window { self.old.window ≤ self.old.all }
        ensures value { self.new ≡ record {
          all = self.old.all + weight;
          protected = self.old.protected + share (is_protected part) weight;
          window = self.old.window + share (is_window part) weight;
        } }
        ensures small { weight < 2 ^ 32 }
    {
        let weight = u64::from(weight);
        self.all += weight;
        match part {
            Part::Probation => (),
            Part::Protected => self.protected += weight,
            Part::Window => self.window += weight,
        }
    }

    /// Takes an entry off.
    #[inline(always)]
    pub(crate) fn take(&mut self, part: Part, weight: u32)
        requires all { weight ≤ self.old.all }
        requires protected { share (is_protected part) weight ≤ self.old.protected }
        requires window { share (is_window part) weight ≤ self.old.window }
        ensures { self.new ≡ record {
          all = self.old.all - weight;
          protected = self.old.protected - share (is_protected part) weight;
          window = self.old.window - share (is_window part) weight;
        } }
    {
        let weight = u64::from(weight);
        self.all -= weight;
        match part {
            Part::Probation => (),
            Part::Protected => self.protected -= weight,
            Part::Window => self.window -= weight,
        }
    }

    /// Moves an entry's weight to another part.
    #[inline(always)]
    pub(crate) fn shift(&mut self, from: Part, to: Part, weight: u32)
        requires protected { share (is_protected from) weight ≤ self.old.protected }
        requires window { share (is_window from) weight ≤ self.old.window }
        requires protected_fits { self.old.protected - share (is_protected from) weight + weight ≤ self.old.all }
        requires window_fits { self.old.window - share (is_window from) weight + weight ≤ self.old.all }
        ensures value { self.new ≡ record {
          all = self.old.all;
          protected = self.old.protected - share (is_protected from) weight + share (is_protected to) weight;
          window = self.old.window - share (is_window from) weight + share (is_window to) weight;
        } }
        ensures small { weight < 2 ^ 32 }
    {
        if is_of(from, to) {
            return;
        }
        let weight = u64::from(weight);
        match from {
            Part::Probation => (),
            Part::Protected => self.protected -= weight,
            Part::Window => self.window -= weight,
        }
        match to {
            Part::Probation => (),
            Part::Protected => self.protected += weight,
            Part::Window => self.window += weight,
        }
    }
}

/// Moves protected's least recently used entries to probation until protected weighs no more than `limit`. This changes their part and a mark, and no link.
/// One call may move many light entries; it is O(1) per access, amortized.
#[inline(always)]
pub(crate) fn balance<K: Drop, V: Drop, A: Allocator>(
    entries: &mut Chain<Entry<K, V>, A>,
    marks: &mut Marks,
    weights: &mut Weights,
    limit: u64,
)
    requires { IsParted entries.old.items marks.old weights.old }
    ensures step { IsBalanced limit entries.old.items entries.new.items }
    ensures parted { IsParted entries.new.items marks.new weights.new }
    ensures unchanged { entries.new ≡ record entries.old { items = entries.new.items } }
{
    while weights.protected > limit {
        demote_first(entries, marks, weights);
    }
}

/// Makes protected's first entry probation's last.
#[cold]
#[inline(never)]
fn demote_first<K: Drop, V: Drop, A: Allocator>(
    entries: &mut Chain<Entry<K, V>, A>,
    marks: &mut Marks,
    weights: &mut Weights,
)
    requires some { 0 < weights.old.protected }
    requires parted { IsParted entries.old.items marks.old weights.old }
    ensures step { Demotes entries.old.items entries.new.items }
    ensures parted { IsParted entries.new.items marks.new weights.new }
    ensures unchanged { entries.new ≡ record entries.old { items = entries.new.items } }
{
    let Some(id) = marks.late else {
        return;
    };
    let entry = entries.get_mut(id);
    entry.part = Part::Probation;
    weights.protected -= u64::from(entry.weight);
    marks.late = entries.next(id);
}

/// Adds the write of a new node.
#[inline(always)]
pub(crate) fn add_write<A: Allocator>(writes: &mut IdList<A>, keeps_writes: bool, id: NodeId)
    requires room { keeps_writes ≡ true → id < writes.old.capacity }
    requires absent { is_listed writes.old.ids id ≡ false }
    ensures ids { writes.new.ids ≡ write_added keeps_writes id writes.old.ids }
    ensures capacity { writes.new.capacity ≡ writes.old.capacity }
{
    if keeps_writes {
        writes.push_back(id);
    }
}

/// Makes a node's write the last.
#[inline(always)]
pub(crate) fn write_again<A: Allocator>(writes: &mut IdList<A>, keeps_writes: bool, id: NodeId)
    requires { keeps_writes ≡ true → is_listed writes.old.ids id ≡ true }
    ensures ids { writes.new.ids ≡ write_last keeps_writes id writes.old.ids }
    ensures capacity { writes.new.capacity ≡ writes.old.capacity }
{
    if keeps_writes {
        writes.move_to_back(id);
    }
}

/// Removes the write of a node.
#[inline(always)]
pub(crate) fn remove_write<A: Allocator>(writes: &mut IdList<A>, keeps_writes: bool, id: NodeId)
    requires { keeps_writes ≡ true → is_listed writes.old.ids id ≡ true }
    ensures ids { writes.new.ids ≡ write_left keeps_writes id writes.old.ids }
    ensures capacity { writes.new.capacity ≡ writes.old.capacity }
{
    if keeps_writes {
        writes.remove(id);
    }
}
